//! Tells what a token stands for in an expression: which operator or word, and of which level.

ghost use Rattle.std.specs.Prelude.{◌≡◌, [], ◌∷◌, IfSome};
ghost use Rattle.syntax_tree.specs.declared.token.TokenKind.TheVariants as kind;
ghost use Rattle.syntax_tree.specs.Words.{symbol, word, constant_word, quantifier_word, multiplicity_word, prefix_token, comparator_token, infix_words};

use crate::setting::Setting;
use syntax_tree::{
    Comparator, Constant, Infix, Multiplicity, Prefix, Quantifier, Symbol, Token, TokenKind, Word,
};

/// The level of a primary.
pub const PRIMARY: u8 = 19;

/// The level of a multiplicity word before an expression.
pub const MULTIPLICITY: u8 = 9;

pub fn constant(of: Word) -> Option<Constant>
    ensures { IfSome result (λ c. of ≡ constant_word c) }
{
    match of {
        Word::This => Some(Constant::This),
        Word::Univ => Some(Constant::Univ),
        Word::Iden => Some(Constant::Iden),
        Word::None => Some(Constant::None),
        Word::Int => Some(Constant::Int),
        Word::String => Some(Constant::String),
        _ => None,
    }
}

pub fn quantifier(of: Word) -> Option<Quantifier>
    ensures { IfSome result (λ q. of ≡ quantifier_word q) }
{
    match of {
        Word::All => Some(Quantifier::All),
        Word::No => Some(Quantifier::No),
        Word::Some => Some(Quantifier::Some),
        Word::Lone => Some(Quantifier::Lone),
        Word::One => Some(Quantifier::One),
        Word::Sum => Some(Quantifier::Sum),
        _ => None,
    }
}

pub fn multiplicity(of: Word) -> Option<Multiplicity>
    ensures { IfSome result (λ m. of ≡ multiplicity_word m) }
{
    match of {
        Word::Set => Some(Multiplicity::Set),
        Word::One => Some(Multiplicity::One),
        Word::Lone => Some(Multiplicity::Lone),
        Word::Some => Some(Multiplicity::Some),
        _ => None,
    }
}

fn prefix_word(of: Word) -> Option<Prefix>
    ensures { IfSome result (λ p. prefix_token p ≡ word of) }
{
    match of {
        Word::Not => Some(Prefix::Not),
        Word::Always => Some(Prefix::Always),
        Word::Eventually => Some(Prefix::Eventually),
        Word::After => Some(Prefix::After),
        Word::Before => Some(Prefix::Before),
        Word::Historically => Some(Prefix::Historically),
        Word::Once => Some(Prefix::Once),
        Word::No => Some(Prefix::No),
        Word::Some => Some(Prefix::Some),
        Word::Lone => Some(Prefix::Lone),
        Word::One => Some(Prefix::One),
        _ => None,
    }
}

fn prefix_symbol(of: Symbol) -> Option<Prefix>
    ensures { IfSome result (λ p. prefix_token p ≡ symbol of) }
{
    match of {
        Symbol::Bang => Some(Prefix::Bang),
        Symbol::Hash => Some(Prefix::Count),
        Symbol::Tilde => Some(Prefix::Transpose),
        Symbol::Caret => Some(Prefix::Closure),
        Symbol::Star => Some(Prefix::ReflexiveClosure),
        _ => None,
    }
}

/// The operator that begins an operand with this token.
pub fn prefix(of: &TokenKind) -> Option<Prefix>
    ensures { IfSome result (λ p. prefix_token p ≡ of.now) }
{
    match of {
        TokenKind::Word(word) => prefix_word(*word),
        TokenKind::Symbol(symbol) => prefix_symbol(*symbol),
        _ => None,
    }
}

/// The level of a prefix operator.
pub fn prefix_level(of: Prefix) -> u8 {
    match of {
        Prefix::No | Prefix::Some | Prefix::Lone | Prefix::One => 9,
        Prefix::Count => 11,
        Prefix::Transpose | Prefix::Closure | Prefix::ReflexiveClosure => 17,
        _ => 7,
    }
}

/// The comparison that this token stands for.
pub fn comparator(of: &TokenKind) -> Option<Comparator>
    ensures { IfSome result (λ c. comparator_token c ≡ of.now) }
{
    match of {
        TokenKind::Word(Word::In) => Some(Comparator::In),
        TokenKind::Symbol(Symbol::Equal) => Some(Comparator::Equal),
        TokenKind::Symbol(Symbol::Less) => Some(Comparator::Less),
        TokenKind::Symbol(Symbol::Greater) => Some(Comparator::Greater),
        TokenKind::Symbol(Symbol::EqualLess) => Some(Comparator::EqualLess),
        TokenKind::Symbol(Symbol::LessEqual) => Some(Comparator::LessEqual),
        TokenKind::Symbol(Symbol::GreaterEqual) => Some(Comparator::GreaterEqual),
        _ => None,
    }
}

fn infix_word(of: Word) -> Option<Infix>
    ensures { IfSome result (λ i. infix_words i ≡ word of ∷ []) }
{
    match of {
        Word::Or => Some(Infix::Or),
        Word::Iff => Some(Infix::Iff),
        Word::And => Some(Infix::And),
        Word::Until => Some(Infix::Until),
        Word::Releases => Some(Infix::Releases),
        Word::Since => Some(Infix::Since),
        Word::Triggered => Some(Infix::Triggered),
        _ => None,
    }
}

fn infix_symbol(of: Symbol) -> Option<Infix>
    ensures { IfSome result (λ i. infix_words i ≡ symbol of ∷ []) }
{
    match of {
        Symbol::OrOr => Some(Infix::OrOr),
        Symbol::Equivalence => Some(Infix::Equivalence),
        Symbol::AndAnd => Some(Infix::AndAnd),
        Symbol::Plus => Some(Infix::Plus),
        Symbol::Minus => Some(Infix::Minus),
        Symbol::PlusPlus => Some(Infix::Override),
        Symbol::Ampersand => Some(Infix::Intersection),
        Symbol::Domain => Some(Infix::Domain),
        Symbol::Range => Some(Infix::Range),
        _ => None,
    }
}

/// The operator of one token that groups to the left.
pub fn infix(of: &TokenKind) -> Option<Infix>
    ensures { IfSome result (λ i. infix_words i ≡ of.now ∷ []) }
{
    match of {
        TokenKind::Word(word) => infix_word(*word),
        TokenKind::Symbol(symbol) => infix_symbol(*symbol),
        _ => None,
    }
}

fn word_level(of: Word) -> u8 {
    match of {
        Word::Or => 2,
        Word::Iff => 3,
        Word::Implies => 4,
        Word::And => 5,
        Word::Until | Word::Releases | Word::Since | Word::Triggered => 6,
        Word::In => 8,
        Word::Fun => 10,
        _ => 0,
    }
}

fn symbol_level(of: Symbol) -> u8 {
    match of {
        Symbol::Semicolon => 1,
        Symbol::OrOr => 2,
        Symbol::Equivalence => 3,
        Symbol::FatArrow => 4,
        Symbol::AndAnd => 5,
        Symbol::Equal
        | Symbol::Less
        | Symbol::Greater
        | Symbol::EqualLess
        | Symbol::LessEqual
        | Symbol::GreaterEqual => 8,
        Symbol::Plus | Symbol::Minus => 10,
        Symbol::PlusPlus => 12,
        Symbol::Ampersand => 13,
        Symbol::Arrow => 14,
        Symbol::Domain | Symbol::Range => 15,
        Symbol::Dot | Symbol::OpenBracket => 16,
        Symbol::Prime => 18,
        _ => 0,
    }
}

fn is_negation(of: &TokenKind) -> bool {
    matches!(
        of,
        TokenKind::Word(Word::Not) | TokenKind::Symbol(Symbol::Bang)
    )
}

/// Whether the token is a multiplicity word.
pub fn is_multiplicity(of: &TokenKind) -> bool {
    match of {
        TokenKind::Word(word) => multiplicity(*word).is_some(),
        _ => false,
    }
}

fn is_arrow(of: &TokenKind) -> bool {
    matches!(of, TokenKind::Symbol(Symbol::Arrow))
}

/// The level of the operator that the next token may begin after an operand, or 0 where it begins none.
pub fn operator_level(rest: &[Token]) -> u8 {
    let [first, ..] = rest else {
        return 0;
    };
    if is_negation(&first.kind) {
        return 8;
    }
    if is_multiplicity(&first.kind) {
        return 14;
    }
    match &first.kind {
        TokenKind::Word(word) => word_level(*word),
        TokenKind::Symbol(symbol) => symbol_level(*symbol),
        _ => 0,
    }
}

/// Whether the next token is only the first one of an operator.
pub fn begins_pair(rest: &[Token]) -> bool {
    match rest {
        [first, ..] => is_negation(&first.kind) || is_multiplicity(&first.kind),
        [] => false,
    }
}

/// Whether the token after the next one makes an operator of both.
pub fn is_pair(rest: &[Token]) -> bool {
    match rest {
        [first, second, ..] => {
            (is_negation(&first.kind) && comparator(&second.kind).is_some())
                || (is_multiplicity(&first.kind) && is_arrow(&second.kind))
        }
        _ => false,
    }
}

/// Whether names with commas between them and then a colon come next.
fn names_then_colon(rest: &[Token]) -> bool {
    let mut is_name = true;
    for token in rest {
        match &token.kind {
            TokenKind::Name(_) if is_name => is_name = false,
            TokenKind::Symbol(Symbol::Comma) if !is_name => is_name = true,
            TokenKind::Symbol(Symbol::Colon) => return !is_name,
            _ => return false,
        }
    }
    false
}

fn is_colon(of: &TokenKind) -> bool {
    matches!(of, TokenKind::Symbol(Symbol::Colon))
}

/// How many tokens stand before the first colon.
fn before_colon(rest: &[Token]) -> usize {
    for place in 0..rest.len() {
        if is_colon(&rest[place].kind) {
            return place;
        }
    }
    0
}

/// Where a form with variables begins, how many tokens stand before the one that tells it from a
/// word and an operand.
pub fn form_token(rest: &[Token], has_comma: bool) -> usize {
    match rest {
        [_, first, ..] if matches!(&first.kind, TokenKind::Word(Word::Disj)) => 1,
        _ if has_comma => before_colon(rest),
        _ => 2,
    }
}

/// Whether variables with a bound come next. Where no comma may follow an expression, two tokens decide that.
pub fn begins_decls(rest: &[Token], has_comma: bool) -> bool {
    match rest {
        [first, ..] if matches!(&first.kind, TokenKind::Word(Word::Disj)) => true,
        [first, second, ..] if matches!(&first.kind, TokenKind::Name(_)) => match &second.kind {
            TokenKind::Symbol(Symbol::Colon) => true,
            TokenKind::Symbol(Symbol::Comma) => !has_comma || names_then_colon(rest),
            _ => false,
        },
        _ => false,
    }
}

/// Whether a form with variables or a `let` comes next, where an operand of this level may stand.
pub fn begins_form(rest: &[Token], least: u8, setting: Setting) -> bool {
    let [first, after @ ..] = rest else {
        return false;
    };
    if !setting.has_forms() {
        return false;
    }
    match &first.kind {
        TokenKind::Word(Word::All | Word::Sum | Word::Let) => true,
        TokenKind::Word(Word::No | Word::Some | Word::Lone | Word::One) => {
            least > MULTIPLICITY || begins_decls(after, setting.has_comma())
        }
        _ => false,
    }
}

fn word_begins(of: Word) -> bool {
    constant(of).is_some()
        || quantifier(of).is_some()
        || prefix_word(of).is_some()
        || matches!(of, Word::Let)
}

fn symbol_begins(of: Symbol) -> bool {
    match of {
        Symbol::Minus | Symbol::At | Symbol::OpenParenthesis | Symbol::OpenBrace => true,
        _ => prefix_symbol(of).is_some(),
    }
}

/// Whether an expression can begin with this token.
pub fn begins_expr(of: &TokenKind) -> bool {
    match of {
        TokenKind::Name(_) | TokenKind::Number(_) | TokenKind::Literal(_) => true,
        TokenKind::Word(word) => word_begins(*word),
        TokenKind::Symbol(symbol) => symbol_begins(*symbol),
        TokenKind::End => false,
    }
}
