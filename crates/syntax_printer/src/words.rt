//! Spells single tokens, words and operators.

ghost use Rattle.std.specs.Prelude.{◌≡◌, ◌++◌, ◌∷◌, [], OnOk};
ghost use Rattle.syntax_tree.specs.Words as w;
ghost use Rattle.syntax_tree.specs.Spelling as s;
ghost use Rattle.syntax_tree.specs.declared.token.Symbol.TheVariants as sym;

use base_types::Name;
use std::alloc::{AllocError, Global};
use syntax_tree::{
    Comparator, Comparison, Constant, Infix, Multiplicity, Negation, Prefix, Quantifier, Symbol,
    TokenKind, Word,
};

/// A token, where it stands.
pub fn optional(
    stands: bool,
    token: TokenKind,
    words: &mut Vec<TokenKind>,
) -> Result<(), AllocError>
    ensures { OnOk result (words.new.items ≡ words.old.items ++ s.optional stands token) }
{
    if stands {
        words.push(token)?;
    }
    Ok(())
}

/// One token.
pub fn put(token: TokenKind, words: &mut Vec<TokenKind>) -> Result<(), AllocError>
    ensures { OnOk result (words.new.items ≡ words.old.items ++ token ∷ []) }
{
    words.push(token)?;
    Ok(())
}

pub fn word(word: Word, words: &mut Vec<TokenKind>) -> Result<(), AllocError>
    ensures { OnOk result (words.new.items ≡ words.old.items ++ w.word word ∷ []) }
{
    put(TokenKind::Word(word), words)
}

pub fn symbol(symbol: Symbol, words: &mut Vec<TokenKind>) -> Result<(), AllocError>
    ensures { OnOk result (words.new.items ≡ words.old.items ++ w.symbol symbol ∷ []) }
{
    put(TokenKind::Symbol(symbol), words)
}

/// A multiplicity word, where one stands.
pub fn multiplicity(of: Option<Multiplicity>, words: &mut Vec<TokenKind>) -> Result<(), AllocError>
    ensures { OnOk result (words.new.items ≡ words.old.items ++ w.multiplicity_words of) }
{
    match of {
        Some(of) => word(multiplicity_word(of), words),
        None => Ok(()),
    }
}

fn multiplicity_word(of: Multiplicity) -> Word
    ensures { result ≡ w.multiplicity_word of }
{
    match of {
        Multiplicity::Set => Word::Set,
        Multiplicity::One => Word::One,
        Multiplicity::Lone => Word::Lone,
        Multiplicity::Some => Word::Some,
    }
}

pub fn constant_word(constant: Constant) -> Word
    ensures { result ≡ w.constant_word constant }
{
    match constant {
        Constant::This => Word::This,
        Constant::Univ => Word::Univ,
        Constant::Iden => Word::Iden,
        Constant::None => Word::None,
        Constant::Int => Word::Int,
        Constant::String => Word::String,
    }
}

pub fn quantifier_word(quantifier: Quantifier) -> Word
    ensures { result ≡ w.quantifier_word quantifier }
{
    match quantifier {
        Quantifier::All => Word::All,
        Quantifier::No => Word::No,
        Quantifier::Some => Word::Some,
        Quantifier::Lone => Word::Lone,
        Quantifier::One => Word::One,
        Quantifier::Sum => Word::Sum,
    }
}

pub fn prefix_token(operator: Prefix) -> TokenKind
    ensures { result ≡ w.prefix_token operator }
{
    match operator {
        Prefix::Bang => TokenKind::Symbol(Symbol::Bang),
        Prefix::Not => TokenKind::Word(Word::Not),
        Prefix::Always => TokenKind::Word(Word::Always),
        Prefix::Eventually => TokenKind::Word(Word::Eventually),
        Prefix::After => TokenKind::Word(Word::After),
        Prefix::Before => TokenKind::Word(Word::Before),
        Prefix::Historically => TokenKind::Word(Word::Historically),
        Prefix::Once => TokenKind::Word(Word::Once),
        Prefix::No => TokenKind::Word(Word::No),
        Prefix::Some => TokenKind::Word(Word::Some),
        Prefix::Lone => TokenKind::Word(Word::Lone),
        Prefix::One => TokenKind::Word(Word::One),
        Prefix::Count => TokenKind::Symbol(Symbol::Hash),
        Prefix::Transpose => TokenKind::Symbol(Symbol::Tilde),
        Prefix::Closure => TokenKind::Symbol(Symbol::Caret),
        Prefix::ReflexiveClosure => TokenKind::Symbol(Symbol::Star),
    }
}

/// The operator of a link.
pub fn infix(alloc: Global, operator: Infix, words: &mut Vec<TokenKind>) -> Result<(), AllocError>
    ensures { OnOk result (words.new.items ≡ words.old.items ++ w.infix_words operator) }
{
    match operator {
        Infix::OrOr => symbol(Symbol::OrOr, words),
        Infix::Or => word(Word::Or, words),
        Infix::Equivalence => symbol(Symbol::Equivalence, words),
        Infix::Iff => word(Word::Iff, words),
        Infix::AndAnd => symbol(Symbol::AndAnd, words),
        Infix::And => word(Word::And, words),
        Infix::Until => word(Word::Until, words),
        Infix::Releases => word(Word::Releases, words),
        Infix::Since => word(Word::Since, words),
        Infix::Triggered => word(Word::Triggered, words),
        Infix::Plus => symbol(Symbol::Plus, words),
        Infix::Minus => symbol(Symbol::Minus, words),
        Infix::Add => arithmetic(alloc, "add", words),
        Infix::Sub => arithmetic(alloc, "sub", words),
        Infix::Mul => arithmetic(alloc, "mul", words),
        Infix::Div => arithmetic(alloc, "div", words),
        Infix::Rem => arithmetic(alloc, "rem", words),
        Infix::Override => symbol(Symbol::PlusPlus, words),
        Infix::Intersection => symbol(Symbol::Ampersand, words),
        Infix::Arrow(before, after) => arrow(before, after, words),
        Infix::Domain => symbol(Symbol::Domain, words),
        Infix::Range => symbol(Symbol::Range, words),
    }
}

/// `fun/` and a name.
#[tactic(auto, using(crate::proofs::Parts::regrouped))]
fn arithmetic(alloc: Global, name: &str, words: &mut Vec<TokenKind>) -> Result<(), AllocError>
    ensures { OnOk result (words.new.items ≡ words.old.items ++ w.arithmetic name.now) }
{
    word(Word::Fun, words)?;
    symbol(Symbol::Slash, words)?;
    let name = Name::copy(alloc, name)?;
    put(TokenKind::Name(name), words)
}

#[tactic(auto, using(crate::proofs::Parts::regrouped))]
fn arrow(
    before: Option<Multiplicity>,
    after: Option<Multiplicity>,
    words: &mut Vec<TokenKind>,
) -> Result<(), AllocError>
    ensures { OnOk result (words.new.items ≡ words.old.items
        ++ (w.multiplicity_words before ++ w.symbol sym.Arrow ∷ w.multiplicity_words after)) }
{
    multiplicity(before, words)?;
    symbol(Symbol::Arrow, words)?;
    multiplicity(after, words)
}

/// The operator of a comparison.
#[tactic(auto, using(crate::proofs::Parts::regrouped))]
pub fn comparison(of: Comparison, words: &mut Vec<TokenKind>) -> Result<(), AllocError>
    ensures { OnOk result (words.new.items ≡ words.old.items ++ w.comparison_words of) }
{
    negation(of.negation, words)?;
    put(comparator_token(of.comparator), words)?;
    multiplicity(of.word, words)
}

fn negation(of: Negation, words: &mut Vec<TokenKind>) -> Result<(), AllocError>
    ensures { OnOk result (words.new.items ≡ words.old.items ++ w.negation_words of) }
{
    match of {
        Negation::Plain => Ok(()),
        Negation::Bang => symbol(Symbol::Bang, words),
        Negation::Not => word(Word::Not, words),
    }
}

fn comparator_token(comparator: Comparator) -> TokenKind
    ensures { result ≡ w.comparator_token comparator }
{
    match comparator {
        Comparator::In => TokenKind::Word(Word::In),
        Comparator::Equal => TokenKind::Symbol(Symbol::Equal),
        Comparator::Less => TokenKind::Symbol(Symbol::Less),
        Comparator::Greater => TokenKind::Symbol(Symbol::Greater),
        Comparator::EqualLess => TokenKind::Symbol(Symbol::EqualLess),
        Comparator::LessEqual => TokenKind::Symbol(Symbol::LessEqual),
        Comparator::GreaterEqual => TokenKind::Symbol(Symbol::GreaterEqual),
    }
}
