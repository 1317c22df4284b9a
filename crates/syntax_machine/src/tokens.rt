//! What a token is, where a part of the grammar asks.

ghost use Rattle.std.specs.Prelude.{◌≡◌, Option};
ghost use Rattle.syntax_machine.specs.Machine as machine;
ghost use Rattle.syntax_machine.specs.Modules as modules;

use crate::thread::Expected;
use base_types::Name;
use syntax_tree::{Constant, Multiplicity, Prefix, Quantifier, Symbol, TokenKind, Word};

/// The constant that a reserved word is.
pub fn constant_of(word: Word) -> Option<Constant>
    ensures { result ≡ machine.constant_of word }
{
    match word {
        Word::This => Some(Constant::This),
        Word::Univ => Some(Constant::Univ),
        Word::Iden => Some(Constant::Iden),
        Word::None => Some(Constant::None),
        Word::Int => Some(Constant::Int),
        Word::String => Some(Constant::String),
        _ => None,
    }
}

/// The quantifier that a reserved word is.
pub fn quantifier_of(word: Word) -> Option<Quantifier>
    ensures { result ≡ machine.quantifier_of word }
{
    match word {
        Word::All => Some(Quantifier::All),
        Word::No => Some(Quantifier::No),
        Word::Some => Some(Quantifier::Some),
        Word::Lone => Some(Quantifier::Lone),
        Word::One => Some(Quantifier::One),
        Word::Sum => Some(Quantifier::Sum),
        _ => None,
    }
}

/// The multiplicity that a reserved word is.
fn multiplicity_of(word: Word) -> Option<Multiplicity>
    ensures { result ≡ machine.multiplicity_of word }
{
    match word {
        Word::Set => Some(Multiplicity::Set),
        Word::One => Some(Multiplicity::One),
        Word::Lone => Some(Multiplicity::Lone),
        Word::Some => Some(Multiplicity::Some),
        _ => None,
    }
}

/// The operator that a reserved word is before its operand.
pub fn prefix_word(word: Word) -> Option<Prefix>
    ensures { result ≡ machine.prefix_word word }
{
    match word {
        Word::Not => Some(Prefix::Not),
        Word::Always => Some(Prefix::Always),
        Word::Eventually => Some(Prefix::Eventually),
        Word::After => Some(Prefix::After),
        Word::Before => Some(Prefix::Before),
        Word::Historically => Some(Prefix::Historically),
        Word::Once => Some(Prefix::Once),
        Word::No => Some(Prefix::No),
        Word::Some => Some(Prefix::Some),
        Word::Lone => Some(Prefix::Lone),
        Word::One => Some(Prefix::One),
        _ => None,
    }
}

/// The operator that a symbol is before its operand.
pub fn prefix_symbol(symbol: Symbol) -> Option<Prefix>
    ensures { result ≡ machine.prefix_symbol symbol }
{
    match symbol {
        Symbol::Bang => Some(Prefix::Bang),
        Symbol::Hash => Some(Prefix::Count),
        Symbol::Tilde => Some(Prefix::Transpose),
        Symbol::Caret => Some(Prefix::Closure),
        Symbol::Star => Some(Prefix::ReflexiveClosure),
        _ => None,
    }
}

/// Whether it is `|`.
pub fn is_bar(token: &TokenKind) -> bool
    ensures { result ≡ machine.a_symbol machine.is_symbol_bar token.now }
{
    matches!(token, TokenKind::Symbol(Symbol::Bar))
}

/// Whether it is `,`.
pub fn is_comma(token: &TokenKind) -> bool
    ensures { result ≡ machine.a_symbol machine.is_symbol_comma token.now }
{
    matches!(token, TokenKind::Symbol(Symbol::Comma))
}

/// Whether it is `/`.
pub fn is_slash(token: &TokenKind) -> bool
    ensures { result ≡ machine.a_symbol machine.is_symbol_slash token.now }
{
    matches!(token, TokenKind::Symbol(Symbol::Slash))
}

/// Whether it is `:`.
pub fn is_colon(token: &TokenKind) -> bool
    ensures { result ≡ machine.a_symbol machine.is_symbol_colon token.now }
{
    matches!(token, TokenKind::Symbol(Symbol::Colon))
}

/// Whether it is `=`.
pub fn is_equal(token: &TokenKind) -> bool
    ensures { result ≡ machine.a_symbol machine.is_symbol_equal token.now }
{
    matches!(token, TokenKind::Symbol(Symbol::Equal))
}

/// Whether it is `->`.
pub fn is_arrow(token: &TokenKind) -> bool
    ensures { result ≡ machine.a_symbol machine.is_symbol_arrow token.now }
{
    matches!(token, TokenKind::Symbol(Symbol::Arrow))
}

/// Whether it is `.`.
pub fn is_dot(token: &TokenKind) -> bool
    ensures { result ≡ machine.a_symbol machine.is_symbol_dot token.now }
{
    matches!(token, TokenKind::Symbol(Symbol::Dot))
}

/// Whether it is `{`.
pub fn opens_brace(token: &TokenKind) -> bool
    ensures { result ≡ machine.a_symbol machine.opens_brace token.now }
{
    matches!(token, TokenKind::Symbol(Symbol::OpenBrace))
}

/// Whether it is `}`.
pub fn closes_brace(token: &TokenKind) -> bool
    ensures { result ≡ machine.a_symbol machine.closes_brace token.now }
{
    matches!(token, TokenKind::Symbol(Symbol::CloseBrace))
}

/// Whether it is `]`.
pub fn closes_bracket(token: &TokenKind) -> bool
    ensures { result ≡ machine.a_symbol machine.closes_bracket token.now }
{
    matches!(token, TokenKind::Symbol(Symbol::CloseBracket))
}

/// Whether it is `)`.
pub fn closes_parenthesis(token: &TokenKind) -> bool
    ensures { result ≡ machine.a_symbol machine.closes_parenthesis token.now }
{
    matches!(token, TokenKind::Symbol(Symbol::CloseParenthesis))
}

/// Whether it is `[`.
pub fn opens_bracket(token: &TokenKind) -> bool
    ensures { result ≡ machine.a_symbol modules.opens_bracket token.now }
{
    matches!(token, TokenKind::Symbol(Symbol::OpenBracket))
}

/// Whether it is `(`.
pub fn opens_parenthesis(token: &TokenKind) -> bool
    ensures { result ≡ machine.a_symbol modules.opens_parenthesis token.now }
{
    matches!(token, TokenKind::Symbol(Symbol::OpenParenthesis))
}

/// Whether it is `+`.
pub fn is_plus(token: &TokenKind) -> bool
    ensures { result ≡ machine.a_symbol modules.is_plus token.now }
{
    matches!(token, TokenKind::Symbol(Symbol::Plus))
}

/// Whether it is `disj`.
pub fn is_disj(token: &TokenKind) -> bool
    ensures { result ≡ machine.is_disj token.now }
{
    matches!(token, TokenKind::Word(Word::Disj))
}

/// Whether it is `else`.
pub fn is_else(token: &TokenKind) -> bool
    ensures { result ≡ machine.is_else token.now }
{
    matches!(token, TokenKind::Word(Word::Else))
}

/// Whether it is `module`.
pub fn is_module(token: &TokenKind) -> bool
    ensures { result ≡ modules.a_word modules.is_module token.now }
{
    matches!(token, TokenKind::Word(Word::Module))
}

/// Whether it is `open`.
pub fn is_open(token: &TokenKind) -> bool
    ensures { result ≡ modules.a_word modules.is_open token.now }
{
    matches!(token, TokenKind::Word(Word::Open))
}

/// Whether it is `private`.
pub fn is_private(token: &TokenKind) -> bool
    ensures { result ≡ modules.a_word modules.is_private token.now }
{
    matches!(token, TokenKind::Word(Word::Private))
}

/// Whether it is `exactly`.
pub fn is_exactly(token: &TokenKind) -> bool
    ensures { result ≡ modules.a_word modules.is_exactly token.now }
{
    matches!(token, TokenKind::Word(Word::Exactly))
}

/// Whether it is `as`.
pub fn is_as(token: &TokenKind) -> bool
    ensures { result ≡ modules.a_word modules.is_as token.now }
{
    matches!(token, TokenKind::Word(Word::As))
}

/// Whether it is `for`.
pub fn is_for(token: &TokenKind) -> bool
    ensures { result ≡ modules.a_word modules.is_for token.now }
{
    matches!(token, TokenKind::Word(Word::For))
}

/// Whether it is `expect`.
pub fn is_expect(token: &TokenKind) -> bool
    ensures { result ≡ modules.a_word modules.is_expect token.now }
{
    matches!(token, TokenKind::Word(Word::Expect))
}

/// Whether it is `extends`.
pub fn is_extends(token: &TokenKind) -> bool
    ensures { result ≡ modules.a_word modules.is_extends token.now }
{
    matches!(token, TokenKind::Word(Word::Extends))
}

/// Whether it is `in`.
pub fn is_in(token: &TokenKind) -> bool
    ensures { result ≡ modules.a_word modules.is_in token.now }
{
    matches!(token, TokenKind::Word(Word::In))
}

/// Whether it is `Int`.
pub fn is_int(token: &TokenKind) -> bool
    ensures { result ≡ modules.a_word modules.is_int token.now }
{
    matches!(token, TokenKind::Word(Word::Int))
}

/// Whether it is `int`.
pub fn is_bits(token: &TokenKind) -> bool
    ensures { result ≡ modules.a_word modules.is_bits token.now }
{
    matches!(token, TokenKind::Word(Word::IntScope))
}

/// Whether it is a word before the names of a field.
pub fn is_field_word(token: &TokenKind) -> bool
    ensures { result ≡ modules.a_word modules.is_field_word token.now }
{
    matches!(
        token,
        TokenKind::Word(Word::Private | Word::Var | Word::Disj)
    )
}

/// Whether it is a name.
pub fn is_name(token: &TokenKind) -> bool
    ensures { result ≡ machine.is_name token.now }
{
    matches!(token, TokenKind::Name(_))
}

/// Whether it is a number.
pub fn is_number(token: &TokenKind) -> bool
    ensures { result ≡ modules.is_number token.now }
{
    matches!(token, TokenKind::Number(_))
}

/// Whether it is the end of the text.
pub fn is_end(token: &TokenKind) -> bool
    ensures { result ≡ modules.is_end token.now }
{
    matches!(token, TokenKind::End)
}

/// Whether it is a multiplicity word.
pub fn is_multiplicity(token: &TokenKind) -> bool
    ensures { result ≡ machine.is_mult token.now }
{
    match token {
        TokenKind::Word(word) => match multiplicity_of(*word) {
            None => false,
            Some(_) => true,
        },
        _ => false,
    }
}

/// Whether it names an operation on integers.
fn is_arithmetic(name: &Name) -> bool
    ensures { result ≡ machine.is_arithmetic name.now }
{
    let text = name.text();
    text == "add" || text == "sub" || text == "mul" || text == "div" || text == "rem"
}

/// Whether it is a token that is expected.
pub fn matches(expected: Expected, token: &TokenKind) -> bool
    ensures { result ≡ machine.matches expected token.now }
{
    match expected {
        Expected::Name => is_name(token),
        Expected::Number => is_number(token),
        Expected::Arithmetic => match token {
            TokenKind::Name(name) => is_arithmetic(name),
            _ => false,
        },
        Expected::Multiplicity => is_multiplicity(token),
        Expected::Slash => is_slash(token),
        Expected::Comma => is_comma(token),
        Expected::Colon => is_colon(token),
        Expected::Equal => is_equal(token),
        Expected::Arrow => is_arrow(token),
        Expected::Dot => is_dot(token),
        Expected::OpenBrace => opens_brace(token),
        Expected::CloseBrace => closes_brace(token),
        Expected::Open => matches!(token, TokenKind::Word(Word::Open)),
        Expected::But => matches!(token, TokenKind::Word(Word::But)),
    }
}
