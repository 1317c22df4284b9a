//! Tokens: names, numbers, literals, reserved words and symbols, each with its place.

ghost use Rattle.std.specs.Prelude.{◌≡◌, ◌↔◌, IsTrue};

use base_types::{Name, Position};

/// A symbol of the language. Where one begins with another, the longer one is its own token.
#[derive(Clone, Copy, Debug, PartialEq, Eq)]
pub enum Symbol {
    OpenBracket,
    CloseBracket,
    OpenBrace,
    CloseBrace,
    OpenParenthesis,
    CloseParenthesis,
    Comma,
    Dot,
    Colon,
    Bar,
    Semicolon,
    Prime,
    At,
    Slash,
    Tilde,
    Caret,
    Star,
    Hash,
    Ampersand,
    Plus,
    Minus,
    PlusPlus,
    Arrow,
    /// `<:`
    Domain,
    /// `:>`
    Range,
    Equal,
    Less,
    Greater,
    /// `=<`
    EqualLess,
    /// `<=`
    LessEqual,
    GreaterEqual,
    Bang,
    AndAnd,
    OrOr,
    FatArrow,
    /// `<=>`
    Equivalence,
}

/// A reserved word: no name is spelled so.
#[derive(Clone, Copy, Debug, PartialEq, Eq)]
pub enum Word {
    Abstract,
    After,
    All,
    Always,
    And,
    As,
    Assert,
    Before,
    But,
    Check,
    Disj,
    Else,
    Enum,
    Eventually,
    Exactly,
    Expect,
    Extends,
    Fact,
    For,
    Fun,
    Historically,
    Iden,
    Iff,
    Implies,
    In,
    /// `int`
    IntScope,
    /// `Int`
    Int,
    Let,
    Lone,
    Module,
    No,
    None,
    Not,
    Once,
    One,
    Open,
    Or,
    Pred,
    Private,
    Releases,
    Run,
    Seq,
    Set,
    Sig,
    Since,
    Some,
    String,
    Sum,
    This,
    Triggered,
    Univ,
    Until,
    Var,
}

/// What a token says, whatever its place.
#[derive(Drop)]
pub enum TokenKind {
    /// A name, which is no reserved word.
    Name(Name),
    /// A number of at most nine digits.
    Number(u32),
    /// A string literal: the bytes between its quotes.
    Literal(Name),
    Word(Word),
    Symbol(Symbol),
    /// After the last token of a text.
    End,
}

/// A token of a text.
#[derive(Drop)]
pub struct Token {
    pub kind: TokenKind,
    /// The place of its first byte; of the end token, the place just past the last byte.
    pub place: Position,
}

/// Whether two symbols are the same.
pub fn same_symbol(a: Symbol, b: Symbol) -> bool
    ensures { IsTrue result ↔ (a ≡ b) }
{
    a == b
}

/// Whether two words are the same.
pub fn same_word(a: Word, b: Word) -> bool
    ensures { IsTrue result ↔ (a ≡ b) }
{
    a == b
}
