//! Tells whether tokens say the same as the words that a tree spells.

use syntax_tree::{Token, TokenKind, same_symbol, same_word};

/// Whether the tokens say these words, in their order.
pub fn same_words(tokens: &[Token], words: &[TokenKind]) -> bool {
    if tokens.len() != words.len() {
        return false;
    }
    for (token, word) in tokens.iter().zip(words) {
        if !same_kind(&token.kind, word) {
            return false;
        }
    }
    true
}

fn same_kind(a: &TokenKind, b: &TokenKind) -> bool {
    match a {
        TokenKind::Name(a) => match b {
            TokenKind::Name(b) => a.text() == b.text(),
            _ => false,
        },
        TokenKind::Number(a) => match b {
            TokenKind::Number(b) => *a == *b,
            _ => false,
        },
        TokenKind::Literal(a) => match b {
            TokenKind::Literal(b) => a.text() == b.text(),
            _ => false,
        },
        TokenKind::Word(a) => match b {
            TokenKind::Word(b) => same_word(*a, *b),
            _ => false,
        },
        TokenKind::Symbol(a) => match b {
            TokenKind::Symbol(b) => same_symbol(*a, *b),
            _ => false,
        },
        TokenKind::End => matches!(b, TokenKind::End),
    }
}
