//! Copies of tokens.

ghost use Rattle.std.specs.Prelude.{◌≡◌, IfOk};
ghost use Rattle.syntax_tree.specs.Spelling.{kinds};

use base_lists::Items;
use base_types::Name;
use std::alloc::{AllocError, Global};
use syntax_tree::{Token, TokenKind};

/// What a token says, copied.
fn kind_copied(alloc: Global, kind: &TokenKind) -> Result<TokenKind, AllocError>
    ensures { IfOk result (λ copy. copy ≡ kind.now) }
{
    match kind {
        TokenKind::Name(name) => {
            let name = Name::copy(alloc, name.text())?;
            Ok(TokenKind::Name(name))
        }
        TokenKind::Number(number) => Ok(TokenKind::Number(*number)),
        TokenKind::Literal(text) => {
            let text = Name::copy(alloc, text.text())?;
            Ok(TokenKind::Literal(text))
        }
        TokenKind::Word(word) => Ok(TokenKind::Word(*word)),
        TokenKind::Symbol(symbol) => Ok(TokenKind::Symbol(*symbol)),
        TokenKind::End => Ok(TokenKind::End),
    }
}

/// A copy of the tokens.
pub fn copied(alloc: Global, tokens: &[Token]) -> Result<Items<Token>, AllocError>
    ensures { IfOk result (λ copy. kinds copy ≡ kinds tokens.now) }
{
    let mut copy = Items::new(alloc);
    for token in tokens {
        let kind = kind_copied(alloc, &token.kind)?;
        let place = token.place;
        copy.push(Token { kind, place })?;
    }
    Ok(copy)
}
