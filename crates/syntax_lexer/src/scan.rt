//! Cuts a whole text into its tokens, or gives the first fault.

ghost use Rattle.std.specs.Prelude.{◌≡◌, ◌<◌, ◌≤◌, ◌+◌, ◌^◌, length, IfOk, vec_len};
ghost use Rattle.syntax_tree.specs.Spelling.{EndsWell};
ghost use Rattle.syntax_lexer.specs.Tokens as spec;

use crate::piece::{Piece, cut};
use base_types::{Fault, Position, Refusal};
use std::alloc::{AllocError, AllocFailed, Global};
use syntax_tree::{Token, TokenKind};

/// The place after these bytes.
fn moved(at: Position, bytes: &[u8]) -> Position
    requires line { at.line + length bytes.now < 2 ^ 32 }
    requires column { at.column + length bytes.now < 2 ^ 32 }
    requires begins { 1 ≤ at.column }
    ensures value { result ≡ spec.moved at bytes.now }
    ensures line { result.line ≤ at.line + length bytes.now }
    ensures column { (1 ≤ result.column) × (result.column ≤ at.column + length bytes.now) }
{
    let mut place = at;
    for b in bytes {
        if *b == b'\n' {
            place.line += 1;
            place.column = 1;
        } else {
            place.column += 1;
        }
    }
    place
}

/// Adds the token that comes next, if it is no gap, and gives the length of the piece.
fn step(alloc: Global, found: &mut Vec<Token>, place: Position, rest: &[u8]) -> Result<usize, Fault>
    requires some { 0 < length rest.now }
    requires short { length rest.now < 2 ^ 31 }
    ensures within { IfOk result (λ n. (1 ≤ n) × (n ≤ length rest.now)) }
    ensures told { spec.Steps found.old.items place rest.now result found.new.items }
{
    match cut(alloc, rest)? {
        Piece::Gap(len) => Ok(len),
        Piece::Token(kind, len) => {
            found.push(Token { kind, place })?;
            Ok(len)
        }
        Piece::Wrong(rule) => Err(Fault::Refused(Refusal { rule, place })),
    }
}

/// Cuts the text of this number into its tokens, and puts the end token after them.
///
/// Blanks and comments are left out. A comment begins wherever its two bytes stand outside a
/// comment and outside a literal, and each token is the longest that begins at its place. Where the
/// text can't be cut so, the answer is the first break and the place of its first byte: a byte that
/// begins nothing (a `"` that begins no literal among them), a comment that isn't closed, or a
/// number of more than nine digits.
pub fn lex(alloc: Global, text: u32, bytes: &[u8]) -> Result<Vec<Token>, Fault>
    requires { length bytes.now < 2 ^ 31 }
    ensures tokens { spec.Lexes (spec.tokens_of text bytes.now) result }
    ensures ends { IfOk result (λ found. EndsWell found.items) }
    ensures some { IfOk result (λ found. 0 < vec_len found) }
{
    let mut found = Vec::new(alloc);
    let mut place = Position {
        module: text,
        line: 1,
        column: 1,
    };
    let mut rest = bytes;
    while !rest.is_empty() {
        let len = step(alloc, &mut found, place, rest)?;
        place = moved(place, &rest[..len]);
        rest = &rest[len..];
    }
    found.push(Token {
        kind: TokenKind::End,
        place,
    })?;
    Ok(found)
}
