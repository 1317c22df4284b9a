//! The piece at the front of a text: a blank, a comment or a token.

ghost use Rattle.std.specs.Prelude.{◌≡◌, ◌≢◌, ◌<◌, ◌≤◌, ◌+◌, ◌^◌, length, map, take, slice_index, IfOk, IfSome, IsTrue, true};
ghost use Rattle.std.specs.Str.{IsAscii};
ghost use Rattle.syntax_lexer.specs.Piece as spec;

use crate::table::{SYMBOLS, WORDS};
use base_types::{Name, Rule};
use std::alloc::{AllocError, Global};
use syntax_tree::{Symbol, TokenKind, Word};

/// What stands at the front of a text.
#[derive(Drop)]
pub enum Piece {
    /// A blank or a comment, and its length.
    Gap(usize),
    /// A token, and its length.
    Token(TokenKind, usize),
    /// Nothing that may stand there, and the rule that it breaks.
    Wrong(Rule),
}

fn is_blank(b: u8) -> bool
    ensures { result ≡ spec.is_blank b }
{
    b == b' ' || b == 9 || b == 10 || b == 13
}

fn is_letter(b: u8) -> bool
    ensures { result ≡ spec.is_letter b }
{
    (65 <= b && b <= 90) || (97 <= b && b <= 122) || b == b'_'
}

fn is_digit(b: u8) -> bool
    ensures { result ≡ spec.is_digit b }
{
    48 <= b && b <= 57
}

fn is_name_byte(b: u8) -> bool
    ensures { result ≡ spec.is_name_byte b }
{
    is_letter(b) || is_digit(b)
}

fn is_literal_byte(b: u8) -> bool
    ensures { result ≡ spec.is_literal_byte b }
{
    32 <= b && b <= 126 && b != b'"' && b != b'\\'
}

/// The byte at this place, or 0 past the end.
fn byte(z: &[u8], at: usize) -> u8
    ensures value { result ≡ slice_index z.now at }
    ensures within { result ≢ 0 → at < length z.now }
{
    if at < z.len() { z[at] } else { 0 }
}

fn name_len(z: &[u8]) -> usize
    ensures value { result ≡ spec.name_len z.now }
    ensures within { result ≤ length z.now }
    ensures some { spec.is_name_byte (slice_index z.now 0) ≡ true → 0 < length z.now → 0 < result }
{
    let mut end = 0;
    while end < z.len() && is_name_byte(z[end]) {
        end += 1;
    }
    end
}

fn digits_len(z: &[u8]) -> usize
    ensures value { result ≡ spec.digits_len z.now }
    ensures within { result ≤ length z.now }
    ensures some { spec.is_digit (slice_index z.now 0) ≡ true → 0 < length z.now → 0 < result }
{
    let mut end = 0;
    while end < z.len() && is_digit(z[end]) {
        end += 1;
    }
    end
}

/// How many bytes in a row may stand in a literal.
fn inside_len(z: &[u8]) -> usize
    ensures value { result ≡ spec.inside_len z.now }
    ensures within { result ≤ length z.now }
{
    let mut end = 0;
    while end < z.len() && is_literal_byte(z[end]) {
        end += 1;
    }
    end
}

/// The length of a comment up to the end of its line.
fn line_len(z: &[u8]) -> usize
    requires { 2 ≤ length z.now }
    ensures value { result ≡ spec.line_len z.now }
    ensures within { (2 ≤ result) × (result ≤ length z.now) }
{
    let mut end = 2;
    while end < z.len() && z[end] != b'\n' {
        end += 1;
    }
    end
}

/// The length of a comment that `*/` ends.
fn comment_len(z: &[u8]) -> Option<usize>
    requires { 2 ≤ length z.now }
    ensures value { result ≡ spec.comment_len z.now }
    ensures within { IfSome result (λ n. (2 ≤ n) × (n ≤ length z.now)) }
{
    for at in 2..z.len() {
        if z[at] == b'*' && byte(z, at + 1) == b'/' {
            return Some(at + 2);
        }
    }
    None
}

/// The word of the table that is spelled so.
fn word(mut table: &[(&[u8], Word)], text: &[u8]) -> Option<Word>
    ensures { result ≡ spec.lookup (map (λ k. (k.0.now, k.1)) table.entry.now) text.now }
{
    while let [entry, rest @ ..] = table {
        if entry.0 == text {
            return Some(entry.1);
        }
        table = rest;
    }
    None
}

/// The first symbol of the table with which the text begins, and its length.
fn symbol(mut table: &[(&[u8], Symbol)], z: &[u8]) -> Option<(Symbol, usize)>
    requires { IsTrue (spec.have_bytes (map (λ k. (k.0.now, k.1)) table.now)) }
    ensures value { result ≡ spec.first_symbol (map (λ k. (k.0.now, k.1)) table.entry.now) z.now }
    ensures within { IfSome result (λ s. (1 ≤ s.1) × (s.1 ≤ length z.now)) }
{
    while let [entry, rest @ ..] = table {
        if z.starts_with(entry.0) {
            return Some((entry.1, entry.0.len()));
        }
        table = rest;
    }
    None
}

/// A copy of a text of ASCII bytes.
fn copied(alloc: Global, bytes: &[u8]) -> Result<Name, AllocError>
    requires { IsAscii bytes.now }
    ensures { IfOk result (λ name. name ≡ bytes.now) }
{
    match std::str::from_utf8(bytes) {
        Ok(text) => Name::copy(alloc, text),
        Err(_) => unreachable!(),
    }
}

/// The reserved word or the name that the first bytes spell.
#[tactic(auto, unfolding(crate::specs::Piece::word_kind))]
fn named(alloc: Global, z: &[u8], len: usize) -> Result<TokenKind, AllocError>
    requires within { len ≤ length z.now }
    requires ascii { IsAscii (take len z.now) }
    ensures { IfOk result (λ kind. kind ≡ spec.word_kind (take len z.now)) }
{
    let text = &z[..len];
    match word(&WORDS, text) {
        Some(word) => Ok(TokenKind::Word(word)),
        None => Ok(TokenKind::Name(copied(alloc, text)?)),
    }
}

/// The number that at most nine digits spell.
fn value(digits: &[u8]) -> u32
    requires short { length digits.now ≤ 9 }
    requires all { spec.AreDigits digits.now }
    ensures { result ≡ spec.value digits.now }
{
    let mut value = 0;
    for digit in digits {
        value = value * 10 + u32::from(*digit - b'0');
    }
    value
}

/// A number, which has at most nine digits.
fn number(z: &[u8]) -> Piece
    requires { 1 ≤ spec.digits_len z.now }
    ensures value { result ≡ spec.number z.now (spec.digits_len z.now) }
    ensures within { spec.IsWithin result (length z.now) }
{
    let len = digits_len(z);
    // LongNumber, S03: a literal has at most nine digits.
    if len > 9 {
        return Piece::Wrong(Rule::LongNumber);
    }
    Piece::Token(TokenKind::Number(value(&z[..len])), len)
}

/// A comment that `*/` ends.
fn comment(z: &[u8]) -> Piece
    requires { 2 ≤ length z.now }
    ensures value { result ≡ spec.comment (spec.comment_len z.now) }
    ensures within { spec.IsWithin result (length z.now) }
{
    match comment_len(z) {
        Some(len) => Piece::Gap(len),
        None => Piece::Wrong(Rule::OpenComment),
    }
}

/// A symbol, the longest that begins there.
#[tactic(auto, unfolding(crate::specs::Piece::symbol_of))]
fn symbol_piece(z: &[u8]) -> Piece
    ensures value { result ≡ spec.symbol_piece (spec.symbol_of z.now) }
    ensures within { spec.IsWithin result (length z.now) }
{
    match symbol(&SYMBOLS, z) {
        Some((symbol, len)) => Piece::Token(TokenKind::Symbol(symbol), len),
        None => Piece::Wrong(Rule::BadByte),
    }
}

/// A literal, after its opening quote.
fn literal(alloc: Global, inside: &[u8]) -> Result<Piece, AllocError>
    requires { length inside.now < 2 ^ 31 }
    ensures value { IfOk result (λ p. p ≡ spec.literal inside.now) }
    ensures within { IfOk result (λ p. spec.IsWithin p (length inside.now + 1)) }
{
    let len = inside_len(inside);
    if byte(inside, len) != b'"' {
        return Ok(Piece::Wrong(Rule::BadByte));
    }
    let text = copied(alloc, &inside[..len])?;
    Ok(Piece::Token(TokenKind::Literal(text), len + 2))
}

/// A reserved word or a name.
fn word_piece(alloc: Global, z: &[u8]) -> Result<Piece, AllocError>
    requires { spec.is_letter (slice_index z.now 0) ≡ true }
    ensures value { IfOk result (λ p. p ≡ Piece.Token
        (spec.word_kind (take (spec.name_len z.now) z.now)) (spec.name_len z.now)) }
    ensures within { IfOk result (λ p. spec.IsWithin p (length z.now)) }
{
    let len = name_len(z);
    Ok(Piece::Token(named(alloc, z, len)?, len))
}

/// The piece at the front.
#[tactic(auto, unfolding(crate::specs::Piece::piece))]
pub fn cut(alloc: Global, z: &[u8]) -> Result<Piece, AllocError>
    requires some { 0 < length z.now }
    requires short { length z.now < 2 ^ 31 }
    ensures value { IfOk result (λ p. p ≡ spec.piece z.now) }
    ensures within { IfOk result (λ p. spec.IsWithin p (length z.now)) }
{
    let first = z[0];
    let next = byte(z, 1);
    if is_blank(first) {
        Ok(Piece::Gap(1))
    } else if (first == b'/' && next == b'/') || (first == b'-' && next == b'-') {
        Ok(Piece::Gap(line_len(z)))
    } else if first == b'/' && next == b'*' {
        Ok(comment(z))
    } else if is_letter(first) {
        word_piece(alloc, z)
    } else if is_digit(first) {
        Ok(number(z))
    } else if first == b'"' {
        let (_, inside) = z.split_at(1);
        literal(alloc, inside)
    } else {
        Ok(symbol_piece(z))
    }
}
