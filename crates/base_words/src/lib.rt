//! Lines of a text, the words of a line, and the numbers that words spell.
//!
//! The DIMACS and LRAT formats are made of these: a line ends with a line feed, and words are
//! separated by tabs, carriage returns and blanks.
#![tactic(auto)]

ghost use Rattle.std.specs.Prelude.{◌≡◌, nat_abs, ◌<◌, ◌≤◌, ◌^◌, ℕ, [], ◌∷◌, not, length, drop, ◌+◌, IfSome, IfNone, Option, option_map, option_copied, if◌then◌else◌};
ghost use Rattle.std.specs.List.{position_or_len};
ghost use Rattle.base_words.specs.Words.{is_feed, is_blank, parts, other_parts, words, with_first, is_comment, is_digit, number_after, up_to, decimal_of, positive_of, literal_of, is_zero, spaced};
ghost use Rattle.std.specs.Prelude.{OnOk, ◌++◌, decimal};
ghost use Rattle.std.specs.Fmt.{signed_decimal};

use itoa::Buffer;
use std::alloc::AllocError;

/// Whether a byte separates words within a line: a tab, a carriage return or a blank.
#[inline]
pub fn is_blank(byte: u8) -> bool
    ensures { result ≡ is_blank byte }
{
    byte == b'\t' || byte == b'\r' || byte == b' '
}

/// Whether a line is a comment, which begins with the letter `c`.
#[inline]
pub fn is_comment(line: &[u8]) -> bool
    ensures { result ≡ is_comment line.now }
{
    match line {
        [] => false,
        [first, ..] => *first == b'c',
    }
}

/// Whether a word is the one digit `0`.
#[inline]
pub fn is_zero(word: &[u8]) -> bool
    ensures { result ≡ is_zero word.now }
{
    match word {
        [digit] => *digit == b'0',
        _ => false,
    }
}

/// The place of the first line feed, or the length.
#[inline]
#[tactic(auto, using(std::proofs::lemmas::List::Sums::position_or_len_is))]
fn feed_place(text: &[u8]) -> usize
    ensures place { result ≡ position_or_len is_feed text.now }
    ensures bound { result ≤ length text.now }
{
    for (place, byte) in text.iter().enumerate() {
        if *byte == b'\n' {
            return place;
        }
    }
    text.len()
}

/// The place of the first byte that is no blank, or the length.
#[inline]
#[tactic(auto, using(std::proofs::lemmas::List::Sums::position_or_len_is))]
fn word_place(line: &[u8]) -> usize
    ensures place { result ≡ position_or_len (λ byte. not (is_blank byte)) line.now }
    ensures bound { result ≤ length line.now }
{
    for (place, byte) in line.iter().enumerate() {
        if !is_blank(*byte) {
            return place;
        }
    }
    line.len()
}

/// The place of the first blank, or the length.
#[inline]
#[tactic(auto, using(std::proofs::lemmas::List::Sums::position_or_len_is))]
fn blank_place(line: &[u8]) -> usize
    ensures place { result ≡ position_or_len is_blank line.now }
    ensures bound { result ≤ length line.now }
{
    for (place, byte) in line.iter().enumerate() {
        if is_blank(*byte) {
            return place;
        }
    }
    line.len()
}

/// The first line of a text, and what follows its line feed. There is `None` where no line feed ends it.
#[tactic(auto, using(crate::proofs::Parts::one_part, crate::proofs::Parts::first_part))]
pub fn split_line(text: &[u8]) -> (&[u8], Option<&[u8]>)
    ensures parts { parts text.now ≡ result.0.now ∷ other_parts (option_copied result.1) }
    ensures lengths { IfSome result.1 (λ rest. length result.0.now + 1 + length rest.now
        ≡ length text.now) }
    ensures alone { IfNone result.1 (result.0.now ≡ text.now) }
{
    let place = feed_place(text);
    if place == text.len() {
        return (text, None);
    }
    let (line, _) = text.split_at(place);
    let (_, rest) = text.split_at(place + 1);
    (line, Some(rest))
}

/// The first word of a line, and what follows it. There is `None` where the line has no word.
#[tactic(auto, using(crate::proofs::Parts::no_word, crate::proofs::Parts::first_word, crate::proofs::Parts::word_bytes))]
pub fn next_word(line: &[u8]) -> Option<(&[u8], &[u8])>
    ensures words { words line.now ≡ with_first (option_map (λ found. (found.0.now, found.1.now))
        result) }
    ensures shorter { IfSome result (λ found. length found.1.now < length line.now) }
{
    let start = word_place(line);
    if start == line.len() {
        return None;
    }
    let (_, rest) = line.split_at(start);
    let end = blank_place(rest);
    Some(rest.split_at(end))
}

/// Whether a byte is a digit.
#[inline]
fn is_digit(byte: u8) -> bool
    ensures { result ≡ is_digit byte }
{
    byte.is_ascii_digit()
}

/// The largest number that another digit does not take past 64 bits.
const ROOM: u64 = 1_844_674_407_370_955_160;

/// The number that digits spell, where it is at most the limit.
#[tactic(auto, using(crate::proofs::Numbers::next_digit, crate::proofs::Numbers::no_digit, crate::proofs::Numbers::too_large, crate::proofs::Numbers::at_end))]
fn number(digits: &[u8], limit: u64) -> Option<u64>
    requires { limit < 2 ^ 63 }
    ensures value { result ≡ up_to limit (number_after 0 digits.now) }
    ensures bound { IfSome result (λ n. n ≤ limit) }
{
    let mut value: u64 = 0;
    for digit in digits {
        if !is_digit(*digit) || value > ROOM {
            return None;
        }
        value = value * 10 + u64::from(*digit - b'0');
    }
    if value <= limit { Some(value) } else { None }
}

/// The number of a word that is `0`, or digits that do not begin with 0. There is `None` for every other word,
/// and where the number is above the limit.
pub fn decimal(word: &[u8], limit: u64) -> Option<u64>
    requires { limit < 2 ^ 63 }
    ensures value { result ≡ decimal_of limit word.now }
    ensures bound { IfSome result (λ n. n ≤ limit) }
{
    if is_zero(word) {
        return Some(0);
    }
    positive(word, limit)
}

/// The number of a word of digits that do not begin with 0. There is `None` for every other word, and where the
/// number is above the limit.
#[tactic(auto, using(crate::proofs::Numbers::positive_word))]
pub fn positive(word: &[u8], limit: u64) -> Option<u64>
    requires { limit < 2 ^ 63 }
    ensures value { result ≡ positive_of limit word.now }
    ensures range { IfSome result (λ n. (0 < n) × (n ≤ limit)) }
{
    if word.is_empty() || word[0] == b'0' {
        return None;
    }
    number(word, limit)
}

/// The literal of a word: digits that do not begin with 0, behind a minus or not. There is `None` for every other
/// word, and where the magnitude is above the limit.
pub fn literal(word: &[u8], limit: u64) -> Option<i64>
    requires { limit < 2 ^ 63 }
    ensures value { result ≡ literal_of limit word.now }
    ensures range { IfSome result (λ z. (0 < nat_abs z) × (nat_abs z ≤ limit)) }
{
    match word {
        [first, digits @ ..] if *first == b'-' => Some(-(positive(digits, limit)? as i64)),
        _ => Some(positive(word, limit)? as i64),
    }
}

/// Writes a number and a blank behind what was written. Where memory is refused, a part of them may stand there.
pub fn push_number(out: &mut Vec<u8>, number: u64) -> Result<(), AllocError>
    ensures { OnOk result (out.new.items ≡ out.old.items ++ spaced (decimal number)) }
{
    let mut buffer = Buffer::new();
    out.extend_from_slice(buffer.format(number).as_bytes())?;
    out.push(b' ')?;
    Ok(())
}

/// Writes a literal and a blank behind what was written. Where memory is refused, a part of them may stand there.
pub fn push_literal(out: &mut Vec<u8>, literal: &i64) -> Result<(), AllocError>
    ensures { OnOk result (out.new.items ≡ out.old.items ++ spaced (signed_decimal literal.now)) }
{
    let mut buffer = Buffer::new();
    out.extend_from_slice(buffer.format(*literal).as_bytes())?;
    out.push(b' ')?;
    Ok(())
}
