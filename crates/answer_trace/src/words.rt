//! Reading the words of a line of a trace: numbers, blanks, quotes and atoms.

ghost use Rattle.std.specs.Prelude.{◌≡◌, ◌<◌, ◌≤◌, length, codes, IfSome, option_map, option_copied, Some};
ghost use Rattle.std.specs.List.{position_or_len};
ghost use Rattle.std.specs.Str.{bytes_eq};
ghost use Rattle.answer_trace.specs.Reading.{is_quote, is_stop, is_blank, behind, atom_length, is_state_line, header_numbers, header_of};

use base_words::decimal;
use itoa::Buffer;

/// The greatest number of states.
const MOST: u64 = 4_294_967_295;

/// What follows a word at the beginning of a text.
#[tactic(auto, using(std::proofs::lemmas::List::take_min, std::proofs::lemmas::List::drop_min))]
pub fn after<'a>(text: &'a [u8], word: &[u8]) -> Option<&'a [u8]>
    ensures { option_copied result ≡ behind word.now text.now }
{
    let (front, rest) = text.split_at(word.len().min(text.len()));
    if front == word { Some(rest) } else { None }
}

/// Whether a byte is a blank.
fn is_blank(byte: u8) -> bool
    ensures { result ≡ is_blank byte }
{
    byte == b' '
}

/// The place of the first blank, or the length.
#[tactic(auto, using(std::proofs::lemmas::List::Sums::position_or_len_is))]
fn blank_place(text: &[u8]) -> usize
    ensures place { result ≡ position_or_len is_blank text.now }
    ensures bound { result ≤ length text.now }
{
    for (place, byte) in text.iter().enumerate() {
        if is_blank(*byte) {
            return place;
        }
    }
    text.len()
}

/// Whether a byte is a quote.
fn is_quote(byte: u8) -> bool
    ensures { result ≡ is_quote byte }
{
    byte == b'"'
}

/// The place of the first quote, or the length.
#[tactic(auto, using(std::proofs::lemmas::List::Sums::position_or_len_is))]
fn quote_place(text: &[u8]) -> usize
    ensures place { result ≡ position_or_len is_quote text.now }
    ensures bound { result ≤ length text.now }
{
    for (place, byte) in text.iter().enumerate() {
        if is_quote(*byte) {
            return place;
        }
    }
    text.len()
}

/// Whether an atom without quotes ends before a byte: a hyphen or a comma.
fn is_stop(byte: u8) -> bool
    ensures { result ≡ is_stop byte }
{
    byte == b'-' || byte == b','
}

/// The place of the first byte before which an atom ends, or the length.
#[tactic(auto, using(std::proofs::lemmas::List::Sums::position_or_len_is))]
fn stop_place(text: &[u8]) -> usize
    ensures place { result ≡ position_or_len is_stop text.now }
    ensures bound { result ≤ length text.now }
{
    for (place, byte) in text.iter().enumerate() {
        if is_stop(*byte) {
            return place;
        }
    }
    text.len()
}

/// How long the atom is with which a text begins: a literal with its quotes, or else up to a comma or a hyphen
/// behind its first byte.
pub fn atom_length(text: &[u8]) -> usize
    ensures value { result ≡ atom_length text.now }
    ensures bound { result ≤ length text.now }
{
    match text {
        [] => 0,
        [first, rest @ ..] => {
            if is_quote(*first) {
                (quote_place(rest) + 2).min(rest.len() + 1)
            } else {
                stop_place(rest) + 1
            }
        }
    }
}

/// The two numbers behind the first words of a first line.
fn header_numbers(text: &[u8]) -> Option<(u32, u32)>
    ensures { option_map (λ found. (found.0, found.1)) result ≡ header_numbers text.now }
{
    let (word, rest) = text.split_at(blank_place(text));
    let count = decimal(word, MOST)?;
    let last = after(rest, b" loop ".as_slice())?;
    let loop_start = decimal(last, MOST)?;
    if loop_start < count {
        return Some((count as u32, loop_start as u32));
    }
    None
}

/// The number of states and the loop index of a first line.
pub fn header(line: &[u8]) -> Option<(u32, u32)>
    ensures { option_map (λ found. (found.0, found.1)) result ≡ header_of line.now }
{
    let rest = after(line, b"trace states ".as_slice())?;
    header_numbers(rest)
}

/// Whether a line is the last of a trace.
pub fn is_end(line: &[u8]) -> bool
    ensures { result ≡ bytes_eq line.now (codes "end") }
{
    line == b"end".as_slice()
}

/// Whether a line is the first of the state of this number.
pub fn is_state_line(line: &[u8], number: u32) -> bool
    ensures { result ≡ is_state_line number line.now }
{
    match after(line, b"state ".as_slice()) {
        None => false,
        Some(rest) => {
            let mut buffer = Buffer::new();
            rest == buffer.format(number).as_bytes()
        }
    }
}
