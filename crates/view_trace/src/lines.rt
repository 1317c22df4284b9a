//! The lines of a text, and the words with which they begin.

ghost use Rattle.std.specs.Prelude.{◌≤◌, length};

use base_words::{decimal, next_word, split_line};
use itoa::Buffer;

/// The greatest number of states.
const MOST_STATES: u64 = 4_294_967_295;

/// What is left of a text, and how many lines were taken before it.
#[derive(Drop)]
pub struct Lines<'a> {
    rest: &'a [u8],
    taken: u64,
}

impl<'a> Lines<'a> {
    /// A text of which nothing was taken.
    pub fn new(text: &'a [u8]) -> Lines<'a> {
        Lines {
            rest: text,
            taken: 0,
        }
    }

    /// How many lines were taken.
    pub fn taken(&self) -> u64 {
        self.taken
    }

    /// The next line, and what follows its line feed. There is `None` where no line feed ends it.
    pub fn next(&self) -> Option<(&'a [u8], &'a [u8])> {
        match split_line(self.rest) {
            (_, None) => None,
            (line, Some(rest)) => Some((line, rest)),
        }
    }

    /// Goes on behind the next line.
    pub fn go_to(&mut self, rest: &'a [u8]) {
        self.rest = rest;
        self.taken = self.taken.saturating_add(1);
    }

    /// Whether nothing is left.
    pub fn is_over(&self) -> bool {
        self.rest.is_empty()
    }
}

/// What follows a word at the beginning of a text.
pub fn after<'a>(text: &'a [u8], word: &[u8]) -> Option<&'a [u8]> {
    let (front, rest) = text.split_at(word.len().min(text.len()));
    if front == word { Some(rest) } else { None }
}

/// The number of states and the loop index of a first line.
pub fn header(line: &[u8]) -> Option<(u32, u32)> {
    let rest = after(line, b"trace states ")?;
    let (word, _) = next_word(rest)?;
    let behind = after(rest, word)?;
    let count = decimal(word, MOST_STATES)?;
    let last = after(behind, b" loop ")?;
    let loop_start = decimal(last, MOST_STATES)?;
    if loop_start < count {
        return Some((count as u32, loop_start as u32));
    }
    None
}

/// Whether a line is the first of the state of this number.
pub fn is_state_line(line: &[u8], number: u32) -> bool {
    match after(line, b"state ") {
        None => false,
        Some(rest) => {
            let mut buffer = Buffer::new();
            rest == buffer.format(number).as_bytes()
        }
    }
}

/// The place of the first quote, or the length.
fn quote_place(text: &[u8]) -> usize
    ensures { result ≤ length text.now }
{
    for (place, byte) in text.iter().enumerate() {
        if *byte == b'"' {
            return place;
        }
    }
    text.len()
}

/// The place of the first byte before which an atom without quotes ends, a hyphen or a comma, or the length.
fn stop_place(text: &[u8]) -> usize
    ensures { result ≤ length text.now }
{
    for (place, byte) in text.iter().enumerate() {
        if *byte == b'-' || *byte == b',' {
            return place;
        }
    }
    text.len()
}

/// How long the atom is with which a text begins: a literal with its quotes, or else up to a comma or a hyphen behind its
/// first byte.
fn atom_length(text: &[u8]) -> usize {
    match text {
        [] => 0,
        [first, rest @ ..] => {
            if *first == b'"' {
                quote_place(rest).saturating_add(2)
            } else {
                stop_place(rest).saturating_add(1)
            }
        }
    }
}

/// The atom with which a text begins, and what follows it.
pub fn split_atom(text: &[u8]) -> (&[u8], &[u8]) {
    text.split_at(atom_length(text).min(text.len()))
}
