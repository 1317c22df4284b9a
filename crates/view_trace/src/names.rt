//! The names of atoms.

use base_words::{decimal, literal};
use std::alloc::{AllocError, Global};
use std::collections::HashMap;

/// The greatest number of atoms and integers: `docs/RULES.md`, S66.
const MOST_ATOMS: usize = 16_384;

/// Integers have at most 12 bits: `docs/RULES.md`, S64.
const BOUND: u64 = 2_048;

/// The names of atoms, by their numbers, and their numbers, by their names.
#[derive(Drop)]
pub struct Names<'a> {
    names: Vec<&'a [u8]>,
    numbers: HashMap<&'a [u8], u32>,
}

impl<'a> Names<'a> {
    /// No name.
    pub fn new(alloc: Global) -> Names<'a> {
        Names {
            names: Vec::new(alloc),
            numbers: HashMap::new(alloc),
        }
    }

    /// The names, by their numbers.
    pub fn list(&self) -> &[&'a [u8]] {
        self.names.as_slice()
    }

    /// The name of this number. It is empty where there is none.
    pub fn name(&self, number: u32) -> &'a [u8] {
        match self.names.get(number as usize) {
            Some(name) => *name,
            None => b"".as_slice(),
        }
    }

    /// The number of a name, which is a new one where the name is new. There is `None` where the text names no atom, or
    /// one too many.
    pub fn number(&mut self, name: &'a [u8]) -> Result<Option<u32>, AllocError> {
        if let Some(number) = self.numbers.get(name).copied() {
            return Ok(Some(number));
        }
        let count = self.names.len();
        if count >= MOST_ATOMS {
            return Ok(None);
        }
        if !is_atom(name) {
            return Ok(None);
        }
        let number = count as u32;
        self.numbers.insert(name, number)?;
        self.names.push(name)?;
        Ok(Some(number))
    }
}

/// Whether a byte may stand in the label of a sig.
fn is_name_byte(byte: u8) -> bool {
    byte.is_ascii_alphanumeric() || byte == b'_' || byte == b'/' || byte == b'$'
}

/// Whether a text may be the label of a relation.
pub fn is_label(text: &[u8]) -> bool {
    !text.is_empty() && text.iter().all(|byte| is_name_byte(*byte) || *byte == b'.')
}

/// Whether a byte may stand between the quotes of a literal.
fn is_literal_byte(byte: u8) -> bool {
    32 <= byte && byte <= 126 && byte != b'"' && byte != b'\\'
}

/// Whether a text is a literal with its quotes.
fn is_literal(text: &[u8]) -> bool {
    match text {
        [first, inner @ .., last] => {
            *first == b'"' && *last == b'"' && inner.iter().all(|byte| is_literal_byte(*byte))
        }
        _ => false,
    }
}

/// The integer that a text spells, of at most 12 bits.
pub fn integer_of(text: &[u8]) -> Option<i64> {
    if decimal(text, 0).is_some() {
        return Some(0);
    }
    let number = literal(text, BOUND)?;
    if number < 2_048 { Some(number) } else { None }
}

/// Where the last `$` of a text stands; the length where there is none.
fn last_dollar(text: &[u8]) -> usize {
    let mut found = text.len();
    for (place, byte) in text.iter().enumerate() {
        if *byte == b'$' {
            found = place;
        }
    }
    found
}

/// The label of the sig that gives an atom its name, and the number behind it with its `$`.
fn parts_of(name: &[u8]) -> (&[u8], &[u8]) {
    match name.split_at_checked(last_dollar(name)) {
        Some(parts) => parts,
        None => (name, &[]),
    }
}

/// The label of the relation that gives an atom its name: a sig, or `String`. An integer has its whole name.
pub fn owner_of(name: &[u8]) -> &[u8] {
    if name.first().copied() == Some(b'"') {
        return b"String".as_slice();
    }
    let (owner, _) = parts_of(name);
    owner
}

/// Whether a text is a label, `$` and a number.
fn is_numbered(text: &[u8]) -> bool {
    let (owner, rest) = parts_of(text);
    match rest {
        [_, digits @ ..] => {
            !owner.is_empty()
                && owner.iter().all(|byte| is_name_byte(*byte))
                && decimal(digits, 16_383).is_some()
        }
        [] => false,
    }
}

/// Whether a text names an atom: a literal, an integer, or a label with a number.
fn is_atom(text: &[u8]) -> bool {
    is_literal(text) || integer_of(text).is_some() || is_numbered(text)
}
