//! Tests the texts of atoms: their form, and that they differ.

ghost use Rattle.std.specs.Prelude.{◌≡◌, ◌<◌, ℕ, All, IfOk, IsTrue, Some, false, length};
ghost use Rattle.std.specs.List.{list_any};
ghost use Rattle.base_words.specs.Words.{is_feed};
ghost use Rattle.answer_trace.specs.Text.{atom_text};
ghost use Rattle.answer_trace.specs.Reading.{number_of};
ghost use Rattle.answer_laws.specs.Form.{is_quote, is_stop, IsAtomText, HasNoFeed};
ghost use Rattle.answer_checks.specs.Parts.{AreApart, IsClosed, IsText};

use answer_trace::TextList;
use answer_trace::atom_index::AtomIndex;
use base_types::Name;
use std::alloc::{AllocError, Global};

/// Whether a byte is a quote.
fn is_quote(byte: u8) -> bool
    ensures { result ≡ is_quote byte }
{
    byte == b'"'
}

/// Whether a byte stands in no atom's text behind its first one: a hyphen, a comma or a line feed.
fn is_stop(byte: u8) -> bool
    ensures { result ≡ is_stop byte }
{
    byte == b'-' || (byte == b',' || byte == b'\n')
}

fn has_quote(text: &[u8]) -> bool
    ensures { result ≡ list_any is_quote text.now }
{
    text.iter().any(|byte| is_quote(*byte))
}

fn has_stop(text: &[u8]) -> bool
    ensures { result ≡ list_any is_stop text.now }
{
    text.iter().any(|byte| is_stop(*byte))
}

fn has_feed(text: &[u8]) -> bool
    ensures { result ≡ list_any is_feed text.now }
{
    text.iter().any(|byte| *byte == b'\n')
}

fn bytes_of(name: &Name) -> &[u8]
    ensures { result.now ≡ name.now }
{
    name.text().as_bytes()
}

/// Whether a label is in one line.
pub fn is_line(label: &Name) -> bool
    ensures { IsTrue result → HasNoFeed label.now }
{
    if has_feed(bytes_of(label)) {
        return false;
    }
    true
}

/// Whether bytes are those of a literal behind its first quote.
fn is_closed(rest: &[u8]) -> bool
    ensures { IsTrue result → IsClosed rest.now }
{
    match rest.split_last() {
        None => false,
        Some((last, body)) => {
            if has_quote(body) {
                return false;
            }
            is_quote(*last)
        }
    }
}

/// Whether a text that begins with no quote is that of an atom, by what follows its first byte.
fn is_plain(rest: &[u8]) -> bool
    ensures { IsTrue result → list_any is_stop rest.now ≡ false }
{
    if has_stop(rest) {
        return false;
    }
    true
}

/// Whether a text is that of an atom.
fn is_atom_text(text: &[u8]) -> bool
    ensures { IsTrue result → IsAtomText text.now }
{
    match text.split_first() {
        None => false,
        Some((first, rest)) => {
            if is_quote(*first) {
                return is_closed(rest);
            }
            is_plain(rest)
        }
    }
}

/// Whether a text is that of an atom, in one line.
fn is_text(text: &[u8]) -> bool
    ensures { IsTrue result → IsText text.now }
{
    if has_feed(text) {
        return false;
    }
    is_atom_text(text)
}

/// The text at a place.
#[tactic(auto, using(std::proofs::lemmas::Option::get_or_from_slice_get))]
fn text_at(atoms: &TextList, place: usize) -> &[u8]
    requires { place < length atoms.now }
    ensures { result.now ≡ atom_text atoms.now place }
{
    atoms.get(place).text().as_bytes()
}

/// Whether all texts are those of atoms, each in one line.
pub fn are_texts(atoms: &TextList) -> bool
    ensures { IsTrue result → All IsText atoms.now }
{
    for place in 0..atoms.len() {
        if !is_text(text_at(atoms, place)) {
            return false;
        }
    }
    true
}

/// Whether the number of the text at a place is that place.
fn is_found(index: &AtomIndex, atoms: &TextList, place: usize) -> bool
    requires { place < length atoms.now }
    ensures { IsTrue result → number_of index.now (atom_text atoms.now place) ≡ Some place }
{
    match index.find(text_at(atoms, place)) {
        None => false,
        Some(number) => number as usize == place,
    }
}

/// Whether the number of each text is its place.
fn are_found(index: &AtomIndex, atoms: &TextList) -> bool
    ensures { IsTrue result → (k : ℕ) → k < length atoms.now →
        number_of index.now (atom_text atoms.now k) ≡ Some k }
{
    for place in 0..atoms.len() {
        if !is_found(index, atoms, place) {
            return false;
        }
    }
    true
}

/// Whether different atoms have different texts. There are to be at most 16,384 of them.
pub fn are_apart(alloc: Global, atoms: &TextList) -> Result<bool, AllocError>
    ensures { IfOk result (λ b. IsTrue b → AreApart atoms.now) }
{
    let index = AtomIndex::new(alloc, atoms)?;
    let apart = are_found(&index, atoms);
    Ok(apart)
}
