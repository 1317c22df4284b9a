//! The number of a universe that a text stands for.

ghost use Rattle.std.specs.Prelude.{◌≡◌, ◌<◌, ◌≤◌, ℕ, List, length, min, nat_eq, IfOk, OnOk, Some, if◌then◌else◌};
ghost use Rattle.std.specs.HashMap.{get_by};
ghost use Rattle.std.specs.Cmp.Lexicographic.{pointwise};
ghost use Rattle.answer_trace.specs.Text.{atom_text};
ghost use Rattle.answer_trace.specs.Reading.{found_before, number_of};

use crate::label::TextList;
use std::alloc::{AllocError, Global};
use std::collections::HashMap;
use std::marker::Model;

/// The numbers by their texts. Contracts see the texts.
#[derive(Drop)]
pub struct AtomIndex<'a> {
    atoms: &'a TextList,
    numbers: HashMap<&'a [u8], u32>,
}

impl<'a> Model for AtomIndex<'a> {
    ghost use Rattle.std.specs.Prelude.{◌≡◌, ℕ, List, length, min, nat_eq};
    ghost use Rattle.std.specs.HashMap.{get_by};
    ghost use Rattle.std.specs.Cmp.Lexicographic.{pointwise};
    ghost use Rattle.answer_trace.specs.Reading.{found_before};

    ghost Value = { List (List ℕ) };

    ghost view = { λ i. i.atoms.now };

    ghost invariant = { λ i. (q : List ℕ) → get_by (λ key. pointwise nat_eq q key.now) i.numbers ≡ found_before i.atoms.now (min (length i.atoms.now) 16384) q };
}

/// The text at a place.
#[tactic(auto, using(std::proofs::lemmas::Option::get_or_from_slice_get))]
fn text_at(atoms: &TextList, place: usize) -> &[u8]
    requires { place < length atoms.now }
    ensures { result.now ≡ atom_text atoms.now place }
{
    atoms.get(place).text().as_bytes()
}

/// Notes the number of a text.
fn put<'a>(
    numbers: &mut HashMap<&'a [u8], u32>,
    text: &'a [u8],
    number: u32,
) -> Result<(), AllocError>
    ensures { OnOk result ((q : List ℕ) → get_by (λ key. pointwise nat_eq q key.now) numbers.new
        ≡ (if pointwise nat_eq text.now q then Some number else
        get_by (λ key. pointwise nat_eq q key.now) numbers.old)) }
{
    numbers.insert(text, number)?;
    Ok(())
}

/// The numbers of the first so many texts.
fn numbers_of<'a>(
    alloc: Global,
    atoms: &'a TextList,
    count: usize,
) -> Result<HashMap<&'a [u8], u32>, AllocError>
    requires few { count ≤ 16384 }
    requires within { count ≤ length atoms.now }
    ensures { IfOk result (λ m. (q : List ℕ) → get_by (λ key. pointwise nat_eq q key.now) m
        ≡ found_before atoms.now count q) }
{
    let mut numbers: HashMap<&'a [u8], u32> = HashMap::new(alloc);
    for place in 0..count {
        put(&mut numbers, text_at(atoms, place), place as u32)?;
    }
    Ok(numbers)
}

impl<'a> AtomIndex<'a> {
    /// The index of these texts.
    pub fn new(alloc: Global, atoms: &'a TextList) -> Result<AtomIndex<'a>, AllocError>
        ensures { IfOk result (λ i. i ≡ atoms.now) }
    {
        // Atoms, S66: there are at most 16,384 atoms and integers.
        let numbers = numbers_of(alloc, atoms, atoms.len().min(16384))?;
        Ok(AtomIndex { atoms, numbers })
    }

    /// The number with a text.
    pub fn find(&self, text: &[u8]) -> Option<u32>
        ensures { result ≡ number_of self.now text.now }
    {
        // for the proof: a field is read, so that the invariant of the index is at hand
        let _ = self.atoms.len();
        self.numbers.get(text).copied()
    }
}
