//! Which numbers of the universe stand for the atoms of a sig.

ghost use Rattle.std.specs.Prelude.{◌≡◌, ◌+◌, ◌<◌, ◌≤◌, ◌^◌, IfOk, IfSome, Some, length, slice_get};
ghost use Rattle.core_tree.specs.Columns.{or_zero};
ghost use Rattle.core_meaning.specs.Kept.{atoms_of_sig, atom_count, universe_size};
ghost use Rattle.bound_uppers.specs.Kinds.{span_in, spans_from, HasSpans};

use core_meaning::{Scopes, SigScope};
use std::alloc::{AllocError, Global};

/// The greatest number of atoms and integers together: `base_types::limits::ATOMS` (Atoms, S66).
pub const MOST_NUMBERS: u32 = 16384;

/// There are fewer sigs than this.
const MOST_SIGS: usize = 4_294_967_294;

/// Numbers that follow one another.
#[derive(Clone, Copy, Debug, PartialEq, Eq)]
pub struct AtomRange {
    pub first: u32,
    pub count: u32,
}

/// The numbers of the sigs and of the integers.
#[derive(Drop)]
pub struct AtomRanges {
    /// For each sig of the model so many numbers as its scope says, as far as the universe has
    /// them: of a top-level sig those of its atoms.
    pub sigs: Vec<AtomRange>,
    /// The integers.
    pub integers: AtomRange,
}

/// So many numbers from `first` on, as far as they are below a limit.
fn span_within(limit: u32, first: u32, count: u64) -> AtomRange
    ensures { result ≡ span_in limit first count }
{
    let room = limit.saturating_sub(first);
    if count < room as u64 {
        AtomRange {
            first,
            count: count as u32,
        }
    } else {
        AtomRange { first, count: room }
    }
}

/// The number, or none.
fn number_of(scope: &SigScope) -> u64
    ensures { result ≡ or_zero scope.now.number }
{
    match scope.number {
        Some(number) => number,
        None => 0,
    }
}

/// How many atoms a sig brings: its number where it is top-level.
fn atoms_of(scope: &SigScope) -> u64
    ensures { result ≡ atoms_of_sig scope.now }
{
    if scope.top { number_of(scope) } else { 0 }
}

/// How many atoms the sigs bring, if no more than a universe has.
#[tactic(auto, using(crate::proofs::Spanning::atoms_more, crate::proofs::Spanning::atoms_none, crate::proofs::Spanning::atoms_all))]
fn atoms_in(numbers: &[SigScope]) -> Option<u32>
    ensures { IfSome result (λ n. (n ≡ atom_count numbers.now) × (n ≤ 16384)) }
{
    let mut count = 0u32;
    for scope in numbers {
        let more = atoms_of(scope);
        let room = MOST_NUMBERS - count;
        if more > room as u64 {
            return None;
        }
        count += more as u32;
    }
    Some(count)
}

/// The scope at a place.
fn scope_at(numbers: &[SigScope], place: usize) -> SigScope
    requires { place < length numbers.now }
    ensures { slice_get numbers.now place ≡ Some result }
{
    numbers[place]
}

/// The numbers of each sig in a universe of this size: those of a sig begin where the atoms of the
/// sigs before it end. A universe that is too small for the atoms has none, as if memory were wanting.
fn sig_spans(alloc: Global, numbers: &[SigScope], size: u32) -> Result<Vec<AtomRange>, AllocError>
    ensures { IfOk result (λ v. v.items ≡ spans_from size 0 numbers.now) }
{
    let mut sigs = Vec::new(alloc);
    let mut next = 0u32;
    for place in 0..numbers.len() {
        let scope = scope_at(numbers, place);
        let number = number_of(&scope);
        let span = span_within(size, next, number);
        sigs.push(span)?;
        let more = atoms_of(&scope);
        let room = size - next;
        if more > room as u64 {
            return Err(AllocError);
        }
        next += more as u32;
    }
    Ok(sigs)
}

/// How many integers there are of a bitwidth, if no more than this.
fn integers_in(bits: u32, room: u32) -> Option<u32>
    requires { room ≤ 16384 }
    ensures { IfSome result (λ n. (n ≡ 2 ^ bits) × (n ≤ room)) }
{
    if bits >= 15 {
        return None;
    }
    let count = 1u32 << bits;
    if count > room {
        return None;
    }
    Some(count)
}

/// The numbers that the scopes give: first the atoms of each top-level sig in order, then the
/// integers. A universe has at most 16,384 numbers: for scopes that ask for more there is no table,
/// as if memory were wanting.
#[tactic(auto, using(crate::proofs::Spanning::spans_are))]
pub fn spans_of(alloc: Global, scopes: &Scopes) -> Result<AtomRanges, AllocError>
    ensures { IfOk result (HasSpans scopes.now) }
{
    let numbers = scopes.numbers.as_slice();
    if numbers.len() >= MOST_SIGS {
        return Err(AllocError);
    }
    let atoms = match atoms_in(numbers) {
        Some(atoms) => atoms,
        None => return Err(AllocError),
    };
    let count = match integers_in(scopes.bits, MOST_NUMBERS - atoms) {
        Some(count) => count,
        None => return Err(AllocError),
    };
    let sigs = sig_spans(alloc, numbers, atoms + count)?;
    let integers = AtomRange {
        first: atoms,
        count,
    };
    Ok(AtomRanges { sigs, integers })
}
