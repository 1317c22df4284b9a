//! The walk over the lists of a clause's literals.

ghost use Rattle.std.specs.Prelude.{◌≡◌, ℕ, ◌-◌, ◌*◌, ◌<◌, ◌≤◌, length, slice_index, IsTrue, IsFalse, IfSome, IfNone};
ghost use Rattle.std.specs.List.{All};
ghost use Rattle.sat_trail.specs.State.{clause_at};
ghost use Rattle.sat_dropped.specs.Part.{IsPart, HasSlot, signature_of, ArePlaced};
ghost use Rattle.sat_dropped.specs.Entries.{list_at, IsSigned, AreFiled};

use crate::list::{NumberList, numbers_at};
use crate::part::{are_among, slot};
use sat_trail::Trail;

/// Where an entry stands.
#[derive(Clone, Copy)]
pub(crate) struct Spot {
    /// The place of its list.
    pub list: usize,
    /// Its place in the list.
    pub at: usize,
}

/// Whether the clause of an entry is part of the asked one.
#[inline]
fn is_part(
    trail: &Trail,
    places: &[usize],
    literals: &[i64],
    bits: u64,
    signature: u64,
    number: u64,
) -> bool
    requires slots { 2 * trail.now.variables < length places.now }
    requires placed { ArePlaced places.now literals.now }
    requires bits { bits ≡ signature_of literals.now }
    requires signed { IsSigned trail.now signature number }
    ensures part { IsTrue result → IsPart (clause_at trail.now (number - 1)) literals.now }
    ensures other { IsFalse result → IsPart (clause_at trail.now (number - 1)) literals.now → ⊥ }
{
    if signature | bits != bits {
        return false;
    }
    are_among(places, literals, trail.clause(number))
}

/// The first entry of a list whose clause is part of the asked one.
fn find_in(
    trail: &Trail,
    places: &[usize],
    literals: &[i64],
    bits: u64,
    signatures: &[u64],
    numbers: &[u64],
) -> Option<usize>
    requires slots { 2 * trail.now.variables < length places.now }
    requires placed { ArePlaced places.now literals.now }
    requires bits { bits ≡ signature_of literals.now }
    requires beside { length signatures.now ≡ length numbers.now }
    requires signed { (k : ℕ) → k < length numbers.now →
        IsSigned trail.now (slice_index signatures.now k) (slice_index numbers.now k) }
    ensures found { IfSome result (λ k. (k < length numbers.now)
        × IsPart (clause_at trail.now (slice_index numbers.now k - 1)) literals.now) }
    ensures none { IfNone result ((k : ℕ) → k < length numbers.now →
        IsPart (clause_at trail.now (slice_index numbers.now k - 1)) literals.now → ⊥) }
{
    for at in 0..numbers.len() {
        if is_part(trail, places, literals, bits, signatures[at], numbers[at]) {
            return Some(at);
        }
    }
    None
}

/// The first entry whose clause is part of the asked one, in the lists of its literals.
pub(crate) fn find(
    trail: &Trail,
    places: &[usize],
    literals: &[i64],
    bits: u64,
    signatures: &[NumberList],
    numbers: &[NumberList],
) -> Option<Spot>
    requires slots { 2 * trail.now.variables < length places.now }
    requires placed { ArePlaced places.now literals.now }
    requires bits { bits ≡ signature_of literals.now }
    requires filed { AreFiled trail.now signatures.now numbers.now }
    requires lists { (All (HasSlot (length signatures.now)) literals.now)
        × All (HasSlot (length numbers.now)) literals.now }
    ensures found { IfSome result (λ spot. (spot.list < length numbers.now)
        × (spot.at < length (list_at numbers.now spot.list))
        × IsPart (clause_at trail.now (slice_index (list_at numbers.now spot.list) spot.at - 1))
        literals.now) }
    ensures none { IfNone result ((c k : ℕ) → k < length (list_at numbers.now c) →
        IsPart (clause_at trail.now (slice_index (list_at numbers.now c) k - 1)) literals.now → ⊥) }
{
    for literal in literals {
        let list = slot(*literal);
        let its_signatures = numbers_at(signatures, list);
        let its_numbers = numbers_at(numbers, list);
        match find_in(trail, places, literals, bits, its_signatures, its_numbers) {
            Some(at) => return Some(Spot { list, at }),
            None => {}
        }
    }
    None
}
