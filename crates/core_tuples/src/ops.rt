//! Inclusion of sets of tuples.

ghost use Rattle.std.specs.Prelude.{◌↔◌, ℕ, List, IsTrue};
ghost use Rattle.core_tuples.specs.Sets.{In};

use crate::set::TupleSet;

/// Whether each tuple of the first set is in the second.
pub fn inside(a: &TupleSet, b: &TupleSet) -> bool
    ensures { IsTrue result ↔ ((t : List ℕ) → In t a.now → In t b.now) }
{
    for place in 0..a.len() {
        if !b.contains(a.tuple(place)) {
            return false;
        }
    }
    true
}
