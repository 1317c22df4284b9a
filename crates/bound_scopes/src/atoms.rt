//! How many atoms the top-level sigs have together.

ghost use Rattle.std.specs.Prelude.{◌≡◌, nat_lt, not};
ghost use Rattle.core_meaning.specs.Kept.{atoms_of_sig, atom_count};

use core_meaning::{SigScope, SigScopeList};

/// How many atoms a sig brings: its number where it is top-level.
fn atoms_of(scope: &SigScope) -> u64
    ensures { result ≡ atoms_of_sig scope.now }
{
    if scope.top {
        match scope.number {
            Some(number) => number,
            None => 0,
        }
    } else {
        0
    }
}

/// Whether the top-level sigs have at most so many atoms together.
pub(crate) fn fits(numbers: &SigScopeList, limit: u64) -> bool
    ensures { result ≡ not (nat_lt limit (atom_count numbers.now)) }
{
    let mut room = limit;
    for place in 0..numbers.len() {
        let scope = numbers.get(place);
        let number = atoms_of(scope);
        if number > room {
            return false;
        }
        room -= number;
    }
    true
}
