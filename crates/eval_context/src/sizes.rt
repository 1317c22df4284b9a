//! How large the universe of some scopes is.

ghost use Rattle.std.specs.Prelude.{◌≡◌, ◌≤◌, ◌+◌, ◌^◌, IfSome, IsTrue};
ghost use Rattle.core_meaning.specs.Kept.{atoms_of_sig, atom_count};

use core_meaning::{Scopes, SigScope};

/// How many numbers a universe has at most: `base_types::limits::ATOMS` (Atoms, S66).
const MOST: u64 = 16384;

/// How many atoms a sig brings: its number where it is top-level.
fn atoms_of(scope: &SigScope) -> u64
    ensures { result ≡ atoms_of_sig scope.now }
{
    if !scope.top {
        return 0;
    }
    match scope.number {
        Some(number) => number,
        None => 0,
    }
}

/// How many atoms the top-level sigs bring, where a universe has as many.
pub fn count_atoms(numbers: &[SigScope]) -> Option<u32>
    ensures { IfSome result (λ n. (n ≡ atom_count numbers.now) × (n ≤ 16384)) }
{
    let mut count: u64 = 0;
    for scope in numbers {
        let more = atoms_of(scope);
        if more > MOST || count + more > MOST {
            return None;
        }
        count += more;
    }
    Some(count as u32)
}

/// How many integers a bitwidth of 1 to 14 gives.
#[tactic(auto, using(crate::proofs::PowLaw::pow_few, crate::proofs::PowLaw::pow_some))]
pub fn integer_count(bits: u32) -> u32
    requires { bits ≤ 14 }
    ensures number { result ≡ 2 ^ bits }
    ensures some { 1 ≤ result }
    ensures few { result ≤ 16384 }
{
    2u32.pow(bits)
}
