//! Tests of sets and of how many tuples they have.

ghost use Rattle.std.specs.Prelude.{◌≡◌, ◌↔◌, ℕ, length, reverse, IsTrue};
ghost use Rattle.core_tuples.specs.Sets.{In, IsTupleSet};
ghost use Rattle.core_meaning.specs.Operators.{IsEqual, IsListOf, HasQuantity, HasMultiplicity};
ghost use Rattle.core_meaning.specs.Meaning.{IsApart};
ghost use Rattle.eval_sets.specs.Rows.{CountIs, CountMay};

use core_tree::{Multiplicity, Quantity};
use core_tuples::{TupleSet, inside};

/// Whether two sets have the same tuples.
pub fn are_equal(a: &TupleSet, b: &TupleSet) -> bool
    ensures { IsTrue result ↔ IsEqual (λ t. In t a.now) (λ t. In t b.now) }
{
    inside(a, b) && inside(b, a)
}

/// How many tuples a set has.
pub fn size_of(set: &TupleSet) -> usize
    ensures count { result ≡ length set.now.tuples }
    ensures listed { IsListOf (λ t. In t set.now) set.now.tuples }
    ensures set { IsTupleSet set.now }
{
    set.len()
}

/// Whether a number of tuples is what a test asks.
pub fn is_quantity(quantity: Quantity, count: usize) -> bool
    ensures { IsTrue result ↔ CountIs quantity count }
{
    match quantity {
        Quantity::Some => count > 0,
        Quantity::No => count == 0,
        Quantity::One => count == 1,
        Quantity::Lone => count <= 1,
    }
}

/// Whether a set has as many tuples as a test asks.
pub fn has_quantity(quantity: Quantity, set: &TupleSet) -> bool
    ensures { IsTrue result ↔ HasQuantity quantity (λ t. In t set.now) }
{
    is_quantity(quantity, size_of(set))
}

/// Whether a number of tuples is what a multiplicity allows.
fn may_number(multiplicity: Multiplicity, count: usize) -> bool
    ensures { IsTrue result ↔ CountMay multiplicity count }
{
    match multiplicity {
        Multiplicity::Set => true,
        Multiplicity::One => count == 1,
        Multiplicity::Lone => count <= 1,
        Multiplicity::Some => count > 0,
    }
}

/// Whether a set has as many tuples as a multiplicity allows.
pub fn has_multiplicity(multiplicity: Multiplicity, set: &TupleSet) -> bool
    ensures { IsTrue result ↔ HasMultiplicity multiplicity (λ t. In t set.now) }
{
    may_number(multiplicity, size_of(set))
}

/// Whether an atom differs from the latest so many of the chosen ones, of which the latest stands last.
#[tactic(auto, using(crate::proofs::ApartLaw::apart_yes, crate::proofs::ApartLaw::apart_no))]
pub fn is_apart(chosen: &[u32], apart: u32, atom: u32) -> bool
    ensures { IsTrue result ↔ IsApart apart atom (reverse chosen.now) }
{
    let count = chosen.len();
    for back in 0..count {
        if back >= apart as usize {
            return true;
        }
        if chosen[count - 1 - back] == atom {
            return false;
        }
    }
    true
}
