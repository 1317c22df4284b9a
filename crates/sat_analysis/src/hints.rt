//! The hints of a learnt clause are the reasons of what was resolved away, by the trail's order.
//!
//! A checker takes them as they stand: each is unit under those before it, and the last one is
//! false.

ghost use Rattle.std.specs.Prelude.{◌≡◌, ℕ, ℤ, neg_ℤ, ◌+◌, ◌-◌, ◌<◌, ◌≤◌, ◌++◌, ◌∷◌, [], List, length, IfOk, OnOk, slice_index};
ghost use Rattle.std.specs.List.{All, Contains};
ghost use Rattle.sat_trail.specs.Literal.{IsLiteral};
ghost use Rattle.sat_trail.specs.Assignment.{value_at};
ghost use Rattle.sat_trail.specs.State.{clause_at};
ghost use Rattle.sat_analysis.specs.Resolved.{Stands, Fails, AllFail};
ghost use Rattle.sat_analysis.specs.Hints.{reasons_from, Passes, IsAnalysed, IsPlaced};

use crate::clauses::reason_of;
use sat_trail::Trail;
use std::alloc::AllocError;

/// Adds the places of the negations of false literals, from one of these on.
pub(crate) fn gather_places(
    trail: &Trail,
    literals: &[i64],
    start: usize,
    places: &mut Vec<usize>,
) -> Result<(), AllocError>
    requires literals { All (IsLiteral trail.now.variables) literals.now }
    requires within { start ≤ length literals.now }
    requires fails { AllFail trail.now literals.now }
    ensures { OnOk result (IsPlaced trail.now literals.now start (length literals.now)
        places.old.items places.new.items) }
{
    for number in start..literals.len() {
        places.push(trail.place(literals[number]))?;
    }
    Ok(())
}

/// Adds the reason of the literal at a place of the trail, unless the place is below `start`, and gives the place from
/// which on the next may be.
fn gather_one(
    trail: &Trail,
    hints: &mut Vec<u64>,
    start: usize,
    place: usize,
) -> Result<usize, AllocError>
    requires { (place < length trail.now.assignment.trail) × (Contains trail.now.limits place → ⊥) }
    ensures { (rest : List ℕ) → IfOk result (λ next.
        hints.new.items ++ reasons_from trail.now next rest ≡ hints.old.items
        ++ reasons_from trail.now start (place ∷ rest)) }
{
    if place < start {
        return Ok(start);
    }
    match reason_of(trail, trail.trail()[place]) {
        Some(reason) => {
            hints.push(reason)?;
            Ok(place + 1)
        }
        None => Ok(start),
    }
}

/// Adds the reasons of the literals at some places of the trail that don't fall, each once.
fn gather_reasons(trail: &Trail, places: &[usize], hints: &mut Vec<u64>) -> Result<(), AllocError>
    requires { (j : ℕ) → Contains places.now j → (j < length trail.now.assignment.trail)
        × (Contains trail.now.limits j → ⊥) }
    ensures { OnOk result (hints.new.items ≡ hints.old.items
        ++ reasons_from trail.now 0 places.now) }
{
    let mut start = 0;
    for place in places {
        start = gather_one(trail, hints, start, *place)?;
    }
    Ok(())
}

/// Makes the hints: the reasons of the literals that are resolved away, in the order of the trail, and the false
/// clause.
pub(crate) fn gather_hints(
    trail: &Trail,
    places: &mut Vec<usize>,
    hints: &mut Vec<u64>,
    conflict: u64,
) -> Result<(), AllocError>
    requires trail { Stands trail.now }
    requires conflict { (0 < conflict) × (conflict ≤ length trail.now.ends) }
    requires places { (j : ℕ) → Contains places.old.items j →
        (j < length trail.now.assignment.trail) × (Contains trail.now.limits j → ⊥) }
    requires none { hints.old.items ≡ [] }
    ensures { (noted literals : List ℤ) → IsAnalysed trail.now (clause_at trail.now (conflict - 1))
        noted literals places.old.items →
        OnOk result (Passes trail.now literals hints.new.items) }
{
    places.sort_unstable();
    gather_reasons(trail, places.as_slice(), hints)?;
    hints.push(conflict)?;
    Ok(())
}
