//! Resolution from a false clause back to the first UIP, the one literal left of the last level.

ghost use Rattle.std.specs.Prelude.{◌≡◌, ℕ, ℤ, ◌+◌, ◌-◌, ◌<◌, ◌≤◌, ◌↔◌, [], List, length, IfOk, OnOk, IsTrue, IsFalse};
ghost use Rattle.sat_trail.specs.Watched.{IsFalseIn};
ghost use Rattle.sat_trail.specs.State.{clause_at, IsAttached};
ghost use Rattle.std.specs.List.{All};
ghost use Rattle.sat_trail.specs.Literal.{IsLiteral};
ghost use Rattle.sat_analysis.specs.Resolved.{Stands, base, IsMet, IsMetIn, IsBack, IsFound};

use crate::clauses::{note_clause, reason_of};
use crate::noted::Noted;
use sat_trail::Trail;
use std::alloc::AllocError;

/// Whether the variable of the literal at a place was noted.
#[inline]
fn is_met(literals: &[i64], noted: &Noted, place: usize) -> bool
    requires literals { All (IsLiteral noted.now.variables) literals.now }
    requires within { place < length literals.now }
    ensures { IsTrue result ↔ IsMetIn literals.now noted.now.literals place }
{
    noted.has(literals[place])
}

/// Whether such a variable was noted from one place on and below another.
fn is_any_met(literals: &[i64], noted: &Noted, from: usize, to: usize) -> bool
    requires literals { All (IsLiteral noted.now.variables) literals.now }
    requires within { to ≤ length literals.now }
    ensures some { IsTrue result → (j : ℕ) × (from ≤ j) × (j < to)
        × IsMetIn literals.now noted.now.literals j }
    ensures none { IsFalse result → (j : ℕ) → from ≤ j → j < to →
        IsMetIn literals.now noted.now.literals j → ⊥ }
{
    let mut place = to;
    'down: while place > from {
        if is_met(literals, noted, place - 1) {
            return true;
        }
        place -= 1;
    }
    false
}

/// Whether no variable before a place was noted in the last level, which is above 0.
fn is_alone(trail: &Trail, literals: &[i64], noted: &Noted, place: usize) -> bool
    requires trail { Stands trail.now × (literals.now ≡ trail.now.assignment.trail) }
    requires variables { noted.now.variables ≡ trail.now.variables }
    requires within { place < length trail.now.assignment.trail }
    ensures alone { IsTrue result → (0 < length trail.now.limits)
        × ((j : ℕ) → base trail.now ≤ j → j < place → IsMet trail.now noted.now.literals j → ⊥) }
    ensures other { IsFalse result → 0 < length trail.now.limits → (j : ℕ) × (base trail.now ≤ j)
        × (j < place) × IsMet trail.now noted.now.literals j }
{
    if trail.top() == 0 {
        return false;
    }
    if is_any_met(literals, noted, trail.base(), place) {
        return false;
    }
    true
}

/// Resolves with the reason of the true literal at a place of the last level, where it didn't open that level.
fn resolve(
    trail: &Trail,
    literals: &[i64],
    noted: &mut Noted,
    places: &mut Vec<usize>,
    place: usize,
) -> Result<(), AllocError>
    requires trail { Stands trail.now × (literals.now ≡ trail.now.assignment.trail) }
    requires variables { noted.old.variables ≡ trail.now.variables }
    requires within { (base trail.now ≤ place) × (place < length trail.now.assignment.trail) }
    requires met { IsMet trail.now noted.old.literals place }
    requires below { 0 < length trail.now.limits → (j : ℕ) × (base trail.now ≤ j) × (j < place)
        × IsMet trail.now noted.old.literals j }
    ensures variables { noted.new.variables ≡ noted.old.variables }
    ensures back { (clause : List ℤ) → IsBack trail.now clause noted.old.literals places.old.items
        (place + 1) →
        OnOk result (IsBack trail.now clause noted.new.literals places.new.items place) }
{
    match reason_of(trail, literals[place]) {
        Some(reason) => {
            note_clause(trail, noted, reason)?;
            places.push(place)?;
            Ok(())
        }
        None => Ok(()),
    }
}

/// Resolves with the reason of the true literal at a place of the last level, if its variable was noted. It does
/// nothing and answers true where there is no other noted one before it in the last level, which is above 0.
fn take_place(
    trail: &Trail,
    literals: &[i64],
    noted: &mut Noted,
    places: &mut Vec<usize>,
    place: usize,
) -> Result<bool, AllocError>
    requires trail { Stands trail.now × (literals.now ≡ trail.now.assignment.trail) }
    requires variables { noted.old.variables ≡ trail.now.variables }
    requires within { (base trail.now ≤ place) × (place < length trail.now.assignment.trail) }
    ensures variables { noted.new.variables ≡ noted.old.variables }
    ensures same { IfOk result (λ found. IsTrue found → (noted.new.literals ≡ noted.old.literals)
        × (places.new.items ≡ places.old.items)) }
    ensures point { IfOk result (λ found. IsTrue found →
        (0 < length trail.now.limits) × IsMet trail.now noted.old.literals place
        × ((j : ℕ) → base trail.now ≤ j → j < place → IsMet trail.now noted.old.literals j → ⊥)) }
    ensures back { (clause : List ℤ) → IsBack trail.now clause noted.old.literals places.old.items
        (place + 1) →
        IfOk result (λ found. IsFalse found → IsBack trail.now clause noted.new.literals
        places.new.items place) }
{
    if !is_met(literals, noted, place) {
        return Ok(false);
    }
    if is_alone(trail, literals, noted, place) {
        return Ok(true);
    }
    resolve(trail, literals, noted, places, place)?;
    Ok(false)
}

/// Resolves from an attached false clause back to the first unique implication point, and gives its place on the trail, if there
/// is one. The places of the literals that are resolved away are added to `places`.
pub(crate) fn find_point(
    trail: &Trail,
    noted: &mut Noted,
    places: &mut Vec<usize>,
    conflict: u64,
) -> Result<Option<usize>, AllocError>
    requires trail { Stands trail.now }
    requires variables { noted.old.variables ≡ trail.now.variables }
    requires conflict { (0 < conflict) × (conflict ≤ length trail.now.ends)
        × IsFalseIn trail.now.literals trail.now.ends trail.now.assignment.trail (conflict - 1) }
    requires attached { IsAttached trail.now (conflict - 1) }
    requires none { (noted.old.literals ≡ []) × (places.old.items ≡ []) }
    ensures variables { noted.new.variables ≡ noted.old.variables }
    ensures found { IfOk result (IsFound trail.now (clause_at trail.now (conflict - 1))
        noted.new.literals places.new.items) }
{
    note_clause(trail, noted, conflict)?;
    let literals = trail.trail();
    let base = trail.base();
    let mut place = literals.len();
    'back: while place > base {
        if take_place(trail, literals, noted, places, place - 1)? {
            return Ok(Some(place - 1));
        }
        place -= 1;
    }
    Ok(None)
}
