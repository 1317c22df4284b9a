//! Levels and reasons of literals, and how the literals of a clause are noted.

ghost use Rattle.std.specs.Prelude.{◌≡◌, ℕ, ◌-◌, ◌<◌, ◌≤◌, length, slice_index, IfSome, IfNone, OnOk};
ghost use Rattle.std.specs.List.{Contains};
ghost use Rattle.sat_trail.specs.Literal.{IsLiteral};
ghost use Rattle.sat_trail.specs.Literal as spec;
ghost use Rattle.sat_trail.specs.Assignment.{value_at};
ghost use Rattle.sat_trail.specs.State.{clause_at};
ghost use Rattle.sat_trail.specs.Reasons.{reason_of};
ghost use Rattle.sat_analysis.specs.Resolved.{level, IsTaken, IsOneNoted};

use crate::noted::Noted;
use sat_trail::{Trail, wide};
use std::alloc::AllocError;

/// The level of a literal's variable.
#[inline]
pub(crate) fn level_of(trail: &Trail, literal: i64) -> u64
    requires { IsLiteral trail.now.variables literal }
    ensures { result ≡ level trail.now literal }
{
    trail.level(literal.unsigned_abs())
}

/// The number of the clause that forced a literal's variable, or none where it opened a level.
#[inline]
pub(crate) fn reason_of(trail: &Trail, literal: i64) -> Option<u64>
    requires { IsLiteral trail.now.variables literal }
    ensures in_range { IfSome result (λ n. (0 < n) × (n ≤ length trail.now.ends)) }
    ensures forced { IfSome result (λ n. (j : ℕ) → j < length trail.now.assignment.trail →
        spec.index (value_at trail.now.assignment.trail j) ≡ spec.index literal →
        (n ≡ reason_of trail.now.assignment j) × (Contains trail.now.limits j → ⊥)) }
    ensures chosen { IfNone result ((j : ℕ) → j < length trail.now.assignment.trail →
        spec.index (value_at trail.now.assignment.trail j) ≡ spec.index literal →
        Contains trail.now.limits j) }
{
    trail.reason(literal.unsigned_abs())
}

/// Notes the literals of a clause whose variables weren't noted before. The only error is want of memory.
pub(crate) fn note_clause(trail: &Trail, noted: &mut Noted, number: u64) -> Result<(), AllocError>
    requires variables { noted.old.variables ≡ trail.now.variables }
    requires number { (0 < number) × (number ≤ length trail.now.ends) }
    ensures variables { noted.new.variables ≡ noted.old.variables }
    ensures taken { OnOk result (IsTaken (clause_at trail.now (number - 1)) noted.old.literals
        noted.new.literals) }
{
    let literals = trail.clause(number);
    for place in 0..literals.len() {
        note(noted, &literals[place])?;
    }
    Ok(())
}

/// Notes a literal, unless its variable was noted before.
fn note(noted: &mut Noted, literal: &i32) -> Result<(), AllocError>
    requires { IsLiteral noted.old.variables literal.now }
    ensures variables { noted.new.variables ≡ noted.old.variables }
    ensures noted { OnOk result (IsOneNoted literal.now noted.old.literals noted.new.literals) }
{
    let its_value = wide(literal);
    if noted.has(its_value) {
        return Ok(());
    }
    noted.add(its_value)?;
    Ok(())
}
