//! Recursive minimisation: a literal leaves a learnt clause where the clause's others force it.
//!
//! A literal of the clause is false. Where all other literals of its negation's reason are among
//! those of the clause, resolution with that reason removes it and adds nothing. The same holds
//! where these others can be removed in turn, and so on: the literal is redundant (Sörensson and
//! Biere 2009; MiniSat does so as well). Reasons have only what came earlier on the trail, so
//! nothing shows itself.
//!
//! The search goes in breadth, without recursion. The noted literals are a list. A literal is
//! tried by noting its reason's literals behind it, then those of the reasons of these, until
//! nothing new comes. Where it fails, all that was noted for it is forgotten. Where it succeeds,
//! that stays noted: later tries may end there, and its reasons are among the hints. A failure
//! isn't remembered.
//!
//! A try fails at a literal that has no reason, since it is a decision. It also fails, before the
//! reason of that literal is read, at one of a level from which no literal was met: to remove it
//! one would come to that level's decision in the end. Levels are compared by their rests at 64,
//! as bits of one number, so a few hopeless tries aren't seen at once; they fail later.
//!
//! Literals of level 0 are always redundant. They leave by the same way, down to the clauses that
//! force them, since the hints have to name these.
//!
//! Only literals below the last level are tried: of that one just the first UIP is left.

ghost use Rattle.std.specs.Prelude.{◌≡◌, ℕ, ℤ, ◌+◌, ◌-◌, ◌<◌, ◌≤◌, ◌++◌, [], List, length, IfOk, OnOk, IsTrue, IsFalse};
ghost use Rattle.std.specs.List.{All, Contains};
ghost use Rattle.sat_trail.specs.Literal.{IsLiteral};
ghost use Rattle.sat_trail.specs.Literal as spec;
ghost use Rattle.sat_trail.specs.Assignment.{value_at};
ghost use Rattle.sat_analysis.specs.Noted.{HasVariable};
ghost use Rattle.sat_analysis.specs.Resolved.{Stands, reason_at, AllFail, IsTaken, IsLow, IsSpread, IsParted};

use crate::clauses::{level_of, note_clause, reason_of};
use crate::noted::Noted;
use sat_trail::{Trail, literal_at};
use std::alloc::AllocError;

/// The bit of a level.
#[inline]
fn level_bit(level: u64) -> u64 {
    1 << (level % 64)
}

/// The bits of the levels of some literals.
fn levels_of(trail: &Trail, literals: &[i64]) -> u64
    requires { All (IsLiteral trail.now.variables) literals.now }
{
    let mut levels = 0;
    for place in 0..literals.len() {
        levels |= level_bit(level_of(trail, literals[place]));
    }
    levels
}

/// Whether a literal is of level 0, or forced at one of some levels.
fn may_go(trail: &Trail, levels: u64, literal: i64) -> bool
    requires { IsLiteral trail.now.variables literal }
{
    let level = level_of(trail, literal);
    level == 0 || (levels & level_bit(level) != 0 && reason_of(trail, literal).is_some())
}

/// Whether it may be that all literals of a clause can be resolved away that weren't noted.
fn may_all_go(trail: &Trail, noted: &Noted, levels: u64, number: u64) -> bool
    requires variables { noted.now.variables ≡ trail.now.variables }
    requires number { (0 < number) × (number ≤ length trail.now.ends) }
{
    let literals = trail.clause(number);
    for place in 0..literals.len() {
        let literal = literal_at(literals, place);
        if !noted.has(literal) && !may_go(trail, levels, literal) {
            return false;
        }
    }
    true
}

/// Notes the literals of a false literal's reason, if it has one and they may all be resolved away.
fn expand_one(
    trail: &Trail,
    noted: &mut Noted,
    levels: u64,
    literal: i64,
) -> Result<bool, AllocError>
    requires variables { noted.old.variables ≡ trail.now.variables }
    requires literal { IsLiteral trail.now.variables literal }
    ensures variables { noted.new.variables ≡ noted.old.variables }
    ensures same { IfOk result (λ done. IsFalse done → noted.new.literals ≡ noted.old.literals) }
    ensures taken { IfOk result (λ done. IsTrue done → (j : ℕ) →
        j < length trail.now.assignment.trail → spec.index (value_at trail.now.assignment.trail j)
        ≡ spec.index literal →
        (Contains trail.now.limits j → ⊥) × IsTaken (reason_at trail.now j) noted.old.literals
        noted.new.literals) }
{
    match reason_of(trail, literal) {
        Some(reason) if may_all_go(trail, noted, levels, reason) => {
            note_clause(trail, noted, reason)?;
            Ok(true)
        }
        _ => Ok(false),
    }
}

/// Resolves away a noted literal below the last level, and what its reason adds, and so on, where that is possible.
fn expand(trail: &Trail, noted: &mut Noted, levels: u64, literal: i64) -> Result<bool, AllocError>
    requires trail { Stands trail.now }
    requires variables { noted.old.variables ≡ trail.now.variables }
    requires literal { IsLiteral trail.now.variables literal }
    requires low { IsLow trail.now literal }
    requires has { HasVariable noted.old.literals (spec.index literal) }
    requires fails { AllFail trail.now noted.old.literals }
    ensures variables { noted.new.variables ≡ noted.old.variables }
    ensures longer { IfOk result (λ done. (ts : List ℤ)
        × (noted.new.literals ≡ noted.old.literals ++ ts)) }
    ensures spread { IfOk result (λ done. IsTrue done →
        IsSpread trail.now noted.old.literals noted.new.literals literal) }
{
    let start = noted.len();
    if !expand_one(trail, noted, levels, literal)? {
        return Ok(false);
    }
    for place in start..usize::MAX {
        if place >= noted.len() {
            return Ok(true);
        }
        let next = noted.literal(place);
        if !expand_one(trail, noted, levels, next)? {
            return Ok(false);
        }
    }
    Ok(false)
}

/// Whether a noted literal below the last level can be resolved away. All that shows it is then noted too.
fn is_forced(
    trail: &Trail,
    noted: &mut Noted,
    levels: u64,
    literal: i64,
) -> Result<bool, AllocError>
    requires trail { Stands trail.now }
    requires variables { noted.old.variables ≡ trail.now.variables }
    requires literal { IsLiteral trail.now.variables literal }
    requires low { IsLow trail.now literal }
    requires has { HasVariable noted.old.literals (spec.index literal) }
    requires fails { AllFail trail.now noted.old.literals }
    ensures variables { noted.new.variables ≡ noted.old.variables }
    ensures same { IfOk result (λ done. IsFalse done → noted.new.literals ≡ noted.old.literals) }
    ensures spread { IfOk result (λ done. IsTrue done →
        IsSpread trail.now noted.old.literals noted.new.literals literal) }
{
    let start = noted.len();
    if expand(trail, noted, levels, literal)? {
        return Ok(true);
    }
    noted.cut(start);
    Ok(false)
}

/// Puts the noted literal at a place to the dropped ones or to the learnt ones, if it is below the last level.
fn part_one(
    trail: &Trail,
    noted: &mut Noted,
    learnt: &mut Vec<i64>,
    dropped: &mut Vec<i64>,
    levels: u64,
    place: usize,
) -> Result<(), AllocError>
    requires trail { Stands trail.now }
    requires variables { noted.old.variables ≡ trail.now.variables }
    requires within { place < length noted.old.literals }
    requires fails { AllFail trail.now noted.old.literals }
    ensures variables { noted.new.variables ≡ noted.old.variables }
    ensures longer { OnOk result ((ts : List ℤ) × (noted.new.literals ≡ noted.old.literals ++ ts)) }
    ensures parted { (first : ℕ) → place < first → first ≤ length noted.old.literals →
        IsParted trail.now first place noted.old.literals learnt.old.items dropped.old.items →
        OnOk result (IsParted trail.now first (place
        + 1) noted.new.literals learnt.new.items dropped.new.items) }
{
    let literal = noted.literal(place);
    if level_of(trail, literal) >= trail.top() {
        return Ok(());
    }
    if is_forced(trail, noted, levels, literal)? {
        dropped.push(literal)?;
        return Ok(());
    }
    learnt.push(literal)?;
    Ok(())
}

/// Parts the noted literals below the last level into those that are learnt and those that others force, and notes all
/// that shows the latter behind them.
pub(crate) fn part(
    trail: &Trail,
    noted: &mut Noted,
    learnt: &mut Vec<i64>,
    dropped: &mut Vec<i64>,
) -> Result<(), AllocError>
    requires trail { Stands trail.now }
    requires variables { noted.old.variables ≡ trail.now.variables }
    requires fails { AllFail trail.now noted.old.literals }
    requires none { (learnt.old.items ≡ []) × (dropped.old.items ≡ []) }
    ensures variables { noted.new.variables ≡ noted.old.variables }
    ensures longer { OnOk result ((ts : List ℤ) × (noted.new.literals ≡ noted.old.literals ++ ts)) }
    ensures parted { OnOk result (IsParted trail.now (length noted.old.literals)
        (length noted.old.literals) noted.new.literals learnt.new.items dropped.new.items) }
{
    let levels = levels_of(trail, noted.literals());
    for place in 0..noted.len() {
        part_one(trail, noted, learnt, dropped, levels, place)?;
    }
    Ok(())
}
