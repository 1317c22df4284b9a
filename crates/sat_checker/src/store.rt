//! The standing clauses by their numbers: which numbers stand, and what a deletion takes out.

ghost use Rattle.std.specs.Prelude.{◌≡◌, ◌≤◌, ◌*◌, ◌<◌, ℕ, length, nat_eq, is_some, OnOk, OnErr, vec_len, All};
ghost use Rattle.std.specs.Prelude.{if◌then◌else◌, ◌==◌, nat_abs, IsSome, None, ◌^◌, IfOk, IsTrue, true, ◌+◌, slice_index};
ghost use Rattle.std.specs.Ordering.{nat_cmp};
ghost use Rattle.std.specs.FinMap as map;
ghost use Rattle.std.specs.List.{list_all};
ghost use Rattle.sat_dimacs.specs.Literal.{IsLiteral};
ghost use Rattle.sat_lrat.specs.Step.{are_distinct, without};
ghost use Rattle.sat_checker.specs.Marks.{IsCovered, AreUpTo};
ghost use Rattle.sat_checker.specs.Table.{found};

use crate::table::ClauseTable;
use std::alloc::{AllocError, Global};
use std::collections::HashSet;

/// Whether a number is below the next, if there is one.
#[inline]
fn is_below_next(ids: &[u64], place: usize) -> bool
    requires { place < length ids.now }
    ensures { IsTrue result → place + 1 < length ids.now →
        slice_index ids.now place < slice_index ids.now (place + 1) }
{
    place + 1 == ids.len() || ids[place] < ids[place + 1]
}

/// Whether the numbers rise from one to the next, so that none stands twice.
fn are_rising(ids: &[u64]) -> bool
    ensures { IsTrue result → are_distinct ids.now ≡ true }
{
    let mut place = ids.len();
    while place > 0 {
        place -= 1;
        if !is_below_next(ids, place) {
            return false;
        }
    }
    true
}

/// Whether no number stands twice, by the set of those behind each.
fn are_distinct_by_set(alloc: Global, ids: &[u64]) -> Result<bool, AllocError>
    ensures { IfOk result (λ answer. answer ≡ are_distinct ids.now) }
{
    let mut seen = HashSet::with_capacity(alloc, ids.len())?;
    let mut place = ids.len();
    while place > 0 {
        place -= 1;
        if !seen.insert(ids[place])? {
            return Ok(false);
        }
    }
    Ok(true)
}

/// Whether no number stands twice, by each pair of them.
fn are_distinct_by_pairs(ids: &[u64]) -> bool
    ensures { result ≡ are_distinct ids.now }
{
    for place in 0..ids.len() {
        if ids[place + 1..].contains(&ids[place]) {
            return false;
        }
    }
    true
}

/// Whether no number stands twice. The time is about the number of numbers, unless memory is refused, which changes
/// nothing of the answer.
pub(crate) fn are_distinct(alloc: Global, ids: &[u64]) -> bool
    ensures { result ≡ are_distinct ids.now }
{
    if are_rising(ids) {
        return true;
    }
    match are_distinct_by_set(alloc, ids) {
        Ok(answer) => answer,
        Err(_) => are_distinct_by_pairs(ids),
    }
}

/// Whether a clause stands under each number.
pub(crate) fn all_stand(clauses: &ClauseTable, ids: &[u64]) -> bool
    ensures { result ≡ list_all (λ id. is_some (found clauses.now id)) ids.now }
{
    ids.iter().all(|id| clauses.has(*id))
}

/// Takes out the clause of a number.
#[tactic(auto, using(crate::proofs::Standing::view_removed))]
fn remove_one(clauses: &mut ClauseTable, id: u64)
    ensures without { map.from_entries {R = nat_cmp} clauses.new
        ≡ map.remove (map.from_entries clauses.old) id }
    ensures others { (other : ℕ) → found clauses.new other
        ≡ (if id == other then None else found clauses.old other) }
{
    clauses.remove(id);
}

/// Takes out the clauses of the numbers.
pub(crate) fn remove_all(clauses: &mut ClauseTable, ids: &[u64])
    ensures without { map.from_entries {R = nat_cmp} clauses.new
        ≡ without (map.from_entries clauses.old) ids.now }
    ensures fewer { (other : ℕ) → IsSome (found clauses.new other)
        → found clauses.new other ≡ found clauses.old other }
{
    for id in ids {
        remove_one(clauses, *id);
    }
}

/// The variable of a literal.
fn variable_of(literal: i64) -> u64
    requires { IsLiteral literal }
    ensures value { result ≡ nat_abs literal }
    ensures fits { result < 2 ^ 63 }
{
    literal.unsigned_abs()
}

/// The greatest variable of the literals.
fn greatest_variable(literals: &[i64]) -> u64
    requires { All IsLiteral literals.now }
    ensures each { All (λ literal. nat_abs literal ≤ result) literals.now }
    ensures fits { result < 2 ^ 63 }
{
    let mut greatest = 0;
    for literal in literals {
        greatest = greatest.max(variable_of(*literal));
    }
    greatest
}

/// Makes marks for the literals.
pub(crate) fn cover(marks: &mut Vec<u32>, literals: &[i64]) -> Result<(), AllocError>
    requires { All IsLiteral literals.now }
    ensures covered { OnOk result (IsCovered (vec_len marks.new) literals.now) }
    ensures grows { vec_len marks.old ≤ vec_len marks.new }
    ensures up_to { (stamp : ℕ) → AreUpTo stamp marks.old.items → AreUpTo stamp marks.new.items }
{
    let wanted = 2 * greatest_variable(literals) as usize + 1;
    if marks.len() < wanted {
        marks.resize(wanted, 0)?;
    }
    Ok(())
}
