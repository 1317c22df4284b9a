//! Unit propagation: what clauses force is made true, until one is false or none forces more.
//!
//! A clause is unit where one literal of it is free and all others are false. The free one has to
//! be true, and gets the clause as its reason. The reasons make the implication graph: a forced
//! literal has an edge from the negation of each other literal of its reason. A clause that is
//! false is a conflict.
//!
//! The trail is the queue. A true literal at a place is propagated by a walk over the list of its
//! negation (see `watches`). `advance` does this for each place from `start` on, those included
//! that come to the trail meanwhile. A visit of a node whose literal has become false finds one of
//! four:
//! - the other watched literal, the blocker, is true: the clause is true, and the watch stays;
//! - a further literal isn't false: it is watched in place of the false one;
//! - all others are false and the other watched one is free: the clause is unit, and forces it;
//! - all are false: a conflict, whose clause is answered, and which ends the propagation.
//!
//! A place that met a conflict doesn't count as propagated, so that it is visited again. Nor does
//! one where a watch had no memory to move to.
//!
//! What holds throughout is `IsWatched`: a clause with a watched literal that is false among the
//! propagated places has a true literal. So where all places are propagated without a conflict,
//! every such clause is true or has two different free literals. Of a detached clause, which
//! watches nothing, it says nothing.
//!
//! Short clauses have no two different literals: the empty clause, and those of one literal, which
//! may stand in them several times. They can't watch two literals, and are taken first, in the
//! order in which they came, and again where what made them true was taken back. The empty clause
//! is a conflict, and any other is true, false, or unit.

ghost use Rattle.std.specs.Prelude.{◌≡◌, ℕ, ℤ, ◌+◌, ◌-◌, ◌<◌, ◌≤◌, ◌++◌, List, length, slice_index, Ok, None, IfNone, IfSome, IfOk, IsTrue, IsFalse};
ghost use Rattle.std.specs.List.{Contains};
ghost use Rattle.sat_lists.specs.Nodes.{AreAtRest};
ghost use Rattle.sat_trail.specs.Watched.{IsWatched, IsTrueIn, IsFalseIn, IsAlike};
ghost use Rattle.sat_trail.specs.Watching.{HasValues, AreWoven, AreCopied, AreWatched, StayWatched, Propagates, IsFalseClause};

use crate::arena::Arena;
use crate::assigned::Assigned;
use crate::literal::list_of;
use crate::watches::Watches;
use std::alloc::AllocError;

/// Whether nothing was found, and memory wasn't wanted.
fn is_clear(found: &Result<Option<u64>, AllocError>) -> bool
    ensures clear { IsTrue result → found.now ≡ Ok None }
    ensures unclear { IsFalse result → IfOk found.now (λ o. IfNone o ⊥) }
{
    match found {
        Ok(None) => true,
        Ok(Some(_)) => false,
        Err(_) => false,
    }
}

/// Propagates the true literal at a place, and gives the number of a clause that is false, if there is one. The only error
/// is want of memory.
fn turn(
    arena: &Arena,
    watches: &mut Watches,
    assigned: &mut Assigned,
    place: usize,
    level: u64,
) -> Result<Option<u64>, AllocError>
    requires variables { HasValues arena.now assigned.old }
    requires woven { AreWoven arena.now watches.old }
    requires copied { AreCopied arena.now watches.old }
    requires at_rest { AreAtRest watches.old.lists }
    requires in_range { place < length assigned.old.trail }
    requires watched { AreWatched arena.now watches.old assigned.old place }
    ensures variables { length assigned.new.values ≡ length assigned.old.values }
    ensures woven { AreWoven arena.now watches.new }
    ensures copied { AreCopied arena.now watches.new }
    ensures at_rest { AreAtRest watches.new.lists }
    ensures kept { StayWatched arena.now watches.old assigned.old watches.new assigned.new }
    ensures forced { Propagates arena.now level assigned.old assigned.new }
    ensures watched { IfOk result (λ o. IfNone o (AreWatched arena.now watches.new assigned.new
        (place + 1))) }
    ensures false_clause { IfOk result (λ o. IfSome o (IsFalseClause arena.now watches.new
        assigned.new)) }
{
    let list = list_of(assigned.falsified(place));
    watches.lists.begin(list);
    let found = watches.visit(arena, assigned, level);
    watches.restore(arena);
    found
}

/// Propagates the true literals from a place on, and gives the place reached and the number of a clause that is false, if there
/// is one. The only error is want of memory.
pub fn advance(
    arena: &Arena,
    watches: &mut Watches,
    assigned: &mut Assigned,
    start: usize,
    level: u64,
) -> (usize, Result<Option<u64>, AllocError>)
    requires variables { HasValues arena.now assigned.old }
    requires woven { AreWoven arena.now watches.old }
    requires copied { AreCopied arena.now watches.old }
    requires at_rest { AreAtRest watches.old.lists }
    requires in_range { start ≤ length assigned.old.trail }
    requires watched { AreWatched arena.now watches.old assigned.old start }
    ensures variables { length assigned.new.values ≡ length assigned.old.values }
    ensures woven { AreWoven arena.now watches.new }
    ensures copied { AreCopied arena.now watches.new }
    ensures at_rest { AreAtRest watches.new.lists }
    ensures kept { StayWatched arena.now watches.old assigned.old watches.new assigned.new }
    ensures forced { Propagates arena.now level assigned.old assigned.new }
    ensures reached { result.0 ≤ length assigned.new.trail }
    ensures watched { AreWatched arena.now watches.new assigned.new result.0 }
    ensures all { IfOk result.1 (λ o. IfNone o (result.0 ≡ length assigned.new.trail)) }
    ensures false_clause { IfOk result.1 (λ o. IfSome o (IsFalseClause arena.now watches.new
        assigned.new)) }
{
    let mut done = start;
    'trail: while done < assigned.len() {
        let found = turn(arena, watches, assigned, done, level);
        if !is_clear(&found) {
            return (done, found);
        }
        done += 1;
    }
    (done, Ok(None))
}

/// Propagates the clauses without two different literals from a place on, and gives the place reached and the number of one that
/// is false.
pub fn advance_short(
    arena: &Arena,
    short: &[usize],
    assigned: &mut Assigned,
    start: usize,
    level: u64,
) -> (usize, Option<u64>)
    requires variables { HasValues arena.now assigned.old }
    requires alike { (j : ℕ) → j < length short.now →
        (slice_index short.now j < length arena.now.ends.items)
        × IsAlike arena.now.literals.items arena.now.ends.items (slice_index short.now j) }
    requires in_range { start ≤ length short.now }
    ensures variables { length assigned.new.values ≡ length assigned.old.values }
    ensures longer { (ts : List ℤ) × (assigned.new.trail ≡ assigned.old.trail ++ ts) }
    ensures forced { Propagates arena.now level assigned.old assigned.new }
    ensures reached { (start ≤ result.0) × (result.0 ≤ length short.now) }
    ensures holds { (j : ℕ) → start ≤ j → j < result.0 →
        IsTrueIn arena.now.literals.items arena.now.ends.items assigned.new.trail
        (slice_index short.now j) }
    ensures all { IfNone result.1 (result.0 ≡ length short.now) }
    ensures false_clause { IfSome result.1 (λ n. (0 < n) × (n ≤ length arena.now.ends.items)
        × Contains short.now (n - 1)
        × IsFalseIn arena.now.literals.items arena.now.ends.items assigned.new.trail (n - 1)) }
{
    let mut done = start;
    'clauses: while done < short.len() {
        let clause = short[done];
        if !satisfy(arena, assigned, clause, level) {
            return (done, Some(clause as u64 + 1));
        }
        done += 1;
    }
    (done, None)
}

/// Makes a clause without two different literals true, unless it is false.
fn satisfy(arena: &Arena, assigned: &mut Assigned, clause: usize, level: u64) -> bool
    requires variables { HasValues arena.now assigned.old }
    requires in_range { clause < length arena.now.ends.items }
    requires alike { IsAlike arena.now.literals.items arena.now.ends.items clause }
    ensures variables { length assigned.new.values ≡ length assigned.old.values }
    ensures longer { (ts : List ℤ) × (assigned.new.trail ≡ assigned.old.trail ++ ts) }
    ensures forced { Propagates arena.now level assigned.old assigned.new }
    ensures holds { IsTrue result → IsTrueIn arena.now.literals.items arena.now.ends.items
        assigned.new.trail clause }
    ensures false_clause { IsFalse result → IsFalseIn arena.now.literals.items arena.now.ends.items
        assigned.new.trail clause }
{
    let first = arena.start(clause);
    if first == arena.ends[clause] as usize {
        return false;
    }
    let literal = arena.literal_at(first);
    if assigned.is_true(literal) {
        return true;
    }
    if assigned.is_false(literal) {
        return false;
    }
    assigned.put(literal, level, clause as u64 + 1);
    true
}
