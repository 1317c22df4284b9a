//! The lasso for which an assignment of the table's variables stands.

ghost use Rattle.std.specs.Prelude.{◌≡◌, ◌<◌, ◌^◌, ◌+◌, ◌++◌, ℕ, true, [], List, length, slice_get, Some, IfOk, OnOk, map};
ghost use Rattle.std.specs.List.{range_with_len};
ghost use Rattle.std.specs.List.Sorted.{IsStrictlySortedBy};
ghost use Rattle.core_tuples.specs.Sets.{tuple_cmp, IsTupleSet};
ghost use Rattle.bound_uppers.specs.declared.table.Bound.{Bound};
ghost use Rattle.bound_uppers.specs.declared.places.Cells.{Cells};
ghost use Rattle.bound_uppers.specs.Table.{IsLayout, truth, keep, chosen, least, cell_at, decoded_state, decoded};
ghost use Rattle.bound_uppers.specs.Numbers.{HasFirsts};
ghost use Rattle.bound_uppers.specs.Candidates.{IsCandidate, HasOneLoop, Agrees};

use crate::places::Layout;
use crate::table::{Bound, Bounds};
use base_types::Assignment;
use core_meaning::{Lasso, State, make_lasso};
use core_tuples::TupleSet;
use std::alloc::{AllocError, Global};

/// The value of a variable; one that has no value is false.
#[tactic(auto, using(crate::proofs::Choosing::truth_at, crate::proofs::Choosing::truth_past, crate::proofs::Choosing::truth_none))]
fn value_of(assignment: &Assignment, variable: u64) -> bool
    ensures { result ≡ truth assignment.now variable }
{
    if variable == 0 || variable > assignment.variables() {
        return false;
    }
    assignment.value(variable)
}

/// The value of the variable so many places behind another.
#[tactic(auto, using(crate::proofs::Choosing::truth_past))]
fn is_true(assignment: &Assignment, first: u64, place: u64) -> bool
    ensures { result ≡ truth assignment.now (first + place) }
{
    // for the proof: this call's result bounds the number of variables
    let _count = assignment.variables();
    match first.checked_add(place) {
        None => false,
        Some(variable) => value_of(assignment, variable),
    }
}

/// Adds a tuple of the upper bound to a set of tuples before it, if it is to stay.
#[tactic(auto, using(crate::proofs::Choosing::nothing_more))]
fn add_tuple(
    alloc: Global,
    set: &mut TupleSet,
    upper: &TupleSet,
    place: usize,
    stays: bool,
) -> Result<(), AllocError>
    requires columns { set.old.arity ≡ upper.now.arity }
    requires place { place < length upper.now.tuples }
    ensures columns { set.new.arity ≡ set.old.arity }
    ensures tuples { (t : List ℕ) → slice_get upper.now.tuples place ≡ Some t →
        IsStrictlySortedBy tuple_cmp (set.old.tuples ++ keep stays t []) →
        OnOk result (set.new.tuples ≡ set.old.tuples ++ keep stays t []) }
{
    if !stays {
        return Ok(());
    }
    put(alloc, set, upper, place)
}

/// Adds a tuple of the upper bound to a set of tuples before it.
fn put(alloc: Global, set: &mut TupleSet, upper: &TupleSet, place: usize) -> Result<(), AllocError>
    requires columns { set.old.arity ≡ upper.now.arity }
    requires place { place < length upper.now.tuples }
    ensures columns { set.new.arity ≡ set.old.arity }
    ensures tuples { (t : List ℕ) → slice_get upper.now.tuples place ≡ Some t →
        IsStrictlySortedBy tuple_cmp (set.old.tuples ++ keep true t []) →
        OnOk result (set.new.tuples ≡ set.old.tuples ++ keep true t []) }
{
    // for the proof: this call's clause says that the bound is a set of tuples
    let _count = upper.len();
    let row = upper.tuple(place);
    let copy = row.copy(alloc)?;
    set.insert(copy)?;
    // for the proof: this call's clause says that it is a set of tuples still
    let _columns = set.arity();
    Ok(())
}

/// The tuples of the upper bound whose variables are true, where the first has this variable.
fn true_tuples(
    alloc: Global,
    upper: &TupleSet,
    first: u64,
    assignment: &Assignment,
) -> Result<TupleSet, AllocError>
    ensures { IfOk result (λ s. s ≡ record {
      arity = upper.now.arity;
      tuples = chosen
          (λ place. truth assignment.now (first + place)) 0 upper.now.tuples;
    }) }
{
    let mut set = empty_like(alloc, upper);
    for place in 0..upper.len() {
        let stays = is_true(assignment, first, place as u64);
        add_tuple(alloc, &mut set, upper, place, stays)?;
    }
    Ok(set)
}

/// The empty set with as many columns.
fn empty_like(alloc: Global, upper: &TupleSet) -> TupleSet
    ensures { result ≡ record { arity = upper.now.arity; tuples = [] } }
{
    TupleSet::empty(alloc, upper.arity())
}

/// The first variable of a relation at a state.
fn first_of(table: &Layout, relation: usize, state: u32) -> u64
    ensures { (c : Cells) → slice_get table.now.relations.items relation ≡ Some c →
        cell_at c state < 2 ^ 64 → result ≡ cell_at c state }
{
    match table.relations.get(relation) {
        Some(cells) => cells.at(state),
        None => 0,
    }
}

/// The state of this number.
fn state_of(
    alloc: Global,
    relations: &[Bound],
    table: &Layout,
    state: u32,
    assignment: &Assignment,
) -> Result<State, AllocError>
    ensures exact { HasFirsts relations.now table.now state →
        IfOk result (λ s. s ≡ decoded_state relations.now assignment.now state) }
{
    let mut sets = State::new(alloc);
    for (relation, bound) in relations.iter().enumerate() {
        let first = first_of(table, relation, state);
        sets.push(true_tuples(alloc, &bound.upper, first, assignment)?)?;
    }
    Ok(sets)
}

/// The states in order.
fn states_of(
    alloc: Global,
    bounds: &Bounds,
    table: &Layout,
    assignment: &Assignment,
) -> Result<Vec<State>, AllocError>
    ensures count { IfOk result (λ v. length v.items ≡ bounds.now.states) }
    ensures exact { ((s : ℕ) → s < bounds.now.states → HasFirsts bounds.now.relations table.now s) →
        IfOk result (λ v. v.items ≡ map (decoded_state bounds.now.relations assignment.now)
        (range_with_len 0 bounds.now.states)) }
{
    let mut states = Vec::new(alloc);
    for state in 0..bounds.states {
        states.push(state_of(alloc, bounds.relations.as_slice(), table, state, assignment)?)?;
    }
    Ok(states)
}

/// The first of so many states whose variable is true, where the first has this variable, or the
/// first state.
fn first_true(states: u32, loops: u64, assignment: &Assignment) -> u32
    ensures within { 0 < states → result < states }
    ensures first { result ≡ least (λ s. truth assignment.now (loops + s)) states 0 }
{
    for state in 0..states {
        if is_true(assignment, loops, state as u64) {
            return state;
        }
    }
    0
}

/// The first state whose loop variable is true, or the first state.
#[tactic(auto, using(crate::proofs::Choosing::loop_alone))]
fn loop_of(states: u32, loops: u64, assignment: &Assignment) -> u32
    ensures within { 0 < states → result < states }
    ensures first { result ≡ least (λ s. truth assignment.now (loops + s)) states 0 }
{
    if states > 1 {
        return first_true(states, loops, assignment);
    }
    0
}

/// The upper bounds are sets of tuples.
#[tactic(auto, using(crate::proofs::Sizes::sets_more, crate::proofs::Sizes::sets_all))]
fn upper_sets(relations: &[Bound])
    ensures { (r : ℕ) (b : Bound) → slice_get relations.now r ≡ Some b → IsTupleSet b.upper }
{
    for bound in relations {
        // for the proof: this call's clause says that the bound is a set of tuples
        let _count = bound.upper.len();
    }
}

/// The lasso of as many states as the bounds have whose relations have at each state just the
/// tuples whose variables are true, and whose loop begins where the one true loop variable says. It
/// lies within the upper bounds, and what isn't `var` is the same in all states. The table has the
/// numbers of the variables of these bounds.
pub fn decode(
    alloc: Global,
    bounds: &Bounds,
    table: &Layout,
    assignment: &Assignment,
) -> Result<Lasso, AllocError>
    requires { 0 < bounds.now.states }
    ensures count { IfOk result (λ l. length l.states ≡ bounds.now.states) }
    ensures exact { IsLayout bounds.now table.now →
        IfOk result (λ l. l ≡ decoded bounds.now assignment.now) }
    ensures candidate { IsLayout bounds.now table.now → IfOk result (IsCandidate bounds.now) }
    ensures agrees { IsLayout bounds.now table.now → HasOneLoop bounds.now assignment.now →
        IfOk result (Agrees bounds.now assignment.now) }
{
    upper_sets(bounds.relations.as_slice());
    let states = states_of(alloc, bounds, table, assignment)?;
    let start = loop_of(bounds.states, table.loops, assignment);
    lasso_of(states, start)
}

/// The lasso of these states, of which there are more than the loop index.
fn lasso_of(states: Vec<State>, start: u32) -> Result<Lasso, AllocError>
    requires few { length states.items < 2 ^ 32 }
    requires start { start < length states.items }
    ensures { IfOk result (λ l. l ≡ record { states = states.items; loop_start = start }) }
{
    match make_lasso(states, start) {
        Some(lasso) => Ok(lasso),
        None => Err(AllocError),
    }
}
