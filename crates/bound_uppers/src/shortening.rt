//! The lasso with fewest states and the same sequence.

ghost use Rattle.std.specs.Prelude.{◌≡◌, ◌≢◌, ◌<◌, ◌≤◌, ◌+◌, ◌-◌, ◌%◌, ◌↔◌, ℕ, length, take, slice_index, IfOk, IsTrue};
ghost use Rattle.bound_uppers.specs.Shortest.{IsSameSequence, HasFewestStates, HasEarliestLoop};
ghost use Rattle.bound_uppers.specs.Repeats.{AreFirsts, IsFirst, Repeats};

use core_meaning::{Lasso, State, make_lasso};
use core_tuples::{Tuple, TupleSet};
use std::alloc::{AllocError, Global};

/// Whether two tuples are the same.
fn are_same_tuples(a: &Tuple, b: &Tuple) -> bool
    ensures { IsTrue result ↔ a.now ≡ b.now }
{
    a.numbers() == b.numbers()
}

/// Whether two sets have the same columns and the same tuples.
fn are_same_sets(a: &TupleSet, b: &TupleSet) -> bool
    ensures { IsTrue result ↔ a.now ≡ b.now }
{
    if a.arity() != b.arity() || a.len() != b.len() {
        return false;
    }
    for place in 0..a.len() {
        if !are_same_tuples(a.tuple(place), b.tuple(place)) {
            return false;
        }
    }
    true
}

/// Whether two states have the same tuples in each relation.
fn are_same(a: &State, b: &State) -> bool
    ensures { IsTrue result ↔ a.now ≡ b.now }
{
    if a.len() != b.len() {
        return false;
    }
    for relation in 0..a.len() {
        if !are_same_sets(a.get(relation), b.get(relation)) {
            return false;
        }
    }
    true
}

/// For each state the first one that is the same.
fn numbers(alloc: Global, lasso: &Lasso) -> Result<Vec<u32>, AllocError>
    ensures { IfOk result (λ v. AreFirsts lasso.now.states v.items) }
{
    let mut all = Vec::new(alloc);
    for state in 0..lasso.states() {
        all.push(first_same(lasso, state))?;
    }
    Ok(all)
}

/// The first state that is the same as this one.
fn first_same(lasso: &Lasso, state: u32) -> u32
    requires { state < length lasso.now.states }
    ensures { IsFirst lasso.now.states state result }
{
    for other in 0..state {
        if are_same(lasso.at(other as u64), lasso.at(state as u64)) {
            return other;
        }
    }
    state
}

/// Whether the states from `from` on are the same `period` places later, as far as there are states.
fn repeats(numbers: &[u32], from: usize, period: usize) -> bool
    ensures { IsTrue result ↔ Repeats numbers.now from period }
{
    for place in from..numbers.len() {
        if period < numbers.len() - place && numbers[place] != numbers[place + period] {
            return false;
        }
    }
    true
}

/// The least number of states after which the loop repeats itself and that divides its length.
fn least_period(numbers: &[u32], start: usize) -> usize
    requires { start < length numbers.now }
    ensures some { 0 < result }
    ensures fits { start + result ≤ length numbers.now }
    ensures divides { (length numbers.now - start) % result ≡ 0 }
    ensures repeats { Repeats numbers.now start result }
    ensures least { (q : ℕ) → 0 < q → q < result → (length numbers.now - start) % q ≡ 0 →
        Repeats numbers.now start q → ⊥ }
{
    let round = numbers.len() - start;
    for period in 1..round {
        if round % period == 0 && repeats(numbers, start, period) {
            return period;
        }
    }
    round
}

/// The least place from which on the states repeat themselves after `period` of them.
fn least_start(numbers: &[u32], start: usize, period: usize) -> usize
    requires some { 0 < period }
    requires fits { start + period ≤ length numbers.now }
    ensures most { result ≤ start }
    ensures repeats { (i : ℕ) → result ≤ i → i < start →
        slice_index numbers.now i ≡ slice_index numbers.now (i + period) }
    ensures least { 0 < result → slice_index numbers.now (result - 1)
        ≢ slice_index numbers.now (result - 1 + period) }
{
    let mut place = start;
    while place > 0 {
        if numbers[place - 1] != numbers[place - 1 + period] {
            break;
        }
        place -= 1;
    }
    place
}

/// The first states, so many.
fn first_states(alloc: Global, lasso: &Lasso, count: usize) -> Result<Vec<State>, AllocError>
    requires { count ≤ length lasso.now.states }
    ensures { IfOk result (λ v. v.items ≡ take count lasso.now.states) }
{
    let mut all = Vec::new(alloc);
    for place in 0..count {
        all.push(lasso.at(place as u64).copy(alloc)?)?;
    }
    Ok(all)
}

/// The lasso with fewest states that shows the same sequence: its loop is as short as it can be,
/// and begins as early as it can.
pub fn shortest(alloc: Global, lasso: &Lasso) -> Result<Lasso, AllocError>
    ensures count { IfOk result (λ l. length l.states ≤ length lasso.now.states) }
    ensures same { IfOk result (IsSameSequence lasso.now) }
    ensures fewest { IfOk result HasFewestStates }
    ensures earliest { IfOk result HasEarliestLoop }
{
    let all = numbers(alloc, lasso)?;
    // for the proof: this call's clause says that the loop begins at one of the states
    let _count = lasso.states();
    let start = lasso.loop_start() as usize;
    let period = least_period(&all, start);
    let begin = least_start(&all, start, period);
    cut(alloc, lasso, begin, period)
}

/// The lasso of the first states whose loop begins at `begin` and has `period` states.
fn cut(alloc: Global, lasso: &Lasso, begin: usize, period: usize) -> Result<Lasso, AllocError>
    requires some { 0 < period }
    requires fits { begin + period ≤ length lasso.now.states }
    ensures { IfOk result (λ l. l ≡ record {
      states = take (begin + period) lasso.now.states;
      loop_start = begin;
    }) }
{
    // for the proof: this call's clause says that the loop begins at one of the states
    let _count = lasso.states();
    let states = first_states(alloc, lasso, begin + period)?;
    match make_lasso(states, begin as u32) {
        Some(new) => Ok(new),
        None => Err(AllocError),
    }
}
