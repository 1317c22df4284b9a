//! The variables that stand for the gates: the inputs' own numbers, then those after them.

ghost use Rattle.std.specs.Prelude.{◌≡◌, ◌+◌, ◌<◌, ◌≤◌, ◌↔◌, length, All, IfOk, IfSome, IsTrue};
ghost use Rattle.gate_trait.specs.Circuit.{BelongsTo};
ghost use Rattle.gate_tseitin.specs.Named.{IsName, input_of, input_count, owns, name_at, names_from, variable_count};
ghost use Rattle.gate_tseitin.specs.Reached.{HasMark};
ghost use Rattle.gate_tseitin.specs.Written.{AreNumbered};

use crate::reach::is_marked;
use gate_store::CircuitStore;
use gate_trait::{Gate, Node};
use std::alloc::{AllocError, Global};

/// An input's variable.
fn input_of(gate: Gate) -> Option<u64>
    ensures { result ≡ input_of gate }
{
    match gate {
        Gate::Input(variable) => Some(variable),
        _ => None,
    }
}

/// How many of the gates are inputs.
pub fn count_inputs(store: &CircuitStore) -> u64
    ensures count { result ≡ input_count store.now }
    ensures within { result ≤ length store.now }
{
    let mut count = 0;
    for number in 0..store.gates() {
        if input_of(store.gate(number)).is_some() {
            count += 1;
        }
    }
    count
}

/// Whether the inputs are the variables from 1 to their number, as the clauses need it.
pub fn are_numbered(store: &CircuitStore) -> bool
    ensures { IsTrue result ↔ AreNumbered store.now }
{
    let count = count_inputs(store);
    for variable in 0..count {
        match store.input_number(variable + 1) {
            Some(_) => {}
            None => return false,
        }
    }
    for number in 0..store.gates() {
        if !is_within(store.gate(number), count) {
            return false;
        }
    }
    true
}

/// Whether a gate is no input, or one of a variable from 1 to this number.
fn is_within(gate: Gate, most: u64) -> bool
    ensures { IsTrue result ↔ IfSome (input_of gate) (λ w. (0 < w) × (w ≤ most)) }
{
    match gate {
        Gate::Input(variable) => 0 < variable && variable <= most,
        _ => true,
    }
}

/// The variables of the gates, each from 1 to their count.
#[derive(Drop, Debug)]
pub struct Names {
    /// One for each gate.
    pub list: Vec<u64>,
    /// How many variables there are.
    pub count: u64,
    ghost names: { All IsName list.items },
    ghost within: { All (λ n. n ≤ count) list.items },
}

/// A gate's variable, where `next` is the first that no gate has.
fn name_at(next: u64, gate: Gate, is_marked: bool) -> u64
    ensures { result ≡ name_at next (input_of gate) is_marked }
{
    match input_of(gate) {
        Some(variable) => variable,
        None => if is_marked { next } else { 1 },
    }
}

/// How many variables the gate takes that no input has.
fn owns(gate: Gate, is_marked: bool) -> u64
    ensures count { result ≡ owns (input_of gate) is_marked }
    ensures most { result ≤ 1 }
{
    if is_marked && input_of(gate).is_none() {
        1
    } else {
        0
    }
}

/// The variable of each gate: an input's is its own, and the others that are marked have the
/// numbers after the inputs.
pub fn names_of(
    alloc: Global,
    store: &CircuitStore,
    sure: Node,
    marks: &[bool],
) -> Result<Names, AllocError>
    requires inputs { AreNumbered store.now }
    requires each { length marks.now ≡ length store.now }
    requires sure_there { BelongsTo store.now sure }
    requires sure_marked { HasMark marks.now sure }
    ensures names { IfOk result (λ names. names.list.items
        ≡ names_from marks.now (input_count store.now + 1) 0 store.now) }
    ensures count { IfOk result (λ names. names.count ≡ variable_count marks.now store.now) }
{
    let mut list = Vec::new(alloc);
    let gates = store.gates();
    let mut next = count_inputs(store) + 1;
    for number in 0..gates {
        let gate = store.gate(number);
        let has_mark = is_marked(marks, number);
        list.push(name_at(next, gate, has_mark))?;
        next += owns(gate, has_mark);
    }
    Ok(Names {
        list,
        count: next - 1,
    })
}
