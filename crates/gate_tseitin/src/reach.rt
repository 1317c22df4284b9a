//! Which gates the roots reach, marked from the last gate to the first.

ghost use Rattle.std.specs.Prelude.{◌≡◌, ◌<◌, ◌≤◌, ℕ, Bool, List, All, length, slice_get, Some, true, if◌then◌else◌, IfOk};
ghost use Rattle.gate_trait.specs.declared.gate.Gate.{Gate as CircuitGate};
ghost use Rattle.gate_trait.specs.NodeWords.{number_of};
ghost use Rattle.gate_trait.specs.Circuit.{BelongsTo, IsAbove, IsLayered};
ghost use Rattle.gate_tseitin.specs.Named.{marked};
ghost use Rattle.gate_tseitin.specs.Reached.{HasMark, IsClosed, Grows, AreReached, with_mark, with_parts};

use gate_store::CircuitStore;
use gate_trait::{Gate, Node};
use std::alloc::{AllocError, Global};

/// Whether the gate of this number is marked.
pub fn is_marked(marks: &[bool], number: u64) -> bool
    requires { number < length marks.now }
    ensures { result ≡ marked marks.now number }
{
    marks[number as usize]
}

/// Marks a node's gate.
fn mark(marks: &mut [bool], node: Node)
    requires { number_of node < length marks.old }
    ensures { marks.new ≡ with_mark marks.old node }
{
    marks[node.number() as usize] = true;
}

/// Marks the gates of two nodes.
fn mark_two(marks: &mut [bool], a: Node, b: Node)
    requires a_there { number_of a < length marks.old }
    requires b_there { number_of b < length marks.old }
    ensures { marks.new ≡ with_mark (with_mark marks.old a) b }
{
    mark(marks, a);
    mark(marks, b);
}

/// Marks the nodes of a gate.
fn mark_parts(marks: &mut [bool], gate: Gate)
    requires { IsAbove (length marks.old) gate }
    ensures { marks.new ≡ with_parts marks.old gate }
{
    match gate {
        Gate::Constant(_) => {}
        Gate::Input(_) => {}
        Gate::And(a, b) => mark_two(marks, a, b),
        Gate::Or(a, b) => mark_two(marks, a, b),
        Gate::Xor(a, b) => mark_two(marks, a, b),
        Gate::Choose(c, a, b) => {
            mark(marks, c);
            mark_two(marks, a, b);
        }
    }
}

/// Marks the nodes of the gate of this number, if that is marked.
fn mark_below(marks: &mut [bool], number: u64, gate: Gate)
    requires there { number < length marks.old }
    requires above { IsAbove (length marks.old) gate }
    ensures { marks.new ≡ (if marked marks.old number then with_parts marks.old gate else
        marks.old) }
{
    if is_marked(marks, number) {
        mark_parts(marks, gate);
    }
}

/// Marks the nodes of a list.
fn mark_all(marks: &mut [bool], nodes: &[Node])
    requires { All (λ n. number_of n < length marks.old) nodes.now }
    ensures grows { Grows marks.old marks.new }
    ensures marked { All (λ n. HasMark marks.new n) nodes.now }
    ensures fewest { (other : List Bool) → All (HasMark other) nodes.now → Grows marks.old other →
        Grows marks.new other }
{
    for node in nodes {
        mark(marks, *node);
    }
}

/// Marks all that marked gates reach: from the last gate down, since nodes name lower gates.
fn spread(marks: &mut [bool], store: &CircuitStore)
    requires { length marks.old ≡ length store.now }
    ensures grows { Grows marks.old marks.new }
    ensures closed { IsClosed marks.new store.now }
    ensures fewest { (other : List Bool) → IsClosed other store.now → Grows marks.old other →
        Grows marks.new other }
{
    let gates = store.gates();
    for step in 0..gates {
        let number = gates - 1 - step;
        mark_below(marks, number, store.gate(number));
    }
}

/// Marks all gates that the node or one of the roots reaches.
fn mark_reached(marks: &mut [bool], store: &CircuitStore, sure: Node, roots: &[Node])
    requires each { length marks.old ≡ length store.now }
    requires sure_there { BelongsTo store.now sure }
    requires roots_there { All (λ n. BelongsTo store.now n) roots.now }
    ensures reached { AreReached store.now sure roots.now marks.new }
    ensures fewest { (other : List Bool) → AreReached store.now sure roots.now other →
        Grows marks.old other → Grows marks.new other }
    ensures layered { IsLayered store.now }
{
    // for the proof: this call's clauses say what a store keeps
    let _gates = store.gates();
    mark(marks, sure);
    mark_all(marks, roots);
    spread(marks, store);
}

/// For each gate whether the node or one of the roots reaches it.
pub fn reached(
    alloc: Global,
    store: &CircuitStore,
    sure: Node,
    roots: &[Node],
) -> Result<Vec<bool>, AllocError>
    requires sure_there { BelongsTo store.now sure }
    requires roots_there { All (λ n. BelongsTo store.now n) roots.now }
    ensures reached { IfOk result (λ marks. AreReached store.now sure roots.now marks.items) }
    ensures fewest { IfOk result (λ marks. (other : List Bool) →
        AreReached store.now sure roots.now other → Grows marks.items other) }
    ensures layered { IfOk result (λ _. IsLayered store.now) }
{
    let mut marks = vec![in alloc; false; store.gates() as usize]?;
    mark_reached(&mut marks, store, sure, roots);
    Ok(marks)
}
