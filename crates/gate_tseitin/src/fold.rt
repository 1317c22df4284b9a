//! Which of the reached gates are kept, with a variable: all but the `and`s that are folded into another.

ghost use Rattle.std.specs.Prelude.{◌≡◌, ◌+◌, ◌<◌, ℕ, All, length, min, IfOk, slice_index, false};
ghost use Rattle.gate_trait.specs.NodeWords.{number_of};
ghost use Rattle.gate_trait.specs.Circuit.{BelongsTo, IsAbove};
ghost use Rattle.gate_tseitin.specs.Named.{marked};
ghost use Rattle.gate_tseitin.specs.Folded.{MayFold, AreKept};
ghost use Rattle.gate_tseitin.specs.Shares.{share, inner, share_in, share_where, shares, node_shares, all_shares, Asks, stays};

use crate::reach::is_marked;
use gate_store::CircuitStore;
use gate_trait::{Gate, Node};
use std::alloc::{AllocError, Global};

/// The sum of two numbers, counted no further than 2.
fn sum_to_two(a: u8, b: u8) -> u8
    ensures { min result 2 ≡ min (a + b) 2 }
{
    if a == 0 {
        return b;
    }
    if b == 0 {
        return a;
    }
    2
}

/// Adds what a node asks of its gate.
fn ask(asked: &mut [u8], node: Node, much: u8)
    requires { number_of node < length asked.old }
    ensures { (k : ℕ) → Asks asked.old asked.new k (share k node much) }
{
    let place = node.number() as usize;
    asked[place] = sum_to_two(asked[place], much);
}

/// How much a node asks of its gate as an operand of an `and`.
fn inner(node: Node) -> u8
    ensures { result ≡ inner node }
{
    if node.negated() { 2 } else { 1 }
}

/// Adds what two nodes ask of their gates.
fn ask_two(asked: &mut [u8], a: Node, b: Node, of_a: u8, of_b: u8)
    requires a_there { number_of a < length asked.old }
    requires b_there { number_of b < length asked.old }
    ensures { (k : ℕ) → Asks asked.old asked.new k (share k a of_a + share k b of_b) }
{
    ask(asked, a, of_a);
    ask(asked, b, of_b);
}

/// Adds what three nodes ask of their gates.
fn ask_three(asked: &mut [u8], c: Node, a: Node, b: Node)
    requires c_there { number_of c < length asked.old }
    requires a_there { number_of a < length asked.old }
    requires b_there { number_of b < length asked.old }
    ensures { (k : ℕ) → Asks asked.old asked.new k (share k c 2 + share k a 2 + share k b 2) }
{
    ask(asked, c, 2);
    ask_two(asked, a, b, 2, 2);
}

/// Adds what the nodes of a gate ask of their gates.
fn ask_parts(asked: &mut [u8], gate: Gate)
    requires { IsAbove (length asked.old) gate }
    ensures { (k : ℕ) → Asks asked.old asked.new k (share_in k gate) }
{
    match gate {
        Gate::Constant(_) => {}
        Gate::Input(_) => {}
        Gate::And(a, b) => ask_two(asked, a, b, inner(a), inner(b)),
        Gate::Or(a, b) => ask_two(asked, a, b, 2, 2),
        Gate::Xor(a, b) => ask_two(asked, a, b, 2, 2),
        Gate::Choose(c, a, b) => ask_three(asked, c, a, b),
    }
}

/// Adds what the nodes of a gate ask of their gates, if the gate is marked.
fn ask_where(asked: &mut [u8], gate: Gate, has_mark: bool)
    requires { IsAbove (length asked.old) gate }
    ensures { (k : ℕ) → Asks asked.old asked.new k (share_where has_mark k gate) }
{
    if has_mark {
        ask_parts(asked, gate);
    }
}

/// Adds what the marked gates ask of others.
fn ask_gates(asked: &mut [u8], store: &CircuitStore, marks: &[bool])
    requires each { length asked.old ≡ length store.now }
    requires marks_each { length marks.now ≡ length store.now }
    ensures { (k : ℕ) → Asks asked.old asked.new k (shares marks.now k 0 store.now) }
{
    for number in 0..store.gates() {
        ask_where(asked, store.gate(number), is_marked(marks, number));
    }
}

/// Adds what the nodes of a list ask of their gates, that are no operands.
fn ask_nodes(asked: &mut [u8], nodes: &[Node])
    requires { All (λ n. number_of n < length asked.old) nodes.now }
    ensures { (k : ℕ) → Asks asked.old asked.new k (node_shares k nodes.now) }
{
    for node in nodes {
        ask(asked, *node, 2);
    }
}

/// Adds what `sure`, the roots and the marked gates ask of gates.
fn ask_all(asked: &mut [u8], store: &CircuitStore, sure: Node, roots: &[Node], marks: &[bool])
    requires each { length asked.old ≡ length store.now }
    requires marks_each { length marks.now ≡ length store.now }
    requires sure_there { BelongsTo store.now sure }
    requires roots_there { All (λ n. BelongsTo store.now n) roots.now }
    ensures { (k : ℕ) → Asks asked.old asked.new k
        (all_shares store.now sure roots.now marks.now k) }
{
    ask(asked, sure, 2);
    ask_nodes(asked, roots);
    ask_gates(asked, store, marks);
}

/// What is asked of each gate, counted no further than 2.
fn asked_of(
    alloc: Global,
    store: &CircuitStore,
    sure: Node,
    roots: &[Node],
    marks: &[bool],
) -> Result<Vec<u8>, AllocError>
    requires marks_each { length marks.now ≡ length store.now }
    requires sure_there { BelongsTo store.now sure }
    requires roots_there { All (λ n. BelongsTo store.now n) roots.now }
    ensures each { IfOk result (λ asked. length asked.items ≡ length store.now) }
    ensures asked { IfOk result (λ asked. (k : ℕ) → min (slice_index asked.items k) 2
        ≡ min (all_shares store.now sure roots.now marks.now k) 2) }
{
    let mut asked = vec![in alloc; 0u8; store.gates() as usize]?;
    ask_all(&mut asked, store, sure, roots, marks);
    Ok(asked)
}

/// What is asked of the gate of this number.
fn asked_at(asked: &[u8], number: u64) -> u8
    requires { number < length asked.now }
    ensures { result ≡ slice_index asked.now number }
{
    asked[number as usize]
}

/// Whether a gate of which so much is asked is kept.
fn stays(gate: Gate, asked: u8, has_mark: bool) -> bool
    ensures { result ≡ stays gate asked has_mark }
{
    match gate {
        Gate::And(_, _) => has_mark && asked >= 2,
        _ => has_mark,
    }
}

/// For each gate whether it is kept: it is reached, as the marks say, and no `and` that may be folded into another.
pub fn kept_of(
    alloc: Global,
    store: &CircuitStore,
    sure: Node,
    roots: &[Node],
    marks: &[bool],
) -> Result<Vec<bool>, AllocError>
    requires marks_each { length marks.now ≡ length store.now }
    requires sure_there { BelongsTo store.now sure }
    requires roots_there { All (λ n. BelongsTo store.now n) roots.now }
    ensures kept { IfOk result (λ kept. AreKept store.now sure roots.now marks.now kept.items) }
    ensures fewest { IfOk result (λ kept. (k : ℕ) → MayFold store.now sure roots.now marks.now k →
        marked kept.items k ≡ false) }
{
    let asked = asked_of(alloc, store, sure, roots, marks)?;
    let mut kept = Vec::new(alloc);
    for number in 0..store.gates() {
        let gate = store.gate(number);
        let has_mark = is_marked(marks, number);
        kept.push(stays(gate, asked_at(&asked, number), has_mark))?;
    }
    Ok(kept)
}
