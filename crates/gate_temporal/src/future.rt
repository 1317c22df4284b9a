//! The operator `until`, which looks ahead: a pass from the last place to the first, and another back to the loop.

ghost use Rattle.std.specs.Prelude.{◌≡◌, ◌<◌, ◌≤◌, ◌-◌, ℕ, Bool, length, IfOk, All, Contains};
ghost use Rattle.gate_trait.specs.Built.{Keeps, AllIn};
ghost use Rattle.gate_trait.specs.declared.node.Node.{Node as CircuitNode};
ghost use Rattle.gate_temporal.specs.Rows.{row_value};
ghost use Rattle.gate_temporal.specs.Times.{until_to};
ghost use Rattle.gate_temporal.specs.Rounds.{TellsUntil};

use crate::step::step;
use gate_trait::{Gates, Node, NodeList};
use std::alloc::{AllocError, Global};

/// The nodes in the opposite order.
fn reversed(alloc: Global, nodes: &NodeList) -> Result<NodeList, AllocError>
    ensures length { IfOk result (λ row. length row ≡ length nodes.now) }
    ensures values { IfOk result (λ row. (value : CircuitNode → Bool) (i : ℕ) → i < length nodes.now
        → row_value value row i ≡ row_value value nodes.now (length nodes.now - i - 1)) }
    ensures same_nodes { IfOk result (λ row. All (λ n. Contains nodes.now n) row) }
{
    let mut row = NodeList::new(alloc);
    let mut rest = nodes.len();
    while rest > 0 {
        rest -= 1;
        row.push(nodes.node(rest))?;
    }
    Ok(row)
}

/// The values of `until` at the places from one on, the last first, where past the end it has the
/// value of `last`.
fn backward<G: Gates>(
    alloc: Global,
    gates: &mut G,
    f: &NodeList,
    g: &NodeList,
    from: usize,
    last: Node,
) -> Result<NodeList, AllocError>
    requires f_belongs { AllIn (G.belongs gates.old) f.now }
    requires g_belongs { AllIn (G.belongs gates.old) g.now }
    requires last_belongs { G.belongs gates.old last }
    requires lengths { length f.now ≡ length g.now }
    requires inside { from ≤ length f.now }
    ensures keeps { Keeps G.belongs G.node_value gates.old gates.new }
    ensures belongs { IfOk result (λ row. AllIn (G.belongs gates.new) row) }
    ensures length { IfOk result (λ row. length row ≡ length f.now - from) }
    ensures values { IfOk result (λ row. (x : ℕ → Bool) (i : ℕ) → from ≤ i → i < length f.now
        → row_value (G.node_value gates.new x) row (length f.now - i - 1)
        ≡ until_to (row_value (G.node_value gates.old x) f.now)
        (row_value (G.node_value gates.old x) g.now) (G.node_value gates.old x last) (length f.now
        - i) i) }
{
    let mut row = NodeList::new(alloc);
    let mut next = last;
    let mut place = f.len();
    while place > from {
        place -= 1;
        next = step(gates, f.node(place), g.node(place), next)?;
        row.push(next)?;
    }
    Ok(row)
}

/// At each place, whether `g` is true at some position from there on, and `f` at all before that one: the
/// first pass, as if nothing were true past the end. What is found by going round from there to the place
/// `first` stands already between `first` and the end. So it is right at the places up to each such `first`.
pub fn until_once<G: Gates>(
    alloc: Global,
    gates: &mut G,
    f: &NodeList,
    g: &NodeList,
) -> Result<NodeList, AllocError>
    requires f_belongs { AllIn (G.belongs gates.old) f.now }
    requires g_belongs { AllIn (G.belongs gates.old) g.now }
    requires lengths { length f.now ≡ length g.now }
    ensures keeps { Keeps G.belongs G.node_value gates.old gates.new }
    ensures belongs { IfOk result (λ row. AllIn (G.belongs gates.new) row) }
    ensures length { IfOk result (λ row. length row ≡ length f.now) }
    ensures truth { IfOk result (λ row. (x : ℕ → Bool) (first i : ℕ) → first < length f.now
        → i ≤ first → TellsUntil (G.node_value gates.old x) f.now g.now first i
        (row_value (G.node_value gates.new x) row i)) }
{
    let never = gates.constant(false);
    let once = backward(alloc, gates, f, g, 0, never)?;
    reversed(alloc, &once)
}

/// The second pass, where past the end stands the value `round` of the place `first`, to which one goes back.
/// So it is right at each place. At place 0 stands what the first pass has there, `once`.
pub fn until_again<G: Gates>(
    alloc: Global,
    gates: &mut G,
    f: &NodeList,
    g: &NodeList,
    once: &NodeList,
    round: Node,
) -> Result<NodeList, AllocError>
    requires f_belongs { AllIn (G.belongs gates.old) f.now }
    requires g_belongs { AllIn (G.belongs gates.old) g.now }
    requires once_belongs { AllIn (G.belongs gates.old) once.now }
    requires round_belongs { G.belongs gates.old round }
    requires lengths { length f.now ≡ length g.now }
    requires once_long { length once.now ≡ length f.now }
    requires some { 0 < length f.now }
    ensures keeps { Keeps G.belongs G.node_value gates.old gates.new }
    ensures belongs { IfOk result (λ row. AllIn (G.belongs gates.new) row) }
    ensures length { IfOk result (λ row. length row ≡ length f.now) }
    ensures truth { IfOk result (λ row. (x : ℕ → Bool) (first i : ℕ) → first < length f.now
        → i < length f.now → TellsUntil (G.node_value gates.old x) f.now g.now first first
        (G.node_value gates.old x round)
        → TellsUntil (G.node_value gates.old x) f.now g.now first 0
        (row_value (G.node_value gates.old x) once.now 0)
        → TellsUntil (G.node_value gates.old x) f.now g.now first i
        (row_value (G.node_value gates.new x) row i)) }
{
    let mut turned = backward(alloc, gates, f, g, 1, round)?;
    turned.push(once.node(0))?;
    reversed(alloc, &turned)
}
