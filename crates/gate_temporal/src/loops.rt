//! The choice of the loop: whether just one node is true, and the value at its place.

ghost use Rattle.std.specs.Prelude.{◌≡◌, ◌<◌, ◌↔◌, ℕ, Bool, length, IfOk, IfSome, IsTrue, Contains};
ghost use Rattle.gate_trait.specs.Built.{Keeps, AllIn};
ghost use Rattle.gate_trait.specs.declared.node.Node.{Node as CircuitNode};
ghost use Rattle.gate_temporal.specs.Rows.{row_value, IsOnly};

use gate_trait::{Gates, Node, NodeList};
use std::alloc::{AllocError, Global};

/// Whether just one of the nodes is true.
pub fn only_one<G: Gates>(gates: &mut G, choices: &NodeList) -> Result<Node, AllocError>
    requires belongs { AllIn (G.belongs gates.old) choices.now }
    ensures keeps { Keeps G.belongs G.node_value gates.old gates.new }
    ensures belongs { IfOk result (λ n. G.belongs gates.new n) }
    ensures truth { IfOk result (λ n. (x : ℕ → Bool) → IsTrue (G.node_value gates.new x n)
        ↔ ((k : ℕ) × IsOnly (G.node_value gates.old x) choices.now k)) }
{
    let mut one = gates.constant(false);
    let mut none = gates.constant(true);
    for place in 0..choices.len() {
        one = gates.choose(choices.node(place), none, one)?;
        let other = gates.not(choices.node(place));
        none = gates.and(none, other)?;
    }
    Ok(one)
}

/// Whether two nodes are one.
fn is_same(a: Node, b: Node) -> bool
    ensures { IsTrue result → a ≡ b }
{
    a == b
}

/// The node that all nodes of a row are, if there is one.
fn common(values: &NodeList) -> Option<Node>
    ensures there { IfSome result (λ n. Contains values.now n) }
    ensures all { IfSome result (λ n. (value : CircuitNode → Bool) (k : ℕ) → k < length values.now
        → row_value value values.now k ≡ value n) }
{
    if values.is_empty() {
        return None;
    }
    let first = values.node(0);
    for place in 0..values.len() {
        if !is_same(values.node(place), first) {
            return None;
        }
    }
    Some(first)
}

/// The value at the place of the choice that is true, where just one is.
fn chosen_in_turn<G: Gates>(
    gates: &mut G,
    choices: &NodeList,
    values: &NodeList,
) -> Result<Node, AllocError>
    requires choices_belong { AllIn (G.belongs gates.old) choices.now }
    requires values_belong { AllIn (G.belongs gates.old) values.now }
    requires lengths { length choices.now ≡ length values.now }
    ensures keeps { Keeps G.belongs G.node_value gates.old gates.new }
    ensures belongs { IfOk result (λ n. G.belongs gates.new n) }
    ensures truth { IfOk result (λ n. (x : ℕ → Bool) (k : ℕ) →
        IsOnly (G.node_value gates.old x) choices.now k
        → G.node_value gates.new x n ≡ row_value (G.node_value gates.old x) values.now k) }
{
    let mut answer = gates.constant(false);
    for place in 0..choices.len() {
        answer = gates.choose(choices.node(place), values.node(place), answer)?;
    }
    Ok(answer)
}

/// The value at the place of the choice that is true, where just one is. Where the values are one node,
/// that is the answer.
pub fn chosen<G: Gates>(
    gates: &mut G,
    choices: &NodeList,
    values: &NodeList,
) -> Result<Node, AllocError>
    requires choices_belong { AllIn (G.belongs gates.old) choices.now }
    requires values_belong { AllIn (G.belongs gates.old) values.now }
    requires lengths { length choices.now ≡ length values.now }
    ensures keeps { Keeps G.belongs G.node_value gates.old gates.new }
    ensures belongs { IfOk result (λ n. G.belongs gates.new n) }
    ensures truth { IfOk result (λ n. (x : ℕ → Bool) (k : ℕ) →
        IsOnly (G.node_value gates.old x) choices.now k
        → G.node_value gates.new x n ≡ row_value (G.node_value gates.old x) values.now k) }
{
    if let Some(node) = common(values) {
        return Ok(node);
    }
    let node = chosen_in_turn(gates, choices, values)?;
    Ok(node)
}
