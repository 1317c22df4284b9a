//! The operators `after` and `before`, which go to the next or the last position.

ghost use Rattle.std.specs.Prelude.{◌≡◌, ◌<◌, ◌+◌, ◌-◌, ◌↔◌, ℕ, Bool, length, IfOk, IsTrue, All, Contains};
ghost use Rattle.gate_trait.specs.Built.{Keeps, AllIn};
ghost use Rattle.gate_trait.specs.declared.node.Node.{Node as CircuitNode};
ghost use Rattle.gate_temporal.specs.Rows.{row_value, is_at};
ghost use Rattle.gate_temporal.specs.Times.{BeforeAt};

use gate_trait::{Gates, NodeList};
use std::alloc::{AllocError, Global};

/// At each place, the node of the next position. The positions go round from the end of the row to
/// the place `first`.
pub fn after(alloc: Global, first: usize, f: &NodeList) -> Result<NodeList, AllocError>
    requires { first < length f.now }
    ensures same_nodes { IfOk result (λ row. All (λ n. Contains f.now n) row) }
    ensures length { IfOk result (λ row. length row ≡ length f.now) }
    ensures truth { IfOk result (λ row. (value : CircuitNode → Bool) (i : ℕ) → i < length f.now
        → row_value value row i ≡ is_at value f.now first (i + 1)) }
{
    let mut row = NodeList::new(alloc);
    for place in 1..f.len() {
        row.push(f.node(place))?;
    }
    row.push(f.node(first))?;
    Ok(row)
}

/// At each place, the node of the place before, and the constant false at the first.
pub fn before<G: Gates>(alloc: Global, gates: &mut G, f: &NodeList) -> Result<NodeList, AllocError>
    requires belongs { AllIn (G.belongs gates.old) f.now }
    requires some { 0 < length f.now }
    ensures keeps { Keeps G.belongs G.node_value gates.old gates.new }
    ensures belongs { IfOk result (λ row. AllIn (G.belongs gates.new) row) }
    ensures length { IfOk result (λ row. length row ≡ length f.now) }
    ensures truth { IfOk result (λ row. (x : ℕ → Bool) (i : ℕ) → i < length f.now
        → IsTrue (row_value (G.node_value gates.new x) row i)
        ↔ BeforeAt (λ j. IsTrue (row_value (G.node_value gates.old x) f.now j)) i) }
{
    let mut row = NodeList::new(alloc);
    row.push(gates.constant(false))?;
    for place in 1..f.len() {
        row.push(f.node(place - 1))?;
    }
    Ok(row)
}
