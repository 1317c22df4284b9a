//! The operators that look at each place alone: negation and conjunction.

ghost use Rattle.std.specs.Prelude.{◌≡◌, ◌<◌, ℕ, Bool, length, IfOk, not, ◌&&◌};
ghost use Rattle.gate_trait.specs.Built.{Keeps, AllIn};
ghost use Rattle.gate_temporal.specs.Rows.{row_value};

use gate_trait::{Gates, NodeList};
use std::alloc::{AllocError, Global};

/// At each place, the negation.
pub fn negated<G: Gates>(alloc: Global, gates: &G, f: &NodeList) -> Result<NodeList, AllocError>
    requires belongs { AllIn (G.belongs gates.now) f.now }
    ensures belongs { IfOk result (λ row. AllIn (G.belongs gates.now) row) }
    ensures length { IfOk result (λ row. length row ≡ length f.now) }
    ensures truth { IfOk result (λ row. (x : ℕ → Bool) (i : ℕ) → i < length f.now
        → row_value (G.node_value gates.now x) row i
        ≡ not (row_value (G.node_value gates.now x) f.now i)) }
{
    let mut row = NodeList::new(alloc);
    for place in 0..f.len() {
        row.push(gates.not(f.node(place)))?;
    }
    Ok(row)
}

/// At each place, whether both are true.
pub fn both<G: Gates>(
    alloc: Global,
    gates: &mut G,
    f: &NodeList,
    g: &NodeList,
) -> Result<NodeList, AllocError>
    requires f_belongs { AllIn (G.belongs gates.old) f.now }
    requires g_belongs { AllIn (G.belongs gates.old) g.now }
    requires lengths { length f.now ≡ length g.now }
    ensures keeps { Keeps G.belongs G.node_value gates.old gates.new }
    ensures belongs { IfOk result (λ row. AllIn (G.belongs gates.new) row) }
    ensures length { IfOk result (λ row. length row ≡ length f.now) }
    ensures truth { IfOk result (λ row. (x : ℕ → Bool) (i : ℕ) → i < length f.now
        → row_value (G.node_value gates.new x) row i
        ≡ (row_value (G.node_value gates.old x) f.now i
        && row_value (G.node_value gates.old x) g.now i)) }
{
    let mut row = NodeList::new(alloc);
    for place in 0..f.len() {
        row.push(gates.and(f.node(place), g.node(place))?)?;
    }
    Ok(row)
}
