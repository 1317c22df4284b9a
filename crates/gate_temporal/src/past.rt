//! The operator `since`, which looks back: one pass from the first place to the last.

ghost use Rattle.std.specs.Prelude.{◌≡◌, ◌<◌, ◌↔◌, ℕ, Bool, length, IfOk, IsTrue};
ghost use Rattle.gate_trait.specs.Built.{Keeps, AllIn};
ghost use Rattle.gate_temporal.specs.Rows.{row_value};
ghost use Rattle.gate_temporal.specs.Times.{SinceAt};

use crate::step::step;
use gate_trait::{Gates, NodeList};
use std::alloc::{AllocError, Global};

/// At each place, whether `g` is true at some place up to it, and `f` at all places after that one.
pub fn since<G: Gates>(
    alloc: Global,
    gates: &mut G,
    f: &NodeList,
    g: &NodeList,
) -> Result<NodeList, AllocError>
    requires f_belongs { AllIn (G.belongs gates.old) f.now }
    requires g_belongs { AllIn (G.belongs gates.old) g.now }
    requires lengths { length f.now ≡ length g.now }
    ensures keeps { Keeps G.belongs G.node_value gates.old gates.new }
    ensures belongs { IfOk result (λ row. AllIn (G.belongs gates.new) row) }
    ensures length { IfOk result (λ row. length row ≡ length f.now) }
    ensures truth { IfOk result (λ row. (x : ℕ → Bool) (i : ℕ) → i < length f.now
        → IsTrue (row_value (G.node_value gates.new x) row i)
        ↔ SinceAt (λ j. IsTrue (row_value (G.node_value gates.old x) f.now j)) (λ j.
        IsTrue (row_value (G.node_value gates.old x) g.now j)) i) }
{
    let mut row = NodeList::new(alloc);
    let mut last = gates.constant(false);
    for place in 0..f.len() {
        last = step(gates, f.node(place), g.node(place), last)?;
        row.push(last)?;
    }
    Ok(row)
}
