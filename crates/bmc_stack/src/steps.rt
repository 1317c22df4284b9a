//! Steps on the stack of rows: constants, `not`, `and`, a node more, and the nodes of other places.

ghost use Rattle.std.specs.Prelude.{◌≡◌, ◌∷◌, [], ◌++◌, ◌-◌, Bool, List, OnOk};
ghost use Rattle.gate_trait.specs.declared.node.Node.{Node as CircuitNode};
ghost use Rattle.gate_trait.specs.Built.{Keeps};
ghost use Rattle.bmc_stack.specs.Stored.{AreStored};
ghost use Rattle.bmc_stack.specs.Rows.{AreBeside, HasTop, IsPushed, IsConstant, IsNegated, AreBoth, IsSpread};

use crate::basics::{pop_row, push_row};
use crate::store::Store;
use crate::windows::{both, constantly, spread};
use gate_trait::{Gates, Node};
use std::alloc::{AllocError, Global};

/// Puts the constant at each place on the stack.
pub fn push_constant<G: Gates>(
    alloc: Global,
    gates: &G,
    store: &mut Store,
    count: usize,
    value: bool,
) -> Result<(), AllocError>
    requires { AreStored (G.belongs gates.now) store.old }
    ensures stored { OnOk result (AreStored (G.belongs gates.now) store.new) }
    ensures pushed { OnOk result ((row : List CircuitNode) × IsPushed store.old store.new row
        × IsConstant (G.node_value gates.now) count value row) }
{
    let row = constantly(alloc, gates, count, value)?;
    push_row(gates, store, row)?;
    Ok(())
}

/// Negates the row on top.
pub fn negate_top<G: Gates>(alloc: Global, gates: &G, store: &mut Store) -> Result<(), AllocError>
    requires { AreStored (G.belongs gates.now) store.old }
    ensures stored { OnOk result (AreStored (G.belongs gates.now) store.new) }
    ensures beside { OnOk result (AreBeside store.old store.new) }
    ensures rows { OnOk result ((rest : List (List CircuitNode)) (f : List CircuitNode) →
        store.old.rows.items ≡ rest ++ f ∷ []
        → HasTop rest store.new.rows.items (IsNegated (G.node_value gates.now) f)) }
{
    let row = pop_row(alloc, gates, store);
    let new = gate_temporal::negated(alloc, gates, &row)?;
    push_row(gates, store, new)?;
    Ok(())
}

/// Leaves where both rows on top hold.
pub fn both_top<G: Gates>(alloc: Global, gates: &mut G, store: &mut Store) -> Result<(), AllocError>
    requires { AreStored (G.belongs gates.old) store.old }
    ensures keeps { Keeps G.belongs G.node_value gates.old gates.new }
    ensures stored { OnOk result (AreStored (G.belongs gates.new) store.new) }
    ensures beside { OnOk result (AreBeside store.old store.new) }
    ensures rows { OnOk result ((rest : List (List CircuitNode)) (f g : List CircuitNode) →
        store.old.rows.items ≡ rest ++ f ∷ g ∷ []
        → HasTop rest store.new.rows.items (AreBoth (G.node_value gates.old)
        (G.node_value gates.new) f g)) }
{
    let second = pop_row(alloc, gates, store);
    let first = pop_row(alloc, gates, store);
    let new = both(alloc, gates, &first, &second)?;
    push_row(gates, store, new)?;
    Ok(())
}

/// Adds a node to the row on top.
pub fn extend_top<G: Gates>(
    alloc: Global,
    gates: &G,
    store: &mut Store,
    node: Node,
) -> Result<(), AllocError>
    requires store { AreStored (G.belongs gates.now) store.old }
    requires node { G.belongs gates.now node }
    ensures stored { OnOk result (AreStored (G.belongs gates.now) store.new) }
    ensures beside { OnOk result (AreBeside store.old store.new) }
    ensures rows { OnOk result ((rest : List (List CircuitNode)) (f : List CircuitNode) →
        store.old.rows.items ≡ rest ++ f ∷ []
        → store.new.rows.items ≡ rest ++ (f ++ node ∷ []) ∷ []) }
{
    let mut row = pop_row(alloc, gates, store);
    row.push(node)?;
    push_row(gates, store, row)?;
    Ok(())
}

/// Leaves the nodes of the row on top at these places.
pub fn spread_top<G: Gates>(
    alloc: Global,
    gates: &G,
    store: &mut Store,
    places: &[usize],
) -> Result<(), AllocError>
    requires { AreStored (G.belongs gates.now) store.old }
    ensures stored { OnOk result (AreStored (G.belongs gates.now) store.new) }
    ensures beside { OnOk result (AreBeside store.old store.new) }
    ensures rows { OnOk result ((rest : List (List CircuitNode)) (f : List CircuitNode) →
        store.old.rows.items ≡ rest ++ f ∷ []
        → HasTop rest store.new.rows.items (IsSpread (G.node_value gates.now) f places.now)) }
{
    let row = pop_row(alloc, gates, store);
    let new = spread(alloc, gates, &row, places)?;
    push_row(gates, store, new)?;
    Ok(())
}
