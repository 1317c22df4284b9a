//! Where sets that stand at all places pass a test.

ghost use Rattle.std.specs.Prelude.{IfOk, OnOk};
ghost use Rattle.gate_trait.specs.Built.{Keeps, AllIn};
ghost use Rattle.core_tree.specs.Trees.{Term, test as asks_for, inside as lies_in, equal as equals};
ghost use Rattle.bmc_stack.specs.Stored.{AreStored};
ghost use Rattle.bmc_leaves.specs.Shown.{Reading, IsRight, AreRight};
ghost use Rattle.bmc_places.specs.Stores.{Stays};

use bmc_leaves::tests_of_sets::{push_equal, push_inside, push_tested};
use bmc_stack::{Store, pop_row};
use core_tree::Quantity;
use gate_trait::{Gates, NodeList};
use std::alloc::{AllocError, Global};

/// Where the first set lies in the second.
pub fn inside_row<G: Gates>(
    alloc: Global,
    gates: &mut G,
    store: &mut Store,
    a: &Vec<usize>,
    b: &Vec<usize>,
) -> Result<NodeList, AllocError>
    requires { AreStored (G.belongs gates.old) store.old }
    ensures keeps { Keeps G.belongs G.node_value gates.old gates.new }
    ensures stored { OnOk result (AreStored (G.belongs gates.new) store.new) }
    ensures stays { OnOk result (Stays store.old store.new) }
    ensures belongs { IfOk result (λ row. AllIn (G.belongs gates.new) row) }
    ensures right { IfOk result (λ row. (r : Reading) (e f : Term) →
        AreRight r (G.node_value gates.old) store.old.matrices.items e a.now.items →
        AreRight r (G.node_value gates.old) store.old.matrices.items f b.now.items
        → IsRight r (G.node_value gates.new) (lies_in e f) row) }
{
    push_inside(alloc, gates, store, a, b)?;
    let row = pop_row(alloc, gates, store);
    Ok(row)
}

/// Where the sets are equal.
pub fn equal_row<G: Gates>(
    alloc: Global,
    gates: &mut G,
    store: &mut Store,
    a: &Vec<usize>,
    b: &Vec<usize>,
) -> Result<NodeList, AllocError>
    requires { AreStored (G.belongs gates.old) store.old }
    ensures keeps { Keeps G.belongs G.node_value gates.old gates.new }
    ensures stored { OnOk result (AreStored (G.belongs gates.new) store.new) }
    ensures stays { OnOk result (Stays store.old store.new) }
    ensures belongs { IfOk result (λ row. AllIn (G.belongs gates.new) row) }
    ensures right { IfOk result (λ row. (r : Reading) (e f : Term) →
        AreRight r (G.node_value gates.old) store.old.matrices.items e a.now.items →
        AreRight r (G.node_value gates.old) store.old.matrices.items f b.now.items
        → IsRight r (G.node_value gates.new) (equals e f) row) }
{
    push_equal(alloc, gates, store, a, b)?;
    let row = pop_row(alloc, gates, store);
    Ok(row)
}

/// Where the set passes the test.
pub fn tested_row<G: Gates>(
    alloc: Global,
    gates: &mut G,
    store: &mut Store,
    quantity: Quantity,
    a: &Vec<usize>,
) -> Result<NodeList, AllocError>
    requires { AreStored (G.belongs gates.old) store.old }
    ensures keeps { Keeps G.belongs G.node_value gates.old gates.new }
    ensures stored { OnOk result (AreStored (G.belongs gates.new) store.new) }
    ensures stays { OnOk result (Stays store.old store.new) }
    ensures belongs { IfOk result (λ row. AllIn (G.belongs gates.new) row) }
    ensures right { IfOk result (λ row. (r : Reading) (e : Term) →
        AreRight r (G.node_value gates.old) store.old.matrices.items e a.now.items
        → IsRight r (G.node_value gates.new) (asks_for quantity e) row) }
{
    push_tested(alloc, gates, store, quantity, a)?;
    let row = pop_row(alloc, gates, store);
    Ok(row)
}
