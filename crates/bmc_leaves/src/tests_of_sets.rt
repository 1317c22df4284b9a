//! Tests of sets at all places.

ghost use Rattle.std.specs.Prelude.{OnOk};
ghost use Rattle.gate_trait.specs.Built.{Keeps};
ghost use Rattle.core_tree.specs.Trees.{Term, test as asks_for, inside as lies_in, equal as equals};
ghost use Rattle.bmc_stack.specs.Stored.{AreStored};
ghost use Rattle.bmc_stack.specs.Rows.{AreBeside, HasTop};
ghost use Rattle.bmc_leaves.specs.Shown.{Reading, IsRight, AreRight};

use bmc_stack::{Store, TestOperator, asked, both_top, negate_top};
use core_tree::Quantity;
use gate_sets::Question;
use gate_trait::Gates;
use std::alloc::{AllocError, Global};

/// Puts on the stack where the set has some tuple.
fn push_some<G: Gates>(
    alloc: Global,
    gates: &mut G,
    store: &mut Store,
    set: &[usize],
) -> Result<(), AllocError>
    requires { AreStored (G.belongs gates.old) store.old }
    ensures keeps { Keeps G.belongs G.node_value gates.old gates.new }
    ensures stored { OnOk result (AreStored (G.belongs gates.new) store.new) }
    ensures beside { OnOk result (AreBeside store.old store.new) }
    ensures right { OnOk result ((r : Reading) (a : Term) →
        AreRight r (G.node_value gates.old) store.old.matrices.items a set.now
        → HasTop store.old.rows.items store.new.rows.items
        (IsRight r (G.node_value gates.new) (asks_for Quantity.Some a))) }
{
    let question = TestOperator::OfSets(Question::Some);
    asked(alloc, gates, store, question, set, set)?;
    Ok(())
}

/// Puts on the stack where the set has at most one tuple.
fn push_lone<G: Gates>(
    alloc: Global,
    gates: &mut G,
    store: &mut Store,
    set: &[usize],
) -> Result<(), AllocError>
    requires { AreStored (G.belongs gates.old) store.old }
    ensures keeps { Keeps G.belongs G.node_value gates.old gates.new }
    ensures stored { OnOk result (AreStored (G.belongs gates.new) store.new) }
    ensures beside { OnOk result (AreBeside store.old store.new) }
    ensures right { OnOk result ((r : Reading) (a : Term) →
        AreRight r (G.node_value gates.old) store.old.matrices.items a set.now
        → HasTop store.old.rows.items store.new.rows.items
        (IsRight r (G.node_value gates.new) (asks_for Quantity.Lone a))) }
{
    let question = TestOperator::OfSets(Question::Lone);
    asked(alloc, gates, store, question, set, set)?;
    Ok(())
}

/// Puts on the stack where the set has just one tuple.
fn push_one<G: Gates>(
    alloc: Global,
    gates: &mut G,
    store: &mut Store,
    set: &[usize],
) -> Result<(), AllocError>
    requires { AreStored (G.belongs gates.old) store.old }
    ensures keeps { Keeps G.belongs G.node_value gates.old gates.new }
    ensures stored { OnOk result (AreStored (G.belongs gates.new) store.new) }
    ensures beside { OnOk result (AreBeside store.old store.new) }
    ensures right { OnOk result ((r : Reading) (a : Term) →
        AreRight r (G.node_value gates.old) store.old.matrices.items a set.now
        → HasTop store.old.rows.items store.new.rows.items
        (IsRight r (G.node_value gates.new) (asks_for Quantity.One a))) }
{
    push_some(alloc, gates, store, set)?;
    push_lone(alloc, gates, store, set)?;
    both_top(alloc, gates, store)?;
    Ok(())
}

/// Puts on the stack where the set has no tuple.
fn push_no<G: Gates>(
    alloc: Global,
    gates: &mut G,
    store: &mut Store,
    set: &[usize],
) -> Result<(), AllocError>
    requires { AreStored (G.belongs gates.old) store.old }
    ensures keeps { Keeps G.belongs G.node_value gates.old gates.new }
    ensures stored { OnOk result (AreStored (G.belongs gates.new) store.new) }
    ensures beside { OnOk result (AreBeside store.old store.new) }
    ensures right { OnOk result ((r : Reading) (a : Term) →
        AreRight r (G.node_value gates.old) store.old.matrices.items a set.now
        → HasTop store.old.rows.items store.new.rows.items
        (IsRight r (G.node_value gates.new) (asks_for Quantity.No a))) }
{
    push_some(alloc, gates, store, set)?;
    negate_top(alloc, gates, store)?;
    Ok(())
}

/// Puts on the stack where the set passes the test.
pub fn push_tested<G: Gates>(
    alloc: Global,
    gates: &mut G,
    store: &mut Store,
    quantity: Quantity,
    set: &[usize],
) -> Result<(), AllocError>
    requires { AreStored (G.belongs gates.old) store.old }
    ensures keeps { Keeps G.belongs G.node_value gates.old gates.new }
    ensures stored { OnOk result (AreStored (G.belongs gates.new) store.new) }
    ensures beside { OnOk result (AreBeside store.old store.new) }
    ensures right { OnOk result ((r : Reading) (a : Term) →
        AreRight r (G.node_value gates.old) store.old.matrices.items a set.now
        → HasTop store.old.rows.items store.new.rows.items
        (IsRight r (G.node_value gates.new) (asks_for quantity a))) }
{
    match quantity {
        Quantity::Some => {
            push_some(alloc, gates, store, set)?;
            Ok(())
        }
        Quantity::Lone => {
            push_lone(alloc, gates, store, set)?;
            Ok(())
        }
        Quantity::No => {
            push_no(alloc, gates, store, set)?;
            Ok(())
        }
        Quantity::One => {
            push_one(alloc, gates, store, set)?;
            Ok(())
        }
    }
}

/// Puts on the stack where the first set lies in the second.
pub fn push_inside<G: Gates>(
    alloc: Global,
    gates: &mut G,
    store: &mut Store,
    a: &[usize],
    b: &[usize],
) -> Result<(), AllocError>
    requires { AreStored (G.belongs gates.old) store.old }
    ensures keeps { Keeps G.belongs G.node_value gates.old gates.new }
    ensures stored { OnOk result (AreStored (G.belongs gates.new) store.new) }
    ensures beside { OnOk result (AreBeside store.old store.new) }
    ensures right { OnOk result ((r : Reading) (e f : Term) →
        AreRight r (G.node_value gates.old) store.old.matrices.items e a.now →
        AreRight r (G.node_value gates.old) store.old.matrices.items f b.now
        → HasTop store.old.rows.items store.new.rows.items
        (IsRight r (G.node_value gates.new) (lies_in e f))) }
{
    let question = TestOperator::OfSets(Question::Inside);
    asked(alloc, gates, store, question, a, b)?;
    Ok(())
}

/// Puts on the stack where the sets are equal.
pub fn push_equal<G: Gates>(
    alloc: Global,
    gates: &mut G,
    store: &mut Store,
    a: &[usize],
    b: &[usize],
) -> Result<(), AllocError>
    requires { AreStored (G.belongs gates.old) store.old }
    ensures keeps { Keeps G.belongs G.node_value gates.old gates.new }
    ensures stored { OnOk result (AreStored (G.belongs gates.new) store.new) }
    ensures beside { OnOk result (AreBeside store.old store.new) }
    ensures right { OnOk result ((r : Reading) (e f : Term) →
        AreRight r (G.node_value gates.old) store.old.matrices.items e a.now →
        AreRight r (G.node_value gates.old) store.old.matrices.items f b.now
        → HasTop store.old.rows.items store.new.rows.items
        (IsRight r (G.node_value gates.new) (equals e f))) }
{
    push_inside(alloc, gates, store, a, b)?;
    push_inside(alloc, gates, store, b, a)?;
    both_top(alloc, gates, store)?;
    Ok(())
}
