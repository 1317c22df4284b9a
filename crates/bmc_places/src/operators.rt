//! What operators give of sets that stand at all places.

ghost use Rattle.std.specs.Prelude.{IfOk, OnOk};
ghost use Rattle.gate_trait.specs.Built.{Keeps};
ghost use Rattle.bmc_stack.specs.Sets.{AreMade};
ghost use Rattle.bmc_stack.specs.Stored.{AreStored};
ghost use Rattle.bmc_places.specs.Stores.{Extends};

use bmc_stack::{Operator, Store, combined};
use core_tuples::Universe;
use gate_sets::SetOperator;
use gate_trait::Gates;
use std::alloc::{AllocError, Global};

/// What the operator gives at each place.
pub fn made_sets<G: Gates>(
    alloc: Global,
    gates: &mut G,
    store: &mut Store,
    universe: Universe,
    op: SetOperator,
    a: &Vec<usize>,
    b: &Vec<usize>,
) -> Result<Vec<usize>, AllocError>
    requires { AreStored (G.belongs gates.old) store.old }
    ensures keeps { Keeps G.belongs G.node_value gates.old gates.new }
    ensures stored { OnOk result (AreStored (G.belongs gates.new) store.new) }
    ensures extends { OnOk result (Extends store.old store.new) }
    ensures made { IfOk result (λ v. AreMade op (G.node_value gates.old) (G.node_value gates.new)
        store.old.matrices.items store.new.matrices.items a.now.items b.now.items v.items) }
{
    let operator = Operator::OfSets(op);
    let made = combined(alloc, gates, store, universe, operator, a, b)?;
    Ok(made)
}
