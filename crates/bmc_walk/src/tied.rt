//! The walk, tied to itself.

ghost use Rattle.std.specs.Prelude.{IfOk, OnOk};
ghost use Rattle.gate_trait.specs.Built.{Keeps};
ghost use Rattle.bmc_stack.specs.Stored.{AreStored};
ghost use Rattle.bmc_places.specs.Stores.{Extends};
ghost use Rattle.bmc_walk.specs.Walks.{IsAnswer};

use crate::once::{integers_once, row_once, sets_once};
use crate::walk::{Answer, Ground, Known, Walk, Wanted};
use bmc_places::cut_to;
use bmc_stack::Store;
use gate_trait::Gates;
use std::alloc::AllocError;

/// What is wanted of a part, where parts nest below a number. A formula leaves the sets and integers that
/// there were. Its error is want of memory, or that a part is no form of the kernel or nests deeper.
pub fn walked<'a, G: Gates>(
    ground: &'a Ground<'a>,
    gates: &mut G,
    store: &mut Store,
    wanted: Wanted<'_>,
    known: &Known<'_>,
    deep: u32,
) -> Result<Answer, AllocError>
    requires { AreStored (G.belongs gates.old) store.old }
    ensures keeps { Keeps G.belongs G.node_value gates.old gates.new }
    ensures stored { OnOk result (AreStored (G.belongs gates.new) store.new) }
    ensures extends { OnOk result (Extends store.old store.new) }
    ensures answers { IfOk result (λ a. IsAnswer G.belongs G.node_value ground.now known.now
        gates.old gates.new store.old store.new wanted.entry a) }
{
    if deep == 0 {
        return Err(AllocError);
    }
    let walk = Walk {
        ground,
        deep: deep - 1,
        run: walked,
    };
    match wanted {
        Wanted::Sets(expr) => {
            let sets = sets_once(&walk, gates, store, expr, known)?;
            Ok(Answer::Numbers(sets))
        }
        Wanted::Integers(expr) => {
            let made = integers_once(&walk, gates, store, expr, known)?;
            Ok(Answer::Numbers(made))
        }
        Wanted::Holds(formula) => {
            let matrices = store.matrices.len();
            let integers = store.integers.len();
            let row = row_once(&walk, gates, store, formula, known)?;
            cut_to(gates, store, matrices, integers);
            Ok(Answer::Row(row))
        }
    }
}
