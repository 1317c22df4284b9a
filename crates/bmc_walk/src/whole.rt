//! The row of a whole formula, in which no name is known.

ghost use Rattle.std.specs.Prelude.{◌≡◌, ◌≤◌, ℕ, IfOk};
ghost use Rattle.gate_trait.specs.Built.{Keeps, AllIn};
ghost use Rattle.core_tree.specs.Trees.{claim_of};
ghost use Rattle.core_tree.specs.Past.{no_depths, past_of};
ghost use Rattle.bmc_leaves.specs.Shown.{IsReading, IsRight, none_nested};
ghost use Rattle.bmc_leaves.specs.Relations.{reading_of};
ghost use Rattle.bmc_walk.specs.declared.walk.Ready.TheVariants as is_ready;

use crate::tied::walked;
use crate::walk::{Answer, Ground, Known, Ready, Wanted};
use bmc_leaves::kept::kept_of;
use bmc_leaves::setting::Setting;
use bmc_stack::empty_store;
use core_tree::Formula;
use gate_trait::{Gates, NodeList};
use std::alloc::{AllocError, Global};

/// The number of levels with which the walk ends. DeepCalls, S49, lets parts nest 2,000 deep, where a row of
/// operators of one level counts once; a row of `||` takes a level for each, of which a text of 1 MB has fewer
/// than 350,000.
pub const DEEP: u32 = 1_000_000;

/// Where a formula holds, if nothing was built before.
fn first_row<G: Gates>(
    alloc: Global,
    gates: &mut G,
    setting: &Setting<'_>,
    formula: &Formula,
    ready: &Ready<'_>,
) -> Result<NodeList, AllocError>
    requires { ready.now ≡ is_ready.Nothing }
    ensures keeps { Keeps G.belongs G.node_value gates.old gates.new }
    ensures belongs { IfOk result (λ row. AllIn (G.belongs gates.new) row) }
    ensures right { IfOk result (λ row. (depth : ℕ) → IsReading (reading_of setting.now depth) →
        past_of none_nested (claim_of formula.now) no_depths ≤ depth
        → IsRight (reading_of setting.now depth) (G.node_value gates.new) (claim_of formula.now)
        row) }
{
    let mut store = empty_store(alloc, gates);
    let kept = kept_of(alloc, gates, &mut store, setting, formula)?;
    let ground = Ground {
        alloc,
        setting: *setting,
        kept: &kept,
        ready,
    };
    let known = Known::Nothing;
    let wanted = Wanted::Holds(formula);
    let answer = walked(&ground, gates, &mut store, wanted, &known, DEEP)?;
    match answer {
        Answer::Numbers(_) => Err(AllocError),
        Answer::Row(row) => Ok(row),
    }
}

/// Where a formula holds: a node for each place of the windows. Its error is want of memory, or that a part
/// is no form of the kernel, or that the walk's levels don't do for it.
pub fn formula_row<G: Gates>(
    alloc: Global,
    gates: &mut G,
    setting: &Setting<'_>,
    formula: &Formula,
) -> Result<NodeList, AllocError>
    ensures keeps { Keeps G.belongs G.node_value gates.old gates.new }
    ensures belongs { IfOk result (λ row. AllIn (G.belongs gates.new) row) }
    ensures right { IfOk result (λ row. (depth : ℕ) → IsReading (reading_of setting.now depth) →
        past_of none_nested (claim_of formula.now) no_depths ≤ depth
        → IsRight (reading_of setting.now depth) (G.node_value gates.new) (claim_of formula.now)
        row) }
{
    let ready = Ready::Nothing;
    let row = first_row(alloc, gates, setting, formula, &ready)?;
    Ok(row)
}
