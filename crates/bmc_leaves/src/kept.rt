//! The sets without parts that a formula names: each is built once, before all else.

ghost use Rattle.std.specs.Prelude.{◌≡◌, ◌<◌, ◌⊎◌, [], ℕ, OnOk, IfOk, length};
ghost use Rattle.gate_trait.specs.Built.{Keeps};
ghost use Rattle.bmc_stack.specs.Rows.{Grows};
ghost use Rattle.bmc_stack.specs.Stored.{AreStored};
ghost use Rattle.bmc_leaves.specs.Shown.{IsReading, Leaf, IsLeafAt, AreOf};
ghost use Rattle.bmc_leaves.specs.Relations.{reading_of};
ghost use Rattle.bmc_leaves.specs.Shown.{AreKept};

use crate::leaves::{iden_sets, integer_sets, relation_sets, univ_sets};
use crate::mentions::{Leaves, mark_formula};
use crate::setting::Setting;
use bmc_stack::Store;
use core_tree::Formula;
use gate_trait::Gates;
use std::alloc::{AllocError, Global};

/// How sets without parts are numbered.
pub fn leaves_of(setting: &Setting) -> Leaves {
    Leaves {
        sigs: setting.scopes.numbers.len(),
        relations: setting.bounds.relations.len(),
    }
}

/// The marks of what a formula names.
fn marks_of(alloc: Global, leaves: Leaves, formula: &Formula) -> Result<Vec<bool>, AllocError> {
    let mut marks = Vec::new(alloc);
    for _number in 0..leaves.count() {
        marks.push(false)?;
    }
    mark_formula(leaves, formula, &mut marks);
    Ok(marks)
}

/// The set of this number, if it is marked; else an empty value.
fn marked_sets<G: Gates>(
    alloc: Global,
    gates: &mut G,
    store: &mut Store,
    setting: &Setting,
    number: usize,
    is_marked: bool,
) -> Result<Vec<usize>, AllocError>
    requires { AreStored (G.belongs gates.old) store.old }
    ensures keeps { Keeps G.belongs G.node_value gates.old gates.new }
    ensures stored { OnOk result (AreStored (G.belongs gates.new) store.new) }
    ensures grows { OnOk result (Grows store.old store.new) }
    ensures kept { IfOk result (λ v. (depth : ℕ) (leaf : Leaf) →
        IsReading (reading_of setting.now depth) →
        IsLeafAt setting.now.bounds.now.relations leaf number
        → (v.items ≡ []) ⊎ AreOf (reading_of setting.now depth) (G.node_value gates.new)
        store.new.matrices.items leaf v.items) }
{
    if !is_marked {
        return Ok(Vec::new(alloc));
    }
    let count = setting.bounds.relations.len();
    if number < count {
        let row = relation_sets(alloc, gates, store, setting, number)?;
        return Ok(row);
    }
    if number == count {
        let row = univ_sets(alloc, gates, store, setting)?;
        return Ok(row);
    }
    if number - count == 1 {
        let row = iden_sets(alloc, gates, store, setting)?;
        return Ok(row);
    }
    let row = integer_sets(alloc, gates, store, setting)?;
    Ok(row)
}

/// The sets without parts that a formula names, by their numbers.
pub fn kept_of<G: Gates>(
    alloc: Global,
    gates: &mut G,
    store: &mut Store,
    setting: &Setting,
    formula: &Formula,
) -> Result<Vec<Vec<usize>>, AllocError>
    requires { AreStored (G.belongs gates.old) store.old }
    ensures keeps { Keeps G.belongs G.node_value gates.old gates.new }
    ensures stored { OnOk result (AreStored (G.belongs gates.new) store.new) }
    ensures rows { OnOk result (store.new.rows.items ≡ store.old.rows.items) }
    ensures kept { IfOk result (λ all. (depth : ℕ) → IsReading (reading_of setting.now depth) →
        AreKept (reading_of setting.now depth) (G.node_value gates.new) store.new.matrices.items
        all.items) }
{
    let marks = marks_of(alloc, leaves_of(setting), formula)?;
    let mut kept: Vec<Vec<usize>> = Vec::new(alloc);
    for number in 0..marks.len() {
        let value = marked_sets(alloc, gates, store, setting, number, marks[number])?;
        kept.push(value)?;
    }
    Ok(kept)
}
