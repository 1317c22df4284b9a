//! Sets that are gathered place by place from tuples, each with a row that says where it is.

ghost use Rattle.std.specs.Prelude.{◌≡◌, ◌↔◌, ◌<◌, ◌≤◌, ℕ, Bool, true, List, All, length, IfOk, OnOk, IfSome, IsTrue};
ghost use Rattle.gate_trait.specs.Built.{Keeps, AllIn};
ghost use Rattle.core_tuples.specs.Index.{IsNumber};
ghost use Rattle.gate_matrix.specs.Matrices.{AllBelong, truth};
ghost use Rattle.gate_temporal.specs.Rows.{row_value};
ghost use Rattle.bmc_stack.specs.Stored.{AreStored};
ghost use Rattle.bmc_places.specs.Gathered.{AllRows, IsFound, GathersAt, AddsGathered, AreGathered, AreLike};
ghost use Rattle.bmc_places.specs.Stores.{Extends};

use crate::choosing::node_same_at;
use bmc_stack::{Store, add_matrix, node_or_false};
use bmc_windows::found_at;
use core_tuples::{Keyed, Tuple};
use gate_matrix::{Entry, Matrix, gathered};
use gate_trait::{Gates, NodeList};
use std::alloc::{AllocError, Global};

/// A choice of atoms for variables, and where they are in their bounds and the formula holds.
#[derive(Drop)]
pub struct Choice {
    pub tuple: Tuple,
    pub row: NodeList,
}

/// Whether a tuple has so many columns, each a number of a universe.
pub fn fits_columns(tuple: &Tuple, columns: u32) -> bool
    ensures columns { IsTrue result → length tuple.now ≡ columns }
    ensures numbers { IsTrue result → All IsNumber tuple.now }
{
    // Atoms, S66: there are at most 16,384 atoms and integers.
    tuple.numbers().len() == columns as usize && tuple.numbers().iter().all(|x| *x < 16384)
}

/// The entry of a choice at a place. Its error is want of memory, or that the choice has other columns.
fn entry_at<G: Gates>(
    alloc: Global,
    gates: &G,
    choice: &Choice,
    place: usize,
    columns: u32,
) -> Result<Entry, AllocError>
    requires row { AllIn (G.belongs gates.now) choice.now.row }
    requires most { columns ≤ 9 }
    ensures belongs { IfOk result (λ e. G.belongs gates.now e.node) }
    ensures columns { IfOk result (λ e. length e.tuple ≡ columns) }
    ensures numbers { IfOk result (λ e. All IsNumber e.tuple) }
    ensures tuple { IfOk result (λ e. e.tuple ≡ choice.now.tuple) }
    ensures value { IfOk result (λ e. (x : ℕ → Bool) → G.node_value gates.now x e.node
        ≡ row_value (G.node_value gates.now x) choice.now.row place) }
{
    let fits = fits_columns(&choice.tuple, columns);
    if !fits {
        return Err(AllocError);
    }
    let node = node_or_false(gates, &choice.row, place);
    let copy = choice.tuple.copy(alloc)?;
    let tuple = Keyed::new(copy);
    Ok(Entry { tuple, node })
}

/// The set of the choices whose rows hold at a place.
fn gathered_at<G: Gates>(
    alloc: Global,
    gates: &mut G,
    choices: &[Choice],
    place: usize,
    columns: u32,
) -> Result<Matrix, AllocError>
    requires { AllRows (G.belongs gates.old) choices.now }
    ensures keeps { Keeps G.belongs G.node_value gates.old gates.new }
    ensures belongs { IfOk result (λ m. AllBelong (G.belongs gates.new) m.entries) }
    ensures means { IfOk result (λ m. (x : ℕ → Bool) (t : List ℕ) →
        (truth (G.node_value gates.new x) m t ≡ true)
        ↔ IsFound (G.node_value gates.old x) choices.now place t) }
{
    // ArityLimit, S47: a relation has at most nine columns.
    if columns < 1 || columns > 9 {
        return Err(AllocError);
    }
    let mut entries: Vec<Entry> = Vec::new(alloc);
    for number in 0..choices.len() {
        let entry = entry_at(alloc, gates, &choices[number], place, columns)?;
        entries.push(entry)?;
    }
    let made = gathered(alloc, gates, columns, entries)?;
    Ok(made)
}

/// Whether all rows have the same node at two places.
fn rows_like(choices: &[Choice], i: usize, j: usize) -> bool
    ensures { IsTrue result → AreLike choices.now i j }
{
    for choice in choices {
        let same = node_same_at(&choice.row, i, j);
        if !same {
            return false;
        }
    }
    true
}

/// The first of the places before one at which all rows have the same nodes.
fn like_rows(choices: &[Choice], place: usize) -> Option<usize>
    ensures { IfSome result (λ j. (j < place) × AreLike choices.now j place) }
{
    for other in 0..place {
        if rows_like(choices, other, place) {
            return Some(other);
        }
    }
    None
}

/// Adds the set of the choices whose rows hold at a place, and gives its number.
fn add_gathered<G: Gates>(
    alloc: Global,
    gates: &mut G,
    store: &mut Store,
    choices: &[Choice],
    place: usize,
    columns: u32,
) -> Result<usize, AllocError>
    requires stored { AreStored (G.belongs gates.old) store.old }
    requires rows { AllRows (G.belongs gates.old) choices.now }
    ensures keeps { Keeps G.belongs G.node_value gates.old gates.new }
    ensures stored { OnOk result (AreStored (G.belongs gates.new) store.new) }
    ensures extends { OnOk result (Extends store.old store.new) }
    ensures gathers { IfOk result (λ k. GathersAt (G.node_value gates.old)
        (G.node_value gates.new) store.new.matrices.items choices.now place k) }
{
    let new = gathered_at(alloc, gates, choices, place, columns)?;
    let number = add_matrix(gates, store, new)?;
    Ok(number)
}

/// Adds the number of the set of a place to the list: that of an earlier place that is like it, or a new
/// one.
fn add_place<G: Gates>(
    alloc: Global,
    gates: &mut G,
    store: &mut Store,
    choices: &[Choice],
    place: usize,
    columns: u32,
    numbers: &mut Vec<usize>,
) -> Result<(), AllocError>
    requires stored { AreStored (G.belongs gates.old) store.old }
    requires rows { AllRows (G.belongs gates.old) choices.now }
    ensures keeps { Keeps G.belongs G.node_value gates.old gates.new }
    ensures stored { OnOk result (AreStored (G.belongs gates.new) store.new) }
    ensures extends { OnOk result (Extends store.old store.new) }
    ensures adds { OnOk result (AddsGathered (G.node_value gates.old) (G.node_value gates.new)
        store.new.matrices.items choices.now place numbers.old.items numbers.new.items) }
{
    match like_rows(choices, place) {
        Some(other) => {
            let number = found_at(numbers, other);
            numbers.push(number)?;
            Ok(())
        }
        None => {
            let new = add_gathered(alloc, gates, store, choices, place, columns)?;
            numbers.push(new)?;
            Ok(())
        }
    }
}

/// At each of so many places the set of the choices whose rows hold there. Places at which all rows have the
/// same nodes share a set.
pub fn gathered_sets<G: Gates>(
    alloc: Global,
    gates: &mut G,
    store: &mut Store,
    choices: &[Choice],
    count: usize,
    columns: u32,
) -> Result<Vec<usize>, AllocError>
    requires stored { AreStored (G.belongs gates.old) store.old }
    requires rows { AllRows (G.belongs gates.old) choices.now }
    ensures keeps { Keeps G.belongs G.node_value gates.old gates.new }
    ensures stored { OnOk result (AreStored (G.belongs gates.new) store.new) }
    ensures extends { OnOk result (Extends store.old store.new) }
    ensures gathered { IfOk result (λ v. AreGathered (G.node_value gates.old)
        (G.node_value gates.new) store.new.matrices.items choices.now count v.items) }
{
    let mut numbers = Vec::new(alloc);
    for place in 0..count {
        add_place(alloc, gates, store, choices, place, columns, &mut numbers)?;
    }
    Ok(numbers)
}
