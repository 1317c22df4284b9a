//! Sets that depend on where a formula holds, chosen place by place.

ghost use Rattle.std.specs.Prelude.{◌≡◌, ◌<◌, ℕ, Bool, Some, IfOk, OnOk, IfSome, IsTrue, slice_get};
ghost use Rattle.gate_trait.specs.declared.node.Node.{Node as CircuitNode};
ghost use Rattle.gate_trait.specs.Built.{Keeps, AllIn};
ghost use Rattle.gate_matrix.specs.Matrices.{AllBelong, MatrixEntries};
ghost use Rattle.gate_operators.specs.Sets.{MeansSet, set_of};
ghost use Rattle.gate_sets.specs.Sets.{chosen_tuples};
ghost use Rattle.bmc_stack.specs.Stored.{AreStored};
ghost use Rattle.bmc_places.specs.Chosen.{AreChosen, ChoosesAt, ChoosesThere, AddsChosen, AreAlike};
ghost use Rattle.bmc_places.specs.Stores.{Extends};

use bmc_stack::{Store, add_matrix};
use bmc_windows::found_at;
use gate_matrix::Matrix;
use gate_sets::choose;
use gate_trait::{Gates, Node, NodeList};
use std::alloc::{AllocError, Global};

/// The first set where the node is true, else the second. Its error is want of memory, or that there are no
/// sets of these numbers with as many columns.
fn picked<G: Gates>(
    alloc: Global,
    gates: &mut G,
    store: &Store,
    node: Node,
    a: usize,
    b: usize,
) -> Result<Matrix, AllocError>
    requires stored { AreStored (G.belongs gates.old) store.now }
    requires node { G.belongs gates.old node }
    ensures keeps { Keeps G.belongs G.node_value gates.old gates.new }
    ensures belongs { IfOk result (λ m. AllBelong (G.belongs gates.new) m.entries) }
    ensures means { IfOk result (λ m. (p q : MatrixEntries) →
        slice_get store.now.matrices.items a ≡ Some p →
        slice_get store.now.matrices.items b ≡ Some q
        → (x : ℕ → Bool) → MeansSet (G.node_value gates.new x) m
        (chosen_tuples (G.node_value gates.old x node) (set_of (G.node_value gates.old x) p)
        (set_of (G.node_value gates.old x) q))) }
{
    if a >= store.matrices.len() || b >= store.matrices.len() {
        return Err(AllocError);
    }
    choose(alloc, gates, node, &store.matrices[a], &store.matrices[b])
}

/// Adds the first set where the node is true, else the second.
fn add_picked<G: Gates>(
    alloc: Global,
    gates: &mut G,
    store: &mut Store,
    node: Node,
    a: usize,
    b: usize,
) -> Result<usize, AllocError>
    requires stored { AreStored (G.belongs gates.old) store.old }
    requires node { G.belongs gates.old node }
    ensures keeps { Keeps G.belongs G.node_value gates.old gates.new }
    ensures stored { OnOk result (AreStored (G.belongs gates.new) store.new) }
    ensures extends { OnOk result (Extends store.old store.new) }
    ensures chooses { IfOk result (λ k. ChoosesAt (G.node_value gates.old) (G.node_value gates.new)
        store.old.matrices.items store.new.matrices.items node a b k) }
{
    let new = picked(alloc, gates, store, node, a, b)?;
    let number = add_matrix(gates, store, new)?;
    Ok(number)
}

/// Whether a list has the same number at two places.
fn same_at(row: &[usize], i: usize, j: usize) -> bool
    ensures { IsTrue result → slice_get row.now i ≡ slice_get row.now j }
{
    if i >= row.len() {
        return false;
    }
    if j >= row.len() {
        return false;
    }
    let left = row[i];
    let right = row[j];
    if left == right {
        return true;
    }
    false
}

/// Whether a row has the same node at two places.
pub fn node_same_at(row: &NodeList, i: usize, j: usize) -> bool
    ensures { IsTrue result → slice_get row.now i ≡ slice_get row.now j }
{
    if i >= row.len() {
        return false;
    }
    if j >= row.len() {
        return false;
    }
    let left = row.node(i);
    let right = row.node(j);
    let first = left.code;
    let second = right.code;
    if first == second {
        return true;
    }
    false
}

/// Whether the node and the numbers of both sets are the same at two places.
fn are_like(row: &NodeList, a: &[usize], b: &[usize], i: usize, j: usize) -> bool
    ensures { IsTrue result → AreAlike row.now a.now b.now i j }
{
    let nodes = node_same_at(row, i, j);
    if !nodes {
        return false;
    }
    let firsts = same_at(a, i, j);
    if !firsts {
        return false;
    }
    let seconds = same_at(b, i, j);
    if !seconds {
        return false;
    }
    true
}

/// The first of the places before one that is like it.
fn like_place(row: &NodeList, a: &[usize], b: &[usize], place: usize) -> Option<usize>
    ensures { IfSome result (λ j. (j < place) × AreAlike row.now a.now b.now j place) }
{
    for other in 0..place {
        if are_like(row, a, b, other, place) {
            return Some(other);
        }
    }
    None
}

/// The node at a place; the constant false where there is none.
fn node_at<G: Gates>(gates: &G, row: &NodeList, place: usize) -> Node
    requires { AllIn (G.belongs gates.now) row.now }
    ensures belongs { G.belongs gates.now result }
    ensures node { (n : CircuitNode) → slice_get row.now place ≡ Some n → result ≡ n }
{
    if place >= row.len() {
        return gates.constant(false);
    }
    row.node(place)
}

/// Adds the set that is chosen at a place.
fn add_new<G: Gates>(
    alloc: Global,
    gates: &mut G,
    store: &mut Store,
    row: &NodeList,
    a: &[usize],
    b: &[usize],
    place: usize,
) -> Result<usize, AllocError>
    requires stored { AreStored (G.belongs gates.old) store.old }
    requires row { AllIn (G.belongs gates.old) row.now }
    ensures keeps { Keeps G.belongs G.node_value gates.old gates.new }
    ensures stored { OnOk result (AreStored (G.belongs gates.new) store.new) }
    ensures extends { OnOk result (Extends store.old store.new) }
    ensures chooses { IfOk result (λ k. ChoosesThere (G.node_value gates.old)
        (G.node_value gates.new) store.old.matrices.items store.new.matrices.items row.now a.now
        b.now place k) }
{
    let node = node_at(gates, row, place);
    let first = found_at(a, place);
    let second = found_at(b, place);
    let number = add_picked(alloc, gates, store, node, first, second)?;
    Ok(number)
}

/// Adds the number of the set that is chosen at a place to the list: that of an earlier place that is like
/// it, or a new one.
fn add_chosen<G: Gates>(
    alloc: Global,
    gates: &mut G,
    store: &mut Store,
    row: &NodeList,
    a: &[usize],
    b: &[usize],
    place: usize,
    numbers: &mut Vec<usize>,
) -> Result<(), AllocError>
    requires stored { AreStored (G.belongs gates.old) store.old }
    requires row { AllIn (G.belongs gates.old) row.now }
    ensures keeps { Keeps G.belongs G.node_value gates.old gates.new }
    ensures stored { OnOk result (AreStored (G.belongs gates.new) store.new) }
    ensures extends { OnOk result (Extends store.old store.new) }
    ensures adds { OnOk result (AddsChosen (G.node_value gates.old) (G.node_value gates.new)
        store.old.matrices.items store.new.matrices.items row.now a.now b.now place
        numbers.old.items numbers.new.items) }
{
    match like_place(row, a, b, place) {
        Some(other) => {
            let number = found_at(numbers, other);
            numbers.push(number)?;
            Ok(())
        }
        None => {
            let new = add_new(alloc, gates, store, row, a, b, place)?;
            numbers.push(new)?;
            Ok(())
        }
    }
}

/// At each place the first set where the row holds, else the second. What is chosen by the same node from the
/// same sets is built once.
pub fn chosen_sets<G: Gates>(
    alloc: Global,
    gates: &mut G,
    store: &mut Store,
    row: &NodeList,
    a: &[usize],
    b: &[usize],
) -> Result<Vec<usize>, AllocError>
    requires stored { AreStored (G.belongs gates.old) store.old }
    requires row { AllIn (G.belongs gates.old) row.now }
    ensures keeps { Keeps G.belongs G.node_value gates.old gates.new }
    ensures stored { OnOk result (AreStored (G.belongs gates.new) store.new) }
    ensures extends { OnOk result (Extends store.old store.new) }
    ensures chosen { IfOk result (λ numbers. AreChosen (G.node_value gates.old)
        (G.node_value gates.new) store.old.matrices.items store.new.matrices.items row.now a.now
        b.now numbers.items) }
{
    let mut numbers = Vec::new(alloc);
    for place in 0..row.len() {
        add_chosen(alloc, gates, store, row, a, b, place, &mut numbers)?;
    }
    Ok(numbers)
}
