//! The tuples that sets may have at some place.

ghost use Rattle.std.specs.Prelude.{◌≡◌, ◌++◌, ◌+◌, ◌*◌, ℕ, Bool, List, IfOk, OnOk};
ghost use Rattle.gate_trait.specs.declared.node.Node.{Node as CircuitNode};
ghost use Rattle.gate_trait.specs.Built.{AllIn};
ghost use Rattle.gate_matrix.specs.Matrices.{AllBelong, truth};
ghost use Rattle.bmc_stack.specs.Stored.{AreStored};
ghost use Rattle.bmc_stack.specs.Rows.{IsPushed};
ghost use Rattle.bmc_stack.specs.Members.{SaysMember, SaysRow, HasMembers, SayMembers, AddsTuples};

use crate::basics::push_row;
use crate::store::Store;
use bmc_windows::{found_at, pair_at, pairs_of};
use core_tuples::Tuple;
use gate_matrix::Matrix;
use gate_sets::{add_tuples, distinct_tuples};
use gate_trait::{Gates, Node, NodeList};
use std::alloc::{AllocError, Global};

/// Adds the tuples of the set of this number, if there is one.
fn add_numbered(
    alloc: Global,
    store: &Store,
    number: usize,
    all: &mut Vec<Tuple>,
) -> Result<(), AllocError>
    ensures { OnOk result (AddsTuples store.now.matrices.items number all.old.items all.new.items) }
{
    if number >= store.matrices.len() {
        return Ok(());
    }
    add_tuples(alloc, &store.matrices[number], all)?;
    Ok(())
}

/// The tuples of the sets of a row, in order, each once.
fn tuples_of(alloc: Global, store: &Store, row: &[usize]) -> Result<Vec<Tuple>, AllocError>
    ensures { IfOk result (λ all. HasMembers store.now.matrices.items row.now all.items) }
{
    let pairs = pairs_of(alloc, row, row)?;
    let mut all = Vec::new(alloc);
    for place in 0..pairs.pairs.len() {
        let pair = pair_at(&pairs.pairs, place);
        add_numbered(alloc, store, pair.0, &mut all)?;
    }
    let made = distinct_tuples(alloc, all)?;
    Ok(made)
}

/// The node that says whether a tuple is in a set; the constant false where it has none.
fn found_in<G: Gates>(gates: &G, matrix: &Matrix, tuple: &Tuple) -> Node
    requires { AllBelong (G.belongs gates.now) matrix.now.entries }
    ensures belongs { G.belongs gates.now result }
    ensures value { (x : ℕ → Bool) → G.node_value gates.now x result
        ≡ truth (G.node_value gates.now x) matrix.now tuple.now }
{
    match matrix.node(tuple) {
        Some(node) => node,
        None => gates.constant(false),
    }
}

/// The node that says whether a tuple is in a set; the constant false where there is no set of this
/// number.
fn member_node<G: Gates>(gates: &G, store: &Store, number: usize, tuple: &Tuple) -> Node
    requires { AreStored (G.belongs gates.now) store.now }
    ensures belongs { G.belongs gates.now result }
    ensures says { SaysMember (G.node_value gates.now) store.now.matrices.items number tuple.now
        result }
{
    if number >= store.matrices.len() {
        return gates.constant(false);
    }
    found_in(gates, &store.matrices[number], tuple)
}

/// Adds the nodes that say at which places the tuple is in the set.
fn add_row<G: Gates>(
    gates: &G,
    store: &Store,
    row: &[usize],
    tuple: &Tuple,
    nodes: &mut NodeList,
) -> Result<(), AllocError>
    requires store { AreStored (G.belongs gates.now) store.now }
    requires nodes { AllIn (G.belongs gates.now) nodes.old }
    ensures belongs { AllIn (G.belongs gates.now) nodes.new }
    ensures says { OnOk result ((more : List CircuitNode) × (nodes.new ≡ nodes.old ++ more)
        × SaysRow (G.node_value gates.now) store.now.matrices.items row.now tuple.now more) }
{
    for place in 0..row.len() {
        let number = found_at(row, place);
        nodes.push(member_node(gates, store, number, tuple))?;
    }
    Ok(())
}

/// The nodes that say at which places each tuple is in the set: those of the first tuple first.
fn member_nodes<G: Gates>(
    alloc: Global,
    gates: &G,
    store: &Store,
    row: &[usize],
    tuples: &[Tuple],
) -> Result<NodeList, AllocError>
    requires { AreStored (G.belongs gates.now) store.now }
    ensures belongs { IfOk result (λ nodes. AllIn (G.belongs gates.now) nodes) }
    ensures says { IfOk result (λ nodes. SayMembers (G.node_value gates.now)
        store.now.matrices.items row.now tuples.now nodes) }
{
    let mut nodes = NodeList::new(alloc);
    for place in 0..tuples.len() {
        add_row(gates, store, row, &tuples[place], &mut nodes)?;
    }
    Ok(nodes)
}

/// The tuples that a set may have at some place. Puts on the stack the nodes that say at which
/// places each is in the set, those of the first tuple first.
pub fn members_of<G: Gates>(
    alloc: Global,
    gates: &G,
    store: &mut Store,
    row: &[usize],
) -> Result<Vec<Tuple>, AllocError>
    requires { AreStored (G.belongs gates.now) store.old }
    ensures stored { OnOk result (AreStored (G.belongs gates.now) store.new) }
    ensures members { IfOk result (λ tuples. HasMembers store.old.matrices.items row.now
        tuples.items) }
    ensures says { IfOk result (λ tuples. (nodes : List CircuitNode)
        × IsPushed store.old store.new nodes
        × SayMembers (G.node_value gates.now) store.old.matrices.items row.now tuples.items nodes) }
{
    let tuples = tuples_of(alloc, store, row)?;
    let nodes = member_nodes(alloc, gates, store, row, &tuples)?;
    push_row(gates, store, nodes)?;
    Ok(tuples)
}
