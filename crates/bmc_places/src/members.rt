//! The tuples that sets at all places may have, and what was added to a store taken away again.

ghost use Rattle.std.specs.Prelude.{◌≡◌, ◌*◌, take, IfOk, OnOk};
ghost use Rattle.gate_trait.specs.Built.{AllIn};
ghost use Rattle.bmc_stack.specs.Members.{HasMembers, SayMembers};
ghost use Rattle.bmc_stack.specs.Stored.{AreStored};
ghost use Rattle.bmc_places.specs.Stores.{Stays};

use bmc_stack::{Store, members_of, pop_row};
use core_tuples::Tuple;
use gate_trait::{Gates, NodeList};
use std::alloc::{AllocError, Global};

/// The product of two numbers. Its error is want of memory, or that it is too great.
pub fn place_times(number: usize, count: usize) -> Result<usize, AllocError>
    ensures { IfOk result (λ n. n ≡ number * count) }
{
    match number.checked_mul(count) {
        Some(product) => Ok(product),
        None => Err(AllocError),
    }
}

/// Leaves so many sets and integers.
pub fn cut_to<G: Gates>(gates: &G, store: &mut Store, matrices: usize, integers: usize)
    requires { AreStored (G.belongs gates.now) store.old }
    ensures stored { AreStored (G.belongs gates.now) store.new }
    ensures matrices { store.new.matrices.items ≡ take matrices store.old.matrices.items }
    ensures integers { store.new.integers.items ≡ take integers store.old.integers.items }
{
    // for the proof: only the clauses name the gates
    let _ = gates;
    store.matrices.truncate(matrices);
    store.integers.truncate(integers);
}

/// The tuples that sets may have, and the nodes that say at which places each is in them, those of the
/// first tuple first.
#[derive(Drop)]
pub struct Found {
    pub tuples: Vec<Tuple>,
    pub nodes: NodeList,
}

/// The tuples that the sets at all places may have.
pub fn found_in<G: Gates>(
    alloc: Global,
    gates: &G,
    store: &mut Store,
    row: &Vec<usize>,
) -> Result<Found, AllocError>
    requires { AreStored (G.belongs gates.now) store.old }
    ensures stored { OnOk result (AreStored (G.belongs gates.now) store.new) }
    ensures stays { OnOk result (Stays store.old store.new) }
    ensures belongs { IfOk result (λ f. AllIn (G.belongs gates.now) f.nodes) }
    ensures members { IfOk result (λ f. HasMembers store.old.matrices.items row.now.items
        f.tuples.items) }
    ensures says { IfOk result (λ f. SayMembers (G.node_value gates.now) store.old.matrices.items
        row.now.items f.tuples.items f.nodes) }
{
    let tuples = members_of(alloc, gates, store, row)?;
    let nodes = pop_row(alloc, gates, store);
    Ok(Found { tuples, nodes })
}
