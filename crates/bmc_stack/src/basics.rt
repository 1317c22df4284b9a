//! Adding to the store and taking from it: sets, integers and rows.

ghost use Rattle.std.specs.Prelude.{◌≡◌, [], ℕ, Bool, IfOk, OnOk, length};
ghost use Rattle.gate_trait.specs.Built.{AllIn};
ghost use Rattle.gate_matrix.specs.Matrices.{AllBelong};
ghost use Rattle.gate_temporal.specs.Rows.{row_value};
ghost use Rattle.bmc_stack.specs.Stored.{AreStored};
ghost use Rattle.bmc_stack.specs.Rows.{IsPopped, IsPushed, IsAdded, Grows};

use crate::store::Store;
use gate_integers::Bits;
use gate_matrix::Matrix;
use gate_trait::{Gates, Node, NodeList};
use std::alloc::{AllocError, Global};

/// Nothing.
pub fn empty_store<G: Gates>(alloc: Global, gates: &G) -> Store
    ensures stored { AreStored (G.belongs gates.now) result }
    ensures empty { result.rows.items ≡ [] }
{
    // for the proof: only the clauses name the gates
    let _ = gates;
    Store {
        matrices: Vec::new(alloc),
        integers: Vec::new(alloc),
        rows: Vec::new(alloc),
    }
}

/// Adds a set, and gives its number.
#[tactic(auto, using(bmc_windows::proofs::PushLemmas::push_kept))]
pub fn add_matrix<G: Gates>(
    gates: &G,
    store: &mut Store,
    matrix: Matrix,
) -> Result<usize, AllocError>
    requires store { AreStored (G.belongs gates.now) store.old }
    requires matrix { AllBelong (G.belongs gates.now) matrix.entries }
    ensures stored { OnOk result (AreStored (G.belongs gates.now) store.new) }
    ensures added { OnOk result (IsAdded store.old store.new matrix) }
    ensures grows { OnOk result (Grows store.old store.new) }
    ensures number { IfOk result (λ n. n ≡ length store.old.matrices.items) }
{
    // for the proof: only the clauses name the gates
    let _ = gates;
    let number = store.matrices.len();
    store.matrices.push(matrix)?;
    Ok(number)
}

/// Adds an integer, and gives its number.
#[tactic(auto, using(bmc_windows::proofs::PushLemmas::push_kept))]
pub fn add_integer<G: Gates>(gates: &G, store: &mut Store, bits: Bits) -> Result<usize, AllocError>
    requires store { AreStored (G.belongs gates.now) store.old }
    requires bits { AllIn (G.belongs gates.now) bits }
    ensures stored { OnOk result (AreStored (G.belongs gates.now) store.new) }
    ensures grows { OnOk result (Grows store.old store.new) }
{
    // for the proof: only the clauses name the gates
    let _ = gates;
    let number = store.integers.len();
    store.integers.push(bits)?;
    Ok(number)
}

/// Puts a row on the stack.
pub fn push_row<G: Gates>(gates: &G, store: &mut Store, row: NodeList) -> Result<(), AllocError>
    requires store { AreStored (G.belongs gates.now) store.old }
    requires row { AllIn (G.belongs gates.now) row }
    ensures stored { OnOk result (AreStored (G.belongs gates.now) store.new) }
    ensures pushed { OnOk result (IsPushed store.old store.new row) }
{
    // for the proof: only the clauses name the gates
    let _ = gates;
    store.rows.push(row)?;
    Ok(())
}

/// Takes the row from the top of the stack; an empty one where there is none.
pub fn pop_row<G: Gates>(alloc: Global, gates: &G, store: &mut Store) -> NodeList
    requires { AreStored (G.belongs gates.now) store.old }
    ensures store { AreStored (G.belongs gates.now) store.new }
    ensures row { AllIn (G.belongs gates.now) result }
    ensures popped { IsPopped store.old store.new result }
{
    // for the proof: only the clauses name the gates
    let _ = gates;
    match store.rows.pop() {
        None => NodeList::new(alloc),
        Some(row) => row,
    }
}

/// The node of a list at a place; the constant false where there is none.
pub fn node_or_false<G: Gates>(gates: &G, row: &NodeList, place: usize) -> Node
    requires { AllIn (G.belongs gates.now) row.now }
    ensures belongs { G.belongs gates.now result }
    ensures value { (x : ℕ → Bool) → G.node_value gates.now x result
        ≡ row_value (G.node_value gates.now x) row.now place }
{
    if place >= row.len() {
        return gates.constant(false);
    }
    row.node(place)
}
