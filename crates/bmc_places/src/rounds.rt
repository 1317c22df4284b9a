//! What stands behind the last place of a window: the set at the place to which one goes back, in the
//! window of the loop that is chosen. So it is one set for all windows.

ghost use Rattle.std.specs.Prelude.{◌≡◌, ℕ, Bool, true, false, IfOk, OnOk};
ghost use Rattle.gate_trait.specs.Built.{Keeps, AllIn};
ghost use Rattle.gate_matrix.specs.Matrices.{AllBelong, MatrixEntries};
ghost use Rattle.gate_operators.specs.Sets.{MeansSet, set_of};
ghost use Rattle.bmc_stack.specs.Stored.{AreStored};
ghost use Rattle.bmc_stack.specs.Sets.{StandsAt};
ghost use Rattle.bmc_places.specs.Stores.{Extends};
ghost use Rattle.bmc_places.specs.Rounds.{AreNextSets, IsNumberNext, AreNumbersNext, IsSetAtLoop};

use bmc_stack::{Store, add_matrix};
use bmc_windows::{Frame, found_at, moved};
use gate_matrix::Matrix;
use gate_sets::choose;
use gate_trait::{Gates, Node, NodeList};
use std::alloc::{AllocError, Global};

/// The set at a place where the node is true, else another. Its error is want of memory, or that there is
/// no such set with as many columns.
fn set_or_other<G: Gates>(
    alloc: Global,
    gates: &mut G,
    store: &Store,
    row: &[usize],
    place: usize,
    node: Node,
    other: &Matrix,
) -> Result<Matrix, AllocError>
    requires stored { AreStored (G.belongs gates.old) store.now }
    requires node { G.belongs gates.old node }
    requires other { AllBelong (G.belongs gates.old) other.now.entries }
    ensures keeps { Keeps G.belongs G.node_value gates.old gates.new }
    ensures belongs { IfOk result (λ m. AllBelong (G.belongs gates.new) m.entries) }
    ensures here { IfOk result (λ m. (x : ℕ → Bool) (p : MatrixEntries) →
        G.node_value gates.old x node ≡ true → StandsAt store.now.matrices.items row.now place p
        → MeansSet (G.node_value gates.new x) m (set_of (G.node_value gates.old x) p)) }
    ensures other { IfOk result (λ m. (x : ℕ → Bool) → G.node_value gates.old x node ≡ false →
        MeansSet (G.node_value gates.new x) m (set_of (G.node_value gates.old x) other.now)) }
{
    let number = found_at(row, place);
    if number >= store.matrices.len() {
        return Err(AllocError);
    }
    let made = choose(alloc, gates, node, &store.matrices[number], other)?;
    Ok(made)
}

/// The set at the place to which one goes back, in the window of the chosen loop: one choice behind the
/// other. Its error is want of memory, or that there are no such sets or not one window for each choice.
fn set_at_loop<G: Gates>(
    alloc: Global,
    gates: &mut G,
    store: &Store,
    frame: &Frame,
    choices: &NodeList,
    row: &[usize],
) -> Result<Matrix, AllocError>
    requires choices { AllIn (G.belongs gates.old) choices.now }
    requires stored { AreStored (G.belongs gates.old) store.now }
    ensures keeps { Keeps G.belongs G.node_value gates.old gates.new }
    ensures belongs { IfOk result (λ m. AllBelong (G.belongs gates.new) m.entries) }
    ensures set { IfOk result (λ m. IsSetAtLoop (G.node_value gates.old) (G.node_value gates.new)
        store.now.matrices.items frame.now choices.now row.now m) }
{
    let count = frame.windows.len();
    if count == 0 || choices.len() != count {
        return Err(AllocError);
    }
    let first = found_at(row, frame.windows[0].back);
    if first >= store.matrices.len() {
        return Err(AllocError);
    }
    let mut made = store.matrices[first].copy(alloc)?;
    for turn in 1..count {
        let node = choices.node(turn);
        let window = frame.windows[turn];
        let next = set_or_other(alloc, gates, store, row, window.back, node, &made)?;
        made = next;
    }
    Ok(made)
}

/// Whether the same set stands at all places to which one goes back, so that none is to be chosen.
fn are_static(frame: &Frame, row: &[usize]) -> bool {
    for window in &frame.windows {
        if found_at(row, window.back) != found_at(row, frame.windows[0].back) {
            return false;
        }
    }
    true
}

/// The number in the row at the next place, if that is the one behind; else the one that is given.
fn number_next(row: &[usize], next: &[usize], given: usize, place: usize) -> usize
    ensures { IsNumberNext row.now next.now given place result }
{
    if place >= next.len() {
        return given;
    }
    let there = next[place];
    if there == place + 1 {
        return found_at(row, there);
    }
    given
}

/// The numbers in the row at the next places, where these are the ones behind; else the one that is
/// given.
fn numbers_next(
    alloc: Global,
    row: &[usize],
    next: &[usize],
    given: usize,
) -> Result<Vec<usize>, AllocError>
    ensures { IfOk result (λ numbers. AreNumbersNext row.now next.now given numbers.items) }
{
    let mut numbers = Vec::new(alloc);
    for place in 0..next.len() {
        let number = number_next(row, next, given, place);
        numbers.push(number)?;
    }
    Ok(numbers)
}

/// The sets of a row at the next positions. Its error is want of memory, or that there are no such sets or
/// not one window for each choice.
pub fn next_sets<G: Gates>(
    alloc: Global,
    gates: &mut G,
    store: &mut Store,
    frame: &Frame,
    choices: &NodeList,
    row: &[usize],
) -> Result<Vec<usize>, AllocError>
    requires choices { AllIn (G.belongs gates.old) choices.now }
    requires stored { AreStored (G.belongs gates.old) store.old }
    ensures keeps { Keeps G.belongs G.node_value gates.old gates.new }
    ensures stored { OnOk result (AreStored (G.belongs gates.new) store.new) }
    ensures extends { OnOk result (Extends store.old store.new) }
    ensures next { IfOk result (λ new. AreNextSets (G.node_value gates.old) (G.node_value gates.new)
        store.old.matrices.items store.new.matrices.items frame.now choices.now row.now new.items) }
{
    if are_static(frame, row) {
        let same = moved(alloc, row, &frame.next)?;
        return Ok(same);
    }
    let back = set_at_loop(alloc, gates, store, frame, choices, row)?;
    let number = add_matrix(gates, store, back)?;
    let new = numbers_next(alloc, row, &frame.next, number)?;
    Ok(new)
}
