//! Sums over choices of atoms, place by place.

ghost use Rattle.std.specs.Prelude.{◌≡◌, ◌<◌, ◌∷◌, [], ◌++◌, ℕ, Bool, List, Some, ◌+ℤ◌, IfOk, OnOk, IsTrue, length, map, slice_get};
ghost use Rattle.std.specs.List.Sorted.{IsStrictlySortedBy};
ghost use Rattle.gate_trait.specs.declared.node.Node.{Node as CircuitNode};
ghost use Rattle.gate_trait.specs.Built.{Keeps, AllIn};
ghost use Rattle.core_meaning.specs.Integers.{wrap};
ghost use Rattle.core_tuples.specs.Sets.{tuple_cmp};
ghost use Rattle.gate_integers.specs.Numbers.{signed};
ghost use Rattle.gate_numbers.specs.Numbers.{where_true};
ghost use Rattle.bmc_stack.specs.Stored.{AreStored};
ghost use Rattle.bmc_places.specs.Stores.{Extends};
ghost use Rattle.bmc_places.specs.Sums.{AddsTo, SumsAt, AreAdded};

use crate::gathering::Choice;
use crate::numbers::add_bits;
use bmc_stack::{Store, node_or_false};
use bmc_windows::found_at;
use core_tuples::Tuple;
use gate_integers::Bits;
use gate_numbers::masked_sum;
use gate_trait::{Gates, Node, NodeList};
use std::alloc::{AllocError, Global};
use std::cmp::Ordering;

/// Whether the first tuple comes before the second.
fn is_before(a: &Tuple, b: &Tuple) -> bool
    ensures { IsTrue result → tuple_cmp a.now b.now ≡ Ordering.Less }
{
    match a.compare(b) {
        Ordering::Less => true,
        _ => false,
    }
}

/// Whether each tuple comes before the next.
pub fn are_rising(choices: &[Choice]) -> bool
    ensures { IsTrue result → IsStrictlySortedBy tuple_cmp (map (λ c. c.tuple) choices.now) }
{
    for turn in 1..choices.len() {
        let place = choices.len() - turn;
        let first = &choices[place - 1];
        let second = &choices[place];
        let rises = is_before(&first.tuple, &second.tuple);
        if !rises {
            return false;
        }
    }
    true
}

/// The first integer and, where the node is true, the second. Its error is want of memory, or that there are no
/// integers of these numbers, or of other widths.
fn summed<G: Gates>(
    alloc: Global,
    gates: &mut G,
    store: &Store,
    node: Node,
    a: usize,
    b: usize,
) -> Result<Bits, AllocError>
    requires stored { AreStored (G.belongs gates.old) store.now }
    requires node { G.belongs gates.old node }
    ensures keeps { Keeps G.belongs G.node_value gates.old gates.new }
    ensures belongs { IfOk result (λ s. AllIn (G.belongs gates.new) s) }
    ensures there { OnOk result (b < length store.now.integers.items) }
    ensures value { IfOk result (λ s. (p q : List CircuitNode) →
        slice_get store.now.integers.items a ≡ Some p →
        slice_get store.now.integers.items b ≡ Some q →
        (length s ≡ length p) × ((x : ℕ → Bool) → signed (G.node_value gates.new x) s
        ≡ wrap (length p) (signed (G.node_value gates.old x) p +ℤ where_true
        (G.node_value gates.old x node) (signed (G.node_value gates.old x) q)))) }
{
    if a >= store.integers.len() || b >= store.integers.len() {
        return Err(AllocError);
    }
    let made = masked_sum(alloc, gates, node, &store.integers[a], &store.integers[b])?;
    Ok(made)
}

/// Adds the first integer and, where the node is true, the second, and gives its number.
fn add_summed<G: Gates>(
    alloc: Global,
    gates: &mut G,
    store: &mut Store,
    node: Node,
    a: usize,
    b: usize,
) -> Result<usize, AllocError>
    requires stored { AreStored (G.belongs gates.old) store.old }
    requires node { G.belongs gates.old node }
    ensures keeps { Keeps G.belongs G.node_value gates.old gates.new }
    ensures stored { OnOk result (AreStored (G.belongs gates.new) store.new) }
    ensures extends { OnOk result (Extends store.old store.new) }
    ensures adds { IfOk result (λ k. AddsTo (G.node_value gates.old) (G.node_value gates.new)
        store.old.integers.items store.new.integers.items node a b k) }
{
    let new = summed(alloc, gates, store, node, a, b)?;
    let number = add_bits(gates, store, new)?;
    Ok(number)
}

/// Adds the number of the sum at a place. Its error is want of memory, or that no integer stands there to be added,
/// or one of another width.
fn add_sum_at<G: Gates>(
    alloc: Global,
    gates: &mut G,
    store: &mut Store,
    row: &NodeList,
    totals: &[usize],
    made: &[usize],
    place: usize,
    numbers: &mut Vec<usize>,
) -> Result<(), AllocError>
    requires stored { AreStored (G.belongs gates.old) store.old }
    requires row { AllIn (G.belongs gates.old) row.now }
    ensures keeps { Keeps G.belongs G.node_value gates.old gates.new }
    ensures stored { OnOk result (AreStored (G.belongs gates.new) store.new) }
    ensures extends { OnOk result (Extends store.old store.new) }
    ensures adds { OnOk result ((k : ℕ) × (numbers.new.items ≡ numbers.old.items ++ k ∷ [])
        × SumsAt (G.node_value gates.old) (G.node_value gates.new) store.old.integers.items
        store.new.integers.items row.now totals.now made.now place k) }
{
    if place >= made.len() {
        return Err(AllocError);
    }
    let node = node_or_false(gates, row, place);
    let first = found_at(totals, place);
    let second = made[place];
    let number = add_summed(alloc, gates, store, node, first, second)?;
    numbers.push(number)?;
    Ok(())
}

/// At so many places the total and, where the row holds, the integer that was made there.
pub fn sum_places<G: Gates>(
    alloc: Global,
    gates: &mut G,
    store: &mut Store,
    row: &NodeList,
    totals: &[usize],
    made: &[usize],
    count: usize,
) -> Result<Vec<usize>, AllocError>
    requires stored { AreStored (G.belongs gates.old) store.old }
    requires row { AllIn (G.belongs gates.old) row.now }
    ensures keeps { Keeps G.belongs G.node_value gates.old gates.new }
    ensures stored { OnOk result (AreStored (G.belongs gates.new) store.new) }
    ensures extends { OnOk result (Extends store.old store.new) }
    ensures sums { IfOk result (λ v. AreAdded (G.node_value gates.old) (G.node_value gates.new)
        store.old.integers.items store.new.integers.items row.now totals.now made.now count
        v.items) }
{
    let mut numbers = Vec::new(alloc);
    for place in 0..count {
        add_sum_at(alloc, gates, store, row, totals, made, place, &mut numbers)?;
    }
    Ok(numbers)
}
