//! What goes with a tuple of one end of an arrow, and multiplicities.

ghost use Rattle.std.specs.Prelude.{◌≡◌, ◌↔◌, ◌≤◌, ◌++◌, ℕ, Bool, true, List, Some, IfOk, IfSome, IfNone, OnOk, slice_get};
ghost use Rattle.gate_trait.specs.Built.{Keeps, AllIn};
ghost use Rattle.core_tuples.specs.Sets.{is_same};
ghost use Rattle.gate_matrix.specs.Matrices.{AllBelong, MatrixEntries, truth};
ghost use Rattle.bmc_stack.specs.Sets.{AreAnswered};
ghost use Rattle.bmc_stack.specs.Stored.{AreStored};
ghost use Rattle.bmc_places.specs.Rests.{joined, AddsRest, RestsAt, AreRests, HasWord};
ghost use Rattle.bmc_places.specs.Stores.{Extends, Stays};

use crate::gathering::fits_columns;
use bmc_stack::windows::{both, constantly};
use bmc_stack::{Store, TestOperator, add_matrix, asked, pop_row};
use bmc_windows::{moved, pair_at, pairs_of};
use core_tree::Multiplicity;
use core_tuples::{Keyed, Tuple};
use gate_matrix::{Entry, Matrix, gathered};
use gate_sets::Question;
use gate_trait::{Gates, NodeList};
use std::alloc::{AllocError, Global};

/// Whether two lists of numbers are the same.
fn same_numbers(a: &[u32], b: &[u32]) -> bool
    ensures { result ≡ is_same a.now b.now }
{
    a == b
}

/// What follows these numbers in a tuple that begins with them.
fn behind_numbers(
    alloc: Global,
    tuple: &Tuple,
    numbers: &[u32],
) -> Result<Option<Tuple>, AllocError>
    ensures some { IfOk result (λ o. IfSome o (λ u. tuple.now ≡ numbers.now ++ u)) }
    ensures none { IfOk result (λ o. IfNone o ((u : List ℕ) → ¬ (tuple.now ≡ numbers.now ++ u))) }
{
    let all = tuple.numbers();
    if all.len() < numbers.len() {
        return Ok(None);
    }
    let (front, back) = all.split_at(numbers.len());
    let same = same_numbers(front, numbers);
    if !same {
        return Ok(None);
    }
    let rest = Tuple::of(alloc, back)?;
    Ok(Some(rest))
}

/// What stands before these numbers in a tuple that ends with them.
fn before_numbers(
    alloc: Global,
    tuple: &Tuple,
    numbers: &[u32],
) -> Result<Option<Tuple>, AllocError>
    ensures some { IfOk result (λ o. IfSome o (λ u. tuple.now ≡ u ++ numbers.now)) }
    ensures none { IfOk result (λ o. IfNone o ((u : List ℕ) → ¬ (tuple.now ≡ u ++ numbers.now))) }
{
    let all = tuple.numbers();
    if all.len() < numbers.len() {
        return Ok(None);
    }
    let cut = all.len() - numbers.len();
    let (front, back) = all.split_at(cut);
    let same = same_numbers(back, numbers);
    if !same {
        return Ok(None);
    }
    let rest = Tuple::of(alloc, front)?;
    Ok(Some(rest))
}

/// What goes with the numbers of one end in a tuple that has them there.
fn rest_numbers(
    alloc: Global,
    tuple: &Tuple,
    numbers: &[u32],
    at_start: bool,
) -> Result<Option<Tuple>, AllocError>
    ensures some { IfOk result (λ o. IfSome o (λ u. tuple.now ≡ joined at_start numbers.now u)) }
    ensures none { IfOk result (λ o. IfNone o ((u : List ℕ) →
        ¬ (tuple.now ≡ joined at_start numbers.now u))) }
{
    if at_start {
        let behind = behind_numbers(alloc, tuple, numbers)?;
        return Ok(behind);
    }
    let before = before_numbers(alloc, tuple, numbers)?;
    Ok(before)
}

/// Adds the entry of what goes with the numbers, if the entry's tuple has them at that end. Its error is want
/// of memory, or that what is left has other columns.
fn add_rest(
    alloc: Global,
    entry: &Entry,
    numbers: &[u32],
    at_start: bool,
    columns: u32,
    entries: &mut Vec<Entry>,
) -> Result<(), AllocError>
    requires most { columns ≤ 9 }
    ensures { OnOk result (AddsRest entry.now numbers.now at_start columns entries.old.items
        entries.new.items) }
{
    let left = rest_numbers(alloc, entry.tuple.tuple(), numbers, at_start)?;
    match left {
        None => Ok(()),
        Some(rest) => {
            let fits = fits_columns(&rest, columns);
            if !fits {
                return Err(AllocError);
            }
            let tuple = Keyed::new(rest);
            let node = entry.node;
            let more = Entry { tuple, node };
            entries.push(more)?;
            Ok(())
        }
    }
}

/// What goes with the numbers of one end in a set. Its error is want of memory, or that no column would be
/// left.
fn rest_matrix<G: Gates>(
    alloc: Global,
    gates: &mut G,
    matrix: &Matrix,
    numbers: &[u32],
    at_start: bool,
) -> Result<Matrix, AllocError>
    requires { AllBelong (G.belongs gates.old) matrix.now.entries }
    ensures keeps { Keeps G.belongs G.node_value gates.old gates.new }
    ensures belongs { IfOk result (λ m. AllBelong (G.belongs gates.new) m.entries) }
    ensures means { IfOk result (λ m. (x : ℕ → Bool) (u : List ℕ) →
        (truth (G.node_value gates.new x) m u ≡ true)
        ↔ (truth (G.node_value gates.old x) matrix.now (joined at_start numbers.now u) ≡ true)) }
{
    let columns = matrix.arity();
    // ArityLimit, S47: a relation has at most nine columns.
    if numbers.len() >= 9 {
        return Err(AllocError);
    }
    let count = numbers.len() as u32;
    if count >= columns || columns > 9 {
        return Err(AllocError);
    }
    let left = columns - count;
    let mut entries: Vec<Entry> = Vec::new(alloc);
    let all = matrix.entries();
    for entry in all {
        add_rest(alloc, entry, numbers, at_start, left, &mut entries)?;
    }
    let made = gathered(alloc, gates, left, entries)?;
    Ok(made)
}

/// What goes with the numbers of one end in the set of this number. Its error is want of memory, or that there
/// is no such set or no column would be left.
fn rest_at<G: Gates>(
    alloc: Global,
    gates: &mut G,
    store: &Store,
    number: usize,
    numbers: &[u32],
    at_start: bool,
) -> Result<Matrix, AllocError>
    requires { AreStored (G.belongs gates.old) store.now }
    ensures keeps { Keeps G.belongs G.node_value gates.old gates.new }
    ensures belongs { IfOk result (λ m. AllBelong (G.belongs gates.new) m.entries) }
    ensures means { IfOk result (λ m. (p : MatrixEntries) →
        slice_get store.now.matrices.items number ≡ Some p → (x : ℕ → Bool) (u : List ℕ) →
        (truth (G.node_value gates.new x) m u ≡ true)
        ↔ (truth (G.node_value gates.old x) p (joined at_start numbers.now u) ≡ true)) }
{
    if number >= store.matrices.len() {
        return Err(AllocError);
    }
    let made = rest_matrix(alloc, gates, &store.matrices[number], numbers, at_start)?;
    Ok(made)
}

/// Adds what goes with the numbers in the set of this number.
fn add_rest_of<G: Gates>(
    alloc: Global,
    gates: &mut G,
    store: &mut Store,
    number: usize,
    numbers: &[u32],
    at_start: bool,
) -> Result<usize, AllocError>
    requires { AreStored (G.belongs gates.old) store.old }
    ensures keeps { Keeps G.belongs G.node_value gates.old gates.new }
    ensures stored { OnOk result (AreStored (G.belongs gates.new) store.new) }
    ensures extends { OnOk result (Extends store.old store.new) }
    ensures rests { IfOk result (λ k. RestsAt at_start numbers.now (G.node_value gates.old)
        (G.node_value gates.new) store.old.matrices.items store.new.matrices.items number k) }
{
    let new = rest_at(alloc, gates, store, number, numbers, at_start)?;
    let made = add_matrix(gates, store, new)?;
    Ok(made)
}

/// What goes with the numbers in each of these sets.
fn rests_of<G: Gates>(
    alloc: Global,
    gates: &mut G,
    store: &mut Store,
    pairs: &[(usize, usize)],
    numbers: &[u32],
    at_start: bool,
) -> Result<Vec<usize>, AllocError>
    requires { AreStored (G.belongs gates.old) store.old }
    ensures keeps { Keeps G.belongs G.node_value gates.old gates.new }
    ensures stored { OnOk result (AreStored (G.belongs gates.new) store.new) }
    ensures extends { OnOk result (Extends store.old store.new) }
    ensures rests { IfOk result (λ v. (j : ℕ) (pair : ℕ × ℕ) → slice_get pairs.now j ≡ Some pair →
        (k : ℕ) × (slice_get v.items j ≡ Some k) × RestsAt at_start numbers.now
        (G.node_value gates.old) (G.node_value gates.new) store.old.matrices.items
        store.new.matrices.items pair.0 k) }
{
    let mut made = Vec::new(alloc);
    for place in 0..pairs.len() {
        let pair = pair_at(pairs, place);
        let number = add_rest_of(alloc, gates, store, pair.0, numbers, at_start)?;
        made.push(number)?;
    }
    Ok(made)
}

/// What goes with the numbers of one end in the set at each place.
pub fn rest_sets<G: Gates>(
    alloc: Global,
    gates: &mut G,
    store: &mut Store,
    set: &Vec<usize>,
    numbers: &[u32],
    at_start: bool,
) -> Result<Vec<usize>, AllocError>
    requires { AreStored (G.belongs gates.old) store.old }
    ensures keeps { Keeps G.belongs G.node_value gates.old gates.new }
    ensures stored { OnOk result (AreStored (G.belongs gates.new) store.new) }
    ensures extends { OnOk result (Extends store.old store.new) }
    ensures rests { IfOk result (λ v. AreRests at_start numbers.now (G.node_value gates.old)
        (G.node_value gates.new) store.old.matrices.items store.new.matrices.items set.now.items
        v.items) }
{
    let pairs = pairs_of(alloc, set, set)?;
    let made = rests_of(alloc, gates, store, &pairs.pairs, numbers, at_start)?;
    let row = moved(alloc, &made, &pairs.row)?;
    Ok(row)
}

/// Where the sets have a test.
fn question_row<G: Gates>(
    alloc: Global,
    gates: &mut G,
    store: &mut Store,
    question: Question,
    set: &Vec<usize>,
) -> Result<NodeList, AllocError>
    requires { AreStored (G.belongs gates.old) store.old }
    ensures keeps { Keeps G.belongs G.node_value gates.old gates.new }
    ensures stored { OnOk result (AreStored (G.belongs gates.new) store.new) }
    ensures stays { OnOk result (Stays store.old store.new) }
    ensures belongs { IfOk result (λ row. AllIn (G.belongs gates.new) row) }
    ensures answered { IfOk result (λ row. AreAnswered question (G.node_value gates.old)
        (G.node_value gates.new) store.old.matrices.items set.now.items set.now.items row) }
{
    let test = TestOperator::OfSets(question);
    asked(alloc, gates, store, test, set, set)?;
    let row = pop_row(alloc, gates, store);
    Ok(row)
}

/// Where the sets have the multiplicity.
pub fn word_row<G: Gates>(
    alloc: Global,
    gates: &mut G,
    store: &mut Store,
    word: Multiplicity,
    set: &Vec<usize>,
) -> Result<NodeList, AllocError>
    requires { AreStored (G.belongs gates.old) store.old }
    ensures keeps { Keeps G.belongs G.node_value gates.old gates.new }
    ensures stored { OnOk result (AreStored (G.belongs gates.new) store.new) }
    ensures stays { OnOk result (Stays store.old store.new) }
    ensures belongs { IfOk result (λ row. AllIn (G.belongs gates.new) row) }
    ensures word { IfOk result (λ row. HasWord word (G.node_value gates.old)
        (G.node_value gates.new) store.old.matrices.items set.now.items row) }
{
    match word {
        Multiplicity::Set => {
            let count = set.len();
            let row = constantly(alloc, gates, count, true)?;
            Ok(row)
        }
        Multiplicity::Some => {
            let row = question_row(alloc, gates, store, Question::Some, set)?;
            Ok(row)
        }
        Multiplicity::Lone => {
            let row = question_row(alloc, gates, store, Question::Lone, set)?;
            Ok(row)
        }
        Multiplicity::One => {
            let some = question_row(alloc, gates, store, Question::Some, set)?;
            let lone = question_row(alloc, gates, store, Question::Lone, set)?;
            let row = both(alloc, gates, &some, &lone)?;
            Ok(row)
        }
    }
}
