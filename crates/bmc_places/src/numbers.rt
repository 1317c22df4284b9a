//! Integers at all places: what operators give of sets and of integers, and comparisons.

ghost use Rattle.std.specs.Prelude.{◌≡◌, ◌↔◌, ◌<◌, ◌≤◌, ◌^◌, ◌%◌, ◌∷◌, [], ◌++◌, ℕ, Bool, true, List, Some, IfOk, OnOk, length, slice_get};
ghost use Rattle.gate_trait.specs.declared.node.Node.{Node as CircuitNode};
ghost use Rattle.gate_trait.specs.Built.{Keeps, AllIn};
ghost use Rattle.core_meaning.specs.Integers.{low_bits, wrap, result_of};
ghost use Rattle.core_meaning.specs.Operators.{IsCount};
ghost use Rattle.core_meaning.specs.World.{World};
ghost use Rattle.gate_integers.specs.Numbers.{number, signed};
ghost use Rattle.gate_matrix.specs.Matrices.{MatrixEntries};
ghost use Rattle.gate_operators.specs.Sets.{set_of};
ghost use Rattle.gate_numbers.specs.Numbers.{AreSo};
ghost use Rattle.bmc_stack.specs.Stored.{AreStored};
ghost use Rattle.bmc_places.specs.Numbers.{MakesInteger, AreIntegers, ComparesAt, AreCompared, IsSame};
ghost use Rattle.bmc_places.specs.Stores.{Extends};

use crate::totals::{power_of, single_set, totaled};
use bmc_stack::{Store, add_matrix};
use bmc_windows::{found_at, moved, pair_at, pairs_of, repeated};
use core_tree::{Comparison, IntOp};
use core_tuples::Universe;
use gate_integers::Bits;
use gate_numbers::{calculate, compare, count_of};
use gate_trait::{Gates, Node, NodeList};
use std::alloc::{AllocError, Global};

/// An operator that takes or gives integers. That on one set or integer is given it twice.
#[derive(Clone, Copy, Debug, PartialEq, Eq)]
pub enum IntegerOperator {
    /// The number of tuples of a set.
    Count,
    /// The sum of the integers in a set.
    Total,
    /// One of the five operators.
    Of(IntOp),
    /// The set of one integer.
    AsSet,
}

/// Adds an integer, and gives its number.
#[tactic(auto, using(bmc_windows::proofs::PushLemmas::push_kept))]
pub fn add_bits<G: Gates>(gates: &G, store: &mut Store, bits: Bits) -> Result<usize, AllocError>
    requires store { AreStored (G.belongs gates.now) store.old }
    requires bits { AllIn (G.belongs gates.now) bits }
    ensures stored { OnOk result (AreStored (G.belongs gates.now) store.new) }
    ensures extends { OnOk result (Extends store.old store.new) }
    ensures number { IfOk result (λ k. k ≡ length store.old.integers.items) }
    ensures added { OnOk result (store.new.integers.items ≡ store.old.integers.items
        ++ bits ∷ []) }
{
    // for the proof: only the clauses name the gates
    let _ = gates;
    let number = store.integers.len();
    store.integers.push(bits)?;
    Ok(number)
}

/// The number of tuples of a set. Its error is want of memory, or that there is no set of this number.
fn counted<G: Gates>(
    alloc: Global,
    gates: &mut G,
    store: &Store,
    width: u32,
    a: usize,
) -> Result<Bits, AllocError>
    requires { AreStored (G.belongs gates.old) store.now }
    ensures keeps { Keeps G.belongs G.node_value gates.old gates.new }
    ensures belongs { IfOk result (λ s. AllIn (G.belongs gates.new) s) }
    ensures width { IfOk result (λ s. length s ≡ width) }
    ensures value { IfOk result (λ s. (p : MatrixEntries) →
        slice_get store.now.matrices.items a ≡ Some p → (x : ℕ → Bool) (w : World) →
        w.bits ≡ width → IsCount w (set_of (G.node_value gates.old x) p)
        (signed (G.node_value gates.new x) s)) }
{
    if a >= store.matrices.len() {
        return Err(AllocError);
    }
    let made = count_of(alloc, gates, width, &store.matrices[a])?;
    Ok(made)
}

/// What an operator gives of two integers. Its error is want of memory, or that there are no integers of
/// these numbers, or of other widths.
fn calculated<G: Gates>(
    alloc: Global,
    gates: &mut G,
    store: &Store,
    op: IntOp,
    a: usize,
    b: usize,
) -> Result<Bits, AllocError>
    requires { AreStored (G.belongs gates.old) store.now }
    ensures keeps { Keeps G.belongs G.node_value gates.old gates.new }
    ensures belongs { IfOk result (λ s. AllIn (G.belongs gates.new) s) }
    ensures value { IfOk result (λ s. (p q : List CircuitNode) →
        slice_get store.now.integers.items a ≡ Some p →
        slice_get store.now.integers.items b ≡ Some q →
        (length s ≡ length p) × ((x : ℕ → Bool) → signed (G.node_value gates.new x) s
        ≡ wrap (length p) (result_of op (signed (G.node_value gates.old x) p)
        (signed (G.node_value gates.old x) q)))) }
{
    if a >= store.integers.len() || b >= store.integers.len() {
        return Err(AllocError);
    }
    let made = calculate(alloc, gates, op, &store.integers[a], &store.integers[b])?;
    Ok(made)
}

/// Adds what the operator gives, and gives its number.
fn make_at<G: Gates>(
    alloc: Global,
    gates: &mut G,
    store: &mut Store,
    universe: Universe,
    op: IntegerOperator,
    pair: (usize, usize),
) -> Result<usize, AllocError>
    requires { AreStored (G.belongs gates.old) store.old }
    ensures keeps { Keeps G.belongs G.node_value gates.old gates.new }
    ensures stored { OnOk result (AreStored (G.belongs gates.new) store.new) }
    ensures extends { OnOk result (Extends store.old store.new) }
    ensures makes { IfOk result (λ k. MakesInteger op universe (G.node_value gates.old)
        (G.node_value gates.new) store.old store.new pair k) }
{
    match op {
        IntegerOperator::Count => {
            let new = counted(alloc, gates, store, universe.bits, pair.0)?;
            let number = add_bits(gates, store, new)?;
            Ok(number)
        }
        IntegerOperator::Total => {
            let new = totaled(alloc, gates, store, universe, pair.0)?;
            let number = add_bits(gates, store, new)?;
            Ok(number)
        }
        IntegerOperator::AsSet => {
            let new = single_set(alloc, gates, store, universe, pair.0)?;
            let number = add_matrix(gates, store, new)?;
            Ok(number)
        }
        IntegerOperator::Of(op) => {
            let new = calculated(alloc, gates, store, op, pair.0, pair.1)?;
            let number = add_bits(gates, store, new)?;
            Ok(number)
        }
    }
}

/// What the operator gives of each of these pairs.
fn made_of<G: Gates>(
    alloc: Global,
    gates: &mut G,
    store: &mut Store,
    universe: Universe,
    op: IntegerOperator,
    pairs: &[(usize, usize)],
) -> Result<Vec<usize>, AllocError>
    requires { AreStored (G.belongs gates.old) store.old }
    ensures keeps { Keeps G.belongs G.node_value gates.old gates.new }
    ensures stored { OnOk result (AreStored (G.belongs gates.new) store.new) }
    ensures extends { OnOk result (Extends store.old store.new) }
    ensures made { IfOk result (λ numbers. (j : ℕ) (pair : ℕ × ℕ) →
        slice_get pairs.now j ≡ Some pair → (k : ℕ) × (slice_get numbers.items j ≡ Some k)
        × MakesInteger op universe (G.node_value gates.old) (G.node_value gates.new) store.old
        store.new pair k) }
{
    let mut numbers = Vec::new(alloc);
    for place in 0..pairs.len() {
        let pair = pair_at(pairs, place);
        let number = make_at(alloc, gates, store, universe, op, pair)?;
        numbers.push(number)?;
    }
    Ok(numbers)
}

/// What the operator gives at each place: what is given of the same pair is built once.
pub fn made_integers<G: Gates>(
    alloc: Global,
    gates: &mut G,
    store: &mut Store,
    universe: Universe,
    op: IntegerOperator,
    a: &[usize],
    b: &[usize],
) -> Result<Vec<usize>, AllocError>
    requires { AreStored (G.belongs gates.old) store.old }
    ensures keeps { Keeps G.belongs G.node_value gates.old gates.new }
    ensures stored { OnOk result (AreStored (G.belongs gates.new) store.new) }
    ensures extends { OnOk result (Extends store.old store.new) }
    ensures made { IfOk result (λ v. AreIntegers op universe (G.node_value gates.old)
        (G.node_value gates.new) store.old store.new a.now b.now v.items) }
{
    let pairs = pairs_of(alloc, a, b)?;
    let numbers = made_of(alloc, gates, store, universe, op, &pairs.pairs)?;
    let row = moved(alloc, &numbers, &pairs.row)?;
    Ok(row)
}

/// Whether two integers compare so. Its error is want of memory, or that there are no integers of these
/// numbers, or of other widths.
fn compared<G: Gates>(
    alloc: Global,
    gates: &mut G,
    store: &Store,
    op: Comparison,
    a: usize,
    b: usize,
) -> Result<Node, AllocError>
    requires { AreStored (G.belongs gates.old) store.now }
    ensures keeps { Keeps G.belongs G.node_value gates.old gates.new }
    ensures belongs { IfOk result (λ n. G.belongs gates.new n) }
    ensures says { IfOk result (λ n. (p q : List CircuitNode) →
        slice_get store.now.integers.items a ≡ Some p →
        slice_get store.now.integers.items b ≡ Some q → (x : ℕ → Bool) →
        (G.node_value gates.new x n ≡ true) ↔ AreSo op (signed (G.node_value gates.old x) p)
        (signed (G.node_value gates.old x) q)) }
{
    if a >= store.integers.len() || b >= store.integers.len() {
        return Err(AllocError);
    }
    let made = compare(alloc, gates, op, &store.integers[a], &store.integers[b])?;
    Ok(made)
}

/// Adds whether the integers at a place compare so.
fn add_compared<G: Gates>(
    alloc: Global,
    gates: &mut G,
    store: &Store,
    op: Comparison,
    a: &[usize],
    b: &[usize],
    place: usize,
    row: &mut NodeList,
) -> Result<(), AllocError>
    requires stored { AreStored (G.belongs gates.old) store.now }
    requires row { AllIn (G.belongs gates.old) row.old }
    ensures keeps { Keeps G.belongs G.node_value gates.old gates.new }
    ensures belongs { AllIn (G.belongs gates.new) row.new }
    ensures says { OnOk result ((n : CircuitNode) × (row.new ≡ row.old ++ n ∷ [])
        × G.belongs gates.new n
        × ComparesAt op (G.node_value gates.old) (G.node_value gates.new) store.now.integers.items
        a.now b.now place n) }
{
    let first = found_at(a, place);
    let second = found_at(b, place);
    let node = compared(alloc, gates, store, op, first, second)?;
    row.push(node)?;
    Ok(())
}

/// Where the integers at so many places compare so.
pub fn compared_row<G: Gates>(
    alloc: Global,
    gates: &mut G,
    store: &Store,
    op: Comparison,
    a: &[usize],
    b: &[usize],
    count: usize,
) -> Result<NodeList, AllocError>
    requires { AreStored (G.belongs gates.old) store.now }
    ensures keeps { Keeps G.belongs G.node_value gates.old gates.new }
    ensures belongs { IfOk result (λ row. AllIn (G.belongs gates.new) row) }
    ensures compared { IfOk result (λ row. AreCompared op (G.node_value gates.old)
        (G.node_value gates.new) store.now.integers.items a.now b.now count row) }
{
    let mut row = NodeList::new(alloc);
    for place in 0..count {
        add_compared(alloc, gates, store, op, a, b, place, &mut row)?;
    }
    Ok(row)
}

/// The low bits of an integer, in two's complement.
#[tactic(auto, using(crate::proofs::BitLaws::low_nonneg, crate::proofs::BitLaws::low_negative))]
fn low_of(bits: u32, number: i64) -> u32
    requires { bits ≤ 12 }
    ensures number { result ≡ low_bits bits number }
    ensures below { result < 2 ^ bits }
{
    let count = u64::from(power_of(bits));
    if number >= 0 {
        (number.unsigned_abs() % count) as u32
    } else {
        (count - 1 - (number.unsigned_abs() - 1) % count) as u32
    }
}

/// The constant bits of a number, the least first, as far as they have room.
fn number_bits<G: Gates>(alloc: Global, gates: &G, low: u32, width: u32) -> Result<Bits, AllocError>
    ensures belongs { IfOk result (λ b. AllIn (G.belongs gates.now) b) }
    ensures width { IfOk result (λ b. length b ≡ width) }
    ensures value { IfOk result (λ b. (x : ℕ → Bool) →
        number (G.node_value gates.now x) b ≡ low % 2 ^ width) }
{
    let mut bits = Bits::new(alloc);
    let mut left = low;
    for _bit in 0..width {
        let odd = left % 2 == 1;
        bits.push(gates.constant(odd))?;
        left = left / 2;
    }
    Ok(bits)
}

/// The same integer, wrapped, at each of so many places. Its error is want of memory, or more than 12 bits.
pub fn constant_integers<G: Gates>(
    alloc: Global,
    gates: &G,
    store: &mut Store,
    number: i64,
    width: u32,
    count: usize,
) -> Result<Vec<usize>, AllocError>
    requires { AreStored (G.belongs gates.now) store.old }
    ensures stored { OnOk result (AreStored (G.belongs gates.now) store.new) }
    ensures extends { OnOk result (Extends store.old store.new) }
    ensures constant { IfOk result (λ v. IsSame (G.node_value gates.now) store.new.integers.items
        width number count v.items) }
{
    if width > 12 {
        return Err(AllocError);
    }
    let low = low_of(width, number);
    let bits = number_bits(alloc, gates, low, width)?;
    let made = add_bits(gates, store, bits)?;
    let row = repeated(alloc, made, count)?;
    Ok(row)
}
