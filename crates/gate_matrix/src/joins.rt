//! Join, product and transpose of matrices.

ghost use Rattle.std.specs.Prelude.{◌≡◌, ◌<◌, ◌≤◌, ◌+◌, ◌-◌, ◌==◌, ◌&&◌, ◌||◌, ◌↔◌, ◌++◌, ◌∷◌, [], ℕ, Bool, true, List, All, length, take, drop, IfOk, OnOk};
ghost use Rattle.std.specs.List.{list_any, AllWithin};
ghost use Rattle.std.specs.List.Sorted.{IsStrictlySortedBy};
ghost use Rattle.gate_trait.specs.Built.{Keeps, Computes};
ghost use Rattle.core_tuples.specs.Sets.{tuple_cmp};
ghost use Rattle.core_tuples.specs.Index.{FitsIndex, IsNumber};
ghost use Rattle.gate_matrix.specs.declared.entry.Entry.{Entry as MatrixEntry};
ghost use Rattle.gate_matrix.specs.Matrices.{AllBelong, truth, tuples_of, has, has_row};
ghost use Rattle.gate_matrix.specs.Joined.{first_of, IsJoined, IsPaired, IsTurned};

use crate::entry::Entry;
use crate::gather::gathered;
use crate::matrix::Matrix;
use core_tuples::{Keyed, Tuple};
use gate_trait::{Gates, Node};
use std::alloc::{AllocError, Global};

/// How many entries have tuples that begin with a number below the limit; they come first.
fn bound_of(entries: &[Entry], limit: u64) -> usize
    requires sorted { IsStrictlySortedBy tuple_cmp (tuples_of entries.now) }
    requires long { All (λ e. 1 ≤ length e.tuple) entries.now }
    ensures within { result ≤ length entries.now }
    ensures below { AllWithin (λ e. first_of e < limit) entries.now 0 result }
    ensures above { AllWithin (λ e. limit ≤ first_of e) entries.now result (length entries.now) }
{
    let mut low = 0;
    let mut high = entries.len();
    while low < high {
        let middle = low + (high - low) / 2;
        if u64::from(entries[middle].tuple.numbers()[0]) < limit {
            low = middle + 1;
        } else {
            high = middle;
        }
    }
    low
}

/// The entries whose tuples begin with the number.
fn row_of(entries: &[Entry], number: u32) -> &[Entry]
    requires sorted { IsStrictlySortedBy tuple_cmp (tuples_of entries.now) }
    requires long { All (λ e. 1 ≤ length e.tuple) entries.now }
    ensures part { (i : ℕ) × (n : ℕ) × (result.now ≡ take n (drop i entries.now)) }
    ensures tests { (p : MatrixEntry → Bool) → list_any p result.now
        ≡ list_any (λ f. (first_of f == number) && p f) entries.now }
{
    let from = bound_of(entries, u64::from(number));
    let to = bound_of(entries, u64::from(number) + 1);
    &entries[from..to]
}

/// The numbers of one list and then those of another.
fn joined(alloc: Global, head: &[u32], rest: &[u32]) -> Result<Tuple, AllocError>
    ensures { IfOk result (λ t. t ≡ head.now ++ rest.now) }
{
    let mut tuple = Tuple::of(alloc, head)?;
    for number in rest {
        tuple.push(*number)?;
    }
    Ok(tuple)
}

/// Adds, for each entry, the head followed by the entry's tuple without its first numbers; such a
/// tuple is in the set where both nodes are true.
fn add_row<G: Gates>(
    alloc: Global,
    gates: &mut G,
    head: &[u32],
    node: Node,
    skip: usize,
    row: &[Entry],
    all: &mut Vec<Entry>,
) -> Result<(), AllocError>
    requires all_belong { AllBelong (G.belongs gates.old) all.old.items }
    requires node_belongs { G.belongs gates.old node }
    requires row_belongs { AllBelong (G.belongs gates.old) row.now }
    requires long { All (λ e. skip ≤ length e.tuple) row.now }
    requires fits { All (λ e. FitsIndex (head.now ++ drop skip e.tuple)) row.now }
    ensures keeps { Keeps G.belongs G.node_value gates.old gates.new }
    ensures belongs { OnOk result (AllBelong (G.belongs gates.new) all.new.items) }
    ensures columns { OnOk result ((k : ℕ) → All (λ e. length e.tuple ≡ k) all.old.items
        → All (λ e. length head.now + (length e.tuple - skip) ≡ k) row.now →
        All (λ e. length e.tuple ≡ k) all.new.items) }
    ensures numbers { OnOk result (All (λ e. All IsNumber e.tuple) all.old.items →
        All (λ e. All IsNumber e.tuple) all.new.items) }
    ensures truth { OnOk result ((x : ℕ → Bool) (t : List ℕ) →
        has (G.node_value gates.new x) all.new.items t
        ≡ (has (G.node_value gates.old x) all.old.items t
        || has_row (G.node_value gates.old x) head.now node skip row.now t)) }
{
    for entry in row {
        let both = gates.and(node, entry.node)?;
        let tuple = joined(alloc, head, &entry.tuple.numbers()[skip..])?;
        all.push(Entry {
            tuple: Keyed::new(tuple),
            node: both,
        })?;
    }
    Ok(())
}

/// The tuples `s` and then `u`, where for some number `c` the tuple `s` and then `c` is in the
/// first set, and `c` and then `u` in the second.
pub fn join<G: Gates>(
    alloc: Global,
    gates: &mut G,
    a: &Matrix,
    b: &Matrix,
) -> Result<Matrix, AllocError>
    requires a_belongs { AllBelong (G.belongs gates.old) a.now.entries }
    requires b_belongs { AllBelong (G.belongs gates.old) b.now.entries }
    requires some { 3 ≤ a.now.arity + b.now.arity }
    requires few { a.now.arity + b.now.arity ≤ 11 }
    ensures keeps { Keeps G.belongs G.node_value gates.old gates.new }
    ensures belongs { IfOk result (λ m. AllBelong (G.belongs gates.new) m.entries) }
    ensures arity { IfOk result (λ m. m.arity ≡ a.now.arity + b.now.arity - 2) }
    ensures truth { IfOk result (λ m. (x : ℕ → Bool) (t : List ℕ) →
        (truth (G.node_value gates.new x) m t ≡ true)
        ↔ IsJoined (G.node_value gates.old x) a.now b.now t) }
{
    let mut all = Vec::new(alloc);
    let left = a.entries();
    let right = b.entries();
    for entry in left {
        let numbers = entry.tuple.numbers();
        let end = numbers.len() - 1;
        let row = row_of(right, numbers[end]);
        add_row(alloc, gates, &numbers[..end], entry.node, 1, row, &mut all)?;
    }
    gathered(alloc, gates, a.arity() + b.arity() - 2, all)
}

/// The tuples of the first set, each followed by each tuple of the second.
pub fn product<G: Gates>(
    alloc: Global,
    gates: &mut G,
    a: &Matrix,
    b: &Matrix,
) -> Result<Matrix, AllocError>
    requires a_belongs { AllBelong (G.belongs gates.old) a.now.entries }
    requires b_belongs { AllBelong (G.belongs gates.old) b.now.entries }
    requires columns { a.now.arity + b.now.arity ≤ 9 }
    ensures keeps { Keeps G.belongs G.node_value gates.old gates.new }
    ensures belongs { IfOk result (λ m. AllBelong (G.belongs gates.new) m.entries) }
    ensures arity { IfOk result (λ m. m.arity ≡ a.now.arity + b.now.arity) }
    ensures truth { IfOk result (λ m. (x : ℕ → Bool) (t : List ℕ) →
        (truth (G.node_value gates.new x) m t ≡ true)
        ↔ IsPaired (G.node_value gates.old x) a.now b.now t) }
{
    let mut all = Vec::new(alloc);
    let left = a.entries();
    let right = b.entries();
    for entry in left {
        add_row(
            alloc,
            gates,
            entry.tuple.numbers(),
            entry.node,
            0,
            right,
            &mut all,
        )?;
    }
    gathered(alloc, gates, a.arity() + b.arity(), all)
}

/// The pair of these two numbers.
fn pair_of(alloc: Global, x: u32, y: u32) -> Result<Keyed, AllocError>
    requires first { IsNumber x }
    requires second { IsNumber y }
    ensures { IfOk result (λ t. t ≡ x ∷ y ∷ []) }
{
    let mut tuple = Tuple::new(alloc);
    tuple.push(x)?;
    tuple.push(y)?;
    Ok(Keyed::new(tuple))
}

/// The pairs of the set, each turned round.
pub fn transpose<G: Gates>(alloc: Global, gates: &mut G, a: &Matrix) -> Result<Matrix, AllocError>
    requires a_belongs { AllBelong (G.belongs gates.old) a.now.entries }
    requires columns { a.now.arity ≡ 2 }
    ensures keeps { Keeps G.belongs G.node_value gates.old gates.new }
    ensures belongs { IfOk result (λ m. AllBelong (G.belongs gates.new) m.entries) }
    ensures arity { IfOk result (λ m. m.arity ≡ 2) }
    ensures truth { IfOk result (λ m. (x : ℕ → Bool) (t : List ℕ) →
        (truth (G.node_value gates.new x) m t ≡ true)
        ↔ IsTurned (G.node_value gates.old x) a.now t) }
{
    let mut all = Vec::new(alloc);
    let pairs = a.entries();
    for entry in pairs {
        let numbers = entry.tuple.numbers();
        let tuple = pair_of(alloc, numbers[1], numbers[0])?;
        all.push(Entry {
            tuple,
            node: entry.node,
        })?;
    }
    gathered(alloc, gates, 2, all)
}
