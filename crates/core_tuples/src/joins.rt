//! Join, product and transpose of sets of tuples.

ghost use Rattle.std.specs.Prelude.{◌≡◌, ◌<◌, ◌≤◌, ◌+◌, ◌-◌, ◌==◌, ◌&&◌, ◌||◌, ◌++◌, ◌∷◌, [], ℕ, Bool, List, All, length, take, drop, slice_index, IfOk, OnOk};
ghost use Rattle.std.specs.List.{list_any, AllWithin};
ghost use Rattle.std.specs.List.Sorted.{IsStrictlySortedBy};
ghost use Rattle.core_tuples.specs.Sets.{tuple_cmp, HasJust, IsJoined, IsPaired, IsTurned};
ghost use Rattle.core_tuples.specs.Merged.{any_joined, any_paired};
ghost use Rattle.core_tuples.specs.Index.{FitsIndex, IsNumber};

use crate::keyed::Keyed;
use crate::rows::set_of;
use crate::set::TupleSet;
use crate::tuple::Tuple;
use std::alloc::{AllocError, Global};

/// How many tuples begin with a number below the limit; they come first.
fn bound_of(tuples: &[Keyed], limit: u64) -> usize
    requires sorted { IsStrictlySortedBy tuple_cmp tuples.now }
    requires long { All (λ t. 1 ≤ length t) tuples.now }
    ensures within { result ≤ length tuples.now }
    ensures below { AllWithin (λ t. slice_index t 0 < limit) tuples.now 0 result }
    ensures above { AllWithin (λ t. limit ≤ slice_index t 0) tuples.now result (length tuples.now) }
{
    let mut low = 0;
    let mut high = tuples.len();
    while low < high {
        let middle = low + (high - low) / 2;
        if u64::from(tuples[middle].numbers()[0]) < limit {
            low = middle + 1;
        } else {
            high = middle;
        }
    }
    low
}

/// The tuples that begin with the number.
fn row_of(tuples: &[Keyed], number: u32) -> &[Keyed]
    requires sorted { IsStrictlySortedBy tuple_cmp tuples.now }
    requires long { All (λ t. 1 ≤ length t) tuples.now }
    ensures part { (i : ℕ) × (n : ℕ) × (result.now ≡ take n (drop i tuples.now)) }
    ensures tests { (p : List ℕ → Bool) → list_any p result.now
        ≡ list_any (λ t. (slice_index t 0 == number) && p t) tuples.now }
{
    let from = bound_of(tuples, u64::from(number));
    let to = bound_of(tuples, u64::from(number) + 1);
    &tuples[from..to]
}

/// The numbers of one list and then those of another.
fn joined(alloc: Global, head: &[u32], rest: &[u32]) -> Result<Tuple, AllocError>
    ensures { IfOk result (λ t. t ≡ head.now ++ rest.now) }
{
    let mut tuple = Tuple::of(alloc, head)?;
    for number in rest {
        tuple.push(*number)?;
    }
    Ok(tuple)
}

/// Adds, for each tuple of a row, the head followed by the tuple without its first numbers.
fn add_row(
    alloc: Global,
    head: &[u32],
    skip: usize,
    row: &[Keyed],
    all: &mut Vec<Keyed>,
) -> Result<(), AllocError>
    requires long { All (λ t. skip ≤ length t) row.now }
    requires fits { All (λ t. FitsIndex (head.now ++ drop skip t)) row.now }
    ensures columns { OnOk result ((k : ℕ) → All (λ t. length t ≡ k) all.old.items
        → All (λ t. length head.now + (length t - skip) ≡ k) row.now →
        All (λ t. length t ≡ k) all.new.items) }
    ensures numbers { OnOk result (All (λ t. All IsNumber t) all.old.items →
        All (λ t. All IsNumber t) all.new.items) }
    ensures tests { OnOk result ((p : List ℕ → Bool) → list_any p all.new.items
        ≡ (list_any p all.old.items || list_any (λ t. p (head.now ++ drop skip t)) row.now)) }
{
    for tuple in row {
        let tuple = joined(alloc, head, &tuple.numbers()[skip..])?;
        all.push(Keyed::new(tuple))?;
    }
    Ok(())
}

/// What a tuple of the first set and a tuple of the second make where the first ends in the number
/// with which the second begins: that number is left out.
pub fn join(alloc: Global, a: &TupleSet, b: &TupleSet) -> Result<TupleSet, AllocError>
    requires some { 3 ≤ a.now.arity + b.now.arity }
    requires few { a.now.arity + b.now.arity ≤ 11 }
    ensures { IfOk result (λ s. HasJust s (a.now.arity + b.now.arity - 2) (IsJoined a.now b.now)) }
{
    let mut all = Vec::new(alloc);
    let left = a.keyed();
    let right = b.keyed();
    for tuple in left {
        let numbers = tuple.numbers();
        let end = numbers.len() - 1;
        let row = row_of(right, numbers[end]);
        add_row(alloc, &numbers[..end], 1, row, &mut all)?;
    }
    set_of(alloc, a.arity() + b.arity() - 2, all)
}

/// The tuples of the first set, each followed by each tuple of the second.
pub fn product(alloc: Global, a: &TupleSet, b: &TupleSet) -> Result<TupleSet, AllocError>
    requires { a.now.arity + b.now.arity ≤ 9 }
    ensures { IfOk result (λ s. HasJust s (a.now.arity + b.now.arity) (IsPaired a.now b.now)) }
{
    let mut all = Vec::new(alloc);
    let left = a.keyed();
    let right = b.keyed();
    for tuple in left {
        add_row(alloc, tuple.numbers(), 0, right, &mut all)?;
    }
    set_of(alloc, a.arity() + b.arity(), all)
}

/// The pair of these two numbers.
fn pair_of(alloc: Global, x: u32, y: u32) -> Result<Keyed, AllocError>
    requires first { IsNumber x }
    requires second { IsNumber y }
    ensures { IfOk result (λ t. t ≡ x ∷ y ∷ []) }
{
    let mut tuple = Tuple::new(alloc);
    tuple.push(x)?;
    tuple.push(y)?;
    Ok(Keyed::new(tuple))
}

/// The pairs of the set, each turned round.
pub fn transpose(alloc: Global, a: &TupleSet) -> Result<TupleSet, AllocError>
    requires { a.now.arity ≡ 2 }
    ensures { IfOk result (λ s. HasJust s 2 (IsTurned a.now)) }
{
    let mut all = Vec::new(alloc);
    let pairs = a.keyed();
    for tuple in pairs {
        let numbers = tuple.numbers();
        all.push(pair_of(alloc, numbers[1], numbers[0])?)?;
    }
    set_of(alloc, 2, all)
}
