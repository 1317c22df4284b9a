//! Union, intersection and difference: one walk along both sets.

ghost use Rattle.std.specs.Prelude.{◌≡◌, ◌⊎◌, ℕ, List, [], ◌∷◌, ◌++◌, ◌<◌, ◌≤◌, ◌+◌, drop, length, All, IfOk, OnOk, if◌then◌else◌};
ghost use Rattle.core_tuples.specs.Sets.{In, HasJust, IsTupleSet};
ghost use Rattle.core_tuples.specs.Merged.{heads, has, keeps};

use crate::keyed::Keyed;
use crate::set::TupleSet;
use std::alloc::{AllocError, Global};
use std::cmp::Ordering;

/// Which tuples a merge of two sets keeps.
#[derive(Clone, Copy, Debug)]
pub struct Kept {
    /// Those that are in the first set alone.
    pub first: bool,
    /// Those that are in both sets.
    pub both: bool,
    /// Those that are in the second set alone.
    pub second: bool,
}

/// Which list goes on with the lower tuple, where they go on at these places; a list that is at its
/// end counts as above all tuples.
fn heads_at(a: &[Keyed], i: usize, b: &[Keyed], j: usize) -> Ordering
    requires columns { (k : ℕ) × All (λ t. length t ≡ k) a.now × All (λ t. length t ≡ k) b.now }
    requires first { i ≤ length a.now }
    requires second { j ≤ length b.now }
    ensures { result ≡ heads (drop i a.now) (drop j b.now) }
{
    if i == a.len() {
        if j == b.len() {
            Ordering::Equal
        } else {
            Ordering::Greater
        }
    } else if j == b.len() {
        Ordering::Less
    } else {
        a[i].compare(&b[j])
    }
}

/// Adds a copy of the tuple, if it is kept.
pub(crate) fn add_if(
    alloc: Global,
    kept: bool,
    tuple: &Keyed,
    all: &mut Vec<Keyed>,
) -> Result<(), AllocError>
    ensures { OnOk result (all.new.items ≡ all.old.items ++ (if kept then tuple.now ∷ [] else [])) }
{
    if kept {
        all.push(tuple.copy(alloc)?)?;
    }
    Ok(())
}

/// The tuples of two sets that are kept.
fn merge(
    alloc: Global,
    arity: u32,
    kept: Kept,
    a: &[Keyed],
    b: &[Keyed],
) -> Result<TupleSet, AllocError>
    requires first { IsTupleSet (record { arity = arity; tuples = a.now }) }
    requires second { IsTupleSet (record { arity = arity; tuples = b.now }) }
    ensures arity { IfOk result (λ s. s.arity ≡ arity) }
    ensures truth { IfOk result (λ s. (t : List ℕ) →
        has s.tuples t ≡ keeps kept (has a.now t) (has b.now t)) }
{
    let mut all = Vec::new(alloc);
    let mut i = 0;
    let mut j = 0;
    while i < a.len() || j < b.len() {
        match heads_at(a, i, b, j) {
            Ordering::Less => {
                add_if(alloc, kept.first, &a[i], &mut all)?;
                i += 1;
            }
            Ordering::Greater => {
                add_if(alloc, kept.second, &b[j], &mut all)?;
                j += 1;
            }
            Ordering::Equal => {
                add_if(alloc, kept.both, &a[i], &mut all)?;
                i += 1;
                j += 1;
            }
        }
    }
    Ok(TupleSet::sorted(arity, all))
}

/// The tuples that are in one of the two sets.
pub fn union(alloc: Global, a: &TupleSet, b: &TupleSet) -> Result<TupleSet, AllocError>
    requires { a.now.arity ≡ b.now.arity }
    ensures { IfOk result (λ s. HasJust s a.now.arity (λ t. In t a.now ⊎ In t b.now)) }
{
    let kept = Kept {
        first: true,
        both: true,
        second: true,
    };
    merge(alloc, a.arity(), kept, a.keyed(), b.keyed())
}

/// The tuples that are in both sets.
pub fn intersection(alloc: Global, a: &TupleSet, b: &TupleSet) -> Result<TupleSet, AllocError>
    requires { a.now.arity ≡ b.now.arity }
    ensures { IfOk result (λ s. HasJust s a.now.arity (λ t. In t a.now × In t b.now)) }
{
    let kept = Kept {
        first: false,
        both: true,
        second: false,
    };
    merge(alloc, a.arity(), kept, a.keyed(), b.keyed())
}

/// The tuples of the first set that are not in the second.
pub fn difference(alloc: Global, a: &TupleSet, b: &TupleSet) -> Result<TupleSet, AllocError>
    requires { a.now.arity ≡ b.now.arity }
    ensures { IfOk result (λ s. HasJust s a.now.arity (λ t. In t a.now × (¬ (In t b.now)))) }
{
    let kept = Kept {
        first: true,
        both: false,
        second: false,
    };
    merge(alloc, a.arity(), kept, a.keyed(), b.keyed())
}
