//! A set made of tuples that were gathered in any order.

ghost use Rattle.std.specs.Prelude.{◌≡◌, ◌≢◌, ◌↔◌, ◌+◌, ◌<◌, ◌≤◌, ℕ, List, [], All, length, IfOk, IsTrue, slice_index_or};
ghost use Rattle.std.specs.List.Sorted.{IsNonDecreasingBy};
ghost use Rattle.core_tuples.specs.Merged.{has};
ghost use Rattle.core_tuples.specs.Index.{IsNumber, index_of};

use crate::keyed::Keyed;
use crate::merge::add_if;
use crate::set::TupleSet;
use std::alloc::{AllocError, Global};

/// The set of the tuples, in any order and maybe repeated.
pub(crate) fn set_of(alloc: Global, arity: u32, tuples: Vec<Keyed>) -> Result<TupleSet, AllocError>
    requires least { 1 ≤ arity }
    requires most { arity ≤ 9 }
    requires columns { All (λ t. length t ≡ arity) tuples.items }
    requires numbers { All (λ t. All IsNumber t) tuples.items }
    ensures arity { IfOk result (λ s. s.arity ≡ arity) }
    ensures truth { IfOk result (λ s. (t : List ℕ) → has s.tuples t ≡ has tuples.items t) }
{
    let mut tuples = tuples;
    tuples.sort_by_key(|tuple: &Keyed| tuple.index())?;
    distinct(alloc, arity, &tuples)
}

/// The set of the tuples, which are in order and maybe repeated.
fn distinct(alloc: Global, arity: u32, tuples: &[Keyed]) -> Result<TupleSet, AllocError>
    requires least { 1 ≤ arity }
    requires most { arity ≤ 9 }
    requires columns { All (λ t. length t ≡ arity) tuples.now }
    requires numbers { All (λ t. All IsNumber t) tuples.now }
    requires order { IsNonDecreasingBy index_of tuples.now }
    ensures arity { IfOk result (λ s. s.arity ≡ arity) }
    ensures truth { IfOk result (λ s. (t : List ℕ) → has s.tuples t ≡ has tuples.now t) }
{
    let mut kept = Vec::new(alloc);
    for place in 0..tuples.len() {
        add_if(alloc, is_last(tuples, place), &tuples[place], &mut kept)?;
    }
    Ok(TupleSet::sorted(arity, kept))
}

/// Whether the tuple at the place is the last of those that are the same.
fn is_last(tuples: &[Keyed], place: usize) -> bool
    requires { place < length tuples.now }
    ensures { IsTrue result ↔ (place + 1 < length tuples.now →
        index_of (slice_index_or tuples.now place [])
        ≢ index_of (slice_index_or tuples.now (place + 1) [])) }
{
    place + 1 == tuples.len() || tuples[place].index() != tuples[place + 1].index()
}
