//! Where a tuple stands among entries in order, by binary search.

ghost use Rattle.std.specs.Prelude.{◌≡◌, ◌↔◌, ◌<◌, ℕ, All, length, IfOk, IfErr, IsTrue, slice_get, Some};
ghost use Rattle.std.specs.List.Sorted.{IsStrictlySortedBy};
ghost use Rattle.core_tuples.specs.Sets.{tuple_cmp, IsGap};
ghost use Rattle.core_tuples.specs.Index.{IsNumber, FitsIndex};
ghost use Rattle.gate_matrix.specs.Matrices.{tuples_of, node_at};

use crate::entry::Entry;
use core_tuples::{Tuple, index_of_numbers};
use gate_trait::Node;
use std::cmp::Ordering;

/// Whether the tuple has this many columns and numbers below 16,384.
pub(crate) fn is_row(tuple: &Tuple, arity: u32) -> bool
    ensures { IsTrue result ↔ ((length tuple.now ≡ arity) × All IsNumber tuple.now) }
{
    // Atoms, S66: there are at most 16,384 atoms and integers.
    tuple.numbers().len() == arity as usize && tuple.numbers().iter().all(|x| *x < 16384)
}

/// Where the tuple is, or else where it would be put.
pub(crate) fn place_of(entries: &[Entry], tuple: &Tuple) -> Result<usize, usize>
    requires sorted { IsStrictlySortedBy tuple_cmp (tuples_of entries.now) }
    requires columns { All (λ e. length e.tuple ≡ length tuple.now) entries.now }
    requires fits { FitsIndex tuple.now }
    ensures found { IfOk result (λ i. slice_get (tuples_of entries.now) i ≡ Some tuple.now) }
    ensures gap { IfErr result (λ i. IsGap (tuples_of entries.now) tuple.now i) }
{
    let index = index_of_numbers(tuple.numbers());
    let mut low = 0;
    let mut high = entries.len();
    while low < high {
        let middle = low + (high - low) / 2;
        match entries[middle].tuple.against(tuple, index) {
            Ordering::Less => low = middle + 1,
            Ordering::Greater => high = middle,
            Ordering::Equal => return Ok(middle),
        }
    }
    Err(low)
}

/// The tuple's node, if it has one, among entries in order.
pub(crate) fn node_of(entries: &[Entry], tuple: &Tuple) -> Option<Node>
    requires sorted { IsStrictlySortedBy tuple_cmp (tuples_of entries.now) }
    requires columns { All (λ e. length e.tuple ≡ length tuple.now) entries.now }
    requires fits { FitsIndex tuple.now }
    ensures { result ≡ node_at entries.now tuple.now }
{
    match place_of(entries, tuple) {
        Ok(place) => Some(entries[place].node),
        Err(_) => None,
    }
}
