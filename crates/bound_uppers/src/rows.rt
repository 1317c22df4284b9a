//! The tuples that the table gives rows of kinds.

ghost use Rattle.std.specs.Prelude.{◌≡◌, ◌⊎◌, ◌<◌, ◌≤◌, ◌+◌, ◌∷◌, [], ℕ, List, All, length, take, slice_index, IfOk, OnOk, IsTrue, ◌↔◌};
ghost use Rattle.core_tuples.specs.Sets.{In, HasJust};
ghost use Rattle.bound_uppers.specs.Kinds.{InSpan};
ghost use Rattle.bound_uppers.specs.AtomSets.{set_at, InKinds, InRows, AreColumns};

use crate::given::AtomSets;
use crate::kinds::{INTEGERS, number_at};
use crate::numbers::AtomRange;
use core_tuples::{Tuple, TupleSet, product, union};
use std::alloc::{AllocError, Global};

/// Adds a tuple of one number to a set of one column.
#[tactic(auto, using(crate::proofs::Filling::number_fits, crate::proofs::Filling::number_added))]
pub fn add_number(alloc: Global, set: &mut TupleSet, number: u32) -> Result<(), AllocError>
    requires columns { set.old.arity ≡ 1 }
    requires number { number < 16384 }
    ensures { OnOk result (HasJust set.new 1 (λ t. In t set.old ⊎ (t ≡ number ∷ []))) }
{
    let tuple = Tuple::of(alloc, &[number])?;
    set.insert(tuple)?;
    Ok(())
}

/// The numbers of a span, as a set of one column.
#[tactic(auto, using(crate::proofs::Filling::span_none, crate::proofs::Filling::span_more, crate::proofs::Filling::span_just))]
pub fn span_set(alloc: Global, span: AtomRange) -> Result<TupleSet, AllocError>
    requires { span.first + span.count ≤ 16384 }
    ensures { IfOk result (λ s. HasJust s 1 (λ t. (a : ℕ) × InSpan span a × (t ≡ a ∷ []))) }
{
    let mut set = TupleSet::empty(alloc, 1);
    for place in 0..span.count {
        add_number(alloc, &mut set, span.first + place)?;
    }
    Ok(set)
}

/// What a kind is given.
fn set_of(sets: &AtomSets, kind: u32) -> &TupleSet
    ensures { result.now ≡ set_at sets.now kind }
{
    if kind == INTEGERS {
        return &sets.integers;
    }
    if (kind as usize) < sets.sigs.len() {
        &sets.sigs[kind as usize]
    } else {
        &sets.none
    }
}

/// The tuples of one column of a kind.
#[tactic(auto, using(crate::proofs::Filling::kind_just))]
fn kind_set(alloc: Global, sets: &AtomSets, kind: u32) -> Result<TupleSet, AllocError>
    requires sets { AreColumns sets.now }
    ensures { IfOk result (λ s. HasJust s 1 (InKinds sets.now (kind ∷ []))) }
{
    let found = set_of(sets, kind);
    let set = found.copy(alloc)?;
    Ok(set)
}

/// The set with a further column, of a kind.
fn longer(alloc: Global, sets: &AtomSets, set: &TupleSet, kind: u32) -> Result<TupleSet, AllocError>
    requires sets { AreColumns sets.now }
    requires few { set.now.arity < 9 }
    ensures { IfOk result (λ s. (row : List ℕ) (n : ℕ) → n < length row → kind ≡ slice_index row n
        → HasJust set.now n (InKinds sets.now (take n row)) →
        HasJust s (n + 1) (InKinds sets.now (take (n + 1) row))) }
{
    let column = set_of(sets, kind);
    let more = product(alloc, set, column)?;
    Ok(more)
}

/// The tuples of a row of kinds.
#[tactic(auto, using(crate::proofs::Filling::first_kind, crate::proofs::Filling::whole_row))]
fn row_set(alloc: Global, sets: &AtomSets, row: &Tuple) -> Result<TupleSet, AllocError>
    requires sets { AreColumns sets.now }
    requires least { 1 ≤ length row.now }
    requires most { length row.now ≤ 9 }
    ensures { IfOk result (λ s. HasJust s (length row.now) (InKinds sets.now row.now)) }
{
    let kinds = row.numbers();
    let mut set = kind_set(alloc, sets, kinds[0])?;
    for place in 1..kinds.len() {
        let kind = number_at(kinds, place);
        let more = longer(alloc, sets, &set, kind)?;
        set = more;
    }
    Ok(set)
}

/// The tuples of all rows. There are this many columns.
#[tactic(auto, using(crate::proofs::Filling::rows_none, crate::proofs::Filling::rows_one, crate::proofs::Filling::rows_both, crate::proofs::Filling::left_rows, crate::proofs::Filling::right_rows, crate::proofs::Filling::row_columns))]
pub fn rows_set(
    alloc: Global,
    arity: u32,
    sets: &AtomSets,
    rows: &[Tuple],
) -> Result<TupleSet, AllocError>
    requires sets { AreColumns sets.now }
    requires least { 1 ≤ arity }
    requires most { arity ≤ 9 }
    requires columns { All (λ r. length r ≡ arity) rows.now }
    ensures { IfOk result (λ s. HasJust s arity (InRows sets.now rows.now)) }
{
    if rows.is_empty() {
        return Ok(TupleSet::empty(alloc, arity));
    }
    if rows.len() == 1 {
        let only = row_set(alloc, sets, &rows[0])?;
        return Ok(only);
    }
    let (left, right) = rows.split_at(rows.len() / 2);
    let first = rows_set(alloc, arity, sets, left)?;
    let second = rows_set(alloc, arity, sets, right)?;
    let both = union(alloc, &first, &second)?;
    Ok(both)
}

/// Whether a tuple is of the kind of a row of one column.
#[tactic(auto, using(crate::proofs::Filling::row_holds_just))]
fn row_holds(sets: &AtomSets, row: &Tuple, tuple: &Tuple) -> bool
    requires sets { AreColumns sets.now }
    requires one { length row.now ≡ 1 }
    ensures { IsTrue result ↔ InKinds sets.now row.now tuple.now }
{
    let kinds = row.numbers();
    let set = set_of(sets, kinds[0]);
    let among = set.contains(tuple);
    among
}

/// Whether a tuple is of the kind of one of some rows of one column.
#[tactic(auto, using(crate::proofs::Filling::holds_none, crate::proofs::Filling::holds_yes, crate::proofs::Filling::holds_more, crate::proofs::Filling::holds_not, crate::proofs::Filling::row_columns))]
pub fn rows_hold(sets: &AtomSets, rows: &[Tuple], tuple: &Tuple) -> bool
    requires sets { AreColumns sets.now }
    requires ones { All (λ r. length r ≡ 1) rows.now }
    ensures { IsTrue result ↔ InRows sets.now rows.now tuple.now }
{
    for row in rows {
        if row_holds(sets, row, tuple) {
            return true;
        }
    }
    false
}
