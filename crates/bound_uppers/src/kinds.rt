//! Of which kinds the members of a relation are, column by column.
//!
//! A kind is the number of a sig, or the greatest number for the integers: by the top-level sigs
//! that of a top-level sig, in the table that of the sig as which a sig stands there.

ghost use Rattle.std.specs.Prelude.{◌≡◌, ◌↔◌, ◌∷◌, ◌++◌, [], ℕ, suc, List, Contains, IfOk, OnOk, IsTrue, Some, ◌<◌, slice_get, slice_index, length};
ghost use Rattle.std.specs.List.Sorted.{IsStrictlySortedBy};
ghost use Rattle.core_tuples.specs.Sets.{tuple_cmp};
ghost use Rattle.core_tree.specs.declared.model.Sig.{Sig};
ghost use Rattle.core_tree.specs.declared.model.Column.TheVariants.{Sig as SigColumn};
ghost use Rattle.bound_owners.specs.Tops.{top_at};
ghost use Rattle.bound_uppers.specs.Kinds.{sig_kind, kind_at, row_kinds_of, rows_kinds_of, sig_kinds_of, HasRows};
ghost use Rattle.core_tree.specs.Types.{parent_rows, sig_rows, standing};
ghost use Rattle.std.specs.List.{flat_map};
ghost use Rattle.bound_uppers.specs.Levels.{InLevel, HasMore, IsUp};

use bound_owners::tops::{standing_of, top_of};
use core_tree::{Column, Row, Sig, SigKind};
use core_tuples::Tuple;
use std::alloc::{AllocError, Global};

/// The kind of the integers.
pub const INTEGERS: u32 = u32::MAX;

/// The kind of the members of a sig as which others stand.
fn kind_of_top(top: u32) -> u32
    ensures { result ≡ sig_kind top }
{
    if top == INTEGERS { INTEGERS - 1 } else { top }
}

/// The kind of a column of a type.
fn kind_of(ups: &[u32], column: Column) -> u32
    ensures { result ≡ kind_at ups.now column }
{
    match column {
        Column::Int => INTEGERS,
        Column::Sig(sig) => kind_of_top(top_of(ups, sig)),
    }
}

/// The column at a place.
fn column_at(row: &[Column], place: usize) -> Column
    requires { place < length row.now }
    ensures { slice_get row.now place ≡ Some result }
{
    row[place]
}

/// The kinds of one row of a type.
#[tactic(auto, using(crate::proofs::Listing::map_none, crate::proofs::Listing::map_next, crate::proofs::Listing::map_whole))]
fn row_kinds(alloc: Global, ups: &[u32], row: &[Column]) -> Result<Tuple, AllocError>
    ensures { IfOk result (λ t. t ≡ row_kinds_of ups.now row.now) }
{
    let mut kinds = Tuple::new(alloc);
    for place in 0..row.len() {
        let column = column_at(row, place);
        let kind = kind_of(ups, column);
        kinds.push(kind)?;
    }
    Ok(kinds)
}

/// The rows without repeats, in order.
fn without_repeats(rows: Vec<Tuple>) -> Result<Vec<Tuple>, AllocError>
    ensures rows { IfOk result (λ v. HasRows v.items rows.items) }
    ensures sorted { IfOk result (λ v. IsStrictlySortedBy tuple_cmp v.items) }
{
    let mut sorted = rows;
    sorted.sort()?;
    sorted.dedup();
    Ok(sorted)
}

/// The rows of kinds of a type.
#[tactic(auto, using(crate::proofs::Listing::map_none, crate::proofs::Listing::map_next, crate::proofs::Listing::map_whole, crate::proofs::Listing::same_rows))]
pub fn type_kinds(alloc: Global, ups: &[u32], rows: &[Row]) -> Result<Vec<Tuple>, AllocError>
    ensures rows { IfOk result (λ v. HasRows v.items (rows_kinds_of ups.now rows.now)) }
    ensures sorted { IfOk result (λ v. IsStrictlySortedBy tuple_cmp v.items) }
{
    let mut all = Vec::new(alloc);
    for row in rows {
        let listed = row.as_slice();
        let kinds = row_kinds(alloc, ups, listed)?;
        all.push(kinds)?;
    }
    let kept = without_repeats(all)?;
    Ok(kept)
}

/// Adds the row of kinds of a parent, or the parent to those that wait.
#[tactic(auto, using(crate::proofs::Rising::row_more, crate::proofs::Rising::sig_more))]
fn visit_parent(
    alloc: Global,
    parent: Column,
    rows: &mut Vec<Tuple>,
    waiting: &mut Vec<u32>,
) -> Result<(), AllocError>
    ensures { OnOk result ((sigs : List Sig) (ups : List ℕ) →
        HasMore sigs ups (λ m. parent_rows (sig_rows sigs m) parent) rows.old.items
        waiting.old.items rows.new.items waiting.new.items) }
{
    match parent {
        Column::Int => {
            let row = Tuple::of(alloc, &[INTEGERS])?;
            rows.push(row)?;
            Ok(())
        }
        Column::Sig(sig) => {
            waiting.push(sig)?;
            Ok(())
        }
    }
}

/// Adds the rows of kinds of the parents of an `in` sig, or these to those that wait.
#[tactic(auto, using(crate::proofs::Rising::none_more, crate::proofs::Rising::parents_more, crate::proofs::Rising::parents_all))]
fn visit_parents(
    alloc: Global,
    parents: &[Column],
    rows: &mut Vec<Tuple>,
    waiting: &mut Vec<u32>,
) -> Result<(), AllocError>
    ensures { OnOk result ((sigs : List Sig) (ups : List ℕ) →
        HasMore sigs ups (λ m. flat_map (parent_rows (sig_rows sigs m)) parents.now) rows.old.items
        waiting.old.items rows.new.items waiting.new.items) }
{
    for place in 0..parents.len() {
        let parent = column_at(parents, place);
        visit_parent(alloc, parent, rows, waiting)?;
    }
    Ok(())
}

/// Adds the row of kinds of a sig that isn't an `in` sig.
fn visit_plain(
    alloc: Global,
    sigs: &[Sig],
    ups: &[u32],
    sig: u32,
    rows: &mut Vec<Tuple>,
) -> Result<(), AllocError>
    ensures { OnOk result (rows.new.items ≡ rows.old.items
        ++ (kind_at ups.now (SigColumn (standing sigs.now (length sigs.now) sig)) ∷ []) ∷ []) }
{
    let standing = standing_of(sigs, sig);
    let kind = kind_of(ups, Column::Sig(standing));
    let row = Tuple::of(alloc, &[kind])?;
    rows.push(row)?;
    Ok(())
}

/// Adds the row of kinds of a sig, or the parents of an `in` sig to those that wait.
#[tactic(auto, using(crate::proofs::Rising::no_sig, crate::proofs::Rising::top_more, crate::proofs::Rising::child_more, crate::proofs::Rising::subset_more))]
fn visit(
    alloc: Global,
    sigs: &[Sig],
    ups: &[u32],
    sig: u32,
    rows: &mut Vec<Tuple>,
    waiting: &mut Vec<u32>,
) -> Result<(), AllocError>
    ensures { OnOk result (HasMore sigs.now ups.now (λ m. sig_rows sigs.now (suc m) sig)
        rows.old.items waiting.old.items rows.new.items waiting.new.items) }
{
    match sigs.get(sig as usize) {
        None => Ok(()),
        Some(found) => match &found.kind {
            SigKind::Top => {
                visit_plain(alloc, sigs, ups, sig, rows)?;
                Ok(())
            }
            SigKind::Extends(_) => {
                visit_plain(alloc, sigs, ups, sig, rows)?;
                Ok(())
            }
            SigKind::Subset(parents) => {
                visit_parents(alloc, parents.as_slice(), rows, waiting)?;
                Ok(())
            }
        },
    }
}

/// The number at a place.
pub fn number_at(numbers: &[u32], place: usize) -> u32
    requires { place < length numbers.now }
    ensures { result ≡ slice_index numbers.now place }
{
    numbers[place]
}

/// Goes up from the sigs that wait to their parents, and adds the rows of kinds that are found.
#[tactic(auto, using(crate::proofs::Rising::up_none, crate::proofs::Rising::up_more, crate::proofs::Rising::up_all))]
fn level(
    alloc: Global,
    sigs: &[Sig],
    ups: &[u32],
    waiting: &[u32],
    rows: &mut Vec<Tuple>,
) -> Result<Vec<u32>, AllocError>
    ensures { IfOk result (λ v. IsUp sigs.now ups.now rows.old.items waiting.now rows.new.items
        v.items) }
{
    let mut next = Vec::new(alloc);
    for place in 0..waiting.len() {
        let sig = number_at(waiting, place);
        visit(alloc, sigs, ups, sig, rows, &mut next)?;
    }
    Ok(next)
}

/// The sigs that wait, each once.
fn once(waiting: Vec<u32>) -> Result<Vec<u32>, AllocError>
    ensures { IfOk result (λ v. (s : ℕ) → Contains v.items s ↔ Contains waiting.items s) }
{
    let mut sorted = waiting;
    sorted.sort()?;
    sorted.dedup();
    Ok(sorted)
}

/// Whether no sig waits.
fn is_over(waiting: &[u32]) -> bool
    ensures { IsTrue result ↔ (length waiting.now ≡ 0) }
{
    waiting.is_empty()
}

/// The rows of kinds of a sig, each of one column: as which sig it stands in types, or those of the
/// parents of an `in` sig.
#[tactic(auto, using(crate::proofs::Rising::begins, crate::proofs::Rising::goes_on, crate::proofs::Rising::all_kept, crate::proofs::Rising::empty_kept))]
pub fn sig_kinds(
    alloc: Global,
    sigs: &[Sig],
    ups: &[u32],
    sig: u32,
) -> Result<Vec<Tuple>, AllocError>
    ensures rows { IfOk result (λ v. HasRows v.items (sig_kinds_of sigs.now ups.now
        (length sigs.now) sig)) }
    ensures sorted { IfOk result (λ v. IsStrictlySortedBy tuple_cmp v.items) }
{
    let mut rows = Vec::new(alloc);
    let mut waiting = Vec::new(alloc);
    waiting.push(sig)?;
    for _step in 0..sigs.len() {
        if is_over(&waiting) {
            let early = without_repeats(rows)?;
            return Ok(early);
        }
        let next = level(alloc, sigs, ups, &waiting, &mut rows)?;
        let each = once(next)?;
        waiting = each;
    }
    let kept = without_repeats(rows)?;
    Ok(kept)
}
