//! Lists of rows are sets: no row is added that is there.

ghost use Rattle.std.specs.Prelude.{◌≡◌, ◌==◌, IfOk, OnOk, IsTrue};
ghost use Rattle.resolve_type_check.specs.Same.{SameRows, Within, same_column, same_row, has_row, with_row, added, IsEachOnce};

use crate::pairs::row_copy;
use core_tree::{Column, Row, RowList};
use std::alloc::{AllocError, Global};

fn is_same(a: Column, b: Column) -> bool
    ensures { result ≡ same_column a b }
{
    match (a, b) {
        (Column::Int, Column::Int) => true,
        (Column::Sig(s), Column::Sig(t)) => s == t,
        _ => false,
    }
}

fn are_same(a: &[Column], b: &[Column]) -> bool
    ensures { result ≡ same_row a.now b.now }
{
    match a {
        [] => b.is_empty(),
        [c, more @ ..] => match b {
            [] => false,
            [d, others @ ..] => is_same(*c, *d) && are_same(more, others),
        },
    }
}

/// Whether a row is among rows.
fn is_among(rows: &[Row], row: &[Column]) -> bool
    ensures { result ≡ has_row rows.now row.now }
{
    for other in rows {
        if are_same(row, other.as_slice()) {
            return true;
        }
    }
    false
}

/// Adds a row that isn't there.
fn add_new(alloc: Global, row: &[Column], all: &mut RowList) -> Result<(), AllocError>
    ensures { OnOk result (all.new ≡ with_row all.old row.now) }
{
    if is_among(all.as_slice(), row) {
        return Ok(());
    }
    all.push(row_copy(alloc, row)?)
}

/// Adds the rows that aren't there.
fn add_each(alloc: Global, rows: &[Row], all: &mut RowList) -> Result<(), AllocError>
    ensures { OnOk result (all.new ≡ added all.old rows.now) }
{
    for row in rows {
        add_new(alloc, row.as_slice(), all)?;
    }
    Ok(())
}

/// The rows, each once.
pub fn each_once(alloc: Global, rows: &[Row]) -> Result<RowList, AllocError>
    ensures { IfOk result (IsEachOnce rows.now) }
{
    let mut all = RowList::new(alloc);
    add_each(alloc, rows, &mut all)?;
    Ok(all)
}

/// Whether rows are all among others.
pub fn are_within(rows: &[Row], others: &[Row]) -> bool
    ensures { IsTrue result → Within rows.now others.now }
{
    for row in rows {
        if !is_among(others, row.as_slice()) {
            return false;
        }
    }
    true
}

#[tactic(auto, using(crate::proofs::Equal::row_is))]
fn is_alike(row: &Row, other: &Row) -> bool
    ensures { IsTrue result → row.now ≡ other.now }
{
    are_same(row.as_slice(), other.as_slice())
}

/// Whether rows are others one by one.
fn are_alike(rows: &[Row], others: &[Row]) -> bool
    ensures { IsTrue result → rows.now ≡ others.now }
{
    if rows.len() != others.len() {
        return false;
    }
    for place in 0..rows.len() {
        if !is_alike(&rows[place], &others[place]) {
            return false;
        }
    }
    true
}

/// Whether rows are the same as others. They mostly stand in the same order, which is tried first, since
/// it takes time linear in them.
#[tactic(auto, using(crate::proofs::Monotone::same_from))]
pub fn have_same(rows: &[Row], others: &[Row]) -> bool
    ensures { IsTrue result → SameRows rows.now others.now }
{
    if are_alike(rows, others) {
        return true;
    }
    are_within(rows, others) && are_within(others, rows)
}
