//! What two rows make together, such as the row of a join.

ghost use Rattle.std.specs.Prelude.{◌≡◌, ◌∷◌, ◌++◌, [], reverse, map, IfOk, OnOk};
ghost use Rattle.std.specs.List.{flat_map};
ghost use Rattle.core_tree.specs.Types.{both_columns, option_rows, row_meet, turned_join, first_meets, last_meets, each_pair};
ghost use Rattle.resolve_type_check.specs.Steps.{rows_by, itself};

use crate::sigs::meet;
use core_tree::{Column, Row, RowList, Sig};
use std::alloc::{AllocError, Global};

/// How two rows make one.
#[derive(Clone, Copy, Drop)]
pub enum Way {
    /// One after the other.
    Product,
    /// One after the other without the last column of the first and the first of the second, which
    /// meet.
    Join,
    /// Column by column.
    Meet,
    /// The second, whose first column meets the only one of the first.
    First,
    /// The first, whose last column meets the only one of the second.
    Last,
}

/// An equal row.
pub fn row_copy(alloc: Global, row: &[Column]) -> Result<Row, AllocError>
    ensures { IfOk result (λ r. r ≡ row.now) }
{
    Ok(Row::from_vec(Vec::from_slice(alloc, row)?))
}

/// A row turned round.
pub fn turned_row(alloc: Global, row: &[Column]) -> Result<Row, AllocError>
    ensures { IfOk result (λ r. r ≡ reverse row.now) }
{
    let mut turned = Vec::from_slice(alloc, row)?;
    turned.as_mut_slice().reverse();
    Ok(Row::from_vec(turned))
}

/// One row after another.
fn row_pair(alloc: Global, a: &[Column], b: &[Column]) -> Result<Row, AllocError>
    ensures { IfOk result (λ r. r ≡ a.now ++ b.now) }
{
    let mut row = Vec::from_slice(alloc, a)?;
    row.extend_from_slice(b)?;
    Ok(Row::from_vec(row))
}

/// A column before a row.
fn row_before(alloc: Global, column: Column, row: &[Column]) -> Result<Row, AllocError>
    ensures { IfOk result (λ r. r ≡ column ∷ row.now) }
{
    let mut all = Vec::new(alloc);
    all.push(column)?;
    all.extend_from_slice(row)?;
    Ok(Row::from_vec(all))
}

/// A row turned round, and then another.
fn row_between(alloc: Global, turned: &[Column], row: &[Column]) -> Result<Row, AllocError>
    ensures { IfOk result (λ r. r ≡ reverse turned.now ++ row.now) }
{
    let before = turned_row(alloc, turned)?;
    row_pair(alloc, before.as_slice(), row)
}

/// The rows of a join, of which the first is turned round.
fn join_row(
    alloc: Global,
    sigs: &[Sig],
    turned: &[Column],
    other: &[Column],
) -> Result<Option<Row>, AllocError>
    ensures { IfOk result (λ o. option_rows itself o ≡ turned_join sigs.now turned.now other.now) }
{
    match (turned, other) {
        ([c, before @ ..], [d, after @ ..]) => match meet(sigs, *c, *d) {
            None => Ok(None),
            Some(_) => Ok(Some(row_between(alloc, before, after)?)),
        },
        _ => Ok(None),
    }
}

/// A column before a row, where there is one.
fn meet_behind(alloc: Global, column: Column, rest: Option<Row>) -> Result<Option<Row>, AllocError>
    ensures { IfOk result (λ o. o ≡ both_columns (Some column) rest) }
{
    match rest {
        None => Ok(None),
        Some(row) => Ok(Some(row_before(alloc, column, row.as_slice())?)),
    }
}

/// Two rows column by column.
fn meet_row(
    alloc: Global,
    sigs: &[Sig],
    a: &[Column],
    b: &[Column],
) -> Result<Option<Row>, AllocError>
    ensures { IfOk result (λ o. o ≡ row_meet sigs.now a.now b.now) }
{
    match a {
        [] => {
            if b.is_empty() {
                Ok(Some(Row::new(alloc)))
            } else {
                Ok(None)
            }
        }
        [c, r @ ..] => match b {
            [] => Ok(None),
            [d, q @ ..] => match meet(sigs, *c, *d) {
                None => Ok(None),
                Some(both) => meet_behind(alloc, both, meet_row(alloc, sigs, r, q)?),
            },
        },
    }
}

/// A row whose first column meets the only one of another.
fn first_row(
    alloc: Global,
    sigs: &[Sig],
    only: &[Column],
    row: &[Column],
) -> Result<Option<Row>, AllocError>
    ensures { IfOk result (λ o. option_rows itself o ≡ first_meets sigs.now only.now row.now) }
{
    match (only, row) {
        ([c], [d, rest @ ..]) => match meet(sigs, *c, *d) {
            None => Ok(None),
            Some(both) => Ok(Some(row_before(alloc, both, rest)?)),
        },
        _ => Ok(None),
    }
}

/// A row, given turned round, whose last column meets the only one of another.
fn last_row(
    alloc: Global,
    sigs: &[Sig],
    turned: &[Column],
    only: &[Column],
) -> Result<Option<Row>, AllocError>
    ensures { IfOk result (λ o. option_rows itself o
        ≡ map (λ x. reverse x) (first_meets sigs.now only.now turned.now)) }
{
    match first_row(alloc, sigs, only, turned)? {
        None => Ok(None),
        Some(found) => Ok(Some(turned_row(alloc, found.as_slice())?)),
    }
}

/// The row that two rows make, if any; the first is also given turned round.
fn row_by(
    alloc: Global,
    sigs: &[Sig],
    way: Way,
    row: &[Column],
    turned: &[Column],
    other: &[Column],
) -> Result<Option<Row>, AllocError>
    requires { turned.now ≡ reverse row.now }
    ensures { IfOk result (λ o. option_rows itself o ≡ rows_by sigs.now way row.now other.now) }
{
    match way {
        Way::Product => Ok(Some(row_pair(alloc, row, other)?)),
        Way::Join => join_row(alloc, sigs, turned, other),
        Way::Meet => meet_row(alloc, sigs, row, other),
        Way::First => first_row(alloc, sigs, row, other),
        Way::Last => last_row(alloc, sigs, turned, other),
    }
}

/// Adds a row, if there is one.
fn add_some(row: Option<Row>, all: &mut RowList) -> Result<(), AllocError>
    ensures { OnOk result (all.new ≡ all.old ++ option_rows itself row) }
{
    match row {
        None => Ok(()),
        Some(row) => all.push(row),
    }
}

/// Adds what a row makes with others.
fn add_pairs(
    alloc: Global,
    sigs: &[Sig],
    way: Way,
    row: &[Column],
    others: &[Row],
    all: &mut RowList,
) -> Result<(), AllocError>
    ensures { OnOk result (all.new ≡ all.old ++ flat_map (rows_by sigs.now way row.now)
        others.now) }
{
    let turned = turned_row(alloc, row)?;
    for other in others {
        let made = row_by(alloc, sigs, way, row, turned.as_slice(), other.as_slice())?;
        add_some(made, all)?;
    }
    Ok(())
}

/// What rows make with others.
pub fn pairs_of(
    alloc: Global,
    sigs: &[Sig],
    way: Way,
    rows: &[Row],
    others: &[Row],
) -> Result<RowList, AllocError>
    ensures { IfOk result (λ all. all ≡ each_pair (rows_by sigs.now way) rows.now others.now) }
{
    let mut all = RowList::new(alloc);
    for row in rows {
        add_pairs(alloc, sigs, way, row.as_slice(), others, &mut all)?;
    }
    Ok(all)
}

/// Each row turned round.
pub fn turned_rows(alloc: Global, rows: &[Row]) -> Result<RowList, AllocError>
    ensures { IfOk result (λ all. all ≡ map (λ r. reverse r) rows.now) }
{
    let mut all = RowList::new(alloc);
    for row in rows {
        all.push(turned_row(alloc, row.as_slice())?)?;
    }
    Ok(all)
}

/// Adds equal rows.
pub fn add_rows(alloc: Global, rows: &[Row], all: &mut RowList) -> Result<(), AllocError>
    ensures { OnOk result (all.new ≡ all.old ++ rows.now) }
{
    for row in rows {
        all.push(row_copy(alloc, row.as_slice())?)?;
    }
    Ok(())
}

/// Equal rows.
pub fn rows_copy(alloc: Global, rows: &[Row]) -> Result<RowList, AllocError>
    ensures { IfOk result (λ all. all ≡ rows.now) }
{
    let mut all = RowList::new(alloc);
    add_rows(alloc, rows, &mut all)?;
    Ok(all)
}
