//! Rows of members, and lists of them.

ghost use Rattle.std.specs.Prelude.{◌≡◌, ◌∷◌, ◌++◌, ◌-◌, ◌<◌, length, map, reverse, take, drop, IfOk, OnOk};
ghost use Rattle.std.specs.List.{filter_map, cons_option};
ghost use Rattle.resolve_types.specs.Types.{ends_meet, joined, met, restricted_first, restricted_last, row_of, pairs};

use crate::member::{Member, meet};
use base_lists::Items;
use std::alloc::{AllocError, Global};

/// A row of members, one for each column.
pub type Row = Items<Member>;

/// How two rows make one.
#[derive(Clone, Copy, Debug, Drop)]
pub enum Way {
    /// One after the other, without the last member of the first and the first of the second, which meet.
    Join,
    /// One after the other.
    Product,
    /// The meets of their members in turn.
    Meet,
    /// The second, with the meet of its first member and the one member of the first.
    First,
    /// The first, with the meet of its last member and the one member of the second.
    Last,
}

/// An equal list.
pub fn copy_rows(alloc: Global, rows: &[Items<Member>]) -> Result<Items<Items<Member>>, AllocError>
    ensures { IfOk result (λ r. r ≡ rows.now) }
{
    let mut all = Items::new(alloc);
    for row in rows {
        all.push(Items::from_slice(alloc, row.as_slice())?)?;
    }
    Ok(all)
}

/// The members after the first.
fn after_first(row: &[Member]) -> &[Member]
    ensures { result.now ≡ drop 1 row.now }
{
    match row {
        [] => row,
        [_, rest @ ..] => rest,
    }
}

/// The members before the last.
fn before_last(row: &[Member]) -> &[Member]
    requires { 0 < length row.now }
    ensures { result.now ≡ take (length row.now - 1) row.now }
{
    &row[..row.len() - 1]
}

/// Whether the last member of the first row meets the first of the second.
fn meets_end(lines: &Items<Items<u32>>, a: &[Member], b: &[Member]) -> bool
    requires a { 0 < length a.now }
    requires b { 0 < length b.now }
    ensures { result ≡ ends_meet lines.now a.now b.now }
{
    meet(lines, a[a.len() - 1], b[0]).is_some()
}

/// The row that two rows make in a join.
fn join_rows(
    alloc: Global,
    lines: &Items<Items<u32>>,
    a: &[Member],
    b: &[Member],
) -> Result<Option<Items<Member>>, AllocError>
    ensures { IfOk result (λ r. r ≡ joined lines.now a.now b.now) }
{
    if a.is_empty() || b.is_empty() || !meets_end(lines, a, b) {
        return Ok(None);
    }
    Ok(Some(product_rows(alloc, before_last(a), after_first(b))?))
}

/// One row after the other.
fn product_rows(alloc: Global, a: &[Member], b: &[Member]) -> Result<Items<Member>, AllocError>
    ensures { IfOk result (λ r. r ≡ a.now ++ b.now) }
{
    let mut row = Items::from_slice(alloc, a)?;
    row.append(Items::from_slice(alloc, b)?)?;
    Ok(row)
}

/// The meets of two rows of one length.
fn met_rows(
    alloc: Global,
    lines: &Items<Items<u32>>,
    a: &[Member],
    b: &[Member],
) -> Result<Option<Items<Member>>, AllocError>
    ensures { IfOk result (λ r. r ≡ met lines.now a.now b.now) }
{
    if a.len() != b.len() {
        return Ok(None);
    }
    let mut row = Items::new(alloc);
    for i in 0..a.len() {
        match meet(lines, a[i], b[i]) {
            Some(member) => row.push(member)?,
            None => return Ok(None),
        }
    }
    Ok(Some(row))
}

/// The row with the meet of its first member and the one member of another, where they meet.
fn restrict_first(
    alloc: Global,
    lines: &Items<Items<u32>>,
    other: &[Member],
    row: &[Member],
) -> Result<Option<Items<Member>>, AllocError>
    ensures { IfOk result (λ r. r ≡ restricted_first lines.now other.now row.now) }
{
    match (other, row) {
        ([only], [first, rest @ ..]) => match meet(lines, *only, *first) {
            Some(member) => Ok(Some(before_row(alloc, member, rest)?)),
            None => Ok(None),
        },
        _ => Ok(None),
    }
}

/// The member and then the row.
fn before_row(alloc: Global, member: Member, row: &[Member]) -> Result<Items<Member>, AllocError>
    ensures { IfOk result (λ r. r ≡ member ∷ row.now) }
{
    let mut all = Items::new(alloc);
    all.push(member)?;
    all.append(Items::from_slice(alloc, row)?)?;
    Ok(all)
}

/// The row with the meet of its last member and the one member of another, where they meet.
fn restrict_last(
    alloc: Global,
    lines: &Items<Items<u32>>,
    row: &[Member],
    other: &[Member],
) -> Result<Option<Items<Member>>, AllocError>
    ensures { IfOk result (λ r. r ≡ restricted_last lines.now row.now other.now) }
{
    let turned = turned_row(alloc, row)?;
    match restrict_first(alloc, lines, other, turned.as_slice())? {
        Some(found) => Ok(Some(turned_row(alloc, found.as_slice())?)),
        None => Ok(None),
    }
}

/// The row from its last member to its first.
pub fn turned_row(alloc: Global, row: &[Member]) -> Result<Items<Member>, AllocError>
    ensures { IfOk result (λ r. r ≡ reverse row.now) }
{
    let mut turned = Vec::from_slice(alloc, row)?;
    turned.as_mut_slice().reverse();
    Ok(Items::from_vec(turned))
}

/// Each row from its last member to its first.
pub fn turned_rows(
    alloc: Global,
    rows: &[Items<Member>],
) -> Result<Items<Items<Member>>, AllocError>
    ensures { IfOk result (λ r. r ≡ map reverse rows.now) }
{
    let mut all = Items::new(alloc);
    for row in rows {
        all.push(turned_row(alloc, row.as_slice())?)?;
    }
    Ok(all)
}

/// The row that two rows make.
fn row_by(
    alloc: Global,
    lines: &Items<Items<u32>>,
    way: Way,
    a: &[Member],
    b: &[Member],
) -> Result<Option<Items<Member>>, AllocError>
    ensures { IfOk result (λ r. r ≡ row_of lines.now way a.now b.now) }
{
    match way {
        Way::Join => join_rows(alloc, lines, a, b),
        Way::Product => Ok(Some(product_rows(alloc, a, b)?)),
        Way::Meet => met_rows(alloc, lines, a, b),
        Way::First => restrict_first(alloc, lines, a, b),
        Way::Last => restrict_last(alloc, lines, a, b),
    }
}

/// Adds the rows that a row makes with others.
fn add_pairs(
    alloc: Global,
    lines: &Items<Items<u32>>,
    way: Way,
    row: &[Member],
    others: &[Items<Member>],
    all: &mut Items<Items<Member>>,
) -> Result<(), AllocError>
    ensures { OnOk result (all.new ≡ all.old ++ filter_map (row_of lines.now way row.now)
        others.now) }
{
    for other in others {
        all.push_some(row_by(alloc, lines, way, row, other.as_slice())?)?;
    }
    Ok(())
}

/// The rows that rows make with others.
pub fn pair_rows(
    alloc: Global,
    lines: &Items<Items<u32>>,
    way: Way,
    rows: &[Items<Member>],
    others: &[Items<Member>],
) -> Result<Items<Items<Member>>, AllocError>
    ensures { IfOk result (λ r. r ≡ pairs (row_of lines.now way) rows.now others.now) }
{
    let mut all = Items::new(alloc);
    for row in rows {
        add_pairs(alloc, lines, way, row.as_slice(), others, &mut all)?;
    }
    Ok(all)
}
