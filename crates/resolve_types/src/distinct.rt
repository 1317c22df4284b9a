//! Sets of rows: lists without repeats, and what closes one under joins.

ghost use Rattle.std.specs.Prelude.{◌≡◌, IfOk, OnOk, ◌-◌, length};
ghost use Rattle.resolve_types.specs.Types.{row_of, pairs};
ghost use Rattle.resolve_types.specs.Rows.{same_member, same_row, has_row, with_row, added, without_repeats, once_more, rounds};
ghost use Rattle.resolve_types.specs.declared.rows.Way.TheVariants as ways;

use crate::member::Member;
use crate::rows::{Way, pair_rows};
use base_lists::Items;
use std::alloc::{AllocError, Global};

fn is_same(a: Member, b: Member) -> bool
    ensures { result ≡ same_member a b }
{
    match (a, b) {
        (Member::Int, Member::Int) => true,
        (Member::Sig(s), Member::Sig(t)) => s == t,
        _ => false,
    }
}

fn are_same(a: &[Member], b: &[Member]) -> bool
    ensures { result ≡ same_row a.now b.now }
{
    match a {
        [] => b.is_empty(),
        [m, more @ ..] => match b {
            [] => false,
            [n, others @ ..] => is_same(*m, *n) && are_same(more, others),
        },
    }
}

/// Whether the row stands among the rows.
fn stands_among(rows: &[Items<Member>], row: &[Member]) -> bool
    ensures { result ≡ has_row rows.now row.now }
{
    for other in rows {
        if are_same(other.as_slice(), row) {
            return true;
        }
    }
    false
}

/// Puts the row behind the others, where it isn't among them.
fn add_new(alloc: Global, all: &mut Items<Items<Member>>, row: &[Member]) -> Result<(), AllocError>
    ensures { OnOk result (all.new ≡ with_row all.old row.now) }
{
    if stands_among(all.as_slice(), row) {
        return Ok(());
    }
    all.push(Items::from_slice(alloc, row)?)
}

/// Puts each row behind the others that isn't among them.
fn add_distinct(
    alloc: Global,
    all: &mut Items<Items<Member>>,
    more: &[Items<Member>],
) -> Result<(), AllocError>
    ensures { OnOk result (all.new ≡ added all.old more.now) }
{
    for row in more {
        add_new(alloc, all, row.as_slice())?;
    }
    Ok(())
}

/// The rows in their order, each where it first stands.
pub fn distinct_rows(
    alloc: Global,
    rows: &[Items<Member>],
) -> Result<Items<Items<Member>>, AllocError>
    ensures { IfOk result (λ r. r ≡ without_repeats rows.now) }
{
    let mut all = Items::new(alloc);
    add_distinct(alloc, &mut all, rows)?;
    Ok(all)
}

/// Adds the new rows that two of the rows make in a join.
fn join_once(
    alloc: Global,
    lines: &Items<Items<u32>>,
    all: &mut Items<Items<Member>>,
) -> Result<(), AllocError>
    ensures { OnOk result (all.new ≡ once_more lines.now all.old) }
{
    let made = pair_rows(alloc, lines, Way::Join, all.as_slice(), all.as_slice())?;
    add_distinct(alloc, all, made.as_slice())
}

/// The rows, and those of all walks over them.
pub fn closed_rows(
    alloc: Global,
    lines: &Items<Items<u32>>,
    rows: &[Items<Member>],
) -> Result<Items<Items<Member>>, AllocError>
    ensures { IfOk result (λ r. r ≡ rounds lines.now (length rows.now) (without_repeats rows.now)) }
{
    let mut all = distinct_rows(alloc, rows)?;
    for _round in 0..rows.len() {
        let before = all.len();
        join_once(alloc, lines, &mut all)?;
        if all.len() == before {
            return Ok(all);
        }
    }
    Ok(all)
}
