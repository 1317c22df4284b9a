//! Whether the types of sigs are right.

ghost use Rattle.std.specs.Prelude.{◌≡◌, ◌∷◌, [], All, Contains, IfOk, IsTrue};
ghost use Rattle.resolve_types.specs.Types.{Row};
ghost use Rattle.resolve_told_types.specs.Kinds.{kind_of, kinds_of, member_of, members_of};
ghost use Rattle.resolve_told_types.specs.Steps.{AreRowsByParents, Gives, IsBefore, IsGiven, IsInside, IsTypeStep, IsUnion, own_row, rank_at, rows_at};
ghost use Rattle.resolve_told_types.specs.Told.{AreTypes};

use crate::ranks::ranks_of;
use crate::rows::{has_row, has_rows, is_own_row, is_row_of};
use base_lists::Items;
use core_tree::{Column, Sig, SigKind};
use resolve_types::{Columns, Member};
use std::alloc::{AllocError, Global};

/// The rank of a sig.
fn rank_of(ranks: &[usize], sig: usize) -> usize
    ensures { result ≡ rank_at ranks.now sig }
{
    match ranks.get(sig) {
        None => 0,
        Some(rank) => *rank,
    }
}

/// The rows of the type of a sig.
fn rows_of(types: &[Columns], sig: usize) -> &[Items<Member>]
    ensures { result.now ≡ rows_at types.now sig }
{
    match types.get(sig) {
        None => &[],
        Some(columns) => columns.rows.as_slice(),
    }
}

/// Whether a parent gives a row.
fn gives(types: &[Columns], parent: Column, row: &[Member]) -> bool
    ensures { IsTrue result → Gives types.now (member_of parent) row.now }
{
    match parent {
        Column::Int => is_row_of(row, Member::Int),
        Column::Sig(sig) => has_row(rows_of(types, sig as usize), row),
    }
}

/// Whether one of the parents gives a row.
fn is_given(types: &[Columns], parents: &[Column], row: &[Member]) -> bool
    ensures { IsTrue result → IsGiven types.now (members_of parents.now) row.now }
{
    for parent in parents {
        if gives(types, *parent, row) {
            return true;
        }
    }
    false
}

/// Whether each row is one that a parent gives.
fn are_given(types: &[Columns], parents: &[Column], rows: &[Items<Member>]) -> bool
    ensures { IsTrue result → All (IsGiven types.now (members_of parents.now)) rows.now }
{
    for row in rows {
        if !is_given(types, parents, row.as_slice()) {
            return false;
        }
    }
    true
}

/// Whether a parent has a type, and a rank below this one.
fn is_before(types: &[Columns], ranks: &[usize], rank: usize, parent: Column) -> bool
    ensures { IsTrue result → IsBefore types.now ranks.now rank (member_of parent) }
{
    match parent {
        Column::Int => true,
        Column::Sig(sig) => { (sig as usize) < types.len() && rank_of(ranks, sig as usize) < rank }
    }
}

/// Whether what a parent gives is among the rows.
fn has_given(types: &[Columns], rows: &[Items<Member>], parent: Column) -> bool
    ensures { IsTrue result → (row : Row) → Gives types.now (member_of parent) row
        → Contains rows.now row }
{
    match parent {
        Column::Int => has_row(rows, &[Member::Int]),
        Column::Sig(sig) => has_rows(rows, rows_of(types, sig as usize)),
    }
}

/// Whether a parent comes before, and what it gives is among the rows.
fn is_inside(
    types: &[Columns],
    ranks: &[usize],
    rank: usize,
    rows: &[Items<Member>],
    parent: Column,
) -> bool
    ensures { IsTrue result → IsInside types.now ranks.now rank rows.now (member_of parent) }
{
    is_before(types, ranks, rank, parent) && has_given(types, rows, parent)
}

/// Whether each parent comes before, and what it gives is among the rows.
fn are_inside(
    types: &[Columns],
    ranks: &[usize],
    rank: usize,
    rows: &[Items<Member>],
    parents: &[Column],
) -> bool
    ensures { IsTrue result → All (IsInside types.now ranks.now rank rows.now)
        (members_of parents.now) }
{
    for parent in parents {
        if !is_inside(types, ranks, rank, rows, *parent) {
            return false;
        }
    }
    true
}

/// Whether the rows are just those that the parents give, which come before.
fn is_union(
    types: &[Columns],
    ranks: &[usize],
    rank: usize,
    parents: &[Column],
    rows: &[Items<Member>],
) -> bool
    ensures { IsTrue result
        → IsUnion types.now ranks.now rank (members_of parents.now) rows.now }
{
    are_inside(types, ranks, rank, rows, parents) && are_given(types, parents, rows)
}

/// Whether there is just one row, which is just the sig of this number.
fn is_own(rows: &[Items<Member>], sig: usize) -> bool
    ensures { IsTrue result → rows.now ≡ own_row sig ∷ [] }
{
    match rows {
        [only] => is_own_row(only.as_slice(), sig),
        _ => false,
    }
}

/// Whether the rows of a sig are itself, or of a subset sig those of its parents.
fn are_rows(
    types: &[Columns],
    ranks: &[usize],
    sig: usize,
    kind: &SigKind,
    rows: &[Items<Member>],
) -> bool
    ensures { IsTrue result
        → AreRowsByParents types.now ranks.now sig (kind_of kind.now) rows.now }
{
    match kind {
        SigKind::Top => is_own(rows, sig),
        SigKind::Extends(_) => is_own(rows, sig),
        SigKind::Subset(parents) => {
            let rank = rank_of(ranks, sig);
            is_union(types, ranks, rank, parents.as_slice(), rows)
        }
    }
}

/// Whether the type of a sig is right where those of its parents are.
fn is_type(
    types: &[Columns],
    ranks: &[usize],
    sig: usize,
    kind: &SigKind,
    columns: &Columns,
) -> bool
    ensures { IsTrue result
        → IsTypeStep types.now ranks.now sig (kind_of kind.now) columns.now }
{
    columns.count == 1 && are_rows(types, ranks, sig, kind, columns.rows.as_slice())
}

/// Whether the types are those of the sigs, by these ranks.
fn are_types_by(sigs: &[Sig], types: &[Columns], ranks: &[usize]) -> bool
    ensures { IsTrue result → AreTypes (kinds_of sigs.now) types.now }
{
    if types.len() != sigs.len() {
        return false;
    }
    for place in 0..sigs.len() {
        if !is_type(types, ranks, place, &sigs[place].kind, &types[place]) {
            return false;
        }
    }
    true
}

/// Whether the types are those of the sigs.
pub fn are_types(alloc: Global, sigs: &[Sig], types: &[Columns]) -> Result<bool, AllocError>
    ensures { IfOk result (λ b. IsTrue b → AreTypes (kinds_of sigs.now) types.now) }
{
    let ranks = ranks_of(alloc, sigs)?;
    Ok(are_types_by(sigs, types, ranks.as_slice()))
}
