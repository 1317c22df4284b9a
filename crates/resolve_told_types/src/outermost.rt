//! Whether the types of `univ` and `iden` are right, row by row in their order.

ghost use Rattle.std.specs.Prelude.{◌≡◌, ◌∷◌, ◌++◌, [], take, IfSome, IsTrue};
ghost use Rattle.resolve_types.specs.declared.member.Member.TheVariants as members;
ghost use Rattle.resolve_rules.specs.Types.{HasType, IsIdenRow, IsUnivRow};
ghost use Rattle.resolve_told_types.specs.Kinds.{kind_of, kinds_of};
ghost use Rattle.resolve_told_types.specs.Steps.{AreTops, IsNextFront, own_row, pairs_of, pairs_with};

use crate::rows::{is_own_row, is_row_of};
use base_lists::Items;
use core_tree::{Sig, SigKind};
use resolve_types::{Columns, Member};

/// How many rows there are with the one of this sig, which comes next.
fn with_own(rows: &[Items<Member>], count: usize, sig: usize) -> Option<usize>
    ensures { IfSome result (λ m. take m rows.now ≡ take count rows.now ++ own_row sig ∷ []) }
{
    if count >= rows.len() {
        return None;
    }
    if !is_own_row(rows[count].as_slice(), sig) {
        return None;
    }
    Some(count + 1)
}

/// How many rows there are with that of a sig, which comes next where it is a top-level one.
fn next_count(rows: &[Items<Member>], count: usize, sig: usize, kind: &SigKind) -> Option<usize>
    ensures { IfSome result (λ m. IsNextFront sig (kind_of kind.now) rows.now count m) }
{
    match kind {
        SigKind::Top => with_own(rows, count, sig),
        SigKind::Extends(_) => Some(count),
        SigKind::Subset(_) => Some(count),
    }
}

/// How many rows there are of the top-level sigs, which come first in order.
fn count_of_tops(sigs: &[Sig], rows: &[Items<Member>]) -> Option<usize>
    ensures { IfSome result (λ n. AreTops sigs.now (take n rows.now)) }
{
    let mut count = 0;
    for place in 0..sigs.len() {
        match next_count(rows, count, place, &sigs[place].kind) {
            None => return None,
            Some(next) => count = next,
        }
    }
    Some(count)
}

/// Whether the row of `Int` comes behind so many, and is the last.
fn is_last_int(rows: &[Items<Member>], count: usize) -> bool
    ensures { IsTrue result → rows.now ≡ take count rows.now ++ (members.Int ∷ []) ∷ [] }
{
    if count >= rows.len() || rows.len() - count != 1 {
        return false;
    }
    is_row_of(rows[count].as_slice(), Member::Int)
}

/// Whether the type has the rows of the top-level sigs in order, and then that of `Int`.
pub fn is_univ(sigs: &[Sig], univ: &Columns) -> bool
    ensures { IsTrue result → HasType 1 (IsUnivRow (kinds_of sigs.now)) univ.now }
{
    let rows = univ.rows.as_slice();
    match count_of_tops(sigs, rows) {
        None => false,
        Some(count) => univ.count == 1 && is_last_int(rows, count),
    }
}

/// Whether a row is one row of one member and then another.
fn is_pair(row: &[Member], a: &[Member], b: &[Member]) -> bool
    ensures { IsTrue result → row.now ≡ a.now ++ b.now }
{
    match row {
        [first, second] => is_row_of(a, *first) && is_row_of(b, *second),
        _ => false,
    }
}

/// Whether the rows are those of one row with each of the others, in order.
fn are_pairs_with(rows: &[Items<Member>], row: &[Member], others: &[Items<Member>]) -> bool
    ensures { IsTrue result → rows.now ≡ pairs_with others.now row.now }
{
    if rows.len() != others.len() {
        return false;
    }
    for place in 0..others.len() {
        if !is_pair(rows[place].as_slice(), row, others[place].as_slice()) {
            return false;
        }
    }
    true
}

/// Whether the rows are those of each row with each, in order.
fn are_pairs(rows: &[Items<Member>], others: &[Items<Member>]) -> bool
    ensures { IsTrue result → rows.now ≡ pairs_of others.now }
{
    let mut rest = rows;
    for other in others {
        if rest.len() < others.len() {
            return false;
        }
        let (front, back) = rest.split_at(others.len());
        if !are_pairs_with(front, other.as_slice(), others) {
            return false;
        }
        rest = back;
    }
    rest.is_empty()
}

/// Whether the type has the rows of each row of `univ` with each, in order.
pub fn is_iden(sigs: &[Sig], univ: &Columns, iden: &Columns) -> bool
    requires { HasType 1 (IsUnivRow (kinds_of sigs.now)) univ.now }
    ensures { IsTrue result → HasType 2 (IsIdenRow (kinds_of sigs.now)) iden.now }
{
    iden.count == 2 && are_pairs(iden.rows.as_slice(), univ.rows.as_slice())
}
