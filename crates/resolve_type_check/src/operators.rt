//! What operators make of the types of their operands.

ghost use Rattle.std.specs.Prelude.{◌≡◌, ◌++◌, ◌<◌, ◌^◌, length, IfOk, IfSome, IsTrue};
ghost use Rattle.core_tree.specs.Types.{combined_rows, row_pairs, top_rows, each_pair, row_join};
ghost use Rattle.resolve_type_check.specs.Same.{SameRows, IsEachOnce};
ghost use Rattle.resolve_type_check.specs.Closed.{AreWalks, IsClosed, Turns};

use crate::pairs::{Way, add_rows, pairs_of, rows_copy, turned_rows};
use crate::sets::{are_within, each_once};
use crate::sigs::rows_of_tops;
use core_tree::{RelationOp, Row, RowList, Sig, UnaryRelation};
use std::alloc::{AllocError, Global};

/// Rows, and others behind them.
fn rows_of_both(alloc: Global, a: &[Row], b: &[Row]) -> Result<RowList, AllocError>
    ensures { IfOk result (λ all. all ≡ a.now ++ b.now) }
{
    let mut all = rows_copy(alloc, a)?;
    add_rows(alloc, b, &mut all)?;
    Ok(all)
}

fn combined(
    alloc: Global,
    sigs: &[Sig],
    op: RelationOp,
    a: &[Row],
    b: &[Row],
) -> Result<RowList, AllocError>
    ensures { IfOk result (λ all. all ≡ combined_rows sigs.now op a.now b.now) }
{
    match op {
        RelationOp::Union => rows_of_both(alloc, a, b),
        RelationOp::Override => rows_of_both(alloc, a, b),
        RelationOp::Difference => rows_copy(alloc, a),
        RelationOp::Intersection => pairs_of(alloc, sigs, Way::Meet, a, b),
        RelationOp::Join => pairs_of(alloc, sigs, Way::Join, a, b),
        RelationOp::LeftRestrict => pairs_of(alloc, sigs, Way::First, a, b),
        RelationOp::RightRestrict => pairs_of(alloc, sigs, Way::Last, a, b),
    }
}

/// The type of an operator on two relations.
pub fn combined_type(
    alloc: Global,
    sigs: &[Sig],
    op: RelationOp,
    a: &[Row],
    b: &[Row],
) -> Result<RowList, AllocError>
    ensures { IfOk result (λ all. SameRows all (combined_rows sigs.now op a.now b.now)) }
{
    let all = combined(alloc, sigs, op, a, b)?;
    each_once(alloc, all.as_slice())
}

/// The rows of one type, each followed by each of another.
#[tactic(auto, using(crate::proofs::Monotone::pairs_product))]
pub fn product_type(
    alloc: Global,
    sigs: &[Sig],
    a: &[Row],
    b: &[Row],
) -> Result<RowList, AllocError>
    ensures { IfOk result (λ all. all ≡ row_pairs a.now b.now) }
{
    pairs_of(alloc, sigs, Way::Product, a, b)
}

/// The rows of either type.
pub fn either_type(alloc: Global, a: &[Row], b: &[Row]) -> Result<RowList, AllocError>
    ensures { IfOk result (λ all. SameRows all (a.now ++ b.now)) }
{
    let all = rows_of_both(alloc, a, b)?;
    each_once(alloc, all.as_slice())
}

/// The pairs of all top-level sigs and `Int`.
pub fn pairs_of_tops(alloc: Global, sigs: &[Sig]) -> Result<RowList, AllocError>
    requires { length sigs.now < 2 ^ 32 }
    ensures { IfOk result (λ all. all ≡ row_pairs (top_rows sigs.now 0) (top_rows sigs.now 0)) }
{
    let tops = rows_of_tops(alloc, sigs)?;
    product_type(alloc, sigs, tops.as_slice(), tops.as_slice())
}

/// The rows of walks of one step more.
fn one_step_more(
    alloc: Global,
    sigs: &[Sig],
    base: &[Row],
    walks: &[Row],
) -> Result<RowList, AllocError>
    ensures { IfOk result (λ all. SameRows all (base.now
        ++ each_pair (row_join sigs.now) base.now walks.now)) }
{
    let joined = pairs_of(alloc, sigs, Way::Join, base, walks)?;
    either_type(alloc, base, joined.as_slice())
}

fn are_none(rows: &[Row]) -> bool
    ensures { IsTrue result → length rows.now ≡ 0 }
{
    rows.is_empty()
}

/// The rows of all walks over rows that are each there once. A walk needs no row twice, so that one step
/// more brings nothing new after as many steps as there are rows.
fn all_walks(alloc: Global, sigs: &[Sig], base: &[Row]) -> Result<Option<RowList>, AllocError>
    ensures { IfOk result (λ o. IfSome o (AreWalks sigs.now base.now)) }
{
    let mut walks = rows_copy(alloc, base)?;
    for _round in 0..base.len() {
        let more = one_step_more(alloc, sigs, base, walks.as_slice())?;
        if are_within(more.as_slice(), walks.as_slice()) {
            return Ok(Some(walks));
        }
        walks = more;
    }
    if are_none(base) {
        Ok(Some(walks))
    } else {
        Ok(None)
    }
}

/// The rows of all walks over a type.
fn closed(alloc: Global, sigs: &[Sig], rows: &[Row]) -> Result<Option<RowList>, AllocError>
    ensures { IfOk result (λ o. IfSome o (IsClosed sigs.now rows.now)) }
{
    let base = each_once(alloc, rows)?;
    all_walks(alloc, sigs, base.as_slice())
}

/// The type of an operator on one relation.
pub fn turned_type(
    alloc: Global,
    sigs: &[Sig],
    op: UnaryRelation,
    rows: &[Row],
) -> Result<Option<RowList>, AllocError>
    requires { length sigs.now < 2 ^ 32 }
    ensures { IfOk result (λ o. IfSome o (Turns sigs.now op rows.now)) }
{
    match op {
        UnaryRelation::Transpose => Ok(Some(turned_rows(alloc, rows)?)),
        UnaryRelation::Closure => closed(alloc, sigs, rows),
        UnaryRelation::ReflexiveClosure => match closed(alloc, sigs, rows)? {
            None => Ok(None),
            Some(walks) => {
                let tops = pairs_of_tops(alloc, sigs)?;
                Ok(Some(either_type(alloc, walks.as_slice(), tops.as_slice())?))
            }
        },
    }
}
