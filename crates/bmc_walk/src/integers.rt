//! The rules of integers.

ghost use Rattle.std.specs.Prelude.{IfOk, OnOk};
ghost use Rattle.gate_trait.specs.Built.{Keeps, AllIn};
ghost use Rattle.core_tree.specs.Trees.{term_of, number as number_of, count as count_of, arithmetic, compare};
ghost use Rattle.bmc_stack.specs.Stored.{AreStored};
ghost use Rattle.bmc_places.specs.Stores.{Extends};
ghost use Rattle.bmc_walk.specs.Walked.{HasNumbers, HasRow, HasSets, HasSingles};
ghost use Rattle.bmc_walk.specs.Walks.{Walks};

use crate::sums::sum_ints;
use crate::walk::{Answer, Ground, Known, Walk, Wanted, part_integers, part_sets};
use base_types::Position;
use bmc_places::numbers::{IntegerOperator, compared_row, constant_integers, made_integers};
use bmc_stack::Store;
use core_tree::{Comparison, Expr, IntOp};
use gate_trait::{Gates, NodeList};
use std::alloc::AllocError;

/// A number at all places.
fn number_ints<
    G: Gates,
    F: for<'j> Fn(
        &'j Ground<'j>,
        &mut G,
        &mut Store,
        Wanted<'_>,
        &Known<'_>,
        u32,
    ) -> Result<Answer, AllocError>,
>(
    walk: &Walk<'_, F>,
    gates: &mut G,
    store: &mut Store,
    number: i64,
    place: Position,
    known: &Known<'_>,
) -> Result<Vec<usize>, AllocError>
    requires walks { Walks G.belongs G.node_value walk.now.deep (F.pre walk.now.run)
        (F.post walk.now.run) }
    requires stored { AreStored (G.belongs gates.old) store.old }
    ensures keeps { Keeps G.belongs G.node_value gates.old gates.new }
    ensures stored { OnOk result (AreStored (G.belongs gates.new) store.new) }
    ensures extends { OnOk result (Extends store.old store.new) }
    ensures right { IfOk result (λ v. HasSingles walk.now.ground.now known.now
        (G.node_value gates.old) (G.node_value gates.new) store.old.matrices.items
        store.new.integers.items (number_of number place) v.items) }
{
    // for the proof: only the clauses name the place and what is known
    let _ = place;
    let _ = known;
    let setting = walk.ground.setting;
    let frame = setting.frame;
    let count = frame.shown.len();
    let width = setting.universe.bits;
    let made = constant_integers(walk.ground.alloc, gates, store, number, width, count)?;
    Ok(made)
}

/// The number of tuples of a set.
fn count_ints<
    G: Gates,
    F: for<'j> Fn(
        &'j Ground<'j>,
        &mut G,
        &mut Store,
        Wanted<'_>,
        &Known<'_>,
        u32,
    ) -> Result<Answer, AllocError>,
>(
    walk: &Walk<'_, F>,
    gates: &mut G,
    store: &mut Store,
    a: &Expr,
    known: &Known<'_>,
) -> Result<Vec<usize>, AllocError>
    requires walks { Walks G.belongs G.node_value walk.now.deep (F.pre walk.now.run)
        (F.post walk.now.run) }
    requires stored { AreStored (G.belongs gates.old) store.old }
    ensures keeps { Keeps G.belongs G.node_value gates.old gates.new }
    ensures stored { OnOk result (AreStored (G.belongs gates.new) store.new) }
    ensures extends { OnOk result (Extends store.old store.new) }
    ensures right { IfOk result (λ v. HasSingles walk.now.ground.now known.now
        (G.node_value gates.old) (G.node_value gates.new) store.old.matrices.items
        store.new.integers.items (count_of (term_of a.now)) v.items) }
{
    let first = part_sets(walk, gates, store, a, known)?;
    let universe = walk.ground.setting.universe;
    let op = IntegerOperator::Count;
    let made = made_integers(
        walk.ground.alloc,
        gates,
        store,
        universe,
        op,
        &first,
        &first,
    )?;
    Ok(made)
}

/// What one of the five operators gives.
fn arithmetic_ints<
    G: Gates,
    F: for<'j> Fn(
        &'j Ground<'j>,
        &mut G,
        &mut Store,
        Wanted<'_>,
        &Known<'_>,
        u32,
    ) -> Result<Answer, AllocError>,
>(
    walk: &Walk<'_, F>,
    gates: &mut G,
    store: &mut Store,
    op: IntOp,
    a: &Expr,
    b: &Expr,
    known: &Known<'_>,
) -> Result<Vec<usize>, AllocError>
    requires walks { Walks G.belongs G.node_value walk.now.deep (F.pre walk.now.run)
        (F.post walk.now.run) }
    requires stored { AreStored (G.belongs gates.old) store.old }
    ensures keeps { Keeps G.belongs G.node_value gates.old gates.new }
    ensures stored { OnOk result (AreStored (G.belongs gates.new) store.new) }
    ensures extends { OnOk result (Extends store.old store.new) }
    ensures right { IfOk result (λ v. HasSingles walk.now.ground.now known.now
        (G.node_value gates.old) (G.node_value gates.new) store.old.matrices.items
        store.new.integers.items (arithmetic op (term_of a.now) (term_of b.now)) v.items) }
{
    let first = part_integers(walk, gates, store, a, known)?;
    let second = part_integers(walk, gates, store, b, known)?;
    let universe = walk.ground.setting.universe;
    let op = IntegerOperator::Of(op);
    let made = made_integers(
        walk.ground.alloc,
        gates,
        store,
        universe,
        op,
        &first,
        &second,
    )?;
    Ok(made)
}

/// Where two integers compare so.
pub fn compare_row<
    G: Gates,
    F: for<'j> Fn(
        &'j Ground<'j>,
        &mut G,
        &mut Store,
        Wanted<'_>,
        &Known<'_>,
        u32,
    ) -> Result<Answer, AllocError>,
>(
    walk: &Walk<'_, F>,
    gates: &mut G,
    store: &mut Store,
    op: Comparison,
    a: &Expr,
    b: &Expr,
    known: &Known<'_>,
) -> Result<NodeList, AllocError>
    requires walks { Walks G.belongs G.node_value walk.now.deep (F.pre walk.now.run)
        (F.post walk.now.run) }
    requires stored { AreStored (G.belongs gates.old) store.old }
    ensures keeps { Keeps G.belongs G.node_value gates.old gates.new }
    ensures stored { OnOk result (AreStored (G.belongs gates.new) store.new) }
    ensures extends { OnOk result (Extends store.old store.new) }
    ensures belongs { IfOk result (λ row. AllIn (G.belongs gates.new) row) }
    ensures right { IfOk result (λ row. HasRow walk.now.ground.now known.now
        (G.node_value gates.old) (G.node_value gates.new) store.old.matrices.items
        (compare op (term_of a.now) (term_of b.now)) row) }
{
    let first = part_integers(walk, gates, store, a, known)?;
    let second = part_integers(walk, gates, store, b, known)?;
    let setting = walk.ground.setting;
    let frame = setting.frame;
    let count = frame.shown.len();
    let row = compared_row(walk.ground.alloc, gates, store, op, &first, &second, count)?;
    Ok(row)
}

/// The integers of an expression that is an integer. Its error is want of memory, or that it is another form.
fn form_integers<
    G: Gates,
    F: for<'j> Fn(
        &'j Ground<'j>,
        &mut G,
        &mut Store,
        Wanted<'_>,
        &Known<'_>,
        u32,
    ) -> Result<Answer, AllocError>,
>(
    walk: &Walk<'_, F>,
    gates: &mut G,
    store: &mut Store,
    expr: &Expr,
    known: &Known<'_>,
) -> Result<Vec<usize>, AllocError>
    requires walks { Walks G.belongs G.node_value walk.now.deep (F.pre walk.now.run)
        (F.post walk.now.run) }
    requires stored { AreStored (G.belongs gates.old) store.old }
    ensures keeps { Keeps G.belongs G.node_value gates.old gates.new }
    ensures stored { OnOk result (AreStored (G.belongs gates.new) store.new) }
    ensures extends { OnOk result (Extends store.old store.new) }
    ensures right { IfOk result (λ v. HasSingles walk.now.ground.now known.now
        (G.node_value gates.old) (G.node_value gates.new) store.old.matrices.items
        store.new.integers.items (term_of expr.now) v.items) }
{
    match expr {
        Expr::Number(number, place) => {
            let made = number_ints(walk, gates, store, *number, *place, known)?;
            Ok(made)
        }
        Expr::Count(a) => {
            let made = count_ints(walk, gates, store, a, known)?;
            Ok(made)
        }
        Expr::Arithmetic(op, a, b) => {
            let made = arithmetic_ints(walk, gates, store, *op, a, b, known)?;
            Ok(made)
        }
        Expr::Sum(list, a) => {
            let made = sum_ints(walk, gates, store, list, a, known)?;
            Ok(made)
        }
        _ => Err(AllocError),
    }
}

/// The sets of an expression that is an integer: each has the number of that integer alone.
pub fn single_sets<
    G: Gates,
    F: for<'j> Fn(
        &'j Ground<'j>,
        &mut G,
        &mut Store,
        Wanted<'_>,
        &Known<'_>,
        u32,
    ) -> Result<Answer, AllocError>,
>(
    walk: &Walk<'_, F>,
    gates: &mut G,
    store: &mut Store,
    expr: &Expr,
    known: &Known<'_>,
) -> Result<Vec<usize>, AllocError>
    requires walks { Walks G.belongs G.node_value walk.now.deep (F.pre walk.now.run)
        (F.post walk.now.run) }
    requires stored { AreStored (G.belongs gates.old) store.old }
    ensures keeps { Keeps G.belongs G.node_value gates.old gates.new }
    ensures stored { OnOk result (AreStored (G.belongs gates.new) store.new) }
    ensures extends { OnOk result (Extends store.old store.new) }
    ensures right { IfOk result (λ v. HasSets walk.now.ground.now known.now
        (G.node_value gates.old) (G.node_value gates.new) store.old.matrices.items
        store.new.matrices.items (term_of expr.now) v.items) }
{
    let first = form_integers(walk, gates, store, expr, known)?;
    let universe = walk.ground.setting.universe;
    let op = IntegerOperator::AsSet;
    let made = made_integers(
        walk.ground.alloc,
        gates,
        store,
        universe,
        op,
        &first,
        &first,
    )?;
    Ok(made)
}

/// The sums of the integers in the sets of an expression.
fn total_ints<
    G: Gates,
    F: for<'j> Fn(
        &'j Ground<'j>,
        &mut G,
        &mut Store,
        Wanted<'_>,
        &Known<'_>,
        u32,
    ) -> Result<Answer, AllocError>,
>(
    walk: &Walk<'_, F>,
    gates: &mut G,
    store: &mut Store,
    expr: &Expr,
    known: &Known<'_>,
) -> Result<Vec<usize>, AllocError>
    requires walks { Walks G.belongs G.node_value walk.now.deep (F.pre walk.now.run)
        (F.post walk.now.run) }
    requires stored { AreStored (G.belongs gates.old) store.old }
    ensures keeps { Keeps G.belongs G.node_value gates.old gates.new }
    ensures stored { OnOk result (AreStored (G.belongs gates.new) store.new) }
    ensures extends { OnOk result (Extends store.old store.new) }
    ensures right { IfOk result (λ v. HasNumbers walk.now.ground.now known.now
        (G.node_value gates.old) (G.node_value gates.new) store.old.matrices.items
        store.new.integers.items (term_of expr.now) v.items) }
{
    let first = part_sets(walk, gates, store, expr, known)?;
    let universe = walk.ground.setting.universe;
    let op = IntegerOperator::Total;
    let made = made_integers(
        walk.ground.alloc,
        gates,
        store,
        universe,
        op,
        &first,
        &first,
    )?;
    Ok(made)
}

/// Whether an expression is an integer, and not a relation in an integer place.
fn is_integer(expr: &Expr) -> bool {
    match expr {
        Expr::Number(_, _) => true,
        Expr::Count(_) => true,
        Expr::Arithmetic(_, _, _) => true,
        Expr::Sum(_, _) => true,
        _ => false,
    }
}

/// The integers for which an expression stands. Its error is want of memory, or that it is no form of the kernel.
pub fn integers_at<
    G: Gates,
    F: for<'j> Fn(
        &'j Ground<'j>,
        &mut G,
        &mut Store,
        Wanted<'_>,
        &Known<'_>,
        u32,
    ) -> Result<Answer, AllocError>,
>(
    walk: &Walk<'_, F>,
    gates: &mut G,
    store: &mut Store,
    expr: &Expr,
    known: &Known<'_>,
) -> Result<Vec<usize>, AllocError>
    requires walks { Walks G.belongs G.node_value walk.now.deep (F.pre walk.now.run)
        (F.post walk.now.run) }
    requires stored { AreStored (G.belongs gates.old) store.old }
    ensures keeps { Keeps G.belongs G.node_value gates.old gates.new }
    ensures stored { OnOk result (AreStored (G.belongs gates.new) store.new) }
    ensures extends { OnOk result (Extends store.old store.new) }
    ensures right { IfOk result (λ v. HasNumbers walk.now.ground.now known.now
        (G.node_value gates.old) (G.node_value gates.new) store.old.matrices.items
        store.new.integers.items (term_of expr.now) v.items) }
{
    if is_integer(expr) {
        let made = form_integers(walk, gates, store, expr, known)?;
        return Ok(made);
    }
    let made = total_ints(walk, gates, store, expr, known)?;
    Ok(made)
}
