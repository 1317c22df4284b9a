//! The rules of expressions whose sets are wanted.

ghost use Rattle.std.specs.Prelude.{IfOk, OnOk};
ghost use Rattle.gate_trait.specs.Built.{Keeps};
ghost use Rattle.core_tree.specs.Trees.{term_of, claim_of, choose_term, product, unary, prime};
ghost use Rattle.bmc_stack.specs.Stored.{AreStored};
ghost use Rattle.bmc_places.specs.Stores.{Extends};
ghost use Rattle.bmc_walk.specs.Walked.{HasSets, AddsOperand};
ghost use Rattle.bmc_walk.specs.Walks.{Walks};

use crate::levels::row_of;
use crate::walk::{Answer, Ground, Known, Walk, Wanted, part_row, part_sets};
use bmc_leaves::loops::loop_choices;
use bmc_places::rounds::next_sets;
use bmc_places::{chosen_sets, made_sets};
use bmc_stack::Store;
use core_tree::{Expr, Formula, Multiplicity, RelationOp, UnaryRelation};
use gate_sets::SetOperator;
use gate_trait::Gates;
use std::alloc::AllocError;

/// The sets of the first expression where a formula holds, else those of the second.
pub fn choose_sets<
    G: Gates,
    F: for<'j> Fn(
        &'j Ground<'j>,
        &mut G,
        &mut Store,
        Wanted<'_>,
        &Known<'_>,
        u32,
    ) -> Result<Answer, AllocError>,
>(
    walk: &Walk<'_, F>,
    gates: &mut G,
    store: &mut Store,
    f: &Formula,
    a: &Expr,
    b: &Expr,
    known: &Known<'_>,
) -> Result<Vec<usize>, AllocError>
    requires walks { Walks G.belongs G.node_value walk.now.deep (F.pre walk.now.run)
        (F.post walk.now.run) }
    requires stored { AreStored (G.belongs gates.old) store.old }
    ensures keeps { Keeps G.belongs G.node_value gates.old gates.new }
    ensures stored { OnOk result (AreStored (G.belongs gates.new) store.new) }
    ensures extends { OnOk result (Extends store.old store.new) }
    ensures right { IfOk result (λ v. HasSets walk.now.ground.now known.now
        (G.node_value gates.old) (G.node_value gates.new) store.old.matrices.items
        store.new.matrices.items (choose_term (claim_of f.now) (term_of a.now)
        (term_of b.now)) v.items) }
{
    let first = part_sets(walk, gates, store, a, known)?;
    let second = part_sets(walk, gates, store, b, known)?;
    let row = part_row(walk, gates, store, f, known)?;
    let made = chosen_sets(walk.ground.alloc, gates, store, &row, &first, &second)?;
    Ok(made)
}

/// The sets of an operator on two relations, of which those of the left one stand already.
fn combined<
    G: Gates,
    F: for<'j> Fn(
        &'j Ground<'j>,
        &mut G,
        &mut Store,
        Wanted<'_>,
        &Known<'_>,
        u32,
    ) -> Result<Answer, AllocError>,
>(
    walk: &Walk<'_, F>,
    gates: &mut G,
    store: &mut Store,
    op: RelationOp,
    first: &Vec<usize>,
    b: &Expr,
    known: &Known<'_>,
) -> Result<Vec<usize>, AllocError>
    requires walks { Walks G.belongs G.node_value walk.now.deep (F.pre walk.now.run)
        (F.post walk.now.run) }
    requires stored { AreStored (G.belongs gates.old) store.old }
    ensures keeps { Keeps G.belongs G.node_value gates.old gates.new }
    ensures stored { OnOk result (AreStored (G.belongs gates.new) store.new) }
    ensures extends { OnOk result (Extends store.old store.new) }
    ensures right { IfOk result (λ v. AddsOperand walk.now.ground.now known.now
        (G.node_value gates.old) (G.node_value gates.new) store.old.matrices.items
        store.new.matrices.items op (term_of b.now) first.now.items v.items) }
{
    let second = part_sets(walk, gates, store, b, known)?;
    let universe = walk.ground.setting.universe;
    let operator = SetOperator::Combine(op);
    let made = made_sets(
        walk.ground.alloc,
        gates,
        store,
        universe,
        operator,
        first,
        &second,
    )?;
    Ok(made)
}

/// The sets of an operator on two relations. A row of operators takes one level, however long it is.
pub fn combine_sets<
    G: Gates,
    F: for<'j> Fn(
        &'j Ground<'j>,
        &mut G,
        &mut Store,
        Wanted<'_>,
        &Known<'_>,
        u32,
    ) -> Result<Answer, AllocError>,
>(
    walk: &Walk<'_, F>,
    gates: &mut G,
    store: &mut Store,
    expr: &Expr,
    known: &Known<'_>,
) -> Result<Vec<usize>, AllocError>
    requires walks { Walks G.belongs G.node_value walk.now.deep (F.pre walk.now.run)
        (F.post walk.now.run) }
    requires stored { AreStored (G.belongs gates.old) store.old }
    ensures keeps { Keeps G.belongs G.node_value gates.old gates.new }
    ensures stored { OnOk result (AreStored (G.belongs gates.new) store.new) }
    ensures extends { OnOk result (Extends store.old store.new) }
    ensures right { IfOk result (λ v. HasSets walk.now.ground.now known.now
        (G.node_value gates.old) (G.node_value gates.new) store.old.matrices.items
        store.new.matrices.items (term_of expr.now) v.items) }
{
    let row = row_of(walk.ground.alloc, expr)?;
    let operands = row.operands.as_slice();
    let mut made = part_sets(walk, gates, store, row.first, known)?;
    for turn in 0..operands.len() {
        let place = operands.len() - 1 - turn;
        let operand = &operands[place];
        let next = combined(walk, gates, store, operand.op, &made, operand.expr, known)?;
        made = next;
    }
    Ok(made)
}

/// The sets of a product.
pub fn product_sets<
    G: Gates,
    F: for<'j> Fn(
        &'j Ground<'j>,
        &mut G,
        &mut Store,
        Wanted<'_>,
        &Known<'_>,
        u32,
    ) -> Result<Answer, AllocError>,
>(
    walk: &Walk<'_, F>,
    gates: &mut G,
    store: &mut Store,
    a: &Expr,
    left: Multiplicity,
    right: Multiplicity,
    b: &Expr,
    known: &Known<'_>,
) -> Result<Vec<usize>, AllocError>
    requires walks { Walks G.belongs G.node_value walk.now.deep (F.pre walk.now.run)
        (F.post walk.now.run) }
    requires stored { AreStored (G.belongs gates.old) store.old }
    ensures keeps { Keeps G.belongs G.node_value gates.old gates.new }
    ensures stored { OnOk result (AreStored (G.belongs gates.new) store.new) }
    ensures extends { OnOk result (Extends store.old store.new) }
    ensures right { IfOk result (λ v. HasSets walk.now.ground.now known.now
        (G.node_value gates.old) (G.node_value gates.new) store.old.matrices.items
        store.new.matrices.items (product (term_of a.now) left right (term_of b.now)) v.items) }
{
    // for the proof: only the clauses name the multiplicities
    let _ = (left, right);
    let first = part_sets(walk, gates, store, a, known)?;
    let second = part_sets(walk, gates, store, b, known)?;
    let universe = walk.ground.setting.universe;
    let operator = SetOperator::Product;
    let made = made_sets(
        walk.ground.alloc,
        gates,
        store,
        universe,
        operator,
        &first,
        &second,
    )?;
    Ok(made)
}

/// The sets of a relation turned round.
fn transpose_sets<
    G: Gates,
    F: for<'j> Fn(
        &'j Ground<'j>,
        &mut G,
        &mut Store,
        Wanted<'_>,
        &Known<'_>,
        u32,
    ) -> Result<Answer, AllocError>,
>(
    walk: &Walk<'_, F>,
    gates: &mut G,
    store: &mut Store,
    a: &Expr,
    known: &Known<'_>,
) -> Result<Vec<usize>, AllocError>
    requires walks { Walks G.belongs G.node_value walk.now.deep (F.pre walk.now.run)
        (F.post walk.now.run) }
    requires stored { AreStored (G.belongs gates.old) store.old }
    ensures keeps { Keeps G.belongs G.node_value gates.old gates.new }
    ensures stored { OnOk result (AreStored (G.belongs gates.new) store.new) }
    ensures extends { OnOk result (Extends store.old store.new) }
    ensures right { IfOk result (λ v. HasSets walk.now.ground.now known.now
        (G.node_value gates.old) (G.node_value gates.new) store.old.matrices.items
        store.new.matrices.items (unary UnaryRelation.Transpose (term_of a.now)) v.items) }
{
    let first = part_sets(walk, gates, store, a, known)?;
    let universe = walk.ground.setting.universe;
    let operator = SetOperator::Transpose;
    let made = made_sets(
        walk.ground.alloc,
        gates,
        store,
        universe,
        operator,
        &first,
        &first,
    )?;
    Ok(made)
}

/// The sets of a transitive closure.
fn closure_sets<
    G: Gates,
    F: for<'j> Fn(
        &'j Ground<'j>,
        &mut G,
        &mut Store,
        Wanted<'_>,
        &Known<'_>,
        u32,
    ) -> Result<Answer, AllocError>,
>(
    walk: &Walk<'_, F>,
    gates: &mut G,
    store: &mut Store,
    a: &Expr,
    known: &Known<'_>,
) -> Result<Vec<usize>, AllocError>
    requires walks { Walks G.belongs G.node_value walk.now.deep (F.pre walk.now.run)
        (F.post walk.now.run) }
    requires stored { AreStored (G.belongs gates.old) store.old }
    ensures keeps { Keeps G.belongs G.node_value gates.old gates.new }
    ensures stored { OnOk result (AreStored (G.belongs gates.new) store.new) }
    ensures extends { OnOk result (Extends store.old store.new) }
    ensures right { IfOk result (λ v. HasSets walk.now.ground.now known.now
        (G.node_value gates.old) (G.node_value gates.new) store.old.matrices.items
        store.new.matrices.items (unary UnaryRelation.Closure (term_of a.now)) v.items) }
{
    let first = part_sets(walk, gates, store, a, known)?;
    let universe = walk.ground.setting.universe;
    let operator = SetOperator::Closure;
    let made = made_sets(
        walk.ground.alloc,
        gates,
        store,
        universe,
        operator,
        &first,
        &first,
    )?;
    Ok(made)
}

/// The sets of an operator on one relation. Its error is want of memory, or that the kernel hasn't the operator.
pub fn unary_sets<
    G: Gates,
    F: for<'j> Fn(
        &'j Ground<'j>,
        &mut G,
        &mut Store,
        Wanted<'_>,
        &Known<'_>,
        u32,
    ) -> Result<Answer, AllocError>,
>(
    walk: &Walk<'_, F>,
    gates: &mut G,
    store: &mut Store,
    op: UnaryRelation,
    a: &Expr,
    known: &Known<'_>,
) -> Result<Vec<usize>, AllocError>
    requires walks { Walks G.belongs G.node_value walk.now.deep (F.pre walk.now.run)
        (F.post walk.now.run) }
    requires stored { AreStored (G.belongs gates.old) store.old }
    ensures keeps { Keeps G.belongs G.node_value gates.old gates.new }
    ensures stored { OnOk result (AreStored (G.belongs gates.new) store.new) }
    ensures extends { OnOk result (Extends store.old store.new) }
    ensures right { IfOk result (λ v. HasSets walk.now.ground.now known.now
        (G.node_value gates.old) (G.node_value gates.new) store.old.matrices.items
        store.new.matrices.items (unary op (term_of a.now)) v.items) }
{
    match op {
        UnaryRelation::Transpose => {
            let made = transpose_sets(walk, gates, store, a, known)?;
            Ok(made)
        }
        UnaryRelation::Closure => {
            let made = closure_sets(walk, gates, store, a, known)?;
            Ok(made)
        }
        UnaryRelation::ReflexiveClosure => Err(AllocError),
    }
}

/// The sets of an expression at the next positions.
pub fn prime_sets<
    G: Gates,
    F: for<'j> Fn(
        &'j Ground<'j>,
        &mut G,
        &mut Store,
        Wanted<'_>,
        &Known<'_>,
        u32,
    ) -> Result<Answer, AllocError>,
>(
    walk: &Walk<'_, F>,
    gates: &mut G,
    store: &mut Store,
    a: &Expr,
    known: &Known<'_>,
) -> Result<Vec<usize>, AllocError>
    requires walks { Walks G.belongs G.node_value walk.now.deep (F.pre walk.now.run)
        (F.post walk.now.run) }
    requires stored { AreStored (G.belongs gates.old) store.old }
    ensures keeps { Keeps G.belongs G.node_value gates.old gates.new }
    ensures stored { OnOk result (AreStored (G.belongs gates.new) store.new) }
    ensures extends { OnOk result (Extends store.old store.new) }
    ensures right { IfOk result (λ v. HasSets walk.now.ground.now known.now
        (G.node_value gates.old) (G.node_value gates.new) store.old.matrices.items
        store.new.matrices.items (prime (term_of a.now)) v.items) }
{
    let first = part_sets(walk, gates, store, a, known)?;
    let setting = walk.ground.setting;
    let frame = setting.frame;
    let choices = loop_choices(
        walk.ground.alloc,
        gates,
        setting.bounds.states,
        setting.layout.loops,
    )?;
    let made = next_sets(walk.ground.alloc, gates, store, frame, &choices, &first)?;
    Ok(made)
}
