//! What each form of an expression or a formula has, by its rule.

ghost use Rattle.std.specs.Prelude.{IfOk, OnOk};
ghost use Rattle.gate_trait.specs.Built.{Keeps, AllIn};
ghost use Rattle.core_tree.specs.Trees.{term_of, claim_of};
ghost use Rattle.bmc_stack.specs.Stored.{AreStored};
ghost use Rattle.bmc_places.specs.Stores.{Extends};
ghost use Rattle.bmc_walk.specs.Walked.{HasSets, HasRow};
ghost use Rattle.bmc_walk.specs.Walks.{Walks};

use crate::arrows::within_row;
use crate::choices::comprehension_sets;
use crate::formulas::{
    choice_row, connect_row, every_row, in_row, not_row, pair_row, same_row, temporal_row, test_row,
};
use crate::integers::{compare_row, single_sets};
use crate::leaves::{empty_leaf, field_leaf, iden_leaf, int_leaf, name_leaf, sig_leaf, univ_leaf};
use crate::sets::{choose_sets, combine_sets, prime_sets, product_sets, unary_sets};
use crate::variables::all_row;
use crate::walk::{Answer, Ground, Known, Walk, Wanted};
use bmc_stack::Store;
use core_tree::{Expr, Formula};
use gate_trait::{Gates, NodeList};
use std::alloc::AllocError;

/// The sets of an expression without parts. Its error is want of memory, or that it is another form.
fn leaf_sets<
    G: Gates,
    F: for<'j> Fn(
        &'j Ground<'j>,
        &mut G,
        &mut Store,
        Wanted<'_>,
        &Known<'_>,
        u32,
    ) -> Result<Answer, AllocError>,
>(
    walk: &Walk<'_, F>,
    gates: &mut G,
    store: &mut Store,
    expr: &Expr,
    known: &Known<'_>,
) -> Result<Vec<usize>, AllocError>
    requires walks { Walks G.belongs G.node_value walk.now.deep (F.pre walk.now.run)
        (F.post walk.now.run) }
    requires stored { AreStored (G.belongs gates.old) store.old }
    ensures keeps { Keeps G.belongs G.node_value gates.old gates.new }
    ensures stored { OnOk result (AreStored (G.belongs gates.new) store.new) }
    ensures extends { OnOk result (Extends store.old store.new) }
    ensures right { IfOk result (λ v. HasSets walk.now.ground.now known.now
        (G.node_value gates.old) (G.node_value gates.new) store.old.matrices.items
        store.new.matrices.items (term_of expr.now) v.items) }
{
    match expr {
        Expr::Sig(sig) => {
            let value = sig_leaf(walk.ground, *sig)?;
            Ok(value)
        }
        Expr::Field(field) => {
            let value = field_leaf(walk.ground, *field)?;
            Ok(value)
        }
        Expr::Name(name) => {
            let value = name_leaf(walk.ground, gates, store, *name, known)?;
            Ok(value)
        }
        Expr::Univ => {
            let value = univ_leaf(walk.ground)?;
            Ok(value)
        }
        Expr::Iden => {
            let value = iden_leaf(walk.ground)?;
            Ok(value)
        }
        Expr::Int => {
            let value = int_leaf(walk.ground)?;
            Ok(value)
        }
        Expr::Empty => {
            let value = empty_leaf(walk.ground, gates, store, known)?;
            Ok(value)
        }
        _ => Err(AllocError),
    }
}

/// The sets of an expression. Its error is want of memory, or that it is no form of the kernel.
pub fn sets_at<
    G: Gates,
    F: for<'j> Fn(
        &'j Ground<'j>,
        &mut G,
        &mut Store,
        Wanted<'_>,
        &Known<'_>,
        u32,
    ) -> Result<Answer, AllocError>,
>(
    walk: &Walk<'_, F>,
    gates: &mut G,
    store: &mut Store,
    expr: &Expr,
    known: &Known<'_>,
) -> Result<Vec<usize>, AllocError>
    requires walks { Walks G.belongs G.node_value walk.now.deep (F.pre walk.now.run)
        (F.post walk.now.run) }
    requires stored { AreStored (G.belongs gates.old) store.old }
    ensures keeps { Keeps G.belongs G.node_value gates.old gates.new }
    ensures stored { OnOk result (AreStored (G.belongs gates.new) store.new) }
    ensures extends { OnOk result (Extends store.old store.new) }
    ensures right { IfOk result (λ v. HasSets walk.now.ground.now known.now
        (G.node_value gates.old) (G.node_value gates.new) store.old.matrices.items
        store.new.matrices.items (term_of expr.now) v.items) }
{
    match expr {
        Expr::Combine(_, _, _) => {
            let made = combine_sets(walk, gates, store, expr, known)?;
            Ok(made)
        }
        Expr::Product(a, left, right, b) => {
            let made = product_sets(walk, gates, store, a, *left, *right, b, known)?;
            Ok(made)
        }
        Expr::Unary(op, a) => {
            let made = unary_sets(walk, gates, store, *op, a, known)?;
            Ok(made)
        }
        Expr::Prime(a) => {
            let made = prime_sets(walk, gates, store, a, known)?;
            Ok(made)
        }
        Expr::Choose(f, a, b) => {
            let made = choose_sets(walk, gates, store, f, a, b, known)?;
            Ok(made)
        }
        Expr::Comprehension(list, f) => {
            let made = comprehension_sets(walk, gates, store, list, f, known)?;
            Ok(made)
        }
        Expr::Number(_, _) => {
            let made = single_sets(walk, gates, store, expr, known)?;
            Ok(made)
        }
        Expr::Count(_) => {
            let made = single_sets(walk, gates, store, expr, known)?;
            Ok(made)
        }
        Expr::Arithmetic(_, _, _) => {
            let made = single_sets(walk, gates, store, expr, known)?;
            Ok(made)
        }
        Expr::Sum(_, _) => {
            let made = single_sets(walk, gates, store, expr, known)?;
            Ok(made)
        }
        _ => {
            let made = leaf_sets(walk, gates, store, expr, known)?;
            Ok(made)
        }
    }
}

/// Where a formula of one or two sets or integers holds. Its error is want of memory, or that it is another form.
fn test_form_row<
    G: Gates,
    F: for<'j> Fn(
        &'j Ground<'j>,
        &mut G,
        &mut Store,
        Wanted<'_>,
        &Known<'_>,
        u32,
    ) -> Result<Answer, AllocError>,
>(
    walk: &Walk<'_, F>,
    gates: &mut G,
    store: &mut Store,
    formula: &Formula,
    known: &Known<'_>,
) -> Result<NodeList, AllocError>
    requires walks { Walks G.belongs G.node_value walk.now.deep (F.pre walk.now.run)
        (F.post walk.now.run) }
    requires stored { AreStored (G.belongs gates.old) store.old }
    ensures keeps { Keeps G.belongs G.node_value gates.old gates.new }
    ensures stored { OnOk result (AreStored (G.belongs gates.new) store.new) }
    ensures extends { OnOk result (Extends store.old store.new) }
    ensures belongs { IfOk result (λ row. AllIn (G.belongs gates.new) row) }
    ensures right { IfOk result (λ row. HasRow walk.now.ground.now known.now
        (G.node_value gates.old) (G.node_value gates.new) store.old.matrices.items
        (claim_of formula.now) row) }
{
    match formula {
        Formula::Inside(a, b) => {
            let row = in_row(walk, gates, store, a, b, known)?;
            Ok(row)
        }
        Formula::Equal(a, b) => {
            let row = same_row(walk, gates, store, a, b, known)?;
            Ok(row)
        }
        Formula::Within(a, word, b) => {
            let row = within_row(walk, gates, store, a, *word, b, known)?;
            Ok(row)
        }
        Formula::Compare(op, a, b) => {
            let row = compare_row(walk, gates, store, *op, a, b, known)?;
            Ok(row)
        }
        Formula::Test(quantity, a) => {
            let row = test_row(walk, gates, store, *quantity, a, known)?;
            Ok(row)
        }
        _ => Err(AllocError),
    }
}

/// Where a formula holds. Its error is want of memory, or that it is no form of the kernel.
pub fn row_at<
    G: Gates,
    F: for<'j> Fn(
        &'j Ground<'j>,
        &mut G,
        &mut Store,
        Wanted<'_>,
        &Known<'_>,
        u32,
    ) -> Result<Answer, AllocError>,
>(
    walk: &Walk<'_, F>,
    gates: &mut G,
    store: &mut Store,
    formula: &Formula,
    known: &Known<'_>,
) -> Result<NodeList, AllocError>
    requires walks { Walks G.belongs G.node_value walk.now.deep (F.pre walk.now.run)
        (F.post walk.now.run) }
    requires stored { AreStored (G.belongs gates.old) store.old }
    ensures keeps { Keeps G.belongs G.node_value gates.old gates.new }
    ensures stored { OnOk result (AreStored (G.belongs gates.new) store.new) }
    ensures extends { OnOk result (Extends store.old store.new) }
    ensures belongs { IfOk result (λ row. AllIn (G.belongs gates.new) row) }
    ensures right { IfOk result (λ row. HasRow walk.now.ground.now known.now
        (G.node_value gates.old) (G.node_value gates.new) store.old.matrices.items
        (claim_of formula.now) row) }
{
    match formula {
        Formula::Not(f) => {
            let row = not_row(walk, gates, store, f, known)?;
            Ok(row)
        }
        Formula::Every(list) => {
            let row = every_row(walk, gates, store, list, known)?;
            Ok(row)
        }
        Formula::Connect(op, f, g) => {
            let row = connect_row(walk, gates, store, *op, f, g, known)?;
            Ok(row)
        }
        Formula::Choose(f, g, h) => {
            let row = choice_row(walk, gates, store, f, g, h, known)?;
            Ok(row)
        }
        Formula::ForAll(list, f) => {
            let row = all_row(walk, gates, store, list, f, known)?;
            Ok(row)
        }
        Formula::Temporal(op, f) => {
            let row = temporal_row(walk, gates, store, *op, f, known)?;
            Ok(row)
        }
        Formula::TemporalPair(op, f, g) => {
            let row = pair_row(walk, gates, store, *op, f, g, known)?;
            Ok(row)
        }
        _ => {
            let row = test_form_row(walk, gates, store, formula, known)?;
            Ok(row)
        }
    }
}
