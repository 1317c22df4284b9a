//! What stands in a binder's scope and doesn't depend on its variables is built once, before them.

ghost use Rattle.std.specs.Prelude.{IfOk, OnOk};
ghost use Rattle.gate_trait.specs.Built.{Keeps, AllIn};
ghost use Rattle.core_tree.specs.Trees.{term_of, claim_of};
ghost use Rattle.bmc_stack.specs.Stored.{AreStored};
ghost use Rattle.bmc_places.specs.Stores.{Extends};
ghost use Rattle.bmc_walk.specs.Walked.{HasSets, HasNumbers, HasRow};
ghost use Rattle.bmc_walk.specs.Walks.{Walks};

use crate::forms::{row_at, sets_at};
use crate::inside::{inside_expr, inside_formula};
use crate::integers::integers_at;
use crate::ready::{find_ready, made_sets};
use crate::walk::{Answer, Ground, Known, Ready, Walk, Wanted};
use bmc_stack::Store;
use core_tree::{Expr, Formula};
use gate_trait::{Gates, NodeList};
use std::alloc::AllocError;

/// Whether an expression has variables.
fn is_binder(expr: &Expr) -> bool {
    matches!(expr, Expr::Comprehension(_, _) | Expr::Sum(_, _))
}

/// Whether a formula has variables.
fn is_for_all(formula: &Formula) -> bool {
    matches!(formula, Formula::ForAll(_, _))
}

/// The sets of an expression, where others are built before its variables stand for atoms.
#[inline(never)]
fn inner_sets<
    G: Gates,
    F: for<'j> Fn(
        &'j Ground<'j>,
        &mut G,
        &mut Store,
        Wanted<'_>,
        &Known<'_>,
        u32,
    ) -> Result<Answer, AllocError>
        + Copy,
>(
    walk: &Walk<'_, F>,
    gates: &mut G,
    store: &mut Store,
    list: &Vec<&Expr>,
    expr: &Expr,
    known: &Known<'_>,
) -> Result<Vec<usize>, AllocError>
    requires walks { Walks G.belongs G.node_value walk.now.deep (F.pre walk.now.run)
        (F.post walk.now.run) }
    requires stored { AreStored (G.belongs gates.old) store.old }
    ensures keeps { Keeps G.belongs G.node_value gates.old gates.new }
    ensures stored { OnOk result (AreStored (G.belongs gates.new) store.new) }
    ensures extends { OnOk result (Extends store.old store.new) }
    ensures right { IfOk result (λ v. HasSets walk.now.ground.now known.now
        (G.node_value gates.old) (G.node_value gates.new) store.old.matrices.items
        store.new.matrices.items (term_of expr.now) v.items) }
{
    let all = made_sets(walk, gates, store, list, known)?;
    let ready = Ready::Sets(&all, known, walk.ground.ready);
    let ground = Ground {
        alloc: walk.ground.alloc,
        setting: walk.ground.setting,
        kept: walk.ground.kept,
        ready: &ready,
    };
    let inner = Walk {
        ground: &ground,
        deep: walk.deep,
        run: walk.run,
    };
    let sets = sets_at(&inner, gates, store, expr, known)?;
    Ok(sets)
}

/// The sets of an expression with variables.
#[inline(never)]
fn bound_sets<
    G: Gates,
    F: for<'j> Fn(
        &'j Ground<'j>,
        &mut G,
        &mut Store,
        Wanted<'_>,
        &Known<'_>,
        u32,
    ) -> Result<Answer, AllocError>
        + Copy,
>(
    walk: &Walk<'_, F>,
    gates: &mut G,
    store: &mut Store,
    expr: &Expr,
    known: &Known<'_>,
) -> Result<Vec<usize>, AllocError>
    requires walks { Walks G.belongs G.node_value walk.now.deep (F.pre walk.now.run)
        (F.post walk.now.run) }
    requires stored { AreStored (G.belongs gates.old) store.old }
    ensures keeps { Keeps G.belongs G.node_value gates.old gates.new }
    ensures stored { OnOk result (AreStored (G.belongs gates.new) store.new) }
    ensures extends { OnOk result (Extends store.old store.new) }
    ensures right { IfOk result (λ v. HasSets walk.now.ground.now known.now
        (G.node_value gates.old) (G.node_value gates.new) store.old.matrices.items
        store.new.matrices.items (term_of expr.now) v.items) }
{
    let found = find_ready(walk.ground.alloc, walk.ground.ready, expr, known)?;
    match found {
        Some(numbers) => return Ok(numbers),
        None => {}
    }
    let list = inside_expr(walk.ground.alloc, expr)?;
    if list.is_empty() {
        let sets = sets_at(walk, gates, store, expr, known)?;
        return Ok(sets);
    }
    let sets = inner_sets(walk, gates, store, &list, expr, known)?;
    Ok(sets)
}

/// The sets of an expression.
pub fn sets_once<
    G: Gates,
    F: for<'j> Fn(
        &'j Ground<'j>,
        &mut G,
        &mut Store,
        Wanted<'_>,
        &Known<'_>,
        u32,
    ) -> Result<Answer, AllocError>
        + Copy,
>(
    walk: &Walk<'_, F>,
    gates: &mut G,
    store: &mut Store,
    expr: &Expr,
    known: &Known<'_>,
) -> Result<Vec<usize>, AllocError>
    requires walks { Walks G.belongs G.node_value walk.now.deep (F.pre walk.now.run)
        (F.post walk.now.run) }
    requires stored { AreStored (G.belongs gates.old) store.old }
    ensures keeps { Keeps G.belongs G.node_value gates.old gates.new }
    ensures stored { OnOk result (AreStored (G.belongs gates.new) store.new) }
    ensures extends { OnOk result (Extends store.old store.new) }
    ensures right { IfOk result (λ v. HasSets walk.now.ground.now known.now
        (G.node_value gates.old) (G.node_value gates.new) store.old.matrices.items
        store.new.matrices.items (term_of expr.now) v.items) }
{
    let binds = is_binder(expr);
    if binds {
        let sets = bound_sets(walk, gates, store, expr, known)?;
        return Ok(sets);
    }
    let sets = sets_at(walk, gates, store, expr, known)?;
    Ok(sets)
}

/// The integers of an expression, where others are built before its variables stand for atoms.
#[inline(never)]
fn inner_integers<
    G: Gates,
    F: for<'j> Fn(
        &'j Ground<'j>,
        &mut G,
        &mut Store,
        Wanted<'_>,
        &Known<'_>,
        u32,
    ) -> Result<Answer, AllocError>
        + Copy,
>(
    walk: &Walk<'_, F>,
    gates: &mut G,
    store: &mut Store,
    list: &Vec<&Expr>,
    expr: &Expr,
    known: &Known<'_>,
) -> Result<Vec<usize>, AllocError>
    requires walks { Walks G.belongs G.node_value walk.now.deep (F.pre walk.now.run)
        (F.post walk.now.run) }
    requires stored { AreStored (G.belongs gates.old) store.old }
    ensures keeps { Keeps G.belongs G.node_value gates.old gates.new }
    ensures stored { OnOk result (AreStored (G.belongs gates.new) store.new) }
    ensures extends { OnOk result (Extends store.old store.new) }
    ensures right { IfOk result (λ v. HasNumbers walk.now.ground.now known.now
        (G.node_value gates.old) (G.node_value gates.new) store.old.matrices.items
        store.new.integers.items (term_of expr.now) v.items) }
{
    let all = made_sets(walk, gates, store, list, known)?;
    let ready = Ready::Sets(&all, known, walk.ground.ready);
    let ground = Ground {
        alloc: walk.ground.alloc,
        setting: walk.ground.setting,
        kept: walk.ground.kept,
        ready: &ready,
    };
    let inner = Walk {
        ground: &ground,
        deep: walk.deep,
        run: walk.run,
    };
    let made = integers_at(&inner, gates, store, expr, known)?;
    Ok(made)
}

/// The integers of an expression with variables.
#[inline(never)]
fn bound_integers<
    G: Gates,
    F: for<'j> Fn(
        &'j Ground<'j>,
        &mut G,
        &mut Store,
        Wanted<'_>,
        &Known<'_>,
        u32,
    ) -> Result<Answer, AllocError>
        + Copy,
>(
    walk: &Walk<'_, F>,
    gates: &mut G,
    store: &mut Store,
    expr: &Expr,
    known: &Known<'_>,
) -> Result<Vec<usize>, AllocError>
    requires walks { Walks G.belongs G.node_value walk.now.deep (F.pre walk.now.run)
        (F.post walk.now.run) }
    requires stored { AreStored (G.belongs gates.old) store.old }
    ensures keeps { Keeps G.belongs G.node_value gates.old gates.new }
    ensures stored { OnOk result (AreStored (G.belongs gates.new) store.new) }
    ensures extends { OnOk result (Extends store.old store.new) }
    ensures right { IfOk result (λ v. HasNumbers walk.now.ground.now known.now
        (G.node_value gates.old) (G.node_value gates.new) store.old.matrices.items
        store.new.integers.items (term_of expr.now) v.items) }
{
    let list = inside_expr(walk.ground.alloc, expr)?;
    if list.is_empty() {
        let made = integers_at(walk, gates, store, expr, known)?;
        return Ok(made);
    }
    let made = inner_integers(walk, gates, store, &list, expr, known)?;
    Ok(made)
}

/// The integers of an expression.
pub fn integers_once<
    G: Gates,
    F: for<'j> Fn(
        &'j Ground<'j>,
        &mut G,
        &mut Store,
        Wanted<'_>,
        &Known<'_>,
        u32,
    ) -> Result<Answer, AllocError>
        + Copy,
>(
    walk: &Walk<'_, F>,
    gates: &mut G,
    store: &mut Store,
    expr: &Expr,
    known: &Known<'_>,
) -> Result<Vec<usize>, AllocError>
    requires walks { Walks G.belongs G.node_value walk.now.deep (F.pre walk.now.run)
        (F.post walk.now.run) }
    requires stored { AreStored (G.belongs gates.old) store.old }
    ensures keeps { Keeps G.belongs G.node_value gates.old gates.new }
    ensures stored { OnOk result (AreStored (G.belongs gates.new) store.new) }
    ensures extends { OnOk result (Extends store.old store.new) }
    ensures right { IfOk result (λ v. HasNumbers walk.now.ground.now known.now
        (G.node_value gates.old) (G.node_value gates.new) store.old.matrices.items
        store.new.integers.items (term_of expr.now) v.items) }
{
    let binds = is_binder(expr);
    if binds {
        let made = bound_integers(walk, gates, store, expr, known)?;
        return Ok(made);
    }
    let made = integers_at(walk, gates, store, expr, known)?;
    Ok(made)
}

/// Where a formula holds, where others are built before its variables stand for atoms.
#[inline(never)]
fn inner_row<
    G: Gates,
    F: for<'j> Fn(
        &'j Ground<'j>,
        &mut G,
        &mut Store,
        Wanted<'_>,
        &Known<'_>,
        u32,
    ) -> Result<Answer, AllocError>
        + Copy,
>(
    walk: &Walk<'_, F>,
    gates: &mut G,
    store: &mut Store,
    list: &Vec<&Expr>,
    formula: &Formula,
    known: &Known<'_>,
) -> Result<NodeList, AllocError>
    requires walks { Walks G.belongs G.node_value walk.now.deep (F.pre walk.now.run)
        (F.post walk.now.run) }
    requires stored { AreStored (G.belongs gates.old) store.old }
    ensures keeps { Keeps G.belongs G.node_value gates.old gates.new }
    ensures stored { OnOk result (AreStored (G.belongs gates.new) store.new) }
    ensures extends { OnOk result (Extends store.old store.new) }
    ensures belongs { IfOk result (λ row. AllIn (G.belongs gates.new) row) }
    ensures right { IfOk result (λ row. HasRow walk.now.ground.now known.now
        (G.node_value gates.old) (G.node_value gates.new) store.old.matrices.items
        (claim_of formula.now) row) }
{
    let all = made_sets(walk, gates, store, list, known)?;
    let ready = Ready::Sets(&all, known, walk.ground.ready);
    let ground = Ground {
        alloc: walk.ground.alloc,
        setting: walk.ground.setting,
        kept: walk.ground.kept,
        ready: &ready,
    };
    let inner = Walk {
        ground: &ground,
        deep: walk.deep,
        run: walk.run,
    };
    let row = row_at(&inner, gates, store, formula, known)?;
    Ok(row)
}

/// Where a formula holds with variables.
#[inline(never)]
fn bound_row<
    G: Gates,
    F: for<'j> Fn(
        &'j Ground<'j>,
        &mut G,
        &mut Store,
        Wanted<'_>,
        &Known<'_>,
        u32,
    ) -> Result<Answer, AllocError>
        + Copy,
>(
    walk: &Walk<'_, F>,
    gates: &mut G,
    store: &mut Store,
    formula: &Formula,
    known: &Known<'_>,
) -> Result<NodeList, AllocError>
    requires walks { Walks G.belongs G.node_value walk.now.deep (F.pre walk.now.run)
        (F.post walk.now.run) }
    requires stored { AreStored (G.belongs gates.old) store.old }
    ensures keeps { Keeps G.belongs G.node_value gates.old gates.new }
    ensures stored { OnOk result (AreStored (G.belongs gates.new) store.new) }
    ensures extends { OnOk result (Extends store.old store.new) }
    ensures belongs { IfOk result (λ row. AllIn (G.belongs gates.new) row) }
    ensures right { IfOk result (λ row. HasRow walk.now.ground.now known.now
        (G.node_value gates.old) (G.node_value gates.new) store.old.matrices.items
        (claim_of formula.now) row) }
{
    let list = inside_formula(walk.ground.alloc, formula)?;
    if list.is_empty() {
        let row = row_at(walk, gates, store, formula, known)?;
        return Ok(row);
    }
    let row = inner_row(walk, gates, store, &list, formula, known)?;
    Ok(row)
}

/// Where a formula holds.
pub fn row_once<
    G: Gates,
    F: for<'j> Fn(
        &'j Ground<'j>,
        &mut G,
        &mut Store,
        Wanted<'_>,
        &Known<'_>,
        u32,
    ) -> Result<Answer, AllocError>
        + Copy,
>(
    walk: &Walk<'_, F>,
    gates: &mut G,
    store: &mut Store,
    formula: &Formula,
    known: &Known<'_>,
) -> Result<NodeList, AllocError>
    requires walks { Walks G.belongs G.node_value walk.now.deep (F.pre walk.now.run)
        (F.post walk.now.run) }
    requires stored { AreStored (G.belongs gates.old) store.old }
    ensures keeps { Keeps G.belongs G.node_value gates.old gates.new }
    ensures stored { OnOk result (AreStored (G.belongs gates.new) store.new) }
    ensures extends { OnOk result (Extends store.old store.new) }
    ensures belongs { IfOk result (λ row. AllIn (G.belongs gates.new) row) }
    ensures right { IfOk result (λ row. HasRow walk.now.ground.now known.now
        (G.node_value gates.old) (G.node_value gates.new) store.old.matrices.items
        (claim_of formula.now) row) }
{
    let binds = is_for_all(formula);
    if binds {
        let row = bound_row(walk, gates, store, formula, known)?;
        return Ok(row);
    }
    let row = row_at(walk, gates, store, formula, known)?;
    Ok(row)
}
