//! Sets that were built before the variables further in stood for their atoms.

ghost use Rattle.std.specs.Prelude.{◌≡◌, IfOk, IfSome, OnOk, IsTrue, All};
ghost use Rattle.gate_trait.specs.Built.{Keeps};
ghost use Rattle.core_tree.specs.Trees.{term_of};
ghost use Rattle.bmc_stack.specs.Stored.{AreStored};
ghost use Rattle.bmc_places.specs.Stores.{Extends};
ghost use Rattle.bmc_walk.specs.Ready.{StandAlike, IsOf, IsAmong, IsReadyIn, IsMade};
ghost use Rattle.bmc_walk.specs.Walks.{Walks};

use crate::leaves::atom_of;
use crate::walk::{Answer, Ground, Known, Made, Ready, Walk, Wanted, part_sets};
use bmc_stack::Store;
use core_free::{same_expr, used_names};
use core_tree::Expr;
use gate_trait::Gates;
use std::alloc::{AllocError, Global};

/// Whether two names stand for the same atom, or for none.
fn same_atom(a: Option<u32>, b: Option<u32>) -> bool
    ensures { IsTrue result → a ≡ b }
{
    match a {
        None => b.is_none(),
        Some(atom) => match b {
            None => false,
            Some(other) => atom == other,
        },
    }
}

/// Whether each of these names stands for the same atom here and there, or for none.
fn stand_alike(names: &Vec<u32>, here: &Known<'_>, there: &Known<'_>) -> bool
    ensures { IsTrue result → StandAlike here.now there.now names.now.items }
{
    for place in 0..names.len() {
        let name = names[place];
        let same = same_atom(atom_of(here, name), atom_of(there, name));
        if !same {
            return false;
        }
    }
    true
}

/// Whether sets that were built there are those of an expression here.
fn is_of(made: &Made<'_>, there: &Known<'_>, expr: &Expr, here: &Known<'_>) -> bool
    ensures { IsTrue result → IsOf made.now there.now (term_of expr.now) here.now }
{
    let same = same_expr(made.expr, expr);
    if !same {
        return false;
    }
    let alike = stand_alike(&made.names, here, there);
    if !alike {
        return false;
    }
    true
}

/// The numbers of the sets of an expression, if they are among those that were built there.
fn find_among(
    alloc: Global,
    made: &Vec<Made<'_>>,
    there: &Known<'_>,
    expr: &Expr,
    here: &Known<'_>,
) -> Result<Option<Vec<usize>>, AllocError>
    ensures { IfOk result (λ o. IfSome o (λ v. IsAmong made.now.items there.now
        (term_of expr.now) here.now v.items)) }
{
    for place in 0..made.len() {
        let one = &made[place];
        let is = is_of(one, there, expr, here);
        if is {
            let numbers = one.numbers.to_vec(alloc)?;
            return Ok(Some(numbers));
        }
    }
    Ok(None)
}

/// The numbers of the sets of an expression, if they were built where each name that it uses stood for the
/// same as here.
pub fn find_ready(
    alloc: Global,
    ready: &Ready<'_>,
    expr: &Expr,
    here: &Known<'_>,
) -> Result<Option<Vec<usize>>, AllocError>
    ensures { IfOk result (λ o. IfSome o (λ v. IsReadyIn ready.now (term_of expr.now) here.now
        v.items)) }
{
    match ready {
        Ready::Nothing => Ok(None),
        Ready::Sets(made, there, rest) => {
            let found = find_among(alloc, *made, *there, expr, here)?;
            match found {
                Some(numbers) => Ok(Some(numbers)),
                None => {
                    let before = find_ready(alloc, *rest, expr, here)?;
                    Ok(before)
                }
            }
        }
    }
}

/// Builds the sets of an expression.
fn made_of<
    'a,
    G: Gates,
    F: for<'j> Fn(
        &'j Ground<'j>,
        &mut G,
        &mut Store,
        Wanted<'_>,
        &Known<'_>,
        u32,
    ) -> Result<Answer, AllocError>,
>(
    walk: &Walk<'_, F>,
    gates: &mut G,
    store: &mut Store,
    expr: &'a Expr,
    known: &Known<'_>,
) -> Result<Made<'a>, AllocError>
    requires walks { Walks G.belongs G.node_value walk.now.deep (F.pre walk.now.run)
        (F.post walk.now.run) }
    requires stored { AreStored (G.belongs gates.old) store.old }
    ensures keeps { Keeps G.belongs G.node_value gates.old gates.new }
    ensures stored { OnOk result (AreStored (G.belongs gates.new) store.new) }
    ensures extends { OnOk result (Extends store.old store.new) }
    ensures right { IfOk result (λ m. IsMade walk.now.ground.now known.now
        (G.node_value gates.old) (G.node_value gates.new) store.old.matrices.items
        store.new.matrices.items m) }
{
    let names = used_names(walk.ground.alloc, expr)?;
    let numbers = part_sets(walk, gates, store, expr, known)?;
    Ok(Made {
        expr,
        names,
        numbers,
    })
}

/// Builds the sets of expressions.
pub fn made_sets<
    'a,
    G: Gates,
    F: for<'j> Fn(
        &'j Ground<'j>,
        &mut G,
        &mut Store,
        Wanted<'_>,
        &Known<'_>,
        u32,
    ) -> Result<Answer, AllocError>,
>(
    walk: &Walk<'_, F>,
    gates: &mut G,
    store: &mut Store,
    list: &Vec<&'a Expr>,
    known: &Known<'_>,
) -> Result<Vec<Made<'a>>, AllocError>
    requires walks { Walks G.belongs G.node_value walk.now.deep (F.pre walk.now.run)
        (F.post walk.now.run) }
    requires stored { AreStored (G.belongs gates.old) store.old }
    ensures keeps { Keeps G.belongs G.node_value gates.old gates.new }
    ensures stored { OnOk result (AreStored (G.belongs gates.new) store.new) }
    ensures extends { OnOk result (Extends store.old store.new) }
    ensures right { IfOk result (λ all. All (IsMade walk.now.ground.now known.now
        (G.node_value gates.old) (G.node_value gates.new) store.old.matrices.items
        store.new.matrices.items) all.items) }
{
    let mut all: Vec<Made<'a>> = Vec::new(walk.ground.alloc);
    for place in 0..list.len() {
        let made = made_of(walk, gates, store, list[place], known)?;
        all.push(made)?;
    }
    Ok(all)
}
