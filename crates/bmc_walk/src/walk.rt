//! What the rules are given: what walks along the parts of a form.

ghost use Rattle.std.specs.Prelude.{IfOk, OnOk};
ghost use Rattle.gate_trait.specs.Built.{Keeps, AllIn};
ghost use Rattle.core_tree.specs.Trees.{term_of, claim_of};
ghost use Rattle.bmc_stack.specs.Stored.{AreStored};
ghost use Rattle.bmc_places.specs.Stores.{Extends, Stays};
ghost use Rattle.bmc_walk.specs.Walked.{HasSets, HasNumbers, HasRow};
ghost use Rattle.bmc_walk.specs.Walks.{IsAnswer, Walks};

use crate::levels::without_doubles;
use bmc_leaves::setting::Setting;
use bmc_stack::Store;
use core_tree::{Expr, Formula};
use gate_trait::{Gates, NodeList};
use std::alloc::{AllocError, Global};

/// For which atoms names stand: a later name hides an earlier one.
#[derive(Clone, Copy)]
pub enum Known<'a> {
    /// No names.
    Nothing,
    /// A name, its atom, and the other names.
    Atom(u32, u32, &'a Known<'a>),
}

/// Sets that were built: of which expression, the names that it uses, and the sets' numbers, one for each
/// place.
#[derive(Drop)]
pub struct Made<'a> {
    pub expr: &'a Expr,
    pub names: Vec<u32>,
    pub numbers: Vec<usize>,
}

/// What was built before variables further in stood for their atoms: loop-invariant code motion (Aho, Lam,
/// Sethi, Ullman: Compilers).
#[derive(Clone, Copy)]
pub enum Ready<'a> {
    /// Nothing.
    Nothing,
    /// Sets, the atoms for which names stood where they were built, and what was built before.
    Sets(&'a Vec<Made<'a>>, &'a Known<'a>, &'a Ready<'a>),
}

/// What all walks have in common: the setting, what the sets without parts have, by their numbers, and what
/// was built before.
#[derive(Clone, Copy)]
pub struct Ground<'a> {
    pub alloc: Global,
    pub setting: Setting<'a>,
    pub kept: &'a Vec<Vec<usize>>,
    pub ready: &'a Ready<'a>,
}

/// What is wanted of a part.
#[derive(Clone, Copy)]
pub enum Wanted<'a> {
    /// The sets of an expression, by their numbers, one for each place.
    Sets(&'a Expr),
    /// The integers for which an expression stands, by their numbers, one for each place.
    Integers(&'a Expr),
    /// A node for each place that says whether a formula holds there.
    Holds(&'a Formula),
}

/// What a walk along a part gives.
#[derive(Drop)]
pub enum Answer {
    Numbers(Vec<usize>),
    Row(NodeList),
}

/// What the rules are given: what all walks have in common, how deep parts may nest, and what walks along
/// a part.
#[derive(Clone, Copy)]
pub struct Walk<'a, F> {
    pub ground: &'a Ground<'a>,
    pub deep: u32,
    pub run: F,
}

/// What is wanted of a part.
fn run_part<
    G: Gates,
    F: for<'j> Fn(
        &'j Ground<'j>,
        &mut G,
        &mut Store,
        Wanted<'_>,
        &Known<'_>,
        u32,
    ) -> Result<Answer, AllocError>,
>(
    walk: &Walk<'_, F>,
    gates: &mut G,
    store: &mut Store,
    wanted: Wanted<'_>,
    known: &Known<'_>,
) -> Result<Answer, AllocError>
    requires walks { Walks G.belongs G.node_value walk.now.deep (F.pre walk.now.run)
        (F.post walk.now.run) }
    requires stored { AreStored (G.belongs gates.old) store.old }
    ensures keeps { Keeps G.belongs G.node_value gates.old gates.new }
    ensures stored { OnOk result (AreStored (G.belongs gates.new) store.new) }
    ensures extends { OnOk result (Extends store.old store.new) }
    ensures answers { IfOk result (λ a. IsAnswer G.belongs G.node_value walk.now.ground.now
        known.now gates.old gates.new store.old store.new wanted.entry a) }
{
    (walk.run)(walk.ground, gates, store, wanted, known, walk.deep)
}

/// The sets of a part.
pub fn part_sets<
    G: Gates,
    F: for<'j> Fn(
        &'j Ground<'j>,
        &mut G,
        &mut Store,
        Wanted<'_>,
        &Known<'_>,
        u32,
    ) -> Result<Answer, AllocError>,
>(
    walk: &Walk<'_, F>,
    gates: &mut G,
    store: &mut Store,
    expr: &Expr,
    known: &Known<'_>,
) -> Result<Vec<usize>, AllocError>
    requires walks { Walks G.belongs G.node_value walk.now.deep (F.pre walk.now.run)
        (F.post walk.now.run) }
    requires stored { AreStored (G.belongs gates.old) store.old }
    ensures keeps { Keeps G.belongs G.node_value gates.old gates.new }
    ensures stored { OnOk result (AreStored (G.belongs gates.new) store.new) }
    ensures extends { OnOk result (Extends store.old store.new) }
    ensures right { IfOk result (λ v. HasSets walk.now.ground.now known.now
        (G.node_value gates.old) (G.node_value gates.new) store.old.matrices.items
        store.new.matrices.items (term_of expr.now) v.items) }
{
    let wanted = Wanted::Sets(expr);
    let answer = run_part(walk, gates, store, wanted, known)?;
    match answer {
        Answer::Numbers(numbers) => Ok(numbers),
        Answer::Row(_) => Err(AllocError),
    }
}

/// The integers of a part.
pub fn part_integers<
    G: Gates,
    F: for<'j> Fn(
        &'j Ground<'j>,
        &mut G,
        &mut Store,
        Wanted<'_>,
        &Known<'_>,
        u32,
    ) -> Result<Answer, AllocError>,
>(
    walk: &Walk<'_, F>,
    gates: &mut G,
    store: &mut Store,
    expr: &Expr,
    known: &Known<'_>,
) -> Result<Vec<usize>, AllocError>
    requires walks { Walks G.belongs G.node_value walk.now.deep (F.pre walk.now.run)
        (F.post walk.now.run) }
    requires stored { AreStored (G.belongs gates.old) store.old }
    ensures keeps { Keeps G.belongs G.node_value gates.old gates.new }
    ensures stored { OnOk result (AreStored (G.belongs gates.new) store.new) }
    ensures extends { OnOk result (Extends store.old store.new) }
    ensures right { IfOk result (λ v. HasNumbers walk.now.ground.now known.now
        (G.node_value gates.old) (G.node_value gates.new) store.old.matrices.items
        store.new.integers.items (term_of expr.now) v.items) }
{
    let wanted = Wanted::Integers(expr);
    let answer = run_part(walk, gates, store, wanted, known)?;
    match answer {
        Answer::Numbers(numbers) => Ok(numbers),
        Answer::Row(_) => Err(AllocError),
    }
}

/// Where a part holds. Two negations before it take no level.
pub fn part_row<
    G: Gates,
    F: for<'j> Fn(
        &'j Ground<'j>,
        &mut G,
        &mut Store,
        Wanted<'_>,
        &Known<'_>,
        u32,
    ) -> Result<Answer, AllocError>,
>(
    walk: &Walk<'_, F>,
    gates: &mut G,
    store: &mut Store,
    formula: &Formula,
    known: &Known<'_>,
) -> Result<NodeList, AllocError>
    requires walks { Walks G.belongs G.node_value walk.now.deep (F.pre walk.now.run)
        (F.post walk.now.run) }
    requires stored { AreStored (G.belongs gates.old) store.old }
    ensures keeps { Keeps G.belongs G.node_value gates.old gates.new }
    ensures stored { OnOk result (AreStored (G.belongs gates.new) store.new) }
    ensures stays { OnOk result (Stays store.old store.new) }
    ensures belongs { IfOk result (λ row. AllIn (G.belongs gates.new) row) }
    ensures right { IfOk result (λ row. HasRow walk.now.ground.now known.now
        (G.node_value gates.old) (G.node_value gates.new) store.old.matrices.items
        (claim_of formula.now) row) }
{
    let inner = without_doubles(formula);
    let wanted = Wanted::Holds(inner);
    let answer = run_part(walk, gates, store, wanted, known)?;
    match answer {
        Answer::Numbers(_) => Err(AllocError),
        Answer::Row(row) => Ok(row),
    }
}
