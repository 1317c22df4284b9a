//! Variables: what holds for all atoms that they may stand for.

ghost use Rattle.std.specs.Prelude.{◌↔◌, ◌<◌, ◌∷◌, map, length, IfOk, OnOk, IsTrue};
ghost use Rattle.gate_trait.specs.Built.{Keeps, AllIn};
ghost use Rattle.core_meaning.specs.Meaning.{IsApart};
ghost use Rattle.core_tree.specs.Trees.{claim_of, variable_of, variable_list, for_all};
ghost use Rattle.bmc_stack.specs.Stored.{AreStored};
ghost use Rattle.bmc_walk.specs.Variables.{earlier_list, HasEach, HasAtoms, AddsAtom};
ghost use Rattle.bmc_places.specs.Stores.{Stays};
ghost use Rattle.bmc_walk.specs.Walked.{HasRow};
ghost use Rattle.bmc_walk.specs.Walks.{Walks};

use crate::walk::{Answer, Ground, Known, Walk, Wanted, part_row, part_sets};
use bmc_places::rows::held_where;
use bmc_places::{Found, cut_to, found_in, place_times};
use bmc_stack::Store;
use bmc_stack::windows::constantly;
use core_tree::{Formula, Variable};
use gate_trait::{Gates, NodeList};
use std::alloc::AllocError;

/// The atoms that were chosen for the earlier variables of a list, the latest first.
#[derive(Clone, Copy)]
pub enum Earlier<'a> {
    /// None yet.
    Start,
    /// The latest atom, and those before it.
    Then(u32, &'a Earlier<'a>),
}

/// Whether an atom differs from the latest so many of the earlier ones.
pub fn is_apart(earlier: &Earlier<'_>, apart: u32, atom: u32) -> bool
    ensures { IsTrue result ↔ IsApart apart atom (earlier_list earlier.now) }
{
    if apart == 0 {
        return true;
    }
    match earlier {
        Earlier::Start => true,
        Earlier::Then(other, rest) => *other != atom && is_apart(*rest, apart - 1, atom),
    }
}

/// One call deeper. Its error is want of memory, or that there have been 2^32 - 1 already.
pub fn deeper(deep: u32) -> Result<u32, AllocError>
    ensures { IfOk result (λ n. n < deep) }
{
    if deep == 0 {
        return Err(AllocError);
    }
    Ok(deep - 1)
}

/// Where a formula holds for all atoms that variables may stand for, which differ as they ask from
/// earlier ones.
#[cycle(each)]
fn each_row<
    G: Gates,
    F: for<'j> Fn(
        &'j Ground<'j>,
        &mut G,
        &mut Store,
        Wanted<'_>,
        &Known<'_>,
        u32,
    ) -> Result<Answer, AllocError>,
>(
    walk: &Walk<'_, F>,
    gates: &mut G,
    store: &mut Store,
    list: &[Variable],
    formula: &Formula,
    known: &Known<'_>,
    earlier: &Earlier<'_>,
    deep: u32,
) -> Result<NodeList, AllocError>
    requires walks { Walks G.belongs G.node_value walk.now.deep (F.pre walk.now.run)
        (F.post walk.now.run) }
    requires stored { AreStored (G.belongs gates.old) store.old }
    ensures keeps { Keeps G.belongs G.node_value gates.old gates.new }
    ensures stored { OnOk result (AreStored (G.belongs gates.new) store.new) }
    ensures stays { OnOk result (Stays store.old store.new) }
    ensures belongs { IfOk result (λ row. AllIn (G.belongs gates.new) row) }
    ensures right { IfOk result (λ row. HasEach walk.now.ground.now known.now
        (earlier_list earlier.now) (G.node_value gates.old) (G.node_value gates.new)
        store.old.matrices.items (variable_list (map variable_of list.now))
        (claim_of formula.now) row) }
{
    let next = deeper(deep)?;
    match list.split_first() {
        None => {
            let row = part_row(walk, gates, store, formula, known)?;
            Ok(row)
        }
        Some((variable, rest)) => {
            let row = bound_row(
                walk, gates, store, variable, rest, formula, known, earlier, next,
            )?;
            Ok(row)
        }
    }
}

/// The same, of a variable and those after it.
#[cycle(each)]
fn bound_row<
    G: Gates,
    F: for<'j> Fn(
        &'j Ground<'j>,
        &mut G,
        &mut Store,
        Wanted<'_>,
        &Known<'_>,
        u32,
    ) -> Result<Answer, AllocError>,
>(
    walk: &Walk<'_, F>,
    gates: &mut G,
    store: &mut Store,
    variable: &Variable,
    rest: &[Variable],
    formula: &Formula,
    known: &Known<'_>,
    earlier: &Earlier<'_>,
    deep: u32,
) -> Result<NodeList, AllocError>
    requires walks { Walks G.belongs G.node_value walk.now.deep (F.pre walk.now.run)
        (F.post walk.now.run) }
    requires stored { AreStored (G.belongs gates.old) store.old }
    ensures keeps { Keeps G.belongs G.node_value gates.old gates.new }
    ensures stored { OnOk result (AreStored (G.belongs gates.new) store.new) }
    ensures stays { OnOk result (Stays store.old store.new) }
    ensures belongs { IfOk result (λ row. AllIn (G.belongs gates.new) row) }
    ensures right { IfOk result (λ row. HasEach walk.now.ground.now known.now
        (earlier_list earlier.now) (G.node_value gates.old) (G.node_value gates.new)
        store.old.matrices.items (variable_list (variable_of variable.now
        ∷ map variable_of rest.now)) (claim_of formula.now) row) }
{
    let next = deeper(deep)?;
    let matrices = store.matrices.len();
    let integers = store.integers.len();
    let bound = part_sets(walk, gates, store, &variable.bound, known)?;
    let setting = walk.ground.setting;
    let frame = setting.frame;
    let count = frame.shown.len();
    if bound.len() != count {
        return Err(AllocError);
    }
    let found = found_in(walk.ground.alloc, gates, store, &bound)?;
    let row = atoms_row(
        walk, gates, store, &found, variable, rest, formula, known, earlier, next,
    )?;
    cut_to(gates, store, matrices, integers);
    Ok(row)
}

/// The same, where the tuples that the bound may have are found.
#[cycle(each)]
fn atoms_row<
    G: Gates,
    F: for<'j> Fn(
        &'j Ground<'j>,
        &mut G,
        &mut Store,
        Wanted<'_>,
        &Known<'_>,
        u32,
    ) -> Result<Answer, AllocError>,
>(
    walk: &Walk<'_, F>,
    gates: &mut G,
    store: &mut Store,
    found: &Found,
    variable: &Variable,
    rest: &[Variable],
    formula: &Formula,
    known: &Known<'_>,
    earlier: &Earlier<'_>,
    deep: u32,
) -> Result<NodeList, AllocError>
    requires walks { Walks G.belongs G.node_value walk.now.deep (F.pre walk.now.run)
        (F.post walk.now.run) }
    requires stored { AreStored (G.belongs gates.old) store.old }
    requires nodes { AllIn (G.belongs gates.old) found.now.nodes }
    ensures keeps { Keeps G.belongs G.node_value gates.old gates.new }
    ensures stored { OnOk result (AreStored (G.belongs gates.new) store.new) }
    ensures stays { OnOk result (Stays store.old store.new) }
    ensures belongs { IfOk result (λ row. AllIn (G.belongs gates.new) row) }
    ensures right { IfOk result (λ row. HasAtoms walk.now.ground.now known.now
        (earlier_list earlier.now) (G.node_value gates.old) (G.node_value gates.new)
        store.old.matrices.items (variable_of variable.now)
        (variable_list (map variable_of rest.now)) (claim_of formula.now) found.now.tuples.items
        found.now.nodes row) }
{
    let next = deeper(deep)?;
    let setting = walk.ground.setting;
    let frame = setting.frame;
    let count = frame.shown.len();
    let mut all = constantly(walk.ground.alloc, gates, count, true)?;
    for place in 0..found.tuples.len() {
        let more = atom_row(
            walk, gates, store, found, place, all, variable, rest, formula, known, earlier, next,
        )?;
        all = more;
    }
    Ok(all)
}

/// The row of the first tuples, and what one tuple more asks.
#[cycle(each)]
fn atom_row<
    G: Gates,
    F: for<'j> Fn(
        &'j Ground<'j>,
        &mut G,
        &mut Store,
        Wanted<'_>,
        &Known<'_>,
        u32,
    ) -> Result<Answer, AllocError>,
>(
    walk: &Walk<'_, F>,
    gates: &mut G,
    store: &mut Store,
    found: &Found,
    place: usize,
    all: NodeList,
    variable: &Variable,
    rest: &[Variable],
    formula: &Formula,
    known: &Known<'_>,
    earlier: &Earlier<'_>,
    deep: u32,
) -> Result<NodeList, AllocError>
    requires walks { Walks G.belongs G.node_value walk.now.deep (F.pre walk.now.run)
        (F.post walk.now.run) }
    requires stored { AreStored (G.belongs gates.old) store.old }
    requires nodes { AllIn (G.belongs gates.old) found.now.nodes }
    requires all { AllIn (G.belongs gates.old) all }
    requires place { place < length found.now.tuples.items }
    ensures keeps { Keeps G.belongs G.node_value gates.old gates.new }
    ensures stored { OnOk result (AreStored (G.belongs gates.new) store.new) }
    ensures stays { OnOk result (Stays store.old store.new) }
    ensures belongs { IfOk result (λ row. AllIn (G.belongs gates.new) row) }
    ensures right { IfOk result (λ row. AddsAtom walk.now.ground.now known.now
        (earlier_list earlier.now) (G.node_value gates.old) (G.node_value gates.new)
        store.old.matrices.items (variable_of variable.now)
        (variable_list (map variable_of rest.now)) (claim_of formula.now) found.now.tuples.items
        found.now.nodes place all row) }
{
    let next = deeper(deep)?;
    let tuple = &found.tuples[place];
    let numbers = tuple.numbers();
    if numbers.len() != 1 {
        return Ok(all);
    }
    let atom = numbers[0];
    let apart = is_apart(earlier, variable.apart, atom);
    if !apart {
        return Ok(all);
    }
    let inner = Known::Atom(variable.name, atom, &*known);
    let chosen = Earlier::Then(atom, &*earlier);
    let more = each_row(walk, gates, store, rest, formula, &inner, &chosen, next)?;
    let setting = walk.ground.setting;
    let frame = setting.frame;
    let count = frame.shown.len();
    let from = place_times(place, count)?;
    let row = held_where(
        walk.ground.alloc,
        gates,
        &all,
        &more,
        &found.nodes,
        from,
        count,
    )?;
    Ok(row)
}

/// Where a formula holds for all atoms that the variables of a list may stand for.
pub fn all_row<
    G: Gates,
    F: for<'j> Fn(
        &'j Ground<'j>,
        &mut G,
        &mut Store,
        Wanted<'_>,
        &Known<'_>,
        u32,
    ) -> Result<Answer, AllocError>,
>(
    walk: &Walk<'_, F>,
    gates: &mut G,
    store: &mut Store,
    list: &[Variable],
    formula: &Formula,
    known: &Known<'_>,
) -> Result<NodeList, AllocError>
    requires walks { Walks G.belongs G.node_value walk.now.deep (F.pre walk.now.run)
        (F.post walk.now.run) }
    requires stored { AreStored (G.belongs gates.old) store.old }
    ensures keeps { Keeps G.belongs G.node_value gates.old gates.new }
    ensures stored { OnOk result (AreStored (G.belongs gates.new) store.new) }
    ensures stays { OnOk result (Stays store.old store.new) }
    ensures belongs { IfOk result (λ row. AllIn (G.belongs gates.new) row) }
    ensures right { IfOk result (λ row. HasRow walk.now.ground.now known.now
        (G.node_value gates.old) (G.node_value gates.new) store.old.matrices.items
        (for_all (variable_list (map variable_of list.now)) (claim_of formula.now)) row) }
{
    let start = Earlier::Start;
    let row = each_row(walk, gates, store, list, formula, known, &start, walk.deep)?;
    Ok(row)
}
