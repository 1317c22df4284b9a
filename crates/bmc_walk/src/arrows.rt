//! Bounds with multiplicities: what an arrow asks of each tuple at one of its ends.

ghost use Rattle.std.specs.Prelude.{◌≡◌, ◌<◌, false, IfOk, OnOk, IsTrue, length};
ghost use Rattle.gate_trait.specs.Built.{Keeps, AllIn};
ghost use Rattle.core_tree.specs.Trees.{term_of, within};
ghost use Rattle.bmc_stack.specs.Stored.{AreStored};
ghost use Rattle.bmc_leaves.specs.Lying.{IsFree, AsksNothing};
ghost use Rattle.bmc_places.specs.Stores.{Extends, Stays};
ghost use Rattle.bmc_walk.specs.Arrows.{IsSilent, FitsSets, EndFits, TuplesFit, AddsTuple};
ghost use Rattle.bmc_walk.specs.Walked.{HasRow};
ghost use Rattle.bmc_walk.specs.Walks.{Walks};

use crate::variables::deeper;
use crate::walk::{Answer, Ground, Known, Walk, Wanted, part_sets};
use bmc_places::rows::held_where;
use bmc_places::{Found, cut_to, found_in, inside_row, place_times, rest_sets, word_row};
use bmc_stack::Store;
use bmc_stack::windows::{both, constantly};
use core_tree::{Expr, Multiplicity};
use gate_trait::{Gates, NodeList};
use std::alloc::AllocError;

/// Whether an arrow's end has no multiplicity.
fn is_free(word: Multiplicity) -> bool
    ensures { IsTrue result → IsFree word }
{
    match word {
        Multiplicity::Set => true,
        _ => false,
    }
}

/// Whether the arrows of a bound, if it has any, have no multiplicities.
fn asks_nothing(bound: &Expr) -> bool
    ensures { IsTrue result → AsksNothing (term_of bound.now) }
{
    match bound {
        Expr::Product(a, left, right, b) => {
            let first = is_free(*left);
            if !first {
                return false;
            }
            let second = is_free(*right);
            if !second {
                return false;
            }
            let third = asks_nothing(a);
            if !third {
                return false;
            }
            let fourth = asks_nothing(b);
            if !fourth {
                return false;
            }
            true
        }
        _ => true,
    }
}

/// Whether a multiplicity and the arrows behind it ask anything.
fn asks(word: Multiplicity, other: &Expr) -> bool
    ensures { result ≡ false → IsSilent word (term_of other.now) }
{
    let free = is_free(word);
    if !free {
        return true;
    }
    let silent = asks_nothing(other);
    if silent {
        return false;
    }
    true
}

/// Where the sets keep the arrows of a bound.
#[cycle(fits)]
fn fits_row<
    G: Gates,
    F: for<'j> Fn(
        &'j Ground<'j>,
        &mut G,
        &mut Store,
        Wanted<'_>,
        &Known<'_>,
        u32,
    ) -> Result<Answer, AllocError>,
>(
    walk: &Walk<'_, F>,
    gates: &mut G,
    store: &mut Store,
    set: &Vec<usize>,
    bound: &Expr,
    known: &Known<'_>,
    deep: u32,
) -> Result<NodeList, AllocError>
    requires walks { Walks G.belongs G.node_value walk.now.deep (F.pre walk.now.run)
        (F.post walk.now.run) }
    requires stored { AreStored (G.belongs gates.old) store.old }
    ensures keeps { Keeps G.belongs G.node_value gates.old gates.new }
    ensures stored { OnOk result (AreStored (G.belongs gates.new) store.new) }
    ensures stays { OnOk result (Stays store.old store.new) }
    ensures belongs { IfOk result (λ row. AllIn (G.belongs gates.new) row) }
    ensures right { IfOk result (λ row. FitsSets walk.now.ground.now known.now
        (G.node_value gates.old) (G.node_value gates.new) store.old.matrices.items
        (term_of bound.now) set.now.items row) }
{
    let next = deeper(deep)?;
    let wants = asks(Multiplicity::Set, bound);
    if !wants {
        let places = set.len();
        let silent = constantly(walk.ground.alloc, gates, places, true)?;
        return Ok(silent);
    }
    match bound {
        Expr::Product(a, left, right, b) => {
            let first = end_row(walk, gates, store, set, a, true, *right, b, known, next)?;
            let second = end_row(walk, gates, store, set, b, false, *left, a, known, next)?;
            let row = both(walk.ground.alloc, gates, &first, &second)?;
            Ok(row)
        }
        _ => Err(AllocError),
    }
}

/// Where the sets keep what an arrow asks of the tuples at one end: of what goes with each, the
/// multiplicity and the arrows of the other end.
#[cycle(fits)]
fn end_row<
    G: Gates,
    F: for<'j> Fn(
        &'j Ground<'j>,
        &mut G,
        &mut Store,
        Wanted<'_>,
        &Known<'_>,
        u32,
    ) -> Result<Answer, AllocError>,
>(
    walk: &Walk<'_, F>,
    gates: &mut G,
    store: &mut Store,
    set: &Vec<usize>,
    end: &Expr,
    at_start: bool,
    word: Multiplicity,
    other: &Expr,
    known: &Known<'_>,
    deep: u32,
) -> Result<NodeList, AllocError>
    requires walks { Walks G.belongs G.node_value walk.now.deep (F.pre walk.now.run)
        (F.post walk.now.run) }
    requires stored { AreStored (G.belongs gates.old) store.old }
    ensures keeps { Keeps G.belongs G.node_value gates.old gates.new }
    ensures stored { OnOk result (AreStored (G.belongs gates.new) store.new) }
    ensures stays { OnOk result (Stays store.old store.new) }
    ensures belongs { IfOk result (λ row. AllIn (G.belongs gates.new) row) }
    ensures right { IfOk result (λ row. EndFits walk.now.ground.now known.now
        (G.node_value gates.old) (G.node_value gates.new) store.old.matrices.items at_start word
        (term_of end.now) (term_of other.now) set.now.items row) }
{
    let next = deeper(deep)?;
    let wants = asks(word, other);
    if !wants {
        let places = set.len();
        let silent = constantly(walk.ground.alloc, gates, places, true)?;
        return Ok(silent);
    }
    let matrices = store.matrices.len();
    let integers = store.integers.len();
    let bound = part_sets(walk, gates, store, end, known)?;
    let setting = walk.ground.setting;
    let frame = setting.frame;
    let count = frame.shown.len();
    if bound.len() != count {
        return Err(AllocError);
    }
    let found = found_in(walk.ground.alloc, gates, store, &bound)?;
    let row = tuples_row(
        walk, gates, store, set, &found, at_start, word, other, known, next,
    )?;
    cut_to(gates, store, matrices, integers);
    Ok(row)
}

/// The same, where the tuples that the end may have are found: the last first.
#[cycle(fits)]
fn tuples_row<
    G: Gates,
    F: for<'j> Fn(
        &'j Ground<'j>,
        &mut G,
        &mut Store,
        Wanted<'_>,
        &Known<'_>,
        u32,
    ) -> Result<Answer, AllocError>,
>(
    walk: &Walk<'_, F>,
    gates: &mut G,
    store: &mut Store,
    set: &Vec<usize>,
    found: &Found,
    at_start: bool,
    word: Multiplicity,
    other: &Expr,
    known: &Known<'_>,
    deep: u32,
) -> Result<NodeList, AllocError>
    requires walks { Walks G.belongs G.node_value walk.now.deep (F.pre walk.now.run)
        (F.post walk.now.run) }
    requires stored { AreStored (G.belongs gates.old) store.old }
    requires nodes { AllIn (G.belongs gates.old) found.now.nodes }
    ensures keeps { Keeps G.belongs G.node_value gates.old gates.new }
    ensures stored { OnOk result (AreStored (G.belongs gates.new) store.new) }
    ensures stays { OnOk result (Stays store.old store.new) }
    ensures belongs { IfOk result (λ row. AllIn (G.belongs gates.new) row) }
    ensures right { IfOk result (λ row. TuplesFit walk.now.ground.now known.now
        (G.node_value gates.old) (G.node_value gates.new) store.old.matrices.items at_start word
        (term_of other.now) set.now.items found.now.tuples.items found.now.nodes row) }
{
    let next = deeper(deep)?;
    let setting = walk.ground.setting;
    let frame = setting.frame;
    let count = frame.shown.len();
    let mut all = constantly(walk.ground.alloc, gates, count, true)?;
    let many = found.tuples.len();
    for turn in 0..many {
        let place = many - 1 - turn;
        let more = tuple_row(
            walk, gates, store, set, found, place, all, at_start, word, other, known, next,
        )?;
        all = more;
    }
    Ok(all)
}

/// The row of the tuples behind one, and what that one asks.
#[cycle(fits)]
fn tuple_row<
    G: Gates,
    F: for<'j> Fn(
        &'j Ground<'j>,
        &mut G,
        &mut Store,
        Wanted<'_>,
        &Known<'_>,
        u32,
    ) -> Result<Answer, AllocError>,
>(
    walk: &Walk<'_, F>,
    gates: &mut G,
    store: &mut Store,
    set: &Vec<usize>,
    found: &Found,
    place: usize,
    all: NodeList,
    at_start: bool,
    word: Multiplicity,
    other: &Expr,
    known: &Known<'_>,
    deep: u32,
) -> Result<NodeList, AllocError>
    requires walks { Walks G.belongs G.node_value walk.now.deep (F.pre walk.now.run)
        (F.post walk.now.run) }
    requires stored { AreStored (G.belongs gates.old) store.old }
    requires nodes { AllIn (G.belongs gates.old) found.now.nodes }
    requires all { AllIn (G.belongs gates.old) all }
    requires place { place < length found.now.tuples.items }
    ensures keeps { Keeps G.belongs G.node_value gates.old gates.new }
    ensures stored { OnOk result (AreStored (G.belongs gates.new) store.new) }
    ensures stays { OnOk result (Stays store.old store.new) }
    ensures belongs { IfOk result (λ row. AllIn (G.belongs gates.new) row) }
    ensures right { IfOk result (λ row. AddsTuple walk.now.ground.now known.now
        (G.node_value gates.old) (G.node_value gates.new) store.old.matrices.items at_start word
        (term_of other.now) set.now.items found.now.tuples.items found.now.nodes place all row) }
{
    let next = deeper(deep)?;
    let matrices = store.matrices.len();
    let integers = store.integers.len();
    let tuple = &found.tuples[place];
    let numbers = tuple.numbers();
    let rest = rest_sets(walk.ground.alloc, gates, store, set, numbers, at_start)?;
    let count_row = word_row(walk.ground.alloc, gates, store, word, &rest)?;
    let fits = fits_row(walk, gates, store, &rest, other, known, next)?;
    let more = both(walk.ground.alloc, gates, &count_row, &fits)?;
    cut_to(gates, store, matrices, integers);
    let setting = walk.ground.setting;
    let frame = setting.frame;
    let count = frame.shown.len();
    let from = place_times(place, count)?;
    let row = held_where(
        walk.ground.alloc,
        gates,
        &all,
        &more,
        &found.nodes,
        from,
        count,
    )?;
    Ok(row)
}

/// Where a set lies in a bound, has the multiplicity and keeps the arrows of the bound.
pub fn within_row<
    G: Gates,
    F: for<'j> Fn(
        &'j Ground<'j>,
        &mut G,
        &mut Store,
        Wanted<'_>,
        &Known<'_>,
        u32,
    ) -> Result<Answer, AllocError>,
>(
    walk: &Walk<'_, F>,
    gates: &mut G,
    store: &mut Store,
    a: &Expr,
    word: Multiplicity,
    b: &Expr,
    known: &Known<'_>,
) -> Result<NodeList, AllocError>
    requires walks { Walks G.belongs G.node_value walk.now.deep (F.pre walk.now.run)
        (F.post walk.now.run) }
    requires stored { AreStored (G.belongs gates.old) store.old }
    ensures keeps { Keeps G.belongs G.node_value gates.old gates.new }
    ensures stored { OnOk result (AreStored (G.belongs gates.new) store.new) }
    ensures extends { OnOk result (Extends store.old store.new) }
    ensures belongs { IfOk result (λ row. AllIn (G.belongs gates.new) row) }
    ensures right { IfOk result (λ row. HasRow walk.now.ground.now known.now
        (G.node_value gates.old) (G.node_value gates.new) store.old.matrices.items
        (within (term_of a.now) word (term_of b.now)) row) }
{
    let first = part_sets(walk, gates, store, a, known)?;
    let second = part_sets(walk, gates, store, b, known)?;
    let lies = inside_row(walk.ground.alloc, gates, store, &first, &second)?;
    let count_row = word_row(walk.ground.alloc, gates, store, word, &first)?;
    let so_far = both(walk.ground.alloc, gates, &lies, &count_row)?;
    let fits = fits_row(walk, gates, store, &first, b, known, walk.deep)?;
    let row = both(walk.ground.alloc, gates, &so_far, &fits)?;
    Ok(row)
}
