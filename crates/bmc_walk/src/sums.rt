//! The rule of `sum`.

ghost use Rattle.std.specs.Prelude.{◌≡◌, ◌+◌, Some, drop, map, slice_get, IfOk, OnOk};
ghost use Rattle.gate_trait.specs.Built.{Keeps};
ghost use Rattle.core_tree.specs.Trees.{term_of, variable_of, variable_list, sum_over};
ghost use Rattle.bmc_stack.specs.Stored.{AreStored};
ghost use Rattle.bmc_places.specs.Gathered.{AllRows};
ghost use Rattle.bmc_places.specs.Stores.{Extends};
ghost use Rattle.bmc_places.specs.Sums.{AreSums};
ghost use Rattle.bmc_walk.specs.Sums.{atoms_with, HasBody, AreBodies};
ghost use Rattle.bmc_walk.specs.Walked.{atoms_of, HasSingles};
ghost use Rattle.bmc_walk.specs.Walks.{Walks};

use crate::choices::add_choices;
use crate::variables::{Earlier, deeper};
use crate::walk::{Answer, Ground, Known, Walk, Wanted, part_integers};
use bmc_places::numbers::constant_integers;
use bmc_places::{Choice, are_rising, sum_places};
use bmc_stack::Store;
use bmc_stack::windows::constantly;
use core_tree::{Expr, Formula, Variable};
use gate_trait::Gates;
use std::alloc::AllocError;

/// The number at a place. Its error is want of memory, or that there is none.
fn number_at(numbers: &[u32], place: usize) -> Result<u32, AllocError>
    ensures { IfOk result (λ n. slice_get numbers.now place ≡ Some n) }
{
    if place >= numbers.len() {
        return Err(AllocError);
    }
    let number = numbers[place];
    Ok(number)
}

/// The next place. Its error is want of memory, or that it is too great.
fn after(place: usize) -> Result<usize, AllocError>
    ensures { IfOk result (λ n. n ≡ place + 1) }
{
    match place.checked_add(1) {
        Some(next) => Ok(next),
        None => Err(AllocError),
    }
}

/// The integers of an expression where the variables of a list stand for the numbers of a tuple from a place on.
fn body_ints<
    G: Gates,
    F: for<'j> Fn(
        &'j Ground<'j>,
        &mut G,
        &mut Store,
        Wanted<'_>,
        &Known<'_>,
        u32,
    ) -> Result<Answer, AllocError>,
>(
    walk: &Walk<'_, F>,
    gates: &mut G,
    store: &mut Store,
    list: &[Variable],
    numbers: &[u32],
    place: usize,
    body: &Expr,
    known: &Known<'_>,
    deep: u32,
) -> Result<Vec<usize>, AllocError>
    requires walks { Walks G.belongs G.node_value walk.now.deep (F.pre walk.now.run)
        (F.post walk.now.run) }
    requires stored { AreStored (G.belongs gates.old) store.old }
    ensures keeps { Keeps G.belongs G.node_value gates.old gates.new }
    ensures stored { OnOk result (AreStored (G.belongs gates.new) store.new) }
    ensures extends { OnOk result (Extends store.old store.new) }
    ensures right { IfOk result (λ v. HasBody walk.now.ground.now
        (atoms_with (variable_list (map variable_of list.now)) (drop place numbers.now)
        (atoms_of known.now)) (G.node_value gates.old) (G.node_value gates.new)
        store.old.matrices.items store.new.integers.items (term_of body.now) v.items) }
{
    let next = deeper(deep)?;
    match list.split_first() {
        None => {
            let made = part_integers(walk, gates, store, body, known)?;
            Ok(made)
        }
        Some((variable, rest)) => {
            let atom = number_at(numbers, place)?;
            let later = after(place)?;
            let inner = Known::Atom(variable.name, atom, &*known);
            let made = body_ints(walk, gates, store, rest, numbers, later, body, &inner, next)?;
            Ok(made)
        }
    }
}

/// The integers of an expression for choices of atoms, a row of numbers for each choice, and their sums.
#[derive(Drop)]
pub struct Sums {
    pub rows: Vec<Vec<usize>>,
    pub totals: Vec<usize>,
}

/// The sums of an expression over these choices of atoms for the variables of a list, at so many places.
fn choice_sums<
    G: Gates,
    F: for<'j> Fn(
        &'j Ground<'j>,
        &mut G,
        &mut Store,
        Wanted<'_>,
        &Known<'_>,
        u32,
    ) -> Result<Answer, AllocError>,
>(
    walk: &Walk<'_, F>,
    gates: &mut G,
    store: &mut Store,
    list: &[Variable],
    choices: &[Choice],
    body: &Expr,
    known: &Known<'_>,
    count: usize,
) -> Result<Sums, AllocError>
    requires walks { Walks G.belongs G.node_value walk.now.deep (F.pre walk.now.run)
        (F.post walk.now.run) }
    requires stored { AreStored (G.belongs gates.old) store.old }
    requires rows { AllRows (G.belongs gates.old) choices.now }
    ensures keeps { Keeps G.belongs G.node_value gates.old gates.new }
    ensures stored { OnOk result (AreStored (G.belongs gates.new) store.new) }
    ensures extends { OnOk result (Extends store.old store.new) }
    ensures bodies { IfOk result (λ s. AreBodies walk.now.ground.now
        (variable_list (map variable_of list.now)) (atoms_of known.now) (G.node_value gates.old)
        (G.node_value gates.new) store.old.matrices.items store.new.integers.items
        (term_of body.now) choices.now s.rows.items) }
    ensures sums { IfOk result (λ s. AreSums (G.node_value gates.new) (G.node_value gates.new)
        store.new.integers.items store.new.integers.items
        walk.now.ground.now.setting.universe.bits choices.now s.rows.items count s.totals.items) }
{
    let setting = walk.ground.setting;
    let width = setting.universe.bits;
    let mut totals = constant_integers(walk.ground.alloc, gates, store, 0, width, count)?;
    let mut rows: Vec<Vec<usize>> = Vec::new(walk.ground.alloc);
    for place in 0..choices.len() {
        let choice = &choices[place];
        let numbers = choice.tuple.numbers();
        let made = body_ints(walk, gates, store, list, numbers, 0, body, known, walk.deep)?;
        let alloc = walk.ground.alloc;
        let more = sum_places(alloc, gates, store, &choice.row, &totals, &made, count)?;
        rows.push(made)?;
        totals = more;
    }
    Ok(Sums { rows, totals })
}

/// The sum of an expression over the choices of atoms for the variables of a list.
pub fn sum_ints<
    G: Gates,
    F: for<'j> Fn(
        &'j Ground<'j>,
        &mut G,
        &mut Store,
        Wanted<'_>,
        &Known<'_>,
        u32,
    ) -> Result<Answer, AllocError>,
>(
    walk: &Walk<'_, F>,
    gates: &mut G,
    store: &mut Store,
    list: &[Variable],
    body: &Expr,
    known: &Known<'_>,
) -> Result<Vec<usize>, AllocError>
    requires walks { Walks G.belongs G.node_value walk.now.deep (F.pre walk.now.run)
        (F.post walk.now.run) }
    requires stored { AreStored (G.belongs gates.old) store.old }
    ensures keeps { Keeps G.belongs G.node_value gates.old gates.new }
    ensures stored { OnOk result (AreStored (G.belongs gates.new) store.new) }
    ensures extends { OnOk result (Extends store.old store.new) }
    ensures right { IfOk result (λ v. HasSingles walk.now.ground.now known.now
        (G.node_value gates.old) (G.node_value gates.new) store.old.matrices.items
        store.new.integers.items (sum_over (variable_list (map variable_of list.now))
        (term_of body.now)) v.items) }
{
    let setting = walk.ground.setting;
    let frame = setting.frame;
    let count = frame.shown.len();
    let there = constantly(walk.ground.alloc, gates, count, true)?;
    let start = Earlier::Start;
    let mut choices: Vec<Choice> = Vec::new(walk.ground.alloc);
    let all = Formula::Every(Vec::new(walk.ground.alloc));
    add_choices(
        walk,
        gates,
        store,
        list,
        &all,
        known,
        &start,
        &there,
        walk.deep,
        &mut choices,
    )?;
    let rises = are_rising(&choices);
    if !rises {
        return Err(AllocError);
    }
    let made = choice_sums(walk, gates, store, list, &choices, body, known, count)?;
    Ok(made.totals)
}
