//! Choices of atoms for the variables of a list, and the sets of comprehensions.

ghost use Rattle.std.specs.Prelude.{◌≡◌, ◌<◌, ◌∷◌, map, length, IfOk, OnOk};
ghost use Rattle.gate_trait.specs.Built.{Keeps, AllIn};
ghost use Rattle.core_tree.specs.Trees.{claim_of, variable_of, variable_list, no_variables, comprehension};
ghost use Rattle.bmc_stack.specs.Stored.{AreStored};
ghost use Rattle.bmc_places.specs.Gathered.{AllRows};
ghost use Rattle.bmc_walk.specs.Choices.{chosen_of, FindChoices, FindAtoms, FindMore};
ghost use Rattle.bmc_walk.specs.Variables.{earlier_list};
ghost use Rattle.bmc_places.specs.Stores.{Extends, Stays};
ghost use Rattle.bmc_walk.specs.Walked.{HasSets};
ghost use Rattle.bmc_walk.specs.Walks.{Walks};

use crate::variables::{Earlier, deeper, is_apart};
use crate::walk::{Answer, Ground, Known, Walk, Wanted, part_row, part_sets};
use bmc_leaves::setting::columns_of;
use bmc_places::rows::both_part;
use bmc_places::{Choice, Found, cut_to, found_in, gathered_sets, place_times};
use bmc_stack::Store;
use bmc_stack::windows::{both, constantly};
use core_tree::{Formula, Variable};
use core_tuples::Tuple;
use gate_trait::{Gates, NodeList};
use std::alloc::{AllocError, Global};

/// The tuple of the atoms that were chosen.
fn chosen_tuple(alloc: Global, earlier: &Earlier<'_>) -> Result<Tuple, AllocError>
    ensures { IfOk result (λ t. t ≡ chosen_of (earlier_list earlier.now)) }
{
    match earlier {
        Earlier::Start => Ok(Tuple::new(alloc)),
        Earlier::Then(atom, rest) => {
            let mut tuple = chosen_tuple(alloc, *rest)?;
            tuple.push(*atom)?;
            Ok(tuple)
        }
    }
}

/// Adds the atoms that were chosen, where a row and the formula hold.
fn add_choice<
    G: Gates,
    F: for<'j> Fn(
        &'j Ground<'j>,
        &mut G,
        &mut Store,
        Wanted<'_>,
        &Known<'_>,
        u32,
    ) -> Result<Answer, AllocError>,
>(
    walk: &Walk<'_, F>,
    gates: &mut G,
    store: &mut Store,
    formula: &Formula,
    known: &Known<'_>,
    earlier: &Earlier<'_>,
    there: &NodeList,
    all: &mut Vec<Choice>,
) -> Result<(), AllocError>
    requires walks { Walks G.belongs G.node_value walk.now.deep (F.pre walk.now.run)
        (F.post walk.now.run) }
    requires stored { AreStored (G.belongs gates.old) store.old }
    requires there { AllIn (G.belongs gates.old) there.now }
    requires rows { AllRows (G.belongs gates.old) all.old.items }
    ensures keeps { Keeps G.belongs G.node_value gates.old gates.new }
    ensures stored { OnOk result (AreStored (G.belongs gates.new) store.new) }
    ensures stays { OnOk result (Stays store.old store.new) }
    ensures rows { OnOk result (AllRows (G.belongs gates.new) all.new.items) }
    ensures right { OnOk result (FindChoices walk.now.ground.now known.now
        (earlier_list earlier.now) (G.node_value gates.old) (G.node_value gates.new)
        store.old.matrices.items no_variables (claim_of formula.now) there.now all.old.items
        all.new.items) }
{
    let body = part_row(walk, gates, store, formula, known)?;
    let row = both(walk.ground.alloc, gates, &body, there)?;
    let tuple = chosen_tuple(walk.ground.alloc, earlier)?;
    let choice = Choice { tuple, row };
    all.push(choice)?;
    Ok(())
}

/// Adds the choices of atoms for variables that differ as they ask from earlier ones, where a row and the
/// formula hold.
#[cycle(choices)]
pub fn add_choices<
    G: Gates,
    F: for<'j> Fn(
        &'j Ground<'j>,
        &mut G,
        &mut Store,
        Wanted<'_>,
        &Known<'_>,
        u32,
    ) -> Result<Answer, AllocError>,
>(
    walk: &Walk<'_, F>,
    gates: &mut G,
    store: &mut Store,
    list: &[Variable],
    formula: &Formula,
    known: &Known<'_>,
    earlier: &Earlier<'_>,
    there: &NodeList,
    deep: u32,
    all: &mut Vec<Choice>,
) -> Result<(), AllocError>
    requires walks { Walks G.belongs G.node_value walk.now.deep (F.pre walk.now.run)
        (F.post walk.now.run) }
    requires stored { AreStored (G.belongs gates.old) store.old }
    requires there { AllIn (G.belongs gates.old) there.now }
    requires rows { AllRows (G.belongs gates.old) all.old.items }
    ensures keeps { Keeps G.belongs G.node_value gates.old gates.new }
    ensures stored { OnOk result (AreStored (G.belongs gates.new) store.new) }
    ensures stays { OnOk result (Stays store.old store.new) }
    ensures rows { OnOk result (AllRows (G.belongs gates.new) all.new.items) }
    ensures right { OnOk result (FindChoices walk.now.ground.now known.now
        (earlier_list earlier.now) (G.node_value gates.old) (G.node_value gates.new)
        store.old.matrices.items (variable_list (map variable_of list.now))
        (claim_of formula.now) there.now all.old.items all.new.items) }
{
    let next = deeper(deep)?;
    match list.split_first() {
        None => {
            add_choice(walk, gates, store, formula, known, earlier, there, all)?;
            Ok(())
        }
        Some((variable, rest)) => {
            add_bound(
                walk, gates, store, variable, rest, formula, known, earlier, there, next, all,
            )?;
            Ok(())
        }
    }
}

/// The same, of a variable and those after it.
#[cycle(choices)]
fn add_bound<
    G: Gates,
    F: for<'j> Fn(
        &'j Ground<'j>,
        &mut G,
        &mut Store,
        Wanted<'_>,
        &Known<'_>,
        u32,
    ) -> Result<Answer, AllocError>,
>(
    walk: &Walk<'_, F>,
    gates: &mut G,
    store: &mut Store,
    variable: &Variable,
    rest: &[Variable],
    formula: &Formula,
    known: &Known<'_>,
    earlier: &Earlier<'_>,
    there: &NodeList,
    deep: u32,
    all: &mut Vec<Choice>,
) -> Result<(), AllocError>
    requires walks { Walks G.belongs G.node_value walk.now.deep (F.pre walk.now.run)
        (F.post walk.now.run) }
    requires stored { AreStored (G.belongs gates.old) store.old }
    requires there { AllIn (G.belongs gates.old) there.now }
    requires rows { AllRows (G.belongs gates.old) all.old.items }
    ensures keeps { Keeps G.belongs G.node_value gates.old gates.new }
    ensures stored { OnOk result (AreStored (G.belongs gates.new) store.new) }
    ensures stays { OnOk result (Stays store.old store.new) }
    ensures rows { OnOk result (AllRows (G.belongs gates.new) all.new.items) }
    ensures right { OnOk result (FindChoices walk.now.ground.now known.now
        (earlier_list earlier.now) (G.node_value gates.old) (G.node_value gates.new)
        store.old.matrices.items (variable_list (variable_of variable.now
        ∷ map variable_of rest.now)) (claim_of formula.now) there.now all.old.items
        all.new.items) }
{
    let next = deeper(deep)?;
    let matrices = store.matrices.len();
    let integers = store.integers.len();
    let bound = part_sets(walk, gates, store, &variable.bound, known)?;
    let setting = walk.ground.setting;
    let frame = setting.frame;
    let count = frame.shown.len();
    if bound.len() != count {
        return Err(AllocError);
    }
    let found = found_in(walk.ground.alloc, gates, store, &bound)?;
    add_atoms(
        walk, gates, store, &found, variable, rest, formula, known, earlier, there, next, all,
    )?;
    cut_to(gates, store, matrices, integers);
    Ok(())
}

/// The same, where the tuples that the bound may have are found.
#[cycle(choices)]
fn add_atoms<
    G: Gates,
    F: for<'j> Fn(
        &'j Ground<'j>,
        &mut G,
        &mut Store,
        Wanted<'_>,
        &Known<'_>,
        u32,
    ) -> Result<Answer, AllocError>,
>(
    walk: &Walk<'_, F>,
    gates: &mut G,
    store: &mut Store,
    found: &Found,
    variable: &Variable,
    rest: &[Variable],
    formula: &Formula,
    known: &Known<'_>,
    earlier: &Earlier<'_>,
    there: &NodeList,
    deep: u32,
    all: &mut Vec<Choice>,
) -> Result<(), AllocError>
    requires walks { Walks G.belongs G.node_value walk.now.deep (F.pre walk.now.run)
        (F.post walk.now.run) }
    requires stored { AreStored (G.belongs gates.old) store.old }
    requires there { AllIn (G.belongs gates.old) there.now }
    requires rows { AllRows (G.belongs gates.old) all.old.items }
    requires nodes { AllIn (G.belongs gates.old) found.now.nodes }
    ensures keeps { Keeps G.belongs G.node_value gates.old gates.new }
    ensures stored { OnOk result (AreStored (G.belongs gates.new) store.new) }
    ensures stays { OnOk result (Stays store.old store.new) }
    ensures rows { OnOk result (AllRows (G.belongs gates.new) all.new.items) }
    ensures right { OnOk result (FindAtoms walk.now.ground.now known.now
        (earlier_list earlier.now) (G.node_value gates.old) (G.node_value gates.new)
        store.old.matrices.items (variable_of variable.now)
        (variable_list (map variable_of rest.now)) (claim_of formula.now) found.now.tuples.items
        found.now.nodes there.now all.old.items all.new.items) }
{
    let next = deeper(deep)?;
    for place in 0..found.tuples.len() {
        add_atom(
            walk, gates, store, found, place, variable, rest, formula, known, earlier, there, next,
            all,
        )?;
    }
    Ok(())
}

/// The same for one tuple.
#[cycle(choices)]
fn add_atom<
    G: Gates,
    F: for<'j> Fn(
        &'j Ground<'j>,
        &mut G,
        &mut Store,
        Wanted<'_>,
        &Known<'_>,
        u32,
    ) -> Result<Answer, AllocError>,
>(
    walk: &Walk<'_, F>,
    gates: &mut G,
    store: &mut Store,
    found: &Found,
    place: usize,
    variable: &Variable,
    rest: &[Variable],
    formula: &Formula,
    known: &Known<'_>,
    earlier: &Earlier<'_>,
    there: &NodeList,
    deep: u32,
    all: &mut Vec<Choice>,
) -> Result<(), AllocError>
    requires walks { Walks G.belongs G.node_value walk.now.deep (F.pre walk.now.run)
        (F.post walk.now.run) }
    requires stored { AreStored (G.belongs gates.old) store.old }
    requires there { AllIn (G.belongs gates.old) there.now }
    requires rows { AllRows (G.belongs gates.old) all.old.items }
    requires nodes { AllIn (G.belongs gates.old) found.now.nodes }
    requires place { place < length found.now.tuples.items }
    ensures keeps { Keeps G.belongs G.node_value gates.old gates.new }
    ensures stored { OnOk result (AreStored (G.belongs gates.new) store.new) }
    ensures stays { OnOk result (Stays store.old store.new) }
    ensures rows { OnOk result (AllRows (G.belongs gates.new) all.new.items) }
    ensures right { OnOk result (FindMore walk.now.ground.now known.now
        (earlier_list earlier.now) (G.node_value gates.old) (G.node_value gates.new)
        store.old.matrices.items (variable_of variable.now)
        (variable_list (map variable_of rest.now)) (claim_of formula.now) found.now.tuples.items
        found.now.nodes place there.now all.old.items all.new.items) }
{
    let next = deeper(deep)?;
    let tuple = &found.tuples[place];
    let numbers = tuple.numbers();
    if numbers.len() != 1 {
        return Ok(());
    }
    let atom = numbers[0];
    let apart = is_apart(earlier, variable.apart, atom);
    if !apart {
        return Ok(());
    }
    let setting = walk.ground.setting;
    let frame = setting.frame;
    let count = frame.shown.len();
    let from = place_times(place, count)?;
    let here = both_part(walk.ground.alloc, gates, there, &found.nodes, from, count)?;
    let inner = Known::Atom(variable.name, atom, &*known);
    let chosen = Earlier::Then(atom, &*earlier);
    add_choices(
        walk, gates, store, rest, formula, &inner, &chosen, &here, next, all,
    )?;
    Ok(())
}

/// The sets of a comprehension.
pub fn comprehension_sets<
    G: Gates,
    F: for<'j> Fn(
        &'j Ground<'j>,
        &mut G,
        &mut Store,
        Wanted<'_>,
        &Known<'_>,
        u32,
    ) -> Result<Answer, AllocError>,
>(
    walk: &Walk<'_, F>,
    gates: &mut G,
    store: &mut Store,
    list: &[Variable],
    formula: &Formula,
    known: &Known<'_>,
) -> Result<Vec<usize>, AllocError>
    requires walks { Walks G.belongs G.node_value walk.now.deep (F.pre walk.now.run)
        (F.post walk.now.run) }
    requires stored { AreStored (G.belongs gates.old) store.old }
    ensures keeps { Keeps G.belongs G.node_value gates.old gates.new }
    ensures stored { OnOk result (AreStored (G.belongs gates.new) store.new) }
    ensures extends { OnOk result (Extends store.old store.new) }
    ensures right { IfOk result (λ v. HasSets walk.now.ground.now known.now
        (G.node_value gates.old) (G.node_value gates.new) store.old.matrices.items
        store.new.matrices.items (comprehension (variable_list
        (map variable_of list.now)) (claim_of formula.now)) v.items) }
{
    let setting = walk.ground.setting;
    let frame = setting.frame;
    let count = frame.shown.len();
    let there = constantly(walk.ground.alloc, gates, count, true)?;
    let start = Earlier::Start;
    let mut choices: Vec<Choice> = Vec::new(walk.ground.alloc);
    add_choices(
        walk,
        gates,
        store,
        list,
        formula,
        known,
        &start,
        &there,
        walk.deep,
        &mut choices,
    )?;
    let columns = columns_of(list);
    let made = gathered_sets(walk.ground.alloc, gates, store, &choices, count, columns)?;
    Ok(made)
}
