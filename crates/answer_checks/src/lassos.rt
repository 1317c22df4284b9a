//! Tests whether a lasso fits labels.

ghost use Rattle.std.specs.Prelude.{◌≡◌, ◌<◌, List, All, IsTrue, Some, [], length, slice_get};
ghost use Rattle.core_tuples.specs.Sets.{TupleList, IsTupleSet};
ghost use Rattle.answer_laws.specs.Form.{FitsRelation, FitsState, HoldsHidden, IsLassoOf};
ghost use Rattle.answer_checks.specs.Parts.{FitsLabel, IsStateOf, is_just, is_single};

use answer_trace::{Labels, RelationLabel, Shown};
use core_meaning::{Lasso, State};
use core_tuples::{Keyed, TupleSet};

/// Whether all numbers are below a count.
fn are_below(numbers: &[u32], count: usize) -> bool
    ensures { IsTrue result → All (λ a. a < count) numbers.now }
{
    for number in numbers {
        if *number as usize >= count {
            return false;
        }
    }
    true
}

/// Whether all numbers of tuples are below a count.
fn have_below(tuples: &[Keyed], count: usize) -> bool
    ensures { IsTrue result → All (All (λ a. a < count)) tuples.now }
{
    for tuple in tuples {
        if !are_below(tuple.numbers(), count) {
            return false;
        }
    }
    true
}

/// Whether these are just one number, which is that of an atom.
fn is_single(numbers: &[u32], atom: u32) -> bool
    ensures { result ≡ is_single atom numbers.now }
{
    match numbers {
        [number] => *number == atom,
        _ => false,
    }
}

/// Whether these are just one tuple, which is that of an atom.
fn is_just(tuples: &[Keyed], atom: u32) -> bool
    ensures { result ≡ is_just atom tuples.now }
{
    match tuples {
        [tuple] => is_single(tuple.numbers(), atom),
        _ => false,
    }
}

/// Whether there is no tuple.
fn are_none(tuples: &[Keyed]) -> bool
    ensures { IsTrue result → tuples.now ≡ [] }
{
    tuples.is_empty()
}

/// Whether a set is what its relation is to hold where it has no line.
fn holds_hidden(shown: Shown, set: &TupleSet) -> bool
    ensures { IsTrue result → HoldsHidden shown set.now }
{
    let tuples = set.keyed();
    match shown {
        Shown::Line => true,
        Shown::Nothing => are_none(tuples),
        Shown::Just(atom) => is_just(tuples, atom),
    }
}

/// Whether a set fits its relation.
fn fits_label(labels: &Labels, relation: &RelationLabel, set: &TupleSet) -> bool
    ensures { IsTrue result → FitsLabel labels.now relation.now set.now }
{
    let arity = set.arity();
    if arity != relation.columns {
        return false;
    }
    if !have_below(set.keyed(), labels.atoms.len()) {
        return false;
    }
    holds_hidden(relation.shown, set)
}

/// Whether the set of a relation fits it.
fn fits_relation(labels: &Labels, state: &State, relation: &RelationLabel) -> bool
    ensures { IsTrue result → FitsRelation labels.now state.now relation.now }
{
    let place = relation.place as usize;
    if place >= state.len() {
        return false;
    }
    let set = state.get(place);
    fits_label(labels, relation, set)
}

/// Whether the sets of all relations fit them.
fn fit_relations(labels: &Labels, state: &State, relations: &[RelationLabel]) -> bool
    ensures { IsTrue result → All (FitsRelation labels.now state.now) relations.now }
{
    for relation in relations {
        if !fits_relation(labels, state, relation) {
            return false;
        }
    }
    true
}

/// All of a state are sets of tuples.
fn have_sets(state: &State)
    ensures { All IsTupleSet state.now }
{
    for place in 0..state.len() {
        // for the proof: this call's clause says that it is a set of tuples
        let _ = state.get(place).arity();
    }
}

/// Whether a state fits labels.
fn fits_state(labels: &Labels, state: &State) -> bool
    ensures { IsTrue result → FitsState labels.now state.now }
{
    let relations = labels.relations.as_slice();
    if state.len() != relations.len() {
        return false;
    }
    fit_relations(labels, state, relations)
}

/// Whether a state is one of the labels.
fn is_state(labels: &Labels, state: &State) -> bool
    ensures { IsTrue result → IsStateOf labels.now state.now }
{
    have_sets(state);
    fits_state(labels, state)
}

/// Whether the state at a place of a lasso is one of the labels.
fn is_state_at(labels: &Labels, lasso: &Lasso, place: u32) -> bool
    requires { place < length lasso.now.states }
    ensures { IsTrue result → (s : List TupleList) → slice_get lasso.now.states place ≡ Some s →
        IsStateOf labels.now s }
{
    let state = lasso.at(place as u64);
    is_state(labels, state)
}

/// Whether a lasso fits labels: each of its states has just one set for each relation, with the relation's columns and
/// numbers of the universe alone, and what is hidden is held.
pub fn fits_labels(labels: &Labels, lasso: &Lasso) -> bool
    ensures { IsTrue result → IsLassoOf labels.now lasso.now }
{
    for place in 0..lasso.states() {
        if !is_state_at(labels, lasso, place) {
            return false;
        }
    }
    true
}
