//! Tests whether labels are such that each text under them is that of one lasso.

ghost use Rattle.std.specs.Prelude.{◌≡◌, ◌<◌, ◌≤◌, All, IfOk, IsTrue, length};
ghost use Rattle.core_meaning.specs.Kept.{universe_size};
ghost use Rattle.answer_laws.specs.Form.{HasAtom, HaveLassos};
ghost use Rattle.answer_checks.specs.Parts.{IsLabel};

use crate::places::have_places;
use crate::texts::{are_apart, are_texts, is_line};
use answer_trace::{Labels, RelationLabel, Shown};
use core_meaning::Scopes;
use eval_context::integer_count;
use eval_context::sizes::count_atoms;
use std::alloc::{AllocError, Global};

/// Whether there are from one to nine columns.
fn are_few(columns: u32) -> bool
    ensures { IsTrue result → (1 ≤ columns) × (columns ≤ 9) }
{
    1 <= columns && columns <= 9
}

/// Whether a set of so many columns can be the atom of this number alone.
fn is_atom(atoms: usize, columns: u32, atom: u32) -> bool
    ensures { IsTrue result → (columns ≡ 1) × (atom < atoms) × (atom < 16384) }
{
    // Atoms, S66: there are at most 16,384 atoms and integers.
    columns == 1 && (atom as usize) < atoms && atom < 16384
}

/// Whether a relation without a line can hold what it is to hold.
fn has_atom(labels: &Labels, relation: &RelationLabel) -> bool
    ensures { IsTrue result → HasAtom labels.now relation.now.columns relation.now.shown }
{
    match relation.shown {
        Shown::Line => true,
        Shown::Nothing => true,
        Shown::Just(atom) => is_atom(labels.atoms.len(), relation.columns, atom),
    }
}

/// Whether a state of so many sets has this place.
fn is_within(relations: usize, place: u32) -> bool
    ensures { IsTrue result → place < relations }
{
    (place as usize) < relations
}

/// Whether a relation is rightly written, other relations aside.
fn is_label(labels: &Labels, relation: &RelationLabel) -> bool
    ensures { IsTrue result → IsLabel labels.now relation.now }
{
    if !is_line(&relation.label) {
        return false;
    }
    if !are_few(relation.columns) {
        return false;
    }
    if !is_within(labels.relations.len(), relation.place) {
        return false;
    }
    has_atom(labels, relation)
}

/// Whether all relations are.
fn are_labels(labels: &Labels, relations: &[RelationLabel]) -> bool
    ensures { IsTrue result → All (IsLabel labels.now) relations.now }
{
    for relation in relations {
        if !is_label(labels, relation) {
            return false;
        }
    }
    true
}

/// Whether each text under these labels is that of one lasso: the atoms have different texts of a right form, all labels are
/// in one line, each relation has one to nine columns and can hold what it is to hold without a line, and each place of a
/// state is that of just one relation. Of more than 16,384 atoms none are found to be. Errors where memory runs out.
pub fn have_lassos(alloc: Global, labels: &Labels) -> Result<bool, AllocError>
    ensures { IfOk result (λ b. IsTrue b → HaveLassos labels.now) }
{
    let relations = labels.relations.as_slice();
    if !are_texts(&labels.atoms) {
        return Ok(false);
    }
    if !are_labels(labels, relations) {
        return Ok(false);
    }
    let apart = are_apart(alloc, &labels.atoms)?;
    if !apart {
        return Ok(false);
    }
    let placed = have_places(alloc, relations)?;
    Ok(placed)
}

/// Whether labels have as many atoms as the universe of scopes has numbers.
pub fn has_universe(labels: &Labels, scopes: &Scopes) -> bool
    ensures { IsTrue result → length labels.now.atoms ≡ universe_size scopes.now }
{
    if scopes.bits > 14 {
        return false;
    }
    match count_atoms(scopes.numbers.as_slice()) {
        None => false,
        Some(count) => labels.atoms.len() == (count + integer_count(scopes.bits)) as usize,
    }
}
