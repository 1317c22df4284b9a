//! Tests whether each place of a state is that of just one relation.

ghost use Rattle.std.specs.Prelude.{◌≡◌, ◌<◌, ℕ, Contains, IfOk, IsTrue, Some, length, slice_get};
ghost use Rattle.answer_trace.specs.declared.label.RelationLabel.{RelationLabel as LabelOf};
ghost use Rattle.answer_checks.specs.Parts.{HavePlaces};

use answer_trace::RelationLabel;
use std::alloc::{AllocError, Global};

/// Notes the order of a relation at its place.
fn note(holders: &mut [usize], place: usize, order: usize) {
    if place < holders.len() {
        holders[place] = order;
    }
}

/// For each place of a state the order of a relation that has it, if any has.
fn holders_of(alloc: Global, relations: &[RelationLabel]) -> Result<Vec<usize>, AllocError> {
    let mut holders = vec![in alloc; 0usize; relations.len()]?;
    for order in 0..relations.len() {
        note(&mut holders, relations[order].place as usize, order);
    }
    Ok(holders)
}

/// Whether a relation has a place.
fn is_at(relation: &RelationLabel, place: usize) -> bool
    ensures { IsTrue result → relation.now.place ≡ place }
{
    relation.place as usize == place
}

/// Whether the relation of this order has a place.
fn has_place(relations: &[RelationLabel], order: usize, place: usize) -> bool
    ensures { IsTrue result → (r : LabelOf) × Contains relations.now r × (r.place ≡ place) }
{
    if order >= relations.len() {
        return false;
    }
    is_at(&relations[order], place)
}

/// Whether a relation that is noted at a place has it.
fn is_held(relations: &[RelationLabel], holders: &[usize], place: usize) -> bool
    ensures { IsTrue result → (r : LabelOf) × Contains relations.now r × (r.place ≡ place) }
{
    if place >= holders.len() {
        return false;
    }
    has_place(relations, holders[place], place)
}

/// Whether each place is that of a relation.
fn are_held(relations: &[RelationLabel], holders: &[usize]) -> bool
    ensures { IsTrue result → (k : ℕ) → k < length relations.now →
        (r : LabelOf) × Contains relations.now r × (r.place ≡ k) }
{
    for place in 0..relations.len() {
        if !is_held(relations, holders, place) {
            return false;
        }
    }
    true
}

/// Whether this order is noted at a place.
fn is_noted(holders: &[usize], place: usize, order: usize) -> bool
    ensures { IsTrue result → slice_get holders.now place ≡ Some order }
{
    match holders.get(place) {
        None => false,
        Some(noted) => *noted == order,
    }
}

/// Whether the order of a relation is noted at its place.
fn is_own(holders: &[usize], relation: &RelationLabel, order: usize) -> bool
    ensures { IsTrue result → slice_get holders.now relation.now.place ≡ Some order }
{
    is_noted(holders, relation.place as usize, order)
}

/// Whether the order of each relation is noted at its place.
fn are_own(relations: &[RelationLabel], holders: &[usize]) -> bool
    ensures { IsTrue result → (k : ℕ) (r : LabelOf) → slice_get relations.now k ≡ Some r →
        slice_get holders.now r.place ≡ Some k }
{
    for order in 0..relations.len() {
        if !is_own(holders, &relations[order], order) {
            return false;
        }
    }
    true
}

/// Whether each place of a state is that of a relation, and of just one.
pub fn have_places(alloc: Global, relations: &[RelationLabel]) -> Result<bool, AllocError>
    ensures { IfOk result (λ b. IsTrue b → HavePlaces relations.now) }
{
    let holders = holders_of(alloc, relations)?;
    if !are_held(relations, &holders) {
        return Ok(false);
    }
    let own = are_own(relations, &holders);
    Ok(own)
}
