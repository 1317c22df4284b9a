//! Tests the sigs of a model: their parents and their appended facts.

ghost use Rattle.std.specs.Prelude.{◌≡◌, ◌<◌, ℕ, IfOk, IfSome, IsTrue, All, length, slice_get, slice_index, Some};
ghost use Rattle.core_tree.specs.declared.model.Sig.{Sig};
ghost use Rattle.core_tree.specs.Trees.{claim_of};
ghost use Rattle.core_tree.specs.Columns.{IsRightClaim};
ghost use Rattle.core_tree.specs.Models.{AnyField, AnyBody, IsParent, IsRightSig, parents_of, shapes_of, this_column};
ghost use Rattle.resolve_check.specs.Names.{names_of};
ghost use Rattle.resolve_check.specs.Fits.{shapes_in};
ghost use Rattle.resolve_check.specs.Kept.{FallsTo, AreFalling};

use crate::formulas::is_right_formula;
use crate::names::NameList;
use crate::shape::Shape;
use core_tree::{Column, Formula, ItemList, Model, Sig, SigKind};
use std::alloc::{AllocError, Global};

/// Whether a parent is there.
fn is_parent(sigs: usize, column: &Column) -> bool
    ensures { IsTrue result → IsParent sigs column.now }
{
    match column {
        Column::Sig(sig) => (*sig as usize) < sigs,
        Column::Int => true,
    }
}

/// Whether all parents are there.
pub fn are_parents(sigs: usize, columns: &ItemList<Column>) -> bool
    ensures { IsTrue result → All (IsParent sigs) columns.now }
{
    for place in 0..columns.len() {
        let column = columns.get(place);
        if !is_parent(sigs, column) {
            return false;
        }
    }
    true
}

/// Whether the parents of a sig are there.
fn has_parents(sigs: usize, kind: &SigKind) -> bool
    ensures { IsTrue result → All (IsParent sigs) (parents_of kind.now) }
{
    match kind {
        SigKind::Top => true,
        SigKind::Extends(parent) => (*parent as usize) < sigs,
        SigKind::Subset(columns) => are_parents(sigs, columns),
    }
}

/// Whether an appended fact is right.
fn is_right_appended(
    alloc: Global,
    shape: &Shape,
    this: &NameList,
    appended: &Option<Formula>,
) -> Result<bool, AllocError>
    ensures { IfOk result (λ b. IsTrue b → IfSome appended.now
        (λ f. IsRightClaim (shapes_in shape.now) AnyField AnyBody (claim_of f)
        (names_of this.now))) }
{
    match appended {
        None => Ok(true),
        Some(formula) => is_right_formula(alloc, shape, this, formula),
    }
}

/// Whether a sig is right.
fn is_right_sig(
    alloc: Global,
    model: &Model,
    shape: &Shape,
    this: &NameList,
    sig: &Sig,
) -> Result<bool, AllocError>
    requires shape { shapes_in shape.now ≡ shapes_of model.now }
    requires this { names_of this.now ≡ this_column }
    ensures { IfOk result (λ b. IsTrue b → IsRightSig model.now sig.now) }
{
    if !has_parents(model.sigs.len(), &sig.kind) {
        return Ok(false);
    }
    is_right_appended(alloc, shape, this, &sig.appended)
}

/// Whether all sigs are right.
pub fn are_right_sigs(
    alloc: Global,
    model: &Model,
    shape: &Shape,
    this: &NameList,
    sigs: &[Sig],
) -> Result<bool, AllocError>
    requires shape { shapes_in shape.now ≡ shapes_of model.now }
    requires this { names_of this.now ≡ this_column }
    ensures { IfOk result (λ b. IsTrue b → All (IsRightSig model.now) sigs.now) }
{
    for sig in sigs {
        if !is_right_sig(alloc, model, shape, this, sig)? {
            return Ok(false);
        }
    }
    Ok(true)
}

/// The number of a sig.
fn number_of(numbers: &ItemList<u32>, sig: usize) -> u32
    ensures { result ≡ slice_index numbers.now sig }
{
    if sig < numbers.len() {
        *numbers.get(sig)
    } else {
        0
    }
}

/// Whether a sig has a greater number than a parent.
fn falls_to(numbers: &ItemList<u32>, sig: usize, parent: &Column) -> bool
    ensures { IsTrue result → FallsTo numbers.now sig parent.now }
{
    match parent {
        Column::Sig(above) => number_of(numbers, *above as usize) < number_of(numbers, sig),
        Column::Int => true,
    }
}

/// Whether a sig has a greater number than all of some parents.
fn falls_to_all(numbers: &ItemList<u32>, sig: usize, parents: &ItemList<Column>) -> bool
    ensures { IsTrue result → All (FallsTo numbers.now sig) parents.now }
{
    for place in 0..parents.len() {
        let parent = parents.get(place);
        if !falls_to(numbers, sig, parent) {
            return false;
        }
    }
    true
}

/// Whether a sig has a greater number than its parents.
fn is_falling(numbers: &ItemList<u32>, place: usize, kind: &SigKind) -> bool
    ensures { IsTrue result → All (FallsTo numbers.now place) (parents_of kind.now) }
{
    match kind {
        SigKind::Top => true,
        SigKind::Extends(parent) => falls_to(numbers, place, &Column::Sig(*parent)),
        SigKind::Subset(columns) => falls_to_all(numbers, place, columns),
    }
}

/// Whether each sig has a greater number than its parents.
pub fn are_falling(sigs: &[Sig], numbers: &ItemList<u32>) -> bool
    ensures { IsTrue result → AreFalling sigs.now numbers.now }
{
    for place in 0..sigs.len() {
        if !is_falling(numbers, place, &sigs[place].kind) {
            return false;
        }
    }
    true
}
