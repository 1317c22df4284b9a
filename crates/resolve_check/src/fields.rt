//! Tests the fields of a model: owners, bounds and the columns of their rows.

ghost use Rattle.std.specs.Prelude.{◌≡◌, ◌↔◌, ◌<◌, ◌+◌, ℕ, IfOk, IfSome, IsSome, IsTrue, All, length, slice_get, slice_index, Some};
ghost use Rattle.core_tree.specs.declared.model.Field.{Field};
ghost use Rattle.core_tree.specs.Trees.{term_of};
ghost use Rattle.core_tree.specs.Columns.{IsFew, columns_in};
ghost use Rattle.core_tree.specs.Models.{IsParent, IsRightBound, shapes_of, this_column};
ghost use Rattle.resolve_check.specs.Names.{names_of};
ghost use Rattle.resolve_check.specs.Fits.{shapes_in, order_of};
ghost use Rattle.resolve_check.specs.Kept.{IsFieldButType, HasOwner, HasBound};

use crate::columns::both;
use crate::formulas::bound_columns;
use crate::names::NameList;
use crate::shape::Shape;
use crate::sigs::are_parents;
use core_tree::{Field, FieldBound, Model, Row};
use std::alloc::{AllocError, Global};

/// Whether a row has so many columns, and all of them are there.
fn is_row(sigs: usize, columns: u32, row: &Row) -> bool
    ensures wide { IsTrue result → length row.now ≡ columns }
    ensures parts { IsTrue result → All (IsParent sigs) row.now }
{
    if row.len() != columns as usize {
        return false;
    }
    are_parents(sigs, row)
}

/// Whether all rows have so many columns, and all of these are there.
fn are_rows(sigs: usize, columns: u32, rows: &[Row]) -> bool
    ensures wide { IsTrue result → All (λ r. length r ≡ columns) rows.now }
    ensures parts { IsTrue result → All (λ r. All (IsParent sigs) r) rows.now }
{
    for row in rows {
        if !is_row(sigs, columns, row) {
            return false;
        }
    }
    true
}

/// Whether a field's owner is there, and it has a bound just where it has an owner.
fn has_owner(sigs: usize, field: &Field) -> bool
    ensures { IsTrue result → HasOwner sigs field.now }
{
    let declared = field.declared.is_some();
    match field.owner {
        None => !declared,
        Some(owner) => both((owner as usize) < sigs, declared),
    }
}

/// Whether a field's bound is right, and its columns are those of the field without its owner's.
fn is_right_bound(
    alloc: Global,
    model: &Model,
    shape: &Shape,
    this: &NameList,
    place: usize,
    columns: u32,
    declared: &FieldBound,
) -> Result<bool, AllocError>
    requires shape { shapes_in shape.now ≡ shapes_of model.now }
    requires this { names_of this.now ≡ this_column }
    ensures { IfOk result (λ b. IsTrue b → HasBound model.now (order_of shape.now) place columns
        declared.now) }
{
    match bound_columns(alloc, shape, Some(place), this, &declared.bound)? {
        None => Ok(false),
        Some(count) => Ok(count as u64 + 1 == columns as u64),
    }
}

/// Whether a field's bound is right, where it has one.
fn has_right_bound(
    alloc: Global,
    model: &Model,
    shape: &Shape,
    this: &NameList,
    place: usize,
    field: &Field,
) -> Result<bool, AllocError>
    requires shape { shapes_in shape.now ≡ shapes_of model.now }
    requires this { names_of this.now ≡ this_column }
    ensures { IfOk result (λ b. IsTrue b → IfSome field.now.declared
        (HasBound model.now (order_of shape.now) place field.now.columns)) }
{
    match &field.declared {
        None => Ok(true),
        Some(declared) => {
            is_right_bound(alloc, model, shape, this, place, field.columns, declared)
        }
    }
}

/// Whether a field has as many columns as a relation may have.
fn has_few(columns: u32) -> bool
    ensures { IsTrue result → IsFew columns }
{
    1 <= columns && columns <= 9
}

/// Whether a field is right, the rows of its type aside.
fn is_right_field(
    alloc: Global,
    model: &Model,
    shape: &Shape,
    this: &NameList,
    place: usize,
    field: &Field,
) -> Result<bool, AllocError>
    requires shape { shapes_in shape.now ≡ shapes_of model.now }
    requires this { names_of this.now ≡ this_column }
    ensures { IfOk result (λ b. IsTrue b → IsFieldButType model.now (order_of shape.now) place
        field.now) }
{
    let sigs = model.sigs.len();
    let list = field.rows.as_slice();
    let few = has_few(field.columns);
    let rows = are_rows(sigs, field.columns, list);
    let owner = has_owner(sigs, field);
    let bound = has_right_bound(alloc, model, shape, this, place, field)?;
    Ok(both(both(few, rows), both(owner, bound)))
}

/// Whether all fields are right, the rows of their types aside.
pub fn are_right_fields(
    alloc: Global,
    model: &Model,
    shape: &Shape,
    this: &NameList,
) -> Result<bool, AllocError>
    requires shape { shapes_in shape.now ≡ shapes_of model.now }
    requires this { names_of this.now ≡ this_column }
    ensures { IfOk result (λ b. IsTrue b → (k : ℕ) (f : Field) →
        slice_get model.now.fields k ≡ Some f → IsFieldButType model.now (order_of shape.now) k f) }
{
    for place in 0..model.fields.len() {
        let field = model.fields.get(place);
        if !is_right_field(alloc, model, shape, this, place, field)? {
            return Ok(false);
        }
    }
    Ok(true)
}
