//! What the declarations of fields ask of a position: bounds, multiplicities and `disj`.

ghost use Rattle.std.specs.Prelude.{◌≡◌, ◌↔◌, OnOk, Some, IsTrue, slice_get};
ghost use Rattle.form_target.specs.Asked.{list_in, ShareList, EachOf, IsOwned, IsBounded, HasApartValues, IsFieldDeclared, IsAlone, IsApartFrom, IsFieldAsked};
ghost use Rattle.form_target.specs.Added.{Adds, IsDeclaredField};

use crate::build::{combine, disjoint, for_each, for_each_two, inside, value_of, within};
use crate::declarations::next_number;
use core_tree::{Expr, Field, FieldBound, Formula, Model, RelationOp};
use std::alloc::{AllocError, Global};

/// Adds what the declaration of a field asks: of it alone, and that it shares no tuple with the
/// later fields of its leading `disj` list.
pub fn field_formulas(
    alloc: Global,
    model: &Model,
    fields: &[Field],
    number: u32,
    field: &Field,
    all: &mut Vec<Formula>,
) -> Result<(), AllocError>
    requires fields { fields.now ≡ model.now.fields }
    requires field { slice_get model.now.fields number ≡ Some field.now }
    ensures { OnOk result (Adds model.now all.old.items all.new.items
        (λ w i. IsFieldAsked model.now w i number field.now)) }
{
    alone(alloc, model, number, field, all)?;
    apart_formulas(alloc, model, fields, number, field, all)?;
    Ok(())
}

/// Adds what the declaration of a field asks of it alone. A field without owner is asked nothing.
fn alone(
    alloc: Global,
    model: &Model,
    number: u32,
    field: &Field,
    all: &mut Vec<Formula>,
) -> Result<(), AllocError>
    requires { slice_get model.now.fields number ≡ Some field.now }
    ensures { OnOk result (Adds model.now all.old.items all.new.items
        (λ w i. IsAlone model.now w i number field.now)) }
{
    match field.owner {
        None => Ok(()),
        Some(owner) => match &field.declared {
            None => Ok(()),
            Some(declared) => {
                declared_formulas(alloc, model, number, owner, declared, all)?;
                Ok(())
            }
        },
    }
}

/// Adds what is said of a field of this sig.
fn declared_formulas(
    alloc: Global,
    model: &Model,
    number: u32,
    owner: u32,
    declared: &FieldBound,
    all: &mut Vec<Formula>,
) -> Result<(), AllocError>
    requires { IsDeclaredField model.now number owner declared.now }
    ensures { OnOk result (Adds model.now all.old.items all.new.items
        (λ w i. IsFieldDeclared model.now w i number owner declared.now)) }
{
    owned(alloc, model, number, owner, declared, all)?;
    bounded(alloc, model, number, owner, declared, all)?;
    apart_values(alloc, model, number, owner, declared, all)?;
    Ok(())
}

/// Adds that each tuple of the field begins with an atom of its sig.
fn owned(
    alloc: Global,
    model: &Model,
    number: u32,
    owner: u32,
    declared: &FieldBound,
    all: &mut Vec<Formula>,
) -> Result<(), AllocError>
    requires { IsDeclaredField model.now number owner declared.now }
    ensures { OnOk result (Adds model.now all.old.items all.new.items
        (λ w i. IsOwned model.now w i number owner)) }
{
    let begins = combine(
        alloc,
        RelationOp::LeftRestrict,
        Expr::Sig(owner),
        Expr::Field(number),
    )?;
    all.push(inside(alloc, Expr::Field(number), begins)?)?;
    Ok(())
}

/// Adds that what each atom of the sig has in the field lies in the bound and has its
/// multiplicities.
fn bounded(
    alloc: Global,
    model: &Model,
    number: u32,
    owner: u32,
    declared: &FieldBound,
    all: &mut Vec<Formula>,
) -> Result<(), AllocError>
    requires { IsDeclaredField model.now number owner declared.now }
    ensures { OnOk result (Adds model.now all.old.items all.new.items
        (λ w i. IsBounded model.now w i number owner declared.now.bound)) }
{
    let value = value_of(alloc, 0, number)?;
    let copy = declared.bound.expr.copy(alloc)?;
    let lies = within(alloc, value, declared.bound.multiplicity, copy)?;
    all.push(for_each(alloc, owner, lies)?)?;
    Ok(())
}

/// Adds that different atoms of the sig have disjoint values, where `disj` stands after the colon.
fn apart_values(
    alloc: Global,
    model: &Model,
    number: u32,
    owner: u32,
    declared: &FieldBound,
    all: &mut Vec<Formula>,
) -> Result<(), AllocError>
    requires { IsDeclaredField model.now number owner declared.now }
    ensures { OnOk result (Adds model.now all.old.items all.new.items
        (λ w i. IsTrue declared.now.disj_values → HasApartValues model.now w i number owner)) }
{
    if !declared.disj_values {
        return Ok(());
    }
    let first = value_of(alloc, 0, number)?;
    let second = value_of(alloc, 1, number)?;
    let apart = disjoint(alloc, first, second)?;
    all.push(for_each_two(alloc, owner, apart)?)?;
    Ok(())
}

/// The number of the leading `disj` list in which a field stands.
fn list_of(field: &Field) -> Option<u32>
    ensures { result ≡ list_in field.now.declared }
{
    match &field.declared {
        None => None,
        Some(declared) => declared.disj_list,
    }
}

/// Whether two fields stand in one leading `disj` list of one sig.
fn share_list(field: &Field, other: &Field) -> bool
    ensures { IsTrue result ↔ ShareList field.now other.now }
{
    let (Some(owner), Some(other_owner)) = (field.owner, other.owner) else {
        return false;
    };
    let (Some(list), Some(other_list)) = (list_of(field), list_of(other)) else {
        return false;
    };
    owner == other_owner && list == other_list
}

/// Adds that a field shares no tuple with the later fields of its leading `disj` list. Each tuple
/// begins with an atom of the sig, so no atom has a common value.
fn apart_formulas(
    alloc: Global,
    model: &Model,
    fields: &[Field],
    number: u32,
    field: &Field,
    all: &mut Vec<Formula>,
) -> Result<(), AllocError>
    requires fields { fields.now ≡ model.now.fields }
    requires field { slice_get model.now.fields number ≡ Some field.now }
    ensures { OnOk result (Adds model.now all.old.items all.new.items
        (λ w i. EachOf model.now.fields (IsApartFrom model.now w i number field.now))) }
{
    if list_of(field).is_none() {
        return Ok(());
    }
    let mut other_number = 0;
    for other in fields {
        apart_from(alloc, model, number, field, other_number, other, all)?;
        other_number = next_number(other_number)?;
    }
    Ok(())
}

/// Adds that a field shares no tuple with another that stands after it in its leading `disj` list.
/// There is no memory for fields of one list with different columns, since they have one bound.
fn apart_from(
    alloc: Global,
    model: &Model,
    number: u32,
    field: &Field,
    other_number: u32,
    other: &Field,
    all: &mut Vec<Formula>,
) -> Result<(), AllocError>
    requires field { slice_get model.now.fields number ≡ Some field.now }
    requires other { slice_get model.now.fields other_number ≡ Some other.now }
    ensures { OnOk result (Adds model.now all.old.items all.new.items
        (λ w i. IsApartFrom model.now w i number field.now other_number other.now)) }
{
    if other_number <= number {
        return Ok(());
    }
    if !share_list(field, other) {
        return Ok(());
    }
    if field.columns != other.columns {
        return Err(AllocError);
    }
    all.push(disjoint(alloc, Expr::Field(number), Expr::Field(other_number))?)?;
    Ok(())
}
