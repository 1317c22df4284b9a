//! Tests whether the rows of the fields of a model are those of their declarations.

ghost use Rattle.std.specs.Prelude.{◌≡◌, ◌<◌, ◌^◌, length, IfOk, IfSome, IsTrue, All};
ghost use Rattle.core_tree.specs.Trees.{term_of};
ghost use Rattle.core_tree.specs.Models.{declared_rows};
ghost use Rattle.resolve_type_check.specs.Typed.{HasDeclaredRows, HasTypes};
ghost use Rattle.resolve_type_check.specs.Same.{SameRows};

use crate::levels::rows_of_sig;
use crate::names::{NamedRowsList, with_name};
use crate::operators::product_type;
use crate::sets::have_same;
use crate::walk::type_of;
use core_tree::{Expr, Field, Model, RowList};
use std::alloc::{AllocError, Global};

/// The rows of a field's sig, each followed by a row of its bound.
fn rows_of_declaration(
    alloc: Global,
    model: &Model,
    owner: u32,
    bound: &Expr,
) -> Result<Option<RowList>, AllocError>
    requires { length model.now.sigs < 2 ^ 32 }
    ensures { IfOk result (λ o. IfSome o (λ l. SameRows l
        (declared_rows model.now owner (term_of bound.now)))) }
{
    let sigs = model.sigs.as_slice();
    let own = rows_of_sig(alloc, sigs, owner)?;
    let this = with_name(
        alloc,
        NamedRowsList::new(alloc).as_slice(),
        0,
        own.as_slice(),
    )?;
    match type_of(alloc, model, this.as_slice(), bound)? {
        None => Ok(None),
        Some(rows) => Ok(Some(product_type(alloc, sigs, own.as_slice(), rows.as_slice())?)),
    }
}

/// Whether a field has the rows of this declaration.
fn has_rows(
    alloc: Global,
    model: &Model,
    owner: u32,
    bound: &Expr,
    field: &Field,
) -> Result<bool, AllocError>
    requires { length model.now.sigs < 2 ^ 32 }
    ensures { IfOk result (λ b. IsTrue b → SameRows field.now.rows
        (declared_rows model.now owner (term_of bound.now))) }
{
    match rows_of_declaration(alloc, model, owner, bound)? {
        None => Ok(false),
        Some(rows) => Ok(have_same(field.rows.as_slice(), rows.as_slice())),
    }
}

/// Whether a field with an owner has the rows of its declaration.
fn has_declared_rows(alloc: Global, model: &Model, field: &Field) -> Result<bool, AllocError>
    requires { length model.now.sigs < 2 ^ 32 }
    ensures { IfOk result (λ b. IsTrue b → HasDeclaredRows model.now field.now) }
{
    match field.owner {
        None => Ok(true),
        Some(owner) => match &field.declared {
            None => Ok(true),
            Some(declared) => has_rows(alloc, model, owner, &declared.bound.expr, field),
        },
    }
}

/// Whether all fields have the rows of their declarations.
fn have_declared_rows(alloc: Global, model: &Model, fields: &[Field]) -> Result<bool, AllocError>
    requires { length model.now.sigs < 2 ^ 32 }
    ensures { IfOk result (λ b. IsTrue b → All (HasDeclaredRows model.now) fields.now) }
{
    for field in fields {
        if !has_declared_rows(alloc, model, field)? {
            return Ok(false);
        }
    }
    Ok(true)
}

/// Whether the type of each field with an owner is what its declaration says: the rows of its sig,
/// each followed by a row of its bound, where a literal has the type `String`. A bound that calls a
/// function passes in no case. Errors where memory runs out.
pub fn keeps_types(alloc: Global, model: &Model) -> Result<bool, AllocError>
    ensures { IfOk result (λ b. IsTrue b → HasTypes model.now) }
{
    if model.sigs.len() > u32::MAX as usize {
        return Ok(false);
    }
    have_declared_rows(alloc, model, model.fields.as_slice())
}
