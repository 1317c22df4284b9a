//! Finds the type of an expression that calls no function.

ghost use Rattle.std.specs.Prelude.{◌≡◌, ◌<◌, ◌^◌, length, map, IfOk, IfSome, slice_get};
ghost use Rattle.core_tree.specs.Types.{rows_or_none};
ghost use Rattle.core_tree.specs.Trees.{term_of, variable_of, variable_list};
ghost use Rattle.resolve_type_check.specs.Names.{names_of, IsTypeOf, IsTypeOfVariables};

use crate::forms::{combine_types, either_types, product_types, turn_types};
use crate::levels::rows_of_named;
use crate::names::{NamedRows, look_up, names_copy, with_name};
use crate::operators::{pairs_of_tops, product_type};
use crate::pairs::rows_copy;
use crate::sigs::{int_rows, rows_of_tops};
use core_tree::{Expr, Model, Row, RowList, Variable};
use std::alloc::{AllocError, Global};

/// The rows of a field.
fn rows_of_field(alloc: Global, model: &Model, field: u32) -> Result<RowList, AllocError>
    ensures { IfOk result (λ all. all ≡ rows_or_none (slice_get model.now.fields field)) }
{
    match model.fields.as_slice().get(field as usize) {
        None => Ok(RowList::new(alloc)),
        Some(there) => rows_copy(alloc, there.rows.as_slice()),
    }
}

/// The type of an expression; none where it calls a function.
#[cycle(walk)]
pub fn type_of(
    alloc: Global,
    model: &Model,
    names: &[NamedRows],
    expr: &Expr,
) -> Result<Option<RowList>, AllocError>
    requires { length model.now.sigs < 2 ^ 32 }
    ensures { IfOk result (λ o. IfSome o (IsTypeOf model.now (term_of expr.now)
        (names_of names.now))) }
{
    let sigs = model.sigs.as_slice();
    match expr {
        Expr::Sig(sig) => Ok(Some(rows_of_named(alloc, sigs, *sig)?)),
        Expr::Field(field) => Ok(Some(rows_of_field(alloc, model, *field)?)),
        Expr::Name(name) => Ok(Some(rows_copy(alloc, look_up(names, *name))?)),
        Expr::Univ => Ok(Some(rows_of_tops(alloc, sigs)?)),
        Expr::Iden => Ok(Some(pairs_of_tops(alloc, sigs)?)),
        Expr::Empty => Ok(Some(RowList::new(alloc))),
        Expr::Int => Ok(Some(int_rows(alloc)?)),
        Expr::Number(_, _) => Ok(Some(int_rows(alloc)?)),
        Expr::Count(_) => Ok(Some(int_rows(alloc)?)),
        Expr::Arithmetic(_, _, _) => Ok(Some(int_rows(alloc)?)),
        Expr::Sum(_, _) => Ok(Some(int_rows(alloc)?)),
        Expr::Combine(op, a, b) => combine_types(
            alloc,
            model,
            *op,
            type_of(alloc, model, names, a)?,
            type_of(alloc, model, names, b)?,
        ),
        Expr::Product(a, _, _, b) => product_types(
            alloc,
            model,
            type_of(alloc, model, names, a)?,
            type_of(alloc, model, names, b)?,
        ),
        Expr::Unary(op, a) => turn_types(alloc, model, *op, type_of(alloc, model, names, a)?),
        Expr::Prime(a) => type_of(alloc, model, names, a),
        Expr::Choose(_, a, b) => either_types(
            alloc,
            model,
            type_of(alloc, model, names, a)?,
            type_of(alloc, model, names, b)?,
        ),
        Expr::Comprehension(variables, _) => {
            type_of_variables(alloc, model, names, variables.as_slice())
        }
        Expr::Let(name, a, b) => match type_of(alloc, model, names, a)? {
            None => Ok(None),
            Some(rows) => {
                let inner = with_name(alloc, names, *name, rows.as_slice())?;
                type_of(alloc, model, inner.as_slice(), b)
            }
        },
        Expr::Call(_, _) => Ok(None),
    }
}

/// The product of the types of variables' bounds.
#[cycle(walk)]
fn type_of_variables(
    alloc: Global,
    model: &Model,
    names: &[NamedRows],
    list: &[Variable],
) -> Result<Option<RowList>, AllocError>
    requires { length model.now.sigs < 2 ^ 32 }
    ensures { IfOk result (λ o. IfSome o (IsTypeOfVariables model.now
        (variable_list (map variable_of list.now)) (names_of names.now))) }
{
    let sigs = model.sigs.as_slice();
    let mut inner = names_copy(alloc, names)?;
    let mut all = RowList::new(alloc);
    all.push(Row::new(alloc))?;
    for variable in list {
        match type_of(alloc, model, inner.as_slice(), &variable.bound)? {
            None => return Ok(None),
            Some(rows) => {
                all = product_type(alloc, sigs, all.as_slice(), rows.as_slice())?;
                inner = with_name(alloc, inner.as_slice(), variable.name, rows.as_slice())?;
            }
        }
    }
    Ok(Some(all))
}
