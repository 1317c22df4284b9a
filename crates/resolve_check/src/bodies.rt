//! Tests the predicates and functions of a model: their parameters, results and bodies.

ghost use Rattle.std.specs.Prelude.{◌≡◌, ◌<◌, ℕ, IfOk, IfSome, IsTrue, All};
ghost use Rattle.core_tree.specs.Columns.{no_columns};
ghost use Rattle.core_tree.specs.Models.{IsRightBody, IsRightForm, AreRightParameters, parameters_of, named_columns, plain_shapes, shapes_of};
ghost use Rattle.resolve_check.specs.Names.{names_of};
ghost use Rattle.resolve_check.specs.Fits.{shapes_in, HasColumns};
ghost use Rattle.resolve_check.specs.Parameters.{IsParameter};

use crate::columns::{both, has_columns};
use crate::formulas::bound_columns;
use crate::names::{NameList, Named};
use crate::shape::{Calls, Limits, Shape};
use crate::signatures::{next_parameter, parameters_under};
use crate::walk::{columns_at, is_right};
use core_tree::{Body, BodyForm, Bound, Expr, Model, Parameter};
use std::alloc::{AllocError, Global};

/// A parameter as a name behind those before it, where its bound is right.
fn right_parameter(
    alloc: Global,
    model: &Model,
    plain: &Shape,
    shape: &Shape,
    names: &NameList,
    place: usize,
    parameter: &Parameter,
) -> Result<Option<Named>, AllocError>
    requires { shapes_in shape.now ≡ shapes_of model.now }
    ensures { IfOk result (λ o. IfSome o (IsParameter model.now (shapes_in plain.now) names.now
        place parameter.now)) }
{
    match bound_columns(alloc, shape, None, names, &parameter.bound)? {
        None => Ok(None),
        Some(_) => next_parameter(alloc, plain, names, place, parameter),
    }
}

/// Whether the bounds of parameters are right.
fn are_right_parameters(
    alloc: Global,
    model: &Model,
    plain: &Shape,
    shape: &Shape,
    parameters: &[Parameter],
) -> Result<bool, AllocError>
    requires plain { shapes_in plain.now ≡ plain_shapes model.now }
    requires shape { shapes_in shape.now ≡ shapes_of model.now }
    ensures { IfOk result (λ b. IsTrue b → AreRightParameters model.now parameters.now 0
        no_columns) }
{
    let mut names = NameList::new(alloc);
    for place in 0..parameters.len() {
        match right_parameter(
            alloc,
            model,
            plain,
            shape,
            &names,
            place,
            &parameters[place],
        )? {
            None => return Ok(false),
            Some(named) => names.push(named)?,
        }
    }
    Ok(true)
}

/// Whether a function's expression and result bound are right and have the same columns.
fn is_right_value(
    alloc: Global,
    shape: &Shape,
    limits: Limits,
    names: &NameList,
    expr: &Expr,
    bound: &Bound,
) -> Result<bool, AllocError>
    ensures { IfOk result (λ b. IsTrue b → HasColumns shape.now limits (names_of names.now) expr.now
        bound.now) }
{
    let columns = columns_at(alloc, shape, limits, names, expr)?;
    match bound_columns(alloc, shape, None, names, bound)? {
        None => Ok(false),
        Some(wanted) => Ok(has_columns(columns, wanted)),
    }
}

/// Whether a body's formula or expression is right.
fn is_right_form(
    alloc: Global,
    model: &Model,
    shape: &Shape,
    rank: u32,
    names: &NameList,
    form: &BodyForm,
) -> Result<bool, AllocError>
    requires { shapes_in shape.now ≡ shapes_of model.now }
    ensures { IfOk result (λ b. IsTrue b → IsRightForm model.now rank form.now
        (names_of names.now)) }
{
    let limits = Limits {
        below: None,
        calls: Calls::Below(rank),
        look: true,
    };
    match form {
        BodyForm::Test(formula) => is_right(alloc, shape, limits, names, formula),
        BodyForm::Term(expr, bound) => { is_right_value(alloc, shape, limits, names, expr, bound) }
    }
}

/// The parameters of a body as names.
fn names_of_body(
    alloc: Global,
    model: &Model,
    plain: &Shape,
    body: &Body,
) -> Result<Option<NameList>, AllocError>
    requires { shapes_in plain.now ≡ plain_shapes model.now }
    ensures { IfOk result (λ o. IfSome o (λ ns. names_of ns
        ≡ named_columns (parameters_of model.now body.now) 0)) }
{
    match parameters_under(alloc, plain, body.parameters.as_slice())? {
        None => Ok(None),
        Some(names) => Ok(Some(names)),
    }
}

/// Whether a body is right.
fn is_right_body(
    alloc: Global,
    model: &Model,
    plain: &Shape,
    shape: &Shape,
    body: &Body,
) -> Result<bool, AllocError>
    requires plain { shapes_in plain.now ≡ plain_shapes model.now }
    requires shape { shapes_in shape.now ≡ shapes_of model.now }
    ensures { IfOk result (λ b. IsTrue b → IsRightBody model.now body.now) }
{
    match names_of_body(alloc, model, plain, body)? {
        None => Ok(false),
        Some(names) => {
            let parameters = body.parameters.as_slice();
            Ok(both(
                are_right_parameters(alloc, model, plain, shape, parameters)?,
                is_right_form(alloc, model, shape, body.rank, &names, &body.form)?,
            ))
        }
    }
}

/// Whether all bodies are right.
pub fn are_right_bodies(
    alloc: Global,
    model: &Model,
    plain: &Shape,
    shape: &Shape,
    bodies: &[Body],
) -> Result<bool, AllocError>
    requires plain { shapes_in plain.now ≡ plain_shapes model.now }
    requires shape { shapes_in shape.now ≡ shapes_of model.now }
    ensures { IfOk result (λ b. IsTrue b → All (IsRightBody model.now) bodies.now) }
{
    for body in bodies {
        if !is_right_body(alloc, model, plain, shape, body)? {
            return Ok(false);
        }
    }
    Ok(true)
}
