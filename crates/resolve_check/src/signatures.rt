//! What calls see of a body: the columns of its parameters and of its result.

ghost use Rattle.std.specs.Prelude.{◌≡◌, IfOk, IfSome, [], map};
ghost use Rattle.core_tree.specs.declared.model.Field.{Field};
ghost use Rattle.core_tree.specs.Trees.{term_of};
ghost use Rattle.core_tree.specs.Columns.{columns_in};
ghost use Rattle.core_tree.specs.Models.{parameters_of, plain_shapes, shapes_of};
ghost use Rattle.resolve_check.specs.Names.{names_of};
ghost use Rattle.resolve_check.specs.Fits.{signature_in, shapes_in};
ghost use Rattle.resolve_check.specs.Parameters.{named_next, named_after, result_under, signature_under};
ghost use Rattle.resolve_check.specs.declared.names.Named.{Named};

use crate::names::{NameList, Named};
use crate::numbering::field_numbers;
use crate::shape::{BodyShape, Calls, Limits, Shape};
use crate::walk::columns_at;
use core_tree::{Body, BodyForm, Expr, Field, ItemList, Model, Parameter};
use std::alloc::{AllocError, Global};

/// The columns of an expression, where every part of it but its formulas fits its place.
fn plain_columns(
    alloc: Global,
    plain: &Shape,
    names: &NameList,
    expr: &Expr,
) -> Result<Option<u32>, AllocError>
    ensures { IfOk result (λ o. IfSome o (λ n. n ≡ columns_in (shapes_in plain.now)
        (term_of expr.now) (names_of names.now))) }
{
    let limits = Limits {
        below: None,
        calls: Calls::Any,
        look: false,
    };
    columns_at(alloc, plain, limits, names, expr)
}

/// A parameter as a name behind those before it.
pub fn next_parameter(
    alloc: Global,
    plain: &Shape,
    names: &NameList,
    place: usize,
    parameter: &Parameter,
) -> Result<Option<Named>, AllocError>
    ensures { IfOk result (λ o. IfSome o (λ m. m ≡ named_next (shapes_in plain.now) names.now place
        parameter.now)) }
{
    match plain_columns(alloc, plain, names, &parameter.bound.expr)? {
        None => Ok(None),
        Some(columns) => Ok(Some(Named {
            name: place as u64,
            columns,
        })),
    }
}

/// The parameters as names; their bounds see those before them.
pub fn parameters_under(
    alloc: Global,
    plain: &Shape,
    parameters: &[Parameter],
) -> Result<Option<NameList>, AllocError>
    ensures { IfOk result (λ o. IfSome o (λ ns. ns
        ≡ named_after (shapes_in plain.now) parameters.now 0 [])) }
{
    let mut names = NameList::new(alloc);
    for place in 0..parameters.len() {
        match next_parameter(alloc, plain, &names, place, &parameters[place])? {
            None => return Ok(None),
            Some(named) => names.push(named)?,
        }
    }
    Ok(Some(names))
}

/// The columns of names.
fn columns_of_names(alloc: Global, names: &NameList) -> Result<ItemList<u32>, AllocError>
    ensures { IfOk result (λ all. all ≡ map (λ (n : Named). n.columns) names.now) }
{
    let mut all = ItemList::new(alloc);
    let list = names.as_slice();
    for named in list {
        all.push(named.columns)?;
    }
    Ok(all)
}

/// The columns of a function's result bound; a predicate has none.
fn result_columns(
    alloc: Global,
    plain: &Shape,
    names: &NameList,
    form: &BodyForm,
) -> Result<Option<Option<u32>>, AllocError>
    ensures { IfOk result (λ o. IfSome o (λ r. r ≡ result_under (shapes_in plain.now) form.now
        (names_of names.now))) }
{
    match form {
        BodyForm::Test(_) => Ok(Some(None)),
        BodyForm::Term(_, bound) => {
            match plain_columns(alloc, plain, names, &bound.expr)? {
                None => Ok(None),
                Some(count) => Ok(Some(Some(count))),
            }
        }
    }
}

/// What a call sees of a body, with its parameters as names.
fn shape_under(
    alloc: Global,
    plain: &Shape,
    names: &NameList,
    body: &Body,
) -> Result<Option<BodyShape>, AllocError>
    requires { names.now ≡ named_after (shapes_in plain.now) body.now.parameters 0 [] }
    ensures { IfOk result (λ o. IfSome o (λ s. signature_in s
        ≡ signature_under (shapes_in plain.now) body.now)) }
{
    let parameters = columns_of_names(alloc, names)?;
    match result_columns(alloc, plain, names, &body.form)? {
        None => Ok(None),
        Some(result) => Ok(Some(BodyShape {
            parameters,
            result,
            rank: body.rank,
        })),
    }
}

/// What a call sees of a body.
fn body_shape(alloc: Global, plain: &Shape, body: &Body) -> Result<Option<BodyShape>, AllocError>
    ensures { IfOk result (λ o. IfSome o (λ s. signature_in s
        ≡ signature_under (shapes_in plain.now) body.now)) }
{
    match parameters_under(alloc, plain, body.parameters.as_slice())? {
        None => Ok(None),
        Some(names) => shape_under(alloc, plain, &names, body),
    }
}

/// What calls see of the bodies.
fn body_shapes(
    alloc: Global,
    plain: &Shape,
    bodies: &[Body],
) -> Result<Option<ItemList<BodyShape>>, AllocError>
    ensures { IfOk result (λ o. IfSome o (λ all. map signature_in all
        ≡ map (signature_under (shapes_in plain.now)) bodies.now)) }
{
    let mut all = ItemList::new(alloc);
    for body in bodies {
        match body_shape(alloc, plain, body)? {
            None => return Ok(None),
            Some(shape) => all.push(shape)?,
        }
    }
    Ok(Some(all))
}

/// The columns of the fields.
fn columns_of_fields(alloc: Global, fields: &[Field]) -> Result<ItemList<u32>, AllocError>
    ensures { IfOk result (λ all. all ≡ map (λ (f : Field). f.columns) fields.now) }
{
    let mut all = ItemList::new(alloc);
    for field in fields {
        all.push(field.columns)?;
    }
    Ok(all)
}

/// What bounds may name, without the bodies.
pub fn plain_shape(alloc: Global, model: &Model) -> Result<Shape, AllocError>
    ensures { IfOk result (λ s. shapes_in s ≡ plain_shapes model.now) }
{
    Ok(Shape {
        sigs: model.sigs.len(),
        fields: columns_of_fields(alloc, model.fields.as_slice())?,
        order: ItemList::new(alloc),
        bodies: ItemList::new(alloc),
    })
}

/// What trees of the model may name; none where parameters have no columns.
pub fn full_shape(alloc: Global, model: &Model, plain: &Shape) -> Result<Option<Shape>, AllocError>
    requires { shapes_in plain.now ≡ plain_shapes model.now }
    ensures { IfOk result (λ o. IfSome o (λ s. shapes_in s ≡ shapes_of model.now)) }
{
    match body_shapes(alloc, plain, model.bodies.as_slice())? {
        None => Ok(None),
        Some(bodies) => Ok(Some(Shape {
            sigs: model.sigs.len(),
            fields: columns_of_fields(alloc, model.fields.as_slice())?,
            order: field_numbers(alloc, model.fields.as_slice())?,
            bodies,
        })),
    }
}

/// The columns of a body's parameters, in order; none where a bound doesn't fit.
pub fn parameter_columns(
    alloc: Global,
    model: &Model,
    body: &Body,
) -> Result<Option<ItemList<u32>>, AllocError>
    ensures { IfOk result (λ o. IfSome o (λ all. all ≡ parameters_of model.now body.now)) }
{
    let plain = plain_shape(alloc, model)?;
    match parameters_under(alloc, &plain, body.parameters.as_slice())? {
        None => Ok(None),
        Some(names) => {
            let all = columns_of_names(alloc, &names)?;
            Ok(Some(all))
        }
    }
}
