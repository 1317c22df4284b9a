//! The types of parameters' bounds.

ghost use Rattle.std.specs.Prelude.{◌≡◌, ◌^◌, ◌<◌, length, IfOk};
ghost use Rattle.core_tree.specs.Columns.{no_columns};
ghost use Rattle.core_tree.specs.Models.{parameter_columns, plain_shapes};
ghost use Rattle.core_tree.specs.Trees.{term_of};
ghost use Rattle.core_tree.specs.Types.{no_rows};
ghost use Rattle.resolve_type_check.specs.Names.{names_of, IsTypeOf};
ghost use Rattle.form_skolem.specs.Opened.{typed_from, typed_parameters};
ghost use Rattle.form_skolem.specs.Steps.{AreTypes, IsBoundType};

use core_tree::{Body, Column, Model, Parameter, Row, RowList};
use resolve_check::parameter_columns;
use resolve_type_check::{NamedRows, NamedRowsList, type_of, with_name};
use std::alloc::{AllocError, Global};

/// The columns and the rows of the type of a parameter's bound.
#[derive(Drop)]
pub(crate) struct BoundType {
    pub columns: u32,
    pub rows: RowList,
}

/// An equal row.
fn row_copy(alloc: Global, row: &[Column]) -> Result<Row, AllocError>
    ensures { IfOk result (λ r. r ≡ row.now) }
{
    Ok(Row::from_vec(Vec::from_slice(alloc, row)?))
}

/// Equal rows.
pub(crate) fn rows_copy(alloc: Global, rows: &[Row]) -> Result<RowList, AllocError>
    ensures { IfOk result (λ all. all ≡ rows.now) }
{
    let mut all = RowList::new(alloc);
    for row in rows {
        all.push(row_copy(alloc, row.as_slice())?)?;
    }
    Ok(all)
}

/// The rows of a parameter's bound, in which these names may stand.
fn bound_rows(
    alloc: Global,
    model: &Model,
    names: &[NamedRows],
    parameter: &Parameter,
) -> Result<RowList, AllocError>
    requires { length model.now.sigs < 2 ^ 32 }
    ensures { IfOk result (IsTypeOf model.now (term_of parameter.now.bound.expr)
        (names_of names.now)) }
{
    match type_of(alloc, model, names, &parameter.bound.expr)? {
        // Only a bound that calls a function has no type, and no bound of a model does.
        None => Err(AllocError),
        Some(rows) => Ok(rows),
    }
}

/// The type of the bound of the parameter of this place, whose columns stand there among these.
fn bound_type(
    alloc: Global,
    model: &Model,
    names: &[NamedRows],
    columns: &[u32],
    place: usize,
    parameter: &Parameter,
) -> Result<BoundType, AllocError>
    requires { length model.now.sigs < 2 ^ 32 }
    ensures { IfOk result (IsBoundType model.now (names_of names.now) columns.now place
        parameter.now) }
{
    match columns.get(place) {
        None => Err(AllocError),
        Some(count) => {
            let columns = *count;
            let rows = bound_rows(alloc, model, names, parameter)?;
            Ok(BoundType { columns, rows })
        }
    }
}

/// The types of the bounds of parameters of so many columns; each bound may name those before it.
fn bound_types(
    alloc: Global,
    model: &Model,
    columns: &[u32],
    parameters: &[Parameter],
) -> Result<Vec<BoundType>, AllocError>
    requires sigs { length model.now.sigs < 2 ^ 32 }
    requires few { length parameters.now < 2 ^ 32 }
    requires columns { columns.now
        ≡ parameter_columns (plain_shapes model.now) parameters.now 0 no_columns }
    ensures { IfOk result (λ all. AreTypes all.items
        (typed_from model.now 0 parameters.now no_columns no_rows)) }
{
    let mut names = NamedRowsList::new(alloc);
    let mut all = Vec::new(alloc);
    for place in 0..parameters.len() {
        let parameter = &parameters[place];
        let bound = bound_type(alloc, model, names.as_slice(), columns, place, parameter)?;
        let rows = bound.rows.as_slice();
        names = with_name(alloc, names.as_slice(), place as u32, rows)?;
        all.push(bound)?;
    }
    Ok(all)
}

/// The types of the bounds of a body's parameters.
pub(crate) fn types_of(
    alloc: Global,
    model: &Model,
    body: &Body,
) -> Result<Vec<BoundType>, AllocError>
    ensures { IfOk result (λ all. AreTypes all.items (typed_parameters model.now body.now)) }
{
    let parameters = body.parameters.as_slice();
    if model.sigs.len() > u32::MAX as usize {
        return Err(AllocError);
    }
    if parameters.len() > u32::MAX as usize {
        return Err(AllocError);
    }
    match parameter_columns(alloc, model, body)? {
        // The bounds of a model have columns.
        None => Err(AllocError),
        Some(columns) => {
            let all = bound_types(alloc, model, columns.as_slice(), parameters)?;
            Ok(all)
        }
    }
}
