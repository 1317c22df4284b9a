//! Tests whether every part of a tree fits its place.

ghost use Rattle.std.specs.Prelude.{◌≡◌, IfOk, map};
ghost use Rattle.core_tree.specs.Trees.{term_of, claim_of, variable_of, term_list, claim_list, variable_list};
ghost use Rattle.resolve_check.specs.Names.{names_of};
ghost use Rattle.resolve_check.specs.Fits as fits;

use crate::columns::{
    both, bounded, combined_columns, count_of, few, few_of, has_columns, is_single, is_there, only,
    or_zero, product_columns, same_columns,
};
use crate::names::{NameList, Named, copied, look_up, names_under, with_name};
use crate::shape::{
    Limits, Shape, field_columns, function_columns, is_predicate_call, parameters_at, sig_columns,
};
use core_tree::{Expr, Formula, Variable};
use std::alloc::{AllocError, Global};

/// How many columns an expression has, where every part of it fits its place.
#[cycle(walk)]
pub fn columns_at(
    alloc: Global,
    shape: &Shape,
    limits: Limits,
    names: &NameList,
    expr: &Expr,
) -> Result<Option<u32>, AllocError>
    ensures { IfOk result (λ o. o ≡ fits.columns_at shape.now limits (term_of expr.now)
        (names_of names.now)) }
{
    match expr {
        Expr::Sig(sig) => Ok(sig_columns(shape, *sig)),
        Expr::Field(field) => Ok(field_columns(shape, limits, *field)),
        Expr::Name(name) => Ok(few_of(look_up(names, *name as u64))),
        Expr::Univ => Ok(Some(1)),
        Expr::Iden => Ok(Some(2)),
        Expr::Empty => Ok(Some(1)),
        Expr::Int => Ok(Some(1)),
        Expr::Combine(op, a, b) => Ok(combined_columns(
            *op,
            columns_at(alloc, shape, limits, names, a)?,
            columns_at(alloc, shape, limits, names, b)?,
        )),
        Expr::Product(a, _, _, b) => Ok(product_columns(
            columns_at(alloc, shape, limits, names, a)?,
            columns_at(alloc, shape, limits, names, b)?,
        )),
        Expr::Unary(_, a) => Ok(only(
            has_columns(columns_at(alloc, shape, limits, names, a)?, 2),
            Some(2),
        )),
        Expr::Prime(a) => columns_at(alloc, shape, limits, names, a),
        Expr::Choose(f, a, b) => Ok(only(
            is_right_inside(alloc, shape, limits, names, f)?,
            same_columns(
                columns_at(alloc, shape, limits, names, a)?,
                columns_at(alloc, shape, limits, names, b)?,
            ),
        )),
        Expr::Comprehension(list, f) => {
            let variables = list.as_slice();
            let inner = names_under(alloc, names, variables)?;
            Ok(only(
                are_right_variables(alloc, shape, limits, names, variables)?,
                only(
                    is_right_inside(alloc, shape, limits, &inner, f)?,
                    few(count_of(variables)),
                ),
            ))
        }
        Expr::Number(_, _) => Ok(Some(1)),
        Expr::Count(a) => Ok(only(
            is_there(columns_at(alloc, shape, limits, names, a)?),
            Some(1),
        )),
        Expr::Arithmetic(_, a, b) => Ok(only(
            is_single(columns_at(alloc, shape, limits, names, a)?),
            only(
                is_single(columns_at(alloc, shape, limits, names, b)?),
                Some(1),
            ),
        )),
        Expr::Sum(list, a) => {
            let variables = list.as_slice();
            let inner = names_under(alloc, names, variables)?;
            Ok(only(
                are_right_variables(alloc, shape, limits, names, variables)?,
                only(
                    is_single(columns_at(alloc, shape, limits, &inner, a)?),
                    Some(1),
                ),
            ))
        }
        Expr::Let(name, a, b) => {
            let value = columns_at(alloc, shape, limits, names, a)?;
            let inner = with_name(alloc, names, *name as u64, or_zero(value))?;
            Ok(only(
                is_there(value),
                columns_at(alloc, shape, limits, &inner, b)?,
            ))
        }
        Expr::Call(body, list) => {
            let arguments = list.as_slice();
            let parameters = parameters_at(shape, *body);
            let fit = are_right_arguments(alloc, shape, limits, names, arguments, parameters)?;
            Ok(function_columns(shape, limits.calls, *body, fit))
        }
    }
}

/// Whether a formula in an expression is right, where one looks into it.
#[cycle(walk)]
fn is_right_inside(
    alloc: Global,
    shape: &Shape,
    limits: Limits,
    names: &NameList,
    formula: &Formula,
) -> Result<bool, AllocError>
    ensures { IfOk result (λ b. b ≡ fits.seen limits.look
        (fits.is_right shape.now limits (claim_of formula.now) (names_of names.now))) }
{
    if limits.look {
        is_right(alloc, shape, limits, names, formula)
    } else {
        Ok(true)
    }
}

/// Whether each bound has one column and every part of it fits its place. A bound sees the variables
/// before it.
#[cycle(walk)]
fn are_right_variables(
    alloc: Global,
    shape: &Shape,
    limits: Limits,
    names: &NameList,
    list: &[Variable],
) -> Result<bool, AllocError>
    ensures { IfOk result (λ b. b ≡ fits.are_right_variables shape.now limits
        (variable_list (map variable_of list.now)) (names_of names.now)) }
{
    let mut inner = copied(alloc, names)?;
    let mut right = true;
    for variable in list {
        let single = is_single(columns_at(alloc, shape, limits, &inner, &variable.bound)?);
        right = both(right, single);
        inner.push(Named {
            name: variable.name as u64,
            columns: 1,
        })?;
    }
    Ok(right)
}

/// Whether there is an argument for each parameter, with its columns.
#[cycle(walk)]
fn are_right_arguments(
    alloc: Global,
    shape: &Shape,
    limits: Limits,
    names: &NameList,
    list: &[Expr],
    parameters: &[u32],
) -> Result<bool, AllocError>
    ensures { IfOk result (λ b. b ≡ fits.are_right_arguments shape.now limits
        (term_list (map term_of list.now)) (names_of names.now) parameters.now) }
{
    if list.len() != parameters.len() {
        return Ok(false);
    }
    let mut right = true;
    for place in 0..list.len() {
        let columns = columns_at(alloc, shape, limits, names, &list[place])?;
        right = both(right, has_columns(columns, parameters[place]));
    }
    Ok(right)
}

/// Whether every part of a formula fits its place.
#[cycle(walk)]
pub fn is_right(
    alloc: Global,
    shape: &Shape,
    limits: Limits,
    names: &NameList,
    formula: &Formula,
) -> Result<bool, AllocError>
    ensures { IfOk result (λ b. b ≡ fits.is_right shape.now limits (claim_of formula.now)
        (names_of names.now)) }
{
    match formula {
        Formula::Inside(a, b) => Ok(is_there(same_columns(
            columns_at(alloc, shape, limits, names, a)?,
            columns_at(alloc, shape, limits, names, b)?,
        ))),
        Formula::Equal(a, b) => Ok(is_there(same_columns(
            columns_at(alloc, shape, limits, names, a)?,
            columns_at(alloc, shape, limits, names, b)?,
        ))),
        Formula::Within(a, word, b) => Ok(is_there(same_columns(
            columns_at(alloc, shape, limits, names, a)?,
            bounded(*word, columns_at(alloc, shape, limits, names, b)?),
        ))),
        Formula::Test(_, a) => Ok(is_there(columns_at(alloc, shape, limits, names, a)?)),
        Formula::Compare(_, a, b) => Ok(both(
            is_single(columns_at(alloc, shape, limits, names, a)?),
            is_single(columns_at(alloc, shape, limits, names, b)?),
        )),
        Formula::Not(f) => is_right(alloc, shape, limits, names, f),
        Formula::Every(list) => are_right(alloc, shape, limits, names, list.as_slice()),
        Formula::Connect(_, f, g) => Ok(both(
            is_right(alloc, shape, limits, names, f)?,
            is_right(alloc, shape, limits, names, g)?,
        )),
        Formula::Choose(f, g, h) => Ok(both(
            is_right(alloc, shape, limits, names, f)?,
            both(
                is_right(alloc, shape, limits, names, g)?,
                is_right(alloc, shape, limits, names, h)?,
            ),
        )),
        Formula::ForAll(list, f) => {
            let variables = list.as_slice();
            let inner = names_under(alloc, names, variables)?;
            Ok(both(
                are_right_variables(alloc, shape, limits, names, variables)?,
                is_right(alloc, shape, limits, &inner, f)?,
            ))
        }
        Formula::Counted(_, list, f) => {
            let variables = list.as_slice();
            let inner = names_under(alloc, names, variables)?;
            Ok(both(
                are_right_variables(alloc, shape, limits, names, variables)?,
                is_right(alloc, shape, limits, &inner, f)?,
            ))
        }
        Formula::Temporal(_, f) => is_right(alloc, shape, limits, names, f),
        Formula::TemporalPair(_, f, g) => Ok(both(
            is_right(alloc, shape, limits, names, f)?,
            is_right(alloc, shape, limits, names, g)?,
        )),
        Formula::Let(name, e, f) => {
            let value = columns_at(alloc, shape, limits, names, e)?;
            let inner = with_name(alloc, names, *name as u64, or_zero(value))?;
            Ok(both(is_there(value), is_right(alloc, shape, limits, &inner, f)?))
        }
        Formula::Call(body, list) => {
            let arguments = list.as_slice();
            let parameters = parameters_at(shape, *body);
            let fit = are_right_arguments(alloc, shape, limits, names, arguments, parameters)?;
            Ok(is_predicate_call(shape, limits.calls, *body, fit))
        }
    }
}

/// Whether every part of some formulas fits its place.
#[cycle(walk)]
fn are_right(
    alloc: Global,
    shape: &Shape,
    limits: Limits,
    names: &NameList,
    list: &[Formula],
) -> Result<bool, AllocError>
    ensures { IfOk result (λ b. b ≡ fits.are_right shape.now limits
        (claim_list (map claim_of list.now)) (names_of names.now)) }
{
    let mut right = true;
    for formula in list {
        right = both(right, is_right(alloc, shape, limits, names, formula)?);
    }
    Ok(right)
}
