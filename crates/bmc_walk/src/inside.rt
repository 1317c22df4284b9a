//! The greatest comprehensions in a binder's scope that use none of its variables, so that they needn't be
//! built again for each atom. Which are taken is a matter of speed alone.

use core_free::used_names;
use core_tree::{Expr, Formula, Variable};
use std::alloc::{AllocError, Global};

/// Whether one of these names is used in an expression.
fn uses_one(alloc: Global, expr: &Expr, hidden: &Vec<u32>) -> Result<bool, AllocError> {
    let names = used_names(alloc, expr)?;
    for place in 0..names.len() {
        if hidden.contains(&names[place]) {
            return Ok(true);
        }
    }
    Ok(false)
}

/// Leaves the first so many names.
fn cut_names(hidden: &mut Vec<u32>, count: usize) {
    hidden.truncate(count);
}

/// Adds the greatest comprehensions in an expression that use none of these names and none of the variables on
/// the way.
#[cycle(inside)]
fn add_in<'a>(
    alloc: Global,
    expr: &'a Expr,
    hidden: &mut Vec<u32>,
    found: &mut Vec<&'a Expr>,
) -> Result<(), AllocError> {
    match expr {
        Expr::Combine(_, a, b) => {
            add_in(alloc, a, hidden, found)?;
            add_in(alloc, b, hidden, found)
        }
        Expr::Product(a, _, _, b) => {
            add_in(alloc, a, hidden, found)?;
            add_in(alloc, b, hidden, found)
        }
        Expr::Unary(_, a) => add_in(alloc, a, hidden, found),
        Expr::Prime(a) => add_in(alloc, a, hidden, found),
        Expr::Choose(f, a, b) => {
            add_of(alloc, f, hidden, found)?;
            add_in(alloc, a, hidden, found)?;
            add_in(alloc, b, hidden, found)
        }
        Expr::Comprehension(list, f) => {
            let uses = uses_one(alloc, expr, hidden)?;
            if !uses {
                found.push(expr)?;
                return Ok(());
            }
            let count = hidden.len();
            add_under(alloc, list, hidden, found)?;
            add_of(alloc, f, hidden, found)?;
            cut_names(hidden, count);
            Ok(())
        }
        Expr::Count(a) => add_in(alloc, a, hidden, found),
        Expr::Arithmetic(_, a, b) => {
            add_in(alloc, a, hidden, found)?;
            add_in(alloc, b, hidden, found)
        }
        Expr::Sum(list, a) => {
            let count = hidden.len();
            add_under(alloc, list, hidden, found)?;
            add_in(alloc, a, hidden, found)?;
            cut_names(hidden, count);
            Ok(())
        }
        _ => Ok(()),
    }
}

/// The same for a formula.
#[cycle(inside)]
fn add_of<'a>(
    alloc: Global,
    formula: &'a Formula,
    hidden: &mut Vec<u32>,
    found: &mut Vec<&'a Expr>,
) -> Result<(), AllocError> {
    match formula {
        Formula::Inside(a, b) => {
            add_in(alloc, a, hidden, found)?;
            add_in(alloc, b, hidden, found)
        }
        Formula::Equal(a, b) => {
            add_in(alloc, a, hidden, found)?;
            add_in(alloc, b, hidden, found)
        }
        Formula::Within(a, _, b) => {
            add_in(alloc, a, hidden, found)?;
            add_in(alloc, b, hidden, found)
        }
        Formula::Test(_, a) => add_in(alloc, a, hidden, found),
        Formula::Compare(_, a, b) => {
            add_in(alloc, a, hidden, found)?;
            add_in(alloc, b, hidden, found)
        }
        Formula::Not(f) => add_of(alloc, f, hidden, found),
        Formula::Every(list) => add_each(alloc, list, hidden, found),
        Formula::Connect(_, f, g) => {
            add_of(alloc, f, hidden, found)?;
            add_of(alloc, g, hidden, found)
        }
        Formula::Choose(f, g, h) => {
            add_of(alloc, f, hidden, found)?;
            add_of(alloc, g, hidden, found)?;
            add_of(alloc, h, hidden, found)
        }
        Formula::ForAll(list, f) => {
            let count = hidden.len();
            add_under(alloc, list, hidden, found)?;
            add_of(alloc, f, hidden, found)?;
            cut_names(hidden, count);
            Ok(())
        }
        Formula::Temporal(_, f) => add_of(alloc, f, hidden, found),
        Formula::TemporalPair(_, f, g) => {
            add_of(alloc, f, hidden, found)?;
            add_of(alloc, g, hidden, found)
        }
        _ => Ok(()),
    }
}

/// The same for the formulas of a list.
#[cycle(inside)]
fn add_each<'a>(
    alloc: Global,
    list: &'a [Formula],
    hidden: &mut Vec<u32>,
    found: &mut Vec<&'a Expr>,
) -> Result<(), AllocError> {
    for formula in list {
        add_of(alloc, formula, hidden, found)?;
    }
    Ok(())
}

/// The same for the bounds of variables, each of which stands behind those before it.
#[cycle(inside)]
fn add_under<'a>(
    alloc: Global,
    list: &'a [Variable],
    hidden: &mut Vec<u32>,
    found: &mut Vec<&'a Expr>,
) -> Result<(), AllocError> {
    for variable in list {
        add_in(alloc, &variable.bound, hidden, found)?;
        hidden.push(variable.name)?;
    }
    Ok(())
}

/// The same for the bounds of a binder's variables behind the first, whose bound is built once anyway.
fn add_later<'a>(
    alloc: Global,
    list: &'a [Variable],
    hidden: &mut Vec<u32>,
    found: &mut Vec<&'a Expr>,
) -> Result<(), AllocError> {
    match list.split_first() {
        None => Ok(()),
        Some((first, rest)) => {
            hidden.push(first.name)?;
            add_under(alloc, rest, hidden, found)
        }
    }
}

/// What needs building once in the scope of an expression's variables.
pub fn inside_expr(alloc: Global, expr: &Expr) -> Result<Vec<&Expr>, AllocError> {
    let mut hidden: Vec<u32> = Vec::new(alloc);
    let mut found: Vec<&Expr> = Vec::new(alloc);
    match expr {
        Expr::Comprehension(list, f) => {
            add_later(alloc, list, &mut hidden, &mut found)?;
            add_of(alloc, f, &mut hidden, &mut found)?;
        }
        Expr::Sum(list, a) => {
            add_later(alloc, list, &mut hidden, &mut found)?;
            add_in(alloc, a, &mut hidden, &mut found)?;
        }
        _ => {}
    }
    Ok(found)
}

/// What needs building once in the scope of a formula's variables.
pub fn inside_formula(alloc: Global, formula: &Formula) -> Result<Vec<&Expr>, AllocError> {
    let mut hidden: Vec<u32> = Vec::new(alloc);
    let mut found: Vec<&Expr> = Vec::new(alloc);
    match formula {
        Formula::ForAll(list, f) => {
            add_later(alloc, list, &mut hidden, &mut found)?;
            add_of(alloc, f, &mut hidden, &mut found)?;
        }
        _ => {}
    }
    Ok(found)
}
