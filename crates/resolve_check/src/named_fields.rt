//! Gathers the fields that stand in an expression.

use core_tree::{Expr, Formula, ItemList, Variable};
use std::alloc::{AllocError, Global};

/// The fields in an expression, as often as they stand there.
pub fn fields_in(alloc: Global, expr: &Expr) -> Result<ItemList<u32>, AllocError> {
    let mut fields = Vec::new(alloc);
    in_expr(&mut fields, expr)?;
    Ok(ItemList::from_vec(fields))
}

#[cycle(gather)]
fn in_formula(fields: &mut Vec<u32>, formula: &Formula) -> Result<(), AllocError> {
    match formula {
        Formula::Inside(a, b) | Formula::Equal(a, b) => {
            in_expr(fields, a)?;
            in_expr(fields, b)
        }
        Formula::Within(a, _, b) => {
            in_expr(fields, a)?;
            in_expr(fields, b)
        }
        Formula::Compare(_, a, b) => {
            in_expr(fields, a)?;
            in_expr(fields, b)
        }
        Formula::Test(_, a) => in_expr(fields, a),
        Formula::Not(f) | Formula::Temporal(_, f) => in_formula(fields, f),
        Formula::Every(list) => in_formulas(fields, list.as_slice()),
        Formula::Connect(_, f, g) => {
            in_formula(fields, f)?;
            in_formula(fields, g)
        }
        Formula::TemporalPair(_, f, g) => {
            in_formula(fields, f)?;
            in_formula(fields, g)
        }
        Formula::Choose(f, g, h) => {
            in_formula(fields, f)?;
            in_formula(fields, g)?;
            in_formula(fields, h)
        }
        Formula::ForAll(list, f) | Formula::Counted(_, list, f) => {
            in_variables(fields, list.as_slice())?;
            in_formula(fields, f)
        }
        Formula::Let(_, value, f) => {
            in_expr(fields, value)?;
            in_formula(fields, f)
        }
        Formula::Call(_, list) => in_exprs(fields, list.as_slice()),
    }
}

#[cycle(gather)]
fn in_expr(fields: &mut Vec<u32>, expr: &Expr) -> Result<(), AllocError> {
    match expr {
        Expr::Field(field) => {
            fields.push(*field)?;
            Ok(())
        }
        Expr::Combine(_, a, b) => {
            in_expr(fields, a)?;
            in_expr(fields, b)
        }
        Expr::Product(a, _, _, b) => {
            in_expr(fields, a)?;
            in_expr(fields, b)
        }
        Expr::Arithmetic(_, a, b) => {
            in_expr(fields, a)?;
            in_expr(fields, b)
        }
        Expr::Unary(_, a) => in_expr(fields, a),
        Expr::Prime(a) | Expr::Count(a) => in_expr(fields, a),
        Expr::Choose(f, a, b) => {
            in_formula(fields, f)?;
            in_expr(fields, a)?;
            in_expr(fields, b)
        }
        Expr::Comprehension(list, f) => {
            in_variables(fields, list.as_slice())?;
            in_formula(fields, f)
        }
        Expr::Sum(list, a) => {
            in_variables(fields, list.as_slice())?;
            in_expr(fields, a)
        }
        Expr::Let(_, value, a) => {
            in_expr(fields, value)?;
            in_expr(fields, a)
        }
        Expr::Call(_, list) => in_exprs(fields, list.as_slice()),
        _ => Ok(()),
    }
}

#[cycle(gather)]
fn in_formulas(fields: &mut Vec<u32>, list: &[Formula]) -> Result<(), AllocError> {
    for formula in list {
        in_formula(fields, formula)?;
    }
    Ok(())
}

#[cycle(gather)]
fn in_exprs(fields: &mut Vec<u32>, list: &[Expr]) -> Result<(), AllocError> {
    for expr in list {
        in_expr(fields, expr)?;
    }
    Ok(())
}

#[cycle(gather)]
fn in_variables(fields: &mut Vec<u32>, list: &[Variable]) -> Result<(), AllocError> {
    for variable in list {
        in_expr(fields, &variable.bound)?;
    }
    Ok(())
}
