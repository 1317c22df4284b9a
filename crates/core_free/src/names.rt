//! The names that stand in expressions and formulas: those of their own variables are among them.

ghost use Rattle.std.specs.Prelude.{◌≡◌, ◌++◌, map, OnOk, IfOk};
ghost use Rattle.core_tree.specs.Trees.{term_of, claim_of, variable_of, term_list, claim_list, variable_list};
ghost use Rattle.core_free.specs.Used.{used_in, used_in_each, used_under, used_of, used_of_each};

use core_tree::{Expr, Formula, Variable};
use std::alloc::{AllocError, Global};

/// The names that an expression uses, as often as it does.
pub fn used_names(alloc: Global, expr: &Expr) -> Result<Vec<u32>, AllocError>
    ensures { IfOk result (λ v. v.items ≡ used_in (term_of expr.now)) }
{
    let mut all: Vec<u32> = Vec::new(alloc);
    add_expr(&mut all, expr)?;
    Ok(all)
}

/// Adds the names that a formula uses.
#[cycle(add)]
fn add_formula(all: &mut Vec<u32>, formula: &Formula) -> Result<(), AllocError>
    ensures { OnOk result
        (all.new.items ≡ all.old.items ++ used_of (claim_of formula.now)) }
{
    match formula {
        Formula::Inside(a, b) => {
            add_expr(all, a)?;
            add_expr(all, b)?;
            Ok(())
        }
        Formula::Equal(a, b) => {
            add_expr(all, a)?;
            add_expr(all, b)?;
            Ok(())
        }
        Formula::Within(a, _, b) => {
            add_expr(all, a)?;
            add_expr(all, b)?;
            Ok(())
        }
        Formula::Test(_, a) => {
            add_expr(all, a)?;
            Ok(())
        }
        Formula::Compare(_, a, b) => {
            add_expr(all, a)?;
            add_expr(all, b)?;
            Ok(())
        }
        Formula::Not(f) => {
            add_formula(all, f)?;
            Ok(())
        }
        Formula::Every(list) => {
            add_formulas(all, list)?;
            Ok(())
        }
        Formula::Connect(_, f, g) => {
            add_formula(all, f)?;
            add_formula(all, g)?;
            Ok(())
        }
        Formula::Choose(f, g, h) => {
            add_formula(all, f)?;
            add_formula(all, g)?;
            add_formula(all, h)?;
            Ok(())
        }
        Formula::ForAll(list, f) => {
            add_bounds(all, list)?;
            add_formula(all, f)?;
            Ok(())
        }
        Formula::Counted(_, list, f) => {
            add_bounds(all, list)?;
            add_formula(all, f)?;
            Ok(())
        }
        Formula::Temporal(_, f) => {
            add_formula(all, f)?;
            Ok(())
        }
        Formula::TemporalPair(_, f, g) => {
            add_formula(all, f)?;
            add_formula(all, g)?;
            Ok(())
        }
        Formula::Let(_, value, f) => {
            add_expr(all, value)?;
            add_formula(all, f)?;
            Ok(())
        }
        Formula::Call(_, list) => {
            add_exprs(all, list)?;
            Ok(())
        }
    }
}

/// Adds the names that an expression uses.
#[cycle(add)]
fn add_expr(all: &mut Vec<u32>, expr: &Expr) -> Result<(), AllocError>
    ensures { OnOk result
        (all.new.items ≡ all.old.items ++ used_in (term_of expr.now)) }
{
    match expr {
        Expr::Sig(_) => Ok(()),
        Expr::Field(_) => Ok(()),
        Expr::Name(name) => {
            all.push(*name)?;
            Ok(())
        }
        Expr::Univ => Ok(()),
        Expr::Iden => Ok(()),
        Expr::Empty => Ok(()),
        Expr::Int => Ok(()),
        Expr::Combine(_, a, b) => {
            add_expr(all, a)?;
            add_expr(all, b)?;
            Ok(())
        }
        Expr::Product(a, _, _, b) => {
            add_expr(all, a)?;
            add_expr(all, b)?;
            Ok(())
        }
        Expr::Unary(_, a) => {
            add_expr(all, a)?;
            Ok(())
        }
        Expr::Prime(a) => {
            add_expr(all, a)?;
            Ok(())
        }
        Expr::Choose(f, a, b) => {
            add_formula(all, f)?;
            add_expr(all, a)?;
            add_expr(all, b)?;
            Ok(())
        }
        Expr::Comprehension(list, f) => {
            add_bounds(all, list)?;
            add_formula(all, f)?;
            Ok(())
        }
        Expr::Number(_, _) => Ok(()),
        Expr::Count(a) => {
            add_expr(all, a)?;
            Ok(())
        }
        Expr::Arithmetic(_, a, b) => {
            add_expr(all, a)?;
            add_expr(all, b)?;
            Ok(())
        }
        Expr::Sum(list, a) => {
            add_bounds(all, list)?;
            add_expr(all, a)?;
            Ok(())
        }
        Expr::Let(_, value, a) => {
            add_expr(all, value)?;
            add_expr(all, a)?;
            Ok(())
        }
        Expr::Call(_, list) => {
            add_exprs(all, list)?;
            Ok(())
        }
    }
}

/// Adds the names that formulas use.
#[cycle(add)]
fn add_formulas(all: &mut Vec<u32>, list: &[Formula]) -> Result<(), AllocError>
    ensures { OnOk result (all.new.items ≡ all.old.items
        ++ used_of_each (claim_list (map claim_of list.now))) }
{
    for formula in list {
        add_formula(all, formula)?;
    }
    Ok(())
}

/// Adds the names that expressions use.
#[cycle(add)]
fn add_exprs(all: &mut Vec<u32>, list: &[Expr]) -> Result<(), AllocError>
    ensures { OnOk result (all.new.items ≡ all.old.items
        ++ used_in_each (term_list (map term_of list.now))) }
{
    for expr in list {
        add_expr(all, expr)?;
    }
    Ok(())
}

/// Adds the names that the bounds of variables use.
#[cycle(add)]
fn add_bounds(all: &mut Vec<u32>, list: &[Variable]) -> Result<(), AllocError>
    ensures { OnOk result (all.new.items ≡ all.old.items
        ++ used_under (variable_list (map variable_of list.now))) }
{
    for variable in list {
        add_expr(all, &variable.bound)?;
    }
    Ok(())
}
