//! Which numbers stand in trees, and which bodies these call.

ghost use Rattle.std.specs.Prelude.{◌≡◌, ◌++◌, map, OnOk};
ghost use Rattle.core_tree.specs.Trees.{term_of, claim_of, variable_of, term_list, claim_list, variable_list};
ghost use Rattle.bound_definitions.specs.Mentions.{mentions_in, mentions_in_each, mentions_under, mentions_of, mentions_of_each, mentions_of_body};

use bound_definitions::Mention;
use core_tree::{Body, BodyForm, Expr, Formula, Origin, Variable};
use std::alloc::AllocError;

/// Adds what a body mentions, apart from the bounds of its parameters and of its result.
pub fn add_body(all: &mut Vec<Mention>, body: &Body) -> Result<(), AllocError>
    ensures { OnOk result (all.new.items ≡ all.old.items ++ mentions_of_body body.now) }
{
    match &body.form {
        BodyForm::Test(formula) => {
            add_formula(all, body.instance, formula)?;
            Ok(())
        }
        BodyForm::Term(expr, _) => {
            add_expr(all, body.instance, expr)?;
            Ok(())
        }
    }
}

/// Adds what a formula of an instance mentions.
#[cycle(add)]
pub fn add_formula(
    all: &mut Vec<Mention>,
    instance: u32,
    formula: &Formula,
) -> Result<(), AllocError>
    ensures { OnOk result
        (all.new.items ≡ all.old.items ++ mentions_of instance (claim_of formula.now)) }
{
    match formula {
        Formula::Inside(a, b) => {
            add_expr(all, instance, a)?;
            add_expr(all, instance, b)?;
            Ok(())
        }
        Formula::Equal(a, b) => {
            add_expr(all, instance, a)?;
            add_expr(all, instance, b)?;
            Ok(())
        }
        Formula::Within(a, _, b) => {
            add_expr(all, instance, a)?;
            add_expr(all, instance, b)?;
            Ok(())
        }
        Formula::Test(_, a) => {
            add_expr(all, instance, a)?;
            Ok(())
        }
        Formula::Compare(_, a, b) => {
            add_expr(all, instance, a)?;
            add_expr(all, instance, b)?;
            Ok(())
        }
        Formula::Not(f) => {
            add_formula(all, instance, f)?;
            Ok(())
        }
        Formula::Every(list) => {
            add_formulas(all, instance, list)?;
            Ok(())
        }
        Formula::Connect(_, f, g) => {
            add_formula(all, instance, f)?;
            add_formula(all, instance, g)?;
            Ok(())
        }
        Formula::Choose(f, g, h) => {
            add_formula(all, instance, f)?;
            add_formula(all, instance, g)?;
            add_formula(all, instance, h)?;
            Ok(())
        }
        Formula::ForAll(list, f) => {
            add_bounds(all, instance, list)?;
            add_formula(all, instance, f)?;
            Ok(())
        }
        Formula::Counted(_, list, f) => {
            add_bounds(all, instance, list)?;
            add_formula(all, instance, f)?;
            Ok(())
        }
        Formula::Temporal(_, f) => {
            add_formula(all, instance, f)?;
            Ok(())
        }
        Formula::TemporalPair(_, f, g) => {
            add_formula(all, instance, f)?;
            add_formula(all, instance, g)?;
            Ok(())
        }
        Formula::Let(_, value, f) => {
            add_expr(all, instance, value)?;
            add_formula(all, instance, f)?;
            Ok(())
        }
        Formula::Call(body, list) => {
            all.push(Mention::Call(*body))?;
            add_exprs(all, instance, list)?;
            Ok(())
        }
    }
}

/// Adds what an expression of an instance mentions.
#[cycle(add)]
pub fn add_expr(all: &mut Vec<Mention>, instance: u32, expr: &Expr) -> Result<(), AllocError>
    ensures { OnOk result
        (all.new.items ≡ all.old.items ++ mentions_in instance (term_of expr.now)) }
{
    match expr {
        Expr::Sig(_) => Ok(()),
        Expr::Field(_) => Ok(()),
        Expr::Name(_) => Ok(()),
        Expr::Univ => Ok(()),
        Expr::Iden => Ok(()),
        Expr::Empty => Ok(()),
        Expr::Int => Ok(()),
        Expr::Combine(_, a, b) => {
            add_expr(all, instance, a)?;
            add_expr(all, instance, b)?;
            Ok(())
        }
        Expr::Product(a, _, _, b) => {
            add_expr(all, instance, a)?;
            add_expr(all, instance, b)?;
            Ok(())
        }
        Expr::Unary(_, a) => {
            add_expr(all, instance, a)?;
            Ok(())
        }
        Expr::Prime(a) => {
            add_expr(all, instance, a)?;
            Ok(())
        }
        Expr::Choose(f, a, b) => {
            add_formula(all, instance, f)?;
            add_expr(all, instance, a)?;
            add_expr(all, instance, b)?;
            Ok(())
        }
        Expr::Comprehension(list, f) => {
            add_bounds(all, instance, list)?;
            add_formula(all, instance, f)?;
            Ok(())
        }
        Expr::Number(number, place) => {
            let at = Origin {
                instance,
                place: *place,
            };
            all.push(Mention::Number(*number, at))?;
            Ok(())
        }
        Expr::Count(a) => {
            add_expr(all, instance, a)?;
            Ok(())
        }
        Expr::Arithmetic(_, a, b) => {
            add_expr(all, instance, a)?;
            add_expr(all, instance, b)?;
            Ok(())
        }
        Expr::Sum(list, a) => {
            add_bounds(all, instance, list)?;
            add_expr(all, instance, a)?;
            Ok(())
        }
        Expr::Let(_, value, a) => {
            add_expr(all, instance, value)?;
            add_expr(all, instance, a)?;
            Ok(())
        }
        Expr::Call(body, list) => {
            all.push(Mention::Call(*body))?;
            add_exprs(all, instance, list)?;
            Ok(())
        }
    }
}

/// Adds what formulas mention.
#[cycle(add)]
fn add_formulas(all: &mut Vec<Mention>, instance: u32, list: &[Formula]) -> Result<(), AllocError>
    ensures { OnOk result (all.new.items ≡ all.old.items
        ++ mentions_of_each instance (claim_list (map claim_of list.now))) }
{
    for formula in list {
        add_formula(all, instance, formula)?;
    }
    Ok(())
}

/// Adds what expressions mention.
#[cycle(add)]
fn add_exprs(all: &mut Vec<Mention>, instance: u32, list: &[Expr]) -> Result<(), AllocError>
    ensures { OnOk result (all.new.items ≡ all.old.items
        ++ mentions_in_each instance (term_list (map term_of list.now))) }
{
    for expr in list {
        add_expr(all, instance, expr)?;
    }
    Ok(())
}

/// Adds what the bounds of variables mention.
#[cycle(add)]
fn add_bounds(all: &mut Vec<Mention>, instance: u32, list: &[Variable]) -> Result<(), AllocError>
    ensures { OnOk result (all.new.items ≡ all.old.items
        ++ mentions_under instance (variable_list (map variable_of list.now))) }
{
    for variable in list {
        add_expr(all, instance, &variable.bound)?;
    }
    Ok(())
}
