//! Whether a closed formula holds on a lasso, and the tuples of a closed expression.

ghost use Rattle.std.specs.Prelude.{◌↔◌, IfOk, IsTrue};
ghost use Rattle.core_tree.specs.Trees.{term_of, claim_of};
ghost use Rattle.core_meaning.specs.Meaning.{no_names};
ghost use Rattle.core_meaning.specs.Satisfied.{HoldsAt, InTermAt};
ghost use Rattle.eval_sets.specs.SetOf.{IsSetOf};

use core_meaning::{Environment, Lasso, Scopes};
use core_tree::{Expr, Formula, Model};
use core_tuples::TupleSet;
use eval_sets::EvaluationFault;
use eval_steps::{DEEP, claim_place, copy_of, judge_of, term_place};
use eval_tree::{holds_in, tuples_in};
use std::alloc::{AllocError, Global};

/// Whether a formula holds, or why that isn't known.
fn judged(
    alloc: Global,
    model: &Model,
    scopes: &Scopes,
    lasso: &Lasso,
    formula: &Formula,
    position: u64,
) -> Result<bool, EvaluationFault>
    ensures { IfOk result (λ b. IsTrue b ↔ HoldsAt model.now scopes.now lasso.now
        (claim_of formula.now) no_names position) }
{
    let judge = judge_of(alloc, model, scopes, lasso)?;
    let place = claim_place(&judge, formula, position)?;
    holds_in(&judge, formula, &Environment::Empty, place, DEEP)
}

/// Whether a closed formula of the model holds at a position of the lasso's infinite sequence.
///
/// The answer is that of want of memory, too, where some body's rank isn't above that of each body
/// that it calls, where past operators nest more than a million deep, where the universe has more
/// than 16,384 numbers, and where a set would have tuples of two lengths, of no number or of more
/// than nine. No other answer is given there, and every answer is right.
pub fn holds(
    alloc: Global,
    model: &Model,
    scopes: &Scopes,
    lasso: &Lasso,
    formula: &Formula,
    position: u64,
) -> Result<bool, AllocError>
    ensures { IfOk result (λ b. IsTrue b ↔ HoldsAt model.now scopes.now lasso.now
        (claim_of formula.now) no_names position) }
{
    match judged(alloc, model, scopes, lasso, formula, position) {
        Ok(truth) => Ok(truth),
        Err(_) => Err(AllocError),
    }
}

/// The tuples of an expression, or why they aren't known.
fn found(
    alloc: Global,
    model: &Model,
    scopes: &Scopes,
    lasso: &Lasso,
    expr: &Expr,
    position: u64,
) -> Result<TupleSet, EvaluationFault>
    ensures { IfOk result (λ set. IsSetOf set (InTermAt model.now scopes.now lasso.now
        (term_of expr.now) no_names position)) }
{
    let judge = judge_of(alloc, model, scopes, lasso)?;
    let place = term_place(&judge, expr, position)?;
    let set = tuples_in(&judge, expr, &Environment::Empty, place, DEEP)?;
    copy_of(alloc, &set)
}

/// The tuples of a closed expression of the model at a position of the lasso's infinite sequence:
/// just those of its meaning, or the answer of want of memory where `holds` gives it.
pub fn tuples(
    alloc: Global,
    model: &Model,
    scopes: &Scopes,
    lasso: &Lasso,
    expr: &Expr,
    position: u64,
) -> Result<TupleSet, AllocError>
    ensures { IfOk result (λ set. IsSetOf set (InTermAt model.now scopes.now lasso.now
        (term_of expr.now) no_names position)) }
{
    match found(alloc, model, scopes, lasso, expr, position) {
        Ok(set) => Ok(set),
        Err(_) => Err(AllocError),
    }
}
