//! What takes no level of the walk: rows of operators, and negations of negations.

ghost use Rattle.std.specs.Prelude.{◌≡◌, ℕ, IfOk, IfSome};
ghost use Rattle.core_tree.specs.Trees.{term_of, claim_of, combine, negation};
ghost use Rattle.bmc_walk.specs.Levels.{row_over, doubly_negated};

use core_tree::{Expr, Formula, RelationOp};
use std::alloc::{AllocError, Global};

/// What stands on the right of an operator, with the operator.
#[derive(Clone, Copy)]
pub struct Operand<'a> {
    pub op: RelationOp,
    pub expr: &'a Expr,
}

/// A row of operators on relations: what stands before them all, and what stands behind each,
/// the last first.
#[derive(Drop)]
pub struct Row<'a> {
    pub first: &'a Expr,
    pub operands: Vec<Operand<'a>>,
}

/// An operator on two relations: its left side, and its right side.
#[derive(Clone, Copy)]
struct Pair<'a> {
    left: &'a Expr,
    operand: Operand<'a>,
}

/// The sides of an operator on two relations.
fn pair_of(expr: &Expr) -> Option<Pair<'_>>
    ensures { IfSome result (λ p. term_of expr.now ≡ combine p.operand.op (term_of p.left.now)
        (term_of p.operand.expr.now)) }
{
    match expr {
        Expr::Combine(op, a, b) => Some(Pair {
            left: a,
            operand: Operand { op: *op, expr: b },
        }),
        _ => None,
    }
}

/// The row of operators that an expression is.
pub fn row_of(alloc: Global, expr: &Expr) -> Result<Row<'_>, AllocError>
    ensures { IfOk result (λ row. row_over (term_of row.first.now) row.operands.items
        ≡ term_of expr.now) }
{
    let mut operands = Vec::new(alloc);
    let mut first = expr;
    for _turn in 0..u64::MAX {
        match pair_of(first) {
            None => return Ok(Row { first, operands }),
            Some(pair) => {
                operands.push(pair.operand)?;
                first = pair.left;
            }
        }
    }
    Err(AllocError)
}

/// What is negated.
fn negated(formula: &Formula) -> Option<&Formula>
    ensures { IfSome result (λ f. claim_of formula.now ≡ negation (claim_of f.now)) }
{
    match formula {
        Formula::Not(f) => Some(f),
        _ => None,
    }
}

/// What is negated twice.
fn negated_twice(formula: &Formula) -> Option<&Formula>
    ensures { IfSome result (λ f. claim_of formula.now ≡ negation (negation (claim_of f.now))) }
{
    let first = negated(formula)?;
    let second = negated(first)?;
    Some(second)
}

/// A formula without the pairs of negations before it.
pub fn without_doubles(formula: &Formula) -> &Formula
    ensures { (n : ℕ) × (claim_of formula.now ≡ doubly_negated n (claim_of result.now)) }
{
    let mut inner = formula;
    for _turn in 0..u64::MAX {
        match negated_twice(inner) {
            None => return inner,
            Some(f) => inner = f,
        }
    }
    inner
}
