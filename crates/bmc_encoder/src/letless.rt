//! Whether a formula has no `let`, so that its past depth is that of its parts.

ghost use Rattle.std.specs.Prelude.{IsTrue, map};
ghost use Rattle.core_tree.specs.Trees.{term_of, claim_of, variable_of, claim_list, variable_list};
ghost use Rattle.bmc_encoder.specs.Letless.{IsLetlessTerm, AreLetlessBounds, IsLetless, AreLetless};

use core_tree::{Expr, Formula, Variable};

/// Whether both are true.
fn both_are(first: bool, second: bool) -> bool
    ensures left { IsTrue result → IsTrue first }
    ensures right { IsTrue result → IsTrue second }
{
    first && second
}

/// Whether an expression has no `let`.
#[cycle(letless)]
fn is_letless_expr(expr: &Expr) -> bool
    ensures { IsTrue result → IsLetlessTerm (term_of expr.now) }
{
    match expr {
        Expr::Sig(_) => true,
        Expr::Field(_) => true,
        Expr::Name(_) => true,
        Expr::Univ => true,
        Expr::Iden => true,
        Expr::Empty => true,
        Expr::Int => true,
        Expr::Combine(_, a, b) => both_are(is_letless_expr(a), is_letless_expr(b)),
        Expr::Product(a, _, _, b) => both_are(is_letless_expr(a), is_letless_expr(b)),
        Expr::Unary(_, a) => is_letless_expr(a),
        Expr::Prime(a) => is_letless_expr(a),
        Expr::Choose(f, a, b) => both_are(
            is_letless(f),
            both_are(is_letless_expr(a), is_letless_expr(b)),
        ),
        Expr::Comprehension(list, f) => both_are(are_letless_bounds(list), is_letless(f)),
        Expr::Number(_, _) => true,
        Expr::Count(a) => is_letless_expr(a),
        Expr::Arithmetic(_, a, b) => both_are(is_letless_expr(a), is_letless_expr(b)),
        Expr::Sum(list, a) => both_are(are_letless_bounds(list), is_letless_expr(a)),
        Expr::Let(_, _, _) => false,
        Expr::Call(_, _) => false,
    }
}

/// Whether the bounds of variables have no `let`.
#[cycle(letless)]
fn are_letless_bounds(list: &[Variable]) -> bool
    ensures { IsTrue result → AreLetlessBounds (variable_list (map variable_of list.now)) }
{
    for variable in list {
        let plain = is_letless_expr(&variable.bound);
        if !plain {
            return false;
        }
    }
    true
}

/// Whether a formula has no `let` and no call.
#[cycle(letless)]
pub fn is_letless(formula: &Formula) -> bool
    ensures { IsTrue result → IsLetless (claim_of formula.now) }
{
    match formula {
        Formula::Inside(a, b) => both_are(is_letless_expr(a), is_letless_expr(b)),
        Formula::Equal(a, b) => both_are(is_letless_expr(a), is_letless_expr(b)),
        Formula::Within(a, _, b) => both_are(is_letless_expr(a), is_letless_expr(b)),
        Formula::Test(_, a) => is_letless_expr(a),
        Formula::Compare(_, a, b) => both_are(is_letless_expr(a), is_letless_expr(b)),
        Formula::Not(f) => is_letless(f),
        Formula::Every(list) => are_letless(list),
        Formula::Connect(_, f, g) => both_are(is_letless(f), is_letless(g)),
        Formula::Choose(f, g, h) => both_are(is_letless(f), both_are(is_letless(g), is_letless(h))),
        Formula::ForAll(list, f) => both_are(are_letless_bounds(list), is_letless(f)),
        Formula::Counted(_, list, f) => both_are(are_letless_bounds(list), is_letless(f)),
        Formula::Temporal(_, f) => is_letless(f),
        Formula::TemporalPair(_, f, g) => both_are(is_letless(f), is_letless(g)),
        Formula::Let(_, _, _) => false,
        Formula::Call(_, _) => false,
    }
}

/// Whether formulas have no `let`.
#[cycle(letless)]
fn are_letless(list: &[Formula]) -> bool
    ensures { IsTrue result → AreLetless (claim_list (map claim_of list.now)) }
{
    for formula in list {
        let plain = is_letless(formula);
        if !plain {
            return false;
        }
    }
    true
}
