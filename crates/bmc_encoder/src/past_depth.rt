//! The past depth of a kernel formula: how many past operators it nests.

ghost use Rattle.std.specs.Prelude.{◌≡◌, map};
ghost use Rattle.core_tree.specs.Past.{one_more as one_more_than, under_unary as under_one, under_binary as under_two};
ghost use Rattle.core_tree.specs.Trees.{term_of, claim_of, variable_of, claim_list, variable_list};
ghost use Rattle.bmc_encoder.specs.Depths.{nested_in, nested_of, nested_of_bounds, nested_of_each};

use core_tree::{Expr, Formula, TemporalBinary, TemporalUnary, Variable};

/// One past operator more, as far as there are numbers.
fn one_more(depth: u32) -> u32
    ensures { result ≡ one_more_than depth }
{
    match depth.checked_add(1) {
        Some(more) => more,
        None => depth,
    }
}

/// The past depth of an operator on one formula.
fn under_unary(op: TemporalUnary, depth: u32) -> u32
    ensures { result ≡ under_one op depth }
{
    match op {
        TemporalUnary::After => depth,
        TemporalUnary::Always => depth,
        TemporalUnary::Eventually => depth,
        TemporalUnary::Before => one_more(depth),
        TemporalUnary::Historically => one_more(depth),
        TemporalUnary::Once => one_more(depth),
    }
}

/// The past depth of an operator on two formulas.
fn under_binary(op: TemporalBinary, depth: u32) -> u32
    ensures { result ≡ under_two op depth }
{
    match op {
        TemporalBinary::Until => depth,
        TemporalBinary::Releases => depth,
        TemporalBinary::Since => one_more(depth),
        TemporalBinary::Triggered => one_more(depth),
        TemporalBinary::Then => depth,
    }
}

/// The past depth of an expression.
#[cycle(depth)]
fn of_expr(expr: &Expr) -> u32
    ensures { result ≡ nested_in (term_of expr.now) }
{
    match expr {
        Expr::Sig(_) => 0,
        Expr::Field(_) => 0,
        Expr::Name(_) => 0,
        Expr::Univ => 0,
        Expr::Iden => 0,
        Expr::Empty => 0,
        Expr::Int => 0,
        Expr::Combine(_, a, b) => of_expr(a).max(of_expr(b)),
        Expr::Product(a, _, _, b) => of_expr(a).max(of_expr(b)),
        Expr::Unary(_, a) => of_expr(a),
        Expr::Prime(a) => of_expr(a),
        Expr::Choose(f, a, b) => depth_of(f).max(of_expr(a).max(of_expr(b))),
        Expr::Comprehension(variables, f) => of_bounds(variables).max(depth_of(f)),
        Expr::Number(_, _) => 0,
        Expr::Count(a) => of_expr(a),
        Expr::Arithmetic(_, a, b) => of_expr(a).max(of_expr(b)),
        Expr::Sum(variables, a) => of_bounds(variables).max(of_expr(a)),
        Expr::Let(_, _, _) => 0,
        Expr::Call(_, _) => 0,
    }
}

/// The greatest past depth of the bounds of some variables.
#[cycle(depth)]
#[tactic(auto, using(crate::proofs::DepthLaws::bounds_more, crate::proofs::DepthLaws::bounds_all))]
fn of_bounds(list: &[Variable]) -> u32
    ensures { result ≡ nested_of_bounds (variable_list (map variable_of list.now)) }
{
    let mut depth = 0;
    for variable in list {
        depth = of_expr(&variable.bound).max(depth);
    }
    depth
}

/// The past depth of a formula; a call or `let` in it isn't looked into.
#[cycle(depth)]
pub fn depth_of(formula: &Formula) -> u32
    ensures { result ≡ nested_of (claim_of formula.now) }
{
    match formula {
        Formula::Inside(a, b) => of_expr(a).max(of_expr(b)),
        Formula::Equal(a, b) => of_expr(a).max(of_expr(b)),
        Formula::Within(a, _, b) => of_expr(a).max(of_expr(b)),
        Formula::Test(_, a) => of_expr(a),
        Formula::Compare(_, a, b) => of_expr(a).max(of_expr(b)),
        Formula::Not(f) => depth_of(f),
        Formula::Every(list) => of_formulas(list),
        Formula::Connect(_, f, g) => depth_of(f).max(depth_of(g)),
        Formula::Choose(f, g, h) => depth_of(f).max(depth_of(g).max(depth_of(h))),
        Formula::ForAll(variables, f) => of_bounds(variables).max(depth_of(f)),
        Formula::Counted(_, variables, f) => of_bounds(variables).max(depth_of(f)),
        Formula::Temporal(op, f) => under_unary(*op, depth_of(f)),
        Formula::TemporalPair(op, f, g) => under_binary(*op, depth_of(f).max(depth_of(g))),
        Formula::Let(_, _, _) => 0,
        Formula::Call(_, _) => 0,
    }
}

/// The greatest past depth of some formulas.
#[cycle(depth)]
#[tactic(auto, using(crate::proofs::DepthLaws::claims_more, crate::proofs::DepthLaws::claims_all))]
fn of_formulas(list: &[Formula]) -> u32
    ensures { result ≡ nested_of_each (claim_list (map claim_of list.now)) }
{
    let mut depth = 0;
    for formula in list {
        depth = depth_of(formula).max(depth);
    }
    depth
}
