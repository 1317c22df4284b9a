//! The weight of a tree: how many past operators it nests at most.

ghost use Rattle.std.specs.Prelude.{◌≡◌, map};
ghost use Rattle.core_tree.specs.Trees.{term_of, claim_of, variable_of, term_list, claim_list, variable_list};
ghost use Rattle.eval_calls.specs.Weight.{both, on_one, on_two, calls_below, weight_in, weight_of, weight_of_terms, weight_of_bounds, weight_of_each, weight_of_form};

use core_tree::{BodyForm, BodyList, Expr, Formula, TemporalBinary, TemporalUnary, Variable};

/// The weight that says nothing.
pub const MOST: u32 = 4_294_967_295;

/// The sum, as far as there are numbers.
fn sum(a: u32, b: u32) -> u32
    ensures { result ≡ both a b }
{
    match a.checked_add(b) {
        Some(all) => all,
        None => MOST,
    }
}

/// What a call weighs, apart from its arguments.
fn called(bodies: &BodyList, weights: &[u32], rank: u32, body: u32) -> u32
    ensures { result ≡ calls_below bodies.now weights.now rank body }
{
    let place = body as usize;
    if place >= bodies.len() {
        return 0;
    }
    let rank_there = bodies.get(place).rank;
    if place >= weights.len() {
        return MOST;
    }
    if rank_there < rank {
        weights[place]
    } else {
        MOST
    }
}

/// The weight of an operator on one formula.
fn under_unary(op: TemporalUnary, weight: u32) -> u32
    ensures { result ≡ on_one op weight }
{
    match op {
        TemporalUnary::After => weight,
        TemporalUnary::Always => weight,
        TemporalUnary::Eventually => weight,
        TemporalUnary::Before => sum(weight, 1),
        TemporalUnary::Historically => sum(weight, 1),
        TemporalUnary::Once => sum(weight, 1),
    }
}

/// The weight of an operator on two formulas.
fn under_binary(op: TemporalBinary, weight: u32) -> u32
    ensures { result ≡ on_two op weight }
{
    match op {
        TemporalBinary::Until => weight,
        TemporalBinary::Releases => weight,
        TemporalBinary::Since => sum(weight, 1),
        TemporalBinary::Triggered => sum(weight, 1),
        TemporalBinary::Then => weight,
    }
}

/// The weight of an expression, in which bodies below a rank may be called.
#[cycle(weigh)]
pub fn of_expr(bodies: &BodyList, weights: &[u32], rank: u32, expr: &Expr) -> u32
    ensures { result ≡ weight_in (calls_below bodies.now weights.now rank) (term_of expr.now) }
{
    match expr {
        Expr::Sig(_) => 0,
        Expr::Field(_) => 0,
        Expr::Name(_) => 0,
        Expr::Univ => 0,
        Expr::Iden => 0,
        Expr::Empty => 0,
        Expr::Int => 0,
        Expr::Combine(_, a, b) => of_expr(bodies, weights, rank, a).max(of_expr(
            bodies, weights, rank, b,
        )),
        Expr::Product(a, _, _, b) => of_expr(bodies, weights, rank, a).max(of_expr(
            bodies, weights, rank, b,
        )),
        Expr::Unary(_, a) => of_expr(bodies, weights, rank, a),
        Expr::Prime(a) => of_expr(bodies, weights, rank, a),
        Expr::Choose(f, a, b) => {
            of_formula(bodies, weights, rank, f).max(of_expr(bodies, weights, rank, a).max(of_expr(
                bodies, weights, rank, b,
            )))
        }
        Expr::Comprehension(variables, f) => {
            of_bounds(bodies, weights, rank, variables).max(of_formula(bodies, weights, rank, f))
        }
        Expr::Number(_, _) => 0,
        Expr::Count(a) => of_expr(bodies, weights, rank, a),
        Expr::Arithmetic(_, a, b) => of_expr(bodies, weights, rank, a).max(of_expr(
            bodies, weights, rank, b,
        )),
        Expr::Sum(variables, a) => {
            of_bounds(bodies, weights, rank, variables).max(of_expr(bodies, weights, rank, a))
        }
        Expr::Let(_, a, b) => sum(
            of_expr(bodies, weights, rank, b),
            of_expr(bodies, weights, rank, a),
        ),
        Expr::Call(body, list) => sum(
            called(bodies, weights, rank, *body),
            of_terms(bodies, weights, rank, list),
        ),
    }
}

/// The greatest weight of some expressions.
#[cycle(weigh)]
#[tactic(auto, using(crate::proofs::Weighed::terms_more, crate::proofs::Weighed::terms_all))]
fn of_terms(bodies: &BodyList, weights: &[u32], rank: u32, list: &[Expr]) -> u32
    ensures { result ≡ weight_of_terms (calls_below bodies.now weights.now rank)
        (term_list (map term_of list.now)) }
{
    let mut weight = 0;
    for expr in list {
        weight = of_expr(bodies, weights, rank, expr).max(weight);
    }
    weight
}

/// The greatest weight of the bounds of some variables.
#[cycle(weigh)]
#[tactic(auto, using(crate::proofs::Weighed::bounds_more, crate::proofs::Weighed::bounds_all))]
fn of_bounds(bodies: &BodyList, weights: &[u32], rank: u32, list: &[Variable]) -> u32
    ensures { result ≡ weight_of_bounds (calls_below bodies.now weights.now rank)
        (variable_list (map variable_of list.now)) }
{
    let mut weight = 0;
    for variable in list {
        weight = of_expr(bodies, weights, rank, &variable.bound).max(weight);
    }
    weight
}

/// The weight of a formula, in which bodies below a rank may be called.
#[cycle(weigh)]
pub fn of_formula(bodies: &BodyList, weights: &[u32], rank: u32, formula: &Formula) -> u32
    ensures { result ≡ weight_of (calls_below bodies.now weights.now rank) (claim_of formula.now) }
{
    match formula {
        Formula::Inside(a, b) => of_expr(bodies, weights, rank, a).max(of_expr(
            bodies, weights, rank, b,
        )),
        Formula::Equal(a, b) => of_expr(bodies, weights, rank, a).max(of_expr(
            bodies, weights, rank, b,
        )),
        Formula::Within(a, _, b) => of_expr(bodies, weights, rank, a).max(of_expr(
            bodies, weights, rank, b,
        )),
        Formula::Test(_, a) => of_expr(bodies, weights, rank, a),
        Formula::Compare(_, a, b) => of_expr(bodies, weights, rank, a).max(of_expr(
            bodies, weights, rank, b,
        )),
        Formula::Not(f) => of_formula(bodies, weights, rank, f),
        Formula::Every(list) => of_formulas(bodies, weights, rank, list),
        Formula::Connect(_, f, g) => of_formula(bodies, weights, rank, f).max(of_formula(
            bodies, weights, rank, g,
        )),
        Formula::Choose(f, g, h) => {
            of_formula(bodies, weights, rank, f).max(of_formula(bodies, weights, rank, g).max(
                of_formula(bodies, weights, rank, h),
            ))
        }
        Formula::ForAll(variables, f) => {
            of_bounds(bodies, weights, rank, variables).max(of_formula(bodies, weights, rank, f))
        }
        Formula::Counted(_, variables, f) => {
            of_bounds(bodies, weights, rank, variables).max(of_formula(bodies, weights, rank, f))
        }
        Formula::Temporal(op, f) => under_unary(*op, of_formula(bodies, weights, rank, f)),
        Formula::TemporalPair(op, f, g) => {
            under_binary(
                *op,
                of_formula(bodies, weights, rank, f).max(of_formula(bodies, weights, rank, g)),
            )
        }
        Formula::Let(_, e, f) => sum(
            of_formula(bodies, weights, rank, f),
            of_expr(bodies, weights, rank, e),
        ),
        Formula::Call(body, list) => sum(
            called(bodies, weights, rank, *body),
            of_terms(bodies, weights, rank, list),
        ),
    }
}

/// The greatest weight of some formulas.
#[cycle(weigh)]
#[tactic(auto, using(crate::proofs::Weighed::claims_more, crate::proofs::Weighed::claims_all))]
fn of_formulas(bodies: &BodyList, weights: &[u32], rank: u32, list: &[Formula]) -> u32
    ensures { result ≡ weight_of_each (calls_below bodies.now weights.now rank)
        (claim_list (map claim_of list.now)) }
{
    let mut weight = 0;
    for formula in list {
        weight = of_formula(bodies, weights, rank, formula).max(weight);
    }
    weight
}

/// The weight of a body.
pub fn of_form(bodies: &BodyList, weights: &[u32], rank: u32, form: &BodyForm) -> u32
    ensures { result ≡ weight_of_form (calls_below bodies.now weights.now rank) form.now }
{
    match form {
        BodyForm::Test(f) => of_formula(bodies, weights, rank, f),
        BodyForm::Term(e, _) => of_expr(bodies, weights, rank, e),
    }
}
