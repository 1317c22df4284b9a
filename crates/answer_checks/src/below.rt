//! Whether a tree calls no function and names only sigs and fields below some numbers.

ghost use Rattle.std.specs.Prelude.{◌<◌, IsTrue, map};
ghost use Rattle.core_tree.specs.Trees.{term_of, claim_of, variable_of, term_list, claim_list, variable_list};
ghost use Rattle.bound_laws.specs.Placed.{IsTermBelow, AreTermsBelow, AreVariablesBelow, IsClaimBelow, AreClaimsBelow};

use core_tree::{Expr, Formula, Variable};

/// Whether both are true.
fn both_are(first: bool, second: bool) -> bool
    ensures left { IsTrue result → IsTrue first }
    ensures right { IsTrue result → IsTrue second }
{
    first && second
}

/// Whether a number is below another.
fn is_lower(number: usize, limit: usize) -> bool
    ensures { IsTrue result → number < limit }
{
    number < limit
}

/// Whether an expression calls no function, and names only sigs and fields below these numbers.
#[cycle(below)]
pub fn is_term_below(sigs: usize, fields: usize, expr: &Expr) -> bool
    ensures { IsTrue result → IsTermBelow sigs fields (term_of expr.now) }
{
    match expr {
        Expr::Sig(sig) => is_lower(*sig as usize, sigs),
        Expr::Field(field) => is_lower(*field as usize, fields),
        Expr::Name(_) => true,
        Expr::Univ => true,
        Expr::Iden => true,
        Expr::Empty => true,
        Expr::Int => true,
        Expr::Combine(_, a, b) => both_are(
            is_term_below(sigs, fields, a),
            is_term_below(sigs, fields, b),
        ),
        Expr::Product(a, _, _, b) => both_are(
            is_term_below(sigs, fields, a),
            is_term_below(sigs, fields, b),
        ),
        Expr::Unary(_, a) => is_term_below(sigs, fields, a),
        Expr::Prime(a) => is_term_below(sigs, fields, a),
        Expr::Choose(f, a, b) => both_are(
            is_claim_below(sigs, fields, f),
            both_are(
                is_term_below(sigs, fields, a),
                is_term_below(sigs, fields, b),
            ),
        ),
        Expr::Comprehension(list, f) => both_are(
            are_variables_below(sigs, fields, list),
            is_claim_below(sigs, fields, f),
        ),
        Expr::Number(_, _) => true,
        Expr::Count(a) => is_term_below(sigs, fields, a),
        Expr::Arithmetic(_, a, b) => both_are(
            is_term_below(sigs, fields, a),
            is_term_below(sigs, fields, b),
        ),
        Expr::Sum(list, a) => both_are(
            are_variables_below(sigs, fields, list),
            is_term_below(sigs, fields, a),
        ),
        Expr::Let(_, a, b) => both_are(
            is_term_below(sigs, fields, a),
            is_term_below(sigs, fields, b),
        ),
        Expr::Call(_, _) => false,
    }
}

/// The same of some expressions.
#[cycle(below)]
fn are_terms_below(sigs: usize, fields: usize, list: &[Expr]) -> bool
    ensures { IsTrue result → AreTermsBelow sigs fields (term_list (map term_of list.now)) }
{
    for expr in list {
        let below = is_term_below(sigs, fields, expr);
        if !below {
            return false;
        }
    }
    true
}

/// The same of the bounds of variables.
#[cycle(below)]
fn are_variables_below(sigs: usize, fields: usize, list: &[Variable]) -> bool
    ensures { IsTrue result → AreVariablesBelow sigs fields
        (variable_list (map variable_of list.now)) }
{
    for variable in list {
        let below = is_term_below(sigs, fields, &variable.bound);
        if !below {
            return false;
        }
    }
    true
}

/// The same of a formula.
#[cycle(below)]
fn is_claim_below(sigs: usize, fields: usize, formula: &Formula) -> bool
    ensures { IsTrue result → IsClaimBelow sigs fields (claim_of formula.now) }
{
    match formula {
        Formula::Inside(a, b) => both_are(
            is_term_below(sigs, fields, a),
            is_term_below(sigs, fields, b),
        ),
        Formula::Equal(a, b) => both_are(
            is_term_below(sigs, fields, a),
            is_term_below(sigs, fields, b),
        ),
        Formula::Within(a, _, b) => both_are(
            is_term_below(sigs, fields, a),
            is_term_below(sigs, fields, b),
        ),
        Formula::Test(_, a) => is_term_below(sigs, fields, a),
        Formula::Compare(_, a, b) => both_are(
            is_term_below(sigs, fields, a),
            is_term_below(sigs, fields, b),
        ),
        Formula::Not(f) => is_claim_below(sigs, fields, f),
        Formula::Every(list) => are_claims_below(sigs, fields, list),
        Formula::Connect(_, f, g) => both_are(
            is_claim_below(sigs, fields, f),
            is_claim_below(sigs, fields, g),
        ),
        Formula::Choose(f, g, h) => both_are(
            is_claim_below(sigs, fields, f),
            both_are(
                is_claim_below(sigs, fields, g),
                is_claim_below(sigs, fields, h),
            ),
        ),
        Formula::ForAll(list, f) => both_are(
            are_variables_below(sigs, fields, list),
            is_claim_below(sigs, fields, f),
        ),
        Formula::Counted(_, list, f) => both_are(
            are_variables_below(sigs, fields, list),
            is_claim_below(sigs, fields, f),
        ),
        Formula::Temporal(_, f) => is_claim_below(sigs, fields, f),
        Formula::TemporalPair(_, f, g) => both_are(
            is_claim_below(sigs, fields, f),
            is_claim_below(sigs, fields, g),
        ),
        Formula::Let(_, a, f) => both_are(
            is_term_below(sigs, fields, a),
            is_claim_below(sigs, fields, f),
        ),
        Formula::Call(_, list) => are_terms_below(sigs, fields, list),
    }
}

/// The same of some formulas.
#[cycle(below)]
fn are_claims_below(sigs: usize, fields: usize, list: &[Formula]) -> bool
    ensures { IsTrue result → AreClaimsBelow sigs fields (claim_list (map claim_of list.now)) }
{
    for formula in list {
        let below = is_claim_below(sigs, fields, formula);
        if !below {
            return false;
        }
    }
    true
}
