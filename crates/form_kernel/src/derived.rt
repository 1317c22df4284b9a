//! Each derived operator written out, over operands that are kernel formulas and expressions.

ghost use Rattle.std.specs.Prelude.{◌≡◌, IfOk, [], map};
ghost use Rattle.core_tree.specs.Trees.{claim_of, term_of, variable_of, negation};
ghost use Rattle.form_kernel.specs.Operators.{both as both_claims, tested, compared, connected, happening, happening_both, related};
ghost use Rattle.form_kernel.specs.Single.{alone, under as under_claim, lone_by_one, one_under as one_under_claim, counting};

use crate::build::{
    after, always_true, before, both, either, equal_numbers, iff, implied, less, lone, not,
    not_earlier_not, not_later_not, one, releases, since, some, triggered, until,
};
use crate::variables::{are_many_rising, copies, lone_alone, lone_under, under, values_of};
use core_tree::{
    Comparison, Connective, Expr, Formula, Quantity, RelationOp, TemporalBinary, TemporalUnary,
    UnaryRelation, Variable,
};
use std::alloc::{AllocError, Global};

/// `some e`, `no e`, `one e` or `lone e`.
pub fn test(alloc: Global, quantity: Quantity, e: Expr) -> Result<Formula, AllocError>
    ensures { IfOk result (λ f. claim_of f ≡ tested quantity (term_of e)) }
{
    match quantity {
        Quantity::Some => some(alloc, e),
        Quantity::No => {
            let there = some(alloc, e)?;
            not(alloc, there)
        }
        Quantity::One => one(alloc, e),
        Quantity::Lone => lone(alloc, e),
    }
}

/// A comparison of two integers.
pub fn compare(alloc: Global, op: Comparison, a: Expr, b: Expr) -> Result<Formula, AllocError>
    ensures { IfOk result (λ f. claim_of f ≡ compared op (term_of a) (term_of b)) }
{
    match op {
        Comparison::Equal => equal_numbers(alloc, a, b),
        Comparison::Less => less(alloc, a, b),
        Comparison::AtMost => {
            let greater = less(alloc, b, a)?;
            not(alloc, greater)
        }
        Comparison::Greater => less(alloc, b, a),
        Comparison::AtLeast => {
            let below = less(alloc, a, b)?;
            not(alloc, below)
        }
    }
}

/// `f or g`, `f implies g` or `f iff g`.
pub fn connect(alloc: Global, op: Connective, f: Formula, g: Formula) -> Result<Formula, AllocError>
    ensures { IfOk result (λ h. claim_of h ≡ connected op (claim_of f) (claim_of g)) }
{
    match op {
        Connective::Or => either(alloc, f, g),
        Connective::Implies => implied(alloc, f, g),
        Connective::Iff => iff(alloc, f, g),
    }
}

/// `some`, `no`, `one` or `lone` with variables.
pub fn counted(
    alloc: Global,
    quantity: Quantity,
    list: Vec<Variable>,
    f: Formula,
) -> Result<Formula, AllocError>
    ensures { IfOk result (λ g. claim_of g ≡ counting quantity (map variable_of list.items)
        (claim_of f)) }
{
    match quantity {
        Quantity::Some => {
            let none = none_under(alloc, list, f)?;
            not(alloc, none)
        }
        Quantity::No => none_under(alloc, list, f),
        Quantity::One => one_under(alloc, list, f),
        Quantity::Lone => lone_under(alloc, list, f),
    }
}

/// The formula holds for no values of the variables.
fn none_under(alloc: Global, list: Vec<Variable>, f: Formula) -> Result<Formula, AllocError>
    ensures { IfOk result (λ g. claim_of g ≡ under_claim (map variable_of list.items)
        (negation (claim_of f))) }
{
    let fails = not(alloc, f)?;
    under(alloc, list, fails)
}

/// The formula holds for just one choice of values of the variables: as many variables as a
/// relation has columns are counted at once, more of them by two formulas.
///
/// Two negations stand before the count, since `some` with variables is "not all not".
#[tactic(auto, using(crate::proofs::Lists::one_many, crate::proofs::Lists::one_others))]
fn one_under(alloc: Global, list: Vec<Variable>, f: Formula) -> Result<Formula, AllocError>
    ensures { IfOk result (λ g. claim_of g ≡ one_under_claim (map variable_of list.items)
        (claim_of f)) }
{
    if are_many_rising(&list) {
        return one_of_many(alloc, list, f);
    }
    let values = values_of(alloc, list, f)?;
    let single = one(alloc, values)?;
    let other = not(alloc, single)?;
    not(alloc, other)
}

/// The formula holds for some choice of values of the variables, and for at most one.
fn one_of_many(alloc: Global, list: Vec<Variable>, f: Formula) -> Result<Formula, AllocError>
    ensures { IfOk result (λ g. claim_of g ≡ both_claims
        (negation (under_claim (map variable_of list.items) (negation (claim_of f))))
        (lone_by_one (alone [] (map variable_of list.items)) (claim_of f))) }
{
    let others = copies(alloc, &list)?;
    let other = f.copy(alloc)?;
    let none = none_under(alloc, list, f)?;
    let there = not(alloc, none)?;
    let single = lone_alone(alloc, &others, other)?;
    both(alloc, there, single)
}

/// A temporal operator on one formula.
pub fn happens(alloc: Global, op: TemporalUnary, f: Formula) -> Result<Formula, AllocError>
    ensures { IfOk result (λ g. claim_of g ≡ happening op (claim_of f)) }
{
    match op {
        TemporalUnary::After => after(alloc, f),
        TemporalUnary::Always => not_later_not(alloc, f),
        TemporalUnary::Eventually => until(alloc, always_true(alloc), f),
        TemporalUnary::Before => before(alloc, f),
        TemporalUnary::Historically => not_earlier_not(alloc, f),
        TemporalUnary::Once => since(alloc, always_true(alloc), f),
    }
}

/// A temporal operator on two formulas.
pub fn happen_both(
    alloc: Global,
    op: TemporalBinary,
    f: Formula,
    g: Formula,
) -> Result<Formula, AllocError>
    ensures { IfOk result (λ h. claim_of h ≡ happening_both op (claim_of f) (claim_of g)) }
{
    match op {
        TemporalBinary::Until => until(alloc, f, g),
        TemporalBinary::Releases => releases(alloc, f, g),
        TemporalBinary::Since => since(alloc, f, g),
        TemporalBinary::Triggered => triggered(alloc, f, g),
        TemporalBinary::Then => {
            let next = after(alloc, g)?;
            both(alloc, f, next)
        }
    }
}

/// An operator on one relation: `*e` is `^e + iden`.
pub fn combined(alloc: Global, op: UnaryRelation, e: Expr) -> Result<Expr, AllocError>
    ensures { IfOk result (λ d. term_of d ≡ related op (term_of e)) }
{
    match op {
        UnaryRelation::Transpose => Ok(Expr::Unary(UnaryRelation::Transpose, Box::new(alloc, e)?)),
        UnaryRelation::Closure => Ok(Expr::Unary(UnaryRelation::Closure, Box::new(alloc, e)?)),
        UnaryRelation::ReflexiveClosure => {
            let closure = Expr::Unary(UnaryRelation::Closure, Box::new(alloc, e)?);
            Ok(Expr::Combine(
                RelationOp::Union,
                Box::new(alloc, closure)?,
                Box::new(alloc, Expr::Iden)?,
            ))
        }
    }
}
