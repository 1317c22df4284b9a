//! The kernel's formulas made from others, among them the duals of `until` and `since`.

ghost use Rattle.std.specs.Prelude.{◌≡◌, IfOk};
ghost use Rattle.core_tree.specs.declared.operators.Quantity.TheVariants.{Some as SomeOf, One as OneOf, Lone as LoneOf};
ghost use Rattle.core_tree.specs.declared.operators.Comparison.TheVariants.{Equal as EqualNumbers, Less as LessNumbers};
ghost use Rattle.core_tree.specs.declared.operators.Connective.TheVariants.{Iff as IffBoth};
ghost use Rattle.core_tree.specs.declared.operators.TemporalUnary.TheVariants.{After as AfterNow, Before as BeforeNow};
ghost use Rattle.core_tree.specs.declared.operators.TemporalBinary.TheVariants.{Until as UntilThen, Since as SinceThen};
ghost use Rattle.core_tree.specs.Trees.{claim_of, term_of, negation, test, compare, connect, temporal, temporal_pair};
ghost use Rattle.form_kernel.specs.Operators.{truth, both as both_claims, implied as implied_claim, not_later_not as not_later_not_claim, not_earlier_not as not_earlier_not_claim};

use core_tree::{Comparison, Connective, Expr, Formula, Quantity, TemporalBinary, TemporalUnary};
use std::alloc::{AllocError, Global};

/// The formula that always holds.
#[tactic(auto, using(crate::proofs::Lists::every_none))]
pub fn always_true(alloc: Global) -> Formula
    ensures { claim_of result ≡ truth }
{
    Formula::Every(Vec::new(alloc))
}

/// `not f`.
pub fn not(alloc: Global, f: Formula) -> Result<Formula, AllocError>
    ensures { IfOk result (λ g. claim_of g ≡ negation (claim_of f)) }
{
    Ok(Formula::Not(Box::new(alloc, f)?))
}

/// Both formulas.
#[tactic(auto, using(crate::proofs::Lists::every_two))]
pub fn both(alloc: Global, f: Formula, g: Formula) -> Result<Formula, AllocError>
    ensures { IfOk result (λ h. claim_of h ≡ both_claims (claim_of f) (claim_of g)) }
{
    let mut list = Vec::new(alloc);
    list.push(f)?;
    list.push(g)?;
    Ok(Formula::Every(list))
}

/// Not the first without the second.
pub fn implied(alloc: Global, f: Formula, g: Formula) -> Result<Formula, AllocError>
    ensures { IfOk result (λ h. claim_of h ≡ implied_claim (claim_of f) (claim_of g)) }
{
    let other = not(alloc, g)?;
    let broken = both(alloc, f, other)?;
    not(alloc, broken)
}

/// Not both false.
pub fn either(alloc: Global, f: Formula, g: Formula) -> Result<Formula, AllocError>
    ensures { IfOk result (λ h. claim_of h ≡ implied_claim (negation (claim_of f)) (claim_of g)) }
{
    let first = not(alloc, f)?;
    implied(alloc, first, g)
}

/// `f iff g`.
pub fn iff(alloc: Global, f: Formula, g: Formula) -> Result<Formula, AllocError>
    ensures { IfOk result (λ h. claim_of h ≡ connect IffBoth (claim_of f) (claim_of g)) }
{
    Ok(Formula::Connect(Connective::Iff, Box::new(alloc, f)?, Box::new(alloc, g)?))
}

/// `some e`.
pub fn some(alloc: Global, e: Expr) -> Result<Formula, AllocError>
    ensures { IfOk result (λ f. claim_of f ≡ test SomeOf (term_of e)) }
{
    Ok(Formula::Test(Quantity::Some, Box::new(alloc, e)?))
}

/// `one e`.
pub fn one(alloc: Global, e: Expr) -> Result<Formula, AllocError>
    ensures { IfOk result (λ f. claim_of f ≡ test OneOf (term_of e)) }
{
    Ok(Formula::Test(Quantity::One, Box::new(alloc, e)?))
}

/// `lone e`.
pub fn lone(alloc: Global, e: Expr) -> Result<Formula, AllocError>
    ensures { IfOk result (λ f. claim_of f ≡ test LoneOf (term_of e)) }
{
    Ok(Formula::Test(Quantity::Lone, Box::new(alloc, e)?))
}

/// The integer `a` is less than the integer `b`.
pub fn less(alloc: Global, a: Expr, b: Expr) -> Result<Formula, AllocError>
    ensures { IfOk result (λ f. claim_of f ≡ compare LessNumbers (term_of a) (term_of b)) }
{
    Ok(Formula::Compare(Comparison::Less, Box::new(alloc, a)?, Box::new(alloc, b)?))
}

/// The integers are equal.
pub fn equal_numbers(alloc: Global, a: Expr, b: Expr) -> Result<Formula, AllocError>
    ensures { IfOk result (λ f. claim_of f ≡ compare EqualNumbers (term_of a) (term_of b)) }
{
    Ok(Formula::Compare(Comparison::Equal, Box::new(alloc, a)?, Box::new(alloc, b)?))
}

/// `after f`.
pub fn after(alloc: Global, f: Formula) -> Result<Formula, AllocError>
    ensures { IfOk result (λ g. claim_of g ≡ temporal AfterNow (claim_of f)) }
{
    Ok(Formula::Temporal(TemporalUnary::After, Box::new(alloc, f)?))
}

/// `before f`.
pub fn before(alloc: Global, f: Formula) -> Result<Formula, AllocError>
    ensures { IfOk result (λ g. claim_of g ≡ temporal BeforeNow (claim_of f)) }
{
    Ok(Formula::Temporal(TemporalUnary::Before, Box::new(alloc, f)?))
}

/// `f until g`.
pub fn until(alloc: Global, f: Formula, g: Formula) -> Result<Formula, AllocError>
    ensures { IfOk result (λ h. claim_of h ≡ temporal_pair UntilThen (claim_of f) (claim_of g)) }
{
    Ok(Formula::TemporalPair(
        TemporalBinary::Until,
        Box::new(alloc, f)?,
        Box::new(alloc, g)?,
    ))
}

/// `f since g`.
pub fn since(alloc: Global, f: Formula, g: Formula) -> Result<Formula, AllocError>
    ensures { IfOk result (λ h. claim_of h ≡ temporal_pair SinceThen (claim_of f) (claim_of g)) }
{
    Ok(Formula::TemporalPair(
        TemporalBinary::Since,
        Box::new(alloc, f)?,
        Box::new(alloc, g)?,
    ))
}

/// Not, at some position from here on, not.
pub fn not_later_not(alloc: Global, f: Formula) -> Result<Formula, AllocError>
    ensures { IfOk result (λ g. claim_of g ≡ not_later_not_claim (claim_of f)) }
{
    let broken = not(alloc, f)?;
    let later = until(alloc, always_true(alloc), broken)?;
    not(alloc, later)
}

/// Not, at some position up to here, not.
pub fn not_earlier_not(alloc: Global, f: Formula) -> Result<Formula, AllocError>
    ensures { IfOk result (λ g. claim_of g ≡ not_earlier_not_claim (claim_of f)) }
{
    let broken = not(alloc, f)?;
    let earlier = since(alloc, always_true(alloc), broken)?;
    not(alloc, earlier)
}

/// `f releases g`: not `(not f) until (not g)`.
pub fn releases(alloc: Global, f: Formula, g: Formula) -> Result<Formula, AllocError>
    ensures { IfOk result (λ h. claim_of h ≡ negation
        (temporal_pair UntilThen (negation (claim_of f)) (negation (claim_of g)))) }
{
    let first = not(alloc, f)?;
    let second = not(alloc, g)?;
    let broken = until(alloc, first, second)?;
    not(alloc, broken)
}

/// `f triggered g`: not `(not f) since (not g)`.
pub fn triggered(alloc: Global, f: Formula, g: Formula) -> Result<Formula, AllocError>
    ensures { IfOk result (λ h. claim_of h ≡ negation
        (temporal_pair SinceThen (negation (claim_of f)) (negation (claim_of g)))) }
{
    let first = not(alloc, f)?;
    let second = not(alloc, g)?;
    let broken = since(alloc, first, second)?;
    not(alloc, broken)
}
