//! The operators on sets: union, difference, intersection, join, product and the rest.

ghost use Rattle.std.specs.Prelude.{◌≡◌, ◌∷◌, [], ℕ, IfOk};
ghost use Rattle.core_tuples.specs.Sets.{In};
ghost use Rattle.core_tree.specs.declared.operators.RelationOp.TheVariants.{Union, Difference, Intersection, Join, Override, LeftRestrict, RightRestrict};
ghost use Rattle.core_meaning.specs.Operators.{combined_tuples, product_tuples};
ghost use Rattle.eval_sets.specs.SetOf.{IsSetOf};

use crate::fault::EvaluationFault;
use crate::rows::{Rule, empty_of, firsts, passing};
use core_tree::RelationOp;
use core_tuples::{TupleSet, difference, intersection, join, product, transpose, union};
use std::alloc::Global;

/// An operator on two sets. Unfit are a union of sets of different columns and a join of no columns or
/// more than nine, where neither set is empty.
pub fn combine(
    alloc: Global,
    op: RelationOp,
    a: &TupleSet,
    b: &TupleSet,
) -> Result<TupleSet, EvaluationFault>
    ensures { IfOk result (λ s. IsSetOf s (combined_tuples op (λ t. In t a.now)
        (λ t. In t b.now))) }
{
    match op {
        RelationOp::Union => united(alloc, a, b),
        RelationOp::Difference => lessened(alloc, a, b),
        RelationOp::Intersection => common(alloc, a, b),
        RelationOp::Join => joined(alloc, a, b),
        RelationOp::Override => overridden(alloc, a, b),
        RelationOp::LeftRestrict => left_restricted(alloc, a, b),
        RelationOp::RightRestrict => right_restricted(alloc, a, b),
    }
}

/// The union.
#[tactic(auto, using(crate::proofs::OperatorLaw::just_set, crate::proofs::OperatorLaw::united_left, crate::proofs::OperatorLaw::united_right))]
fn united(alloc: Global, a: &TupleSet, b: &TupleSet) -> Result<TupleSet, EvaluationFault>
    ensures { IfOk result (λ s. IsSetOf s (combined_tuples Union (λ t. In t a.now)
        (λ t. In t b.now))) }
{
    if a.arity() == b.arity() {
        return Ok(union(alloc, a, b)?);
    }
    if a.len() == 0 {
        return Ok(b.copy(alloc)?);
    }
    if b.len() == 0 {
        return Ok(a.copy(alloc)?);
    }
    Err(EvaluationFault::Unfit)
}

/// The difference.
#[tactic(auto, using(crate::proofs::OperatorLaw::just_set, crate::proofs::OperatorLaw::lessened_apart))]
fn lessened(alloc: Global, a: &TupleSet, b: &TupleSet) -> Result<TupleSet, EvaluationFault>
    ensures { IfOk result (λ s. IsSetOf s (combined_tuples Difference (λ t. In t a.now)
        (λ t. In t b.now))) }
{
    if a.arity() == b.arity() {
        return Ok(difference(alloc, a, b)?);
    }
    Ok(a.copy(alloc)?)
}

/// The intersection.
#[tactic(auto, using(crate::proofs::OperatorLaw::just_set))]
fn common(alloc: Global, a: &TupleSet, b: &TupleSet) -> Result<TupleSet, EvaluationFault>
    ensures { IfOk result (λ s. IsSetOf s (combined_tuples Intersection (λ t. In t a.now)
        (λ t. In t b.now))) }
{
    if a.arity() == b.arity() {
        return Ok(intersection(alloc, a, b)?);
    }
    Ok(empty_of(alloc, a.arity() as usize))
}

/// The join.
#[tactic(auto, using(crate::proofs::OperatorLaw::just_set))]
fn joined(alloc: Global, a: &TupleSet, b: &TupleSet) -> Result<TupleSet, EvaluationFault>
    ensures { IfOk result (λ s. IsSetOf s (combined_tuples Join (λ t. In t a.now)
        (λ t. In t b.now))) }
{
    let columns = a.arity() as usize + b.arity() as usize;
    if columns >= 3 && columns <= 11 {
        return Ok(join(alloc, a, b)?);
    }
    if a.len() == 0 {
        return Ok(empty_of(alloc, columns.saturating_sub(2)));
    }
    if b.len() == 0 {
        return Ok(empty_of(alloc, columns.saturating_sub(2)));
    }
    Err(EvaluationFault::Unfit)
}

/// The tuples of the second set, and those of the first that begin otherwise than all of these.
fn overridden(alloc: Global, a: &TupleSet, b: &TupleSet) -> Result<TupleSet, EvaluationFault>
    ensures { IfOk result (λ s. IsSetOf s (combined_tuples Override (λ t. In t a.now)
        (λ t. In t b.now))) }
{
    let begins = firsts(alloc, b)?;
    let kept = passing(alloc, Rule::BeginsApart, a, &begins)?;
    united(alloc, b, &kept)
}

/// The tuples of the second set whose first number is in the first set.
fn left_restricted(alloc: Global, a: &TupleSet, b: &TupleSet) -> Result<TupleSet, EvaluationFault>
    ensures { IfOk result (λ s. IsSetOf s (combined_tuples LeftRestrict (λ t. In t a.now)
        (λ t. In t b.now))) }
{
    passing(alloc, Rule::BeginsIn, b, a)
}

/// The tuples of the first set whose last number is in the second set.
fn right_restricted(alloc: Global, a: &TupleSet, b: &TupleSet) -> Result<TupleSet, EvaluationFault>
    ensures { IfOk result (λ s. IsSetOf s (combined_tuples RightRestrict (λ t. In t a.now)
        (λ t. In t b.now))) }
{
    passing(alloc, Rule::EndsIn, a, b)
}

/// The product. One of more than nine columns is unfit, where neither set is empty.
#[tactic(auto, using(crate::proofs::OperatorLaw::just_set))]
pub fn paired(alloc: Global, a: &TupleSet, b: &TupleSet) -> Result<TupleSet, EvaluationFault>
    ensures { IfOk result (λ s. IsSetOf s (product_tuples (λ t. In t a.now) (λ t. In t b.now))) }
{
    let columns = a.arity() as usize + b.arity() as usize;
    // ArityLimit, S47: a relation has at most nine columns.
    if columns <= 9 {
        return Ok(product(alloc, a, b)?);
    }
    if a.len() == 0 {
        return Ok(empty_of(alloc, columns));
    }
    if b.len() == 0 {
        return Ok(empty_of(alloc, columns));
    }
    Err(EvaluationFault::Unfit)
}

/// The pairs of a set turned round.
pub fn turned(alloc: Global, a: &TupleSet) -> Result<TupleSet, EvaluationFault>
    ensures { IfOk result (λ s. IsSetOf s (λ t. (x y : ℕ) × In (y ∷ x ∷ []) a.now
        × (t ≡ x ∷ y ∷ []))) }
{
    if a.arity() == 2 {
        return Ok(transpose(alloc, a)?);
    }
    Ok(empty_of(alloc, 2))
}
