//! Builds the resolved tree of a draft under a choice.

use crate::built::{Built, CallSite, Pick, begun, give};
use crate::draft::{Candidate, Draft, Target};
use base_types::Position;
use core_tree::{Comparison, Expr, Formula, IntOp, Multiplicity, RelationOp, UnaryRelation};
use resolve_picks::Target as Picked;
use resolve_readings::{Binary, Meaning, Multiplicity as Word, Unary, What};
use std::alloc::{AllocError, Global};

/// The tree of a call's name.
fn body_name(
    alloc: Global,
    place: Position,
    body: u32,
    meaning: &Meaning,
    calls: &mut Vec<CallSite>,
) -> Result<Built, AllocError> {
    calls.push(CallSite { body, place })?;
    match &meaning.what {
        What::Set(_) => Ok(begun(alloc, body, 0, true)),
        What::Formula => Ok(begun(alloc, body, 0, false)),
        What::Waiting(parameters, result) => {
            Ok(begun(alloc, body, parameters.len(), result.is_some()))
        }
    }
}

/// The join of two trees.
fn joined(alloc: Global, left: Expr, right: Expr) -> Result<Expr, AllocError> {
    combined(alloc, RelationOp::Join, left, right)
}

/// The tree of an operator between two relations.
fn combined(alloc: Global, op: RelationOp, left: Expr, right: Expr) -> Result<Expr, AllocError> {
    let left = Box::new(alloc, left)?;
    let right = Box::new(alloc, right)?;
    Ok(Expr::Combine(op, left, right))
}

/// The tree of a name that stands for a candidate.
fn candidate_tree(
    alloc: Global,
    place: Position,
    candidate: &Candidate,
    calls: &mut Vec<CallSite>,
) -> Result<Built, AllocError> {
    match candidate.target {
        Target::Sig(sig) => Ok(Built::Term(Expr::Sig(sig))),
        Target::Int => Ok(Built::Term(Expr::Int)),
        Target::Field(field) => Ok(Built::Term(Expr::Field(field))),
        Target::OwnField(field) => {
            let tree = joined(alloc, Expr::Name(0), Expr::Field(field))?;
            Ok(Built::Term(tree))
        }
        Target::Name(name) => Ok(Built::Term(Expr::Name(name))),
        Target::Body(body) => body_name(alloc, place, body, &candidate.meaning, calls),
    }
}

/// What a candidate is that is no name in scope.
fn picked(target: Target) -> Option<Picked> {
    match target {
        Target::Sig(sig) => Some(Picked::Sig(sig)),
        Target::Int => Some(Picked::Int),
        Target::Field(field) => Some(Picked::Field(field)),
        Target::OwnField(field) => Some(Picked::Field(field)),
        Target::Name(_) => None,
        Target::Body(body) => Some(Picked::Body(body)),
    }
}

/// Notes what a name stands for, where it is none in scope.
fn pick(place: Position, target: Target, picks: &mut Vec<Pick>) -> Result<(), AllocError> {
    if let Some(target) = picked(target) {
        picks.push(Pick { place, target })?;
    }
    Ok(())
}

/// The trees that are made so far under a choice, how many names are behind, the calls, and what
/// the names stand for.
#[derive(Drop)]
struct Building<'a> {
    choice: &'a [usize],
    at: usize,
    calls: Vec<CallSite>,
    picks: Vec<Pick>,
    trees: Vec<Built>,
}

/// The tree of a name under the choice.
fn name_tree(
    alloc: Global,
    place: Position,
    candidates: &[Candidate],
    building: &mut Building<'_>,
) -> Result<Built, AllocError> {
    let number = match building.choice.get(building.at) {
        None => return Ok(Built::Nothing),
        Some(number) => *number,
    };
    building.at = building.at.saturating_add(1);
    match candidates.get(number) {
        None => Ok(Built::Nothing),
        Some(candidate) => {
            pick(place, candidate.target, &mut building.picks)?;
            candidate_tree(alloc, place, candidate, &mut building.calls)
        }
    }
}

/// The tree of an operator on one relation.
fn unary(alloc: Global, op: UnaryRelation, inner: Expr) -> Result<Built, AllocError> {
    let inner = Box::new(alloc, inner)?;
    Ok(Built::Term(Expr::Unary(op, inner)))
}

/// An operator on one tree.
fn single_tree(alloc: Global, operator: Unary, inner: Expr) -> Result<Built, AllocError> {
    match operator {
        Unary::Whole | Unary::Body | Unary::Fits(_) => Ok(Built::Term(inner)),
        Unary::Transpose => unary(alloc, UnaryRelation::Transpose, inner),
        Unary::Closure => unary(alloc, UnaryRelation::Closure, inner),
        Unary::ReflexiveClosure => unary(alloc, UnaryRelation::ReflexiveClosure, inner),
        Unary::Count => Ok(Built::Term(Expr::Count(Box::new(alloc, inner)?))),
        Unary::Prime => Ok(Built::Term(Expr::Prime(Box::new(alloc, inner)?))),
    }
}

/// An operator on what one part became.
fn single_built(alloc: Global, operator: Unary, inner: Built) -> Result<Built, AllocError> {
    match inner {
        Built::Term(tree) => single_tree(alloc, operator, tree),
        Built::Test(formula) => Ok(Built::Test(formula)),
        Built::Waiting(_) => Ok(Built::Nothing),
        Built::Nothing => Ok(Built::Nothing),
    }
}

/// Whether a multiplicity other than `set` stands at an arrow, with nothing but arrows above it.
fn has_words(tree: &Expr) -> bool {
    match tree {
        Expr::Product(left, Multiplicity::Set, Multiplicity::Set, right) => {
            has_words(left) || has_words(right)
        }
        Expr::Product(_, _, _, _) => true,
        _ => false,
    }
}

/// The multiplicity that a word stands for.
fn multiplicity_of(word: Word) -> Multiplicity {
    match word {
        Word::Set => Multiplicity::Set,
        Word::One => Multiplicity::One,
        Word::Lone => Multiplicity::Lone,
        Word::Some => Multiplicity::Some,
    }
}

/// `in`, with the word after it.
fn inside(
    alloc: Global,
    word: Option<Word>,
    left: Expr,
    right: Expr,
) -> Result<Formula, AllocError> {
    let words = has_words(&right);
    let left = Box::new(alloc, left)?;
    let right = Box::new(alloc, right)?;
    match word {
        Some(word) => Ok(Formula::Within(left, multiplicity_of(word), right)),
        None if words => Ok(Formula::Within(left, Multiplicity::Set, right)),
        None => Ok(Formula::Inside(left, right)),
    }
}

/// `=` between two trees.
fn equal(alloc: Global, left: Expr, right: Expr) -> Result<Formula, AllocError> {
    let left = Box::new(alloc, left)?;
    let right = Box::new(alloc, right)?;
    Ok(Formula::Equal(left, right))
}

/// An operator between two trees.
fn pair_tree(
    alloc: Global,
    operator: Binary,
    left: Expr,
    right: Expr,
) -> Result<Built, AllocError> {
    let op = match operator {
        Binary::In(word) => return Ok(Built::Test(inside(alloc, word, left, right)?)),
        Binary::Equal => return Ok(Built::Test(equal(alloc, left, right)?)),
        Binary::Apply => return Ok(Built::Term(joined(alloc, right, left)?)),
        Binary::Dot => RelationOp::Join,
        Binary::Union => RelationOp::Union,
        Binary::Difference => RelationOp::Difference,
        Binary::Override => RelationOp::Override,
        Binary::Intersection => RelationOp::Intersection,
        Binary::LeftRestrict => RelationOp::LeftRestrict,
        Binary::RightRestrict => RelationOp::RightRestrict,
        Binary::Arrow(_) | Binary::Arithmetic | Binary::Choose | Binary::Order => {
            return Ok(Built::Nothing);
        }
    };
    Ok(Built::Term(combined(alloc, op, left, right)?))
}

/// An operator between what two parts became.
fn pair_built(
    alloc: Global,
    operator: Binary,
    left: Built,
    right: Built,
) -> Result<Built, AllocError> {
    match (operator, left, right) {
        (operator, Built::Term(left), Built::Term(right)) => {
            pair_tree(alloc, operator, left, right)
        }
        (Binary::Dot, Built::Term(left), Built::Waiting(right)) => give(right, left),
        (Binary::Apply, Built::Waiting(left), Built::Term(right)) => give(left, right),
        _ => Ok(Built::Nothing),
    }
}

/// An operator between the trees of two parts, where both are expressions.
#[derive(Drop)]
enum Two {
    Both(Expr, Expr),
    Neither,
}

/// Both trees, where both parts became expressions.
fn both(left: Built, right: Built) -> Two {
    match (left, right) {
        (Built::Term(left), Built::Term(right)) => Two::Both(left, right),
        _ => Two::Neither,
    }
}

/// The tree of an arrow with its multiplicities.
fn arrow(
    alloc: Global,
    first: Multiplicity,
    second: Multiplicity,
    two: Two,
) -> Result<Built, AllocError> {
    match two {
        Two::Neither => Ok(Built::Nothing),
        Two::Both(left, right) => {
            let left = Box::new(alloc, left)?;
            let right = Box::new(alloc, right)?;
            Ok(Built::Term(Expr::Product(left, first, second, right)))
        }
    }
}

/// The tree of an operator of arithmetic.
fn arithmetic(alloc: Global, op: IntOp, two: Two) -> Result<Built, AllocError> {
    match two {
        Two::Neither => Ok(Built::Nothing),
        Two::Both(left, right) => {
            let left = Box::new(alloc, left)?;
            let right = Box::new(alloc, right)?;
            Ok(Built::Term(Expr::Arithmetic(op, left, right)))
        }
    }
}

/// The tree of a comparison of integers.
fn compared(alloc: Global, comparison: Comparison, two: Two) -> Result<Built, AllocError> {
    match two {
        Two::Neither => Ok(Built::Nothing),
        Two::Both(left, right) => {
            let left = Box::new(alloc, left)?;
            let right = Box::new(alloc, right)?;
            Ok(Built::Test(Formula::Compare(comparison, left, right)))
        }
    }
}

/// The tree of a choice by a condition.
fn choice_of(alloc: Global, condition: &Formula, two: Two) -> Result<Built, AllocError> {
    match two {
        Two::Neither => Ok(Built::Nothing),
        Two::Both(left, right) => {
            let condition = Box::new(alloc, condition.copy(alloc)?)?;
            let left = Box::new(alloc, left)?;
            let right = Box::new(alloc, right)?;
            Ok(Built::Term(Expr::Choose(condition, left, right)))
        }
    }
}

/// The tree of a `let` whose body is an expression; of another body there is none.
fn let_tree(alloc: Global, name: u32, value: &Expr, body: Built) -> Result<Built, AllocError> {
    match body {
        Built::Term(body) => {
            let value = Box::new(alloc, value.copy(alloc)?)?;
            let body = Box::new(alloc, body)?;
            Ok(Built::Term(Expr::Let(name, value, body)))
        }
        _ => Ok(Built::Nothing),
    }
}

/// What was made last, which is taken; it is no reading where there is nothing.
fn last(trees: &mut Vec<Built>) -> Built {
    match trees.pop() {
        Some(tree) => tree,
        None => Built::Nothing,
    }
}

/// What was made last of two operands.
fn last_two(trees: &mut Vec<Built>) -> Two {
    let right = last(trees);
    let left = last(trees);
    both(left, right)
}

/// What a draft becomes, of whose operands the trees were made last.
fn made(alloc: Global, draft: &Draft, building: &mut Building<'_>) -> Result<Built, AllocError> {
    match draft {
        Draft::Name(place, candidates) => {
            name_tree(alloc, *place, candidates.as_slice(), building)
        }
        Draft::Known(_, tree) => Ok(Built::Term(tree.copy(alloc)?)),
        Draft::Single(operator, _) => { single_built(alloc, *operator, last(&mut building.trees)) }
        Draft::Pair(operator, _, _) => {
            let right = last(&mut building.trees);
            let left = last(&mut building.trees);
            pair_built(alloc, *operator, left, right)
        }
        Draft::Arrow(_, first, second, _, _) => {
            arrow(alloc, *first, *second, last_two(&mut building.trees))
        }
        Draft::Arithmetic(op, _, _) => arithmetic(alloc, *op, last_two(&mut building.trees)),
        Draft::Compare(op, _, _) => compared(alloc, *op, last_two(&mut building.trees)),
        Draft::Choose(condition, _, _) => {
            choice_of(alloc, condition, last_two(&mut building.trees))
        }
        Draft::Let(name, value, _) => { let_tree(alloc, *name, value, last(&mut building.trees)) }
    }
}

/// Puts what a draft becomes behind the others, in place of what its operands became. It isn't part
/// of the walk's own frame, which has to be small: a row of operators is as deep as it is long.
#[inline(never)]
fn close(alloc: Global, draft: &Draft, building: &mut Building<'_>) -> Result<(), AllocError> {
    let tree = made(alloc, draft, building)?;
    building.trees.push(tree)?;
    Ok(())
}

/// Puts what a draft becomes behind the others.
fn add_built(alloc: Global, draft: &Draft, building: &mut Building<'_>) -> Result<(), AllocError> {
    match draft {
        Draft::Name(_, _) | Draft::Known(_, _) => {}
        Draft::Single(_, inner) | Draft::Let(_, _, inner) => add_built(alloc, inner, building)?,
        Draft::Pair(_, left, right)
        | Draft::Arrow(_, _, _, left, right)
        | Draft::Arithmetic(_, left, right)
        | Draft::Compare(_, left, right)
        | Draft::Choose(_, left, right) => {
            add_built(alloc, left, building)?;
            add_built(alloc, right, building)?;
        }
    }
    close(alloc, draft, building)
}

/// The resolved tree of a draft, in which the choice names a candidate for each name in turn, and
/// the calls in it, and what its names stand for that are none in scope.
pub fn built(
    alloc: Global,
    draft: &Draft,
    choice: &[usize],
) -> Result<(Built, Vec<CallSite>, Vec<Pick>), AllocError> {
    let mut building = Building {
        choice,
        at: 0,
        calls: Vec::new(alloc),
        picks: Vec::new(alloc),
        trees: Vec::new(alloc),
    };
    add_built(alloc, draft, &mut building)?;
    let tree = last(&mut building.trees);
    let Building {
        choice: _,
        at: _,
        calls,
        picks,
        trees: _,
    } = building;
    Ok((tree, calls, picks))
}
