//! Makes formulas from their parts; none where a part was refused.

use crate::forms::{InfixForm, PrefixForm, infix_form, is_logical};
use core_tree::{Connective, Formula, TemporalBinary};
use std::alloc::{AllocError, Global};
use syntax_tree::{Expr as Tree, Infix, Negation};

/// A conjunction of two formulas.
fn conjunction(alloc: Global, left: Formula, right: Formula) -> Result<Formula, AllocError> {
    let mut all = Vec::new(alloc);
    all.push(left)?;
    all.push(right)?;
    Ok(Formula::Every(all))
}

/// A conjunction with one formula more.
fn longer_conjunction(
    alloc: Global,
    so_far: Formula,
    right: Formula,
) -> Result<Formula, AllocError> {
    match so_far {
        Formula::Every(mut list) => {
            list.push(right)?;
            Ok(Formula::Every(list))
        }
        so_far => conjunction(alloc, so_far, right),
    }
}

/// Two formulas under a connective.
pub fn connective(
    alloc: Global,
    op: Connective,
    left: Formula,
    right: Formula,
) -> Result<Formula, AllocError> {
    let left = Box::new(alloc, left)?;
    let right = Box::new(alloc, right)?;
    Ok(Formula::Connect(op, left, right))
}

/// Two formulas under a temporal operator.
pub fn temporal_pair(
    alloc: Global,
    op: TemporalBinary,
    left: Formula,
    right: Formula,
) -> Result<Formula, AllocError> {
    let left = Box::new(alloc, left)?;
    let right = Box::new(alloc, right)?;
    Ok(Formula::TemporalPair(op, left, right))
}

/// Two formulas with an operator between them. `is_later` says whether the first is made of
/// operands with that operator already, so that a row of conjunctions is one list.
pub fn linked_formula(
    alloc: Global,
    form: InfixForm,
    is_later: bool,
    left: Option<Formula>,
    right: Option<Formula>,
) -> Result<Option<Formula>, AllocError> {
    let Some(left) = left else {
        return Ok(None);
    };
    let Some(right) = right else {
        return Ok(None);
    };
    match form {
        InfixForm::Conjunction if is_later => Ok(Some(longer_conjunction(alloc, left, right)?)),
        InfixForm::Conjunction => Ok(Some(conjunction(alloc, left, right)?)),
        InfixForm::Connective(op) => Ok(Some(connective(alloc, op, left, right)?)),
        InfixForm::Temporal(op) => Ok(Some(temporal_pair(alloc, op, left, right)?)),
        _ => Ok(None),
    }
}

/// A prefix operator on a formula.
pub fn prefixed_formula(
    alloc: Global,
    form: PrefixForm,
    inner: Option<Formula>,
) -> Result<Option<Formula>, AllocError> {
    let Some(inner) = inner else {
        return Ok(None);
    };
    let inner = Box::new(alloc, inner)?;
    match form {
        PrefixForm::Temporal(op) => Ok(Some(Formula::Temporal(op, inner))),
        _ => Ok(Some(Formula::Not(inner))),
    }
}

/// `=>` without `else`.
pub fn implied(
    alloc: Global,
    condition: Option<Formula>,
    consequence: Option<Formula>,
) -> Result<Option<Formula>, AllocError> {
    let Some(condition) = condition else {
        return Ok(None);
    };
    let Some(consequence) = consequence else {
        return Ok(None);
    };
    let op = Connective::Implies;
    Ok(Some(connective(alloc, op, condition, consequence)?))
}

/// `=>` with `else` between formulas.
pub fn chosen(
    alloc: Global,
    condition: Option<Formula>,
    consequence: Option<Formula>,
    other: Option<Formula>,
) -> Result<Option<Formula>, AllocError> {
    let Some(condition) = condition else {
        return Ok(None);
    };
    let Some(consequence) = consequence else {
        return Ok(None);
    };
    let Some(other) = other else {
        return Ok(None);
    };
    let condition = Box::new(alloc, condition)?;
    let consequence = Box::new(alloc, consequence)?;
    let other = Box::new(alloc, other)?;
    Ok(Some(Formula::Choose(condition, consequence, other)))
}

/// A comparison that is negated or not.
pub fn negated(
    alloc: Global,
    negation: Negation,
    formula: Option<Formula>,
) -> Result<Option<Formula>, AllocError> {
    let Some(formula) = formula else {
        return Ok(None);
    };
    match negation {
        Negation::Plain => Ok(Some(formula)),
        _ => Ok(Some(Formula::Not(Box::new(alloc, formula)?))),
    }
}

/// The value of a number with `-` before it.
pub fn below_zero(number: u32) -> i64 {
    0 - number as i64
}

/// Whether the operators of a list stand between formulas.
pub fn are_logical(links: &[(Infix, Tree)]) -> bool {
    match links {
        [] => false,
        [first, ..] => is_logical(infix_form(first.0)),
    }
}
