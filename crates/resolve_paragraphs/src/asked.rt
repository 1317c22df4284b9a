//! What a command asks is a formula of the model.

use core_tree::{Assert, Body, Expr, Formula, Parameter, Quantity, Variable};
use std::alloc::{AllocError, Global};

/// A formula that always holds, in place of one that was refused.
pub fn always_true(alloc: Global) -> Formula {
    Formula::Every(Vec::new(alloc))
}

/// The number of the name at a place; there are never so many that it doesn't fit.
fn number_of(place: usize) -> u32 {
    match u32::try_from(place) {
        Ok(number) => number,
        Err(_) => u32::MAX,
    }
}

fn variables_of(alloc: Global, parameters: &[Parameter]) -> Result<Vec<Variable>, AllocError> {
    let mut all = Vec::new(alloc);
    for place in 0..parameters.len() {
        all.push(Variable {
            name: number_of(place),
            apart: parameters[place].apart,
            bound: parameters[place].bound.expr.copy(alloc)?,
        })?;
    }
    Ok(all)
}

fn arguments_of(alloc: Global, count: usize) -> Result<Vec<Expr>, AllocError> {
    let mut all = Vec::new(alloc);
    for place in 0..count {
        all.push(Expr::Name(number_of(place)))?;
    }
    Ok(all)
}

fn call_of(alloc: Global, number: u32, parameters: &[Parameter]) -> Result<Formula, AllocError> {
    let call = Formula::Call(number, arguments_of(alloc, parameters.len())?);
    if parameters.is_empty() {
        return Ok(call);
    }
    let variables = variables_of(alloc, parameters)?;
    let call = Box::new(alloc, call)?;
    Ok(Formula::Counted(Quantity::Some, variables, call))
}

/// What running a predicate asks: its body under `some` over its parameters. Where there is none, a
/// formula that always holds.
pub fn run_formula(
    alloc: Global,
    found: Option<u32>,
    bodies: &[Body],
) -> Result<Formula, AllocError> {
    match found {
        None => Ok(always_true(alloc)),
        Some(number) => match bodies.get(number as usize) {
            None => Ok(always_true(alloc)),
            Some(body) => call_of(alloc, number, body.parameters.as_slice()),
        },
    }
}

/// That a formula doesn't hold.
pub fn denied(alloc: Global, formula: Formula) -> Result<Formula, AllocError> {
    Ok(Formula::Not(Box::new(alloc, formula)?))
}

fn assert_formula(
    alloc: Global,
    found: Option<u32>,
    asserts: &[Assert],
) -> Result<Formula, AllocError> {
    match found {
        None => Ok(always_true(alloc)),
        Some(place) => match asserts.get(place as usize) {
            None => Ok(always_true(alloc)),
            Some(assertion) => assertion.formula.copy(alloc),
        },
    }
}

/// What checking an assertion asks: that it doesn't hold.
pub fn check_formula(
    alloc: Global,
    found: Option<u32>,
    asserts: &[Assert],
) -> Result<Formula, AllocError> {
    let formula = assert_formula(alloc, found, asserts)?;
    denied(alloc, formula)
}
