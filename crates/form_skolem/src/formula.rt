//! What a command asks of the fields that stand for its predicate's relation parameters.

ghost use Rattle.std.specs.Prelude.{◌≡◌, ℕ, ◌+◌, ◌-◌, ◌^◌, ◌<◌, ◌≤◌, [], ◌∷◌, ◌++◌, map, take, drop, reverse, length, IfOk, OnOk};
ghost use Rattle.core_tree.specs.Trees.{claim_of, term_of, variable_of};
ghost use Rattle.form_skolem.specs.Claims as claims;
ghost use Rattle.form_skolem.specs.Claims.{run_claim};
ghost use Rattle.form_skolem.specs.Steps.{binders, IsBack};

use core_tree::{Expr, Formula, Parameter, Quantity, RelationOp, Variable};
use std::alloc::{AllocError, Global};

/// What a parameter is called with: its field, or its own name.
fn argument_of(number: u32, field: Option<u32>) -> Expr
    ensures { term_of result ≡ claims.argument number field }
{
    match field {
        Some(field) => Expr::Field(field),
        None => Expr::Name(number),
    }
}

/// The predicate, called with its parameters.
fn call_of(alloc: Global, body: u32, fields: &[Option<u32>]) -> Result<Formula, AllocError>
    requires { length fields.now < 2 ^ 32 }
    ensures { IfOk result (λ f. claim_of f ≡ claims.call body fields.now) }
{
    let mut all = Vec::new(alloc);
    for place in 0..fields.len() {
        all.push(argument_of(place as u32, fields[place]))?;
    }
    Ok(Formula::Call(body, all))
}

/// That a field lies in the bound of its parameter, with the bound's multiplicities.
fn inside_bound(alloc: Global, field: u32, parameter: &Parameter) -> Result<Formula, AllocError>
    ensures { IfOk result (λ f. claim_of f ≡ claims.lies_in field parameter.now) }
{
    let bound = parameter.bound.expr.copy(alloc)?;
    Ok(Formula::Within(
        Box::new(alloc, Expr::Field(field))?,
        parameter.bound.multiplicity,
        Box::new(alloc, bound)?,
    ))
}

/// That two fields share no tuple.
fn are_apart(alloc: Global, a: u32, b: u32) -> Result<Formula, AllocError>
    ensures { IfOk result (λ f. claim_of f ≡ claims.are_apart a b) }
{
    let common = Expr::Combine(
        RelationOp::Intersection,
        Box::new(alloc, Expr::Field(a))?,
        Box::new(alloc, Expr::Field(b))?,
    );
    Ok(Formula::Test(Quantity::No, Box::new(alloc, common)?))
}

/// Adds that a field shares no tuple with another parameter's, if that has one.
fn add_apart(
    alloc: Global,
    field: u32,
    other: Option<u32>,
    parts: &mut Vec<Formula>,
) -> Result<(), AllocError>
    ensures { OnOk result (map claim_of parts.new.items
        ≡ map claim_of parts.old.items ++ claims.apart_from field (other ∷ [])) }
{
    match other {
        None => Ok(()),
        Some(other) => {
            let part = are_apart(alloc, other, field)?;
            parts.push(part)?;
            Ok(())
        }
    }
}

/// Adds that a field shares no tuple with those of the parameters just before its own in a list.
fn add_all_apart(
    alloc: Global,
    field: u32,
    apart: u32,
    before: &[Option<u32>],
    parts: &mut Vec<Formula>,
) -> Result<(), AllocError>
    ensures { OnOk result (map claim_of parts.new.items ≡ map claim_of parts.old.items
        ++ claims.apart_from field (take apart (reverse before.now))) }
{
    let count = (apart as usize).min(before.len());
    for back in 0..count {
        add_apart(alloc, field, before[before.len() - 1 - back], parts)?;
    }
    Ok(())
}

/// What is asked of a relation parameter and of those after it.
fn with_relation(
    alloc: Global,
    number: u32,
    field: u32,
    parameter: &Parameter,
    before: &[Option<u32>],
    after: Formula,
) -> Result<Formula, AllocError>
    ensures { IfOk result (λ f. claim_of f ≡ claims.field_claim number field parameter.now
        (reverse before.now) (claim_of after)) }
{
    let mut parts = Vec::new(alloc);
    let inside = inside_bound(alloc, field, parameter)?;
    parts.push(inside)?;
    add_all_apart(alloc, field, parameter.apart, before, &mut parts)?;
    let value = Box::new(alloc, Expr::Field(field))?;
    let rest = Box::new(alloc, after)?;
    parts.push(Formula::Let(number, value, rest))?;
    Ok(Formula::Every(parts))
}

/// An atom parameter as a variable.
fn variable_at(alloc: Global, number: u32, parameter: &Parameter) -> Result<Variable, AllocError>
    ensures { IfOk result (λ v. variable_of v ≡ claims.binder number parameter.now) }
{
    let bound = parameter.bound.expr.copy(alloc)?;
    Ok(Variable {
        name: number,
        apart: parameter.apart,
        bound,
    })
}

/// Atom parameters that follow one another, as variables; the first has this number.
fn variables_of(
    alloc: Global,
    first: u32,
    parameters: &[Parameter],
) -> Result<Vec<Variable>, AllocError>
    requires { first + length parameters.now < 2 ^ 32 }
    ensures { IfOk result (λ all. map variable_of all.items ≡ binders first parameters.now) }
{
    let mut all = Vec::new(alloc);
    for place in 0..parameters.len() {
        let variable = variable_at(alloc, first + place as u32, &parameters[place])?;
        all.push(variable)?;
    }
    Ok(all)
}

/// What is asked of atom parameters that follow one another, and of those after them.
fn with_atoms(
    alloc: Global,
    first: u32,
    parameters: &[Parameter],
    after: Formula,
) -> Result<Formula, AllocError>
    requires { first + length parameters.now < 2 ^ 32 }
    ensures { IfOk result (λ f. claim_of f
        ≡ claims.some_of (binders first parameters.now) (claim_of after)) }
{
    if parameters.is_empty() {
        return Ok(after);
    }
    let variables = variables_of(alloc, first, parameters)?;
    let rest = Box::new(alloc, after)?;
    Ok(Formula::Counted(Quantity::Some, variables, rest))
}

/// The formula of the parameters from `end` on. Those just before them stand for atoms, and have no
/// part in it yet.
#[derive(Drop)]
struct Back {
    formula: Formula,
    end: usize,
}

/// The same with one parameter more, which has this place.
fn one_back(
    alloc: Global,
    place: usize,
    parameters: &[Parameter],
    fields: &[Option<u32>],
    back: Back,
) -> Result<Back, AllocError>
    requires same { length parameters.now ≡ length fields.now }
    requires few { length fields.now < 2 ^ 32 }
    requires place { place < back.end }
    requires end { back.end ≤ length fields.now }
    ensures place { IfOk result (λ b. place ≤ b.end) }
    ensures end { IfOk result (λ b. b.end ≤ length fields.now) }
    ensures leads { (body : ℕ) →
        IsBack body parameters.now fields.now (place + 1) back.end (claim_of back.formula) →
        IfOk result (λ b. IsBack body parameters.now fields.now place b.end (claim_of b.formula)) }
{
    match fields[place] {
        None => Ok(back),
        Some(field) => {
            let number = place as u32;
            let atoms = &parameters[place + 1..back.end];
            let after = with_atoms(alloc, number + 1, atoms, back.formula)?;
            let before = &fields[..place];
            let parameter = &parameters[place];
            let formula = with_relation(alloc, number, field, parameter, before, after)?;
            Ok(Back {
                formula,
                end: place,
            })
        }
    }
}

/// The predicate's body under its parameters from the first to the last: atom parameters are closed
/// by `some`, and each relation parameter's field lies in its bound and is apart from those before
/// it in its list.
pub(crate) fn run_formula(
    alloc: Global,
    body: u32,
    parameters: &[Parameter],
    fields: &[Option<u32>],
) -> Result<Formula, AllocError>
    requires { length parameters.now ≡ length fields.now }
    ensures { IfOk result (λ f. claim_of f ≡ run_claim body parameters.now fields.now) }
{
    let count = fields.len();
    if count > u32::MAX as usize {
        return Err(AllocError);
    }
    let mut back = Back {
        formula: call_of(alloc, body, fields)?,
        end: count,
    };
    for step in 0..count {
        back = one_back(alloc, count - 1 - step, parameters, fields, back)?;
    }
    let formula = with_atoms(alloc, 0, &parameters[..back.end], back.formula)?;
    Ok(formula)
}
