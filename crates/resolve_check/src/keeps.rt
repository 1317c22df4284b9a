//! Tests whether a model keeps what resolved models keep.

ghost use Rattle.std.specs.Prelude.{◌≡◌, true, ◌<◌, ◌^◌, ℕ, IfOk, IfSome, IsTrue, All, length, slice_get, slice_index, Some};
ghost use Rattle.core_tree.specs.declared.model.Field.{Field};
ghost use Rattle.core_tree.specs.declared.model.Fact.{Fact};
ghost use Rattle.core_tree.specs.declared.model.Assert.{Assert};
ghost use Rattle.core_tree.specs.declared.model.Parameter.{Parameter};
ghost use Rattle.core_tree.specs.Trees.{claim_of, term_of};
ghost use Rattle.core_tree.specs.Columns.{no_columns};
ghost use Rattle.core_tree.specs.Models.{HasAtomParameters, IsRightFormula, plain_shapes, shapes_of};
ghost use Rattle.resolve_check.specs.Names.{names_of};
ghost use Rattle.resolve_check.specs.Fits.{shapes_in};
ghost use Rattle.resolve_check.specs.Kept.{HasDeclarations, HasFormulas, IsCommand, IsModelButTypes, IsOne, IsRightValue};

use crate::bodies::are_right_bodies;
use crate::columns::both;
use crate::fields::are_right_fields;
use crate::formulas::{is_right_formula, is_right_term, this_name};
use crate::names::NameList;
use crate::numbering::sig_numbers;
use crate::shape::Shape;
use crate::signatures::{full_shape, plain_shape};
use crate::sigs::{are_falling, are_right_sigs};
use core_tree::{Assert, Command, Expr, Fact, Formula, Model, Multiplicity, Parameter};
use std::alloc::{AllocError, Global};

/// Whether a formula of the model without free names is right.
fn is_right_closed(
    alloc: Global,
    model: &Model,
    shape: &Shape,
    formula: &Formula,
) -> Result<bool, AllocError>
    requires { shapes_in shape.now ≡ shapes_of model.now }
    ensures { IfOk result (λ b. IsTrue b → IsRightFormula model.now (claim_of formula.now)
        no_columns) }
{
    is_right_formula(alloc, shape, &NameList::new(alloc), formula)
}

/// Whether an expression of the model without free names is right.
fn is_right_closed_term(
    alloc: Global,
    model: &Model,
    shape: &Shape,
    expr: &Expr,
) -> Result<bool, AllocError>
    requires { shapes_in shape.now ≡ shapes_of model.now }
    ensures { IfOk result (λ b. IsTrue b → IsRightValue model.now (term_of expr.now)) }
{
    is_right_term(alloc, shape, &NameList::new(alloc), expr)
}

/// Whether all facts are right.
fn are_right_facts(
    alloc: Global,
    model: &Model,
    shape: &Shape,
    facts: &[Fact],
) -> Result<bool, AllocError>
    requires { shapes_in shape.now ≡ shapes_of model.now }
    ensures { IfOk result (λ b. IsTrue b → All (λ (f : Fact).
        IsRightFormula model.now (claim_of f.formula) no_columns) facts.now) }
{
    for fact in facts {
        if !is_right_closed(alloc, model, shape, &fact.formula)? {
            return Ok(false);
        }
    }
    Ok(true)
}

/// Whether all assertions are right.
fn are_right_asserts(
    alloc: Global,
    model: &Model,
    shape: &Shape,
    asserts: &[Assert],
) -> Result<bool, AllocError>
    requires { shapes_in shape.now ≡ shapes_of model.now }
    ensures { IfOk result (λ b. IsTrue b → All (λ (a : Assert).
        IsRightFormula model.now (claim_of a.formula) no_columns) asserts.now) }
{
    for assertion in asserts {
        if !is_right_closed(alloc, model, shape, &assertion.formula)? {
            return Ok(false);
        }
    }
    Ok(true)
}

/// Whether each parameter stands for one atom.
fn are_atoms(parameters: &[Parameter]) -> bool
    ensures { All IsOne parameters.now → IsTrue result }
{
    for parameter in parameters {
        if parameter.bound.multiplicity != Multiplicity::One {
            return false;
        }
    }
    true
}

/// Whether each parameter of a command's predicate stands for one atom.
fn has_atom_parameters(model: &Model, command: &Command) -> bool
    ensures { HasAtomParameters model.now command.now → IsTrue result }
{
    match command.body {
        None => true,
        Some(body) => {
            let place = body as usize;
            if place >= model.bodies.len() {
                return true;
            }
            are_atoms(model.bodies.get(place).parameters.as_slice())
        }
    }
}

/// Whether the predicate of a command is there.
fn is_body(bodies: usize, body: Option<u32>) -> bool
    ensures { IsTrue result → IfSome body (λ b. b < bodies) }
{
    match body {
        None => true,
        Some(body) => (body as usize) < bodies,
    }
}

/// Whether a formula without free names is right, where that is asked.
fn is_right_where(
    alloc: Global,
    model: &Model,
    shape: &Shape,
    asked: bool,
    formula: &Formula,
) -> Result<bool, AllocError>
    requires { shapes_in shape.now ≡ shapes_of model.now }
    ensures { IfOk result (λ b. IsTrue b → IsTrue asked →
        IsRightFormula model.now (claim_of formula.now) no_columns) }
{
    if asked {
        is_right_closed(alloc, model, shape, formula)
    } else {
        Ok(true)
    }
}

/// Whether a command is right.
fn is_right_command(
    alloc: Global,
    model: &Model,
    shape: &Shape,
    command: &Command,
) -> Result<bool, AllocError>
    requires { shapes_in shape.now ≡ shapes_of model.now }
    ensures { IfOk result (λ b. IsTrue b → IsCommand model.now command.now) }
{
    let bodies = model.bodies.len();
    let there = is_body(bodies, command.body);
    let atoms = has_atom_parameters(model, command);
    let right = is_right_where(alloc, model, shape, atoms, &command.formula)?;
    Ok(both(there, right))
}

/// Whether all commands are right.
fn are_right_commands(
    alloc: Global,
    model: &Model,
    shape: &Shape,
    commands: &[Command],
) -> Result<bool, AllocError>
    requires { shapes_in shape.now ≡ shapes_of model.now }
    ensures { IfOk result (λ b. IsTrue b → All (IsCommand model.now) commands.now) }
{
    for command in commands {
        if !is_right_command(alloc, model, shape, command)? {
            return Ok(false);
        }
    }
    Ok(true)
}

/// Whether the declarations of the model are right: its sigs and its fields.
fn has_right_declarations(alloc: Global, model: &Model, shape: &Shape) -> Result<bool, AllocError>
    requires { shapes_in shape.now ≡ shapes_of model.now }
    ensures { IfOk result (λ b. IsTrue b → HasDeclarations model.now shape.now) }
{
    let this = this_name(alloc)?;
    let sigs = model.sigs.as_slice();
    let numbers = sig_numbers(alloc, sigs)?;
    let falling = are_falling(sigs, &numbers);
    let right = are_right_sigs(alloc, model, shape, &this, sigs)?;
    let fields = are_right_fields(alloc, model, shape, &this)?;
    Ok(both(falling, both(right, fields)))
}

/// Whether the formulas of the model are right: its facts, assertions, bodies and commands.
fn has_right_formulas(
    alloc: Global,
    model: &Model,
    plain: &Shape,
    shape: &Shape,
) -> Result<bool, AllocError>
    requires plain { shapes_in plain.now ≡ plain_shapes model.now }
    requires shape { shapes_in shape.now ≡ shapes_of model.now }
    ensures { IfOk result (λ b. IsTrue b → HasFormulas model.now) }
{
    let fact_list = model.facts.as_slice();
    let assert_list = model.asserts.as_slice();
    let body_list = model.bodies.as_slice();
    let command_list = model.commands.as_slice();
    let facts = are_right_facts(alloc, model, shape, fact_list)?;
    let asserts = are_right_asserts(alloc, model, shape, assert_list)?;
    let bodies = are_right_bodies(alloc, model, plain, shape, body_list)?;
    let commands = are_right_commands(alloc, model, shape, command_list)?;
    Ok(both(both(facts, asserts), both(bodies, commands)))
}

/// Whether there are fewer bodies than their numbers may name.
fn are_few(bodies: usize) -> bool
    ensures { IsTrue result → bodies < 2 ^ 32 }
{
    (bodies as u64) < 4_294_967_296
}

/// Whether the parts of a model are right, whose trees may name this.
fn has_right_parts(
    alloc: Global,
    model: &Model,
    plain: &Shape,
    shape: &Shape,
) -> Result<bool, AllocError>
    requires plain { shapes_in plain.now ≡ plain_shapes model.now }
    requires shape { shapes_in shape.now ≡ shapes_of model.now }
    ensures { IfOk result (λ b. b ≡ true → IsModelButTypes model.now) }
{
    let count = model.bodies.len();
    let few = are_few(count);
    let declarations = has_right_declarations(alloc, model, shape)?;
    let formulas = has_right_formulas(alloc, model, plain, shape)?;
    Ok(both(few, both(declarations, formulas)))
}

/// Whether a model keeps what each resolved model keeps: numbers and parents in range, no sig among
/// its own ancestors, fields with rows of their columns and bounds that name only fields below them
/// in one order, formulas and bodies without free names and with parts that fit, calls of bodies of
/// lower rank alone. It says nothing of which rows a field's type has. Errors where memory runs out.
pub fn keeps_model(alloc: Global, model: &Model) -> Result<bool, AllocError>
    ensures { IfOk result (λ b. b ≡ true → IsModelButTypes model.now) }
{
    let plain = plain_shape(alloc, model)?;
    match full_shape(alloc, model, &plain)? {
        None => Ok(false),
        Some(shape) => has_right_parts(alloc, model, &plain, &shape),
    }
}

/// Whether an expression fits a model: it has no free name, its numbers are in range, each part has the
/// columns that its place needs, nine at most, and each call has its arguments. Errors where memory
/// runs out.
pub fn keeps_value(alloc: Global, model: &Model, value: &Expr) -> Result<bool, AllocError>
    ensures { IfOk result (λ b. b ≡ true → IsRightValue model.now (term_of value.now)) }
{
    let plain = plain_shape(alloc, model)?;
    match full_shape(alloc, model, &plain)? {
        None => Ok(false),
        Some(shape) => is_right_closed_term(alloc, model, &shape, value),
    }
}
