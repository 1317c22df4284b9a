//! The model in which each relation parameter of the command's predicate is a field.

ghost use Rattle.std.specs.Prelude.{◌≡◌, ℕ, true, false, Some, length, slice_get, IfOk, IfNone, IfSome};
ghost use Rattle.core_tree.specs.Trees.{claim_of};
ghost use Rattle.core_tree.specs.declared.model.Body.{Body};
ghost use Rattle.core_tree.specs.declared.model.Command.{Command};
ghost use Rattle.resolve_check.specs.Kept.{IsModelButTypes};
ghost use Rattle.form_skolem.specs.Claims.{run_claim};
ghost use Rattle.form_skolem.specs.Opened.{AddsFields, HasNoRelations, HasRelations, IsOpened, IsOpenedOver, fields_from, has_relation, labels, relations, typed_parameters};
ghost use Rattle.form_skolem.specs.Opened as spec;
ghost use Rattle.form_skolem.specs.Steps.{AreTypes, AskAnother, IsTurn, IsTypedTurn, with_type, with_types};

use crate::bounds::{BoundType, types_of};
use crate::fields::add_field;
use crate::formula::run_formula;
use core_tree::{
    BodyList, CommandList, FieldList, Formula, Model, Multiplicity, Parameter, Sig, SigList,
};
use resolve_check::keeps_model;
use std::alloc::{AllocError, Global};

/// Whether a parameter stands for a relation: its bound has another word than `one`. One of several
/// columns has, since a model's `one` stands before one column alone.
fn is_relation(parameter: &Parameter) -> bool
    ensures { result ≡ spec.is_relation parameter.now }
{
    match parameter.bound.multiplicity {
        Multiplicity::One => false,
        _ => true,
    }
}

/// Whether some of these parameters stands for a relation.
fn has_relation(parameters: &[Parameter]) -> bool
    ensures { result ≡ has_relation parameters.now }
{
    for parameter in parameters {
        if is_relation(parameter) {
            return true;
        }
    }
    false
}

/// Adds the field of a parameter, where it stands for a relation, and answers its number.
fn field_of(
    alloc: Global,
    sigs: &[Sig],
    fields: &mut FieldList,
    parameter: &Parameter,
    bound: &BoundType,
) -> Result<Option<u32>, AllocError>
    ensures { IfOk result (IsTurn (labels sigs.now fields.old)
        (with_type parameter.now bound.now) fields.old fields.new) }
{
    if !is_relation(parameter) {
        return Ok(None);
    }
    let count = fields.len();
    if count > u32::MAX as usize {
        return Err(AllocError);
    }
    add_field(alloc, sigs, fields, parameter, bound)?;
    Ok(Some(count as u32))
}

/// The same by the types of all parameters' bounds, of which it is the one of this place.
fn typed_field(
    alloc: Global,
    sigs: &[Sig],
    fields: &mut FieldList,
    parameter: &Parameter,
    types: &[BoundType],
    place: usize,
) -> Result<Option<u32>, AllocError>
    ensures { IfOk result (IsTypedTurn sigs.now parameter.now types.now place fields.old
        fields.new) }
{
    match types.get(place) {
        None => Err(AllocError),
        Some(bound) => {
            let number = field_of(alloc, sigs, fields, parameter, bound)?;
            Ok(number)
        }
    }
}

/// Adds the fields of all parameters that stand for relations, and answers their numbers.
fn fields_of(
    alloc: Global,
    sigs: &[Sig],
    fields: &mut FieldList,
    parameters: &[Parameter],
    types: &[BoundType],
) -> Result<Vec<Option<u32>>, AllocError>
    ensures fields { IfOk result (λ numbers.
        AddsFields sigs.now fields.old (relations (with_types parameters.now types.now))
        fields.new) }
    ensures numbers { IfOk result (λ numbers.
        numbers.items ≡ fields_from (length fields.old) parameters.now) }
{
    let mut numbers = Vec::new(alloc);
    for place in 0..parameters.len() {
        let number = typed_field(alloc, sigs, fields, &parameters[place], types, place)?;
        numbers.push(number)?;
    }
    Ok(numbers)
}

/// The formula of a command over the fields of the parameters, which are added.
fn formula_of(
    alloc: Global,
    sigs: &[Sig],
    fields: &mut FieldList,
    body: u32,
    parameters: &[Parameter],
    types: &[BoundType],
) -> Result<Formula, AllocError>
    ensures fields { IfOk result (λ f.
        AddsFields sigs.now fields.old (relations (with_types parameters.now types.now))
        fields.new) }
    ensures formula { IfOk result (λ f. claim_of f ≡
        run_claim body parameters.now (fields_from (length fields.old) parameters.now)) }
{
    let numbers = fields_of(alloc, sigs, fields, parameters, types)?;
    let formula = run_formula(alloc, body, parameters, numbers.as_slice())?;
    Ok(formula)
}

/// The commands, of which one asks another formula.
fn with_formula(commands: CommandList, command: usize, formula: Formula) -> CommandList
    ensures { (c : Command) → slice_get commands command ≡ Some c →
        AskAnother commands command c (claim_of formula) result }
{
    let mut all = commands.into_vec();
    if command >= all.len() {
        return CommandList::from_vec(all);
    }
    all[command].formula = formula;
    CommandList::from_vec(all)
}

/// The body of this number, if it has a parameter that stands for a relation.
fn body_with_relations(bodies: &BodyList, body: Option<u32>) -> Option<u32>
    ensures none { IfNone result ((b : ℕ) (x : Body) →
        body ≡ Some b → slice_get bodies.now b ≡ Some x → has_relation x.parameters ≡ false) }
    ensures some { IfSome result (λ b. (x : Body) × (body ≡ Some b)
        × (slice_get bodies.now b ≡ Some x) × (has_relation x.parameters ≡ true)) }
{
    match body {
        None => None,
        Some(number) => {
            let place = number as usize;
            if place >= bodies.len() {
                return None;
            }
            if has_relation(bodies.get(place).parameters.as_slice()) {
                return Some(number);
            }
            None
        }
    }
}

/// The predicate that a command runs, if it has a parameter that stands for a relation.
fn relation_body(model: &Model, command: u32) -> Option<u32>
    ensures none { IfNone result (HasNoRelations model.now command) }
    ensures some { IfSome result (HasRelations model.now command) }
{
    match model.commands.as_slice().get(command as usize) {
        None => None,
        Some(chosen) => body_with_relations(&model.bodies, chosen.body),
    }
}

/// The formula of a command that runs the body of this number, with the fields that it asks of.
fn body_formula(
    alloc: Global,
    sigs: &SigList,
    fields: &mut FieldList,
    bodies: &BodyList,
    body: u32,
    types: &[BoundType],
) -> Result<Formula, AllocError>
    ensures fields { IfOk result (λ f. (x : Body) → slice_get bodies.now body ≡ Some x →
        AddsFields sigs.now fields.old (relations (with_types x.parameters types.now))
        fields.new) }
    ensures formula { IfOk result (λ f. (x : Body) → slice_get bodies.now body ≡ Some x →
        claim_of f ≡ run_claim body x.parameters (fields_from (length fields.old) x.parameters)) }
{
    let place = body as usize;
    if place >= bodies.len() {
        return Err(AllocError);
    }
    let parameters = bodies.get(place).parameters.as_slice();
    let formula = formula_of(alloc, sigs.as_slice(), fields, body, parameters, types)?;
    Ok(formula)
}

/// The types of the bounds of the parameters of the body of this number.
fn types_of_body(alloc: Global, model: &Model, body: u32) -> Result<Vec<BoundType>, AllocError>
    ensures { IfOk result (λ all. (x : Body) → slice_get model.now.bodies body ≡ Some x →
        AreTypes all.items (typed_parameters model.now x)) }
{
    let place = body as usize;
    if place >= model.bodies.len() {
        return Err(AllocError);
    }
    let all = types_of(alloc, model, model.bodies.get(place))?;
    Ok(all)
}

/// The model with a field for each relation parameter of a body, which the command runs.
fn opened(
    alloc: Global,
    model: Model,
    command: u32,
    body: u32,
    types: &[BoundType],
) -> Result<Model, AllocError>
    ensures { (has : HasRelations model command body) →
        AreTypes types.now (typed_parameters model has.body) →
        IfOk result (IsOpenedOver model command has.command body has.body) }
{
    let Model {
        sigs,
        fields,
        facts,
        asserts,
        bodies,
        commands,
    } = model;
    let mut all = fields;
    let formula = body_formula(alloc, &sigs, &mut all, &bodies, body, types)?;
    let commands = with_formula(commands, command as usize, formula);
    Ok(Model {
        sigs,
        fields: all,
        facts,
        asserts,
        bodies,
        commands,
    })
}

/// The model in which each relation parameter of the command's predicate is a static field without
/// owner, and the command asks the predicate's body of these fields. Without such parameters, or
/// without such a command, the model comes back as it was. A model with new fields is tested for
/// what each model keeps; none is known that fails, and the answer to one would be want of memory.
/// So would be that to a bound that has no columns or no type, as none of a model is.
pub fn open_params(alloc: Global, model: Model, command: u32) -> Result<Model, AllocError>
    requires { IsModelButTypes model }
    ensures kept { IfOk result IsModelButTypes }
    ensures opened { IfOk result (IsOpened model command) }
{
    let body = match relation_body(&model, command) {
        None => return Ok(model),
        Some(body) => body,
    };
    let types = types_of_body(alloc, &model, body)?;
    let changed = opened(alloc, model, command, body, types.as_slice())?;
    let is_kept = keeps_model(alloc, &changed)?;
    if is_kept {
        Ok(changed)
    } else {
        Err(AllocError)
    }
}
