//! Bodies are compared with the predicates and functions that the texts declare.

ghost use Rattle.std.specs.Prelude.{◌≡◌, map, IfOk, IsTrue, IfSome};
ghost use Rattle.core_tree.specs.Models.{parameters_of as parameter_columns};
ghost use Rattle.core_tree.specs.Trees.{claim_of, term_of};
ghost use Rattle.core_tree.specs.declared.model.BodyForm.TheVariants as made;
ghost use Rattle.resolve_said.specs.Locals.{under_decls};
ghost use Rattle.resolve_said.specs.Said.{standing_of, SaysSet, SaysFormula};
ghost use Rattle.resolve_told.specs.Bodies.{this_scope, scope_in, parameters_of, IsBound, IsParameter, AreParameters, IsPredicate, IsFunction, IsBody, AreBodiesTold};
ghost use Rattle.resolve_told.specs.Lists.{OneByOne};
ghost use Rattle.resolve_told.specs.Reads.{PredicateReads, FunctionReads};
ghost use Rattle.resolve_told.specs.Views.{declaration, declared};
ghost use Rattle.resolve_told_sigs.specs.Says as says;

use crate::inside::{is_formula_said, is_set_said, outside};
use crate::parameters::{Declared, all_parameters, has_receiver};
use crate::reads::{is_function_read, is_predicate_read};
use crate::receiver::{decls_of, receiver_tree};
use crate::texts::{Declaration, all_bodies};
use crate::words::{has_word, is_bound_word, same_number, same_text};
use core_tree::{Body, BodyForm, Bound, Expr, Formula, Model, Parameter};
use resolve_check::parameter_columns;
use resolve_names::Names;
use resolve_read::Readings;
use resolve_said::Site;
use resolve_told_sigs::integers_of;
use std::alloc::{AllocError, Global};
use syntax_tree::{
    Decl, Expr as Tree, Fun, Loaded, Multiplicity as Word, Paragraph, Parameters, Pred, SigName,
};

/// What bodies are compared with.
#[derive(Clone, Copy, Drop)]
struct Told<'a> {
    names: &'a Names,
    model: &'a Model,
    readings: &'a Readings,
    /// The instance of the integers that are opened implicitly.
    integers: Option<u32>,
}

/// Whether a bound says what its text says, where these names are in scope.
fn is_bound(
    alloc: Global,
    site: &Site<'_>,
    has_this: bool,
    decls: &[Decl<Tree>],
    word: Option<Word>,
    tree: &Tree,
    bound: &Bound,
) -> Result<bool, AllocError>
    ensures { IfOk result (λ b. IsTrue b → IsBound (standing_of site.now)
        (under_decls (this_scope has_this) decls.now) word tree.now bound.now) }
{
    if !has_word(word, bound.multiplicity) {
        return Ok(false);
    }
    let is_said = is_set_said(alloc, site, has_this, decls, tree, &bound.expr)?;
    Ok(is_said)
}

/// Whether a parameter of so many columns is the declared one.
fn is_parameter(
    alloc: Global,
    site: &Site<'_>,
    columns: u32,
    one: &Declared<'_>,
    parameter: &Parameter,
) -> Result<bool, AllocError>
    ensures { IfOk result (λ b. IsTrue b → IsParameter (standing_of site.now)
        columns (declared one.now) parameter.now) }
{
    if !same_text(parameter.label.text(), one.name) {
        return Ok(false);
    }
    if !same_number(parameter.apart, one.apart) {
        return Ok(false);
    }
    let bound = &parameter.bound;
    if !is_bound_word(one.word, columns, bound.multiplicity) {
        return Ok(false);
    }
    let is_said = is_set_said(
        alloc,
        site,
        one.has_this,
        one.before,
        one.bound,
        &bound.expr,
    )?;
    Ok(is_said)
}

/// Whether the parameters, of which these are the columns, are the declared ones, one by one.
fn are_parameters(
    alloc: Global,
    site: &Site<'_>,
    columns: &[u32],
    all: &[Declared<'_>],
    parameters: &[Parameter],
) -> Result<bool, AllocError>
    ensures { IfOk result (λ b. IsTrue b → AreParameters (standing_of site.now)
        columns.now (map declared all.now) parameters.now) }
{
    if all.len() != parameters.len() || all.len() != columns.len() {
        return Ok(false);
    }
    for place in 0..all.len() {
        let width = columns[place];
        let is_same = is_parameter(alloc, site, width, &all[place], &parameters[place])?;
        if !is_same {
            return Ok(false);
        }
    }
    Ok(true)
}

/// Whether the parameters, of which these are the columns, are those of a predicate or a function with this receiver and these in
/// brackets.
fn has_parameters(
    alloc: Global,
    site: &Site<'_>,
    columns: &[u32],
    receiver: &Option<SigName>,
    written: &Option<Parameters>,
    parameters: &[Parameter],
) -> Result<bool, AllocError>
    ensures { IfOk result (λ b. IsTrue b → AreParameters (standing_of site.now)
        columns.now (parameters_of receiver.now written.now) parameters.now) }
{
    let has_this = has_receiver(receiver);
    let tree = receiver_tree(alloc, receiver)?;
    let all = all_parameters(alloc, has_this, &tree, written)?;
    let are_right = are_parameters(alloc, site, columns, all.as_slice(), parameters)?;
    Ok(are_right)
}

/// Whether the parameters of a body of the model are those of a predicate or a function with this receiver and these in brackets.
fn has_all_parameters(
    alloc: Global,
    site: &Site<'_>,
    receiver: &Option<SigName>,
    written: &Option<Parameters>,
    body: &Body,
) -> Result<bool, AllocError>
    ensures { IfOk result (λ b. IsTrue b → AreParameters (standing_of site.now)
        (parameter_columns site.now.model.now body.now) (parameters_of receiver.now written.now)
        body.now.parameters) }
{
    match parameter_columns(alloc, site.model, body)? {
        // The bounds of a model have columns.
        None => Ok(false),
        Some(columns) => {
            let columns = columns.as_slice();
            let parameters = body.parameters.as_slice();
            let has_all = has_parameters(alloc, site, columns, receiver, written, parameters)?;
            Ok(has_all)
        }
    }
}

/// The formula of a predicate's body.
fn test_of(form: &BodyForm) -> Option<&Formula>
    ensures { IfSome result (λ f. form.now ≡ made.Test f.now) }
{
    match form {
        BodyForm::Test(formula) => Some(formula),
        BodyForm::Term(_, _) => None,
    }
}

/// The expression of a function's body, and the bound of its result.
#[derive(Clone, Copy, Drop)]
struct Value<'a> {
    expr: &'a Expr,
    bound: &'a Bound,
}

fn value_of(form: &BodyForm) -> Option<Value<'_>>
    ensures { IfSome result (λ v. form.now ≡ made.Term v.expr.now v.bound.now) }
{
    match form {
        BodyForm::Test(_) => None,
        BodyForm::Term(expr, bound) => Some(Value { expr, bound }),
    }
}

/// Whether a formula says what a predicate's block does.
fn is_block(
    alloc: Global,
    site: &Site<'_>,
    predicate: &Pred,
    formula: &Formula,
) -> Result<bool, AllocError>
    ensures { IfOk result (λ b. IsTrue b → SaysFormula (standing_of site.now)
        (scope_in predicate.now.receiver predicate.now.parameters) predicate.now.block
        (claim_of formula.now)) }
{
    let has_this = has_receiver(&predicate.receiver);
    let decls = decls_of(&predicate.parameters);
    let is_said = is_formula_said(alloc, site, has_this, decls, &predicate.block, formula)?;
    Ok(is_said)
}

/// Whether an expression says what stands in a function's braces.
fn is_value(alloc: Global, site: &Site<'_>, function: &Fun, expr: &Expr) -> Result<bool, AllocError>
    ensures { IfOk result (λ b. IsTrue b → SaysSet (standing_of site.now)
        (scope_in function.now.receiver function.now.parameters) function.now.value
        (term_of expr.now)) }
{
    let has_this = has_receiver(&function.receiver);
    let decls = decls_of(&function.parameters);
    let is_said = is_set_said(alloc, site, has_this, decls, &function.value, expr)?;
    Ok(is_said)
}

/// Whether a bound is that of a function's result.
fn is_result(
    alloc: Global,
    site: &Site<'_>,
    function: &Fun,
    bound: &Bound,
) -> Result<bool, AllocError>
    ensures { IfOk result (λ b. IsTrue b → IsBound (standing_of site.now)
        (scope_in function.now.receiver function.now.parameters) function.now.result.word
        function.now.result.tree bound.now) }
{
    let has_this = has_receiver(&function.receiver);
    let decls = decls_of(&function.parameters);
    let word = function.result.word;
    let is_said = is_bound(
        alloc,
        site,
        has_this,
        decls,
        word,
        &function.result.tree,
        bound,
    )?;
    Ok(is_said)
}

/// Whether a body is that of a predicate.
fn is_predicate(
    alloc: Global,
    site: &Site<'_>,
    predicate: &Pred,
    body: &Body,
) -> Result<bool, AllocError>
    requires { body.now.instance ≡ site.now.instance }
    ensures { IfOk result (λ b. IsTrue b → IsPredicate (standing_of site.now)
        site.now.model.now predicate.now body.now) }
{
    let written = &predicate.parameters;
    let has_all = has_all_parameters(alloc, site, &predicate.receiver, written, body)?;
    if !has_all {
        return Ok(false);
    }
    match test_of(&body.form) {
        None => Ok(false),
        Some(formula) => {
            let is_said = is_block(alloc, site, predicate, formula)?;
            Ok(is_said)
        }
    }
}

/// Whether a function's body says what stands in its braces, and its result's bound what stands there.
fn is_function_value(
    alloc: Global,
    site: &Site<'_>,
    function: &Fun,
    value: Value<'_>,
) -> Result<bool, AllocError>
    ensures said { IfOk result (λ b. IsTrue b → SaysSet (standing_of site.now)
        (scope_in function.now.receiver function.now.parameters) function.now.value
        (term_of value.entry.expr.now)) }
    ensures bound { IfOk result (λ b. IsTrue b → IsBound (standing_of site.now)
        (scope_in function.now.receiver function.now.parameters) function.now.result.word
        function.now.result.tree value.entry.bound.now) }
{
    let is_said = is_value(alloc, site, function, value.expr)?;
    if !is_said {
        return Ok(false);
    }
    let is_right = is_result(alloc, site, function, value.bound)?;
    Ok(is_right)
}

/// Whether a body is that of a function.
fn is_function(
    alloc: Global,
    site: &Site<'_>,
    function: &Fun,
    body: &Body,
) -> Result<bool, AllocError>
    requires { body.now.instance ≡ site.now.instance }
    ensures { IfOk result (λ b. IsTrue b → IsFunction (standing_of site.now)
        site.now.model.now function.now body.now) }
{
    let written = &function.parameters;
    let has_all = has_all_parameters(alloc, site, &function.receiver, written, body)?;
    if !has_all {
        return Ok(false);
    }
    match value_of(&body.form) {
        None => Ok(false),
        Some(value) => {
            let is_said = is_function_value(alloc, site, function, value)?;
            Ok(is_said)
        }
    }
}

/// Whether a body is that of a predicate of an instance.
fn is_predicate_said(
    alloc: Global,
    told: &Told<'_>,
    instance: u32,
    predicate: &Pred,
    body: &Body,
) -> Result<bool, AllocError>
    requires { body.now.instance ≡ instance }
    ensures { IfOk result (λ b. IsTrue b → IsPredicate (says.outside told.now.names.now.scopes
        told.now.model.now told.now.readings.now instance) told.now.model.now predicate.now
        body.now) }
{
    match outside(told.names, told.model, told.readings, instance) {
        None => Ok(false),
        Some(site) => {
            let is_said = is_predicate(alloc, &site, predicate, body)?;
            Ok(is_said)
        }
    }
}

/// Whether the body of this number is that of a predicate of an instance, whose readings are right.
fn is_predicate_of(
    alloc: Global,
    told: &Told<'_>,
    instance: u32,
    number: u32,
    predicate: &Pred,
    body: &Body,
) -> Result<bool, AllocError>
    requires { body.now.instance ≡ instance }
    ensures said { IfOk result (λ b. IsTrue b → IsPredicate (says.outside told.now.names.now.scopes
        told.now.model.now told.now.readings.now instance) told.now.model.now predicate.now
        body.now) }
    ensures read { IfOk result (λ b. IsTrue b → PredicateReads told.now.names.now.scopes
        told.now.readings.now told.now.integers instance number predicate.now) }
{
    let is_said = is_predicate_said(alloc, told, instance, predicate, body)?;
    if !is_said {
        return Ok(false);
    }
    let (names, readings, integers) = (told.names, told.readings, told.integers);
    let is_read = is_predicate_read(
        alloc, names, readings, integers, instance, number, predicate,
    )?;
    Ok(is_read)
}

/// Whether a body is that of a function of an instance.
fn is_function_said(
    alloc: Global,
    told: &Told<'_>,
    instance: u32,
    function: &Fun,
    body: &Body,
) -> Result<bool, AllocError>
    requires { body.now.instance ≡ instance }
    ensures { IfOk result (λ b. IsTrue b → IsFunction (says.outside told.now.names.now.scopes
        told.now.model.now told.now.readings.now instance) told.now.model.now function.now
        body.now) }
{
    match outside(told.names, told.model, told.readings, instance) {
        None => Ok(false),
        Some(site) => {
            let is_said = is_function(alloc, &site, function, body)?;
            Ok(is_said)
        }
    }
}

/// Whether the body of this number is that of a function of an instance, whose readings are right.
fn is_function_of(
    alloc: Global,
    told: &Told<'_>,
    instance: u32,
    number: u32,
    function: &Fun,
    body: &Body,
) -> Result<bool, AllocError>
    requires { body.now.instance ≡ instance }
    ensures said { IfOk result (λ b. IsTrue b → IsFunction (says.outside told.now.names.now.scopes
        told.now.model.now told.now.readings.now instance) told.now.model.now function.now
        body.now) }
    ensures read { IfOk result (λ b. IsTrue b → FunctionReads told.now.names.now.scopes
        told.now.readings.now told.now.integers instance number function.now) }
{
    let is_said = is_function_said(alloc, told, instance, function, body)?;
    if !is_said {
        return Ok(false);
    }
    let (names, readings, integers) = (told.names, told.readings, told.integers);
    let is_read = is_function_read(alloc, names, readings, integers, instance, number, function)?;
    Ok(is_read)
}

/// Whether the body of this number is that of a predicate or a function, whose readings are right.
fn is_body(
    alloc: Global,
    told: &Told<'_>,
    number: u32,
    written: &Declaration<'_>,
    body: &Body,
) -> Result<bool, AllocError>
    ensures { IfOk result (λ b. IsTrue b → IsBody told.now.names.now.scopes told.now.model.now
        told.now.readings.now told.now.integers number (declaration written.now) body.now) }
{
    if !same_number(body.instance, written.instance) {
        return Ok(false);
    }
    let instance = written.instance;
    match written.paragraph {
        Paragraph::Pred(predicate) => {
            let is_right = is_predicate_of(alloc, told, instance, number, predicate, body)?;
            Ok(is_right)
        }
        Paragraph::Fun(function) => {
            let is_right = is_function_of(alloc, told, instance, number, function, body)?;
            Ok(is_right)
        }
        _ => Ok(false),
    }
}

/// Whether bodies are those of these predicates and functions, one by one.
#[tactic(auto, using(crate::proofs::Walk::pair_all))]
fn are_bodies(
    alloc: Global,
    told: &Told<'_>,
    all: &[Declaration<'_>],
    bodies: &[Body],
) -> Result<bool, AllocError>
    ensures { IfOk result (λ b. IsTrue b → OneByOne (IsBody told.now.names.now.scopes
        told.now.model.now told.now.readings.now told.now.integers) (map declaration all.now)
        bodies.now) }
{
    if all.len() != bodies.len() {
        return Ok(false);
    }
    if all.len() > u32::MAX as usize {
        // There are few bodies.
        return Err(AllocError);
    }
    for place in 0..all.len() {
        let is_right = is_body(alloc, told, place as u32, &all[place], &bodies[place])?;
        if !is_right {
            return Ok(false);
        }
    }
    Ok(true)
}

/// Whether the bodies of a model are just those of the predicates and functions that the texts declare, one by one in their
/// order: with their parameters, and formulas and expressions that say what the texts say, by the readings of their roots. Of
/// their ranks nothing is asked.
pub fn are_bodies_told(
    alloc: Global,
    loaded: &Loaded,
    names: &Names,
    model: &Model,
    readings: &Readings,
) -> Result<bool, AllocError>
    ensures { IfOk result (λ b. IsTrue b → AreBodiesTold loaded.now.texts loaded.now.instances
        names.now.scopes model.now readings.now) }
{
    let all = all_bodies(alloc, loaded)?;
    let bodies = model.bodies.as_slice();
    let told = Told {
        names,
        model,
        readings,
        integers: integers_of(loaded),
    };
    let are_right = are_bodies(alloc, &told, all.as_slice(), bodies)?;
    Ok(are_right)
}
