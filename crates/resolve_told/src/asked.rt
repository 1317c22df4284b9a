//! What a command asks is compared with what its text says.

ghost use Rattle.std.specs.Prelude.{◌≡◌, ◌<◌, true, false, map, length, nat_eq, IfOk, IfSome, IsTrue, Contains};
ghost use Rattle.core_tree.specs.declared.operators.Quantity.TheVariants as quantities;
ghost use Rattle.core_tree.specs.Trees as trees;
ghost use Rattle.core_tree.specs.Trees.{claim_of, term_of, variable_of};
ghost use Rattle.resolve_names.specs.declared.table.Decl.TheVariants as named;
ghost use Rattle.resolve_names.specs.Marks.{IsMarked};
ghost use Rattle.resolve_names.specs.Visible.{last_of, path_of, Leads};
ghost use Rattle.syntax_tree.specs.declared.module.Paragraph.TheVariants as written;
ghost use Rattle.resolve_said.specs.Said.{standing_of};
ghost use Rattle.resolve_told.specs.Bodies.{parameters_of};
ghost use Rattle.resolve_told.specs.Commands.{IsOwnCall, IsVariable, RunsSome, RunsWith, RunsBody, HasName, IsCalled, Declares, IsAssertion, Asserts, Denies, AsksName, BlockAsks, AsksBlock, Asks, IsSeenBody};
ghost use Rattle.resolve_told.specs.Lists.{OneByOne};
ghost use Rattle.resolve_told_sigs.specs.Says as says;
ghost use Rattle.resolve_told_sigs.specs.Says.{SaysAlone};
ghost use Rattle.resolve_told.specs.CommandViews.{HasBodies};
ghost use Rattle.resolve_told.specs.Views.{declared};

use crate::inside::{is_set_said, outside};
use crate::parameters::{Declared, all_parameters, has_receiver};
use crate::receiver::receiver_tree;
use crate::scopes::decl_at;
use crate::texts::{Declaration, paragraphs_of};
use crate::words::{same_number, same_text};
use base_types::Name;
use core_tree::{Expr, Formula, Model, Quantity, Variable};
use resolve_names::{Decl, Names};
use resolve_read::Readings;
use resolve_said::Site;
use resolve_told_sigs::says_alone;
use std::alloc::{AllocError, Global};
use syntax_tree::{Claim, Expr as Tree, Loaded, Paragraph, Pred, QualName, Subject};

/// All that commands are compared with.
#[derive(Drop)]
pub struct Sources<'a> {
    pub loaded: &'a Loaded,
    pub names: &'a Names,
    pub model: &'a Model,
    /// What is told of the readings.
    pub readings: &'a Readings,
    /// The predicates and functions that the texts declare.
    pub bodies: &'a [Declaration<'a>],
}

/// Whether each parameter stands among these by its own name, which is its number.
#[tactic(auto, using(crate::proofs::Walk::both_all))]
fn are_arguments(all: &[Declared<'_>], given: &[Expr]) -> bool
    ensures { IsTrue result → OneByOne (λ n d t. t ≡ trees.name n) (map declared all.now)
        (map term_of given.now) }
{
    if all.len() != given.len() {
        return false;
    }
    for place in 0..all.len() {
        if !is_name(&given[place], place) {
            return false;
        }
    }
    true
}

/// Whether this is the number of that place.
fn is_number(number: u32, place: usize) -> bool
    ensures { IsTrue result → number ≡ place }
{
    number as usize == place
}

/// Whether this is the name of that number.
fn is_name(expr: &Expr, number: usize) -> bool
    ensures { IsTrue result → term_of expr.now ≡ trees.name number }
{
    match expr {
        Expr::Name(name) => is_number(*name, number),
        _ => false,
    }
}

/// A call: the number of the body, and the arguments.
#[derive(Clone, Copy, Drop)]
struct Called<'a> {
    body: u32,
    given: &'a [Expr],
}

fn call_of(formula: &Formula) -> Option<Called<'_>>
    ensures { IfSome result (λ c. claim_of formula.now
        ≡ trees.call_claim c.body (trees.term_list (map term_of c.given.now))) }
{
    match formula {
        Formula::Call(number, list) => Some(Called {
            body: *number,
            given: list.as_slice(),
        }),
        _ => None,
    }
}

/// Whether a call is one of that body, to which each parameter is given by its own name.
fn is_own(call: Called<'_>, body: u32, all: &[Declared<'_>]) -> bool
    ensures body { IsTrue result → call.entry.body ≡ body }
    ensures given { IsTrue result → OneByOne (λ n d t. t ≡ trees.name n) (map declared all.now)
        (map term_of call.entry.given.now) }
{
    if !same_number(call.body, body) {
        return false;
    }
    are_arguments(all, call.given)
}

/// Whether this is a call of a body, to which each parameter is given by its own name.
fn is_call(formula: &Formula, body: u32, all: &[Declared<'_>]) -> bool
    ensures { IsTrue result → IsOwnCall body (map declared all.now) (claim_of formula.now) }
{
    match call_of(formula) {
        None => false,
        Some(call) => is_own(call, body, all),
    }
}

/// Whether a variable is one for the declared parameter of this number.
fn is_variable(
    alloc: Global,
    site: &Site<'_>,
    number: usize,
    one: &Declared<'_>,
    variable: &Variable,
) -> Result<bool, AllocError>
    ensures { IfOk result (λ b. IsTrue b → IsVariable (standing_of site.now) number
        (declared one.now) (variable_of variable.now)) }
{
    if !is_number(variable.name, number) {
        return Ok(false);
    }
    if !same_number(variable.apart, one.apart) {
        return Ok(false);
    }
    let bound = &variable.bound;
    let is_said = is_set_said(alloc, site, one.has_this, one.before, one.bound, bound)?;
    Ok(is_said)
}

/// Whether the variables are those for the declared parameters.
#[tactic(auto, using(crate::proofs::Walk::both_all))]
fn are_variables(
    alloc: Global,
    site: &Site<'_>,
    all: &[Declared<'_>],
    variables: &[Variable],
) -> Result<bool, AllocError>
    ensures { IfOk result (λ b. IsTrue b → OneByOne (IsVariable (standing_of site.now))
        (map declared all.now) (map variable_of variables.now)) }
{
    if all.len() != variables.len() {
        return Ok(false);
    }
    for place in 0..all.len() {
        let is_right = is_variable(alloc, site, place, &all[place], &variables[place])?;
        if !is_right {
            return Ok(false);
        }
    }
    Ok(true)
}

/// Variables of which it is said how many values there are for which something holds.
#[derive(Clone, Copy, Drop)]
struct Existing<'a> {
    quantity: Quantity,
    variables: &'a [Variable],
    inner: &'a Formula,
}

fn existing_of(formula: &Formula) -> Option<Existing<'_>>
    ensures { IfSome result (λ e. claim_of formula.now ≡ trees.counted e.quantity
        (trees.variable_list (map variable_of e.variables.now)) (claim_of e.inner.now)) }
{
    match formula {
        Formula::Counted(quantity, list, inner) => Some(Existing {
            quantity: *quantity,
            variables: list.as_slice(),
            inner: &**inner,
        }),
        _ => None,
    }
}

/// Whether it is said that there are some.
fn is_some(quantity: Quantity) -> bool
    ensures { IsTrue result → quantity ≡ quantities.Some }
{
    matches!(quantity, Quantity::Some)
}

/// Whether variables are those for these parameters, and what is said of them that a body holds.
fn runs_existing(
    alloc: Global,
    site: &Site<'_>,
    body: u32,
    all: &[Declared<'_>],
    existing: Existing<'_>,
) -> Result<bool, AllocError>
    ensures some { IfOk result (λ b. IsTrue b → existing.entry.quantity ≡ quantities.Some) }
    ensures call { IfOk result (λ b. IsTrue b → IsOwnCall body (map declared all.now)
        (claim_of existing.entry.inner.now)) }
    ensures variables { IfOk result (λ b. IsTrue b → OneByOne (IsVariable (standing_of site.now))
        (map declared all.now) (map variable_of existing.entry.variables.now)) }
{
    if !is_some(existing.quantity) {
        return Ok(false);
    }
    if !is_call(existing.inner, body, all) {
        return Ok(false);
    }
    let are_right = are_variables(alloc, site, all, existing.variables)?;
    Ok(are_right)
}

/// Whether a formula says that there are values of these parameters for which a body holds.
fn runs_some(
    alloc: Global,
    site: &Site<'_>,
    body: u32,
    all: &[Declared<'_>],
    formula: &Formula,
) -> Result<bool, AllocError>
    ensures { IfOk result (λ b. IsTrue b → RunsSome (standing_of site.now) body
        (map declared all.now) (claim_of formula.now)) }
{
    match existing_of(formula) {
        None => Ok(false),
        Some(existing) => {
            let is_right = runs_existing(alloc, site, body, all, existing)?;
            Ok(is_right)
        }
    }
}

/// Whether there are no parameters.
fn is_none(all: &[Declared<'_>]) -> bool
    ensures { result ≡ nat_eq (length all.now) 0 }
{
    all.len() == 0
}

/// The same, where there may be no parameters.
fn runs_with(
    alloc: Global,
    site: &Site<'_>,
    body: u32,
    all: &[Declared<'_>],
    formula: &Formula,
) -> Result<bool, AllocError>
    ensures { IfOk result (λ b. IsTrue b → RunsWith (standing_of site.now) body
        (map declared all.now) (claim_of formula.now)) }
{
    if is_none(all) {
        let is_right = is_call(formula, body, all);
        return Ok(is_right);
    }
    let is_right = runs_some(alloc, site, body, all, formula)?;
    Ok(is_right)
}

/// Whether a formula says that a predicate holds for some values of its parameters.
fn runs_predicate(
    alloc: Global,
    site: &Site<'_>,
    body: u32,
    predicate: &Pred,
    formula: &Formula,
) -> Result<bool, AllocError>
    ensures { IfOk result (λ b. IsTrue b → RunsWith (standing_of site.now) body
        (parameters_of predicate.now.receiver predicate.now.parameters)
        (claim_of formula.now)) }
{
    let has_this = has_receiver(&predicate.receiver);
    let tree = receiver_tree(alloc, &predicate.receiver)?;
    let all = all_parameters(alloc, has_this, &tree, &predicate.parameters)?;
    let is_right = runs_with(alloc, site, body, all.as_slice(), formula)?;
    Ok(is_right)
}

/// Whether one of the declarations is the body of this number.
fn has_body(decls: &[Decl], body: u32) -> bool
    ensures { IsTrue result → Contains decls.now (named.Body body) }
{
    for place in 0..decls.len() {
        let decl = decl_at(decls, place);
        if is_body(decl, body) {
            return true;
        }
    }
    false
}

fn is_body(decl: Decl, body: u32) -> bool
    ensures { IsTrue result → decl ≡ named.Body body }
{
    match decl {
        Decl::Body(number) => number == body,
        _ => false,
    }
}

/// Whether a name of the root stands for the body of this number.
fn names_body(alloc: Global, names: &Names, name: &QualName, body: u32) -> Result<bool, AllocError>
    ensures { IfOk result (λ b. IsTrue b → IsSeenBody names.now.scopes name.now body) }
{
    if names.scopes.len() == 0 {
        // There is a root.
        return Err(AllocError);
    }
    let decls = names.candidates(alloc, 0, name)?;
    Ok(has_body(decls.as_slice(), body))
}

/// The predicate of a declaration.
fn predicate_of<'a>(paragraph: &'a Paragraph) -> Option<&'a Pred>
    ensures { IfSome result (λ p. paragraph.now ≡ written.Pred p.now) }
{
    match paragraph {
        Paragraph::Pred(predicate) => Some(predicate),
        _ => None,
    }
}

/// Whether a formula says that this predicate of an instance, which is the body of this number, holds for some values of its
/// parameters.
fn runs_declared(
    alloc: Global,
    sources: &Sources<'_>,
    instance: u32,
    body: u32,
    predicate: &Pred,
    formula: &Formula,
) -> Result<bool, AllocError>
    ensures { IfOk result (λ b. IsTrue b → RunsWith (says.outside sources.now.names.now.scopes
        sources.now.model.now sources.now.readings.now instance) body
        (parameters_of predicate.now.receiver predicate.now.parameters)
        (claim_of formula.now)) }
{
    match outside(sources.names, sources.model, sources.readings, instance) {
        None => Ok(false),
        Some(site) => {
            let is_right = runs_predicate(alloc, &site, body, predicate, formula)?;
            Ok(is_right)
        }
    }
}

/// Whether a formula runs the predicate that is the body of this number.
fn runs_body(
    alloc: Global,
    sources: &Sources<'_>,
    body: u32,
    formula: &Formula,
) -> Result<bool, AllocError>
    requires { HasBodies sources.now }
    ensures { IfOk result (λ b. IsTrue b → RunsBody sources.now.loaded.now.texts
        sources.now.loaded.now.instances sources.now.names.now.scopes sources.now.model.now
        sources.now.readings.now body (claim_of formula.now)) }
{
    let place = body as usize;
    if place >= sources.bodies.len() {
        return Ok(false);
    }
    let one = sources.bodies[place];
    match predicate_of(one.paragraph) {
        None => Ok(false),
        Some(predicate) => {
            let instance = one.instance;
            let is_right = runs_declared(alloc, sources, instance, body, predicate, formula)?;
            Ok(is_right)
        }
    }
}

/// Whether a name stands for the body of this number, and a formula runs it.
fn runs_named(
    alloc: Global,
    sources: &Sources<'_>,
    name: &QualName,
    body: u32,
    formula: &Formula,
) -> Result<bool, AllocError>
    requires { HasBodies sources.now }
    ensures named { IfOk result (λ b. IsTrue b → IsSeenBody sources.now.names.now.scopes name.now
        body) }
    ensures runs { IfOk result (λ b. IsTrue b → RunsBody sources.now.loaded.now.texts
        sources.now.loaded.now.instances sources.now.names.now.scopes sources.now.model.now
        sources.now.readings.now body (claim_of formula.now)) }
{
    let is_named = names_body(alloc, sources.names, name, body)?;
    if !is_named {
        return Ok(false);
    }
    let is_right = runs_body(alloc, sources, body, formula)?;
    Ok(is_right)
}

/// Whether a formula runs a predicate that the name stands for, and that is this body.
fn runs(
    alloc: Global,
    sources: &Sources<'_>,
    name: &QualName,
    body: Option<u32>,
    formula: &Formula,
) -> Result<bool, AllocError>
    requires { HasBodies sources.now }
    ensures { IfOk result (λ b. IsTrue b → AsksName sources.now.loaded.now.texts
        sources.now.loaded.now.instances sources.now.names.now.scopes sources.now.model.now
        sources.now.readings.now false name.now body (claim_of formula.now)) }
{
    match body {
        None => Ok(false),
        Some(body) => {
            let is_right = runs_named(alloc, sources, name, body, formula)?;
            Ok(is_right)
        }
    }
}

/// The last part of a name.
fn last_part(parts: &[Name]) -> &str
    ensures { result.now ≡ last_of parts.now }
{
    if parts.is_empty() {
        return "";
    }
    parts[parts.len() - 1].text()
}

/// Whether a block has that name.
fn is_called(claim: &Claim, text: &str) -> bool
    ensures { IsTrue result → HasName claim.now text.now }
{
    match &claim.name {
        None => false,
        Some(label) => same_text(label.name.text(), text),
    }
}

/// The assertion that this is, where it has the name.
fn assertion_of<'a>(paragraph: &'a Paragraph, text: &str) -> Option<&'a Claim>
    ensures { IfSome result (λ a. IsCalled text.now paragraph.now a.now) }
{
    match paragraph {
        Paragraph::Assert(claim) => {
            if !is_called(claim, text) {
                return None;
            }
            Some(claim)
        }
        _ => None,
    }
}

/// The assertion of that name among paragraphs.
fn assertion_in<'a>(paragraphs: &'a [Paragraph], text: &str) -> Option<&'a Claim>
    ensures { IfSome result (λ a. Declares paragraphs.now text.now a.now) }
{
    for paragraph in paragraphs {
        match assertion_of(paragraph, text) {
            None => {}
            Some(claim) => return Some(claim),
        }
    }
    None
}

/// An assertion of the model.
#[derive(Clone, Copy, Drop)]
struct Found<'a> {
    instance: u32,
    claim: &'a Claim,
}

fn is_marked(marks: &[bool], instance: usize) -> bool
    ensures { IsTrue result → IsMarked marks.now instance }
{
    if instance >= marks.len() {
        return false;
    }
    marks[instance]
}

/// The assertion of that name in a marked instance.
fn assertion_at<'a>(
    loaded: &'a Loaded,
    marks: &[bool],
    number: usize,
    text: &str,
) -> Result<Option<&'a Claim>, AllocError>
    requires { number < length loaded.now.instances }
    ensures marked { IfOk result (λ o. IfSome o (λ a. IsMarked marks.now number)) }
    ensures there { IfOk result (λ o. IfSome o (λ a. IsAssertion loaded.now.texts
        loaded.now.instances number text.now a.now)) }
{
    if !is_marked(marks, number) {
        return Ok(None);
    }
    let instance = loaded.instances.get(number);
    let paragraphs = paragraphs_of(&loaded.texts, instance)?;
    match assertion_in(paragraphs, text) {
        None => Ok(None),
        Some(claim) => Ok(Some(claim)),
    }
}

/// The first assertion of that name in the marked instances.
fn first_assertion<'a>(
    loaded: &'a Loaded,
    marks: &[bool],
    text: &str,
) -> Result<Option<Found<'a>>, AllocError>
    ensures marked { IfOk result (λ o. IfSome o (λ f. IsMarked marks.now f.instance)) }
    ensures there { IfOk result (λ o. IfSome o (λ f. IsAssertion loaded.now.texts
        loaded.now.instances f.instance text.now f.claim.now)) }
{
    let count = loaded.instances.len();
    if count > u32::MAX as usize {
        // There are few instances.
        return Err(AllocError);
    }
    for number in 0..count {
        let found = assertion_at(loaded, marks, number, text)?;
        match found {
            None => {}
            Some(claim) => {
                return Ok(Some(Found {
                    instance: number as u32,
                    claim,
                }));
            }
        }
    }
    Ok(None)
}

/// The assertion that a name of the root stands for.
fn named_assertion<'a>(
    alloc: Global,
    loaded: &'a Loaded,
    names: &Names,
    name: &QualName,
) -> Result<Option<Found<'a>>, AllocError>
    ensures led { IfOk result (λ o. IfSome o (λ f. Leads names.now.scopes 0 name.now.is_own
        (path_of name.now.parts) f.instance)) }
    ensures there { IfOk result (λ o. IfSome o (λ f. IsAssertion loaded.now.texts
        loaded.now.instances f.instance (last_of name.now.parts) f.claim.now)) }
{
    if names.scopes.len() == 0 {
        // There is a root.
        return Err(AllocError);
    }
    let marks = names.instances_of(alloc, 0, name)?;
    let text = last_part(name.parts.as_slice());
    let found = first_assertion(loaded, marks.as_slice(), text)?;
    Ok(found)
}

/// Whether a formula says what the block of an assertion does that the name stands for.
fn asserts(
    alloc: Global,
    sources: &Sources<'_>,
    name: &QualName,
    formula: &Formula,
) -> Result<bool, AllocError>
    ensures { IfOk result (λ b. IsTrue b → Asserts sources.now.loaded.now.texts
        sources.now.loaded.now.instances sources.now.names.now.scopes sources.now.model.now
        sources.now.readings.now name.now (claim_of formula.now)) }
{
    let found = named_assertion(alloc, sources.loaded, sources.names, name)?;
    match found {
        None => Ok(false),
        Some(one) => {
            let block = &one.claim.block;
            let is_said = says_block(alloc, sources, one.instance, block, formula)?;
            Ok(is_said)
        }
    }
}

/// Whether a formula says what a block of an instance does, where no name is in scope.
fn says_block(
    alloc: Global,
    sources: &Sources<'_>,
    instance: u32,
    block: &Tree,
    formula: &Formula,
) -> Result<bool, AllocError>
    ensures { IfOk result (λ b. IsTrue b → SaysAlone sources.now.names.now.scopes
        sources.now.model.now sources.now.readings.now instance block.now (claim_of formula.now)) }
{
    let (names, model) = (sources.names, sources.model);
    let is_said = says_alone(
        alloc,
        names,
        model,
        sources.readings,
        instance,
        block,
        formula,
    )?;
    Ok(is_said)
}

/// What a formula denies.
fn denied_by(formula: &Formula) -> Option<&Formula>
    ensures { IfSome result (λ f. claim_of formula.now ≡ trees.negation (claim_of f.now)) }
{
    match formula {
        Formula::Not(inner) => Some(&**inner),
        _ => None,
    }
}

/// Whether a formula denies an assertion that the name stands for.
fn checks(
    alloc: Global,
    sources: &Sources<'_>,
    name: &QualName,
    formula: &Formula,
) -> Result<bool, AllocError>
    ensures { IfOk result (λ b. IsTrue b → Denies (Asserts sources.now.loaded.now.texts
        sources.now.loaded.now.instances sources.now.names.now.scopes sources.now.model.now
        sources.now.readings.now name.now) (claim_of formula.now)) }
{
    match denied_by(formula) {
        None => Ok(false),
        Some(inner) => {
            let is_right = asserts(alloc, sources, name, inner)?;
            Ok(is_right)
        }
    }
}

/// Whether a formula denies what a block of the root says.
fn denies_block(
    alloc: Global,
    sources: &Sources<'_>,
    block: &Tree,
    formula: &Formula,
) -> Result<bool, AllocError>
    ensures { IfOk result (λ b. IsTrue b → Denies (SaysAlone sources.now.names.now.scopes
        sources.now.model.now sources.now.readings.now 0 block.now) (claim_of formula.now)) }
{
    match denied_by(formula) {
        None => Ok(false),
        Some(inner) => {
            let is_right = says_block(alloc, sources, 0, block, inner)?;
            Ok(is_right)
        }
    }
}

/// Whether a formula denies an assertion that the name stands for, and no body is run.
fn checks_alone(
    alloc: Global,
    sources: &Sources<'_>,
    name: &QualName,
    body: Option<u32>,
    formula: &Formula,
) -> Result<bool, AllocError>
    ensures { IfOk result (λ b. IsTrue b → AsksName sources.now.loaded.now.texts
        sources.now.loaded.now.instances sources.now.names.now.scopes sources.now.model.now
        sources.now.readings.now true name.now body (claim_of formula.now)) }
{
    match body {
        Some(_) => Ok(false),
        None => {
            let is_right = checks(alloc, sources, name, formula)?;
            Ok(is_right)
        }
    }
}

/// Whether a formula is what a name behind `run` or `check` asks.
fn asks_name(
    alloc: Global,
    sources: &Sources<'_>,
    is_check: bool,
    name: &QualName,
    body: Option<u32>,
    formula: &Formula,
) -> Result<bool, AllocError>
    requires { HasBodies sources.now }
    ensures { IfOk result (λ b. IsTrue b → AsksName sources.now.loaded.now.texts
        sources.now.loaded.now.instances sources.now.names.now.scopes sources.now.model.now
        sources.now.readings.now is_check name.now body (claim_of formula.now)) }
{
    if is_check {
        let is_right = checks_alone(alloc, sources, name, body, formula)?;
        return Ok(is_right);
    }
    let is_right = runs(alloc, sources, name, body, formula)?;
    Ok(is_right)
}

/// Whether a formula says what a block behind `run` does, or denies what one behind `check` says.
fn block_asks(
    alloc: Global,
    sources: &Sources<'_>,
    is_check: bool,
    block: &Tree,
    formula: &Formula,
) -> Result<bool, AllocError>
    ensures { IfOk result (λ b. IsTrue b → BlockAsks sources.now.loaded.now.texts
        sources.now.loaded.now.instances sources.now.names.now.scopes sources.now.model.now
        sources.now.readings.now is_check block.now (claim_of formula.now)) }
{
    if is_check {
        let is_right = denies_block(alloc, sources, block, formula)?;
        return Ok(is_right);
    }
    let is_right = says_block(alloc, sources, 0, block, formula)?;
    Ok(is_right)
}

/// Whether a formula is what a block behind `run` or `check` asks, and no body is run.
fn asks_block(
    alloc: Global,
    sources: &Sources<'_>,
    is_check: bool,
    block: &Tree,
    body: Option<u32>,
    formula: &Formula,
) -> Result<bool, AllocError>
    ensures { IfOk result (λ b. IsTrue b → AsksBlock sources.now.loaded.now.texts
        sources.now.loaded.now.instances sources.now.names.now.scopes sources.now.model.now
        sources.now.readings.now is_check block.now body (claim_of formula.now)) }
{
    match body {
        Some(_) => Ok(false),
        None => {
            let is_right = block_asks(alloc, sources, is_check, block, formula)?;
            Ok(is_right)
        }
    }
}

/// Whether a formula is what a command asks, and this the body that it runs.
pub fn asks(
    alloc: Global,
    sources: &Sources<'_>,
    is_check: bool,
    subject: &Subject,
    body: Option<u32>,
    formula: &Formula,
) -> Result<bool, AllocError>
    requires { HasBodies sources.now }
    ensures { IfOk result (λ b. IsTrue b → Asks sources.now.loaded.now.texts
        sources.now.loaded.now.instances sources.now.names.now.scopes sources.now.model.now
        sources.now.readings.now is_check subject.now body (claim_of formula.now)) }
{
    match subject {
        Subject::Name(name) => {
            let is_right = asks_name(alloc, sources, is_check, name, body, formula)?;
            Ok(is_right)
        }
        Subject::Block(block) => {
            let is_right = asks_block(alloc, sources, is_check, block, body, formula)?;
            Ok(is_right)
        }
        Subject::Labelled(_, block) => {
            let is_right = asks_block(alloc, sources, is_check, block, body, formula)?;
            Ok(is_right)
        }
    }
}
