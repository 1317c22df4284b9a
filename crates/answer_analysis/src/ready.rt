//! A model made ready for a command: its scopes, bounds and labels, and for a search the target.

ghost use Rattle.std.specs.Prelude.{◌≡◌, ◌<◌, ◌≤◌, ℕ, map, All, Some, IfOk, IfErr, IfSome, length, slice_get};
ghost use Rattle.bound_uppers.specs.declared.table.Bound.{Bound};
ghost use Rattle.bound_uppers.specs.Table.{IsTable, are_fixed};
ghost use Rattle.bound_owners.specs.Own.{HasOrigins};
ghost use Rattle.bound_uppers.specs.Uppers.{AreUppers};
ghost use Rattle.bound_uppers.specs.Counts.{IsSmall};
ghost use Rattle.core_meaning.specs.Kept.{universe_size};
ghost use Rattle.answer_analysis.specs.Found.{IsLoadedFault, IsModelIn, IsPrepared, IsReady};
ghost use Rattle.core_laws.specs.Typed.{ExtendsPlain};
ghost use Rattle.core_tree.specs.Models.{IsModel};
ghost use Rattle.resolve_check.specs.Kept.{IsModelButTypes};
ghost use Rattle.resolve_told.specs.Texts.{IsOfTexts};
ghost use Rattle.bound_scopes.specs.Limits.{AreScopes};
ghost use Rattle.bound_definitions.specs.Numbers.{AreScopesBy};
ghost use Rattle.bound_definitions.specs.Refusals.{AreKept, Breaks, command_rules};
ghost use Rattle.bound_scopes.specs.Numbers.{IsListed};
ghost use Rattle.answer_trace.specs.Made.{AreRelationsOf, relation_labels_of, universe_texts};
ghost use Rattle.answer_laws.specs.Form.{HaveLassos};

use crate::fault::{AnalyseFault, refused_in};
use answer_checks::{extends_plain, has_universe, have_lassos, is_typed_model, places_fields};
use answer_trace::{Labels, make_labels};
use base_types::Fault;
use bound_scopes::scopes;
use bound_uppers::{Bounds, bounds};
use core_meaning::{Scopes, Target};
use core_tree::{Command, Model};
use form_skolem::open_params;
use form_target::target_of;
use resolve_model::{Resolved, resolve_with};
use resolve_read::Readings;
use resolve_told::is_of_texts;
use std::alloc::{AllocError, Global};
use syntax_tree::Loaded;

/// A model and a command, made ready for a trace to be read or judged.
#[derive(Drop)]
pub struct Ready {
    pub loaded: Loaded,
    pub model: Model,
    /// The types of all declarations, and what the names of the texts are taken to stand for.
    pub readings: Readings,
    /// The number of the command.
    pub command: u32,
    pub scopes: Scopes,
    pub bounds: Bounds,
    pub labels: Labels,
}

/// The same made ready for a search.
#[derive(Drop)]
pub struct Prepared {
    pub ready: Ready,
    pub target: Target,
    /// How many formulas of the target say what the declarations do; those of the facts follow.
    pub first_fact: u32,
}

/// The model of what is loaded, and what is told of its readings.
fn model_of(alloc: Global, loaded: &Loaded, command: u32) -> Result<Resolved, AnalyseFault>
    ensures kept { IfOk result (λ resolved. IsModelButTypes resolved.model) }
    ensures fault { IfErr result (IsLoadedFault loaded.now command) }
{
    match resolve_with(alloc, loaded) {
        Ok(resolved) => Ok(resolved),
        Err(Fault::Refused(refusal)) => Err(refused_in(alloc, loaded, command, refusal)),
        Err(Fault::Memory) => Err(AnalyseFault::Memory),
    }
}

/// The model, where it says what the loaded texts do. It is tested on the model itself: no resolved model is known that doesn't.
fn told(alloc: Global, loaded: &Loaded, resolved: Resolved) -> Result<Resolved, AllocError>
    ensures told { IfOk result (λ r. IsOfTexts loaded.now r.model r.readings) }
    ensures same { IfOk result (λ r. r ≡ resolved) }
{
    let is_told = is_of_texts(alloc, loaded, &resolved.model, &resolved.readings)?;
    if is_told {
        Ok(resolved)
    } else {
        Err(AllocError)
    }
}

/// The model, where the types of its fields are those of their declarations too, and no sig of it extends an `in` sig. It is
/// tested on the model itself: no resolved model is known that is not so.
fn kept(alloc: Global, model: Model) -> Result<Model, AllocError>
    requires { IsModelButTypes model }
    ensures kept { IfOk result IsModel }
    ensures plain { IfOk result (λ m. ExtendsPlain m.sigs) }
    ensures same { IfOk result (λ m. m ≡ model) }
{
    let is_kept = is_typed_model(alloc, &model)?;
    if !is_kept {
        return Err(AllocError);
    }
    if extends_plain(&model.sigs) {
        Ok(model)
    } else {
        Err(AllocError)
    }
}

/// The scopes of a command of the model.
fn scopes_of(
    alloc: Global,
    loaded: &Loaded,
    model: &Model,
    command: u32,
) -> Result<Scopes, AnalyseFault>
    requires { IsModelIn loaded.now command model.now }
    ensures scopes { IfOk result (λ s. AreScopes model.now s) }
    ensures by { IfOk result (λ s. IfSome (slice_get model.now.commands command)
        (λ c. AreScopesBy model.now c s)) }
    ensures listed { IfSome (slice_get model.now.commands command)
        (λ c. IfOk result (λ s. All (IsListed s.numbers) c.scope)) }
    ensures unbroken { IfSome (slice_get model.now.commands command)
        (λ c. IfOk result (λ s. AreKept (Breaks model.now c s) command_rules)) }
    ensures fault { IfErr result (IsLoadedFault loaded.now command) }
{
    match scopes(alloc, model, command) {
        Ok(scopes) => Ok(scopes),
        Err(Fault::Refused(refusal)) => Err(refused_in(alloc, loaded, command, refusal)),
        Err(Fault::Memory) => Err(AnalyseFault::Memory),
    }
}

/// The upper bounds of the model's relations, for its command of this number.
fn bounds_of(
    alloc: Global,
    loaded: &Loaded,
    model: &Model,
    scopes: &Scopes,
    command: u32,
    chosen: &Command,
) -> Result<Bounds, AnalyseFault>
    requires model { IsModelIn loaded.now command model.now }
    requires chosen { slice_get model.now.commands command ≡ Some chosen.now }
    requires by { AreScopesBy model.now chosen.now scopes.now }
    requires unbroken { AreKept (Breaks model.now chosen.now scopes.now) command_rules }
    ensures table { IfOk result IsTable }
    ensures most { IfOk result (λ b. universe_size scopes.now ≤ 16384) }
    ensures origins { IfOk result (λ b. HasOrigins model.now.sigs) }
    ensures uppers { IfOk result (λ b. AreUppers model.now scopes.now b.relations) }
    ensures fixed { IfOk result (λ b. map (λ (c : Bound). c.fixed) b.relations
        ≡ are_fixed model.now) }
    ensures states { IfOk result (λ b. 0 < scopes.now.states → b.states ≡ scopes.now.states) }
    ensures fits { IfOk result (λ b. IsSmall model.now scopes.now) }
    ensures fault { IfErr result (IsLoadedFault loaded.now command) }
{
    match bounds(alloc, model, scopes, chosen.keyword) {
        Ok(bounds) => Ok(bounds),
        // The one rule on bounds, which is broken at the command.
        Err(Fault::Refused(refusal)) => Err(refused_in(alloc, loaded, command, refusal)),
        Err(Fault::Memory) => Err(AnalyseFault::Memory),
    }
}

/// The labels of the model's relations and atoms, which are tested: each text under them is that of one lasso, and there is an
/// atom for each number of the universe. No labels of a model are known that are not so.
fn labels_of(alloc: Global, model: &Model, scopes: &Scopes) -> Result<Labels, AllocError>
    ensures relations { IfOk result (λ labels. AreRelationsOf model.now labels) }
    ensures labels { IfOk result (λ labels. labels.relations
        ≡ relation_labels_of model.now scopes.now) }
    ensures atoms { IfOk result (λ labels. labels.atoms ≡ universe_texts model.now scopes.now) }
    ensures counted { IfOk result (λ labels. length scopes.now.numbers ≡ length model.now.sigs) }
    ensures read { IfOk result HaveLassos }
    ensures universe { IfOk result (λ labels. length labels.atoms ≡ universe_size scopes.now) }
{
    let relations = model.sigs.len().saturating_add(model.fields.len());
    let known = scopes.numbers.len();
    let sigs = model.sigs.len();
    if relations > u32::MAX as usize || known != sigs {
        return Err(AllocError);
    }
    if scopes.bits < 1 || scopes.bits > 12 {
        return Err(AllocError);
    }
    let labels = make_labels(alloc, model, scopes)?;
    let have = have_lassos(alloc, &labels)?;
    if !have {
        return Err(AllocError);
    }
    if !has_universe(&labels, scopes) {
        return Err(AllocError);
    }
    Ok(labels)
}

/// Resolves and bounds a loaded model. The model keeps what resolved models keep.
///
/// A refusal is the first broken rule: on names, sigs, fields and readings, then of the command
/// and its scopes, with the name of the text that has its place.
pub fn ready_loaded(alloc: Global, loaded: Loaded, command: u32) -> Result<Ready, AnalyseFault>
    ensures kept { IfOk result (λ ready. IsModel ready.model) }
    ensures loaded { IfOk result (λ ready. ready.loaded ≡ loaded) }
    ensures ready { IfOk result (IsReady command) }
    ensures fault { IfErr result (IsLoadedFault loaded command) }
{
    let resolved = model_of(alloc, &loaded, command)?;
    let told = told(alloc, &loaded, resolved)?;
    let Resolved {
        model: plain,
        readings,
    } = told;
    let opened = open_params(alloc, plain, command)?;
    let model = kept(alloc, opened)?;
    let scopes = scopes_of(alloc, &loaded, &model, command)?;
    if command as usize >= model.commands.len() {
        // The scopes are refused then.
        return Err(AnalyseFault::Memory);
    }
    let chosen = model.commands.get(command as usize);
    let placed = places_fields(alloc, &model, &chosen.formula)?;
    if !placed {
        return Err(AnalyseFault::Memory);
    }
    let bounds = bounds_of(alloc, &loaded, &model, &scopes, command, chosen)?;
    let labels = labels_of(alloc, &model, &scopes)?;
    Ok(Ready {
        loaded,
        model,
        readings,
        command,
        scopes,
        bounds,
        labels,
    })
}

/// The same with the target of its command: the model's formulas, written in the kernel of the language.
pub fn with_target(alloc: Global, ready: Ready) -> Result<Prepared, AllocError>
    ensures same { IfOk result (λ prepared. prepared.ready ≡ ready) }
    ensures prepared { (number : ℕ) → IsReady number ready → IfOk result (IsPrepared number) }
{
    let model = &ready.model;
    if ready.command as usize >= model.commands.len() {
        // The command is one of the model's.
        return Err(AllocError);
    }
    let chosen = model.commands.get(ready.command as usize);
    let (target, first_fact) = target_of(alloc, model, &ready.scopes, chosen)?;
    Ok(Prepared {
        ready,
        target,
        first_fact,
    })
}

/// A loaded model, made ready for a search for its command of this number. Refused as [`ready_loaded`] is.
pub fn prepare_loaded(alloc: Global, loaded: Loaded, command: u32) -> Result<Prepared, AnalyseFault>
    ensures loaded { IfOk result (λ prepared. prepared.ready.loaded ≡ loaded) }
    ensures prepared { IfOk result (IsPrepared command) }
    ensures fault { IfErr result (IsLoadedFault loaded command) }
{
    let ready = ready_loaded(alloc, loaded, command)?;
    let prepared = with_target(alloc, ready)?;
    Ok(prepared)
}
