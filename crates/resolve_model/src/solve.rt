//! Makes the model of all loaded texts, or gives the broken rule that counts first.

ghost use Rattle.std.specs.Prelude.{IfOk, IfErr, OnOk};
ghost use Rattle.resolve_check.specs.Kept.{IsModelButTypes};
ghost use Rattle.resolve_model.specs.Refused.{IsFault};
ghost use Rattle.resolve_names.specs.Twice.{HasNoneTwice};

use crate::readings::readings_of;
use crate::refused::refused;
use base_types::Fault;
use core_tree::{Body, Bound, CommandList, Formula, Model};
use resolve_check::keeps_model;
use resolve_expr::faults::{Broken, Noted};
use resolve_expr::known::first_known;
use resolve_expr::state::State;
use resolve_hierarchy::{Hierarchy, hierarchy};
use resolve_names::{Names, names};
use resolve_paragraphs::{
    Claims, Edge, Ranks, Sources, all_appended, all_vars, call_ranks, literals, model_bodies,
    model_claims, model_commands, model_fields, model_sigs, ranked, settle_fields, type_bodies,
};
use resolve_read::Readings;
use std::alloc::{AllocError, Global};
use syntax_tree::Loaded;

/// A resolved model, and what is told of the readings beside it.
#[derive(Drop)]
pub struct Resolved {
    pub model: Model,
    pub readings: Readings,
}

pub fn new_state(alloc: Global) -> State {
    State {
        locals: Vec::new(alloc),
        least: None,
        calls: Vec::new(alloc),
        picks: Vec::new(alloc),
    }
}

/// The broken rule of a call on a cycle of calls.
fn recursive(call: &Edge) -> Noted {
    Noted {
        instance: call.instance,
        place: call.place,
        broken: Broken::RecursiveCall,
    }
}

/// What the roots become, each replaced by its reading.
#[derive(Drop)]
struct Parts {
    bounds: Vec<Option<Bound>>,
    appended: Vec<Option<Formula>>,
    claims: Claims,
    bodies: Vec<Body>,
    commands: CommandList,
    /// The calls in the bodies.
    calls: Vec<Edge>,
}

/// The roots of all texts, each replaced by its reading; the first broken rule is noted.
fn all_parts(
    alloc: Global,
    sources: &Sources<'_>,
    bounds: Vec<Option<Bound>>,
    state: &mut State,
) -> Result<Parts, AllocError> {
    let appended = all_appended(alloc, sources, state)?;
    let claims = model_claims(alloc, sources, state)?;
    let mut calls = Vec::new(alloc);
    let bodies = model_bodies(
        alloc,
        sources.loaded,
        sources.names,
        sources.hierarchy,
        sources.known,
        state,
        &mut calls,
    )?;
    let commands = model_commands(
        alloc,
        sources,
        state,
        claims.asserts.as_slice(),
        bodies.as_slice(),
    )?;
    Ok(Parts {
        bounds,
        appended,
        claims,
        bodies,
        commands,
        calls,
    })
}

/// The model with its readings, or the broken rule that counts first.
fn modelled(
    alloc: Global,
    loaded: &Loaded,
    names: &Names,
    hierarchy: &Hierarchy,
) -> Result<Result<Resolved, Noted>, AllocError> {
    let literals = literals(alloc, loaded)?;
    let mut known = first_known(alloc, loaded, names, hierarchy, literals)?;
    let mut state = new_state(alloc);
    let bounds = settle_fields(alloc, loaded, names, hierarchy, &mut known, &mut state)?;
    type_bodies(alloc, loaded, names, hierarchy, &mut known, &mut state)?;
    let sources = Sources {
        loaded,
        names,
        hierarchy,
        known: &known,
    };
    let parts = all_parts(alloc, &sources, bounds, &mut state)?;
    if let Some(noted) = state.least {
        return Ok(Err(noted));
    }
    match ordered(alloc, &sources, parts)? {
        Err(noted) => Ok(Err(noted)),
        Ok(model) => {
            let picks = state.picks.as_slice();
            let readings = readings_of(alloc, names, hierarchy, known, picks)?;
            Ok(Ok(Resolved { model, readings }))
        }
    }
}

/// The model once no rule on names and readings is broken; or a call on a cycle of calls.
fn ordered(
    alloc: Global,
    sources: &Sources<'_>,
    parts: Parts,
) -> Result<Result<Model, Noted>, AllocError> {
    match call_ranks(alloc, parts.calls.as_slice(), parts.bodies.len())? {
        Ranks::Cycle(place) => match parts.calls.as_slice().get(place) {
            // The place is that of a call.
            None => Err(AllocError),
            Some(call) => Ok(Err(recursive(call))),
        },
        Ranks::Ranked(ranks) => Ok(Ok(joined(alloc, sources, parts, ranks.as_slice())?)),
    }
}

/// The model of its parts.
fn joined(
    alloc: Global,
    sources: &Sources<'_>,
    parts: Parts,
    ranks: &[u32],
) -> Result<Model, AllocError> {
    let Parts {
        bounds,
        appended,
        claims,
        bodies,
        commands,
        calls: _,
    } = parts;
    let Claims { facts, asserts } = claims;
    let vars = all_vars(alloc, sources.loaded, sources.names)?;
    let sigs = model_sigs(
        alloc,
        sources.loaded,
        sources.names,
        sources.hierarchy,
        sources.known.string,
        sources.known.literals.as_slice(),
        appended,
    )?;
    let fields = model_fields(alloc, sources, vars.as_slice(), bounds)?;
    let bodies = ranked(alloc, bodies, ranks)?;
    Ok(Model {
        sigs,
        fields,
        facts,
        asserts,
        bodies,
        commands,
    })
}

/// The model, where it keeps what resolved models keep. The rules of resolving make no other model; it
/// is tested once more on the model itself, and where it did not hold the answer would be want of
/// memory.
fn kept(alloc: Global, model: Model) -> Result<Model, AllocError>
    ensures { IfOk result IsModelButTypes }
{
    let is_kept = keeps_model(alloc, &model)?;
    if is_kept { Ok(model) } else { Err(AllocError) }
}

/// The same, with its fault.
fn model_of(
    alloc: Global,
    loaded: &Loaded,
    names: &Names,
    hierarchy: &Hierarchy,
) -> Result<Resolved, Fault>
    ensures kept { IfOk result (λ r. IsModelButTypes r.model) }
    ensures fault { IfErr result (IsFault loaded.now.texts loaded.now.instances) }
{
    match modelled(alloc, loaded, names, hierarchy) {
        Err(_) => Err(Fault::Memory),
        Ok(Err(noted)) => Err(refused(loaded, noted)),
        Ok(Ok(resolved)) => match kept_with(alloc, resolved) {
            Err(_) => Err(Fault::Memory),
            Ok(resolved) => Ok(resolved),
        },
    }
}

/// The model that is kept, with its readings.
fn kept_with(alloc: Global, resolved: Resolved) -> Result<Resolved, AllocError>
    ensures { IfOk result (λ r. IsModelButTypes r.model) }
{
    let Resolved { model, readings } = resolved;
    let model = kept(alloc, model)?;
    Ok(Resolved { model, readings })
}

/// The hierarchy, with its fault.
#[tactic(auto, using(crate::proofs::Rules::of_hierarchy))]
pub fn hierarchy_of(alloc: Global, loaded: &Loaded, names: &Names) -> Result<Hierarchy, Fault>
    ensures { IfErr result (IsFault loaded.now.texts loaded.now.instances) }
{
    match hierarchy(alloc, loaded, names) {
        Ok(hierarchy) => Ok(hierarchy),
        Err(Fault::Refused(refusal)) => Err(Fault::Refused(refusal)),
        Err(Fault::Memory) => Err(Fault::Memory),
    }
}

/// The names, with their fault.
#[tactic(auto, using(crate::proofs::Rules::of_names))]
pub fn names_of(alloc: Global, loaded: &Loaded) -> Result<Names, Fault>
    ensures none_twice { OnOk result (HasNoneTwice loaded.now.texts loaded.now.instances) }
    ensures fault { IfErr result (IsFault loaded.now.texts loaded.now.instances) }
{
    match names(alloc, loaded) {
        Ok(names) => Ok(names),
        Err(Fault::Refused(refusal)) => Err(Fault::Refused(refusal)),
        Err(Fault::Memory) => Err(Fault::Memory),
    }
}

/// The model of the readings: the sigs, fields, facts, assertions and bodies of all instances and
/// the commands of the root, in which each root is replaced by its reading. It keeps what resolved
/// models keep, but for the rows of its fields' types, of which no clause speaks.
///
/// Refused by the first broken rule: on names, then on sigs and fields, then on names in
/// expressions and on readings, and last on calls. In each of these the earliest instance counts,
/// then the least place, then the lower number.
pub fn resolve(alloc: Global, loaded: &Loaded) -> Result<Model, Fault>
    ensures kept { IfOk result IsModelButTypes }
    ensures none_twice { OnOk result (HasNoneTwice loaded.now.texts loaded.now.instances) }
    ensures fault { IfErr result (IsFault loaded.now.texts loaded.now.instances) }
{
    let Resolved { model, readings: _ } = resolve_with(alloc, loaded)?;
    Ok(model)
}

/// The same, with what is told of the readings.
pub fn resolve_with(alloc: Global, loaded: &Loaded) -> Result<Resolved, Fault>
    ensures kept { IfOk result (λ r. IsModelButTypes r.model) }
    ensures none_twice { OnOk result (HasNoneTwice loaded.now.texts loaded.now.instances) }
    ensures fault { IfErr result (IsFault loaded.now.texts loaded.now.instances) }
{
    let names = match names_of(alloc, loaded) {
        Err(fault) => return Err(fault),
        Ok(names) => names,
    };
    let hierarchy = match hierarchy_of(alloc, loaded, &names) {
        Err(fault) => return Err(fault),
        Ok(hierarchy) => hierarchy,
    };
    let resolved = match model_of(alloc, loaded, &names, &hierarchy) {
        Err(fault) => return Err(fault),
        Ok(resolved) => resolved,
    };
    Ok(resolved)
}
