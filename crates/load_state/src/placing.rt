//! An open leads to an instance: one that was loaded before, or a new one.

ghost use Rattle.std.specs.Prelude.{◌≡◌, ◌+◌, ◌<◌, ◌≤◌, true, false, IsTrue, IfErr, IfOk, OnOk, OnErr, length, map, [], ◌∷◌, ◌++◌};
ghost use Rattle.load_state.specs.Causes.{IsQuietFault};
ghost use Rattle.load_state.specs.Keys.{pair_of, AreDistinct, IsAt, is_open_from};
ghost use Rattle.load_state.specs.Opens.{IsAsked, IsPlaceOf, IsOpenCount};
ghost use Rattle.load_state.specs.Places.{IsInText};
ghost use Rattle.load_state.specs.Refusals.{is_of_loading};
ghost use Rattle.load_state.specs.declared.fault.LoadFault.TheVariants.{Memory};
ghost use Rattle.load_state.specs.Loadings.{instance_text};

use crate::argument::Opener;
use crate::label::{longer_path, new_label};
use crate::loading::{
    Asked, Doors, Finished, Key, Loading, instance_with, is_being_opened, key_at, numbers_of,
    public_reach, source_of,
};
use crate::refuse::{refused, small};
use crate::request::{Request, implied_request, written_request};
use crate::source::Source;
use crate::{LoadFault, count};
use base_lists::Items;
use base_types::{Name, Rule};
use std::alloc::{AllocError, Global};
use std::collections::HashSet;
use syntax_tree::Opened;

/// Notes the answer for a name.
#[tactic(auto, using(crate::proofs::Faults::memory_is_quiet))]
pub fn note(
    alloc: Global,
    asked: &mut Vec<Asked>,
    name: &str,
    text: Option<u32>,
) -> Result<Option<u32>, LoadFault>
    ensures quiet { IfErr result IsQuietFault }
    ensures memory { IfErr result (λ fault. fault ≡ Memory) }
    ensures same { IfOk result (λ answer. answer ≡ text) }
    ensures noted { OnOk result (asked.new.items ≡ asked.old.items
        ++ record { name = name.now; text = text } ∷ []) }
{
    let name = Name::copy(alloc, name)?;
    asked.push(Asked { name, text })?;
    Ok(text)
}

/// How many opens an instance has, with those that enums imply.
#[tactic(auto, using(crate::proofs::Opens::opens_counted))]
pub fn open_count(loading: &Loading, instance: usize) -> Result<usize, AllocError>
    ensures { IfOk result (IsOpenCount (instance_text loading.now instance)) }
{
    let source = source_of(loading, instance)?;
    let written = source.text.tree.opens.len();
    count::plus(written, source.table.enums().len())
}

/// What the open of this number asks for.
#[tactic(auto, using(crate::proofs::Faults::memory_is_quiet, crate::proofs::Refusals::memory_in_text))]
pub fn request_at(
    alloc: Global,
    loading: &Loading,
    doors: &Doors,
    aliases: &mut HashSet<String>,
    instance: usize,
    number: usize,
) -> Result<Request, LoadFault>
    ensures quiet { IfErr result IsQuietFault }
    ensures refused { IfErr result (IsInText (instance_text loading.now instance)) }
    ensures asked { IfOk result (IsAsked (instance_text loading.now instance) instance number) }
{
    let key = key_at(&loading.keys, instance)?;
    let source = source_of(loading, instance)?;
    let texts = numbers_of(alloc, &loading.keys)?;
    let opener = Opener {
        number: small(instance)?,
        arguments: key.arguments.as_slice(),
        source,
        doors,
        sources: &loading.sources,
        texts: &texts,
        finished: &loading.finished,
    };
    let written = source.text.tree.opens.as_slice();
    if number < written.len() {
        return written_request(alloc, opener, aliases, &written[number]);
    }
    match source.table.enum_at(number - written.len()) {
        Some(enumerated) => implied_request(alloc, opener.number, enumerated),
        None => Err(LoadFault::Memory),
    }
}

/// The instance to which an open leads.
#[derive(Drop)]
pub struct Target {
    pub instance: usize,
    /// Whether it wasn't there before: then its own opens are to be followed.
    pub is_new: bool,
}

/// The instance of a text to which an open leads, which is added where it isn't there yet.
#[tactic(auto, using(crate::proofs::Faults::memory_is_quiet, crate::proofs::Refusals::memory_in_text))]
pub fn placed(
    alloc: Global,
    loading: &mut Loading,
    instance: usize,
    limit: usize,
    request: &Request,
    text: u32,
) -> Result<Target, LoadFault>
    ensures quiet { IfErr result IsQuietFault }
    ensures grows { length loading.old.keys.items ≤ length loading.new.keys.items }
    ensures new { IfOk result (λ t. t.is_new ≡ true →
        (length loading.old.keys.items < length loading.new.keys.items)
        × (length loading.new.keys.items ≤ limit)) }
    ensures texts { loading.new.sources.items ≡ loading.old.sources.items }
    ensures asked { loading.new.asked.items ≡ loading.old.asked.items }
    ensures finished { loading.new.finished.items ≡ loading.old.finished.items }
    ensures refused { IsPlaceOf (instance_text loading.old instance) request.now.place →
        IfErr result (IsInText (instance_text loading.old instance)) }
    ensures off_chain { IfOk result (λ t. is_open_from loading.old.finished.items text 0
        loading.old.keys.items ≡ false) }
    ensures reached { IfOk result (λ t. IsAt loading.new.keys.items t.instance
        (text, request.now.arguments)) }
    ensures distinct { AreDistinct (map pair_of loading.old.keys.items) →
        AreDistinct (map pair_of loading.new.keys.items) }
{
    if is_being_opened(&loading.keys, &loading.finished, text) {
        return Err(refused_open(alloc, loading, instance, request, Rule::ModuleCycle));
    }
    if parameter_count(&loading.sources, text) != request.arguments.len() {
        return Err(refused_open(alloc, loading, instance, request, Rule::ModuleArguments));
    }
    if let Some(instance) = instance_with(&loading.keys, text, &request.arguments) {
        return Ok(Target {
            instance,
            is_new: false,
        });
    }
    if loading.keys.len() >= limit {
        return Err(refused_open(alloc, loading, instance, request, Rule::TooManyModules));
    }
    let added = add_instance(alloc, &mut loading.keys, instance, text, request)?;
    Ok(Target {
        instance: added,
        is_new: true,
    })
}

/// The refusal of an open of an instance.
#[tactic(auto, using(crate::proofs::Faults::memory_is_quiet, crate::proofs::Faults::refusal_is_quiet, crate::proofs::Refusals::memory_in_text, crate::proofs::Refusals::refused_at))]
pub fn refused_open(
    alloc: Global,
    loading: &Loading,
    instance: usize,
    request: &Request,
    rule: Rule,
) -> LoadFault
    requires { IsTrue (is_of_loading rule) }
    ensures quiet { IsQuietFault result }
    ensures refused { IsPlaceOf (instance_text loading.now instance) request.now.place →
        IsInText (instance_text loading.now instance) result }
{
    match source_of(loading, instance) {
        Ok(source) => refused(alloc, rule, request.place, source.text.name.text()),
        Err(_) => LoadFault::Memory,
    }
}

/// How many parameters a text has.
pub fn parameter_count(sources: &[Source], text: u32) -> usize {
    match sources.get(text as usize) {
        Some(source) => count::parameter_count(&source.text.tree),
        None => 0,
    }
}

/// Adds an instance that is reached by an open of another.
fn add_instance(
    alloc: Global,
    keys: &mut Vec<Key>,
    opener: usize,
    text: u32,
    request: &Request,
) -> Result<usize, AllocError>
    ensures grows { length keys.old.items ≤ length keys.new.items }
    ensures added { OnOk result (length keys.new.items ≡ length keys.old.items + 1) }
    ensures pairs { OnOk result (map pair_of keys.new.items ≡ map pair_of keys.old.items
        ++ (text, request.now.arguments) ∷ []) }
    ensures number { IfOk result (λ n. n ≡ length keys.old.items) }
    ensures kept { OnErr result (keys.new.items ≡ keys.old.items) }
{
    let before = key_at(keys, opener)?;
    let path = longer_path(alloc, before.path.text(), request.alias.text())?;
    let label = new_label(alloc, keys, path.text())?;
    let arguments = Items::from_slice(alloc, request.arguments.as_slice())?;
    let added = keys.len();
    keys.push(Key {
        text,
        arguments,
        path,
        label,
    })?;
    Ok(added)
}

/// Notes that the opens of an instance are all followed.
pub fn finish(loading: &mut Loading, instance: usize, doors: Doors) -> Result<(), AllocError>
    ensures instances { loading.new.keys.items ≡ loading.old.keys.items }
    ensures texts { loading.new.sources.items ≡ loading.old.sources.items }
    ensures asked { loading.new.asked.items ≡ loading.old.asked.items }
    ensures done { OnOk result (loading.new.finished.items ≡ loading.old.finished.items
        ++ record { instance = instance; doors = doors } ∷ []) }
{
    let instance = small(instance)?;
    loading.finished.push(Finished { instance, doors })?;
    Ok(())
}

/// Adds an open that leads to an instance.
pub fn add_open(
    alloc: Global,
    loading: &Loading,
    doors: &mut Doors,
    request: Request,
    target: usize,
) -> Result<(), AllocError>
    ensures { OnOk result (doors.new.opens ≡ doors.old.opens
        ++ record { alias = request.alias; instance = target } ∷ []) }
{
    let opened = Opened {
        alias: request.alias,
        instance: small(target)?,
    };
    let beyond = public_reach(&loading.finished, target);
    doors.add(alloc, opened, beyond, request.is_private)
}
