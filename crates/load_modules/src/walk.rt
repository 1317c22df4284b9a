//! The walk over opens asks for each text once, and puts it behind the others.
#![tactic(auto, using(crate::proofs::Broken::text_memory, crate::proofs::Placed::refuses_memory, crate::proofs::Placed::refuses_unread, crate::proofs::Placed::refuses_later, crate::proofs::Placed::refuses_open, load_state::proofs::Opens::place_of_asked, crate::proofs::Placed::refuses_same, load_state::proofs::Faults::quiet_causes, load_state::proofs::Faults::later_causes, load_state::proofs::Faults::later_fault, load_state::proofs::Faults::quiet_fault, load_state::proofs::Faults::memory_fault, load_state::proofs::Faults::memory_is_quiet, load_state::proofs::Faults::refusal_is_quiet, crate::proofs::Known::keeps_itself, crate::proofs::Known::keeps_same, crate::proofs::Known::keeps_on, crate::proofs::Known::keeps_learnt, crate::proofs::Known::keeps_path, crate::proofs::Known::stays_itself, crate::proofs::Known::stays_same, crate::proofs::Known::stays_on, crate::proofs::Known::stays_placed))]

ghost use Rattle.std.specs.Prelude.{◌≡◌, ◌<◌, ◌≤◌, true, IsTrue, IfErr, IfOk, OnOk, length, map};
ghost use Rattle.load_state.specs.Causes.{IsTried, IsUnread, Causes, IsQuietFault};
ghost use Rattle.load_state.specs.Opens.{IsPlaceOf};
ghost use Rattle.load_state.specs.Places.{IsInText};
ghost use Rattle.load_modules.specs.Refused.{IsOfText, Refuses};
ghost use Rattle.load_modules.specs.Told.{IsFront, Learns, LearnsPath, Keeps, StaysDistinct, IsTaken, IsGrown, texts_in};
ghost use Rattle.load_state.specs.Loadings.{instance_text};

use crate::source::read_text;
use base_types::limits::MODULE_BYTES;
use base_types::{Fetch, FetchFault, Libraries, Rule};
use load_state::{
    Doors, LoadFault, Loading, Request, Source, Target, add_open, answer_to, file_name, finish,
    folder_of, note, open_count, placed, refused_open, request_at, small, unread,
};
use std::alloc::Global;
use std::collections::HashSet;

/// Asks for the text of a name. The answer is its front, where it is over the limit of a text.
#[tactic(auto, using(crate::proofs::Placed::unread_memory, crate::proofs::Known::front_found, crate::proofs::Known::front_absent, load_state::proofs::Faults::failed_fault, load_state::proofs::Faults::quiet_fault, load_state::proofs::Faults::memory_fault))]
pub fn fetch_text<L: Libraries>(
    alloc: Global,
    libraries: &mut L,
    root: &str,
    name: &str,
) -> Result<Option<Vec<u8>>, LoadFault>
    requires { IsTried root.now name.now }
    ensures keeps { L.told libraries.new ≡ L.told libraries.old }
    ensures cause { Causes root.now (L.counts libraries.old) (L.counts libraries.new) result }
    ensures answer { IfOk result (IsFront (L.told libraries.old) name.now) }
    ensures unread { IfErr result (IsUnread name.now) }
{
    match libraries.fetch_first(alloc, name, MODULE_BYTES + 1) {
        Ok(Fetch::Absent) => Ok(None),
        Ok(Fetch::Found(bytes)) => Ok(Some(bytes)),
        Err(FetchFault::Failed) => Err(unread(alloc, name)),
        Err(FetchFault::Memory) => Err(LoadFault::Memory),
    }
}

/// Asks for the text of a name, and reads it. A name that was answered isn't asked again.
#[tactic(auto, using(crate::proofs::Placed::refuses_memory, crate::proofs::Placed::refuses_unread, crate::proofs::Placed::refuses_later, crate::proofs::Placed::refuses_open, crate::proofs::Placed::refuses_text, crate::proofs::Placed::grown_same, crate::proofs::Placed::grown_taken, crate::proofs::Known::learns_again, crate::proofs::Known::learns_absent, crate::proofs::Known::learns_found, load_state::proofs::Faults::quiet_causes, load_state::proofs::Faults::later_causes, load_state::proofs::Faults::later_fault, load_state::proofs::Faults::quiet_fault))]
pub fn ask<L: Libraries>(
    alloc: Global,
    libraries: &mut L,
    loading: &mut Loading,
    root: &str,
    name: &str,
) -> Result<Option<u32>, LoadFault>
    requires { IsTried root.now name.now }
    ensures keeps { L.told libraries.new ≡ L.told libraries.old }
    ensures cause { Causes root.now (L.counts libraries.old) (L.counts libraries.new) result }
    ensures instances { loading.new.keys.items ≡ loading.old.keys.items }
    ensures answer { IfOk result (Learns (L.told libraries.old) root.now loading.old loading.new
        name.now) }
    ensures grown { OnOk result (IsGrown (texts_in loading.old) (texts_in loading.new)) }
    ensures refused { IfErr result (Refuses (L.told libraries.old) root.now loading.old) }
{
    if let Some(answer) = answer_to(&loading.asked, name) {
        return Ok(answer);
    }
    match fetch_text(alloc, libraries, root, name)? {
        None => {
            let answer = note(alloc, &mut loading.asked, name, None)?;
            Ok(answer)
        }
        Some(bytes) => {
            let number = take_in(alloc, &mut loading.sources, name, &bytes)?;
            let answer = note(alloc, &mut loading.asked, name, Some(number))?;
            Ok(answer)
        }
    }
}

/// Reads a text, and puts it after the others. The answer is its number.
pub fn take_in(
    alloc: Global,
    sources: &mut Vec<Source>,
    name: &str,
    bytes: &[u8],
) -> Result<u32, LoadFault>
    ensures quiet { IfErr result IsQuietFault }
    ensures number { IfOk result (λ n. n ≡ length sources.old.items) }
    ensures refused { IfErr result (IsOfText bytes.now (length sources.old.items) name.now) }
    ensures taken { IfOk result (λ n. IsTaken bytes.now name.now n
        (map (λ s. s.text) sources.old.items) (map (λ s. s.text) sources.new.items)) }
{
    let number = small(sources.len())?;
    let source = read_text(alloc, number, name, bytes)?;
    sources.push(source)?;
    Ok(number)
}

/// The number of the text of a path: that of the first of its two names that a library has.
#[tactic(auto, using(crate::proofs::Placed::refuses_memory, crate::proofs::Placed::refuses_unread, crate::proofs::Placed::refuses_later, crate::proofs::Placed::refuses_open, crate::proofs::Placed::refuses_after, crate::proofs::Placed::grown_on, load_state::proofs::Faults::near_is_tried, load_state::proofs::Faults::far_is_tried, load_state::proofs::Faults::later_fault, load_state::proofs::Faults::later_causes, load_state::proofs::Faults::memory_fault, crate::proofs::Known::path_near, crate::proofs::Known::path_far))]
pub fn text_of_path<L: Libraries>(
    alloc: Global,
    libraries: &mut L,
    loading: &mut Loading,
    root: &str,
    path: &str,
) -> Result<Option<u32>, LoadFault>
    ensures keeps { L.told libraries.new ≡ L.told libraries.old }
    ensures cause { Causes root.now (L.counts libraries.old) (L.counts libraries.new) result }
    ensures instances { loading.new.keys.items ≡ loading.old.keys.items }
    ensures answer { IfOk result (LearnsPath (L.told libraries.old) root.now loading.old loading.new
        path.now) }
    ensures grown { OnOk result (IsGrown (texts_in loading.old) (texts_in loading.new)) }
    ensures refused { IfErr result (Refuses (L.told libraries.old) root.now loading.old) }
{
    let folder = folder_of(alloc, root)?;
    let near = file_name(alloc, folder.as_str(), path)?;
    if let Some(text) = ask(alloc, libraries, loading, root, near.as_str())? {
        return Ok(Some(text));
    }
    let far = file_name(alloc, "", path)?;
    match ask(alloc, libraries, loading, root, far.as_str()) {
        Ok(text) => Ok(text),
        Err(fault) => Err(fault),
    }
}

/// Follows the opens of an instance, in their order: the written ones, and then those that enums imply.
pub fn open_all<L: Libraries>(
    alloc: Global,
    libraries: &mut L,
    loading: &mut Loading,
    root: &str,
    instance: usize,
    limit: usize,
) -> Result<Doors, LoadFault>
    ensures keeps { L.told libraries.new ≡ L.told libraries.old }
    ensures cause { Causes root.now (L.counts libraries.old) (L.counts libraries.new) result }
    ensures refused { IfErr result (Refuses (L.told libraries.old) root.now loading.old) }
    ensures grows { length loading.old.keys.items ≤ length loading.new.keys.items }
    ensures texts { OnOk result (Keeps (L.told libraries.old) root.now loading.old loading.new) }
    ensures distinct { OnOk result (StaysDistinct loading.old.keys.items loading.new.keys.items) }
{
    let mut doors = Doors::new(alloc);
    let mut aliases = HashSet::new(alloc);
    for number in 0..open_count(loading, instance)? {
        let (request, target) = next_target(
            alloc,
            libraries,
            loading,
            root,
            &doors,
            &mut aliases,
            instance,
            limit,
            number,
        )?;
        if !target.is_new {
            add_open(alloc, loading, &mut doors, request, target.instance)?;
            continue;
        }
        let behind = open_all(alloc, libraries, loading, root, target.instance, limit)?;
        finish(loading, target.instance, behind)?;
        add_open(alloc, loading, &mut doors, request, target.instance)?;
    }
    Ok(doors)
}

/// What the open of this number asks for, and the instance to which it leads.
fn next_target<L: Libraries>(
    alloc: Global,
    libraries: &mut L,
    loading: &mut Loading,
    root: &str,
    doors: &Doors,
    aliases: &mut HashSet<String>,
    instance: usize,
    limit: usize,
    number: usize,
) -> Result<(Request, Target), LoadFault>
    ensures keeps { L.told libraries.new ≡ L.told libraries.old }
    ensures cause { Causes root.now (L.counts libraries.old) (L.counts libraries.new) result }
    ensures refused { IfErr result (Refuses (L.told libraries.old) root.now loading.old) }
    ensures grows { length loading.old.keys.items ≤ length loading.new.keys.items }
    ensures new { IfOk result (λ p. p.1.is_new ≡ true →
        (length loading.old.keys.items < length loading.new.keys.items)
        × (length loading.new.keys.items ≤ limit)) }
    ensures texts { OnOk result (Keeps (L.told libraries.old) root.now loading.old loading.new) }
    ensures distinct { OnOk result (StaysDistinct loading.old.keys.items loading.new.keys.items) }
{
    let request = request_at(alloc, loading, doors, aliases, instance, number)?;
    let target = target_of(alloc, libraries, loading, root, instance, limit, &request)?;
    Ok((request, target))
}

/// The instance to which an open leads, which is added where it isn't there yet.
fn target_of<L: Libraries>(
    alloc: Global,
    libraries: &mut L,
    loading: &mut Loading,
    root: &str,
    instance: usize,
    limit: usize,
    request: &Request,
) -> Result<Target, LoadFault>
    requires { IsPlaceOf (instance_text loading.old instance) request.now.place }
    ensures keeps { L.told libraries.new ≡ L.told libraries.old }
    ensures cause { Causes root.now (L.counts libraries.old) (L.counts libraries.new) result }
    ensures refused { IfErr result (Refuses (L.told libraries.old) root.now loading.old) }
    ensures grows { length loading.old.keys.items ≤ length loading.new.keys.items }
    ensures new { IfOk result (λ t. t.is_new ≡ true →
        (length loading.old.keys.items < length loading.new.keys.items)
        × (length loading.new.keys.items ≤ limit)) }
    ensures texts { OnOk result (Keeps (L.told libraries.old) root.now loading.old loading.new) }
    ensures distinct { OnOk result (StaysDistinct loading.old.keys.items loading.new.keys.items) }
{
    let found = text_of_path(alloc, libraries, loading, root, request.path.as_str())?;
    match found_or_refused(alloc, loading, instance, limit, request, found) {
        Ok(target) => Ok(target),
        Err(fault) => Err(fault),
    }
}

/// The same, where the text of the open was found or is absent.
fn found_or_refused(
    alloc: Global,
    loading: &mut Loading,
    instance: usize,
    limit: usize,
    request: &Request,
    found: Option<u32>,
) -> Result<Target, LoadFault>
    ensures quiet { IfErr result IsQuietFault }
    ensures refused { IsPlaceOf (instance_text loading.old instance) request.now.place →
        IfErr result (IsInText (instance_text loading.old instance)) }
    ensures grows { length loading.old.keys.items ≤ length loading.new.keys.items }
    ensures new { IfOk result (λ t. t.is_new ≡ true →
        (length loading.old.keys.items < length loading.new.keys.items)
        × (length loading.new.keys.items ≤ limit)) }
    ensures texts { loading.new.sources.items ≡ loading.old.sources.items }
    ensures asked { loading.new.asked.items ≡ loading.old.asked.items }
    ensures distinct { StaysDistinct loading.old.keys.items loading.new.keys.items }
{
    match found {
        Some(text) => placed(alloc, loading, instance, limit, request, text),
        None => Err(refused_open(alloc, loading, instance, request, Rule::NoModule)),
    }
}
