//! Whether the arguments of opens are those that their names name.
//!
//! All opens are gone through once more, those of an instance behind those of the instances to which they lead.

ghost use Rattle.std.specs.Prelude.{◌≡◌, ◌+◌, ◌<◌, ◌≤◌, ℕ, List, true, map, length, slice_get, Some, IfOk, IfSome};
ghost use Rattle.std.specs.HashMap.{get_by_text};
ghost use Rattle.syntax_tree.specs.declared.instance.Instance.{Instance as InstanceOf};
ghost use Rattle.syntax_tree.specs.declared.instance.Text.{Text as TextOf};
ghost use Rattle.syntax_tree.specs.declared.module.Open.{Open as OpenOf};
ghost use Rattle.load_state.specs.Doors.{AreReplayed, Has, IsReplayed, IsReplaying, LeadsOn, StandsAt};
ghost use Rattle.load_state.specs.Keys.{texts_of};
ghost use Rattle.load_state.specs.Leads.{IsInstanceOf};
ghost use Rattle.load_state.specs.Named.{AllNamed, AreGiven, IsGiven};
ghost use Rattle.load_state.specs.Opens as asks;
ghost use Rattle.load_state.specs.Sigs as declares;

use crate::argument::{Found, Opener, sigs_named};
use crate::count::parameter_count;
use crate::leads::{instance_at, opening_count, source_at};
use crate::loading::{Doors, Finished, finished_at, item_at};
use crate::source::Source;
use std::alloc::{AllocError, Global};
use syntax_tree::{Instance, Opened, SigName, SigRef};

/// Whether the arguments of all opens are those that are written, where this is the order in which the instances' opens are
/// all followed.
pub fn all_named(
    alloc: Global,
    sources: &[Source],
    instances: &[Instance],
    order: &[u32],
) -> Result<bool, AllocError>
    ensures { IfOk result (λ is. is ≡ true → AllNamed instances.now (texts_of sources.now)) }
{
    let texts = text_numbers(alloc, instances)?;
    match replayed_all(alloc, sources, instances, &texts, order)? {
        Some(done) => Ok(has_all(&done, instances.len())),
        None => Ok(false),
    }
}

/// The numbers of the texts of instances.
fn text_numbers(alloc: Global, instances: &[Instance]) -> Result<Vec<u32>, AllocError>
    ensures { IfOk result (λ numbers. numbers.items ≡ map (λ i. i.text) instances.now) }
{
    let mut numbers = Vec::new(alloc);
    for instance in instances {
        numbers.push(instance.text)?;
    }
    Ok(numbers)
}

/// Whether the opens of so many instances are all followed.
fn has_all(finished: &[Finished], count: usize) -> bool
    ensures { result ≡ true → (n : ℕ) → n < count → Has finished.now n }
{
    for number in 0..count {
        if !has_one(finished, number) {
            return false;
        }
    }
    true
}

/// Whether the opens of this instance are.
fn has_one(finished: &[Finished], number: usize) -> bool
    ensures { result ≡ true → Has finished.now number }
{
    match finished_at(finished, number) {
        Some(_) => true,
        None => false,
    }
}

/// The opens of all instances, in this order, where their arguments are named.
#[tactic(auto, using(crate::proofs::Replay::replayed_none, crate::proofs::Replay::replayed_next))]
fn replayed_all(
    alloc: Global,
    sources: &[Source],
    instances: &[Instance],
    texts: &[u32],
    order: &[u32],
) -> Result<Option<Vec<Finished>>, AllocError>
    requires { texts.now ≡ map (λ i. i.text) instances.now }
    ensures { IfOk result (λ found. IfSome found (λ done.
        AreReplayed instances.now (texts_of sources.now) done.items)) }
{
    let mut done = Vec::new(alloc);
    for place in 0..order.len() {
        let instance = order[place];
        match replayed(alloc, sources, instances, texts, &done, instance)? {
            Some(doors) => done.push(Finished { instance, doors })?,
            None => return Ok(None),
        }
    }
    Ok(Some(done))
}

/// The opens of the instance of this number.
fn replayed(
    alloc: Global,
    sources: &[Source],
    instances: &[Instance],
    texts: &[u32],
    finished: &[Finished],
    number: u32,
) -> Result<Option<Doors>, AllocError>
    requires listed { texts.now ≡ map (λ i. i.text) instances.now }
    requires done { AreReplayed instances.now (texts_of sources.now) finished.now }
    ensures { IfOk result (λ found. IfSome found (λ doors.
        IsReplayed instances.now (texts_of sources.now) finished.now number doors)) }
{
    match instance_at(instances, number) {
        Some(instance) => match source_at(sources, instance) {
            Some(source) => {
                let doors = replayed_opens(
                    alloc, sources, instances, texts, finished, number, instance, source,
                )?;
                Ok(doors)
            }
            None => Ok(None),
        },
        None => Ok(None),
    }
}

/// The same, where the instance has this text.
#[tactic(auto, using(crate::proofs::Replay::replaying_first, crate::proofs::Replay::replaying_all))]
fn replayed_opens(
    alloc: Global,
    sources: &[Source],
    instances: &[Instance],
    texts: &[u32],
    finished: &[Finished],
    number: u32,
    instance: &Instance,
    source: &Source,
) -> Result<Option<Doors>, AllocError>
    requires is { IsInstanceOf instances.now (texts_of sources.now) number instance.now
        source.now.text }
    requires listed { texts.now ≡ map (λ i. i.text) instances.now }
    requires done { AreReplayed instances.now (texts_of sources.now) finished.now }
    ensures { IfOk result (λ found. IfSome found (λ doors.
        IsReplayed instances.now (texts_of sources.now) finished.now number doors)) }
{
    let count = opening_count(source)?;
    if instance.arguments.len() != parameter_count(&source.text.tree) {
        return Ok(None);
    }
    let mut doors = Doors::new(alloc);
    for k in 0..count {
        let next = replays(
            alloc, sources, instances, texts, finished, number, instance, source, k, &mut doors,
        )?;
        if !next {
            return Ok(None);
        }
    }
    Ok(Some(doors))
}

/// Notes the open of this number of an instance, where its arguments are named.
fn replays(
    alloc: Global,
    sources: &[Source],
    instances: &[Instance],
    texts: &[u32],
    finished: &[Finished],
    number: u32,
    instance: &Instance,
    source: &Source,
    k: usize,
    doors: &mut Doors,
) -> Result<bool, AllocError>
    requires is { IsInstanceOf instances.now (texts_of sources.now) number instance.now
        source.now.text }
    requires paired { length instance.now.arguments
        ≡ length (declares.parameters_of source.now.text.tree) }
    requires inside { k < length (asks.openings_of source.now.text.tree) }
    requires listed { texts.now ≡ map (λ i. i.text) instances.now }
    requires done { AreReplayed instances.now (texts_of sources.now) finished.now }
    requires before { IsReplaying instances.now (texts_of sources.now) finished.now number
        instance.now source.now.text k doors.old.reach (get_by_text doors.old.aliases) }
    ensures { IfOk result (λ is. is ≡ true → IsReplaying instances.now (texts_of sources.now)
        finished.now number instance.now source.now.text (k + 1) doors.new.reach
        (get_by_text doors.new.aliases)) }
{
    match item_at(instance.opens.as_slice(), k) {
        Some(opened) => {
            let arguments = instance.arguments.as_slice();
            let opener = Opener {
                number,
                arguments,
                source,
                doors: &*doors,
                sources,
                texts,
                finished,
            };
            let named = is_open_named(opener, instances, k, opened);
            if !named {
                return Ok(false);
            }
            let hidden = is_private_at(source, k);
            let noted = note_open(alloc, finished, opened, hidden, doors)?;
            Ok(noted)
        }
        None => Ok(false),
    }
}

/// Whether the open of this number is private.
fn is_private_at(source: &Source, k: usize) -> bool
    ensures { (o : asks.Opening) → slice_get (asks.openings_of source.now.text.tree) k ≡ Some o →
        asks.is_hidden o ≡ result }
{
    match item_at(source.text.tree.opens.as_slice(), k) {
        Some(open) => open.is_private,
        None => false,
    }
}

/// Notes an open that leads to an instance whose opens are all followed.
fn note_open(
    alloc: Global,
    finished: &[Finished],
    opened: &Opened,
    is_private: bool,
    doors: &mut Doors,
) -> Result<bool, AllocError>
    ensures { IfOk result (λ is. is ≡ true → LeadsOn finished.now opened.now is_private
        doors.old.reach doors.new.reach (get_by_text doors.old.aliases)
        (get_by_text doors.new.aliases)) }
{
    if opened.instance == 0 {
        return Ok(false);
    }
    if opened.instance > 64 {
        return Ok(false);
    }
    match finished_at(finished, opened.instance as usize) {
        Some(f) => {
            doors.note(alloc, opened, f.doors.reach.public, is_private)?;
            Ok(true)
        }
        None => Ok(false),
    }
}

/// Whether the arguments of the open of this number are named, where it is written.
fn is_open_named(opener: Opener, instances: &[Instance], k: usize, opened: &Opened) -> bool
    ensures { (texts : List TextOf) → StandsAt instances.now texts k opener.entry →
        result ≡ true → (o : OpenOf) (target : InstanceOf) →
        slice_get opener.entry.source.now.text.tree.opens k ≡ Some o →
        slice_get instances.now opened.now.instance ≡ Some target →
        AreGiven instances.now texts opener.entry.number k opener.entry.arguments.now o.arguments
        target.arguments }
{
    match item_at(opener.source.text.tree.opens.as_slice(), k) {
        Some(written) => match instance_at(instances, opened.instance) {
            Some(target) => are_named(
                opener,
                written.arguments.as_slice(),
                target.arguments.as_slice(),
            ),
            None => false,
        },
        None => true,
    }
}

/// Whether each argument is the one that its name names.
fn are_named(opener: Opener, names: &[SigName], given: &[Option<SigRef>]) -> bool
    ensures { (instances : List InstanceOf) (texts : List TextOf) (k : ℕ) →
        StandsAt instances texts k opener.entry → result ≡ true →
        AreGiven instances texts opener.entry.number k opener.entry.arguments.now names.now
        given.now }
{
    if names.len() != given.len() {
        return false;
    }
    for place in 0..names.len() {
        if !is_named(opener, &names[place], given[place]) {
            return false;
        }
    }
    true
}

/// Whether an argument is the one that its name names.
fn is_named(opener: Opener, written: &SigName, argument: Option<SigRef>) -> bool
    ensures { (instances : List InstanceOf) (texts : List TextOf) (k : ℕ) →
        StandsAt instances texts k opener.entry → result ≡ true →
        IsGiven instances texts opener.entry.number k opener.entry.arguments.now written.now
        argument }
{
    match written {
        SigName::Int(_) => argument.is_none(),
        SigName::Name(name) => { is_one(sigs_named(opener, name), argument) }
    }
}

/// Whether one thing alone is named, and is this argument.
fn is_one(found: Found, argument: Option<SigRef>) -> bool
    ensures { result ≡ true → (found.count ≡ 1) × (found.last ≡ argument) }
{
    found.count == 1 && found.last == argument
}
