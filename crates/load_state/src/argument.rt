//! An argument of an open stands for a sig, or for `Int`.

ghost use Rattle.std.specs.Prelude.{◌≡◌, ◌↔◌, ◌<◌, ℕ, List, [], length, slice_get, IfErr, IfOk};
ghost use Rattle.syntax_tree.specs.declared.instance.Instance.{Instance as InstanceOf};
ghost use Rattle.syntax_tree.specs.declared.instance.Text.{Text as TextOf};
ghost use Rattle.load_state.specs.Causes.{IsQuietFault};
ghost use Rattle.load_state.specs.Doors.{IsAfter, IsAfterOne, Joins, StandsAt, TellsOf};
ghost use Rattle.load_state.specs.Named.{IsBehind, IsOwn, IsSeen, Names, NamesBy, front_of};
ghost use Rattle.load_state.specs.Sets.{IsIn, IsInAt};
ghost use Rattle.load_state.specs.Opens.{Fits};
ghost use Rattle.load_state.specs.Places.{IsAtArgument};

use crate::LoadFault;
use crate::loading::{Doors, Finished, aliased, item_at};
use crate::names::last_part;
use crate::reach::InstanceSet;
use crate::refuse::refused;
use crate::source::Source;
use base_types::{Name, Rule};
use std::alloc::Global;
use syntax_tree::{QualName, SigName, SigRef};

/// An instance whose opens are being followed, among what has been loaded.
#[derive(Clone, Copy)]
pub struct Opener<'a> {
    /// Its number.
    pub number: u32,
    pub arguments: &'a [Option<SigRef>],
    pub source: &'a Source,
    /// Its opens so far.
    pub doors: &'a Doors,
    /// All texts.
    pub sources: &'a [Source],
    /// The numbers of the texts of all instances.
    pub texts: &'a [u32],
    /// The instances whose opens are all followed.
    pub finished: &'a [Finished],
}

/// The sigs and parameters that a name names: how many, and what the last of them is: a sig, or none where it is `Int`.
#[derive(Clone, Copy, Drop)]
pub struct Found {
    pub count: u64,
    pub last: Option<SigRef>,
}

impl Found {
    /// Nothing.
    const NOTHING: Found = Found {
        count: 0,
        last: None,
    };
}

/// What is named by one kind of names and by another.
fn joined(first: Found, second: Found) -> Found
    ensures { Joins first.count second.count result.count first.last second.last result.last }
{
    if second.count == 0 {
        return first;
    }
    if first.count == 0 {
        return second;
    }
    Found {
        count: u64::MAX,
        last: second.last,
    }
}

/// The one sig for which an argument stands, or none where it is `Int`.
#[tactic(auto, using(crate::proofs::Faults::refusal_is_quiet, crate::proofs::Refusals::refused_argument))]
pub fn argument(
    alloc: Global,
    opener: Opener,
    written: &SigName,
) -> Result<Option<SigRef>, LoadFault>
    ensures quiet { IfErr result IsQuietFault }
    ensures refused { IfErr result (IsAtArgument opener.entry.source.now.text.name written.now) }
    ensures fits { IfOk result (Fits written.now) }
{
    match written {
        SigName::Int(_) => Ok(None),
        SigName::Name(name) => {
            let found = sigs_named(opener, name);
            if found.count == 1 {
                return Ok(found.last);
            }
            Err(refused(
                alloc,
                Rule::ModuleArguments,
                name.place,
                opener.source.text.name.text(),
            ))
        }
    }
}

/// What a name names in an instance: its own sigs and parameters, and the sigs of the instances that its opens so far reach. A
/// name with aliases names sigs of the instances to which they lead in turn.
pub fn sigs_named(opener: Opener, name: &QualName) -> Found
    ensures { (instances : List InstanceOf) (texts : List TextOf) (k : ℕ) →
        StandsAt instances texts k opener.entry →
        TellsOf (Names instances texts opener.entry.number k name.now) opener.entry.arguments.now
        result.count result.last }
{
    let last = last_part(name.parts.as_slice());
    match front_of(name.parts.as_slice()) {
        [] => named_alone(opener, name.is_own, last),
        [first, rest @ ..] => seen_among(opener, through(opener, first, rest), last),
    }
}

/// The parts of a name before the last one.
fn front_of(parts: &[Name]) -> &[Name]
    ensures { result.now ≡ front_of parts.now }
{
    if parts.is_empty() {
        return parts;
    }
    &parts[..parts.len() - 1]
}

/// What a name without a path names.
fn named_alone(opener: Opener, is_own: bool, name: &str) -> Found
    ensures { (instances : List InstanceOf) (texts : List TextOf) (k : ℕ) →
        StandsAt instances texts k opener.entry →
        TellsOf (NamesBy instances texts opener.entry.number k is_own [] name.now)
        opener.entry.arguments.now result.count result.last }
{
    let own = named_here(opener, name);
    if is_own {
        return own;
    }
    joined(own, seen_among(opener, opener.doors.reach.all, name))
}

/// The sigs and parameters of the instance itself.
fn named_here(opener: Opener, name: &str) -> Found
    ensures { (instances : List InstanceOf) (texts : List TextOf) (k : ℕ) →
        StandsAt instances texts k opener.entry →
        TellsOf (IsOwn instances texts opener.entry.number name.now) opener.entry.arguments.now
        result.count result.last }
{
    let found = opener.source.table.known(name);
    let sig = SigRef {
        instance: opener.number,
        sig: found.sig,
    };
    let sigs = Found {
        count: found.sigs as u64,
        last: Some(sig),
    };
    match given_at(opener.arguments, found.parameter) {
        Some(given) => {
            let parameters = Found {
                count: found.parameters as u64,
                last: given,
            };
            joined(sigs, parameters)
        }
        None => sigs,
    }
}

/// The argument of this place.
fn given_at(arguments: &[Option<SigRef>], place: usize) -> Option<Option<SigRef>>
    ensures { result ≡ slice_get arguments.now place }
{
    arguments.get(place).copied()
}

/// The sigs of these instances that aren't private.
fn seen_among(opener: Opener, among: InstanceSet, name: &str) -> Found
    ensures { (instances : List InstanceOf) (texts : List TextOf) (k : ℕ) →
        StandsAt instances texts k opener.entry →
        TellsOf (IsSeen instances texts (IsIn among) name.now) opener.entry.arguments.now
        result.count result.last }
{
    let mut found = Found::NOTHING;
    for place in 0..opener.texts.len() {
        found = joined(found, seen_in(opener, among, place, name));
    }
    found
}

/// The sigs of the instance of this number that aren't private, where it is one of these.
fn seen_in(opener: Opener, among: InstanceSet, place: usize, name: &str) -> Found
    requires { place < length opener.texts.now }
    ensures { (instances : List InstanceOf) (texts : List TextOf) (k : ℕ) →
        StandsAt instances texts k opener.entry →
        TellsOf (IsSeen instances texts (IsInAt among place) name.now) opener.entry.arguments.now
        result.count result.last }
{
    if place > 64 {
        return Found::NOTHING;
    }
    let instance = place as u32;
    if !among.has(instance) {
        return Found::NOTHING;
    }
    match item_at(opener.sources, opener.texts[place] as usize) {
        Some(source) => {
            let found = source.table.known(name);
            let sig = found.public_sig;
            Found {
                count: found.public_sigs as u64,
                last: Some(SigRef { instance, sig }),
            }
        }
        None => Found::NOTHING,
    }
}

/// The instances to which opens with these aliases lead in turn.
fn through(opener: Opener, first: &Name, rest: &[Name]) -> InstanceSet
    ensures { (instances : List InstanceOf) (texts : List TextOf) (k l : ℕ) →
        StandsAt instances texts k opener.entry →
        IsIn result l ↔ IsBehind instances texts opener.entry.number k first.now rest.now l }
{
    let mut among = aliased(&opener.doors.aliases, first.text()).all;
    for alias in rest {
        among = step(opener.finished, among, alias);
    }
    among
}

/// The instances to which the opens of these instances with an alias lead, where they aren't private.
fn step(finished: &[Finished], among: InstanceSet, alias: &Name) -> InstanceSet
    ensures { (l : ℕ) → IsIn result l ↔ IsAfter finished.now among alias.now l }
{
    let mut next = InstanceSet::EMPTY;
    for f in finished {
        next = next.with(step_of(f, among, alias));
    }
    next
}

/// The same of one instance.
fn step_of(f: &Finished, among: InstanceSet, alias: &Name) -> InstanceSet
    ensures { (l : ℕ) → IsIn result l ↔ IsAfterOne f.now among alias.now l }
{
    if !among.has(f.instance) {
        return InstanceSet::EMPTY;
    }
    aliased(&f.doors.aliases, alias.text()).public
}
