//! What a command lists: numbers for single sigs, and those of which a scope has one at most.

ghost use Rattle.std.specs.Prelude.{◌≡◌, ℕ, length, IfOk};
ghost use Rattle.bound_definitions.specs.Numbers.{is_overall, is_int, is_steps, overall_in, first_number, known_as};
ghost use Rattle.bound_definitions.specs.Rules.{first_entry};
ghost use Rattle.bound_numbers.specs.Listed.{asks, number_or, numbered_of, noted_at, noted_by, AreListed};

use crate::lists::{KnownList, nothing_known};
use base_types::Position;
use bound_definitions::Known;
use core_tree::{ScopeEntry, ScopeEntryList, ScopeSubject};
use std::alloc::{AllocError, Global};

/// How many atoms a top-level sig has where nothing says otherwise.
const DEFAULT_NUMBER: u64 = 3;

/// What is asked of a command's scope, besides the numbers of single sigs.
#[derive(Clone, Copy, Debug, PartialEq, Eq, Drop)]
pub enum Asked {
    /// The number of each top-level sig that has no other.
    Overall,
    /// The bitwidth.
    Bits,
    /// How many states a lasso has at most.
    Steps,
}

/// A number that is listed, with its place.
#[derive(Clone, Copy, Debug, PartialEq, Eq, Drop)]
pub struct Numbered {
    pub number: u32,
    pub place: Position,
}

fn is_overall(subject: ScopeSubject) -> bool
    ensures { result ≡ is_overall subject }
{
    match subject {
        ScopeSubject::Overall => true,
        _ => false,
    }
}

fn is_int(subject: ScopeSubject) -> bool
    ensures { result ≡ is_int subject }
{
    match subject {
        ScopeSubject::Int => true,
        _ => false,
    }
}

fn is_steps(subject: ScopeSubject) -> bool
    ensures { result ≡ is_steps subject }
{
    match subject {
        ScopeSubject::Steps => true,
        _ => false,
    }
}

/// Whether an entry is for what is asked.
fn is_for(asked: Asked, subject: ScopeSubject) -> bool
    ensures { result ≡ asks asked subject }
{
    match asked {
        Asked::Overall => is_overall(subject),
        Asked::Bits => is_int(subject),
        Asked::Steps => is_steps(subject),
    }
}

/// The first number that is listed for what is asked.
pub fn first_entry(asked: Asked, entries: &ScopeEntryList) -> Option<Numbered>
    ensures number { (n : ℕ) → number_or result n ≡ first_number (asks asked) n entries.now }
    ensures entry { result ≡ numbered_of (first_entry (asks asked) entries.now) }
{
    for place in 0..entries.len() {
        let entry = entries.get(place);
        if is_for(asked, entry.subject) {
            return Some(Numbered {
                number: entry.number,
                place: entry.number_place,
            });
        }
    }
    None
}

/// A number that is listed, or the default.
fn number_or(given: Option<Numbered>, default: u64) -> u64
    ensures { result ≡ number_or given default }
{
    match given {
        None => default,
        Some(entry) => entry.number as u64,
    }
}

/// The number of each top-level sig that has no other.
pub(crate) fn overall_number(entries: &ScopeEntryList) -> u64
    ensures { result ≡ overall_in entries.now }
{
    let given = first_entry(Asked::Overall, entries);
    number_or(given, DEFAULT_NUMBER)
}

/// Notes what is listed of a sig, where there is one of this number.
fn note(listed: &mut Vec<Known>, sig: u32, known: Known)
    ensures { listed.new.items ≡ noted_at listed.old.items sig known }
{
    let place = sig as usize;
    if place < listed.len() {
        listed[place] = known;
    }
}

/// Notes an entry that is for a sig over what is noted of that sig.
fn take(listed: &mut Vec<Known>, entry: &ScopeEntry)
    ensures { listed.new.items ≡
        noted_by listed.old.items entry.now.subject (known_as entry.now.number entry.now.exactly) }
{
    let known = Known {
        number: Some(entry.number as u64),
        exact: entry.exactly,
    };
    match entry.subject {
        ScopeSubject::Sig(sig) => note(listed, sig, known),
        ScopeSubject::Int => {}
        ScopeSubject::Steps => {}
        ScopeSubject::Overall => {}
        ScopeSubject::Unknown => {}
    }
}

/// What is listed for each of so many sigs; the first entry for a sig counts, so that entries are taken
/// from the last to the first.
pub(crate) fn listed_numbers(
    alloc: Global,
    count: usize,
    entries: &ScopeEntryList,
) -> Result<KnownList, AllocError>
    ensures length { IfOk result (λ l. length l ≡ count) }
    ensures listed { IfOk result (λ l. AreListed entries.now l) }
{
    let mut listed = nothing_known(alloc, count)?;
    let all = entries.len();
    for turn in 0..all {
        let place = all - 1 - turn;
        let entry = entries.get(place);
        take(&mut listed, entry);
    }
    Ok(KnownList::from_vec(listed))
}
