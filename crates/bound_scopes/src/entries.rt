//! The rules on what a command's scope lists, and on sigs that `exactly` parameters get.

ghost use Rattle.std.specs.Prelude.{◌≡◌, ◌&&◌, not, false, [], get_or, IfOk};
ghost use Rattle.core_tree.specs.declared.model.Sig.{Sig};
ghost use Rattle.bound_definitions.specs.Places.{first_from, first_of, each, each_behind};
ghost use Rattle.bound_definitions.specs.Rules.{in_root, is_subset, is_for, may_not_stand, bad_entry, open_of, exact_var_entry, exact_vars, contradicts, conflicts, bad_scopes};
ghost use Rattle.core_tree.specs.declared.model.ScopeSubject.TheVariants as subject;
ghost use Rattle.bound_scopes.specs.Listed.{is_marked, marked_at, marked_by, with_single};

use base_types::Position;
use bound_definitions::{is_static_lone, is_static_one};
use core_tree::{Origin, ScopeEntryList, ScopeSubject, Sig, SigKind};
use form_measures::{with_place, with_some_place};
use std::alloc::{AllocError, Global};

/// Whether a sig is an `in` sig.
fn is_subset(kind: &SigKind) -> bool
    ensures { result ≡ is_subset kind.now }
{
    match kind {
        SigKind::Top => false,
        SigKind::Extends(_) => false,
        SigKind::Subset(_) => true,
    }
}

/// A place in the root.
fn in_root(place: Position) -> Origin
    ensures { result ≡ in_root place }
{
    Origin { instance: 0, place }
}

/// Whether a sig may be listed: there is one of this number, and it is no `in` sig.
fn may_be_listed(sigs: &[Sig], sig: u32) -> bool
    ensures { result ≡ is_for (λ (d : Sig). not (is_subset d.kind)) sigs.now (subject.Sig sig) }
{
    match sigs.get(sig as usize) {
        None => false,
        Some(found) => !is_subset(&found.kind),
    }
}

/// Whether an entry may not stand, behind others that say a number of the same or don't.
fn may_not_stand(sigs: &[Sig], repeated: bool, exactly: bool, what: ScopeSubject) -> bool
    ensures { result ≡ may_not_stand sigs.now repeated exactly what }
{
    match what {
        ScopeSubject::Sig(sig) => !may_be_listed(sigs, sig) || repeated,
        ScopeSubject::Int => exactly || repeated,
        ScopeSubject::Steps => exactly || repeated,
        ScopeSubject::Overall => false,
        ScopeSubject::Unknown => true,
    }
}

/// Of what the entries so far say a number.
#[derive(Clone, Copy, Debug, PartialEq, Eq, Drop)]
struct Single {
    /// Whether it is the bitwidth.
    bits: bool,
    /// Whether it is the states.
    steps: bool,
}

/// Whether some entry so far says a number of this.
fn is_marked(sigs: &[bool], single: Single, what: ScopeSubject) -> bool
    ensures { result ≡ is_marked sigs.now single what }
{
    match what {
        ScopeSubject::Sig(sig) => has_mark(sigs, sig as usize),
        ScopeSubject::Int => single.bits,
        ScopeSubject::Steps => single.steps,
        ScopeSubject::Overall => false,
        ScopeSubject::Unknown => false,
    }
}

/// Whether a sig is marked, where there is one of this number.
#[tactic(auto, using(std::proofs::lemmas::List::get_or_read, std::proofs::lemmas::List::get_or_past))]
fn has_mark(sigs: &[bool], place: usize) -> bool
    ensures { result ≡ get_or sigs.now place false }
{
    if place < sigs.len() {
        return sigs[place];
    }
    false
}

/// Marks the sig of an entry, where there is one of its number.
fn mark(sigs: &mut Vec<bool>, what: ScopeSubject)
    ensures { sigs.new.items ≡ marked_by sigs.old.items what }
{
    match what {
        ScopeSubject::Sig(sig) => mark_sig(sigs, sig as usize),
        ScopeSubject::Int => {}
        ScopeSubject::Steps => {}
        ScopeSubject::Overall => {}
        ScopeSubject::Unknown => {}
    }
}

/// Marks a sig, where there is one of this number.
fn mark_sig(sigs: &mut Vec<bool>, place: usize)
    ensures { sigs.new.items ≡ marked_at sigs.old.items place }
{
    if place < sigs.len() {
        sigs[place] = true;
    }
}

/// What is said a number of, with that of one entry more.
fn with_single(single: Single, what: ScopeSubject) -> Single
    ensures { result ≡ with_single single what }
{
    match what {
        ScopeSubject::Sig(_) => single,
        ScopeSubject::Int => Single {
            bits: true,
            steps: single.steps,
        },
        ScopeSubject::Steps => Single {
            bits: single.bits,
            steps: true,
        },
        ScopeSubject::Overall => single,
        ScopeSubject::Unknown => single,
    }
}

/// The first name of an entry that may not stand.
fn bad_entry(
    alloc: Global,
    sigs: &[Sig],
    entries: &ScopeEntryList,
) -> Result<Option<Origin>, AllocError>
    ensures { IfOk result (λ o. o ≡ first_of (each_behind (bad_entry sigs.now) [] entries.now)) }
{
    let mut marks = vec![in alloc; false; sigs.len()]?;
    let mut single = Single {
        bits: false,
        steps: false,
    };
    let mut bad = None;
    for place in 0..entries.len() {
        let entry = entries.get(place);
        let repeated = is_marked(marks.as_slice(), single, entry.subject);
        let is_bad = may_not_stand(sigs, repeated, entry.exactly, entry.subject);
        bad = with_place(bad, is_bad, in_root(entry.name_place));
        mark(&mut marks, entry.subject);
        single = with_single(single, entry.subject);
    }
    Ok(bad)
}

/// The first place so far, with the opens that give `in` sigs to `exactly` parameters.
fn subset_opens(sigs: &[Sig], found: Option<Origin>) -> Option<Origin>
    ensures { result ≡ first_from found (each (open_of (λ (d : Sig). is_subset d.kind)) sigs.now) }
{
    let mut first = found;
    for sig in sigs {
        first = with_some_place(first, is_subset(&sig.kind), sig.exactly);
    }
    first
}

/// The first place at which a scope is given to what takes none, or twice, or by an `exactly` that can't
/// stand.
pub(crate) fn bad_scope(
    alloc: Global,
    sigs: &[Sig],
    entries: &ScopeEntryList,
) -> Result<Option<Origin>, AllocError>
    ensures { IfOk result (λ o. o ≡ first_of (bad_scopes sigs.now entries.now)) }
{
    let bad = bad_entry(alloc, sigs, entries)?;
    Ok(subset_opens(sigs, bad))
}

/// Whether an entry is for a sig that is `var`.
fn is_for_var(sigs: &[Sig], what: ScopeSubject) -> bool
    ensures { result ≡ is_for (λ (d : Sig). d.is_var) sigs.now what }
{
    match what {
        ScopeSubject::Sig(sig) => match sigs.get(sig as usize) {
            None => false,
            Some(found) => found.is_var,
        },
        ScopeSubject::Int => false,
        ScopeSubject::Steps => false,
        ScopeSubject::Overall => false,
        ScopeSubject::Unknown => false,
    }
}

/// Whether an entry gives a sig that is `var` just a number.
fn is_exact_var(sigs: &[Sig], exactly: bool, what: ScopeSubject) -> bool
    ensures { result ≡ (exactly && is_for (λ (d : Sig). d.is_var) sigs.now what) }
{
    exactly && is_for_var(sigs, what)
}

/// The first name of an entry with `exactly` for a sig that is `var`.
fn exact_var_entries(sigs: &[Sig], entries: &ScopeEntryList) -> Option<Origin>
    ensures { result ≡ first_of (each (exact_var_entry sigs.now) entries.now) }
{
    let mut first = None;
    for place in 0..entries.len() {
        let entry = entries.get(place);
        let is_bad = is_exact_var(sigs, entry.exactly, entry.subject);
        first = with_place(first, is_bad, in_root(entry.name_place));
    }
    first
}

/// The first place so far, with the opens that give `var` sigs to `exactly` parameters.
fn var_opens(sigs: &[Sig], found: Option<Origin>) -> Option<Origin>
    ensures { result ≡ first_from found (each (open_of (λ (d : Sig). d.is_var)) sigs.now) }
{
    let mut first = found;
    for sig in sigs {
        first = with_some_place(first, sig.is_var, sig.exactly);
    }
    first
}

/// The first place at which `exactly` counts for a sig that is `var`: at an entry's name, or at the
/// path of an open.
pub(crate) fn exact_var(sigs: &[Sig], entries: &ScopeEntryList) -> Option<Origin>
    ensures { result ≡ first_of (exact_vars sigs.now entries.now) }
{
    let listed = exact_var_entries(sigs, entries);
    var_opens(sigs, listed)
}

/// Whether a number contradicts the word before a static sig.
fn contradicts(sig: &Sig, number: u32) -> bool
    ensures { result ≡ contradicts number sig.now }
{
    (is_static_one(sig) && number != 1) || (is_static_lone(sig) && number > 1)
}

/// Whether an entry's number contradicts the word before its sig.
fn is_conflict(sigs: &[Sig], number: u32, what: ScopeSubject) -> bool
    ensures { result ≡ is_for (contradicts number) sigs.now what }
{
    match what {
        ScopeSubject::Sig(sig) => match sigs.get(sig as usize) {
            None => false,
            Some(found) => contradicts(found, number),
        },
        ScopeSubject::Int => false,
        ScopeSubject::Steps => false,
        ScopeSubject::Overall => false,
        ScopeSubject::Unknown => false,
    }
}

/// The first name of an entry whose number contradicts the word before its sig.
pub(crate) fn conflict(sigs: &[Sig], entries: &ScopeEntryList) -> Option<Origin>
    ensures { result ≡ first_of (conflicts sigs.now entries.now) }
{
    let mut first = None;
    for place in 0..entries.len() {
        let entry = entries.get(place);
        let is_bad = is_conflict(sigs, entry.number, entry.subject);
        first = with_place(first, is_bad, in_root(entry.name_place));
    }
    first
}
