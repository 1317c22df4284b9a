//! Makes the sigs of the model: those that are declared, `String`, and those of the literals.

use crate::exact::all_exact;
use crate::labels::{joined, sig_label};
use crate::said::{origin_of, said_of};
use base_types::Name;
use core_tree::{Column, Formula, Multiplicity, Origin, ParentList, Sig, SigKind, SigList};
use resolve_hierarchy::{Hierarchy, Kind};
use resolve_names::{Names, SigEntry};
use resolve_types::Member;
use std::alloc::{AllocError, Global};
use syntax_tree::Loaded;

fn parent(member: Member) -> Column {
    match member {
        Member::Int => Column::Int,
        Member::Sig(sig) => Column::Sig(sig),
    }
}

fn parent_list(alloc: Global, members: &[Member]) -> Result<ParentList, AllocError> {
    let mut all = ParentList::new(alloc);
    for member in members {
        all.push(parent(*member))?;
    }
    Ok(all)
}

fn model_kind(alloc: Global, hierarchy: &Hierarchy, sig: usize) -> Result<SigKind, AllocError> {
    match hierarchy.kinds.as_slice().get(sig) {
        None => Ok(SigKind::Top),
        Some(Kind::Top) => Ok(SigKind::Top),
        Some(Kind::Extends(parent)) => Ok(SigKind::Extends(*parent)),
        Some(Kind::Subset(members)) => {
            Ok(SigKind::Subset(parent_list(alloc, members.as_slice())?))
        }
    }
}

fn exact_of(all: &[Option<Origin>], place: usize) -> Option<Origin> {
    match all.get(place) {
        None => None,
        Some(origin) => *origin,
    }
}

fn string_sig(alloc: Global) -> Result<Sig, AllocError> {
    Ok(Sig {
        origin: None,
        label: Name::copy(alloc, "String")?,
        is_var: false,
        is_abstract: true,
        multiplicity: Multiplicity::Set,
        kind: SigKind::Top,
        appended: None,
        exactly: None,
    })
}

fn literal_sig(alloc: Global, string: u32, text: &Name) -> Result<Sig, AllocError> {
    Ok(Sig {
        origin: None,
        label: joined(alloc, "\"", text.text(), "\"")?,
        is_var: false,
        is_abstract: false,
        multiplicity: Multiplicity::One,
        kind: SigKind::Extends(string),
        appended: None,
        exactly: None,
    })
}

fn model_sig(
    alloc: Global,
    loaded: &Loaded,
    hierarchy: &Hierarchy,
    place: usize,
    entry: &SigEntry,
    appended: Option<Formula>,
    exactly: Option<Origin>,
) -> Result<Sig, AllocError> {
    let said = said_of(loaded, entry);
    Ok(Sig {
        origin: origin_of(loaded, entry),
        label: sig_label(alloc, loaded, entry)?,
        is_var: said.is_var,
        is_abstract: said.is_abstract,
        multiplicity: said.multiplicity,
        kind: model_kind(alloc, hierarchy, place)?,
        appended,
        exactly,
    })
}

fn declared_sigs(
    alloc: Global,
    loaded: &Loaded,
    names: &Names,
    hierarchy: &Hierarchy,
    appended: Vec<Option<Formula>>,
) -> Result<SigList, AllocError> {
    let exact = all_exact(alloc, loaded, names)?;
    let mut sigs = SigList::new(alloc);
    let entries = names.sigs.as_slice();
    let mut place = 0usize;
    for formula in appended {
        if let Some(entry) = entries.get(place) {
            let origin = exact_of(exact.as_slice(), place);
            sigs.push(model_sig(alloc, loaded, hierarchy, place, entry, formula, origin)?)?;
        }
        place = place.saturating_add(1);
    }
    Ok(sigs)
}

/// The sigs of the model: those that are declared, each with its appended fact, then `String`, of
/// that number, and the literals' sigs.
pub fn model_sigs(
    alloc: Global,
    loaded: &Loaded,
    names: &Names,
    hierarchy: &Hierarchy,
    string: u32,
    literals: &[Name],
    appended: Vec<Option<Formula>>,
) -> Result<SigList, AllocError> {
    let mut sigs = declared_sigs(alloc, loaded, names, hierarchy, appended)?;
    sigs.push(string_sig(alloc)?)?;
    for text in literals {
        sigs.push(literal_sig(alloc, string, text)?)?;
    }
    Ok(sigs)
}
