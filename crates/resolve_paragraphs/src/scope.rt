//! Makes the scopes of commands.

use crate::words::last_text;
use base_types::Position;
use core_tree::{ScopeEntry, ScopeEntryList, ScopeSubject};
use resolve_names::{Decl, Names};
use std::alloc::{AllocError, Global};
use syntax_tree::{QualName, Scope, ScopeEntry as Written, ScopeTarget, SigName};

fn add_sig(found: &mut Vec<Option<u32>>, names: &Names, decl: Decl) -> Result<(), AllocError> {
    match decl {
        Decl::Sig(sig) => found.push(names.sig_number(sig))?,
        Decl::Parameter(Some(sig)) => found.push(names.sig_number(sig))?,
        Decl::Parameter(None) => found.push(None)?,
        _ => {}
    }
    Ok(())
}

/// The sigs that a name in an instance stands for, by their numbers; a parameter that stands for
/// `Int` is none of them.
fn named_sigs(
    alloc: Global,
    names: &Names,
    instance: u32,
    name: &QualName,
) -> Result<Vec<Option<u32>>, AllocError> {
    let mut found = Vec::new(alloc);
    if instance as usize >= names.scopes.len() {
        return Ok(found);
    }
    let decls = names.candidates(alloc, instance, name)?;
    for decl in decls.as_slice() {
        add_sig(&mut found, names, *decl)?;
    }
    Ok(found)
}

fn is_steps(name: &QualName) -> bool {
    !name.is_own && name.parts.len() == 1 && last_text(name) == "steps"
}

fn name_subject(
    alloc: Global,
    names: &Names,
    instance: u32,
    name: &QualName,
) -> Result<ScopeSubject, AllocError> {
    if is_steps(name) {
        return Ok(ScopeSubject::Steps);
    }
    let found = named_sigs(alloc, names, instance, name)?;
    match found.as_slice() {
        [Some(sig)] => Ok(ScopeSubject::Sig(*sig)),
        _ => Ok(ScopeSubject::Unknown),
    }
}

/// What an entry is for.
fn entry_subject(
    alloc: Global,
    names: &Names,
    instance: u32,
    target: &ScopeTarget,
) -> Result<ScopeSubject, AllocError> {
    match target {
        ScopeTarget::Bits(_) => Ok(ScopeSubject::Int),
        ScopeTarget::Sig(SigName::Int(_)) => Ok(ScopeSubject::Int),
        ScopeTarget::Sig(SigName::Name(name)) => name_subject(alloc, names, instance, name),
    }
}

fn target_place(target: &ScopeTarget) -> Position {
    match target {
        ScopeTarget::Bits(place) => *place,
        ScopeTarget::Sig(SigName::Int(place)) => *place,
        ScopeTarget::Sig(SigName::Name(name)) => name.place,
    }
}

fn add_entries(
    alloc: Global,
    names: &Names,
    instance: u32,
    entries: &[Written],
    all: &mut ScopeEntryList,
) -> Result<(), AllocError> {
    for entry in entries {
        let subject = entry_subject(alloc, names, instance, &entry.target)?;
        all.push(ScopeEntry {
            number_place: entry.number.place,
            name_place: target_place(&entry.target),
            number: entry.number.value,
            exactly: entry.is_exact,
            subject,
        })?;
    }
    Ok(())
}

fn add_overall(all: &mut ScopeEntryList, place: Position, number: u32) -> Result<(), AllocError> {
    all.push(ScopeEntry {
        number_place: place,
        name_place: place,
        number,
        exactly: false,
        subject: ScopeSubject::Overall,
    })
}

fn add_scope(
    alloc: Global,
    names: &Names,
    instance: u32,
    scope: &Scope,
    all: &mut ScopeEntryList,
) -> Result<(), AllocError> {
    match scope {
        Scope::Overall(number) => add_overall(all, number.place, number.value),
        Scope::But(number, entries) => {
            add_overall(all, number.place, number.value)?;
            add_entries(alloc, names, instance, entries.as_slice(), all)
        }
        Scope::Entries(entries) => add_entries(alloc, names, instance, entries.as_slice(), all),
    }
}

/// The entries of a scope that stands in an instance.
pub fn scope_of(
    alloc: Global,
    names: &Names,
    instance: u32,
    scope: &Option<Scope>,
) -> Result<ScopeEntryList, AllocError> {
    let mut all = ScopeEntryList::new(alloc);
    match scope {
        None => {}
        Some(scope) => add_scope(alloc, names, instance, scope, &mut all)?,
    }
    Ok(all)
}
