//! Finds the parents of sigs, as they are declared.

use crate::faults::{Broken, Noted, note};
use base_lists::Items;
use base_types::Position;
use resolve_names::{Decl, Names, SigEntry, paragraph_at};
use resolve_types::Member;
use std::alloc::{AllocError, Global};
use syntax_tree::{Enumeration, Loaded, Paragraph, Parents, QualName, Sig, SigName};

/// A parent that was found, with the place of its first token.
#[derive(Clone, Copy, Debug, Drop)]
pub struct Parent {
    pub member: Member,
    pub place: Position,
}

/// What stands after the name of a sig, with the parents that were found.
#[derive(Drop)]
pub struct Above {
    pub instance: u32,
    pub is_subset: bool,
    pub parents: Items<Parent>,
}

/// The member that a declaration names, where it is a sig or a parameter.
fn member_of(names: &Names, decl: Decl) -> Option<Member> {
    match decl {
        Decl::Sig(sig) => match names.sig_number(sig) {
            Some(number) => Some(Member::Sig(number)),
            None => None,
        },
        Decl::Parameter(None) => Some(Member::Int),
        Decl::Parameter(Some(sig)) => match names.sig_number(sig) {
            Some(number) => Some(Member::Sig(number)),
            None => None,
        },
        _ => None,
    }
}

/// The only member that the declarations name.
fn only_member(names: &Names, decls: &[Decl]) -> Option<Member> {
    let mut found = None;
    for decl in decls {
        match member_of(names, *decl) {
            None => {}
            Some(member) => {
                if found.is_some() {
                    return None;
                }
                found = Some(member);
            }
        }
    }
    found
}

/// The one sig, or `Int` by a parameter, that a name stands for in an instance.
pub fn named_member(
    alloc: Global,
    names: &Names,
    instance: u32,
    name: &QualName,
) -> Result<Option<Member>, AllocError> {
    if instance as usize >= names.scopes.len() {
        return Ok(None);
    }
    let decls = names.candidates(alloc, instance, name)?;
    Ok(only_member(names, decls.as_slice()))
}

/// The parent that a name stands for; where it stands for not one, that is noted.
fn found_parent(
    alloc: Global,
    names: &Names,
    instance: u32,
    name: &SigName,
    least: &mut Option<Noted>,
) -> Result<Option<Parent>, AllocError> {
    match name {
        SigName::Int(place) => Ok(Some(Parent {
            member: Member::Int,
            place: *place,
        })),
        SigName::Name(name) => match named_member(alloc, names, instance, name)? {
            Some(member) => Ok(Some(Parent {
                member,
                place: name.place,
            })),
            None => {
                note(
                    least,
                    Noted {
                        instance,
                        place: name.place,
                        broken: Broken::NoParent,
                    },
                );
                Ok(None)
            }
        },
    }
}

fn subset_parents(
    alloc: Global,
    names: &Names,
    instance: u32,
    list: &[SigName],
    least: &mut Option<Noted>,
) -> Result<Items<Parent>, AllocError> {
    let mut parents = Items::new(alloc);
    for name in list {
        parents.push_some(found_parent(alloc, names, instance, name, least)?)?;
    }
    Ok(parents)
}

/// What stands after the names of sigs.
fn above_sig(
    alloc: Global,
    names: &Names,
    instance: u32,
    sig: &Sig,
    least: &mut Option<Noted>,
) -> Result<Above, AllocError> {
    match &sig.parents {
        Parents::Top => Ok(top(alloc, instance)),
        Parents::Extends(name) => {
            let parent = found_parent(alloc, names, instance, name, least)?;
            extends(alloc, instance, parent)
        }
        Parents::Subset(list) => {
            let parents = subset_parents(alloc, names, instance, list.as_slice(), least)?;
            Ok(Above {
                instance,
                is_subset: true,
                parents,
            })
        }
    }
}

fn top(alloc: Global, instance: u32) -> Above {
    Above {
        instance,
        is_subset: false,
        parents: Items::new(alloc),
    }
}

fn extends(alloc: Global, instance: u32, parent: Option<Parent>) -> Result<Above, AllocError> {
    let mut parents = Items::new(alloc);
    parents.push_some(parent)?;
    Ok(Above {
        instance,
        is_subset: false,
        parents,
    })
}

/// A member of an enum extends it; the enum itself is a top-level sig.
fn above_member(
    alloc: Global,
    number: usize,
    entry: &SigEntry,
    e: &Enumeration,
) -> Result<Above, AllocError> {
    let before = number.saturating_sub(entry.member as usize);
    match u32::try_from(before) {
        Ok(parent) if entry.member > 0 => extends(
            alloc,
            entry.instance,
            Some(Parent {
                member: Member::Sig(parent),
                place: e.name.place,
            }),
        ),
        _ => Ok(top(alloc, entry.instance)),
    }
}

/// The parents of a sig.
fn make_above(
    alloc: Global,
    loaded: &Loaded,
    names: &Names,
    number: usize,
    entry: &SigEntry,
    least: &mut Option<Noted>,
) -> Result<Above, AllocError> {
    match paragraph_at(loaded, entry.instance, entry.paragraph) {
        Some(Paragraph::Sig(sig)) => above_sig(alloc, names, entry.instance, sig, least),
        Some(Paragraph::Enum(e)) => above_member(alloc, number, entry, e),
        _ => Ok(top(alloc, entry.instance)),
    }
}

/// The parents of each sig.
pub fn all_above(
    alloc: Global,
    loaded: &Loaded,
    names: &Names,
    least: &mut Option<Noted>,
) -> Result<Vec<Above>, AllocError> {
    let mut all = Vec::new(alloc);
    let entries = names.sigs.as_slice();
    for number in 0..entries.len() {
        all.push(make_above(alloc, loaded, names, number, &entries[number], least)?)?;
    }
    Ok(all)
}

/// Whether a sig is a subset sig.
fn is_subset(all: &[Above], sig: u32) -> bool {
    match all.get(sig as usize) {
        None => false,
        Some(above) => above.is_subset,
    }
}

/// Notes where a sig extends `Int` or a subset sig.
fn note_extends(all: &[Above], above: &Above, least: &mut Option<Noted>) {
    if above.is_subset {
        return;
    }
    for parent in above.parents.as_slice() {
        let wrong = match parent.member {
            Member::Int => true,
            Member::Sig(sig) => is_subset(all, sig),
        };
        if wrong {
            note(
                least,
                Noted {
                    instance: above.instance,
                    place: parent.place,
                    broken: Broken::ExtendsSubset,
                },
            );
        }
    }
}

/// Notes each sig that extends `Int` or a subset sig.
pub fn note_all_extends(all: &[Above], least: &mut Option<Noted>) {
    for above in all {
        note_extends(all, above, least);
    }
}
