//! Finds fields of one name in sigs that overlap.

use crate::faults::{Broken, Noted, note};
use crate::sigs::{members_of, some_meet};
use base_lists::Items;
use resolve_names::{FieldEntry, Names, paragraph_at};
use resolve_types::Member;
use std::alloc::{AllocError, Global};
use std::collections::HashMap;
use syntax_tree::{Loaded, Named, Paragraph};

/// The lines and members of all sigs.
#[derive(Drop)]
pub struct Types {
    pub lines: Items<Items<u32>>,
    pub members: Items<Items<Member>>,
}

/// The name of a field where it is declared.
fn field_name<'a>(loaded: &'a Loaded, entry: &FieldEntry) -> Option<&'a Named> {
    match paragraph_at(loaded, entry.instance, entry.paragraph) {
        Some(Paragraph::Sig(sig)) => {
            let group = sig.fields.as_slice().get(entry.group as usize)?;
            group.names.as_slice().get(entry.member as usize)
        }
        _ => None,
    }
}

/// Whether two fields are of one sig, or of sigs that overlap.
fn clash(types: &Types, a: &FieldEntry, b: &FieldEntry) -> bool {
    if a.sig == b.sig {
        return true;
    }
    let first = members_of(&types.members, a.sig as usize);
    let second = members_of(&types.members, b.sig as usize);
    some_meet(&types.lines, first, second)
}

/// For each field the number of the last one before it with its name.
fn earlier_fields(
    alloc: Global,
    loaded: &Loaded,
    entries: &[FieldEntry],
) -> Result<Vec<Option<usize>>, AllocError> {
    let mut last: HashMap<&str, usize> = HashMap::new(alloc);
    let mut earlier = Vec::new(alloc);
    for number in 0..entries.len() {
        match field_name(loaded, &entries[number]) {
            None => earlier.push(None)?,
            Some(named) => {
                let name = named.name.text();
                earlier.push(last.get(&name).copied())?;
                last.insert(name, number)?;
            }
        }
    }
    Ok(earlier)
}

fn before(earlier: &[Option<usize>], number: usize) -> Option<usize> {
    match earlier.get(number) {
        None => None,
        Some(before) => *before,
    }
}

/// Whether a field clashes with one of its name before it.
fn clashes(
    types: &Types,
    entries: &[FieldEntry],
    earlier: &[Option<usize>],
    number: usize,
) -> bool {
    let mut other = before(earlier, number);
    for _ in 0..entries.len() {
        let place = match other {
            None => return false,
            Some(place) => place,
        };
        match (entries.get(place), entries.get(number)) {
            (Some(a), Some(b)) => {
                if clash(types, a, b) {
                    return true;
                }
            }
            _ => return false,
        }
        other = before(earlier, place);
    }
    false
}

/// Notes each field that clashes with one of its name before it.
pub fn note_twice(
    alloc: Global,
    loaded: &Loaded,
    names: &Names,
    types: &Types,
    least: &mut Option<Noted>,
) -> Result<(), AllocError> {
    let entries = names.fields.as_slice();
    let earlier = earlier_fields(alloc, loaded, entries)?;
    for number in 0..entries.len() {
        if clashes(types, entries, earlier.as_slice(), number) {
            if let Some(named) = field_name(loaded, &entries[number]) {
                note(
                    least,
                    Noted {
                        instance: entries[number].instance,
                        place: named.place,
                        broken: Broken::FieldTwice,
                    },
                );
            }
        }
    }
    Ok(())
}
