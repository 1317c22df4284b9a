//! The label of a sig is its name, behind the label of its instance.

use base_types::Name;
use resolve_names::{SigEntry, paragraph_at};
use std::alloc::{AllocError, Global};
use syntax_tree::{Enumeration, Loaded, Paragraph, Sig};

fn member_name(sig: &Sig, member: u32) -> &str {
    match sig.names.as_slice().get(member as usize) {
        None => "",
        Some(named) => named.name.text(),
    }
}

fn enum_name(e: &Enumeration, member: u32) -> &str {
    match member.checked_sub(1) {
        None => e.name.name.text(),
        Some(place) => match e.members.as_slice().get(place as usize) {
            None => "",
            Some(named) => named.name.text(),
        },
    }
}

/// The name of a sig where it is declared.
fn sig_name<'a>(loaded: &'a Loaded, entry: &SigEntry) -> &'a str {
    match paragraph_at(loaded, entry.instance, entry.paragraph) {
        Some(Paragraph::Sig(sig)) => member_name(sig, entry.member),
        Some(Paragraph::Enum(e)) => enum_name(e, entry.member),
        _ => "",
    }
}

fn instance_label(loaded: &Loaded, instance: u32) -> &str {
    match loaded.instances.as_slice().get(instance as usize) {
        None => "",
        Some(instance) => instance.label.text(),
    }
}

/// Two texts with another one between them.
pub(crate) fn joined(
    alloc: Global,
    first: &str,
    between: &str,
    second: &str,
) -> Result<Name, AllocError> {
    let mut text = String::from_str(alloc, first)?;
    text.push_str(between)?;
    text.push_str(second)?;
    Name::copy(alloc, text.as_str())
}

/// The label of a sig: its name, behind the label of its instance and `/` where that has one.
pub fn sig_label(alloc: Global, loaded: &Loaded, entry: &SigEntry) -> Result<Name, AllocError> {
    let label = instance_label(loaded, entry.instance);
    let name = sig_name(loaded, entry);
    if label.is_empty() {
        return Name::copy(alloc, name);
    }
    joined(alloc, label, "/", name)
}
