//! Gathers the fields that the texts declare, in load order and then text order. Whether they are those is tested by the walk
//! along the texts.

use base_lists::Items;
use base_types::Name;
use std::alloc::{AllocError, Global};
use syntax_tree::{Field, FieldWord, Loaded, Named, Paragraph};

/// A field that a text declares.
#[derive(Drop)]
pub struct FieldDecl {
    pub name: Name,
    /// Whether it is seen in its own module alone.
    pub is_private: bool,
    /// The number of its instance.
    pub instance: u32,
    /// The number of its sig.
    pub owner: u32,
    /// The place of its list of names among those of the sig.
    pub list: u32,
}

fn is_private(words: &[FieldWord]) -> bool {
    for word in words {
        if matches!(*word, FieldWord::Private) {
            return true;
        }
    }
    false
}

/// Adds the fields of a list.
fn add_list(
    alloc: Global,
    all: &mut Items<FieldDecl>,
    instance: u32,
    owner: u32,
    list: u32,
    field: &Field,
) -> Result<(), AllocError> {
    let is_private = is_private(field.words.as_slice());
    for name in field.names.as_slice() {
        let name = Name::copy(alloc, name.name.text())?;
        all.push(FieldDecl {
            name,
            is_private,
            instance,
            owner,
            list,
        })?;
    }
    Ok(())
}

/// Adds the fields of all lists of a sig.
fn add_lists(
    alloc: Global,
    all: &mut Items<FieldDecl>,
    instance: u32,
    owner: u32,
    fields: &[Field],
) -> Result<(), AllocError> {
    let mut list: u32 = 0;
    for field in fields {
        add_list(alloc, all, instance, owner, list, field)?;
        list = list.saturating_add(1);
    }
    Ok(())
}

/// Adds the fields of the sigs of these names; the answer is the number of the next sig.
fn add_sigs(
    alloc: Global,
    all: &mut Items<FieldDecl>,
    instance: u32,
    first: u32,
    fields: &[Field],
    names: &[Named],
) -> Result<u32, AllocError> {
    let mut owner = first;
    for _name in names {
        add_lists(alloc, all, instance, owner, fields)?;
        owner = owner.saturating_add(1);
    }
    Ok(owner)
}

/// The number behind an enum and its members.
fn after_members(first: u32, members: &[Named]) -> u32 {
    let mut number = first.saturating_add(1);
    for _member in members {
        number = number.saturating_add(1);
    }
    number
}

/// Adds the fields of a paragraph's sigs; the answer is the number of the next sig.
fn add_paragraph(
    alloc: Global,
    all: &mut Items<FieldDecl>,
    instance: u32,
    first: u32,
    paragraph: &Paragraph,
) -> Result<u32, AllocError> {
    match paragraph {
        Paragraph::Sig(sig) => add_sigs(
            alloc,
            all,
            instance,
            first,
            sig.fields.as_slice(),
            sig.names.as_slice(),
        ),
        Paragraph::Enum(e) => Ok(after_members(first, e.members.as_slice())),
        _ => Ok(first),
    }
}

/// Adds the fields of an instance; the answer is the number of the next sig.
fn add_instance(
    alloc: Global,
    all: &mut Items<FieldDecl>,
    instance: u32,
    first: u32,
    paragraphs: &[Paragraph],
) -> Result<u32, AllocError> {
    let mut number = first;
    for paragraph in paragraphs {
        number = add_paragraph(alloc, all, instance, number, paragraph)?;
    }
    Ok(number)
}

/// The fields that all instances declare.
pub fn all_fields(alloc: Global, loaded: &Loaded) -> Result<Items<FieldDecl>, AllocError> {
    let texts = loaded.texts.as_slice();
    let mut all = Items::new(alloc);
    let mut number: u32 = 0;
    let mut place: u32 = 0;
    for instance in loaded.instances.as_slice() {
        if let Some(text) = texts.get(instance.text as usize) {
            let paragraphs = text.tree.paragraphs.as_slice();
            number = add_instance(alloc, &mut all, place, number, paragraphs)?;
        }
        place = place.saturating_add(1);
    }
    Ok(all)
}
