//! What is known of the declarations so far: the types of sigs, fields and bodies.

use crate::forms::has_private;
use crate::locals::number_of;
use crate::meanings::column_of;
use base_lists::Items;
use base_types::Name;
use resolve_hierarchy::{Hierarchy, Kind};
use resolve_names::{FieldEntry, Names, paragraph_at, text_of};
use resolve_readings::Typing;
use resolve_types::{Columns, Member};
use std::alloc::{AllocError, Global};
use syntax_tree::{Loaded, Module, Named, Paragraph};

/// The types of a body's parameters and of its result.
#[derive(Drop)]
pub struct Signature {
    pub parameters: Items<Columns>,
    /// The type of the result; none of a predicate.
    pub result: Option<Columns>,
}

/// What is known of the declarations so far.
#[derive(Drop)]
pub struct Known {
    pub typing: Typing,
    pub univ: Columns,
    /// The number of the sig `String`; the literals' sigs have those after it.
    pub string: u32,
    /// The literals, in the order of their bytes.
    pub literals: Items<Name>,
    /// The instance of the integers that is opened implicitly.
    pub integer: Option<u32>,
    /// The name of each field, and whether it is private.
    pub field_names: Items<(Name, bool)>,
    /// The type of each field; none where its bound isn't resolved.
    pub fields: Vec<Option<Columns>>,
    /// Whether each body is a function.
    pub functions: Items<bool>,
    /// The types of each body; none where a bound of it isn't resolved.
    pub bodies: Vec<Option<Signature>>,
}

/// The type of a sig, by its number.
pub fn sig_type(alloc: Global, hierarchy: &Hierarchy, sig: u32) -> Result<Columns, AllocError> {
    match hierarchy.members.as_slice().get(sig as usize) {
        None => column_of(alloc, &[]),
        Some(members) => column_of(alloc, members.as_slice()),
    }
}

fn is_top(kind: &Kind) -> bool {
    matches!(kind, Kind::Top)
}

/// The type of `univ`: the top-level sigs and `Int`.
pub fn univ_type(alloc: Global, hierarchy: &Hierarchy) -> Result<Columns, AllocError> {
    let mut members = Vec::new(alloc);
    let kinds = hierarchy.kinds.as_slice();
    for sig in 0..kinds.len() {
        if is_top(&kinds[sig]) {
            if let Ok(number) = u32::try_from(sig) {
                members.push(Member::Sig(number))?;
            }
        }
    }
    members.push(Member::Int)?;
    column_of(alloc, members.as_slice())
}

/// The name of a field where it is declared, with the words before it.
fn field_name<'a>(loaded: &'a Loaded, entry: &FieldEntry) -> Option<&'a Named> {
    match paragraph_at(loaded, entry.instance, entry.paragraph) {
        Some(Paragraph::Sig(sig)) => {
            let group = sig.fields.as_slice().get(entry.group as usize)?;
            group.names.as_slice().get(entry.member as usize)
        }
        _ => None,
    }
}

fn is_private_field(loaded: &Loaded, entry: &FieldEntry) -> bool {
    match paragraph_at(loaded, entry.instance, entry.paragraph) {
        Some(Paragraph::Sig(sig)) => match sig.fields.as_slice().get(entry.group as usize) {
            None => false,
            Some(group) => has_private(group.words.as_slice()),
        },
        _ => false,
    }
}

fn field_names(
    alloc: Global,
    loaded: &Loaded,
    names: &Names,
) -> Result<Items<(Name, bool)>, AllocError> {
    let mut all = Items::new(alloc);
    for entry in names.fields.as_slice() {
        let text = match field_name(loaded, entry) {
            None => "",
            Some(named) => named.name.text(),
        };
        let name = Name::copy(alloc, text)?;
        all.push((name, is_private_field(loaded, entry)))?;
    }
    Ok(all)
}

fn functions(alloc: Global, loaded: &Loaded, names: &Names) -> Result<Items<bool>, AllocError> {
    let mut all = Items::new(alloc);
    for entry in names.bodies.as_slice() {
        let paragraph = paragraph_at(loaded, entry.instance, entry.paragraph);
        all.push(matches!(paragraph, Some(Paragraph::Fun(_))))?;
    }
    Ok(all)
}

fn count_enums(module: &Module) -> usize {
    let mut count = 0usize;
    for paragraph in module.paragraphs.as_slice() {
        if matches!(paragraph, Paragraph::Enum(_)) {
            count = count.saturating_add(1);
        }
    }
    count
}

/// The instance of the integers that the root opens implicitly: the open after those that are
/// written and those that enums imply.
fn integer_of(loaded: &Loaded) -> Option<u32> {
    let text = text_of(loaded, 0)?;
    let root = loaded.instances.as_slice().get(0)?;
    let before = text
        .tree
        .opens
        .len()
        .saturating_add(count_enums(&text.tree));
    let open = root.opens.as_slice().get(before)?;
    Some(open.instance)
}

fn nones<T: Drop>(alloc: Global, count: usize) -> Result<Vec<Option<T>>, AllocError> {
    let mut all = Vec::new(alloc);
    for _ in 0..count {
        all.push(None)?;
    }
    Ok(all)
}

/// Nothing resolved yet.
pub fn first_known(
    alloc: Global,
    loaded: &Loaded,
    names: &Names,
    hierarchy: &Hierarchy,
    literals: Items<Name>,
) -> Result<Known, AllocError> {
    let univ = univ_type(alloc, hierarchy)?;
    let mut lines = Items::new(alloc);
    for line in hierarchy.lines.as_slice() {
        lines.push(Items::from_slice(alloc, line.as_slice())?)?;
    }
    let iden = univ.product(alloc, &lines, &univ)?;
    let string = number_of(names.sigs.len());
    Ok(Known {
        typing: Typing { lines, iden },
        univ,
        string,
        literals,
        integer: integer_of(loaded),
        field_names: field_names(alloc, loaded, names)?,
        fields: nones(alloc, names.fields.len())?,
        functions: functions(alloc, loaded, names)?,
        bodies: nones(alloc, names.bodies.len())?,
    })
}

/// The number of a sig of an instance, and whether it is of the integers that are opened
/// implicitly.
pub fn is_integer(known: &Known, instance: u32) -> bool {
    match known.integer {
        None => false,
        Some(integer) => integer == instance,
    }
}

/// The literal's place in the order of the literals.
pub fn literal_number(known: &Known, text: &Name) -> Option<u32> {
    let literals = known.literals.as_slice();
    for place in 0..literals.len() {
        if literals[place].text() == text.text() {
            return u32::try_from(place).ok();
        }
    }
    None
}
