//! What the paragraphs say of fields: their words, their labels, and where they stand.

use crate::labels::{joined, sig_label};
use base_types::Name;
use resolve_names::{FieldEntry, Names, paragraph_at};
use std::alloc::{AllocError, Global};
use syntax_tree::{Field, FieldWord, Loaded, Paragraph, Sig};

fn sig_paragraph(loaded: &Loaded, instance: u32, paragraph: u32) -> Option<&Sig> {
    match paragraph_at(loaded, instance, paragraph) {
        Some(Paragraph::Sig(sig)) => Some(sig),
        _ => None,
    }
}

/// The list of names in which a field stands.
pub fn field_group<'a>(loaded: &'a Loaded, entry: &FieldEntry) -> Option<&'a Field> {
    match sig_paragraph(loaded, entry.instance, entry.paragraph) {
        None => None,
        Some(sig) => sig.fields.as_slice().get(entry.group as usize),
    }
}

/// What a field's list of names says of it.
#[derive(Clone, Copy, Debug, PartialEq, Eq, Drop)]
pub struct FieldWords {
    pub is_var: bool,
    /// Whether `disj` stands before the names.
    pub is_disjoint: bool,
    /// Whether `disj` stands after the colon.
    pub disj_values: bool,
}

fn has(words: &[FieldWord], wanted: FieldWord) -> bool {
    for word in words {
        if *word == wanted {
            return true;
        }
    }
    false
}

fn words_in(group: &Field) -> FieldWords {
    let words = group.words.as_slice();
    FieldWords {
        is_var: has(words, FieldWord::Var),
        is_disjoint: has(words, FieldWord::Disj),
        disj_values: group.is_disjoint,
    }
}

/// The words of a field.
pub fn words_of(loaded: &Loaded, entry: &FieldEntry) -> FieldWords {
    match field_group(loaded, entry) {
        Some(group) => words_in(group),
        None => FieldWords {
            is_var: false,
            is_disjoint: false,
            disj_values: false,
        },
    }
}

/// The label of a field: its sig's label, a dot and its name.
pub fn field_label(
    alloc: Global,
    loaded: &Loaded,
    names: &Names,
    entry: &FieldEntry,
    name: &str,
) -> Result<Name, AllocError> {
    match names.sigs.as_slice().get(entry.sig as usize) {
        None => Name::copy(alloc, name),
        Some(sig) => {
            let label = sig_label(alloc, loaded, sig)?;
            joined(alloc, label.text(), ".", name)
        }
    }
}
