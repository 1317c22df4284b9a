//! What the paragraph of a sig says of it, in the terms of the model.

use base_types::Position;
use core_tree::{Multiplicity, Origin};
use resolve_names::{Names, SigEntry, paragraph_at};
use std::alloc::{AllocError, Global};
use syntax_tree::{Loaded, Paragraph, Qualifier, Sig};

/// What a sig's paragraph says of it.
#[derive(Clone, Copy, Debug, Drop)]
pub(crate) struct Said {
    pub is_var: bool,
    pub is_abstract: bool,
    pub multiplicity: Multiplicity,
}

fn has(qualifiers: &[Qualifier], wanted: Qualifier) -> bool {
    for qualifier in qualifiers {
        if *qualifier == wanted {
            return true;
        }
    }
    false
}

fn word_of(qualifiers: &[Qualifier]) -> Multiplicity {
    for qualifier in qualifiers {
        match *qualifier {
            Qualifier::Lone => return Multiplicity::Lone,
            Qualifier::One => return Multiplicity::One,
            Qualifier::Some => return Multiplicity::Some,
            _ => {}
        }
    }
    Multiplicity::Set
}

fn said_of_sig(sig: &Sig) -> Said {
    let qualifiers = sig.qualifiers.as_slice();
    Said {
        is_var: has(qualifiers, Qualifier::Var),
        is_abstract: has(qualifiers, Qualifier::Abstract),
        multiplicity: word_of(qualifiers),
    }
}

/// An enum is abstract, and its members are `one`.
fn said_of_enum(member: u32) -> Said {
    Said {
        is_var: false,
        is_abstract: member == 0,
        multiplicity: if member == 0 {
            Multiplicity::Set
        } else {
            Multiplicity::One
        },
    }
}

/// What the paragraph of a sig says of it.
pub(crate) fn said_of(loaded: &Loaded, entry: &SigEntry) -> Said {
    match paragraph_at(loaded, entry.instance, entry.paragraph) {
        Some(Paragraph::Sig(sig)) => said_of_sig(sig),
        _ => said_of_enum(entry.member),
    }
}

/// Whether each sig is `var`.
pub fn all_vars(alloc: Global, loaded: &Loaded, names: &Names) -> Result<Vec<bool>, AllocError> {
    let mut all = Vec::new(alloc);
    for entry in names.sigs.as_slice() {
        let said = said_of(loaded, entry);
        all.push(said.is_var)?;
    }
    Ok(all)
}

fn paragraph_place(paragraph: &Paragraph) -> Option<Position> {
    match paragraph {
        Paragraph::Sig(sig) => Some(sig.place),
        Paragraph::Enum(e) => Some(e.place),
        _ => None,
    }
}

/// Where a sig was written.
pub(crate) fn origin_of(loaded: &Loaded, entry: &SigEntry) -> Option<Origin> {
    let paragraph = match paragraph_at(loaded, entry.instance, entry.paragraph) {
        None => return None,
        Some(paragraph) => paragraph,
    };
    match paragraph_place(paragraph) {
        None => None,
        Some(place) => Some(Origin {
            instance: entry.instance,
            place,
        }),
    }
}
