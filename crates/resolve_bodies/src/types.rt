//! The types of bodies come from their bounds alone, without the formulas in them.

use crate::head::{Head, head_of};
use resolve_expr::known::{Known, Signature};
use resolve_expr::roots::Resolved;
use resolve_expr::state::{Ground, Setting, State};
use resolve_hierarchy::Hierarchy;
use resolve_names::{BodyEntry, Names, paragraph_at};
use resolve_types::Columns;
use std::alloc::{AllocError, Global};
use syntax_tree::Loaded;

fn result_type(bound: Option<Resolved>) -> Option<Columns> {
    match bound {
        None => None,
        Some(bound) => {
            let Resolved { tree: _, columns } = bound;
            Some(columns)
        }
    }
}

/// The types of a body; none where a bound has no reading.
fn signature_of(head: Head) -> Option<Signature> {
    let Head {
        parameters: _,
        types,
        result: bound,
        result_word: _,
        is_right,
    } = head;
    if !is_right {
        return None;
    }
    Some(Signature {
        parameters: types,
        result: result_type(bound),
    })
}

fn put_signature(known: &mut Known, body: usize, signature: Option<Signature>) {
    if body < known.bodies.len() {
        known.bodies[body] = signature;
    }
}

fn type_body(
    alloc: Global,
    loaded: &Loaded,
    names: &Names,
    hierarchy: &Hierarchy,
    known: &Known,
    entry: &BodyEntry,
    state: &mut State,
) -> Result<Option<Signature>, AllocError> {
    let setting = Setting {
        loaded,
        names,
        hierarchy,
        known,
        instance: entry.instance,
        ground: Ground::BodyBound,
        above: &[],
        is_quiet: true,
    };
    match paragraph_at(loaded, entry.instance, entry.paragraph) {
        None => Ok(None),
        Some(paragraph) => {
            let head = head_of(alloc, &setting, state, paragraph)?;
            Ok(signature_of(head))
        }
    }
}

/// The types of all bodies: of their bounds alone, without the formulas in them. Nothing is noted.
pub fn type_bodies(
    alloc: Global,
    loaded: &Loaded,
    names: &Names,
    hierarchy: &Hierarchy,
    known: &mut Known,
    state: &mut State,
) -> Result<(), AllocError> {
    let entries = names.bodies.as_slice();
    for body in 0..entries.len() {
        let entry = &entries[body];
        let signature = type_body(alloc, loaded, names, hierarchy, known, entry, state)?;
        put_signature(known, body, signature);
    }
    Ok(())
}
