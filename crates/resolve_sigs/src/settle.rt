//! Settles the bounds of all fields, those of ancestors first.

use crate::bounds::{field_bound, field_type};
use crate::field_group;
use core_tree::Bound;
use resolve_expr::forms::bound_multiplicity;
use resolve_expr::known::Known;
use resolve_expr::roots::Resolved;
use resolve_expr::state::State;
use resolve_hierarchy::Hierarchy;
use resolve_names::{FieldEntry, Names};
use resolve_types::Columns;
use std::alloc::{AllocError, Global};
use syntax_tree::{Bound as Written, Loaded};

fn put_type(known: &mut Known, field: usize, columns: Columns) {
    if field < known.fields.len() {
        known.fields[field] = Some(columns);
    }
}

fn put_bound(bounds: &mut Vec<Option<Bound>>, field: usize, bound: Bound) {
    if field < bounds.len() {
        bounds[field] = Some(bound);
    }
}

fn settle_written(
    alloc: Global,
    loaded: &Loaded,
    names: &Names,
    hierarchy: &Hierarchy,
    known: &mut Known,
    field: usize,
    entry: &FieldEntry,
    written: &Written,
    state: &mut State,
    bounds: &mut Vec<Option<Bound>>,
) -> Result<(), AllocError> {
    let bound = field_bound(
        alloc, loaded, names, hierarchy, known, entry, written, state,
    )?;
    match bound {
        None => Ok(()),
        Some(bound) => {
            let Resolved { tree, columns } = bound;
            let whole = field_type(alloc, hierarchy, known, entry.sig, &columns)?;
            put_type(known, field, whole);
            let bound = Bound {
                multiplicity: bound_multiplicity(written.word, columns.count),
                expr: tree,
            };
            put_bound(bounds, field, bound);
            Ok(())
        }
    }
}

/// Settles the bound of a field.
fn settle_field(
    alloc: Global,
    loaded: &Loaded,
    names: &Names,
    hierarchy: &Hierarchy,
    known: &mut Known,
    field: usize,
    state: &mut State,
    bounds: &mut Vec<Option<Bound>>,
) -> Result<(), AllocError> {
    let entry = match names.fields.as_slice().get(field) {
        None => return Ok(()),
        Some(entry) => *entry,
    };
    match field_group(loaded, &entry) {
        None => Ok(()),
        Some(group) => settle_written(
            alloc,
            loaded,
            names,
            hierarchy,
            known,
            field,
            &entry,
            &group.bound,
            state,
            bounds,
        ),
    }
}

/// The place of the first field from this one on that another sig has.
fn next_start(entries: &[FieldEntry], from: usize, sig: usize) -> usize {
    for place in from..entries.len() {
        if entries[place].sig as usize != sig {
            return place;
        }
    }
    if from < entries.len() {
        entries.len()
    } else {
        from
    }
}

/// For each sig the number of its first field, and after them the number of fields.
fn field_starts(
    alloc: Global,
    entries: &[FieldEntry],
    sigs: usize,
) -> Result<Vec<usize>, AllocError> {
    let mut starts = Vec::new(alloc);
    let mut next = 0usize;
    for sig in 0..sigs {
        starts.push(next)?;
        next = next_start(entries, next, sig);
    }
    starts.push(next)?;
    Ok(starts)
}

fn start_of(starts: &[usize], place: usize) -> usize {
    match starts.get(place) {
        None => 0,
        Some(start) => *start,
    }
}

fn no_bounds(alloc: Global, count: usize) -> Result<Vec<Option<Bound>>, AllocError> {
    let mut bounds = Vec::new(alloc);
    for _ in 0..count {
        bounds.push(None)?;
    }
    Ok(bounds)
}

fn settle_range(
    alloc: Global,
    loaded: &Loaded,
    names: &Names,
    hierarchy: &Hierarchy,
    known: &mut Known,
    first: usize,
    end: usize,
    state: &mut State,
    bounds: &mut Vec<Option<Bound>>,
) -> Result<(), AllocError> {
    for field in first..end {
        settle_field(alloc, loaded, names, hierarchy, known, field, state, bounds)?;
    }
    Ok(())
}

/// Settles the bounds of all fields: those of ancestors first, then in text order. The types become
/// known; a field whose bound has no reading has none, and that is noted.
pub fn settle_fields(
    alloc: Global,
    loaded: &Loaded,
    names: &Names,
    hierarchy: &Hierarchy,
    known: &mut Known,
    state: &mut State,
) -> Result<Vec<Option<Bound>>, AllocError> {
    let mut bounds = no_bounds(alloc, names.fields.len())?;
    let starts = field_starts(alloc, names.fields.as_slice(), names.sigs.len())?;
    for sig in hierarchy.order.as_slice() {
        let first = start_of(starts.as_slice(), *sig as usize);
        let end = start_of(starts.as_slice(), (*sig as usize).saturating_add(1));
        settle_range(
            alloc,
            loaded,
            names,
            hierarchy,
            known,
            first,
            end,
            state,
            &mut bounds,
        )?;
    }
    Ok(bounds)
}
