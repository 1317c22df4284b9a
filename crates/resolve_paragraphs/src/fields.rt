//! Makes the fields of a model.

use crate::sources::Sources;
use core_tree::{Bound, Field, FieldBound, FieldList};
use resolve_names::FieldEntry;
use resolve_sigs::{field_label, words_of};
use resolve_types::{Columns, Ground, model_rows, static_sig, static_type};
use std::alloc::{AllocError, Global};

fn static_field(
    alloc: Global,
    sources: &Sources<'_>,
    vars: &[bool],
    sig: u32,
    bound: &Bound,
    fields: &[Option<Columns>],
) -> Result<Columns, AllocError> {
    let ground = Ground {
        lines: &sources.known.typing.lines,
        members: sources.hierarchy.members.as_slice(),
        vars,
        univ: &sources.known.univ,
        iden: &sources.known.typing.iden,
        string: sources.known.string,
        fields,
    };
    let own = static_sig(alloc, &ground, sig)?;
    let mut locals = Vec::new(alloc);
    locals.push(Some(own.copy(alloc)?))?;
    let columns = static_type(alloc, &ground, &mut locals, &bound.expr)?;
    own.product(alloc, &sources.known.typing.lines, &columns)
}

fn put_columns(all: &mut Vec<Option<Columns>>, field: usize, columns: Columns) {
    if field < all.len() {
        all[field] = Some(columns);
    }
}

fn put_static(
    alloc: Global,
    sources: &Sources<'_>,
    vars: &[bool],
    bound: &Option<Bound>,
    sig: u32,
    field: usize,
    all: &mut Vec<Option<Columns>>,
) -> Result<(), AllocError> {
    match bound {
        None => Ok(()),
        Some(bound) => {
            let columns = static_field(alloc, sources, vars, sig, bound, all.as_slice())?;
            put_columns(all, field, columns);
            Ok(())
        }
    }
}

/// The fields of a sig, of all entries.
fn static_fields_of(
    alloc: Global,
    sources: &Sources<'_>,
    vars: &[bool],
    bounds: &[Option<Bound>],
    sig: u32,
    all: &mut Vec<Option<Columns>>,
) -> Result<(), AllocError> {
    let entries = sources.names.fields.as_slice();
    for field in 0..bounds.len() {
        match entries.get(field) {
            Some(entry) if entry.sig == sig => {
                put_static(alloc, sources, vars, &bounds[field], sig, field, all)?;
            }
            _ => {}
        }
    }
    Ok(())
}

fn no_columns(alloc: Global, count: usize) -> Result<Vec<Option<Columns>>, AllocError> {
    let mut all = Vec::new(alloc);
    for _ in 0..count {
        all.push(None)?;
    }
    Ok(all)
}

/// The static types of all fields, those that others may name first.
fn static_fields(
    alloc: Global,
    sources: &Sources<'_>,
    vars: &[bool],
    bounds: &[Option<Bound>],
) -> Result<Vec<Option<Columns>>, AllocError> {
    let mut all = no_columns(alloc, sources.names.fields.len())?;
    for sig in sources.hierarchy.order.as_slice() {
        static_fields_of(alloc, sources, vars, bounds, *sig, &mut all)?;
    }
    Ok(all)
}

fn disj_list(is_disjoint: bool, group: u32) -> Option<u32> {
    if is_disjoint { Some(group) } else { None }
}

fn name_at<'a>(sources: &Sources<'a>, field: usize) -> &'a str {
    match sources.known.field_names.as_slice().get(field) {
        None => "",
        Some(named) => named.0.text(),
    }
}

fn model_field(
    alloc: Global,
    sources: &Sources<'_>,
    field: usize,
    entry: &FieldEntry,
    bound: Bound,
    columns: &Columns,
) -> Result<Field, AllocError> {
    let name = name_at(sources, field);
    let words = words_of(sources.loaded, entry);
    Ok(Field {
        label: field_label(alloc, sources.loaded, sources.names, entry, name)?,
        columns: columns.count,
        rows: model_rows(alloc, columns)?,
        is_var: words.is_var,
        owner: Some(entry.sig),
        declared: Some(FieldBound {
            bound,
            disj_list: disj_list(words.is_disjoint, entry.group),
            disj_values: words.disj_values,
        }),
    })
}

fn add_field(
    alloc: Global,
    sources: &Sources<'_>,
    field: usize,
    bound: Option<Bound>,
    types: &[Option<Columns>],
    all: &mut FieldList,
) -> Result<(), AllocError> {
    let Some(bound) = bound else {
        return Ok(());
    };
    match (sources.names.fields.as_slice().get(field), types.get(field)) {
        (Some(entry), Some(Some(columns))) => {
            all.push(model_field(alloc, sources, field, entry, bound, columns)?)
        }
        _ => Ok(()),
    }
}

/// The fields of the model; one whose bound has no reading is left out.
pub fn model_fields(
    alloc: Global,
    sources: &Sources<'_>,
    vars: &[bool],
    bounds: Vec<Option<Bound>>,
) -> Result<FieldList, AllocError> {
    let types = static_fields(alloc, sources, vars, bounds.as_slice())?;
    let mut all = FieldList::new(alloc);
    let mut field = 0usize;
    for bound in bounds {
        add_field(alloc, sources, field, bound, types.as_slice(), &mut all)?;
        field = field.saturating_add(1);
    }
    Ok(all)
}
