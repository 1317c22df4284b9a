//! Reads the bound of a field, with `this` as its only local.

use crate::above_of;
use resolve_expr::expression::prepare;
use resolve_expr::known::{Known, sig_type};
use resolve_expr::locals::add_local;
use resolve_expr::pieces::settle_bound;
use resolve_expr::roots::Resolved;
use resolve_expr::state::{Ground, Setting, State, new_root};
use resolve_hierarchy::Hierarchy;
use resolve_names::{FieldEntry, Names};
use resolve_types::Columns;
use std::alloc::{AllocError, Global};
use syntax_tree::{Bound as Written, Loaded};

fn written_bound(
    alloc: Global,
    setting: &Setting<'_>,
    state: &mut State,
    written: &Written,
) -> Result<Option<Resolved>, AllocError> {
    let mut root = new_root();
    let piece = prepare(alloc, setting, state, &mut root, false, &written.tree)?;
    settle_bound(
        alloc,
        setting,
        state,
        root,
        written.place,
        written.word,
        piece,
        1,
    )
}

/// The bound of a field by its reading, with `this` as its only local.
pub(crate) fn field_bound(
    alloc: Global,
    loaded: &Loaded,
    names: &Names,
    hierarchy: &Hierarchy,
    known: &Known,
    entry: &FieldEntry,
    written: &Written,
    state: &mut State,
) -> Result<Option<Resolved>, AllocError> {
    let above = above_of(alloc, hierarchy, entry.sig)?;
    let setting = Setting {
        loaded,
        names,
        hierarchy,
        known,
        instance: entry.instance,
        ground: Ground::FieldBound(entry.group),
        above: above.as_slice(),
        is_quiet: false,
    };
    state.locals.truncate(0);
    let this = sig_type(alloc, hierarchy, entry.sig)?;
    add_local(alloc, &mut state.locals, "this", Some(this))?;
    let bound = written_bound(alloc, &setting, state, written)?;
    state.locals.truncate(0);
    Ok(bound)
}

/// The type of a field: the rows of its sig, each followed by a row of its bound.
pub(crate) fn field_type(
    alloc: Global,
    hierarchy: &Hierarchy,
    known: &Known,
    sig: u32,
    bound: &Columns,
) -> Result<Columns, AllocError> {
    let own = sig_type(alloc, hierarchy, sig)?;
    own.product(alloc, &known.typing.lines, bound)
}
