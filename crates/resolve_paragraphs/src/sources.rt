//! The sources of a model: all that its parts are made from.

use crate::always_true;
use core_tree::Formula;
use resolve_expr::expression::prepare;
use resolve_expr::known::Known;
use resolve_expr::places::inner_place;
use resolve_expr::roots::formula_of;
use resolve_expr::state::{Ground, Setting, State, new_root};
use resolve_hierarchy::Hierarchy;
use resolve_names::Names;
use std::alloc::{AllocError, Global};
use syntax_tree::{Expr as Tree, Loaded};

/// All that a model is made from.
#[derive(Drop)]
pub struct Sources<'a> {
    pub loaded: &'a Loaded,
    pub names: &'a Names,
    pub hierarchy: &'a Hierarchy,
    pub known: &'a Known,
}

/// The setting of what stands in an instance, where everything that is visible may stand.
pub fn setting_in<'a>(sources: &Sources<'a>, instance: u32) -> Setting<'a> {
    Setting {
        loaded: sources.loaded,
        names: sources.names,
        hierarchy: sources.hierarchy,
        known: sources.known,
        instance,
        ground: Ground::Anywhere,
        above: &[],
        is_quiet: false,
    }
}

/// The formula of a block; none where something in it was refused.
pub(crate) fn block_formula(
    alloc: Global,
    setting: &Setting<'_>,
    state: &mut State,
    block: &Tree,
) -> Result<Option<Formula>, AllocError> {
    let mut root = new_root();
    let piece = prepare(alloc, setting, state, &mut root, true, block)?;
    let start = inner_place(block);
    formula_of(alloc, setting, state, root, start, piece)
}

/// The formula of a block in which no name is local; where it was refused, one that always holds.
pub(crate) fn closed_formula(
    alloc: Global,
    setting: &Setting<'_>,
    state: &mut State,
    block: &Tree,
) -> Result<Formula, AllocError> {
    state.locals.truncate(0);
    match block_formula(alloc, setting, state, block)? {
        None => Ok(always_true(alloc)),
        Some(formula) => Ok(formula),
    }
}
