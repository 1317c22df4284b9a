//! Reads an expression as a value in the root, or gives the broken rule that counts first.

ghost use Rattle.std.specs.Prelude.{IfOk, IfErr};
ghost use Rattle.core_tree.specs.Trees.{term_of};
ghost use Rattle.resolve_check.specs.Kept.{IsRightValue};
ghost use Rattle.resolve_model.specs.Refused.{IsValueFault};

use crate::readings::picks_of;
use crate::refused::refused_value;
use crate::solve::{hierarchy_of, names_of, new_state};
use base_types::Fault;
use core_tree::{Expr, Model};
use resolve_check::keeps_value;
use resolve_expr::expression::prepare;
use resolve_expr::faults::Noted;
use resolve_expr::known::first_known;
use resolve_expr::pieces::settle_value;
use resolve_expr::places::first_place;
use resolve_expr::roots::{Resolved, draft_of};
use resolve_expr::state::new_root;
use resolve_hierarchy::Hierarchy;
use resolve_names::Names;
use resolve_paragraphs::{Sources, literals, setting_in, settle_fields, type_bodies};
use resolve_picks::Picks;
use std::alloc::{AllocError, Global};
use syntax_tree::{Expr as Tree, Loaded};

/// The tree of the value where no rule is broken; else the rule that counts first.
fn tree_or(value: Option<Resolved>, least: Option<Noted>) -> Result<Expr, Option<Noted>> {
    if least.is_some() {
        return Err(least);
    }
    match value {
        None => Err(None),
        Some(value) => Ok(tree_of(value)),
    }
}

fn tree_of(value: Resolved) -> Expr {
    let Resolved { tree, columns: _ } = value;
    tree
}

/// A resolved value, and what the names of its expression are taken to stand for.
#[derive(Drop)]
pub struct Value {
    pub value: Expr,
    pub picks: Picks,
}

/// The value, or the broken rule that counts first.
fn valued(
    alloc: Global,
    loaded: &Loaded,
    names: &Names,
    hierarchy: &Hierarchy,
    tree: &Tree,
) -> Result<Result<Value, Option<Noted>>, AllocError> {
    let literals = literals(alloc, loaded)?;
    let mut known = first_known(alloc, loaded, names, hierarchy, literals)?;
    let mut state = new_state(alloc);
    settle_fields(alloc, loaded, names, hierarchy, &mut known, &mut state)?;
    type_bodies(alloc, loaded, names, hierarchy, &mut known, &mut state)?;
    state.least = None;
    state.picks.truncate(0);
    let sources = Sources {
        loaded,
        names,
        hierarchy,
        known: &known,
    };
    let setting = setting_in(&sources, 0);
    state.locals.truncate(0);
    let mut root = new_root();
    let piece = prepare(alloc, &setting, &mut state, &mut root, false, tree)?;
    let start = first_place(tree);
    let draft = draft_of(alloc, piece)?;
    let value = settle_value(alloc, &setting, &mut state, root, start, draft)?;
    match tree_or(value, state.least) {
        Err(least) => Ok(Err(least)),
        Ok(value) => {
            let picks = picks_of(alloc, state.picks.as_slice())?;
            Ok(Ok(Value { value, picks }))
        }
    }
}

/// The expression, where it fits the model. The rules of reading make no other; it is tested once more
/// on the expression itself, and where it did not fit the answer would be want of memory.
fn fitting(alloc: Global, model: &Model, value: Expr) -> Result<Expr, AllocError>
    ensures { IfOk result (λ e. IsRightValue model.now (term_of e)) }
{
    let fits = keeps_value(alloc, model, &value)?;
    if fits { Ok(value) } else { Err(AllocError) }
}

/// Reads an expression as a `let` value in the root of the texts from which the model was made.
///
/// Refused as by `resolve`, where a rule on names in expressions or on readings is broken in it; the
/// place is one of the expression's own text. A string literal that no text has is an unknown name.
/// The expression fits the model: it has no free name, its numbers are in range, each part has the
/// columns that its place needs, and each call has its arguments.
pub fn resolve_value(
    alloc: Global,
    loaded: &Loaded,
    model: &Model,
    tree: &Tree,
) -> Result<Expr, Fault>
    ensures kept { IfOk result (λ e. IsRightValue model.now (term_of e)) }
    ensures fault { IfErr result IsValueFault }
{
    let Value { value, picks: _ } = resolve_value_with(alloc, loaded, model, tree)?;
    Ok(value)
}

/// The same, with what the names of the expression are taken to stand for.
pub fn resolve_value_with(
    alloc: Global,
    loaded: &Loaded,
    model: &Model,
    tree: &Tree,
) -> Result<Value, Fault>
    ensures kept { IfOk result (λ v. IsRightValue model.now (term_of v.value)) }
    ensures fault { IfErr result IsValueFault }
{
    let names = match names_of(alloc, loaded) {
        Err(_) => return Err(Fault::Memory),
        Ok(names) => names,
    };
    let hierarchy = match hierarchy_of(alloc, loaded, &names) {
        Err(_) => return Err(Fault::Memory),
        Ok(hierarchy) => hierarchy,
    };
    match valued(alloc, loaded, &names, &hierarchy, tree) {
        Ok(Ok(Value { value, picks })) => match fitting(alloc, model, value) {
            Err(_) => Err(Fault::Memory),
            Ok(value) => Ok(Value { value, picks }),
        },
        Ok(Err(Some(noted))) => Err(refused_value(noted)),
        Ok(Err(None)) => Err(Fault::Memory),
        Err(_) => Err(Fault::Memory),
    }
}
