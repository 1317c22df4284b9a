//! Expressions without parts that are roots or parts of a root themselves: names, constants, numbers and literals.

ghost use Rattle.std.specs.Prelude.{◌≡◌, IfOk, IfSome};
ghost use Rattle.resolve_rules.specs.Prepared.{tree_of};
ghost use Rattle.resolve_read.specs.At.{at_of, scope_of};
ghost use Rattle.resolve_read.specs.Reads.{Reads};

use crate::candidates::{picked_field, picked_name, type_of_constant};
use crate::draft::{Draft, known_draft, name_draft, only_draft};
use crate::locals::{Locals, type_of};
use crate::meanings::column_of;
use crate::spot::Spot;
use resolve_types::Member;
use std::alloc::{AllocError, Global};
use syntax_tree::{Constant, Expr as Tree};

/// A name as a part of its root.
fn reads_name(
    alloc: Global,
    spot: &Spot<'_>,
    locals: &Locals<'_>,
    tree: &Tree,
) -> Result<Option<Draft>, AllocError>
    ensures { IfOk result (λ r. IfSome r (λ d. Reads (at_of spot.now) (scope_of locals.now)
        tree.now (tree_of d.part) d.choice)) }
{
    match tree {
        Tree::Name(name) => {
            let picked = picked_name(alloc, spot, locals, name)?;
            match picked {
                None => Ok(None),
                Some(chosen) => {
                    let draft = name_draft(alloc, chosen)?;
                    Ok(Some(draft))
                }
            }
        }
        _ => Ok(None),
    }
}

/// A name behind `@` as a part of its root.
fn reads_field(
    alloc: Global,
    spot: &Spot<'_>,
    locals: &Locals<'_>,
    tree: &Tree,
) -> Result<Option<Draft>, AllocError>
    ensures { IfOk result (λ r. IfSome r (λ d. Reads (at_of spot.now) (scope_of locals.now)
        tree.now (tree_of d.part) d.choice)) }
{
    let _locals = locals;
    match tree {
        Tree::At(_, name) => {
            let picked = picked_field(alloc, spot, name)?;
            match picked {
                None => Ok(None),
                Some(chosen) => {
                    let draft = name_draft(alloc, chosen)?;
                    Ok(Some(draft))
                }
            }
        }
        _ => Ok(None),
    }
}

/// `this` as a part of its root.
fn reads_this(
    alloc: Global,
    spot: &Spot<'_>,
    locals: &Locals<'_>,
    tree: &Tree,
) -> Result<Option<Draft>, AllocError>
    ensures { IfOk result (λ r. IfSome r (λ d. Reads (at_of spot.now) (scope_of locals.now)
        tree.now (tree_of d.part) d.choice)) }
{
    let _spot = spot;
    match tree {
        Tree::Constant(_, word) => match *word {
            Constant::This => match type_of(locals, "this") {
                None => Ok(None),
                Some(columns) => {
                    let columns = columns.copy(alloc)?;
                    let draft = only_draft(alloc, columns)?;
                    Ok(Some(draft))
                }
            },
            _ => Ok(None),
        },
        _ => Ok(None),
    }
}

/// A constant other than `this` as a part of its root.
fn reads_constant(
    alloc: Global,
    spot: &Spot<'_>,
    locals: &Locals<'_>,
    tree: &Tree,
) -> Result<Option<Draft>, AllocError>
    ensures { IfOk result (λ r. IfSome r (λ d. Reads (at_of spot.now) (scope_of locals.now)
        tree.now (tree_of d.part) d.choice)) }
{
    match tree {
        Tree::Constant(_, word) => {
            let found = type_of_constant(alloc, spot, *word)?;
            match found {
                None => {
                    let draft = reads_this(alloc, spot, locals, tree)?;
                    Ok(draft)
                }
                Some(columns) => Ok(Some(known_draft(alloc, columns))),
            }
        }
        _ => Ok(None),
    }
}

/// A number or a literal as a part of its root.
fn reads_value(
    alloc: Global,
    spot: &Spot<'_>,
    locals: &Locals<'_>,
    tree: &Tree,
) -> Result<Option<Draft>, AllocError>
    ensures { IfOk result (λ r. IfSome r (λ d. Reads (at_of spot.now) (scope_of locals.now)
        tree.now (tree_of d.part) d.choice)) }
{
    let _locals = locals;
    match tree {
        Tree::Number(_, _) => {
            let draft = known_draft(alloc, column_of(alloc, Member::Int)?);
            Ok(Some(draft))
        }
        Tree::Negative(_, _) => {
            let draft = known_draft(alloc, column_of(alloc, Member::Int)?);
            Ok(Some(draft))
        }
        Tree::Literal(_, _) => {
            let found = type_of_constant(alloc, spot, Constant::String)?;
            match found {
                None => Ok(None),
                Some(columns) => Ok(Some(known_draft(alloc, columns))),
            }
        }
        _ => Ok(None),
    }
}

/// An expression without parts, as a part of its root.
pub fn reads_leaf(
    alloc: Global,
    spot: &Spot<'_>,
    locals: &Locals<'_>,
    tree: &Tree,
) -> Result<Option<Draft>, AllocError>
    ensures { IfOk result (λ r. IfSome r (λ d. Reads (at_of spot.now) (scope_of locals.now)
        tree.now (tree_of d.part) d.choice)) }
{
    match tree {
        Tree::Name(_) => reads_name(alloc, spot, locals, tree),
        Tree::At(_, _) => reads_field(alloc, spot, locals, tree),
        Tree::Constant(_, _) => reads_constant(alloc, spot, locals, tree),
        _ => reads_value(alloc, spot, locals, tree),
    }
}
