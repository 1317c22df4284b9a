//! What stands in the text of an instance outside of all sigs, where parameters are in scope.

ghost use Rattle.std.specs.Prelude.{◌≡◌, IfOk, IfSome, IsTrue};
ghost use Rattle.core_tree.specs.Trees.{claim_of, term_of};
ghost use Rattle.resolve_said.specs.Locals.{under_decls};
ghost use Rattle.resolve_said.specs.Said.{standing_of, SaysSet, SaysFormula};
ghost use Rattle.resolve_told.specs.Bodies.{this_scope};
ghost use Rattle.resolve_told_sigs.specs.Says as says;

use core_tree::{Expr, Formula, Model};
use resolve_names::Names;
use resolve_read::Readings;
use resolve_said::{Locals, Site, says_formula, says_set};
use resolve_told_sigs::picks_of;
use std::alloc::{AllocError, Global};
use syntax_tree::{Decl, Expr as Tree};

/// The text of an instance, outside of all sigs; none where nothing is told of its names.
pub fn outside<'a>(
    names: &'a Names,
    model: &'a Model,
    readings: &'a Readings,
    instance: u32,
) -> Option<Site<'a>>
    ensures standing { IfSome result (λ s. standing_of s
        ≡ says.outside names.now.scopes model.now readings.now instance) }
    ensures instance { IfSome result (λ s. s.instance ≡ instance) }
    ensures model { IfSome result (λ s. s.model.now ≡ model.now) }
{
    match picks_of(readings, instance) {
        None => None,
        Some(picks) => Some(Site {
            names,
            model,
            instance,
            own: &[],
            picks,
        }),
    }
}

/// Whether a text says an expression, where the names of declarations are in scope, and outside of them `this` where it is there.
pub fn is_set_said(
    alloc: Global,
    site: &Site<'_>,
    has_this: bool,
    decls: &[Decl<Tree>],
    tree: &Tree,
    expr: &Expr,
) -> Result<bool, AllocError>
    ensures { IfOk result (λ b. IsTrue b → SaysSet (standing_of site.now)
        (under_decls (this_scope has_this) decls.now) tree.now (term_of expr.now)) }
{
    let empty = Locals::Empty;
    if !has_this {
        let locals = Locals::Declared(decls, &empty);
        let is_said = says_set(alloc, site, &locals, tree, expr)?;
        return Ok(is_said);
    }
    let this = Locals::One("this", &empty);
    let locals = Locals::Declared(decls, &this);
    let is_said = says_set(alloc, site, &locals, tree, expr)?;
    Ok(is_said)
}

/// The same of a formula.
pub fn is_formula_said(
    alloc: Global,
    site: &Site<'_>,
    has_this: bool,
    decls: &[Decl<Tree>],
    tree: &Tree,
    formula: &Formula,
) -> Result<bool, AllocError>
    ensures { IfOk result (λ b. IsTrue b → SaysFormula (standing_of site.now)
        (under_decls (this_scope has_this) decls.now) tree.now (claim_of formula.now)) }
{
    let empty = Locals::Empty;
    if !has_this {
        let locals = Locals::Declared(decls, &empty);
        let is_said = says_formula(alloc, site, &locals, tree, formula)?;
        return Ok(is_said);
    }
    let this = Locals::One("this", &empty);
    let locals = Locals::Declared(decls, &this);
    let is_said = says_formula(alloc, site, &locals, tree, formula)?;
    Ok(is_said)
}
