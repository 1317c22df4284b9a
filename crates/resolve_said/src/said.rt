//! Whether a resolved formula or expression says what the text's does.

ghost use Rattle.std.specs.Prelude.{IfOk, IsTrue};
ghost use Rattle.core_tree.specs.Trees.{claim_of, term_of};
ghost use Rattle.resolve_said.specs.Locals.{scope_of};
ghost use Rattle.resolve_said.specs.Said.{SaysFormula, SaysSet, standing_of};

use crate::part::Part;
use crate::place::Site;
use crate::scope::Locals;
use crate::walk::says;
use core_tree::{Expr, Formula};
use std::alloc::{AllocError, Global};
use syntax_tree::Expr as Tree;

/// Whether the resolved formula is what the formula of the text says where these names are in scope.
pub fn says_formula(
    alloc: Global,
    site: &Site<'_>,
    locals: &Locals<'_>,
    tree: &Tree,
    formula: &Formula,
) -> Result<bool, AllocError>
    ensures { IfOk result (λ b. IsTrue b → SaysFormula (standing_of site.now)
        (scope_of locals.now) tree.now (claim_of formula.now)) }
{
    let said = says(alloc, site, locals, tree, &Part::Formula(formula))?;
    Ok(said)
}

/// Whether the resolved expression is the set that the expression of the text says where these names are in scope.
pub fn says_set(
    alloc: Global,
    site: &Site<'_>,
    locals: &Locals<'_>,
    tree: &Tree,
    expr: &Expr,
) -> Result<bool, AllocError>
    ensures { IfOk result (λ b. IsTrue b → SaysSet (standing_of site.now)
        (scope_of locals.now) tree.now (term_of expr.now)) }
{
    let said = says(alloc, site, locals, tree, &Part::Set(expr))?;
    Ok(said)
}
