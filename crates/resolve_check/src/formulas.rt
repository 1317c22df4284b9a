//! Tests the formulas and bounds of a model that may call every body.

ghost use Rattle.std.specs.Prelude.{◌≡◌, ℕ, ◌<◌, IfOk, IfSome, IsTrue, slice_index};
ghost use Rattle.core_tree.specs.Trees.{term_of, claim_of};
ghost use Rattle.core_tree.specs.Models.{AnyField, AnyBody, NoFunction, IsRightFormula, this_column, shapes_of};
ghost use Rattle.core_tree.specs.Columns.{IsRightClaim, IsRightTerm, no_columns};
ghost use Rattle.resolve_check.specs.Names.{names_of};
ghost use Rattle.resolve_check.specs.Fits.{shapes_in, bounded, bound_limits, columns_at};

use crate::columns::{bounded, is_there};
use crate::names::{NameList, with_name};
use crate::shape::{Calls, Limits, Shape};
use crate::walk::{columns_at, is_right};
use core_tree::{Bound, Expr, Formula};
use std::alloc::{AllocError, Global};

/// The name `this` alone.
pub fn this_name(alloc: Global) -> Result<NameList, AllocError>
    ensures { IfOk result (λ all. names_of all ≡ this_column) }
{
    with_name(alloc, &NameList::new(alloc), 0, 1)
}

/// Whether a formula that may call every body is right.
pub fn is_right_formula(
    alloc: Global,
    shape: &Shape,
    names: &NameList,
    formula: &Formula,
) -> Result<bool, AllocError>
    ensures { IfOk result (λ b. IsTrue b → IsRightClaim (shapes_in shape.now) AnyField AnyBody
        (claim_of formula.now) (names_of names.now)) }
{
    let limits = Limits {
        below: None,
        calls: Calls::Any,
        look: true,
    };
    is_right(alloc, shape, limits, names, formula)
}

/// Whether an expression that may call every function is right.
pub fn is_right_term(
    alloc: Global,
    shape: &Shape,
    names: &NameList,
    expr: &Expr,
) -> Result<bool, AllocError>
    ensures { IfOk result (λ b. IsTrue b → IsRightTerm (shapes_in shape.now) AnyField AnyBody
        (term_of expr.now) (names_of names.now)) }
{
    let limits = Limits {
        below: None,
        calls: Calls::Any,
        look: true,
    };
    let columns = columns_at(alloc, shape, limits, names, expr)?;
    Ok(is_there(columns))
}

/// The columns of a right bound that calls no function.
pub fn bound_columns(
    alloc: Global,
    shape: &Shape,
    below: Option<usize>,
    names: &NameList,
    bound: &Bound,
) -> Result<Option<u32>, AllocError>
    ensures { IfOk result (λ o. o ≡ bounded bound.now.multiplicity
        (columns_at shape.now (bound_limits below) (term_of bound.now.expr) (names_of names.now))) }
{
    let limits = Limits {
        below,
        calls: Calls::NoFunction,
        look: true,
    };
    let columns = columns_at(alloc, shape, limits, names, &bound.expr)?;
    Ok(bounded(bound.multiplicity, columns))
}
