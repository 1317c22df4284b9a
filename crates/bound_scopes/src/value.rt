//! The rules on a value that is asked for.

ghost use Rattle.std.specs.Prelude.{◌≤◌, IfOk, IfErr};
ghost use Rattle.core_tree.specs.Trees.{term_of};
ghost use Rattle.bound_definitions.specs.Refusals.{IsValueKept, IsValueRefusal};
ghost use Rattle.bound_scopes.specs.Limits.{IsFaultOf, IsValueFault};

use crate::counted::counted_value;
use crate::trees::{check_depth, check_numbers, check_past};
use base_types::{Fault, Position};
use core_meaning::Scopes;
use core_tree::{Expr, Model};
use std::alloc::Global;

/// Asks of a value what a command is asked: that each of its numbers, those in the bodies that it
/// calls among them, is in the bitwidth (S46 at the number), and that it nests at most so many past
/// operators and is at most so deep (S48 and S49 at its first token). The first of these rules that
/// is broken is the refusal, at its first place; the value comes after all instances.
pub fn check_value(
    alloc: Global,
    model: &Model,
    scopes: &Scopes,
    value: &Expr,
    first: Position,
) -> Result<(), Fault>
    requires bits { (1 ≤ scopes.now.bits) × (scopes.now.bits ≤ 12) }
    ensures kept { IfOk result
        (λ _. IsValueKept model.now scopes.now.bits (term_of value.now) first) }
    ensures refused { IfErr result
        (IsFaultOf (IsValueRefusal model.now scopes.now.bits (term_of value.now) first)) }
    ensures fault { IfErr result (λ e. IsValueFault e) }
{
    check(alloc, model, scopes.bits, value, first)
}

/// The same under a bitwidth.
fn check(
    alloc: Global,
    model: &Model,
    bits: u32,
    value: &Expr,
    first: Position,
) -> Result<(), Fault>
    requires bits { (1 ≤ bits) × (bits ≤ 12) }
    ensures kept { IfOk result (λ _. IsValueKept model.now bits (term_of value.now) first) }
    ensures refused { IfErr result
        (IsFaultOf (IsValueRefusal model.now bits (term_of value.now) first)) }
{
    let roots = counted_value(alloc, value, first)?;
    let roots = roots.as_slice();
    check_numbers(alloc, model, roots, bits)?;
    check_past(alloc, model, roots)?;
    check_depth(alloc, model, roots)?;
    Ok(())
}
