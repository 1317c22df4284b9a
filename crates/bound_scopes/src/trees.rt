//! The rules that look into trees, each asked of all trees that count.

ghost use Rattle.std.specs.Prelude.{◌≤◌, map, Contains, IfOk, IfErr};
ghost use Rattle.base_types.specs.declared.place.Rule.TheVariants as rule;
ghost use Rattle.bound_definitions.specs.Places.{IsKept};
ghost use Rattle.bound_definitions.specs.Trees.{IsWideAt, deep_past, deep_calls};
ghost use Rattle.bound_scopes.specs.Limits.{IsAt, IsFaultOf};
ghost use Rattle.bound_scopes.specs.Roots.{counted_root};

use crate::asking::ask;
use crate::counted::Root;
use crate::deep::over_limit;
use crate::wide::wide_literal;
use base_types::{Fault, Rule};
use core_tree::Model;
use form_measures::Measure;
use std::alloc::Global;

/// Asks of all numbers that count that they are in the bitwidth (S46).
pub(crate) fn check_numbers(
    alloc: Global,
    model: &Model,
    roots: &[Root<'_>],
    bits: u32,
) -> Result<(), Fault>
    requires { (1 ≤ bits) × (bits ≤ 12) }
    ensures ok { IfOk result
        (λ _. IsKept (IsWideAt model.now.bodies (map counted_root roots.now) bits)) }
    ensures refused { IfErr result (IsFaultOf (IsAt rule.Literal
        (IsWideAt model.now.bodies (map counted_root roots.now) bits))) }
{
    let found = wide_literal(alloc, &model.bodies, roots, bits)?;
    ask(Rule::Literal, found)
}

/// Asks of all trees that count that they nest few enough past operators (S48).
pub(crate) fn check_past(alloc: Global, model: &Model, roots: &[Root<'_>]) -> Result<(), Fault>
    ensures ok { IfOk result
        (λ _. IsKept (Contains (deep_past model.now.bodies (map counted_root roots.now)))) }
    ensures refused { IfErr result (IsFaultOf (IsAt rule.PastDepth
        (Contains (deep_past model.now.bodies (map counted_root roots.now))))) }
{
    let found = over_limit(alloc, Measure::Past, &model.bodies, roots)?;
    ask(Rule::PastDepth, found)
}

/// Asks of all trees that count that they are shallow enough once calls are written out (S49).
pub(crate) fn check_depth(alloc: Global, model: &Model, roots: &[Root<'_>]) -> Result<(), Fault>
    ensures ok { IfOk result
        (λ _. IsKept (Contains (deep_calls model.now.bodies (map counted_root roots.now)))) }
    ensures refused { IfErr result (IsFaultOf (IsAt rule.DeepCalls
        (Contains (deep_calls model.now.bodies (map counted_root roots.now))))) }
{
    let found = over_limit(alloc, Measure::Depth, &model.bodies, roots)?;
    ask(Rule::DeepCalls, found)
}
