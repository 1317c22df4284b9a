//! The limits on nested past operators, and on depth once calls are written out.

ghost use Rattle.std.specs.Prelude.{◌≡◌, ◌≤◌, List, map, IfOk};
ghost use Rattle.core_tree.specs.declared.model.Body.{Body};
ghost use Rattle.bound_definitions.specs.Places.{first_of};
ghost use Rattle.form_measures.specs.Weights.{AreSummaries};
ghost use Rattle.bound_scopes.specs.Deep.{limit_of, is_deep, deep_places};
ghost use Rattle.bound_scopes.specs.Roots.{counted_root, counted_tree};

use crate::counted::{Root, Tree};
use base_types::limits::{INLINED_DEPTH, PAST_DEPTH};
use core_tree::{BodyList, Origin};
use form_measures::{Measure, Summaries, is_expr_over, is_formula_over, summaries, with_place};
use std::alloc::{AllocError, Global};

/// How much there may be of what is measured.
fn limit_of(measure: Measure) -> u32
    ensures is { result ≡ limit_of measure }
    ensures few { result ≤ 2000 }
{
    match measure {
        Measure::Past => PAST_DEPTH,
        Measure::Depth => INLINED_DEPTH,
    }
}

/// Whether a tree is over its limit.
fn is_deep(
    alloc: Global,
    measure: Measure,
    bodies: &Summaries,
    tree: Tree<'_>,
) -> Result<bool, AllocError>
    ensures { (list : List Body) → AreSummaries measure list bodies.now →
        IfOk result (λ b. b ≡ is_deep measure list (counted_tree tree.entry)) }
{
    match tree {
        Tree::Formula(formula) => {
            let limit = limit_of(measure);
            let over = is_formula_over(alloc, measure, bodies, formula, limit)?;
            Ok(over)
        }
        Tree::Expr(expr) => {
            let limit = limit_of(measure);
            let over = is_expr_over(alloc, measure, bodies, expr, limit)?;
            Ok(over)
        }
    }
}

/// The first tree over its limit, at the beginning of its paragraph.
pub(crate) fn over_limit(
    alloc: Global,
    measure: Measure,
    bodies: &BodyList,
    roots: &[Root<'_>],
) -> Result<Option<Origin>, AllocError>
    ensures { IfOk result (λ o.
        o ≡ first_of (deep_places measure bodies.now (map counted_root roots.now))) }
{
    let known = summaries(alloc, measure, bodies)?;
    let mut first = None;
    for place in 0..roots.len() {
        let Some(root) = roots.get(place) else {
            // There is one at each place.
            return Err(AllocError);
        };
        let over = is_deep(alloc, measure, &known, root.tree)?;
        first = with_place(first, over, root.at);
    }
    Ok(first)
}
