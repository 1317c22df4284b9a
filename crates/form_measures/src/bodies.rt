//! What the bodies of a model measure, each after those that it calls, and what trees measure with them.

ghost use Rattle.std.specs.Prelude.{◌≡◌, ◌<◌, ◌+◌, ◌^◌, nat_lt, length, List, IfOk};
ghost use Rattle.core_tree.specs.declared.model.Body.{Body};
ghost use Rattle.core_tree.specs.Trees.{term_of, claim_of};
ghost use Rattle.core_tree.specs.Past.{no_depths};
ghost use Rattle.form_measures.specs.Measured.{measured_in, measured_of, measured_within};
ghost use Rattle.form_measures.specs.Weights.{weight_at, AreUnknown, AreSummaries};

use crate::forms::Measure;
use crate::measure::{Summary, of_expr, of_formula, summary_of};
use crate::weight::{Weight, raised};
use core_tree::{BodyList, Expr, Formula, ItemList};
use std::alloc::{AllocError, Global};

/// What each body of a model measures, as far as that is known.
pub type Summaries = ItemList<Option<Summary>>;

/// A body and its call rank.
#[derive(Clone, Copy, Debug, PartialEq, Eq, Drop)]
struct Ranked {
    rank: u32,
    body: usize,
}

/// The bodies by their ranks.
fn by_rank(alloc: Global, bodies: &BodyList) -> Result<Vec<Ranked>, AllocError> {
    let mut ranked = Vec::new(alloc);
    for body in 0..bodies.len() {
        ranked.push(Ranked {
            rank: bodies.get(body).rank,
            body,
        })?;
    }
    ranked.sort_by_key(|entry: &Ranked| entry.rank)?;
    Ok(ranked)
}

/// Nothing known of so many bodies.
fn unknown(alloc: Global, count: usize) -> Result<Vec<Option<Summary>>, AllocError>
    ensures { IfOk result (λ v. AreUnknown v.items) }
{
    let mut summaries = Vec::new(alloc);
    for _body in 0..count {
        summaries.push(None)?;
    }
    Ok(summaries)
}

/// What each body of a model measures.
pub fn summaries(
    alloc: Global,
    measure: Measure,
    bodies: &BodyList,
) -> Result<Summaries, AllocError>
    ensures { IfOk result (λ s. AreSummaries measure bodies.now s) }
{
    let order = by_rank(alloc, bodies)?;
    let mut known = unknown(alloc, bodies.len())?;
    for turn in 0..bodies.len() {
        if turn >= order.len() {
            return Err(AllocError);
        }
        let entry = order[turn];
        let place = entry.body;
        if place >= bodies.len() {
            return Err(AllocError);
        }
        if place >= known.len() {
            return Err(AllocError);
        }
        let body = bodies.get(place);
        let count = body.parameters.len();
        let summary = summary_of(alloc, measure, known.as_slice(), count, &body.form)?;
        known[place] = Some(summary);
    }
    Ok(ItemList::from_vec(known))
}

/// What a tree measures in which no parameter stands.
fn own_of(weight: &Weight) -> u32
    ensures { result ≡ weight_at no_depths weight.now }
{
    let mut most = weight.own;
    let uses = weight.uses.as_slice();
    for used in uses {
        most = most.max(raised(used.depth, 0));
    }
    raised(0, most)
}

/// Whether a formula without free names measures more than a limit.
pub fn is_formula_over(
    alloc: Global,
    measure: Measure,
    bodies: &Summaries,
    formula: &Formula,
    limit: u32,
) -> Result<bool, AllocError>
    requires { limit + 1 < 2 ^ 32 }
    ensures { (list : List Body) → AreSummaries measure list bodies.now →
        IfOk result (λ b. b ≡ nat_lt limit (measured_of measure
        (measured_within measure list (length list)) (claim_of formula.now) no_depths)) }
{
    let names = Vec::new(alloc);
    let weight = of_formula(alloc, measure, bodies.as_slice(), names.as_slice(), formula)?;
    Ok(own_of(&weight) > limit)
}

/// Whether an expression without free names measures more than a limit.
pub fn is_expr_over(
    alloc: Global,
    measure: Measure,
    bodies: &Summaries,
    expr: &Expr,
    limit: u32,
) -> Result<bool, AllocError>
    requires { limit + 1 < 2 ^ 32 }
    ensures { (list : List Body) → AreSummaries measure list bodies.now →
        IfOk result (λ b. b ≡ nat_lt limit (measured_in measure
        (measured_within measure list (length list)) (term_of expr.now) no_depths)) }
{
    let names = Vec::new(alloc);
    let weight = of_expr(alloc, measure, bodies.as_slice(), names.as_slice(), expr)?;
    Ok(own_of(&weight) > limit)
}
