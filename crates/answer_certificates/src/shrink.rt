//! The deletion of facts: each that the others do without is left out, one after the other.

ghost use Rattle.std.specs.Prelude.{◌≡◌, ◌≢◌, ◌<◌, ℕ, true, length, IfOk};
ghost use Rattle.answer_search.specs.Clauses.{IsProofOf, IsRuledOut};
ghost use Rattle.answer_search.specs.Found.{IsRefuted, IsFoundWithin};
ghost use Rattle.answer_certificates.specs.Core.{GoesOnFrom, IsCore, IsLeft, IsSearchedFor, IsShrunk, IsTried};
ghost use Rattle.answer_certificates.specs.Parts.{is_out, AreNeededBelow};

use crate::facts::Core;
use crate::part::{drop_fact, is_dropped, kept_facts, part_of};
use crate::reach::drop_unreached;
use answer_search::{Found, Proof, search_target};
use bound_uppers::Bounds;
use core_meaning::Target;
use sat_decide::Chooser;
use std::alloc::{AllocError, Global};

/// What is searched, but for the facts.
#[derive(Clone, Copy)]
struct Question<'a> {
    target: &'a Target,
    /// The place of the first fact's formula.
    first: usize,
    facts: u32,
    limits: &'a Bounds,
    budget: Option<u64>,
}

/// Searches for a lasso of the target without the facts that are left out.
fn search<C: Chooser>(
    alloc: Global,
    question: &Question,
    dropped: &[bool],
    chooser: &mut C,
) -> Result<Found, AllocError>
    ensures found { IfOk result (IsFoundWithin question.now.limits.now.states question.now.budget) }
    ensures part { IfOk result (IsSearchedFor question.now.target.now question.now.first
        question.now.limits.now dropped.now) }
{
    let part = part_of(alloc, question.target, question.first, dropped)?;
    let found = search_target(alloc, &part, question.limits, chooser, question.budget)?;
    Ok(found)
}

/// Facts that are left out, with a refutation of the clauses for the others.
#[derive(Drop)]
struct Left {
    dropped: Vec<bool>,
    proof: Proof,
}

/// What one more search leaves.
#[derive(Drop)]
enum Tried {
    Left(Left),
    Unknown(Proof),
}

/// What is left where no fact is left out.
fn all_kept(alloc: Global, question: &Question, proof: Proof) -> Result<Left, AllocError>
    requires refuted { IsRefuted question.now.limits.now.states question.now.budget proof }
    requires says { IsProofOf question.now.target.now question.now.limits.now proof }
    requires ruled { IsRuledOut question.now.target.now question.now.limits.now }
    ensures { IfOk result (IsLeft question.now.target.now question.now.first question.now.facts
        question.now.limits.now question.now.budget) }
{
    let dropped = vec![in alloc; false; question.facts as usize]?;
    Ok(Left { dropped, proof })
}

/// Leaves out at once what the first refutation isn't drawn from.
fn trim<C: Chooser>(
    alloc: Global,
    question: &Question,
    proof: Proof,
    chooser: &mut C,
) -> Result<Tried, AllocError>
    requires refuted { IsRefuted question.now.limits.now.states question.now.budget proof }
    requires says { IsProofOf question.now.target.now question.now.limits.now proof }
    requires ruled { IsRuledOut question.now.target.now question.now.limits.now }
    ensures { IfOk result (IsTried question.now.target.now question.now.first question.now.facts
        question.now.limits.now question.now.budget) }
{
    let mut dropped = vec![in alloc; false; question.facts as usize]?;
    let is_less = drop_unreached(alloc, &proof, &mut dropped)?;
    if !is_less {
        let left = all_kept(alloc, question, proof)?;
        return Ok(Tried::Left(left));
    }
    match search(alloc, question, &dropped, chooser)? {
        Found::Refuted(smaller) => Ok(Tried::Left(Left {
            dropped,
            proof: smaller,
        })),
        Found::Unknown(spent) => Ok(Tried::Unknown(spent)),
        Found::Trace(_) => {
            // A part that holds all that a refutation is drawn from has none.
            let left = all_kept(alloc, question, proof)?;
            Ok(Tried::Left(left))
        }
    }
}

/// The flags, with one fact more that is left out.
fn without(alloc: Global, dropped: &[bool], fact: usize) -> Result<Vec<bool>, AllocError>
    ensures count { IfOk result (λ flags. length flags.items ≡ length dropped.now) }
    ensures out { fact < length dropped.now →
        IfOk result (λ flags. is_out flags.items fact ≡ true) }
    ensures others { (k : ℕ) → k ≢ fact → IfOk result (λ flags. is_out flags.items k
        ≡ is_out dropped.now k) }
{
    let mut flags = dropped.to_vec(alloc)?;
    drop_fact(&mut flags, fact);
    Ok(flags)
}

/// Leaves out a fact without which the others still rule out every lasso.
fn leave_out<C: Chooser>(
    alloc: Global,
    question: &Question,
    left: Left,
    fact: usize,
    chooser: &mut C,
) -> Result<Tried, AllocError>
    requires left { IsLeft question.now.target.now question.now.first question.now.facts
        question.now.limits.now question.now.budget left }
    requires within { fact < question.now.facts }
    ensures tried { IfOk result (IsTried question.now.target.now question.now.first
        question.now.facts question.now.limits.now question.now.budget) }
    ensures goes_on { IfOk result (GoesOnFrom question.now.target.now question.now.first
        question.now.limits.now fact left.dropped.items) }
{
    if is_dropped(&left.dropped, fact) {
        return Ok(Tried::Left(left));
    }
    let dropped = without(alloc, &left.dropped, fact)?;
    match search(alloc, question, &dropped, chooser)? {
        Found::Refuted(proof) => Ok(Tried::Left(Left { dropped, proof })),
        Found::Unknown(proof) => Ok(Tried::Unknown(proof)),
        Found::Trace(_) => Ok(Tried::Left(left)),
    }
}

/// The facts that are kept.
fn facts_of(alloc: Global, question: &Question, left: Left) -> Result<Core, AllocError>
    requires left { IsLeft question.now.target.now question.now.first question.now.facts
        question.now.limits.now question.now.budget left }
    requires needed { AreNeededBelow question.now.target.now question.now.first
        question.now.limits.now left.dropped.items question.now.facts }
    ensures { IfOk result (IsShrunk question.now.target.now question.now.first question.now.facts
        question.now.limits.now question.now.budget) }
{
    let kept = kept_facts(alloc, question.facts, &left.dropped)?;
    Ok(Core::Refuted {
        kept,
        proof: left.proof,
    })
}

/// Leaves out each fact without which the others still rule out every lasso.
fn shrink<C: Chooser>(
    alloc: Global,
    question: &Question,
    left: Left,
    chooser: &mut C,
) -> Result<Core, AllocError>
    requires { IsLeft question.now.target.now question.now.first question.now.facts
        question.now.limits.now question.now.budget left }
    ensures { IfOk result (IsShrunk question.now.target.now question.now.first question.now.facts
        question.now.limits.now question.now.budget) }
{
    let mut rest = left;
    for fact in 0..question.facts as usize {
        match leave_out(alloc, question, rest, fact, chooser)? {
            Tried::Left(smaller) => rest = smaller,
            Tried::Unknown(proof) => return Ok(Core::Unknown(proof)),
        }
    }
    let core = facts_of(alloc, question, rest)?;
    Ok(core)
}

/// Facts of the target, whose formulas are `facts` ones from `first_fact` on, that rule out every lasso together with its
/// other formulas, where each of them is tried in order and left out if it can be; or a lasso that keeps all. So each fact that
/// stays is needed: without it a lasso meets what is asked.
///
/// The last formula of the target is the command's and stands behind those of the facts. The bounds are those of the model,
/// and each search is within them. The budget counts for each search. The only error is want of memory.
///
/// A lasso shows the sequence of one within the bounds that meets the target. The lemmas of a refutation are new, and at most
/// as many as the budget.
pub fn find_core<C: Chooser>(
    alloc: Global,
    target: &Target,
    bounds: &Bounds,
    first_fact: u32,
    facts: u32,
    chooser: &mut C,
    budget: Option<u64>,
) -> Result<Core, AllocError>
    ensures { IfOk result (IsCore target.now first_fact facts bounds.now budget) }
{
    let question = Question {
        target,
        first: first_fact as usize,
        facts,
        limits: bounds,
        budget,
    };
    match search_target(alloc, target, bounds, chooser, budget)? {
        Found::Trace(lasso) => Ok(Core::Trace(lasso)),
        Found::Unknown(proof) => Ok(Core::Unknown(proof)),
        Found::Refuted(proof) => {
            let tried = trim(alloc, &question, proof, chooser)?;
            let core = shrunk(alloc, &question, tried, chooser)?;
            Ok(core)
        }
    }
}

/// What is kept of what the first two searches leave.
fn shrunk<C: Chooser>(
    alloc: Global,
    question: &Question,
    tried: Tried,
    chooser: &mut C,
) -> Result<Core, AllocError>
    requires { IsTried question.now.target.now question.now.first question.now.facts
        question.now.limits.now question.now.budget tried }
    ensures { IfOk result (IsShrunk question.now.target.now question.now.first question.now.facts
        question.now.limits.now question.now.budget) }
{
    match tried {
        Tried::Left(left) => {
            let core = shrink(alloc, question, left, chooser)?;
            Ok(core)
        }
        Tried::Unknown(proof) => Ok(Core::Unknown(proof)),
    }
}
