//! The search for a lasso that satisfies a model and its command, from loading to the answer.

ghost use Rattle.std.specs.Prelude.{◌≤◌, ℕ, length, Option, IfOk, IfErr, IsTrue};
ghost use Rattle.bound_uppers.specs.Shortest.{HasFewestStates};
ghost use Rattle.answer_laws.specs.Form.{IsLassoOf};
ghost use Rattle.answer_search.specs.Clauses.{RulesOut, SaysTargetWithin};
ghost use Rattle.answer_search.specs.Found.{IsFoundWithin};
ghost use Rattle.answer_search.specs.declared.found.Found.TheVariants as found;
ghost use Rattle.answer_analysis.specs.Found.{IsFound, IsFoundIn, IsLoadedFault, IsTraceOf};

use crate::answer::Answer;
use crate::fault::AnalyseFault;
use crate::ready::{Prepared, Ready, prepare_loaded};
use answer_checks::fits_labels;
use answer_search::{Found, Proof, search_target};
use answer_texts::table;
use bound_laws::satisfying_lassos_are_candidates;
use core_meaning::Lasso;
use eval_check::satisfies;
use sat_decide::{Boxed, Chooser};
use std::alloc::{AllocError, Global};
use syntax_tree::Loaded;

/// Looks for a lasso that satisfies the declarations and facts of a loaded model and the command
/// of that number.
///
/// Where there is none of as many states as the command's scopes have, the answer has clauses that just such lassos
/// satisfy, of these the canonical ones, and lines that refute them. Only under a budget the search may end before it
/// knows. Refused as
/// [`ready_loaded`](crate::ready_loaded()) is.
pub fn analyse_loaded(
    alloc: Global,
    loaded: Loaded,
    command: u32,
    chooser: Box<dyn Chooser>,
    budget: Option<u64>,
) -> Result<Answer, AnalyseFault>
    ensures found { IfOk result (IsFound loaded command budget) }
    ensures fault { IfErr result (IsLoadedFault loaded command) }
{
    let prepared = prepare_loaded(alloc, loaded, command)?;
    let answer = search_prepared(alloc, prepared, chooser, budget)?;
    Ok(answer)
}

/// Whether a lasso is one of the labels of a model that was made ready, and satisfies the model and its command, by their
/// meaning alone.
pub fn is_trace(alloc: Global, ready: &Ready, lasso: &Lasso) -> Result<bool, AllocError>
    ensures trace { IfOk result (λ b. IsTrue b → IsTraceOf ready.now lasso.now) }
    ensures fits { IfOk result (λ b. IsTrue b → IsLassoOf ready.now.labels lasso.now) }
{
    if !fits_labels(&ready.labels, lasso) {
        return Ok(false);
    }
    let model = &ready.model;
    if ready.command as usize >= model.commands.len() {
        // The command is one of the model's.
        return Err(AllocError);
    }
    let command = model.commands.get(ready.command as usize);
    let holds = satisfies(alloc, model, &ready.scopes, lasso, &command.formula)?;
    Ok(holds)
}

/// The answer of a search in a model that was made ready. A lasso is an answer only where it is one of the labels and satisfies
/// the model and the command by their meaning: that is tested on it, though no search is known to find another.
pub fn search_prepared(
    alloc: Global,
    prepared: Prepared,
    chooser: Box<dyn Chooser>,
    budget: Option<u64>,
) -> Result<Answer, AllocError>
    ensures { IfOk result (IsFoundIn prepared budget) }
{
    let mut boxed = Boxed { chooser };
    let found = found_in(alloc, &prepared, &mut boxed, budget)?;
    match found {
        Found::Trace(lasso) => trace_of(alloc, prepared, lasso),
        Found::Refuted(proof) => refuted_of(alloc, &prepared, proof),
        Found::Unknown(proof) => unknown_of(alloc, &prepared, proof),
    }
}

/// What a search for the target of a prepared model comes to.
fn found_in<C: Chooser>(
    alloc: Global,
    prepared: &Prepared,
    chooser: &mut C,
    budget: Option<u64>,
) -> Result<Found, AllocError>
    ensures found { IfOk result (IsFoundWithin prepared.now.ready.bounds.states budget) }
    ensures says { IfOk result (SaysTargetWithin prepared.now.target prepared.now.ready.bounds) }
    ensures none { IfOk result (RulesOut prepared.now.target prepared.now.ready.bounds) }
{
    let bounds = &prepared.ready.bounds;
    let found = search_target(alloc, &prepared.target, bounds, chooser, budget)?;
    Ok(found)
}

/// The answer that there is none.
fn refuted_of(alloc: Global, prepared: &Prepared, proof: Proof) -> Result<Answer, AllocError>
    ensures { (budget : Option ℕ) →
        IsFoundWithin prepared.now.ready.bounds.states budget (found.Refuted proof) →
        SaysTargetWithin prepared.now.target prepared.now.ready.bounds (found.Refuted proof) →
        RulesOut prepared.now.target prepared.now.ready.bounds (found.Refuted proof) →
        IfOk result (IsFoundIn prepared.now budget) }
{
    satisfying_lassos_are_candidates();
    let ready = &prepared.ready;
    let table = table(alloc, &ready.labels, &ready.bounds, &proof.layout)?;
    Ok(Answer::Refuted {
        table,
        states: proof.states,
        cnf: proof.cnf,
        lines: proof.lines,
    })
}

/// The answer that a budget is spent.
fn unknown_of(alloc: Global, prepared: &Prepared, proof: Proof) -> Result<Answer, AllocError>
    ensures { (budget : Option ℕ) →
        IsFoundWithin prepared.now.ready.bounds.states budget (found.Unknown proof) →
        SaysTargetWithin prepared.now.target prepared.now.ready.bounds (found.Unknown proof) →
        IfOk result (IsFoundIn prepared.now budget) }
{
    let ready = &prepared.ready;
    let table = table(alloc, &ready.labels, &ready.bounds, &proof.layout)?;
    Ok(Answer::Unknown {
        table,
        cnf: proof.cnf,
        lines: proof.lines,
    })
}

/// The answer that a lasso is which a search has found.
fn trace_of(alloc: Global, prepared: Prepared, lasso: Lasso) -> Result<Answer, AllocError>
    requires few { length lasso.states ≤ prepared.ready.bounds.states }
    requires fewest { HasFewestStates lasso }
    ensures { (budget : Option ℕ) → IfOk result (IsFoundIn prepared budget) }
{
    let ready = prepared.ready;
    let holds = is_trace(alloc, &ready, &lasso)?;
    if !holds {
        return Err(AllocError);
    }
    let labels = ready.labels;
    Ok(Answer::Trace { labels, lasso })
}
