//! A trace is judged part by part.

ghost use Rattle.std.specs.Prelude.{◌≡◌, ◌↔◌, IfOk, IsTrue};
ghost use Rattle.core_tree.specs.Trees.{claim_of};
ghost use Rattle.answer_trace.specs.Text.{trace_text};
ghost use Rattle.answer_laws.specs.Form.{HaveLassos, IsLassoOf};
ghost use Rattle.answer_judge.specs.Judged.{IsJudgement, IsRight, IsJudgedFact, AreJudged, HoldsFirst};

use crate::answer::TraceAnswer;
use crate::unread::not_read;
use answer_analysis::Ready;
use answer_laws::read_lassos_are_of_the_labels;
use answer_texts::{
    JudgedFact, JudgedFactList, Judgement, fact_name, is_satisfied, judgement_text,
};
use answer_trace::read_trace;
use base_types::Bytes;
use core_meaning::Lasso;
use core_tree::{Fact, Formula};
use eval_trace::{declared, holds, keeps};
use std::alloc::{AllocError, Global};

/// Judges the trace that a text spells: whether it keeps the scopes, the first position at which the declarations don't hold,
/// and whether each fact and the command hold at the first position, by what the model means.
pub fn judge_trace(alloc: Global, ready: &Ready, trace: &[u8]) -> Result<TraceAnswer, AllocError>
    requires { HaveLassos ready.now.labels }
    ensures { IfOk result (λ answer. IsJudgement ready.now trace.now answer) }
{
    read_lassos_are_of_the_labels();
    match read_trace(alloc, &ready.labels, trace) {
        Ok(lasso) => judged_text(alloc, ready, &lasso, trace),
        Err(fault) => {
            let answer = not_read(ready, trace, fault)?;
            Ok(answer)
        }
    }
}

/// The text of what holds on the lasso of which this is the text.
fn judged_text(
    alloc: Global,
    ready: &Ready,
    lasso: &Lasso,
    trace: &[u8],
) -> Result<TraceAnswer, AllocError>
    requires fits { IsLassoOf ready.now.labels lasso.now }
    requires spelled { trace_text ready.now.labels lasso.now ≡ trace.now }
    ensures { IfOk result (λ answer. IsJudgement ready.now trace.now answer) }
{
    let judgement = judgement_on(alloc, ready, lasso)?;
    let text = judgement_text(alloc, &judgement)?;
    let satisfied = is_satisfied(&judgement);
    let shown = Bytes::from_vec(text);
    // for the proof: only the clauses name the text of the trace
    let _ = trace;
    Ok(TraceAnswer::Judged(satisfied, shown))
}

/// What holds on a lasso.
fn judgement_on(alloc: Global, ready: &Ready, lasso: &Lasso) -> Result<Judgement, AllocError>
    ensures { IfOk result (λ judgement. IsRight ready.now lasso.now judgement) }
{
    let model = &ready.model;
    if ready.command as usize >= model.commands.len() {
        // The command is one of the model's.
        return Err(AllocError);
    }
    let asked = model.commands.get(ready.command as usize);
    let scopes = keeps(alloc, model, &ready.scopes, lasso)?;
    let broken_at = declared(alloc, model, &ready.scopes, lasso)?;
    let facts = judged_facts(alloc, ready, lasso, model.facts.as_slice())?;
    let command = holds_first(alloc, ready, lasso, &asked.formula)?;
    Ok(Judgement {
        scopes,
        broken_at,
        facts,
        command,
    })
}

/// Which of these facts hold at the first position.
fn judged_facts(
    alloc: Global,
    ready: &Ready,
    lasso: &Lasso,
    facts: &[Fact],
) -> Result<JudgedFactList, AllocError>
    ensures { IfOk result (λ judged. AreJudged ready.now lasso.now judged facts.now) }
{
    let mut judged = JudgedFactList::new(alloc);
    for fact in facts {
        let more = judged_fact(alloc, ready, lasso, fact)?;
        judged.push(more)?;
    }
    Ok(judged)
}

/// Whether a fact holds at the first position.
fn judged_fact(
    alloc: Global,
    ready: &Ready,
    lasso: &Lasso,
    fact: &Fact,
) -> Result<JudgedFact, AllocError>
    ensures { IfOk result (λ judged. IsJudgedFact ready.now lasso.now judged fact.now) }
{
    let loaded = &ready.loaded;
    let name = fact_name(alloc, loaded, fact.instance, fact.place, &fact.name)?;
    let holds = holds_first(alloc, ready, lasso, &fact.formula)?;
    Ok(JudgedFact { fact: name, holds })
}

/// Whether a formula holds at the first position.
fn holds_first(
    alloc: Global,
    ready: &Ready,
    lasso: &Lasso,
    formula: &Formula,
) -> Result<bool, AllocError>
    ensures { IfOk result (λ b. IsTrue b ↔ HoldsFirst ready.now lasso.now (claim_of formula.now)) }
{
    holds(alloc, &ready.model, &ready.scopes, lasso, formula, 0)
}
