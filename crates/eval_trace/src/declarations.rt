//! Whether the declarations of a model hold, and the least position at which they don't.

ghost use Rattle.std.specs.Prelude.{◌↔◌, ◌<◌, ◌^◌, ◌-◌, ℕ, IfOk, IsTrue};
ghost use Rattle.core_meaning.specs.Satisfied.{DeclaresAt};
ghost use Rattle.eval_trace.specs.Asked.{SigsAre, FieldsAre, AllAre, FactRepeats, SigRepeats, BoundRepeats, FieldRepeats, AllRepeat, IsFirstWithout};

use crate::fields::{field_holds, field_list};
use crate::sigs::{sig_holds, sig_list};
use core_meaning::{Lasso, Scopes};
use core_tree::{FieldBound, Formula, Model};
use eval_sets::EvaluationFault;
use eval_steps::{Judge, judge_of};
use std::alloc::{AllocError, Global};

/// Whether the declarations of the sigs hold at a position.
fn sigs_hold(judge: &Judge, position: u64) -> Result<bool, EvaluationFault>
    ensures { IfOk result (λ b. IsTrue b ↔ SigsAre judge.now position) }
{
    let sigs = sig_list(judge);
    for place in 0..sigs.len() {
        let sig = sigs.get(place);
        let truth = sig_holds(judge, place, sig, position)?;
        if !truth {
            return Ok(false);
        }
    }
    Ok(true)
}

/// Whether the declarations of the fields hold at a position.
fn fields_hold(judge: &Judge, position: u64) -> Result<bool, EvaluationFault>
    ensures { IfOk result (λ b. IsTrue b ↔ FieldsAre judge.now position) }
{
    let fields = field_list(judge);
    for place in 0..fields.len() {
        let field = fields.get(place);
        let truth = field_holds(judge, place, field, position)?;
        if !truth {
            return Ok(false);
        }
    }
    Ok(true)
}

/// Whether the declarations hold at a position.
fn declared_at(judge: &Judge, position: u64) -> Result<bool, EvaluationFault>
    ensures { IfOk result (λ b. IsTrue b ↔ AllAre judge.now position) }
{
    let sigs = sigs_hold(judge, position)?;
    if !sigs {
        return Ok(false);
    }
    let fields = fields_hold(judge, position)?;
    Ok(fields)
}

/// From how many rounds of the loop on an appended fact has the same truth in each round.
fn rounds_of_fact(judge: &Judge, appended: &Option<Formula>) -> u32
    ensures { result < 2 ^ 32 - 1 → FactRepeats judge.now appended.now result }
{
    match appended {
        None => 0,
        Some(fact) => judge.fact_rounds(fact),
    }
}

/// The same of all appended facts.
fn fact_rounds(judge: &Judge) -> u32
    ensures { (k : ℕ) → result < 2 ^ 32 - 1 → SigRepeats judge.now k result }
{
    let sigs = sig_list(judge);
    let mut most: u32 = 0;
    for place in 0..sigs.len() {
        let sig = sigs.get(place);
        let rounds = rounds_of_fact(judge, &sig.appended);
        let more = most.max(rounds);
        most = more;
    }
    most
}

/// From how many rounds of the loop on the bound of a field has the same truth in each round.
fn rounds_of_bound(judge: &Judge, declared: &Option<FieldBound>) -> u32
    ensures { result < 2 ^ 32 - 1 → BoundRepeats judge.now declared.now result }
{
    match declared {
        None => 0,
        Some(declared) => judge.bound_rounds(&declared.bound.expr),
    }
}

/// The same of the bounds of all fields.
fn bound_rounds(judge: &Judge) -> u32
    ensures { (k : ℕ) → result < 2 ^ 32 - 1 → FieldRepeats judge.now k result }
{
    let fields = field_list(judge);
    let mut most: u32 = 0;
    for place in 0..fields.len() {
        let field = fields.get(place);
        let rounds = rounds_of_bound(judge, &field.declared);
        let more = most.max(rounds);
        most = more;
    }
    most
}

/// From how many rounds of the loop on the declarations have the same truth in each round.
fn declaration_rounds(judge: &Judge) -> u32
    ensures { result < 2 ^ 32 - 1 → AllRepeat judge.now result }
{
    let facts = fact_rounds(judge);
    let bounds = bound_rounds(judge);
    facts.max(bounds)
}

/// The least position at which the declarations don't hold, or why it isn't known.
fn first_failing(judge: &Judge) -> Result<Option<u64>, EvaluationFault>
    ensures { IfOk result (λ o. IsFirstWithout (AllAre judge.now) o) }
{
    let rounds = declaration_rounds(judge);
    if rounds == u32::MAX {
        return Err(EvaluationFault::Unfit);
    }
    // for the proof: this call's clauses say that the lasso has a loop
    let _ = judge.period();
    let end = judge.rounds_end(rounds)?;
    for position in 0..end {
        let truth = declared_at(judge, position)?;
        if !truth {
            return Ok(Some(position));
        }
    }
    Ok(None)
}

/// The same of a model on a lasso.
fn first_of_model(
    alloc: Global,
    model: &Model,
    scopes: &Scopes,
    lasso: &Lasso,
) -> Result<Option<u64>, EvaluationFault>
    ensures { IfOk result (λ o. IsFirstWithout (DeclaresAt model.now scopes.now lasso.now) o) }
{
    let judge = judge_of(alloc, model, scopes, lasso)?;
    first_failing(&judge)
}

/// The least position at which the declarations of the model don't hold, or none where they hold at
/// every position. The answer is that of want of memory where `holds` gives it.
pub fn declared(
    alloc: Global,
    model: &Model,
    scopes: &Scopes,
    lasso: &Lasso,
) -> Result<Option<u64>, AllocError>
    ensures { IfOk result (λ o. IsFirstWithout (DeclaresAt model.now scopes.now lasso.now) o) }
{
    match first_of_model(alloc, model, scopes, lasso) {
        Ok(place) => Ok(place),
        Err(_) => Err(AllocError),
    }
}
