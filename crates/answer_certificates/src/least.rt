//! The search for a trace of the fewest states, and the texts of its answers.

ghost use Rattle.std.specs.Prelude.{ℕ, IfOk, Option};
ghost use Rattle.bound_uppers.specs.Table.{IsLaidOut};
ghost use Rattle.sat_lrat.specs.Step.{Refutes};
ghost use Rattle.answer_search.specs.Found.{AreNewWithin};
ghost use Rattle.answer_texts.specs.Table.{IsTableOf};
ghost use Rattle.answer_trace.specs.Text.{trace_text};
ghost use Rattle.answer_certificates.specs.Certificate.{IsAboveText, IsLeastText, IsNoneText, ShowsBelow, StandsBelow};

use crate::certificate::{Certificate, lasso_part, spent_shown, test_trace};
use crate::{Least, find_least};
use answer_analysis::{Prepared, Ready, ruled_out_means_none, table};
use answer_search::Proof;
use answer_texts::{above_part, absent_text};
use answer_trace::print_trace;
use base_types::Bytes;
use cli_words::Part;
use core_meaning::Lasso;
use sat_decide::Chooser;
use std::alloc::{AllocError, Global};

/// Looks for a trace of the fewest states, with one state, with two, and on up to as many as the scopes have, and writes the
/// part that is asked for of what that comes to. The budget counts for each search.
pub fn least_certificate<C: Chooser>(
    alloc: Global,
    mut prepared: Prepared,
    chooser: &mut C,
    part: Part,
    budget: Option<u64>,
) -> Result<Certificate, AllocError>
    ensures { IfOk result (IsLeastText prepared part budget) }
{
    least_in(alloc, &mut prepared, chooser, part, budget)
}

/// The same in a prepared model that is lent: the number of states of its bounds becomes that of the clauses.
fn least_in<C: Chooser>(
    alloc: Global,
    prepared: &mut Prepared,
    chooser: &mut C,
    part: Part,
    budget: Option<u64>,
) -> Result<Certificate, AllocError>
    ensures { IfOk result (IsLeastText prepared.old part budget) }
{
    ruled_out_means_none();
    let found = find_least(
        alloc,
        &prepared.target,
        &mut prepared.ready.bounds,
        chooser,
        budget,
    )?;
    match found {
        Least::Trace { lasso, below } => {
            test_trace(alloc, &prepared.ready, &lasso)?;
            let text = least_shown(alloc, &mut prepared.ready, &lasso, below, part)?;
            Ok(Certificate::Trace(text))
        }
        Least::Refuted(proof) => {
            prepared.ready.bounds.states = proof.states;
            let text = none_shown(alloc, &prepared.ready, &proof, part)?;
            Ok(Certificate::Refuted(text))
        }
        Least::Unknown(proof) => {
            prepared.ready.bounds.states = proof.states;
            let text = spent_shown(alloc, &prepared.ready, &proof, budget)?;
            Ok(Certificate::Unknown(text))
        }
    }
}

/// The part that is asked for of a trace of the fewest states, with what stands below its number of states, which becomes that
/// of the bounds.
fn least_shown(
    alloc: Global,
    ready: &mut Ready,
    lasso: &Lasso,
    below: Option<Proof>,
    part: Part,
) -> Result<Bytes, AllocError>
    requires { StandsBelow ready.old.bounds.relations below }
    ensures { IfOk result (ShowsBelow ready.old.labels ready.old.bounds.relations lasso.now below
        part) }
{
    match below {
        None => {
            let text = lasso_part(alloc, &ready.labels, lasso, part)?;
            Ok(text)
        }
        Some(proof) => {
            ready.bounds.states = proof.states;
            let text = above_shown(alloc, &*ready, lasso, &proof, part)?;
            Ok(text)
        }
    }
}

/// The part that is asked for of a trace, and of clauses within the bounds, with lines that refute them.
fn above_shown(
    alloc: Global,
    ready: &Ready,
    lasso: &Lasso,
    proof: &Proof,
    part: Part,
) -> Result<Bytes, AllocError>
    requires refutes { Refutes proof.now.cnf.clauses proof.now.lines }
    requires laid { IsLaidOut ready.now.bounds proof.now.layout }
    ensures { (budget : Option ℕ) → AreNewWithin budget proof.now.cnf.clauses proof.now.lines →
        IfOk result (IsAboveText (IsTableOf ready.now.labels ready.now.bounds)
        (trace_text ready.now.labels lasso.now) proof.now.cnf budget part) }
{
    let trace = print_trace(alloc, &ready.labels, lasso)?;
    let rows = table(alloc, &ready.labels, &ready.bounds, &proof.layout)?;
    let text = above_part(alloc, part, trace, &rows, &proof.cnf, &proof.lines)?;
    let shown = Bytes::from_vec(text);
    Ok(shown)
}

/// The part that is asked for of clauses within the bounds, with lines that refute them.
fn none_shown(alloc: Global, ready: &Ready, proof: &Proof, part: Part) -> Result<Bytes, AllocError>
    requires refutes { Refutes proof.now.cnf.clauses proof.now.lines }
    requires laid { IsLaidOut ready.now.bounds proof.now.layout }
    ensures { (budget : Option ℕ) → AreNewWithin budget proof.now.cnf.clauses proof.now.lines →
        IfOk result (IsNoneText (IsTableOf ready.now.labels ready.now.bounds) proof.now.cnf
        proof.now.states budget part) }
{
    let rows = table(alloc, &ready.labels, &ready.bounds, &proof.layout)?;
    let text = absent_text(alloc, part, proof.states, &rows, &proof.cnf, &proof.lines)?;
    let shown = Bytes::from_vec(text);
    Ok(shown)
}
