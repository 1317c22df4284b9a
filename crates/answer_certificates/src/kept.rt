//! The search for facts that rule out every trace, and the texts of its answers.

ghost use Rattle.std.specs.Prelude.{◌≡◌, ℕ, length, Option, IfOk};
ghost use Rattle.sat_lrat.specs.Step.{Refutes};
ghost use Rattle.bound_uppers.specs.Table.{IsLaidOut};
ghost use Rattle.answer_search.specs.Found.{AreNewWithin};
ghost use Rattle.answer_texts.specs.Table.{IsTableOf};
ghost use Rattle.answer_certificates.specs.Certificate.{IsCoreText, ShowsFacts};
ghost use Rattle.answer_certificates.specs.Named.{AreNamed};

use crate::certificate::{Certificate, found_shown, spent_shown};
use crate::{Core, NumberList, find_core, kept_facts_rule_out};
use answer_analysis::{Prepared, Ready, table};
use answer_search::Proof;
use answer_texts::{FactNameList, core_part, fact_name};
use base_types::Bytes;
use cli_words::Part;
use core_tree::FactList;
use sat_decide::Chooser;
use std::alloc::{AllocError, Global};
use syntax_tree::Loaded;

/// Looks for facts that, with the declarations and the command, rule out every trace, and writes
/// the part that is asked for of what that comes to: a trace where one satisfies all facts. Facts
/// are dropped one by one as long as the rest rules out every trace, so that each of those that
/// stay is needed. The budget counts for each search.
pub fn core_certificate<C: Chooser>(
    alloc: Global,
    prepared: Prepared,
    chooser: &mut C,
    part: Part,
    budget: Option<u64>,
) -> Result<Certificate, AllocError>
    ensures { IfOk result (IsCoreText prepared part budget) }
{
    core_in(alloc, &prepared, chooser, part, budget)
}

/// The same in a prepared model that is lent.
fn core_in<C: Chooser>(
    alloc: Global,
    prepared: &Prepared,
    chooser: &mut C,
    part: Part,
    budget: Option<u64>,
) -> Result<Certificate, AllocError>
    ensures { IfOk result (IsCoreText prepared.now part budget) }
{
    let ready = &prepared.ready;
    let target = &prepared.target;
    let first_fact = prepared.first_fact;
    let facts = fact_count(&ready.model.facts)?;
    match find_core(
        alloc,
        target,
        &ready.bounds,
        first_fact,
        facts,
        chooser,
        budget,
    )? {
        Core::Trace(lasso) => {
            let text = found_shown(alloc, prepared, &lasso, part)?;
            Ok(Certificate::Trace(text))
        }
        Core::Refuted { kept, proof } => {
            kept_facts_rule_out();
            let names = kept_names(alloc, &ready.loaded, &ready.model.facts, &kept)?;
            let text = core_shown(alloc, ready, &names, &proof, part)?;
            Ok(Certificate::Refuted(text))
        }
        Core::Unknown(proof) => {
            let text = spent_shown(alloc, ready, &proof, budget)?;
            Ok(Certificate::Unknown(text))
        }
    }
}

/// How many facts there are.
fn fact_count(facts: &FactList) -> Result<u32, AllocError>
    ensures { IfOk result (λ count. count ≡ length facts.now) }
{
    match u32::try_from(facts.len()) {
        Ok(count) => Ok(count),
        Err(_) => Err(AllocError),
    }
}

/// How the facts of these numbers are named.
fn kept_names(
    alloc: Global,
    loaded: &Loaded,
    facts: &FactList,
    kept: &NumberList,
) -> Result<FactNameList, AllocError>
    ensures { IfOk result (λ names. AreNamed loaded.now facts.now kept.now names) }
{
    let mut names = FactNameList::new(alloc);
    for number in kept.as_slice() {
        let number = *number as usize;
        if number >= facts.len() {
            // Each number is that of a fact.
            return Err(AllocError);
        }
        let fact = facts.get(number);
        names.push(fact_name(alloc, loaded, fact.instance, fact.place, &fact.name)?)?;
    }
    Ok(names)
}

/// The part that is asked for of these facts, and of clauses with lines that refute them.
fn core_shown(
    alloc: Global,
    ready: &Ready,
    facts: &FactNameList,
    proof: &Proof,
    part: Part,
) -> Result<Bytes, AllocError>
    requires refutes { Refutes proof.now.cnf.clauses proof.now.lines }
    requires laid { IsLaidOut ready.now.bounds proof.now.layout }
    ensures { (budget : Option ℕ) → AreNewWithin budget proof.now.cnf.clauses proof.now.lines →
        IfOk result (ShowsFacts (IsTableOf ready.now.labels ready.now.bounds) proof.now.cnf
        proof.now.states budget part facts.now) }
{
    let rows = table(alloc, &ready.labels, &ready.bounds, &proof.layout)?;
    let names = facts.as_slice();
    let states = proof.states;
    let text = core_part(alloc, part, states, names, &rows, &proof.cnf, &proof.lines)?;
    let shown = Bytes::from_vec(text);
    Ok(shown)
}
