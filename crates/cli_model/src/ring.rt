//! A model of a ring is made, loaded and analysed, and what was found is summed up.

ghost use Rattle.std.specs.Prelude.{◌≡◌, ◌++◌, Some, IfOk, length};
ghost use Rattle.base_types.specs.Causes.{NoneFell};
ghost use Rattle.answer_analysis.specs.Found as outcome;
ghost use Rattle.answer_analysis.specs.declared.ready.Prepared.{Prepared as PreparedOf};
ghost use Rattle.answer_texts.specs.Answers.{unknown_text};
ghost use Rattle.answer_texts.specs.Ring.{made_trace, made_none, made_unknown};
ghost use Rattle.cli_words.specs.Numbers.{number_in};
ghost use Rattle.cli_model.specs.Made.{IsMade, IsOnRing};
ghost use Rattle.cli_model.specs.Ready.{IsPreparedOf};

use crate::Answer;
use crate::analysis::{chosen, not_analysed, not_loaded, spent_text};
use crate::ready::made_prepared;
use answer_analysis::{Answer as Found, Prepared, search_prepared};
use answer_texts::{made_none, made_trace, made_unknown, ring_text};
use base_types::{Bytes, Libraries};
use cli_words::Settings;
use core_meaning::Lasso;
use load_modules::load_text;
use sat_decide::Chooser;
use sat_dimacs::{Cnf, Table};
use sat_lrat::LineList;
use std::alloc::{AllocError, Global};
use syntax_tree::Loaded;

/// The name of the text of a ring.
const RING: &str = "make";

/// The answer on the model of a ring of as many nodes as the settings name.
#[tactic(auto, using(crate::proofs::OnModel::later_of))]
pub fn make<L: Libraries>(
    alloc: Global,
    settings: &Settings,
    choosers: Vec<Box<dyn Chooser>>,
    libraries: &mut L,
) -> Result<Answer, AllocError>
    ensures keeps { L.told libraries.new ≡ L.told libraries.old }
    ensures later { NoneFell (L.counts libraries.old) (L.counts libraries.new) }
    ensures on { IfOk result (λ answer. IsOnRing (L.told libraries.old) settings.now
        (L.counts libraries.old) (L.counts libraries.new) answer) }
{
    let Some(nodes) = nodes_in(settings.file.text()) else {
        // Settings that fit name a number of nodes.
        return Err(AllocError);
    };
    let text = ring_text(alloc, nodes)?;
    match load_text(alloc, libraries, RING, &text) {
        Ok(loaded) => made(alloc, settings, nodes, loaded, choosers),
        Err(fault) => not_loaded(fault),
    }
}

/// The number of nodes that a text names.
fn nodes_in(text: &str) -> Option<u32>
    ensures { result ≡ number_in 32 text.now }
{
    text.parse::<u32>().ok()
}

/// The answer of an analysis of the model of a ring of so many nodes.
fn made(
    alloc: Global,
    settings: &Settings,
    nodes: u32,
    loaded: Loaded,
    choosers: Vec<Box<dyn Chooser>>,
) -> Result<Answer, AllocError>
    ensures { IfOk result (λ answer. IsMade loaded settings.now.command nodes
        settings.now.conflicts answer) }
{
    let chooser = chosen(choosers, settings.chooser)?;
    match made_prepared(alloc, loaded, settings.command) {
        Ok(prepared) => made_of(alloc, settings, nodes, prepared, chooser),
        Err(fault) => not_analysed(fault),
    }
}

/// The same of a prepared model.
fn made_of(
    alloc: Global,
    settings: &Settings,
    nodes: u32,
    prepared: Prepared,
    chooser: Box<dyn Chooser>,
) -> Result<Answer, AllocError>
    requires { IsPreparedOf prepared.ready.loaded settings.now.command prepared }
    ensures { IfOk result (λ answer. IsMade prepared.ready.loaded settings.now.command nodes
        settings.now.conflicts answer) }
{
    let found = search_prepared(alloc, prepared, chooser, settings.conflicts)?;
    made_text(alloc, settings, nodes, found)
}

/// The summary of what was found on a ring of so many nodes. Where it is left open, the whole
/// answer follows.
fn made_text(
    alloc: Global,
    settings: &Settings,
    nodes: u32,
    found: Found,
) -> Result<Answer, AllocError>
    ensures { (prepared : PreparedOf) →
        IsPreparedOf prepared.ready.loaded settings.now.command prepared →
        outcome.IsFoundIn prepared settings.now.conflicts found →
        IfOk result (λ answer. IsMade prepared.ready.loaded settings.now.command nodes
        settings.now.conflicts answer) }
{
    match found {
        Found::Trace { labels, lasso } => {
            let _ = labels;
            let text = trace_line(alloc, nodes, &lasso)?;
            Ok(Answer::Made(text))
        }
        Found::Refuted {
            table,
            states,
            cnf,
            lines,
        } => {
            let _ = (table, cnf, lines);
            let text = none_line(alloc, nodes, states)?;
            Ok(Answer::Made(text))
        }
        Found::Unknown { table, cnf, lines } => {
            let text = spent_whole(alloc, settings, nodes, &table, &cnf, &lines)?;
            Ok(Answer::Made(text))
        }
    }
}

/// The line of a trace.
fn trace_line(alloc: Global, nodes: u32, lasso: &Lasso) -> Result<Bytes, AllocError>
    ensures { IfOk result (λ text. text ≡ made_trace nodes (length lasso.now.states)
        lasso.now.loop_start) }
{
    let line = made_trace(alloc, nodes, lasso.states(), lasso.loop_start())?;
    Bytes::copy(alloc, line.as_bytes())
}

/// The line that there is no trace.
fn none_line(alloc: Global, nodes: u32, states: u32) -> Result<Bytes, AllocError>
    ensures { IfOk result (λ text. text ≡ made_none nodes states) }
{
    let line = made_none(alloc, nodes, states)?;
    Bytes::copy(alloc, line.as_bytes())
}

/// The line of a budget that is spent, and this text behind it.
fn unknown_line(alloc: Global, nodes: u32, rest: &[u8]) -> Result<Bytes, AllocError>
    ensures { IfOk result (λ text. text ≡ made_unknown nodes ++ rest.now) }
{
    let line = made_unknown(alloc, nodes)?;
    let mut whole = Vec::new(alloc);
    whole.extend_from_slice(line.as_bytes())?;
    whole.extend_from_slice(rest)?;
    Ok(Bytes::from_vec(whole))
}

/// The same of clauses and the lemmas that spend the budget.
fn spent_whole(
    alloc: Global,
    settings: &Settings,
    nodes: u32,
    table: &Table,
    cnf: &Cnf,
    lines: &LineList,
) -> Result<Bytes, AllocError>
    ensures { (conflicts : _) → settings.now.conflicts ≡ Some conflicts →
        IfOk result (λ text. text ≡ made_unknown nodes
        ++ unknown_text conflicts table.now cnf.now lines.now) }
{
    let rest = spent_text(alloc, settings, table, cnf, lines)?;
    let text = unknown_line(alloc, nodes, &rest)?;
    Ok(text)
}
