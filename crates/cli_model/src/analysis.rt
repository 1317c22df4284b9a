//! A search: the model is loaded and analysed, and what was found is written.

ghost use Rattle.std.specs.Prelude.{◌≡◌, Some, IfOk, IsTrue};
ghost use Rattle.base_types.specs.Causes.{NoneFell};
ghost use Rattle.syntax_lexer.specs.Tokens.{tokens_of};
ghost use Rattle.answer_analysis.specs.Found as outcome;
ghost use Rattle.answer_analysis.specs.declared.ready.Prepared.{Prepared as PreparedOf};
ghost use Rattle.answer_texts.specs.Answers as texts;
ghost use Rattle.cli_model.specs.Root.{SpellIn};
ghost use Rattle.cli_model.specs.Model.{IsOnModel, IsFound, IsFoundIn, Says, Tells, answer_of};
ghost use Rattle.cli_model.specs.Ready.{IsPreparedOf};
ghost use Rattle.cli_model.specs.Modes.{looks};
ghost use Rattle.cli_words.specs.declared.named.Mode.TheVariants.{Exec, Least, Core};

use crate::Answer;
use crate::parsed::Parsed;
use crate::ready::made_prepared;
use answer_analysis::{AnalyseFault, Answer as Found, Prepared, search_prepared};
use answer_certificates::{Certificate, core_certificate, least_certificate, trace_shown};
use answer_texts::{absent_text, unknown_text};
use base_types::{Bytes, Libraries};
use cli_words::{Mode, Settings};
use load_modules::{LoadFault, load_tree};
use sat_decide::{Boxed, Chooser};
use sat_dimacs::{Cnf, Table};
use sat_lrat::LineList;
use std::alloc::{AllocError, Global};
use syntax_tree::Loaded;

/// The answer of a search on the text of a module, whose model is loaded first. The text is there
/// for the proof: only the clauses name it.
#[tactic(auto, using(crate::proofs::OnModel::later_of))]
pub fn search<L: Libraries>(
    alloc: Global,
    settings: &Settings,
    text: &[u8],
    parsed: Parsed,
    choosers: Vec<Box<dyn Chooser>>,
    libraries: &mut L,
) -> Result<Answer, AllocError>
    requires mode { IsTrue (looks settings.now.mode) }
    requires spells { SpellIn (tokens_of 0 text.now) parsed.tree }
    ensures keeps { L.told libraries.new ≡ L.told libraries.old }
    ensures later { NoneFell (L.counts libraries.old) (L.counts libraries.new) }
    ensures on { IfOk result (λ answer. IsOnModel settings.now (L.told libraries.old) text.now
        (L.counts libraries.old) (L.counts libraries.new) answer) }
{
    let name = settings.file.text();
    match load_tree(alloc, libraries, name, parsed.tree, parsed.tokens) {
        Ok(loaded) => analysed(alloc, settings, loaded, choosers),
        Err(fault) => not_loaded(fault),
    }
}

/// The answer of a search in a loaded model.
fn analysed(
    alloc: Global,
    settings: &Settings,
    loaded: Loaded,
    choosers: Vec<Box<dyn Chooser>>,
) -> Result<Answer, AllocError>
    requires mode { IsTrue (looks settings.now.mode) }
    ensures { IfOk result (λ answer. IsFound loaded settings.now answer) }
{
    let chooser = chosen(choosers, settings.chooser)?;
    match settings.mode {
        Mode::Exec => any_trace(alloc, settings, loaded, chooser),
        Mode::Least => least_trace(alloc, settings, loaded, chooser),
        Mode::Core => ruling_facts(alloc, settings, loaded, chooser),
        _ => unreachable!(),
    }
}

/// The answer of a search for any trace.
fn any_trace(
    alloc: Global,
    settings: &Settings,
    loaded: Loaded,
    chooser: Box<dyn Chooser>,
) -> Result<Answer, AllocError>
    ensures { IfOk result (λ answer. IsFoundIn loaded Exec settings.now.command settings.now.part
        settings.now.conflicts answer) }
{
    match made_prepared(alloc, loaded, settings.command) {
        Ok(prepared) => trace_in(alloc, settings, prepared, chooser),
        Err(fault) => not_analysed(fault),
    }
}

/// The same of a prepared model.
fn trace_in(
    alloc: Global,
    settings: &Settings,
    prepared: Prepared,
    chooser: Box<dyn Chooser>,
) -> Result<Answer, AllocError>
    requires { IsPreparedOf prepared.ready.loaded settings.now.command prepared }
    ensures { IfOk result (λ answer. IsFoundIn prepared.ready.loaded Exec settings.now.command
        settings.now.part settings.now.conflicts answer) }
{
    let found = search_prepared(alloc, prepared, chooser, settings.conflicts)?;
    found_text(alloc, settings, found)
}

/// The answer of a search for a trace of the fewest states.
fn least_trace(
    alloc: Global,
    settings: &Settings,
    loaded: Loaded,
    chooser: Box<dyn Chooser>,
) -> Result<Answer, AllocError>
    ensures { IfOk result (λ answer. IsFoundIn loaded Least settings.now.command settings.now.part
        settings.now.conflicts answer) }
{
    match made_prepared(alloc, loaded, settings.command) {
        Ok(prepared) => least_of(alloc, settings, prepared, chooser),
        Err(fault) => not_analysed(fault),
    }
}

/// The same of a prepared model.
fn least_of(
    alloc: Global,
    settings: &Settings,
    prepared: Prepared,
    chooser: Box<dyn Chooser>,
) -> Result<Answer, AllocError>
    requires { IsPreparedOf prepared.ready.loaded settings.now.command prepared }
    ensures { IfOk result (λ answer. IsFoundIn prepared.ready.loaded Least settings.now.command
        settings.now.part settings.now.conflicts answer) }
{
    let mut boxed = Boxed { chooser };
    let budget = settings.conflicts;
    let found = least_certificate(alloc, prepared, &mut boxed, settings.part, budget)?;
    Ok(answer_of(found))
}

/// The answer of a search for facts that rule out every trace.
fn ruling_facts(
    alloc: Global,
    settings: &Settings,
    loaded: Loaded,
    chooser: Box<dyn Chooser>,
) -> Result<Answer, AllocError>
    ensures { IfOk result (λ answer. IsFoundIn loaded Core settings.now.command settings.now.part
        settings.now.conflicts answer) }
{
    match made_prepared(alloc, loaded, settings.command) {
        Ok(prepared) => core_of(alloc, settings, prepared, chooser),
        Err(fault) => not_analysed(fault),
    }
}

/// The same of a prepared model.
fn core_of(
    alloc: Global,
    settings: &Settings,
    prepared: Prepared,
    chooser: Box<dyn Chooser>,
) -> Result<Answer, AllocError>
    requires { IsPreparedOf prepared.ready.loaded settings.now.command prepared }
    ensures { IfOk result (λ answer. IsFoundIn prepared.ready.loaded Core settings.now.command
        settings.now.part settings.now.conflicts answer) }
{
    let mut boxed = Boxed { chooser };
    let budget = settings.conflicts;
    let found = core_certificate(alloc, prepared, &mut boxed, settings.part, budget)?;
    Ok(answer_of(found))
}

/// The answer that has the text of a certificate.
fn answer_of(found: Certificate) -> Answer
    ensures { result ≡ answer_of found }
{
    match found {
        Certificate::Trace(text) => Answer::Trace(text),
        Certificate::Refuted(text) => Answer::Refuted(text),
        Certificate::Unknown(text) => Answer::Unknown(text),
    }
}

/// The chooser of this number.
pub(crate) fn chosen(
    mut choosers: Vec<Box<dyn Chooser>>,
    number: u32,
) -> Result<Box<dyn Chooser>, AllocError> {
    let number = number as usize;
    if number < choosers.len() {
        Ok(choosers.swap_remove(number))
    } else {
        Err(AllocError)
    }
}

/// The text of what a search found.
fn found_text(alloc: Global, settings: &Settings, found: Found) -> Result<Answer, AllocError>
    ensures { (prepared : PreparedOf) →
        IsPreparedOf prepared.ready.loaded settings.now.command prepared →
        outcome.IsFoundIn prepared settings.now.conflicts found →
        IfOk result (λ answer. IsFoundIn prepared.ready.loaded Exec settings.now.command
        settings.now.part settings.now.conflicts answer) }
{
    match found {
        Found::Trace { labels, lasso } => {
            let text = trace_shown(alloc, &labels, &lasso, settings.part)?;
            Ok(Answer::Trace(text))
        }
        Found::Refuted {
            table,
            states,
            cnf,
            lines,
        } => {
            let part = settings.part;
            let text = absent_text(alloc, part, states, &table, &cnf, &lines)?;
            Ok(Answer::Refuted(Bytes::from_vec(text)))
        }
        Found::Unknown { table, cnf, lines } => {
            let text = spent_text(alloc, settings, &table, &cnf, &lines)?;
            Ok(Answer::Unknown(Bytes::from_vec(text)))
        }
    }
}

/// The text of an answer that is left open, since the budget is spent.
pub(crate) fn spent_text(
    alloc: Global,
    settings: &Settings,
    table: &Table,
    cnf: &Cnf,
    lines: &LineList,
) -> Result<Vec<u8>, AllocError>
    ensures { (conflicts : _) → settings.now.conflicts ≡ Some conflicts →
        IfOk result (λ text. text.items ≡ texts.unknown_text conflicts table.now cnf.now
        lines.now) }
{
    match settings.conflicts {
        Some(conflicts) => unknown_text(alloc, conflicts, table, cnf, lines),
        None => Err(AllocError),
    }
}

/// The answer where a loaded model could not be analysed.
pub fn not_analysed(fault: AnalyseFault) -> Result<Answer, AllocError>
    ensures { IfOk result (λ answer. Tells fault answer) }
{
    match fault {
        AnalyseFault::Refused(refusal, name) => Ok(Answer::Refused(refusal, name)),
        AnalyseFault::Read(_) => Err(AllocError),
        AnalyseFault::Memory => Err(AllocError),
    }
}

/// The answer where a model could not be loaded.
pub fn not_loaded(fault: LoadFault) -> Result<Answer, AllocError>
    ensures { IfOk result (λ answer. Says fault answer) }
{
    match fault {
        LoadFault::Refused(refusal, name) => Ok(Answer::Refused(refusal, name)),
        LoadFault::Read(name) => Ok(Answer::ReadFault(name)),
        LoadFault::Memory => Err(AllocError),
    }
}
