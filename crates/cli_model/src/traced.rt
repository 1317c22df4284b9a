//! A trace is read: the model is loaded, then the expression is read, then the file of the trace.

ghost use Rattle.std.specs.Prelude.{◌≡◌, length, true, is_some, Some, Ok, IfOk, IfSome, IsTrue};
ghost use Rattle.base_types.specs.Causes.{NoneFell};
ghost use Rattle.syntax_lexer.specs.Tokens.{tokens_of};
ghost use Rattle.core_tree.specs.Trees.{term_of};
ghost use Rattle.answer_judge.specs.Expression.{TextSays};
ghost use Rattle.cli_model.specs.Root.{SpellIn};
ghost use Rattle.cli_model.specs.Model.{IsOnModel, IsAfter, IsAsked, IsSaid, IsSaidOf, RefusesAt};
ghost use Rattle.cli_model.specs.Ready.{IsModelOf};
ghost use Rattle.cli_model.specs.Modes.{reads_trace};
ghost use Rattle.cli_model.specs.Refused.{BreaksExpression, RefusesExpression};

use crate::Answer;
use crate::analysis::{not_analysed, not_loaded};
use crate::files::{File, whole_file};
use crate::parsed::Parsed;
use crate::ready::made_ready;
use crate::refusals::{read_fault, refused};
use answer_analysis::Ready;
use answer_judge::{ReadValue, TraceAnswer, judge_trace, read_value, value_on_trace};
use base_types::limits::FILE_BYTES;
use base_types::{Libraries, Name, Refusal};
use cli_words::{Mode, Settings};
use core_tree::Expr;
use load_modules::load_tree;
use std::alloc::{AllocError, Global};
use syntax_tree::Loaded;

/// The name of the text of an expression.
const EXPRESSION: &str = "expr";

/// The answer of a run that reads a trace of the module with this text, whose model is loaded
/// first. The text is there for the proof: only the clauses name it.
#[tactic(auto, using(crate::proofs::OnModel::later_of, crate::proofs::OnModel::then_later))]
pub fn traced<L: Libraries>(
    alloc: Global,
    settings: &Settings,
    text: &[u8],
    parsed: Parsed,
    libraries: &mut L,
) -> Result<Answer, AllocError>
    requires mode { IsTrue (reads_trace settings.now.mode) }
    requires second { is_some settings.now.second ≡ true }
    requires spells { SpellIn (tokens_of 0 text.now) parsed.tree }
    ensures keeps { L.told libraries.new ≡ L.told libraries.old }
    ensures later { NoneFell (L.counts libraries.old) (L.counts libraries.new) }
    ensures on { IfOk result (λ answer. IsOnModel settings.now (L.told libraries.old) text.now
        (L.counts libraries.old) (L.counts libraries.new) answer) }
{
    let name = settings.file.text();
    match load_tree(alloc, libraries, name, parsed.tree, parsed.tokens) {
        Ok(loaded) => on_loaded(alloc, settings, loaded, libraries),
        Err(fault) => not_loaded(fault),
    }
}

/// The answer once the model is loaded.
fn on_loaded<L: Libraries>(
    alloc: Global,
    settings: &Settings,
    loaded: Loaded,
    libraries: &mut L,
) -> Result<Answer, AllocError>
    requires mode { IsTrue (reads_trace settings.now.mode) }
    requires second { is_some settings.now.second ≡ true }
    ensures keeps { L.told libraries.new ≡ L.told libraries.old }
    ensures later { NoneFell (L.counts libraries.old) (L.counts libraries.new) }
    ensures after { IfOk result (λ answer. IsAfter loaded settings.now (L.told libraries.old)
        (L.counts libraries.old) (L.counts libraries.new) answer) }
{
    match made_ready(alloc, loaded, settings.command) {
        Ok(ready) => on_ready(alloc, settings, &ready, libraries),
        Err(fault) => not_analysed(fault),
    }
}

/// What is asked of a trace.
#[derive(Drop)]
enum Question {
    /// What holds on it.
    Judgement,
    /// The tuples of an expression.
    Value(Expr),
    /// The expression breaks a rule.
    Refused(Refusal),
}

/// What the settings ask of a trace.
fn asked_question(alloc: Global, settings: &Settings, ready: &Ready) -> Result<Question, AllocError>
    requires { IsModelOf ready.now.loaded settings.now.command ready.now }
    ensures refused { (refusal : _) → result ≡ Ok (Question.Refused refusal) →
        RefusesExpression ready.now.loaded settings.now refusal }
    ensures asked { (value : _) → result ≡ Ok (Question.Value value) →
        IsAsked ready.now settings.now.expression (term_of value) }
{
    let Some(expression) = &settings.expression else {
        return Ok(Question::Judgement);
    };
    match settings.mode {
        Mode::Eval => value_asked(alloc, ready, expression),
        _ => Ok(Question::Judgement),
    }
}

/// What an expression asks of a trace.
fn value_asked(alloc: Global, ready: &Ready, expression: &Name) -> Result<Question, AllocError>
    ensures refused { (refusal : _) → result ≡ Ok (Question.Refused refusal) →
        BreaksExpression ready.now expression.now refusal }
    ensures says { (value : _) → result ≡ Ok (Question.Value value) →
        TextSays ready.now.loaded ready.now.model ready.now.readings.types
        (length ready.now.loaded.texts) expression.now (term_of value) }
{
    let loaded = &ready.loaded;
    let count = loaded.texts.len();
    if count > u32::MAX as usize {
        return Err(AllocError);
    }
    let number = count as u32;
    let text = expression.text().as_bytes();
    let types = &ready.readings.types;
    match read_value(
        alloc,
        loaded,
        &ready.model,
        types,
        &ready.scopes,
        number,
        text,
    )? {
        ReadValue::Tree(value) => Ok(Question::Value(value)),
        ReadValue::Refused(refusal) => Ok(Question::Refused(refusal)),
    }
}

/// The answer where an expression is refused, at a place in its own text or in that of a body that
/// it calls.
fn refused_value(alloc: Global, ready: &Ready, refusal: Refusal) -> Result<Answer, AllocError>
    ensures { IfOk result (λ answer. RefusesAt ready.now.loaded refusal answer) }
{
    let texts = &ready.loaded.texts;
    let number = refusal.place.module as usize;
    if number >= texts.len() {
        return Ok(Answer::Refused(refusal, Name::copy(alloc, EXPRESSION)?));
    }
    let name = texts.get(number).name.text();
    Ok(Answer::Refused(refusal, Name::copy(alloc, name)?))
}

/// The answer once the model is made ready.
fn on_ready<L: Libraries>(
    alloc: Global,
    settings: &Settings,
    ready: &Ready,
    libraries: &mut L,
) -> Result<Answer, AllocError>
    requires made { IsModelOf ready.now.loaded settings.now.command ready.now }
    requires mode { IsTrue (reads_trace settings.now.mode) }
    requires second { is_some settings.now.second ≡ true }
    ensures keeps { L.told libraries.new ≡ L.told libraries.old }
    ensures later { NoneFell (L.counts libraries.old) (L.counts libraries.new) }
    ensures after { IfOk result (λ answer. IsAfter ready.now.loaded settings.now
        (L.told libraries.old) (L.counts libraries.old) (L.counts libraries.new) answer) }
{
    match asked_question(alloc, settings, ready)? {
        Question::Judgement => on_second(alloc, settings, ready, None, libraries),
        Question::Value(value) => on_second(alloc, settings, ready, Some(&value), libraries),
        Question::Refused(refusal) => refused_value(alloc, ready, refusal),
    }
}

/// The answer once the expression is read, if there is one.
fn on_second<L: Libraries>(
    alloc: Global,
    settings: &Settings,
    ready: &Ready,
    value: Option<&Expr>,
    libraries: &mut L,
) -> Result<Answer, AllocError>
    requires made { IsModelOf ready.now.loaded settings.now.command ready.now }
    requires asked { IfSome value (λ v. IsAsked ready.now settings.now.expression (term_of v.now)) }
    requires mode { IsTrue (reads_trace settings.now.mode) }
    requires second { is_some settings.now.second ≡ true }
    ensures keeps { L.told libraries.new ≡ L.told libraries.old }
    ensures later { NoneFell (L.counts libraries.old) (L.counts libraries.new) }
    ensures after { IfOk result (λ answer. IsAfter ready.now.loaded settings.now
        (L.told libraries.old) (L.counts libraries.old) (L.counts libraries.new) answer) }
{
    let Some(second) = &settings.second else {
        unreachable!();
    };
    let name = second.text();
    match whole_file(alloc, libraries, name, FILE_BYTES)? {
        File::Whole(trace) => on_trace(alloc, settings, ready, value, name, &trace),
        File::Broken(rule) => refused(alloc, rule, name),
        File::Failed => read_fault(alloc, name),
    }
}

/// The answer on the text of the trace in the file `second`.
fn on_trace(
    alloc: Global,
    settings: &Settings,
    ready: &Ready,
    value: Option<&Expr>,
    second: &str,
    trace: &[u8],
) -> Result<Answer, AllocError>
    requires made { IsModelOf ready.now.loaded settings.now.command ready.now }
    requires asked { IfSome value (λ v. IsAsked ready.now settings.now.expression (term_of v.now)) }
    requires mode { IsTrue (reads_trace settings.now.mode) }
    ensures { IfOk result (λ answer. IsSaidOf ready.now.loaded settings.now second.now
        trace.now answer) }
{
    let said = said_of(alloc, settings, ready, value, trace)?;
    Ok(Answer::Traced(said, Name::copy(alloc, second)?))
}

/// What the settings ask of a trace, answered.
fn said_of(
    alloc: Global,
    settings: &Settings,
    ready: &Ready,
    value: Option<&Expr>,
    trace: &[u8],
) -> Result<TraceAnswer, AllocError>
    requires made { IsModelOf ready.now.loaded settings.now.command ready.now }
    requires asked { IfSome value (λ v. IsAsked ready.now settings.now.expression (term_of v.now)) }
    requires mode { IsTrue (reads_trace settings.now.mode) }
    ensures { IfOk result (λ said. IsSaid ready.now.loaded settings.now.mode settings.now
        trace.now said) }
{
    match settings.mode {
        Mode::Replay => judge_trace(alloc, ready, trace),
        Mode::Eval => match value {
            Some(value) => value_on_trace(alloc, ready, value, settings.position, trace),
            // Settings that fit have an expression.
            None => Err(AllocError),
        },
        _ => unreachable!(),
    }
}
