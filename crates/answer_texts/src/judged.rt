//! The text of a judgement: a line for each part, and one for all of them.

ghost use Rattle.std.specs.Prelude.{◌≡◌, ◌++◌, OnOk, IfOk, flat_map};
ghost use Rattle.std.specs.List.{list_all};
ghost use Rattle.answer_texts.specs.Judged.{verdict_words, broken_words, broken_line, declarations_line, fact_line, last_line, is_satisfied, judgement_text};

use crate::fact::push_fact;
use crate::judgement::{JudgedFact, Judgement};
use crate::push_decimal;
use std::alloc::{AllocError, Global};

/// Writes whether a part holds.
fn push_verdict(out: &mut Vec<u8>, holds: bool) -> Result<(), AllocError>
    ensures { OnOk result (out.new.items ≡ out.old.items ++ verdict_words holds) }
{
    if holds {
        out.extend_from_slice(b" ok\n")
    } else {
        out.extend_from_slice(b" broken\n")
    }
}

/// Writes that the declarations don't hold.
#[tactic(auto, unfolding(crate::specs::Judged::broken_words))]
fn push_broken_words(out: &mut Vec<u8>) -> Result<(), AllocError>
    ensures { OnOk result (out.new.items ≡ out.old.items ++ broken_words) }
{
    out.extend_from_slice(b"declarations broken ")
}

/// Writes the least position at which a declaration doesn't hold.
fn push_broken(out: &mut Vec<u8>, position: u64) -> Result<(), AllocError>
    ensures { OnOk result (out.new.items ≡ out.old.items ++ broken_line position) }
{
    push_broken_words(out)?;
    push_decimal(out, position)?;
    out.extend_from_slice(b"\n")
}

/// Writes whether the declarations hold, or the least position at which they don't.
fn push_declarations(out: &mut Vec<u8>, broken_at: Option<u64>) -> Result<(), AllocError>
    ensures { OnOk result (out.new.items ≡ out.old.items ++ declarations_line broken_at) }
{
    match broken_at {
        None => out.extend_from_slice(b"declarations ok\n"),
        Some(position) => push_broken(out, position),
    }
}

/// Writes the line of a fact.
fn push_judged(out: &mut Vec<u8>, judged: &JudgedFact) -> Result<(), AllocError>
    ensures { OnOk result (out.new.items ≡ out.old.items ++ fact_line judged.now) }
{
    push_fact(out, &judged.fact)?;
    push_verdict(out, judged.holds)
}

/// Writes the lines of facts.
fn push_facts(out: &mut Vec<u8>, facts: &[JudgedFact]) -> Result<(), AllocError>
    ensures { OnOk result (out.new.items ≡ out.old.items ++ flat_map fact_line facts.now) }
{
    for judged in facts {
        push_judged(out, judged)?;
    }
    Ok(())
}

/// Writes the last line.
fn push_last(out: &mut Vec<u8>, satisfied: bool) -> Result<(), AllocError>
    ensures { OnOk result (out.new.items ≡ out.old.items ++ last_line satisfied) }
{
    if satisfied {
        out.extend_from_slice(b"satisfied\n")
    } else {
        out.extend_from_slice(b"broken\n")
    }
}

/// Whether each of these facts holds.
fn all_hold(facts: &[JudgedFact]) -> bool
    ensures { result ≡ list_all (λ f. f.holds) facts.now }
{
    facts.iter().all(|judged| judged.holds)
}

/// Whether everything that was judged holds.
pub fn is_satisfied(judgement: &Judgement) -> bool
    ensures { result ≡ is_satisfied judgement.now }
{
    judgement.scopes
        && judgement.broken_at.is_none()
        && all_hold(judgement.facts.as_slice())
        && judgement.command
}

/// The text of a judgement: a line for the scopes, the declarations, each fact and the command, and one that says whether
/// all of them hold.
pub fn judgement_text(alloc: Global, judgement: &Judgement) -> Result<Vec<u8>, AllocError>
    ensures { IfOk result (λ text. text.items ≡ judgement_text judgement.now) }
{
    let mut out = Vec::new(alloc);
    out.extend_from_slice(b"scopes")?;
    push_verdict(&mut out, judgement.scopes)?;
    push_declarations(&mut out, judgement.broken_at)?;
    push_facts(&mut out, judgement.facts.as_slice())?;
    out.extend_from_slice(b"command")?;
    push_verdict(&mut out, judgement.command)?;
    push_last(&mut out, is_satisfied(judgement))?;
    Ok(out)
}
