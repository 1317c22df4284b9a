//! The texts of a trace above clauses, and of facts that rule out every trace.

ghost use Rattle.std.specs.Prelude.{◌≡◌, ◌++◌, OnOk, IfOk, codes};
ghost use Rattle.answer_texts.specs.Answers.{block_text};
ghost use Rattle.answer_texts.specs.Facts.{fact_words};
ghost use Rattle.answer_texts.specs.Certified.{trace_part, above_part, facts_lines, core_lines, core_part};

use crate::fact::{FactName, push_fact};
use crate::{push_block, push_decimal};
use cli_words::Part;
use sat_dimacs::{Cnf, Table, print_cnf};
use sat_lrat::{LineList, print_lines};
use std::alloc::{AllocError, Global};

/// The part that is asked for of a trace with no clauses: the trace, or nothing.
pub fn trace_part(alloc: Global, part: Part, trace: Vec<u8>) -> Vec<u8>
    ensures { result.items ≡ trace_part part trace.items }
{
    match part {
        Part::Answer | Part::All => trace,
        Part::Cnf | Part::Proof => Vec::new(alloc),
    }
}

/// Text, then the clauses and the lines that refute them under headings.
fn refuted_after(
    mut text: Vec<u8>,
    table: &Table,
    cnf: &Cnf,
    lines: &LineList,
) -> Result<Vec<u8>, AllocError>
    ensures { IfOk result (λ whole. whole.items ≡ text.items
        ++ block_text (codes "refutation\n") table.now cnf.now lines.now) }
{
    push_block(&mut text, b"refutation\n", table, cnf, lines)?;
    Ok(text)
}

/// The part that is asked for of a trace, where clauses say what a trace of one state less is, with the rows of the table
/// before them, and lines refute them: the trace, the clauses, the lines, or all of these.
pub fn above_part(
    alloc: Global,
    part: Part,
    trace: Vec<u8>,
    table: &Table,
    cnf: &Cnf,
    lines: &LineList,
) -> Result<Vec<u8>, AllocError>
    ensures { IfOk result (λ text. text.items ≡ above_part part trace.items table.now cnf.now
        lines.now) }
{
    match part {
        Part::Answer => Ok(trace),
        Part::Cnf => print_cnf(alloc, table, cnf),
        Part::Proof => print_lines(alloc, lines),
        Part::All => refuted_after(trace, table, cnf, lines),
    }
}

/// Writes a line that names a fact.
fn push_line(out: &mut Vec<u8>, fact: &FactName) -> Result<(), AllocError>
    ensures { OnOk result (out.new.items ≡ out.old.items ++ fact_words fact.now ++ codes "\n") }
{
    push_fact(out, fact)?;
    out.extend_from_slice(b"\n")
}

/// Writes lines that name facts.
fn push_fact_lines(out: &mut Vec<u8>, facts: &[FactName]) -> Result<(), AllocError>
    ensures { OnOk result (out.new.items ≡ out.old.items ++ facts_lines facts.now) }
{
    for fact in facts {
        push_line(out, fact)?;
    }
    Ok(())
}

/// The lines that say that with these facts no trace of so many states is there.
fn core_lines(alloc: Global, states: u32, facts: &[FactName]) -> Result<Vec<u8>, AllocError>
    ensures { IfOk result (λ text. text.items ≡ core_lines states facts.now) }
{
    let mut out = Vec::new(alloc);
    out.extend_from_slice(b"core states ")?;
    push_decimal(&mut out, u64::from(states))?;
    out.extend_from_slice(b" facts ")?;
    push_decimal(&mut out, facts.len() as u64)?;
    out.extend_from_slice(b"\n")?;
    push_fact_lines(&mut out, facts)?;
    Ok(out)
}

/// The part that is asked for of an answer that these facts rule out every trace of so many states: the lines that say so,
/// the clauses with the rows of the table before them, the lines that refute them, or all of these under headings.
pub fn core_part(
    alloc: Global,
    part: Part,
    states: u32,
    facts: &[FactName],
    table: &Table,
    cnf: &Cnf,
    lines: &LineList,
) -> Result<Vec<u8>, AllocError>
    ensures { IfOk result (λ text. text.items ≡ core_part part states facts.now table.now cnf.now
        lines.now) }
{
    match part {
        Part::Answer => core_lines(alloc, states, facts),
        Part::Cnf => print_cnf(alloc, table, cnf),
        Part::Proof => print_lines(alloc, lines),
        Part::All => {
            let head = core_lines(alloc, states, facts)?;
            refuted_after(head, table, cnf, lines)
        }
    }
}
