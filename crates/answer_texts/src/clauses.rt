//! The texts of answers with clauses: none, or a budget that is spent.

ghost use Rattle.std.specs.Prelude.{◌≡◌, ◌++◌, OnOk, IfOk, codes};
ghost use Rattle.answer_texts.specs.Answers.{none_line, unknown_line, block_text, absent_text, unknown_text};

use crate::write::push_decimal;
use cli_words::Part;
use sat_dimacs::{Cnf, Table, print_cnf, push_cnf};
use sat_lrat::{LineList, print_lines, push_lines};
use std::alloc::{AllocError, Global};

/// Writes the line that there is no trace of so many states.
fn push_none(out: &mut Vec<u8>, states: u32) -> Result<(), AllocError>
    ensures { OnOk result (out.new.items ≡ out.old.items ++ none_line states) }
{
    out.extend_from_slice(b"none states ")?;
    push_decimal(out, u64::from(states))?;
    out.extend_from_slice(b"\n")
}

/// Writes the line that so many conflicts left it open.
fn push_unknown(out: &mut Vec<u8>, conflicts: u64) -> Result<(), AllocError>
    ensures { OnOk result (out.new.items ≡ out.old.items ++ unknown_line conflicts) }
{
    out.extend_from_slice(b"unknown conflicts ")?;
    push_decimal(out, conflicts)?;
    out.extend_from_slice(b"\n")
}

/// Writes the clauses, the lines under this heading, and the last line.
pub fn push_block(
    out: &mut Vec<u8>,
    heading: &[u8],
    table: &Table,
    cnf: &Cnf,
    lines: &LineList,
) -> Result<(), AllocError>
    ensures { OnOk result (out.new.items ≡ out.old.items
        ++ block_text heading.now table.now cnf.now lines.now) }
{
    out.extend_from_slice(b"clauses\n")?;
    push_cnf(out, table, cnf)?;
    out.extend_from_slice(heading)?;
    push_lines(out, lines)?;
    out.extend_from_slice(b"end\n")
}

/// All of an answer that there is no trace.
fn absent_whole(
    alloc: Global,
    states: u32,
    table: &Table,
    cnf: &Cnf,
    lines: &LineList,
) -> Result<Vec<u8>, AllocError>
    ensures { IfOk result (λ text. text.items ≡ none_line states
        ++ block_text (codes "refutation\n") table.now cnf.now lines.now) }
{
    let mut out = Vec::new(alloc);
    push_none(&mut out, states)?;
    push_block(&mut out, b"refutation\n", table, cnf, lines)?;
    Ok(out)
}

/// The line that there is no trace, alone.
fn none_alone(alloc: Global, states: u32) -> Result<Vec<u8>, AllocError>
    ensures { IfOk result (λ text. text.items ≡ none_line states) }
{
    let mut out = Vec::new(alloc);
    push_none(&mut out, states)?;
    Ok(out)
}

/// The part that is asked for of an answer that there is no trace: the line that says so, the clauses with the rows of
/// the table before them, the lines that refute them, or all of these under headings.
pub fn absent_text(
    alloc: Global,
    part: Part,
    states: u32,
    table: &Table,
    cnf: &Cnf,
    lines: &LineList,
) -> Result<Vec<u8>, AllocError>
    ensures { IfOk result (λ text. text.items ≡ absent_text part states table.now cnf.now
        lines.now) }
{
    match part {
        Part::Answer => none_alone(alloc, states),
        Part::Cnf => print_cnf(alloc, table, cnf),
        Part::Proof => print_lines(alloc, lines),
        Part::All => absent_whole(alloc, states, table, cnf, lines),
    }
}

/// An answer that so many conflicts left open, with its clauses and the lemmas so far.
pub fn unknown_text(
    alloc: Global,
    conflicts: u64,
    table: &Table,
    cnf: &Cnf,
    lines: &LineList,
) -> Result<Vec<u8>, AllocError>
    ensures { IfOk result (λ text. text.items ≡ unknown_text conflicts table.now cnf.now
        lines.now) }
{
    let mut out = Vec::new(alloc);
    push_unknown(&mut out, conflicts)?;
    push_block(&mut out, b"derivation\n", table, cnf, lines)?;
    Ok(out)
}
