//! Writing lines in the LRAT format.

ghost use Rattle.std.specs.Prelude.{◌≡◌, ◌++◌, OnOk, IfOk};
ghost use Rattle.sat_lrat.specs.Text.{numbers_text, literals_text, line_text, last_lemma, lines_text};

use crate::line::{Hints, Line, LineList};
use base_words::{push_literal, push_number};
use sat_dimacs::Clause;
use std::alloc::{AllocError, Global};

/// Writes numbers.
fn push_numbers(out: &mut Vec<u8>, hints: &Hints) -> Result<(), AllocError>
    ensures { OnOk result (out.new.items ≡ out.old.items ++ numbers_text hints.now) }
{
    for number in hints.numbers() {
        push_number(out, *number)?;
    }
    Ok(())
}

/// Writes literals.
fn push_literals(out: &mut Vec<u8>, clause: &Clause) -> Result<(), AllocError>
    ensures { OnOk result (out.new.items ≡ out.old.items ++ literals_text clause.now) }
{
    for literal in clause.literals() {
        push_literal(out, literal)?;
    }
    Ok(())
}

/// Writes a lemma.
fn push_lemma(out: &mut Vec<u8>, id: u64, clause: &Clause, hints: &Hints) -> Result<(), AllocError>
    ensures { OnOk result (out.new.items ≡ out.old.items
        ++ line_text 0 (Line.Lemma id clause.now hints.now)) }
{
    push_number(out, id)?;
    push_literals(out, clause)?;
    out.extend_from_slice(b"0 ")?;
    push_numbers(out, hints)?;
    out.extend_from_slice(b"0\n")
}

/// Writes a deletion line.
fn push_deletion(out: &mut Vec<u8>, last: u64, ids: &Hints) -> Result<(), AllocError>
    ensures { OnOk result (out.new.items ≡ out.old.items ++ line_text last (Line.Delete ids.now)) }
{
    push_number(out, last)?;
    out.extend_from_slice(b"d ")?;
    push_numbers(out, ids)?;
    out.extend_from_slice(b"0\n")
}

/// Writes a line behind a lemma, and gives the number of the last lemma then.
fn push_line(out: &mut Vec<u8>, last: u64, line: &Line) -> Result<u64, AllocError>
    ensures text { OnOk result (out.new.items ≡ out.old.items ++ line_text last line.now) }
    ensures last { IfOk result (λ id. id ≡ last_lemma last line.now) }
{
    match line {
        Line::Lemma { id, clause, hints } => {
            push_lemma(out, *id, clause, hints)?;
            Ok(*id)
        }
        Line::Delete { ids } => {
            push_deletion(out, last, ids)?;
            Ok(last)
        }
    }
}

/// Writes lines in the LRAT format behind a text, with single blanks. A line that deletes has the number of the last lemma
/// before it, or 1.
pub fn push_lines(out: &mut Vec<u8>, lines: &LineList) -> Result<(), AllocError>
    ensures { OnOk result (out.new.items ≡ out.old.items ++ lines_text 1 lines.now) }
{
    let mut last = 1;
    for line in lines.lines() {
        last = push_line(out, last, line)?;
    }
    Ok(())
}

/// The text of lines in the LRAT format, as `push_lines` writes it.
pub fn print_lines(alloc: Global, lines: &LineList) -> Result<Vec<u8>, AllocError>
    ensures { IfOk result (λ text. text.items ≡ lines_text 1 lines.now) }
{
    let mut out = Vec::new(alloc);
    push_lines(&mut out, lines)?;
    Ok(out)
}
