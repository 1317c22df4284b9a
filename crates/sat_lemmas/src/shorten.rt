//! Makes a refutation without the lines that it doesn't need.

ghost use Rattle.std.specs.Prelude.{◌≡◌, ◌<◌, ◌≤◌, ℤ, List, IfOk, IfSome, IsTrue, length, take};
ghost use Rattle.std.specs.List.{list_any};
ghost use Rattle.sat_lrat.specs.Step.{Refutes, is_empty_lemma};
ghost use Rattle.sat_lemmas.specs.Kept.{ArePart};

use crate::mark::mark_needed;
use crate::moved::move_marked;
use crate::stay::{are_right, is_empty_lemma};
use sat_dimacs::Cnf;
use sat_lrat::{Line, LineList};
use std::alloc::{AllocError, Global};

/// How many lines there are up to the first empty lemma, if there is one.
fn front(lines: &[Line]) -> Option<usize>
    ensures within { IfSome result (λ count. count ≤ length lines.now) }
    ensures empty { IfSome result (λ count. IsTrue
        (list_any is_empty_lemma (take count lines.now))) }
{
    for place in 0..lines.len() {
        if is_empty_lemma(&lines[place]) {
            return Some(place + 1);
        }
    }
    None
}

/// Marks the last line, and what it is drawn from.
fn marks_of(alloc: Global, clauses: usize, lines: &[Line]) -> Result<Vec<bool>, AllocError>
    ensures { IfOk result (λ marks. length marks.items ≡ length lines.now) }
{
    let mut marks = vec![in alloc; false; lines.len()]?;
    if let Some(last) = marks.last_mut() {
        *last = true;
    }
    mark_needed(clauses, lines, &mut marks);
    Ok(marks)
}

/// The lines that the last one is drawn from, if these need no other; else all lines. Each is moved, and none copied.
fn needed(alloc: Global, clauses: usize, lines: LineList) -> Result<LineList, AllocError>
    ensures refutes { (formula : List (List ℤ)) → length formula ≡ clauses → Refutes formula lines →
        IfOk result (λ rest. Refutes formula rest) }
    ensures part { IfOk result (λ rest. ArePart rest lines) }
{
    let marks = marks_of(alloc, clauses, lines.lines())?;
    if !are_right(clauses, &marks, lines.lines()) {
        return Ok(lines);
    }
    let rest = move_marked(alloc, lines, &marks)?;
    Ok(rest)
}

/// Leaves out the lines of a refutation that it doesn't need: those behind the first empty lemma, and the lemmas from which
/// that one isn't drawn, directly or by others. The only error is want of memory.
///
/// The lines are left as they are where they have no empty lemma, and those up to the first one where the numbers of the
/// lemmas aren't those behind the clauses' in turn. What stays is moved, and not copied.
pub fn trim(alloc: Global, cnf: &Cnf, lines: LineList) -> Result<LineList, AllocError>
    // What the lines refute is still refuted.
    ensures refutes { Refutes cnf.now.clauses lines →
        IfOk result (λ rest. Refutes cnf.now.clauses rest) }
    // What is left are some of the lines, in their order.
    ensures part { IfOk result (λ rest. ArePart rest lines) }
    ensures few { IfOk result (λ rest. length rest ≤ length lines) }
{
    let Some(count) = front(lines.lines()) else {
        return Ok(lines);
    };
    let mut first = lines;
    first.truncate(count);
    let rest = needed(alloc, cnf.clauses.len(), first)?;
    Ok(rest)
}
