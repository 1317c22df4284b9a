//! Which facts a refutation is drawn from: marks go from the last lemma to the clauses.

ghost use Rattle.std.specs.Prelude.{◌≡◌, length};

use crate::part::{drop_fact, is_dropped};
use answer_search::Proof;
use sat_lrat::Line;
use std::alloc::{AllocError, Global};

/// Marks a number, where it is in range.
fn mark(marks: &mut [bool], number: u64)
    ensures { length marks.new ≡ length marks.old }
{
    if number < marks.len() as u64 {
        marks[number as usize] = true;
    }
}

/// Whether a number is marked.
fn is_marked(marks: &[bool], number: u64) -> bool {
    number < marks.len() as u64 && marks[number as usize]
}

/// Marks what a lemma is drawn from, where the lemma is marked or empty.
fn mark_sources(marks: &mut [bool], line: &Line)
    ensures { length marks.new ≡ length marks.old }
{
    match line {
        Line::Lemma { id, clause, hints } => {
            if clause.is_empty() || is_marked(marks, *id) {
                for hint in hints.numbers() {
                    mark(marks, *hint);
                }
            }
        }
        Line::Delete { ids: _ } => {}
    }
}

/// The number of the last lemma, or of the last clause where there is none.
fn last_number(proof: &Proof) -> usize {
    let clauses = proof.cnf.clauses.len();
    match proof.lines.lines().last() {
        Some(Line::Lemma { id, .. }) => clauses.max(*id as usize),
        _ => clauses,
    }
}

/// For each number of a clause or a lemma whether the refutation is drawn from it.
fn reached(alloc: Global, proof: &Proof) -> Result<Vec<bool>, AllocError> {
    let lines = proof.lines.lines();
    let count = last_number(proof);
    let mut marks = vec![in alloc; false; count.saturating_add(1)]?;
    for line in lines.iter().rev() {
        mark_sources(&mut marks, line);
    }
    Ok(marks)
}

/// Leaves out the facts that the refutation isn't drawn from, and tells whether there is one.
///
/// The last clause of the refuted ones is the command's, and before it stands one for each fact that is kept, in order.
pub fn drop_unreached(
    alloc: Global,
    proof: &Proof,
    dropped: &mut [bool],
) -> Result<bool, AllocError>
    ensures { length dropped.new ≡ length dropped.old }
{
    let marks = reached(alloc, proof)?;
    let mut number = proof.cnf.clauses.len() as u64;
    let mut is_less = false;
    for fact in (0..dropped.len()).rev() {
        if !is_dropped(dropped, fact) {
            number = number.saturating_sub(1);
            if !is_marked(&marks, number) {
                drop_fact(dropped, fact);
                is_less = true;
            }
        }
    }
    Ok(is_less)
}
