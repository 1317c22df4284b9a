//! Reading a trace line by line.
//!
//! Each rule looks at the next line, and takes it where it is what the rule asks for. So where no rule goes on, the next
//! line is the first with which the text stops being a trace.

use crate::TraceFault;
use crate::lines::{Lines, after, header, is_state_line};
use crate::names::{Names, is_label};
use crate::row::read_table;
use crate::trace::{Kind, Relation, State, Table, Trace, kind_of};
use base_words::next_word;
use std::alloc::{AllocError, Global};
use std::collections::HashSet;

/// A number in 32 bits, or the greatest of these.
fn short(number: u64) -> u32 {
    number.min(4_294_967_295) as u32
}

/// The label with which the line of a relation begins, and what stands behind its ` =`. There is `None` where a line is
/// that of no relation.
fn relation_line(line: &[u8]) -> Option<(&[u8], &[u8])> {
    let (label, _) = next_word(line)?;
    let rest = after(line, label)?;
    let tuples = after(rest, b" =")?;
    if is_label(label) {
        Some((label, tuples))
    } else {
        None
    }
}

/// Whether a relation whose label says this of it can have so many columns.
fn can_have(kind: Kind, columns: usize) -> bool {
    match kind {
        Kind::Sig => columns == 1,
        Kind::Field => columns >= 2,
        Kind::Parameter => columns >= 1,
    }
}

/// Whether the columns of a table are those of a relation, which takes them over where it has none yet.
fn takes_columns(relation: &mut Relation, columns: usize) -> bool {
    if columns == 0 {
        return true;
    }
    if relation.columns == 0 && can_have(relation.kind, columns) {
        relation.columns = columns;
    }
    relation.columns == columns
}

/// Takes the first line.
fn take_header(left: &mut Lines) -> Option<(u32, u32)> {
    let Some((line, rest)) = left.next() else {
        return None;
    };
    let Some((count, loop_start)) = header(line) else {
        return None;
    };
    left.go_to(rest);
    Some((count, loop_start))
}

/// Takes the first line of a state. It answers whether it was there.
fn take_state_line(left: &mut Lines, number: u32) -> bool {
    let Some((line, rest)) = left.next() else {
        return false;
    };
    if !is_state_line(line, number) {
        return false;
    }
    left.go_to(rest);
    true
}

/// Takes the last line of a trace. It answers whether it was there.
fn take_end(left: &mut Lines) -> bool {
    let Some((line, rest)) = left.next() else {
        return false;
    };
    if line != b"end".as_slice() {
        return false;
    }
    left.go_to(rest);
    true
}

/// Whether nothing follows a trace, or the line `clauses` does, with which another part of an answer begins.
fn ends_well(left: &Lines) -> bool {
    if left.is_over() {
        return true;
    }
    match left.next() {
        Some((line, _)) => line == b"clauses".as_slice(),
        None => false,
    }
}

/// Reads the table of a relation from its tuples. There is `None` where they aren't such a relation's.
fn read_relation<'a>(
    alloc: Global,
    names: &mut Names<'a>,
    relation: &mut Relation<'a>,
    tuples: &'a [u8],
) -> Result<Option<Table>, AllocError> {
    let Some(table) = read_table(alloc, names, tuples)? else {
        return Ok(None);
    };
    if takes_columns(relation, table.columns()) {
        Ok(Some(table))
    } else {
        Ok(None)
    }
}

/// A relation with this label.
fn new_relation<'a>(label: &'a [u8]) -> Relation<'a> {
    Relation {
        label,
        kind: kind_of(label),
        columns: 0,
        changes: false,
    }
}

/// Takes the lines of relations that stand next, whose labels differ, and gives the relations and their tables.
fn take_relations<'a>(
    alloc: Global,
    names: &mut Names<'a>,
    relations: &mut Vec<Relation<'a>>,
    left: &mut Lines<'a>,
) -> Result<Option<State>, AllocError> {
    let mut labels: HashSet<&[u8]> = HashSet::new(alloc);
    let mut state = Vec::new(alloc);
    for _line in 0..u64::MAX {
        let Some((line, rest)) = left.next() else {
            return Ok(None);
        };
        let Some((label, tuples)) = relation_line(line) else {
            return Ok(Some(state));
        };
        if !labels.insert(label)? {
            return Ok(None);
        }
        let mut relation = new_relation(label);
        let Some(table) = read_relation(alloc, names, &mut relation, tuples)? else {
            return Ok(None);
        };
        relations.push(relation)?;
        state.push(table)?;
        left.go_to(rest);
    }
    Ok(None)
}

/// The tuples of the line of a relation, where a line begins with its label.
fn tuples_behind<'a>(line: &'a [u8], label: &[u8]) -> Option<&'a [u8]> {
    let rest = after(line, label)?;
    after(rest, b" =")
}

/// Takes the next line as that of a relation, and gives the table.
fn take_relation<'a>(
    alloc: Global,
    names: &mut Names<'a>,
    relation: &mut Relation<'a>,
    left: &mut Lines<'a>,
) -> Result<Option<Table>, AllocError> {
    let Some((line, rest)) = left.next() else {
        return Ok(None);
    };
    let Some(tuples) = tuples_behind(line, relation.label) else {
        return Ok(None);
    };
    let Some(table) = read_relation(alloc, names, relation, tuples)? else {
        return Ok(None);
    };
    left.go_to(rest);
    Ok(Some(table))
}

/// Takes the lines of all relations again.
fn take_relations_again<'a>(
    alloc: Global,
    names: &mut Names<'a>,
    relations: &mut Vec<Relation<'a>>,
    left: &mut Lines<'a>,
) -> Result<Option<State>, AllocError> {
    let mut state = Vec::new(alloc);
    for relation in relations.iter_mut() {
        let Some(table) = take_relation(alloc, names, relation, left)? else {
            return Ok(None);
        };
        state.push(table)?;
    }
    Ok(Some(state))
}

/// Takes a state. The first one says which relations there are.
fn take_state<'a>(
    alloc: Global,
    names: &mut Names<'a>,
    relations: &mut Vec<Relation<'a>>,
    number: u32,
    left: &mut Lines<'a>,
) -> Result<Option<State>, AllocError> {
    if !take_state_line(left, number) {
        return Ok(None);
    }
    if number == 0 {
        take_relations(alloc, names, relations, left)
    } else {
        take_relations_again(alloc, names, relations, left)
    }
}

/// Takes so many states.
fn take_states<'a>(
    alloc: Global,
    names: &mut Names<'a>,
    relations: &mut Vec<Relation<'a>>,
    count: u32,
    left: &mut Lines<'a>,
) -> Result<Option<Vec<State>>, AllocError> {
    let mut states = Vec::new(alloc);
    for number in 0..count {
        let Some(state) = take_state(alloc, names, relations, number, left)? else {
            return Ok(None);
        };
        states.push(state)?;
    }
    Ok(Some(states))
}

/// Whether two tables are there and differ.
fn is_other(before: Option<&Table>, now: Option<&Table>) -> bool {
    match (before, now) {
        (Some(before), Some(now)) => !before.is_same(now),
        _ => false,
    }
}

/// Whether the tables at a place differ between some state and the next.
fn does_change(states: &[State], place: usize) -> bool {
    let mut before: Option<&Table> = None;
    for state in states {
        let now = state.get(place);
        if is_other(before, now) {
            return true;
        }
        before = now;
    }
    false
}

/// Notes which relations change.
fn mark_changes(relations: &mut Vec<Relation>, states: &[State]) {
    for (place, relation) in relations.iter_mut().enumerate() {
        relation.changes = does_change(states, place);
    }
}

/// Reads a trace and what may follow it. There is `None` where the next line doesn't go on with one.
fn take_trace<'a>(alloc: Global, left: &mut Lines<'a>) -> Result<Option<Trace<'a>>, AllocError> {
    let Some((count, loop_start)) = take_header(left) else {
        return Ok(None);
    };
    let mut names = Names::new(alloc);
    let mut relations = Vec::new(alloc);
    let Some(states) = take_states(alloc, &mut names, &mut relations, count, left)? else {
        return Ok(None);
    };
    if !take_end(left) {
        return Ok(None);
    }
    if !ends_well(&*left) {
        return Ok(None);
    }
    mark_changes(&mut relations, states.as_slice());
    Ok(Some(Trace {
        names,
        relations,
        states,
        loop_start,
    }))
}

/// Reads the text of a trace, which borrows its names. The fault names the first line with which the text stops being
/// one, from 1; a line that is missing, or has no line feed, counts as one.
pub fn read_trace<'a>(alloc: Global, text: &'a [u8]) -> Result<Trace<'a>, TraceFault> {
    let mut left = Lines::new(text);
    match take_trace(alloc, &mut left) {
        Err(_) => Err(TraceFault::Memory),
        Ok(None) => Err(TraceFault::BadTrace {
            line: short(left.taken().saturating_add(1)),
        }),
        Ok(Some(trace)) => Ok(trace),
    }
}
