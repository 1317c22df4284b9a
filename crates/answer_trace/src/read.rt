//! Reading a trace, line by line.

ghost use Rattle.std.specs.Prelude.{◌≡◌, [], ◌∷◌, ◌++◌, ◌<◌, length, IfOk, IfSome, IfErr, OnOk, option_map, min, slice_get};
ghost use Rattle.base_words.specs.Words.{parts};
ghost use Rattle.answer_trace.specs.Text.{trace_text};
ghost use Rattle.answer_trace.specs.Reading.{line_set, on_line, header_of, relation_way, relations_way, has_place, order_of, orders_before, orders_of, one_set, arranged, where_true, state_line_way, state_way, states_way, end_way, lines_way, way_from};
ghost use Rattle.answer_trace.specs.Faults.{Differs, Faults, IsRead};

use crate::atom_index::AtomIndex;
use crate::label::{Labels, RelationLabel, Shown, TraceFault};
use crate::left::Left;
use crate::print::print_trace;
use crate::row::{no_tuple, one_atom, read_line};
use crate::words::{header, is_end, is_state_line};
use core_meaning::{Lasso, State, make_lasso};
use core_tuples::TupleSet;
use std::alloc::{AllocError, Global};

/// Reads the set of a relation that has a line. There is `None` where the next line isn't one of it.
fn read_shown(
    alloc: Global,
    index: &AtomIndex,
    relation: &RelationLabel,
    left: &mut Left,
) -> Result<Option<TupleSet>, AllocError>
    ensures { IfOk result (λ o. way_from left.new o
        ≡ on_line (line_set index.now relation.now) (parts left.old.bytes) left.old.lines) }
{
    let Some((line, rest)) = left.next() else {
        return Ok(None)
    };
    let Some(set) = read_line(alloc, index, relation, line)? else {
        return Ok(None)
    };
    left.go_to(rest);
    Ok(Some(set))
}

/// Reads the set of a relation: its line, or what it holds where it has none. There is `None` where the next line
/// isn't one of it.
fn read_relation(
    alloc: Global,
    index: &AtomIndex,
    relation: &RelationLabel,
    left: &mut Left,
) -> Result<Option<TupleSet>, AllocError>
    ensures { IfOk result (λ o. way_from left.new o
        ≡ relation_way index.now relation.now (parts left.old.bytes) left.old.lines) }
{
    match relation.shown {
        Shown::Line => read_shown(alloc, index, relation, left),
        Shown::Nothing => Ok(no_tuple(alloc, relation.columns)),
        Shown::Just(atom) => one_atom(alloc, relation.columns, atom),
    }
}

/// Reads the sets of relations, in order. There is `None` where the next line isn't one of its relation.
#[tactic(auto, using(crate::proofs::Steps::relations_more, crate::proofs::Steps::relations_none, crate::proofs::Steps::relations_end))]
fn read_relations(
    alloc: Global,
    index: &AtomIndex,
    relations: &[RelationLabel],
    left: &mut Left,
) -> Result<Option<Vec<TupleSet>>, AllocError>
    ensures { IfOk result (λ o. way_from left.new (option_map (λ v. v.items) o)
        ≡ relations_way index.now [] relations.now (parts left.old.bytes) left.old.lines) }
{
    let mut sets: Vec<TupleSet> = Vec::new(alloc);
    for relation in relations {
        match read_relation(alloc, index, relation, left)? {
            None => return Ok(None),
            Some(set) => sets.push(set)?,
        }
    }
    Ok(Some(sets))
}

/// Whether a relation has a place in a state.
fn has_place(relation: &RelationLabel, place: usize) -> bool
    ensures { result ≡ has_place place relation.now }
{
    relation.place as usize == place
}

/// The place among relations of the one that has a place in a state, or their number.
#[tactic(auto, using(crate::proofs::Nowhere::further_fails, crate::proofs::Nowhere::found_there, crate::proofs::Nowhere::passes_nowhere))]
fn order_of(relations: &[RelationLabel], place: usize) -> usize
    ensures { result ≡ order_of relations.now place }
{
    let mut order = 0;
    for relation in relations {
        if has_place(relation, place) {
            return order;
        }
        order += 1;
    }
    relations.len()
}

/// For each place of a state the place among relations of its relation.
fn orders_of(alloc: Global, relations: &[RelationLabel]) -> Result<Vec<usize>, AllocError>
    ensures { IfOk result (λ v. v.items ≡ orders_of relations.now) }
{
    let mut orders: Vec<usize> = Vec::new(alloc);
    for place in 0..relations.len() {
        orders.push(order_of(relations, place))?;
    }
    Ok(orders)
}

/// Adds the set at a place, where there is one.
#[tactic(auto, using(std::proofs::lemmas::Option::slice_get_past))]
fn push_set(
    alloc: Global,
    sets: &[TupleSet],
    order: usize,
    state: &mut State,
) -> Result<(), AllocError>
    ensures { OnOk result (state.new ≡ state.old ++ one_set (slice_get sets.now order)) }
{
    if order >= sets.len() {
        return Ok(());
    }
    state.push(sets[order].copy(alloc)?)
}

/// The state of these sets, each at its place.
fn arranged(alloc: Global, sets: &[TupleSet], orders: &[usize]) -> Result<State, AllocError>
    ensures { IfOk result (λ s. s ≡ arranged orders.now sets.now) }
{
    let mut state = State::new(alloc);
    for order in orders {
        push_set(alloc, sets, *order, &mut state)?;
    }
    Ok(state)
}

/// Takes the first line of a state, and answers whether it is the next one.
fn take_state_line(left: &mut Left, number: u32) -> bool
    ensures { way_from left.new (where_true result)
        ≡ state_line_way number (parts left.old.bytes) left.old.lines }
{
    let Some((line, rest)) = left.next() else {
        return false
    };
    if !is_state_line(line, number) {
        return false;
    }
    left.go_to(rest);
    true
}

/// Reads a state. There is `None` where the next line is none of it.
fn read_state(
    alloc: Global,
    labels: &Labels,
    index: &AtomIndex,
    orders: &[usize],
    number: u32,
    left: &mut Left,
) -> Result<Option<State>, AllocError>
    requires atoms { index.now ≡ labels.now.atoms }
    requires orders { orders.now ≡ orders_of labels.now.relations }
    ensures { IfOk result (λ o. way_from left.new o
        ≡ state_way labels.now number (parts left.old.bytes) left.old.lines) }
{
    if !take_state_line(left, number) {
        return Ok(None);
    }
    let Some(sets) = read_relations(alloc, index, labels.relations.as_slice(), left)? else {
        return Ok(None)
    };
    Ok(Some(arranged(alloc, sets.as_slice(), orders)?))
}

/// Reads so many states. There is `None` where the next line is none of them.
#[tactic(auto, using(crate::proofs::Steps::states_more, crate::proofs::Steps::states_none, crate::proofs::Steps::states_end))]
fn read_states(
    alloc: Global,
    labels: &Labels,
    count: u32,
    left: &mut Left,
) -> Result<Option<Vec<State>>, AllocError>
    ensures states { IfOk result (λ o. way_from left.new (option_map (λ v. v.items) o)
        ≡ states_way labels.now count [] 0 (parts left.old.bytes) left.old.lines) }
    ensures count { IfOk result (λ o. IfSome o (λ v. length v.items ≡ count)) }
{
    let index = AtomIndex::new(alloc, &labels.atoms)?;
    let orders = orders_of(alloc, labels.relations.as_slice())?;
    let mut states: Vec<State> = Vec::new(alloc);
    for number in 0..count {
        match read_state(alloc, labels, &index, orders.as_slice(), number, left)? {
            None => return Ok(None),
            Some(state) => states.push(state)?,
        }
    }
    Ok(Some(states))
}

/// Takes the last line, and answers whether it is the next one and nothing stands behind it.
fn take_end(left: &mut Left) -> bool
    ensures { way_from left.new (where_true result)
        ≡ end_way (parts left.old.bytes) left.old.lines }
{
    let Some((line, rest)) = left.next() else {
        return false
    };
    if !is_end(line) {
        return false;
    }
    left.go_to(rest);
    left.is_over()
}

/// Takes the first line, and answers its number of states and loop index.
fn take_header(left: &mut Left) -> Option<(u32, u32)>
    ensures header { way_from left.new (option_map (λ found. (found.0, found.1)) result)
        ≡ on_line header_of (parts left.old.bytes) left.old.lines }
    ensures less { IfSome result (λ found. found.1 < found.0) }
{
    let Some((line, rest)) = left.next() else {
        return None
    };
    let Some((count, loop_start)) = header(line) else {
        return None
    };
    left.go_to(rest);
    Some((count, loop_start))
}

/// Reads the lasso that a text has line by line. There is `None` where the next line is none of a trace.
fn read_lasso(alloc: Global, labels: &Labels, left: &mut Left) -> Result<Option<Lasso>, AllocError>
    ensures { IfOk result (λ o. way_from left.new o
        ≡ lines_way labels.now (parts left.old.bytes) left.old.lines) }
{
    let Some((count, loop_start)) = take_header(left) else {
        return Ok(None)
    };
    let Some(states) = read_states(alloc, labels, count, left)? else {
        return Ok(None)
    };
    if !take_end(left) {
        return Ok(None);
    }
    Ok(make_lasso(states, loop_start))
}

/// A number in 32 bits, or the greatest of these.
fn short(number: u64) -> u32
    ensures { result ≡ min number 4294967295 }
{
    number.min(4_294_967_295) as u32
}

/// The lasso, where its text is this.
fn checked(
    alloc: Global,
    labels: &Labels,
    bytes: &[u8],
    lasso: Lasso,
    line: u32,
) -> Result<Lasso, TraceFault>
    ensures lasso { IfOk result (λ l. l ≡ lasso) }
    ensures text { IfOk result (λ l. trace_text labels.now l ≡ bytes.now) }
    ensures other { IfErr result (λ e. Differs labels.now lasso bytes.now e) }
{
    match print_trace(alloc, labels, &lasso) {
        Err(_) => Err(TraceFault::Memory),
        Ok(text) => {
            if text.as_slice() == bytes {
                Ok(lasso)
            } else {
                Err(TraceFault::BadTrace { line })
            }
        }
    }
}

/// Reads the text of a trace. The text of the lasso that is given is just these bytes. Else the fault names the
/// first line that is none of a trace of these labels.
pub fn read_trace(alloc: Global, labels: &Labels, bytes: &[u8]) -> Result<Lasso, TraceFault>
    ensures text { IfOk result (λ l. trace_text labels.now l ≡ bytes.now) }
    ensures read { IfOk result (λ l. IsRead labels.now bytes.now l) }
    ensures fault { IfErr result (λ e. Faults labels.now bytes.now e) }
{
    let mut left = Left::new(bytes);
    match read_lasso(alloc, labels, &mut left) {
        Err(_) => Err(TraceFault::Memory),
        Ok(None) => Err(TraceFault::BadTrace {
            line: short(left.lines() + 1),
        }),
        Ok(Some(lasso)) => checked(alloc, labels, bytes, lasso, short(left.lines() + 1)),
    }
}
