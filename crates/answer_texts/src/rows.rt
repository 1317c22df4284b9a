//! The table: a row for each variable of the clauses that says what it stands for.

ghost use Rattle.std.specs.Prelude.{◌≡◌, ◌∷◌, ◌++◌, ◌+◌, [], false, flat_map, IfOk, OnOk, slice_get};
ghost use Rattle.sat_dimacs.specs.Text.{has_feed};
ghost use Rattle.bound_uppers.specs.Table.{cell_at, IsLaidOut};
ghost use Rattle.answer_texts.specs.Table.{AreLines, IsTableOf, one_line, tuple_row, tuple_rows, bound_rows, relation_rows, rows_before, loop_row, loop_rows, loops_after};
ghost use Rattle.answer_texts.specs.Kept.{first_in, kept_first};

use crate::write::push_decimal;
use answer_trace::{Labels, RelationLabel, TextList, push_tuple};
use bound_uppers::sums::{added, multiplied};
use bound_uppers::{Bound, Bounds, Cells, Layout};
use core_tuples::Keyed;
use sat_dimacs::{Row, Table, has_feed};
use std::alloc::{AllocError, Global};

/// A row with this text. A text with a line feed, which no label has, is left empty.
fn row_of(alloc: Global, text: Vec<u8>) -> Row
    ensures { result ≡ one_line text.items }
{
    if has_feed(&text) {
        Row::new(Vec::new(alloc))
    } else {
        Row::new(text)
    }
}

/// The row of the variable that says that a relation has a tuple at a state.
fn tuple_row(
    alloc: Global,
    atoms: &TextList,
    label: &str,
    number: u64,
    state: u32,
    tuple: &[u32],
) -> Result<Row, AllocError>
    ensures { IfOk result (λ row. row ≡ tuple_row atoms.now label.now number state tuple.now) }
{
    let mut text = Vec::new(alloc);
    text.extend_from_slice(b"var ")?;
    push_decimal(&mut text, number)?;
    text.extend_from_slice(b" ")?;
    text.extend_from_slice(label.as_bytes())?;
    text.extend_from_slice(b" state ")?;
    push_decimal(&mut text, u64::from(state))?;
    text.extend_from_slice(b" ")?;
    push_tuple(&mut text, atoms, tuple)?;
    let row = row_of(alloc, text);
    Ok(row)
}

/// Adds that row.
fn push_row(
    alloc: Global,
    table: &mut Table,
    atoms: &TextList,
    label: &str,
    number: u64,
    state: u32,
    tuple: &Keyed,
) -> Result<(), AllocError>
    ensures { OnOk result (table.new ≡ table.old
        ++ tuple_row atoms.now label.now number state tuple.now ∷ []) }
{
    let row = tuple_row(alloc, atoms, label, number, state, tuple.numbers())?;
    table.push(row)?;
    Ok(())
}

/// Adds a row for each of these tuples, whose variables follow one another from this one on.
fn push_tuples(
    alloc: Global,
    table: &mut Table,
    atoms: &TextList,
    label: &str,
    first: u64,
    state: u32,
    tuples: &[Keyed],
) -> Result<(), AllocError>
    ensures { OnOk result (table.new ≡ table.old
        ++ tuple_rows atoms.now label.now first state tuples.now) }
{
    let mut number = first;
    for tuple in tuples {
        push_row(alloc, table, atoms, label, number, state, tuple)?;
        number = added(number, 1)?;
    }
    Ok(())
}

/// Adds a row for each tuple that a relation with this bound may have at a state, where its first variable is this one.
fn push_bound(
    alloc: Global,
    table: &mut Table,
    atoms: &TextList,
    label: &str,
    first: u64,
    state: u32,
    bound: &Bound,
) -> Result<(), AllocError>
    ensures { OnOk result (table.new ≡ table.old
        ++ bound_rows atoms.now label.now first state bound.now) }
{
    if bound.fixed && state > 0 {
        return Ok(());
    }
    push_tuples(
        alloc,
        table,
        atoms,
        label,
        first,
        state,
        bound.upper.keyed(),
    )?;
    Ok(())
}

/// The variable of a relation's first tuple at a state.
#[tactic(auto, using(crate::proofs::TableRows::later_cell))]
fn first_cell(cells: &Cells, state: u32) -> Result<u64, AllocError>
    ensures { IfOk result (λ n. n ≡ cell_at cells.now state) }
{
    if state == 0 {
        return Ok(cells.first);
    }
    let behind = multiplied((state - 1) as u64, cells.stride)?;
    let number = added(cells.next, behind)?;
    Ok(number)
}

/// The same of the relation at a place.
fn first_at(layout: &Layout, place: usize, state: u32) -> Result<u64, AllocError>
    ensures { IfOk result (λ n. n ≡ first_in (slice_get layout.now.relations.items place) state) }
{
    match layout.relations.get(place) {
        Some(cells) => {
            let first = first_cell(cells, state)?;
            Ok(first)
        }
        None => Err(AllocError),
    }
}

/// Adds a row for each tuple that a relation may have at a state.
fn push_relation(
    alloc: Global,
    table: &mut Table,
    atoms: &TextList,
    bounds: &Bounds,
    layout: &Layout,
    state: u32,
    relation: &RelationLabel,
) -> Result<(), AllocError>
    ensures { OnOk result (table.new ≡ table.old
        ++ relation_rows (kept_first layout.now) atoms.now bounds.now state relation.now) }
{
    let place = relation.place as usize;
    if place >= bounds.relations.len() {
        return Ok(());
    }
    let first = first_at(layout, place, state)?;
    let label = relation.label.text();
    push_bound(
        alloc,
        table,
        atoms,
        label,
        first,
        state,
        bounds.relations.get(place),
    )?;
    Ok(())
}

/// Adds the rows of relations at a state.
fn push_relations(
    alloc: Global,
    table: &mut Table,
    atoms: &TextList,
    bounds: &Bounds,
    layout: &Layout,
    state: u32,
    relations: &[RelationLabel],
) -> Result<(), AllocError>
    ensures { OnOk result (table.new ≡ table.old ++ flat_map
        (relation_rows (kept_first layout.now) atoms.now bounds.now state) relations.now) }
{
    for relation in relations {
        push_relation(alloc, table, atoms, bounds, layout, state, relation)?;
    }
    Ok(())
}

/// Adds the rows of all states.
fn push_states(
    alloc: Global,
    table: &mut Table,
    labels: &Labels,
    bounds: &Bounds,
    layout: &Layout,
) -> Result<(), AllocError>
    ensures { OnOk result (table.new ≡ table.old
        ++ rows_before (kept_first layout.now) labels.now bounds.now bounds.now.states) }
{
    for state in 0..bounds.states {
        let relations = labels.relations.as_slice();
        push_relations(
            alloc,
            table,
            &labels.atoms,
            bounds,
            layout,
            state,
            relations,
        )?;
    }
    Ok(())
}

/// The row of the variable that says that the loop begins at a state.
fn loop_row(alloc: Global, number: u64, state: u32) -> Result<Row, AllocError>
    ensures { IfOk result (λ row. row ≡ loop_row number state) }
{
    let mut text = Vec::new(alloc);
    text.extend_from_slice(b"var ")?;
    push_decimal(&mut text, number)?;
    text.extend_from_slice(b" loop ")?;
    push_decimal(&mut text, u64::from(state))?;
    let row = row_of(alloc, text);
    Ok(row)
}

/// Adds the row of the variable that says that the loop begins at a state, which stands so many behind the first.
fn push_choice(alloc: Global, table: &mut Table, first: u64, state: u32) -> Result<(), AllocError>
    ensures { OnOk result (table.new ≡ table.old ++ loop_row (first + state) state ∷ []) }
{
    let number = added(first, u64::from(state))?;
    let row = loop_row(alloc, number, state)?;
    table.push(row)?;
    Ok(())
}

/// Adds a row for each loop index, whose variables follow one another from this one on.
fn push_choices(alloc: Global, table: &mut Table, first: u64, states: u32) -> Result<(), AllocError>
    ensures { OnOk result (table.new ≡ table.old ++ loop_rows first states) }
{
    for state in 0..states {
        push_choice(alloc, table, first, state)?;
    }
    Ok(())
}

/// The same, where there are several states.
fn push_loops(alloc: Global, table: &mut Table, first: u64, states: u32) -> Result<(), AllocError>
    ensures { OnOk result (table.new ≡ table.old ++ loops_after first states) }
{
    if states <= 1 {
        return Ok(());
    }
    push_choices(alloc, table, first, states)?;
    Ok(())
}

/// A row has no line feed.
#[tactic(auto, using(crate::proofs::OneLine::line_of))]
fn is_line(row: &Row)
    ensures { has_feed row.now ≡ false }
{
    // for the proof: this call's clauses say what the text of a row is
    let _text = row.text();
}

/// Nor has any row of a table.
#[tactic(auto, using(crate::proofs::OneLine::lines_first, crate::proofs::OneLine::lines_more, crate::proofs::OneLine::lines_all))]
fn rows_are_lines(rows: &[Row])
    ensures { AreLines rows.now }
{
    for row in rows {
        is_line(row);
    }
}

/// The same of the table.
#[tactic(auto, using(crate::proofs::OneLine::same_lines))]
fn are_lines(table: &Table)
    ensures { AreLines table.now }
{
    rows_are_lines(table.rows());
}

/// What the variables stand for, whose numbers are lent: for each state and each relation in order, a relation that isn't `var`
/// at state 0 alone, a row for each tuple that it may have; then, where there are several states, a row for each loop index.
/// The rows have the numbers of the variables, and each is one line.
pub fn table(
    alloc: Global,
    labels: &Labels,
    bounds: &Bounds,
    layout: &Layout,
) -> Result<Table, AllocError>
    ensures { IsLaidOut bounds.now layout.now → IfOk result (IsTableOf labels.now bounds.now) }
{
    let mut rows = Table::new(alloc);
    push_states(alloc, &mut rows, labels, bounds, layout)?;
    push_loops(alloc, &mut rows, layout.loops, bounds.states)?;
    are_lines(&rows);
    Ok(rows)
}
