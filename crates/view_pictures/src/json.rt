//! A trace as data.

use std::alloc::{AllocError, Global};
use view_quotes::{push_json, push_number};
use view_trace::{Kind, Names, Relation, State, Table, Trace};

/// Writes a text between quotes.
fn push_string(out: &mut Vec<u8>, text: &[u8]) -> Result<(), AllocError> {
    out.extend_from_slice(b"\"")?;
    push_json(out, text)?;
    out.extend_from_slice(b"\"")
}

/// Writes a comma, but before the first.
fn push_comma(out: &mut Vec<u8>, place: usize) -> Result<(), AllocError> {
    if place > 0 {
        out.extend_from_slice(b",")
    } else {
        Ok(())
    }
}

/// Writes a list of names.
fn push_names(out: &mut Vec<u8>, names: &[&[u8]]) -> Result<(), AllocError> {
    out.extend_from_slice(b"[")?;
    for (place, name) in names.iter().enumerate() {
        push_comma(out, place)?;
        push_string(out, *name)?;
    }
    out.extend_from_slice(b"]")
}

/// The word for what a label says of its relation.
fn kind_word(kind: Kind) -> &'static [u8] {
    match kind {
        Kind::Sig => b"sig".as_slice(),
        Kind::Field => b"field".as_slice(),
        Kind::Parameter => b"parameter".as_slice(),
    }
}

/// Writes how many columns a relation has, or `null` where the text doesn't tell.
fn push_columns(out: &mut Vec<u8>, relation: &Relation) -> Result<(), AllocError> {
    match relation.kind {
        Kind::Sig => out.extend_from_slice(b"1"),
        Kind::Field | Kind::Parameter => {
            if relation.columns == 0 {
                out.extend_from_slice(b"null")
            } else {
                push_number(out, relation.columns as u64)
            }
        }
    }
}

/// Writes whether a relation changes.
fn push_truth(out: &mut Vec<u8>, truth: bool) -> Result<(), AllocError> {
    if truth {
        out.extend_from_slice(b"true")
    } else {
        out.extend_from_slice(b"false")
    }
}

/// Writes what a relation is.
fn push_relation(out: &mut Vec<u8>, relation: &Relation) -> Result<(), AllocError> {
    out.extend_from_slice(b"\n{\"label\":")?;
    push_string(out, relation.label)?;
    out.extend_from_slice(b",\"kind\":\"")?;
    out.extend_from_slice(kind_word(relation.kind))?;
    out.extend_from_slice(b"\",\"columns\":")?;
    push_columns(out, relation)?;
    out.extend_from_slice(b",\"changes\":")?;
    push_truth(out, relation.changes)?;
    out.extend_from_slice(b"}")
}

/// Writes what each relation is.
fn push_relations(out: &mut Vec<u8>, relations: &[Relation]) -> Result<(), AllocError> {
    out.extend_from_slice(b",\n\"relations\":[")?;
    for (place, relation) in relations.iter().enumerate() {
        push_comma(out, place)?;
        push_relation(out, relation)?;
    }
    out.extend_from_slice(b"]")
}

/// Writes a tuple.
fn push_tuple(out: &mut Vec<u8>, names: &Names, tuple: &[u32]) -> Result<(), AllocError> {
    out.extend_from_slice(b"[")?;
    for (place, atom) in tuple.iter().enumerate() {
        push_comma(out, place)?;
        push_string(out, names.name(*atom))?;
    }
    out.extend_from_slice(b"]")
}

/// Writes the tuples of a table.
fn push_table(out: &mut Vec<u8>, names: &Names, table: &Table) -> Result<(), AllocError> {
    out.extend_from_slice(b"[")?;
    for (place, tuple) in table.tuples().enumerate() {
        push_comma(out, place)?;
        push_tuple(out, names, tuple)?;
    }
    out.extend_from_slice(b"]")
}

/// Writes a state: the tuples of each relation under its label.
fn push_state(out: &mut Vec<u8>, trace: &Trace, state: &State) -> Result<(), AllocError> {
    out.extend_from_slice(b"\n{")?;
    for (place, (relation, table)) in trace.relations.iter().zip(state.iter()).enumerate() {
        push_comma(out, place)?;
        out.extend_from_slice(b"\n")?;
        push_string(out, relation.label)?;
        out.extend_from_slice(b":")?;
        push_table(out, &trace.names, table)?;
    }
    out.extend_from_slice(b"}")
}

/// Writes the states.
fn push_states(out: &mut Vec<u8>, trace: &Trace) -> Result<(), AllocError> {
    out.extend_from_slice(b",\n\"states\":[")?;
    for (place, state) in trace.states.iter().enumerate() {
        push_comma(out, place)?;
        push_state(out, trace, state)?;
    }
    out.extend_from_slice(b"]")
}

/// Writes a trace as one object, behind what was written. Its text has no angle bracket and no ampersand.
pub fn push_trace(out: &mut Vec<u8>, trace: &Trace) -> Result<(), AllocError> {
    out.extend_from_slice(b"{\"format\":\"trace_view\",\"version\":1,\"loop\":")?;
    push_number(out, u64::from(trace.loop_start))?;
    out.extend_from_slice(b",\n\"atoms\":")?;
    push_names(out, trace.names.list())?;
    push_relations(out, trace.relations.as_slice())?;
    push_states(out, trace)?;
    out.extend_from_slice(b"}\n")
}

/// A trace as a JSON text.
pub fn write_json(alloc: Global, trace: &Trace) -> Result<Vec<u8>, AllocError> {
    let mut out = Vec::new(alloc);
    push_trace(&mut out, trace)?;
    Ok(out)
}
