//! The tuples of a state as edges of a graph.

ghost use Rattle.std.specs.Prelude.{◌≤◌, length};

use crate::change::{Change, Shown};
use crate::nodes::push_node_name;
use std::alloc::AllocError;
use view_quotes::push_entities;
use view_trace::{Names, Trace};

/// Where the first dot of a label stands; the length where there is none.
fn dot_place(label: &[u8]) -> usize
    ensures { result ≤ length label.now }
{
    for (place, byte) in label.iter().enumerate() {
        if *byte == b'.' {
            return place;
        }
    }
    label.len()
}

/// The label of the sig that owns a field; another label whole.
pub fn sig_label(label: &[u8]) -> &[u8] {
    let (sig, _) = label.split_at(dot_place(label));
    sig
}

/// The name of a field without its sig; another label whole.
pub fn short_label(label: &[u8]) -> &[u8] {
    let (_, rest) = label.split_at(dot_place(label));
    match rest {
        [_, name @ ..] => name,
        [] => label,
    }
}

/// Writes the atoms between the ends of a tuple.
fn push_middle(out: &mut Vec<u8>, names: &Names, atoms: &[u32]) -> Result<(), AllocError> {
    if atoms.is_empty() {
        return Ok(());
    }
    out.extend_from_slice(b" [")?;
    for (place, atom) in atoms.iter().enumerate() {
        if place > 0 {
            out.extend_from_slice(b", ")?;
        }
        push_entities(out, names.name(*atom))?;
    }
    out.extend_from_slice(b"]")
}

/// The further attributes of an edge.
fn style_of(change: Change) -> &'static [u8] {
    match change {
        Change::Same => b"];\n".as_slice(),
        Change::New => b", color=\"#1a7f37\", fontcolor=\"#1a7f37\", penwidth=2];\n".as_slice(),
        Change::Gone => b", color=\"#cf222e\", fontcolor=\"#cf222e\", style=dashed];\n".as_slice(),
    }
}

/// Writes a tuple of two columns or more as an edge from its first atom to its last.
fn push_edge(
    out: &mut Vec<u8>,
    names: &Names,
    state: usize,
    label: &[u8],
    shown: &Shown<'_>,
) -> Result<(), AllocError> {
    let [first, middle @ .., last] = shown.tuple else {
        return Ok(());
    };
    out.extend_from_slice(b"    ")?;
    push_node_name(out, state, *first)?;
    out.extend_from_slice(b" -> ")?;
    push_node_name(out, state, *last)?;
    out.extend_from_slice(b" [label=\"")?;
    push_entities(out, short_label(label))?;
    push_middle(out, names, middle)?;
    out.extend_from_slice(b"\"")?;
    out.extend_from_slice(style_of(shown.change))
}

/// Writes the edges of a state.
pub fn push_edges(
    out: &mut Vec<u8>,
    trace: &Trace,
    state: usize,
    tables: &[Vec<Shown<'_>>],
) -> Result<(), AllocError> {
    for (relation, table) in trace.relations.iter().zip(tables.iter()) {
        for tuple in table.iter() {
            push_edge(out, &trace.names, state, relation.label, tuple)?;
        }
    }
    Ok(())
}
