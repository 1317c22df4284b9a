//! A trace as a graph in the language of Graphviz: one cluster a state.

use crate::change::{Shown, tuples_to_show};
use crate::edges::push_edges;
use crate::nodes::{push_nodes, words_of};
use std::alloc::{AllocError, Global};
use view_quotes::push_number;
use view_trace::{State, Trace};

/// How the text begins.
const HEAD: &[u8] = b"digraph trace {
  graph [compound=true, fontname=\"Helvetica\", nodesep=0.3, ranksep=0.4];
  node [shape=box, style=\"rounded,filled\", fillcolor=\"#ffffff\", fontname=\"Helvetica\", fontsize=11, height=0.3];
  edge [fontname=\"Helvetica\", fontsize=10, arrowsize=0.7];
";

/// The tuples that a picture of a state shows, a list for each relation.
fn shown_tables<'t>(
    alloc: Global,
    before: Option<&'t State>,
    now: &'t State,
) -> Result<Vec<Vec<Shown<'t>>>, AllocError> {
    let mut tables = Vec::new(alloc);
    for (place, table) in now.iter().enumerate() {
        let earlier = match before {
            Some(before) => before.get(place),
            None => None,
        };
        tables.push(tuples_to_show(alloc, earlier, table)?)?;
    }
    Ok(tables)
}

/// Writes how the cluster of a state begins.
fn push_begin(out: &mut Vec<u8>, number: usize) -> Result<(), AllocError> {
    out.extend_from_slice(b"  subgraph cluster_")?;
    push_number(out, number as u64)?;
    out.extend_from_slice(
        b" {\n    style=\"rounded,filled\"; color=\"#8c959f\"; fillcolor=\"#f6f8fa\";\n    t",
    )?;
    push_number(out, number as u64)?;
    out.extend_from_slice(b" [label=\"state ")?;
    push_number(out, number as u64)?;
    out.extend_from_slice(b"\", shape=plain, style=\"\", fontsize=14];\n")
}

/// Writes a state.
fn push_state(
    alloc: Global,
    out: &mut Vec<u8>,
    trace: &Trace,
    number: usize,
    before: Option<&State>,
    now: &State,
) -> Result<(), AllocError> {
    let tables = shown_tables(alloc, before, now)?;
    let words = words_of(alloc, tables.as_slice())?;
    push_begin(out, number)?;
    push_nodes(out, trace, number, words.as_slice())?;
    push_edges(out, trace, number, tables.as_slice())?;
    out.extend_from_slice(b"  }\n")
}

/// Writes the states.
fn push_states(alloc: Global, out: &mut Vec<u8>, trace: &Trace) -> Result<(), AllocError> {
    let mut before: Option<&State> = None;
    for (number, state) in trace.states.iter().enumerate() {
        push_state(alloc, out, trace, number, before, state)?;
        before = Some(state);
    }
    Ok(())
}

/// Writes an arrow from a state to another.
fn push_arrow(out: &mut Vec<u8>, from: usize, to: usize) -> Result<(), AllocError> {
    out.extend_from_slice(b"  t")?;
    push_number(out, from as u64)?;
    out.extend_from_slice(b" -> t")?;
    push_number(out, to as u64)?;
    out.extend_from_slice(b" [")?;
    if from != to {
        out.extend_from_slice(b"ltail=cluster_")?;
        push_number(out, from as u64)?;
        out.extend_from_slice(b", lhead=cluster_")?;
        push_number(out, to as u64)?;
        out.extend_from_slice(b", ")?;
    }
    out.extend_from_slice(b"penwidth=2")
}

/// Writes the arrows from each state to the next, and from the last one to the state that follows it.
fn push_arrows(out: &mut Vec<u8>, trace: &Trace) -> Result<(), AllocError> {
    let last = trace.states.len().saturating_sub(1);
    for number in 0..last {
        push_arrow(out, number, number + 1)?;
        out.extend_from_slice(b"];\n")?;
    }
    push_arrow(out, last, trace.loop_start as usize)?;
    out.extend_from_slice(b", constraint=false, label=\"loop\"];\n")
}

/// A trace as a text for Graphviz: a cluster for each state, with a node for each atom that some tuple has there, now or in
/// the state before.
pub fn write_dot(alloc: Global, trace: &Trace) -> Result<Vec<u8>, AllocError> {
    let mut out = Vec::new(alloc);
    out.extend_from_slice(HEAD)?;
    push_states(alloc, &mut out, trace)?;
    push_arrows(&mut out, trace)?;
    out.extend_from_slice(b"}\n")?;
    Ok(out)
}
