//! A call leads from the body in which it stands to the body that is called.

use base_types::Position;
use std::alloc::{AllocError, Global};

/// A call in a body.
#[derive(Clone, Copy, Debug, PartialEq, Eq, Drop)]
pub struct Edge {
    /// The body in which the call stands.
    pub from: u32,
    /// The body that is called.
    pub to: u32,
    /// The instance in whose text the call stands.
    pub instance: u32,
    /// The place of the called name.
    pub place: Position,
}

/// For each body the place of its first call among the calls, which are in the order of their
/// bodies, and after them the number of calls.
pub(crate) fn edge_starts(
    alloc: Global,
    edges: &[Edge],
    bodies: usize,
) -> Result<Vec<usize>, AllocError> {
    let mut starts = Vec::new(alloc);
    let mut next = 0usize;
    for body in 0..bodies {
        starts.push(next)?;
        next = next_start(edges, next, body);
    }
    starts.push(next)?;
    Ok(starts)
}

/// The place of the first call from this one on that another body has.
fn next_start(edges: &[Edge], from: usize, body: usize) -> usize {
    for place in from..edges.len() {
        if edges[place].from as usize != body {
            return place;
        }
    }
    if from < edges.len() {
        edges.len()
    } else {
        from
    }
}

/// The calls of a body.
pub(crate) fn calls_of<'a>(edges: &'a [Edge], starts: &[usize], body: usize) -> &'a [Edge] {
    let first = match starts.get(body) {
        None => return &[],
        Some(first) => *first,
    };
    let end = match starts.get(body.saturating_add(1)) {
        None => return &[],
        Some(end) => *end,
    };
    if first <= end && end <= edges.len() {
        return &edges[first..end];
    }
    &[]
}
