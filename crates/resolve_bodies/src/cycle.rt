//! Finds the calls that lie on a cycle of calls, and the one of them that counts first.

ghost use Rattle.std.specs.Prelude.{◌<◌, length, IfOk, IfSome};

use crate::edge::{Edge, calls_of};
use crate::order::rank_of;
use std::alloc::{AllocError, Global};

/// Marks of bodies, and those that are marked.
#[derive(Drop)]
struct Search {
    seen: Vec<bool>,
    found: Vec<u32>,
}

fn add_found(search: &mut Search, body: u32) -> Result<(), AllocError> {
    let place = body as usize;
    if place < search.seen.len() && !search.seen[place] {
        search.seen[place] = true;
        search.found.push(body)?;
    }
    Ok(())
}

fn add_called(search: &mut Search, edges: &[Edge]) -> Result<(), AllocError> {
    for edge in edges {
        add_found(search, edge.to)?;
    }
    Ok(())
}

fn no_marks(alloc: Global, bodies: usize) -> Result<Search, AllocError> {
    let mut seen = Vec::new(alloc);
    for _ in 0..bodies {
        seen.push(false)?;
    }
    Ok(Search {
        seen,
        found: Vec::new(alloc),
    })
}

/// Whether a body calls another, directly or not, or is it.
fn reaches(
    alloc: Global,
    edges: &[Edge],
    starts: &[usize],
    bodies: usize,
    from: u32,
    to: u32,
) -> Result<bool, AllocError> {
    let mut search = no_marks(alloc, bodies)?;
    add_found(&mut search, from)?;
    for next in 0..bodies {
        if next >= search.found.len() {
            return Ok(false);
        }
        let body = search.found[next];
        if body == to {
            return Ok(true);
        }
        add_called(&mut search, calls_of(edges, starts, body as usize))?;
    }
    Ok(false)
}

/// Whether the first call counts before the second: the earlier instance, then the earlier place.
fn is_before(a: &Edge, b: &Edge) -> bool {
    if a.instance != b.instance {
        return a.instance < b.instance;
    }
    if a.place.line != b.place.line {
        return a.place.line < b.place.line;
    }
    a.place.column < b.place.column
}

/// Whether no call counts before this one, of those that are left of it.
fn counts_first(edges: &[Edge], least: Option<usize>, edge: &Edge) -> bool {
    match least {
        None => true,
        Some(place) => match edges.get(place) {
            None => true,
            Some(before) => is_before(edge, before),
        },
    }
}

fn is_on_cycle(
    alloc: Global,
    edges: &[Edge],
    starts: &[usize],
    ranks: &[Option<u32>],
    edge: &Edge,
) -> Result<bool, AllocError> {
    if rank_of(ranks, edge.from).is_some() || rank_of(ranks, edge.to).is_some() {
        return Ok(false);
    }
    reaches(alloc, edges, starts, ranks.len(), edge.to, edge.from)
}

/// The place of the call on a cycle that counts first, where there is one. Bodies that have a rank
/// stand on none.
pub(crate) fn least_on_cycle(
    alloc: Global,
    edges: &[Edge],
    starts: &[usize],
    ranks: &[Option<u32>],
) -> Result<Option<usize>, AllocError>
    ensures { IfOk result (λ r. IfSome r (λ place. place < length edges.now)) }
{
    let mut least = None;
    for place in 0..edges.len() {
        let edge = &edges[place];
        if counts_first(edges, least, edge) && is_on_cycle(alloc, edges, starts, ranks, edge)? {
            least = Some(place);
        }
    }
    Ok(least)
}
