//! Gives each body a rank above those of the bodies that it calls, or a call on a cycle.

ghost use Rattle.std.specs.Prelude.{◌≡◌, ◌<◌, length, All, IsTrue, IfOk, IfSome};
ghost use Rattle.resolve_bodies.specs.Falls.{DoesFall, AreFalling, IsOrder};

use crate::cycle::least_on_cycle;
use crate::edge::{Edge, calls_of, edge_starts};
use base_lists::Items;
use std::alloc::{AllocError, Global};

/// The rank of each body, or the place among the calls of a call on a cycle.
#[derive(Drop)]
pub enum Ranks {
    Ranked(Items<u32>),
    Cycle(usize),
}

pub(crate) fn rank_of(ranks: &[Option<u32>], body: u32) -> Option<u32> {
    match ranks.get(body as usize) {
        None => Some(0),
        Some(rank) => *rank,
    }
}

/// The rank above those of the called bodies; none where one of them has none.
fn rank_above(ranks: &[Option<u32>], edges: &[Edge]) -> Option<u32> {
    let mut rank = 0u32;
    for edge in edges {
        let below = match rank_of(ranks, edge.to) {
            None => return None,
            Some(below) => below,
        };
        let next = below.saturating_add(1);
        if rank < next {
            rank = next;
        }
    }
    Some(rank)
}

/// Gives the body a rank, where it has none and those that it calls have.
fn try_one(ranks: &mut Vec<Option<u32>>, edges: &[Edge], starts: &[usize], body: usize) -> bool
    ensures { length ranks.new.items ≡ length ranks.old.items }
{
    if body >= ranks.len() || ranks[body].is_some() {
        return false;
    }
    let rank = rank_above(ranks.as_slice(), calls_of(edges, starts, body));
    if rank.is_none() {
        return false;
    }
    ranks[body] = rank;
    true
}

/// One round over all bodies in both directions; whether one of them got a rank.
fn one_round(ranks: &mut Vec<Option<u32>>, edges: &[Edge], starts: &[usize]) -> bool
    ensures { length ranks.new.items ≡ length ranks.old.items }
{
    let count = ranks.len();
    let mut has_new = false;
    for body in 0..count {
        if try_one(ranks, edges, starts, body) {
            has_new = true;
        }
    }
    for step in 0..count {
        if try_one(ranks, edges, starts, count - 1 - step) {
            has_new = true;
        }
    }
    has_new
}

fn no_ranks(alloc: Global, bodies: usize) -> Result<Vec<Option<u32>>, AllocError>
    ensures { IfOk result (λ r. length r.items ≡ bodies) }
{
    let mut ranks = Vec::new(alloc);
    for _ in 0..bodies {
        ranks.push(None)?;
    }
    Ok(ranks)
}

fn known_ranks(alloc: Global, ranks: &[Option<u32>]) -> Result<Items<u32>, AllocError>
    ensures { IfOk result (λ r. length r ≡ length ranks.now) }
{
    let mut all = Items::new(alloc);
    for rank in ranks {
        all.push(match rank {
            None => 0,
            Some(rank) => *rank,
        })?;
    }
    Ok(all)
}

/// Whether the ranks fall along a call.
fn does_fall(ranks: &[u32], edge: &Edge) -> bool
    ensures { IsTrue result → DoesFall ranks.now edge.now }
{
    let from = edge.from as usize;
    let to = edge.to as usize;
    if from >= ranks.len() || to >= ranks.len() {
        return true;
    }
    ranks[to] < ranks[from]
}

/// Whether the ranks fall along each call.
fn are_falling(ranks: &[u32], edges: &[Edge]) -> bool
    ensures { IsTrue result → All (DoesFall ranks.now) edges.now }
{
    for edge in edges {
        if !does_fall(ranks, edge) {
            return false;
        }
    }
    true
}

/// The ranks, where each call has a lower one.
fn tested(
    alloc: Global,
    edges: &[Edge],
    ranks: &[Option<u32>],
) -> Result<Option<Items<u32>>, AllocError>
    ensures { IfOk result (λ r. IfSome r (AreFalling (length ranks.now) edges.now)) }
{
    let known = known_ranks(alloc, ranks)?;
    if are_falling(known.as_slice(), edges) {
        return Ok(Some(known));
    }
    Ok(None)
}

fn all_rounds(ranks: &mut Vec<Option<u32>>, edges: &[Edge], starts: &[usize])
    ensures { length ranks.new.items ≡ length ranks.old.items }
{
    let count = ranks.len();
    for _round in 0..count {
        if !one_round(ranks, edges, starts) {
            return;
        }
    }
}

/// The rank of each body, above those of the bodies that it calls; or the place of a call on a cycle
/// of calls, the one that counts first. The calls are to be in the order of their bodies.
pub fn call_ranks(alloc: Global, edges: &[Edge], bodies: usize) -> Result<Ranks, AllocError>
    ensures { IfOk result (IsOrder bodies edges.now) }
{
    let starts = edge_starts(alloc, edges, bodies)?;
    let mut ranks = no_ranks(alloc, bodies)?;
    all_rounds(&mut ranks, edges, starts.as_slice());
    match least_on_cycle(alloc, edges, starts.as_slice(), ranks.as_slice())? {
        Some(place) => Ok(Ranks::Cycle(place)),
        None => match tested(alloc, edges, ranks.as_slice())? {
            Some(known) => Ok(Ranks::Ranked(known)),
            // Ranks that don't fall leave a cycle, so this can't be.
            None => Err(AllocError),
        },
    }
}
