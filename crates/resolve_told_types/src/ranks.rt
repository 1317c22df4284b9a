//! Ranks of sigs: that of a subset sig is above those of its parents, where no sig is its own
//! ancestor.
//!
//! Nothing is promised of them, since the test of the types asks for what it needs.

use core_tree::{Column, Sig, SigKind};
use std::alloc::{AllocError, Global};

/// A sig on the way, and how many of its parents were looked at.
#[derive(Clone, Copy, Drop)]
struct Visit {
    sig: usize,
    parents: usize,
}

/// A walk from sigs to their parents.
#[derive(Drop)]
struct Walk {
    seen: Vec<bool>,
    ranks: Vec<usize>,
    /// How many sigs have a rank.
    count: usize,
    /// The sigs on the way, each a parent of the one before.
    open: Vec<Visit>,
}

/// The parents of a subset sig.
fn parents_of(sigs: &[Sig], sig: usize) -> &[Column] {
    match sigs.get(sig) {
        None => &[],
        Some(found) => match &found.kind {
            SigKind::Top => &[],
            SigKind::Extends(_) => &[],
            SigKind::Subset(parents) => parents.as_slice(),
        },
    }
}

/// Goes on to a sig that wasn't seen before.
fn enter(walk: &mut Walk, sig: usize) -> Result<(), AllocError> {
    if sig >= walk.seen.len() || walk.seen[sig] {
        return Ok(());
    }
    walk.seen[sig] = true;
    walk.open.push(Visit { sig, parents: 0 })?;
    Ok(())
}

/// Ranks a sig above all that have a rank.
fn rank(walk: &mut Walk, sig: usize) {
    walk.count = walk.count.saturating_add(1);
    if sig < walk.ranks.len() {
        walk.ranks[sig] = walk.count;
    }
}

/// Looks at the next parent of a sig, or else ranks it.
fn step(walk: &mut Walk, sigs: &[Sig], visit: Visit) -> Result<(), AllocError> {
    match parents_of(sigs, visit.sig).get(visit.parents) {
        None => {
            rank(walk, visit.sig);
            Ok(())
        }
        Some(parent) => {
            let parents = visit.parents.saturating_add(1);
            walk.open.push(Visit {
                sig: visit.sig,
                parents,
            })?;
            match parent {
                Column::Int => Ok(()),
                Column::Sig(sig) => enter(walk, *sig as usize),
            }
        }
    }
}

/// Ranks the sigs on the way and all to which they lead.
fn finish(walk: &mut Walk, sigs: &[Sig]) -> Result<(), AllocError> {
    for _turn in 0..u64::MAX {
        match walk.open.pop() {
            None => return Ok(()),
            Some(visit) => step(walk, sigs, visit)?,
        }
    }
    Err(AllocError)
}

/// A rank for each sig.
pub fn ranks_of(alloc: Global, sigs: &[Sig]) -> Result<Vec<usize>, AllocError> {
    let mut walk = Walk {
        seen: vec![in alloc; false; sigs.len()]?,
        ranks: vec![in alloc; 0; sigs.len()]?,
        count: 0,
        open: Vec::new(alloc),
    };
    for sig in 0..sigs.len() {
        enter(&mut walk, sig)?;
        finish(&mut walk, sigs)?;
    }
    let Walk {
        seen: _,
        ranks,
        count: _,
        open: _,
    } = walk;
    Ok(ranks)
}
