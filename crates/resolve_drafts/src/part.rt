//! A draft is judged by its part, which has what each candidate of each name means.
//!
//! A row of operators is a tree as deep as the row is long. So each walk keeps what it made so far
//! in a list, the operands' last, and a level of it takes a few words of the program's stack.

use crate::draft::{Candidate, Draft};
use base_lists::Items;
use resolve_readings::{Binary, Meaning, Part, Unary};
use std::alloc::{AllocError, Global};

/// What each candidate means.
fn meanings(alloc: Global, candidates: &[Candidate]) -> Result<Items<Meaning>, AllocError> {
    let mut all = Items::new(alloc);
    for candidate in candidates {
        all.push(candidate.meaning.copy(alloc)?)?;
    }
    Ok(all)
}

/// The part that was made last, which is taken; where there is none, a name without candidates.
fn last(alloc: Global, parts: &mut Vec<Part>) -> Part {
    match parts.pop() {
        Some(part) => part,
        None => Part::Name(Items::new(alloc)),
    }
}

/// An operator on the part that was made last.
fn single(alloc: Global, operator: Unary, parts: &mut Vec<Part>) -> Result<Part, AllocError> {
    let inner = Box::new(alloc, last(alloc, parts))?;
    Ok(Part::Single(operator, inner))
}

/// An operator between the two parts that were made last.
fn pair(alloc: Global, operator: Binary, parts: &mut Vec<Part>) -> Result<Part, AllocError> {
    let right = Box::new(alloc, last(alloc, parts))?;
    let left = Box::new(alloc, last(alloc, parts))?;
    Ok(Part::Pair(operator, left, right))
}

/// The part of a draft, of whose operands the parts were made last.
fn made(alloc: Global, draft: &Draft, parts: &mut Vec<Part>) -> Result<Part, AllocError> {
    match draft {
        Draft::Name(_, candidates) => Ok(Part::Name(meanings(alloc, candidates.as_slice())?)),
        Draft::Known(meaning, _) => Ok(Part::Known(meaning.copy(alloc)?)),
        Draft::Single(operator, _) => single(alloc, *operator, parts),
        Draft::Pair(operator, _, _) => pair(alloc, *operator, parts),
        Draft::Arrow(marked, _, _, _, _) => pair(alloc, Binary::Arrow(*marked), parts),
        Draft::Arithmetic(_, _, _) => pair(alloc, Binary::Arithmetic, parts),
        Draft::Compare(_, _, _) => pair(alloc, Binary::Order, parts),
        Draft::Choose(_, _, _) => pair(alloc, Binary::Choose, parts),
        Draft::Let(_, _, _) => single(alloc, Unary::Body, parts),
    }
}

/// Puts the part of a draft behind the others, in place of those of its operands. It isn't part of
/// the walk's own frame, which has to be small.
#[inline(never)]
fn close(alloc: Global, draft: &Draft, parts: &mut Vec<Part>) -> Result<(), AllocError> {
    let part = made(alloc, draft, parts)?;
    parts.push(part)?;
    Ok(())
}

/// Puts the part of a draft behind the others.
fn add_part(alloc: Global, draft: &Draft, parts: &mut Vec<Part>) -> Result<(), AllocError> {
    match draft {
        Draft::Name(_, _) | Draft::Known(_, _) => {}
        Draft::Single(_, inner) | Draft::Let(_, _, inner) => add_part(alloc, inner, parts)?,
        Draft::Pair(_, left, right)
        | Draft::Arrow(_, _, _, left, right)
        | Draft::Arithmetic(_, left, right)
        | Draft::Compare(_, left, right)
        | Draft::Choose(_, left, right) => {
            add_part(alloc, left, parts)?;
            add_part(alloc, right, parts)?;
        }
    }
    close(alloc, draft, parts)
}

/// The part of a draft: its tree with what each candidate of each name means.
pub fn part_of(alloc: Global, draft: &Draft) -> Result<Part, AllocError> {
    let mut parts = Vec::new(alloc);
    add_part(alloc, draft, &mut parts)?;
    Ok(last(alloc, &mut parts))
}
