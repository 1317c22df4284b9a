//! Searches go from sigs to their parents, and mark what they find.

use crate::parents::Parent;
use resolve_types::Member;
use std::alloc::{AllocError, Global};

/// Whether the mark of a place is set.
pub fn is_set(marks: &[bool], place: usize) -> bool {
    match marks.get(place) {
        None => false,
        Some(mark) => *mark,
    }
}

/// Sets the mark of a place.
pub fn set(marks: &mut Vec<bool>, place: usize) {
    if place < marks.len() {
        marks[place] = true;
    }
}

/// So many marks, none of them set.
pub fn unset_marks(alloc: Global, count: usize) -> Result<Vec<bool>, AllocError> {
    let mut marks = Vec::new(alloc);
    for _ in 0..count {
        marks.push(false)?;
    }
    Ok(marks)
}

/// The sigs that are found so far, as marks and in the order in which they were found.
#[derive(Drop)]
pub struct Search {
    pub seen: Vec<bool>,
    pub found: Vec<u32>,
}

fn add_found(search: &mut Search, sig: u32) -> Result<(), AllocError> {
    if is_set(search.seen.as_slice(), sig as usize) {
        return Ok(());
    }
    search.found.push(sig)?;
    set(&mut search.seen, sig as usize);
    Ok(())
}

/// Nothing but a sig is found, among so many.
pub fn search_from(alloc: Global, count: usize, sig: u32) -> Result<Search, AllocError> {
    let mut search = Search {
        seen: unset_marks(alloc, count)?,
        found: Vec::new(alloc),
    };
    add_found(&mut search, sig)?;
    Ok(search)
}

/// Adds the sigs among the parents that aren't found yet.
pub fn add_parents(search: &mut Search, parents: &[Parent]) -> Result<(), AllocError> {
    for parent in parents {
        if let Member::Sig(sig) = parent.member {
            add_found(search, sig)?;
        }
    }
    Ok(())
}
