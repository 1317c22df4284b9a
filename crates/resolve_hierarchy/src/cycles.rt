//! Sigs that are their own ancestors, or have such an ancestor: their lines and members.
//!
//! The first refusal of a model may be that of fields in such sigs.

use crate::parents::{Above, Parent};
use crate::search::{Search, add_parents, search_from};
use base_lists::Items;
use resolve_types::Member;
use std::alloc::{AllocError, Global};

/// A sig and what is found from it by going to the parents of subset sigs alone, or of the other
/// sigs alone; each once.
fn walked(
    alloc: Global,
    all: &[Above],
    sig: u32,
    by_subsets: bool,
) -> Result<Vec<u32>, AllocError> {
    let mut search = search_from(alloc, all.len(), sig)?;
    for next in 0..all.len() {
        if next >= search.found.len() {
            break;
        }
        let found = search.found[next];
        match all.get(found as usize) {
            Some(above) if above.is_subset == by_subsets => {
                add_parents(&mut search, above.parents.as_slice())?;
            }
            _ => {}
        }
    }
    let Search { seen: _, found } = search;
    Ok(found)
}

/// The line of a sig that is no subset sig: itself, what it extends, and so on, each once.
pub fn walked_line(alloc: Global, all: &[Above], sig: u32) -> Result<Items<u32>, AllocError> {
    Ok(Items::from_vec(walked(alloc, all, sig, false)?))
}

fn has_int(parents: &[Parent]) -> bool {
    for parent in parents {
        if let Member::Int = parent.member {
            return true;
        }
    }
    false
}

/// The members of the type of a sig: itself, or for a subset sig those of its parents; each once.
pub fn walked_members(alloc: Global, all: &[Above], sig: u32) -> Result<Items<Member>, AllocError> {
    let sigs = walked(alloc, all, sig, true)?;
    let mut members = Items::new(alloc);
    let mut is_int_there = false;
    for found in sigs.as_slice() {
        match all.get(*found as usize) {
            Some(above) if above.is_subset => {
                if has_int(above.parents.as_slice()) {
                    is_int_there = true;
                }
            }
            _ => members.push(Member::Sig(*found))?,
        }
    }
    if is_int_there {
        members.push(Member::Int)?;
    }
    Ok(members)
}
