//! Gathers a sig and all its ancestors.

use resolve_hierarchy::{Hierarchy, Kind};
use resolve_types::Member;
use std::alloc::{AllocError, Global};

fn holds(list: &[u32], number: u32) -> bool {
    for other in list {
        if *other == number {
            return true;
        }
    }
    false
}

fn add_new(list: &mut Vec<u32>, number: u32) -> Result<(), AllocError> {
    if holds(list.as_slice(), number) {
        return Ok(());
    }
    list.push(number)?;
    Ok(())
}

fn add_members(list: &mut Vec<u32>, members: &[Member]) -> Result<(), AllocError> {
    for member in members {
        match *member {
            Member::Int => {}
            Member::Sig(sig) => add_new(list, sig)?,
        }
    }
    Ok(())
}

fn add_parents(list: &mut Vec<u32>, kind: &Kind) -> Result<(), AllocError> {
    match kind {
        Kind::Top => Ok(()),
        Kind::Extends(sig) => add_new(list, *sig),
        Kind::Subset(members) => add_members(list, members.as_slice()),
    }
}

/// A sig and then all its ancestors.
pub fn above_of(alloc: Global, hierarchy: &Hierarchy, sig: u32) -> Result<Vec<u32>, AllocError> {
    let mut list = Vec::new(alloc);
    list.push(sig)?;
    for place in 0..hierarchy.kinds.len() {
        if place >= list.len() {
            return Ok(list);
        }
        let number = list[place];
        if let Some(kind) = hierarchy.kinds.as_slice().get(number as usize) {
            add_parents(&mut list, kind)?;
        }
    }
    Ok(list)
}
