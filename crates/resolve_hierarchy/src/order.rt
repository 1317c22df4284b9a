//! An order of the sigs in which each stands behind its parents, and sigs on cycles of parents.

use crate::faults::{Broken, Noted, note};
use crate::parents::{Above, Parent};
use crate::search::{add_parents, is_set, search_from, set, unset_marks};
use resolve_types::Member;
use std::alloc::{AllocError, Global};

/// Whether all parents are done.
fn are_done(parents: &[Parent], done: &[bool]) -> bool {
    for parent in parents {
        if let Member::Sig(sig) = parent.member {
            if !is_set(done, sig as usize) {
                return false;
            }
        }
    }
    true
}

/// The sigs that are done, in an order in which each stands behind its parents.
#[derive(Drop)]
pub struct Order {
    pub done: Vec<bool>,
    pub sigs: Vec<u32>,
}

/// Puts a sig behind the others, where its parents are done and it isn't.
fn try_one(all: &[Above], place: usize, order: &mut Order) -> Result<(), AllocError> {
    if is_set(order.done.as_slice(), place) {
        return Ok(());
    }
    let above = match all.get(place) {
        None => return Ok(()),
        Some(above) => above,
    };
    if !are_done(above.parents.as_slice(), order.done.as_slice()) {
        return Ok(());
    }
    match u32::try_from(place) {
        Err(_) => Ok(()),
        Ok(sig) => {
            order.sigs.push(sig)?;
            set(&mut order.done, place);
            Ok(())
        }
    }
}

fn forward(all: &[Above], order: &mut Order) -> Result<(), AllocError> {
    for place in 0..all.len() {
        try_one(all, place, order)?;
    }
    Ok(())
}

fn backward(all: &[Above], order: &mut Order) -> Result<(), AllocError> {
    for step in 0..all.len() {
        try_one(all, all.len() - 1 - step, order)?;
    }
    Ok(())
}

/// An order of the sigs in which each stands behind its parents. A sig that is its own ancestor,
/// or has such an ancestor, isn't in it.
pub fn order_of(alloc: Global, all: &[Above]) -> Result<Order, AllocError> {
    let mut order = Order {
        done: unset_marks(alloc, all.len())?,
        sigs: Vec::new(alloc),
    };
    for _ in 0..all.len() {
        let before = order.sigs.len();
        forward(all, &mut order)?;
        backward(all, &mut order)?;
        if order.sigs.len() == before {
            return Ok(order);
        }
    }
    Ok(order)
}

/// Whether a sig is the other or an ancestor of it.
fn leads_to(alloc: Global, all: &[Above], from: u32, to: u32) -> Result<bool, AllocError> {
    let mut search = search_from(alloc, all.len(), from)?;
    for next in 0..all.len() {
        if next >= search.found.len() {
            break;
        }
        let sig = search.found[next];
        if let Some(above) = all.get(sig as usize) {
            add_parents(&mut search, above.parents.as_slice())?;
        }
    }
    Ok(is_set(search.seen.as_slice(), to as usize))
}

/// The place of the first parent of a sig that leads back to it.
fn leads_back(
    alloc: Global,
    all: &[Above],
    sig: u32,
    parents: &[Parent],
) -> Result<Option<Parent>, AllocError> {
    for parent in parents {
        if let Member::Sig(number) = parent.member {
            if leads_to(alloc, all, number, sig)? {
                return Ok(Some(*parent));
            }
        }
    }
    Ok(None)
}

/// Notes the first sig that is its own ancestor.
pub fn note_cycle(
    alloc: Global,
    all: &[Above],
    order: &Order,
    least: &mut Option<Noted>,
) -> Result<(), AllocError> {
    for place in 0..all.len() {
        if !is_set(order.done.as_slice(), place) {
            let above = &all[place];
            let sig = match u32::try_from(place) {
                Err(_) => return Ok(()),
                Ok(sig) => sig,
            };
            if let Some(parent) = leads_back(alloc, all, sig, above.parents.as_slice())? {
                note(
                    least,
                    Noted {
                        instance: above.instance,
                        place: parent.place,
                        broken: Broken::ParentCycle,
                    },
                );
                return Ok(());
            }
        }
    }
    Ok(())
}
