//! The sigs in an order in which each comes after all that extend it.

ghost use Rattle.std.specs.Prelude.{◌≡◌, ◌<◌, length, All, IfOk, IfSome};

use core_tree::{SigKind, SigList};
use std::alloc::{AllocError, Global};

/// The sig that a sig extends, where there is one of that number.
pub(crate) fn parent_of(sigs: &SigList, sig: usize) -> Option<usize>
    requires { sig < length sigs.now }
    ensures { IfSome result (λ p. p < length sigs.now) }
{
    match &sigs.get(sig).kind {
        SigKind::Extends(parent) => {
            let parent = *parent as usize;
            if parent < sigs.len() {
                Some(parent)
            } else {
                None
            }
        }
        _ => None,
    }
}

/// How many sigs extend each sig.
fn children(alloc: Global, sigs: &SigList) -> Result<Vec<usize>, AllocError>
    ensures { IfOk result (λ v. length v.items ≡ length sigs.now) }
{
    let mut counts = vec![in alloc; 0usize; sigs.len()]?;
    for sig in 0..sigs.len() {
        if let Some(parent) = parent_of(sigs, sig) {
            counts[parent] = counts[parent].saturating_add(1);
        }
    }
    Ok(counts)
}

/// The sigs that no sig extends, in order.
fn leaves(alloc: Global, counts: &[usize]) -> Result<Vec<usize>, AllocError>
    ensures { IfOk result (λ v. All (λ s. s < length counts.now) v.items) }
{
    let mut order = Vec::new(alloc);
    for sig in 0..counts.len() {
        if counts[sig] == 0 {
            order.push(sig)?;
        }
    }
    Ok(order)
}

/// The sigs in an order in which each comes after all that extend it. Sigs on a cycle are left out.
pub(crate) fn leaves_first(alloc: Global, sigs: &SigList) -> Result<Vec<usize>, AllocError>
    ensures { IfOk result (λ v. All (λ s. s < length sigs.now) v.items) }
{
    let mut counts = children(alloc, sigs)?;
    let mut order = leaves(alloc, counts.as_slice())?;
    for turn in 0..sigs.len() {
        if turn >= order.len() {
            return Ok(order);
        }
        if let Some(parent) = parent_of(sigs, order[turn]) {
            counts[parent] = counts[parent].saturating_sub(1);
            if counts[parent] == 0 {
                order.push(parent)?;
            }
        }
    }
    Ok(order)
}
