//! Top-level sigs, and the sig as which a sig stands in bounds and in types.

ghost use Rattle.std.specs.Prelude.{◌≡◌, length, IfOk};
ghost use Rattle.core_tree.specs.Types.{standing};
ghost use Rattle.core_meaning.specs.Kept.{top_above};
ghost use Rattle.bound_owners.specs.Tops.{parent_at, moving_parent_at, top_at, HasTops};

use core_tree::{Sig, SigKind};
use std::alloc::{AllocError, Global};

/// The sig that a sig extends.
pub fn parent_of(sigs: &[Sig], sig: u32) -> Option<u32>
    ensures { result ≡ parent_at sigs.now sig }
{
    match sigs.get(sig as usize) {
        None => None,
        Some(found) => match &found.kind {
            SigKind::Top => None,
            SigKind::Extends(parent) => Some(*parent),
            SigKind::Subset(_) => None,
        },
    }
}

/// The sig that a `var` sig extends.
fn moving_parent_of(sigs: &[Sig], sig: u32) -> Option<u32>
    ensures { result ≡ moving_parent_at sigs.now sig }
{
    match sigs.get(sig as usize) {
        None => None,
        Some(found) => {
            if found.is_var {
                parent_of(sigs, sig)
            } else {
                None
            }
        }
    }
}

/// The top-level sig above a sig, going up from child to parent; a sig that extends none stands for
/// itself.
#[tactic(auto, using(crate::proofs::Climbing::top_step, crate::proofs::Climbing::top_end, crate::proofs::Climbing::top_last))]
fn top_above(sigs: &[Sig], sig: u32) -> u32
    ensures { result ≡ top_above sigs.now (length sigs.now) sig }
{
    let mut top = sig;
    for _step in 0..sigs.len() {
        match parent_of(sigs, top) {
            Some(parent) => top = parent,
            None => return top,
        }
    }
    top
}

/// As which sig a sig stands in a type: a `var` sig as its nearest ancestor that isn't `var`, or as
/// its top-level sig.
#[tactic(auto, using(crate::proofs::Climbing::standing_step, crate::proofs::Climbing::standing_end, crate::proofs::Climbing::standing_last))]
pub fn standing_of(sigs: &[Sig], sig: u32) -> u32
    ensures { result ≡ standing sigs.now (length sigs.now) sig }
{
    let mut up = sig;
    for _step in 0..sigs.len() {
        match moving_parent_of(sigs, up) {
            Some(parent) => up = parent,
            None => return up,
        }
    }
    up
}

/// The top-level sig above each sig.
#[tactic(auto, using(crate::proofs::Climbing::no_tops, crate::proofs::Climbing::tops_more, crate::proofs::Climbing::tops_all))]
pub fn tops(alloc: Global, sigs: &[Sig]) -> Result<Vec<u32>, AllocError>
    ensures { IfOk result (λ v. HasTops sigs.now v.items) }
{
    if sigs.len() > u32::MAX as usize {
        return Err(AllocError);
    }
    let mut all = Vec::new(alloc);
    for sig in 0..sigs.len() {
        all.push(top_above(sigs, sig as u32))?;
    }
    Ok(all)
}

/// As which sig a sig stands, where this is known of all sigs, as the top-level sig above it.
pub fn top_of(ups: &[u32], sig: u32) -> u32
    ensures { result ≡ top_at ups.now sig }
{
    if (sig as usize) < ups.len() {
        ups[sig as usize]
    } else {
        sig
    }
}
