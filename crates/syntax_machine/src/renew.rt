//! Lays the threads that are left out anew, so that what none of them needs takes no memory.

ghost use Rattle.std.specs.Prelude.{◌≡◌, ◌<◌, [], ◌∷◌, IfOk};
ghost use Rattle.syntax_machine.specs.Stacks.{stack_at, threads_at, AreWithin};

use crate::stacks::{Stacks, add_over};
use crate::thread::Item;
use base_lists::Items;
use std::alloc::{AllocError, Global};

/// So many threads may always stand.
pub const FEW: usize = 4096;

/// The items of a thread.
#[tactic(auto, using(crate::proofs::Walked::item_more, crate::proofs::Walked::item_last))]
pub fn items_of(alloc: Global, stacks: &Stacks, at: usize) -> Result<Items<Item>, AllocError>
    ensures { IfOk result (λ items. items ≡ stack_at stacks.now at) }
{
    let mut items = Items::new(alloc);
    let mut left = at;
    'items: loop {
        match stacks.get(left) {
            None => return Ok(items),
            Some(node) => {
                items.push(node.item)?;
                left = node.below;
            }
        }
    }
}

/// Puts each of these threads into a new list, which has the empty one alone.
#[tactic(auto, using(crate::proofs::Walked::renew_more, crate::proofs::Walked::bottom_within, crate::proofs::Walked::renewed_within, crate::proofs::Walked::renewed_same, crate::proofs::Shared::adds_none))]
fn renewed(
    alloc: Global,
    stacks: &Stacks,
    tops: &Items<usize>,
    fresh: &mut Stacks,
) -> Result<Items<usize>, AllocError>
    requires { fresh.old ≡ [] ∷ [] }
    ensures within { IfOk result (AreWithin fresh.new) }
    ensures same { IfOk result (λ next. threads_at fresh.new next
        ≡ threads_at stacks.now tops.now) }
{
    let mut next = Items::new(alloc);
    for place in 0..tops.len() {
        let items = items_of(alloc, stacks, *tops.get(place))?;
        add_over(fresh, &mut next, items.as_slice(), 0)?;
    }
    Ok(next)
}

/// Lays these threads out anew, where there are more than the limit, which is then twice as many as
/// they take.
pub fn tidy(
    alloc: Global,
    stacks: &mut Stacks,
    tops: Items<usize>,
    limit: &mut usize,
) -> Result<Items<usize>, AllocError>
    requires { AreWithin stacks.old tops }
    ensures within { IfOk result (AreWithin stacks.new) }
    ensures same { IfOk result (λ next. threads_at stacks.new next
        ≡ threads_at stacks.old tops) }
{
    if stacks.len() <= *limit {
        return Ok(tops);
    }
    let mut fresh = Stacks::new(alloc);
    let next = renewed(alloc, stacks, &tops, &mut fresh)?;
    *limit = fresh.len().saturating_mul(2).max(FEW);
    *stacks = fresh;
    Ok(next)
}
