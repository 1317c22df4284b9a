//! The order of relations: each sig, then its fields, then the fields without owner.

ghost use Rattle.std.specs.Prelude.{◌≡◌, ◌<◌, ◌≤◌, ℕ, length, map, slice_index, IfOk};
ghost use Rattle.bound_uppers.specs.Order.{with_owner, standings, order_in, one_at, AreOrders};

use crate::sums::{Weight, add_at, added, starts};
use core_tree::Field;
use std::alloc::{AllocError, Global};

/// With which of so many sigs a field stands: its owner, or behind them all.
fn owner_place(sigs: u64, owner: Option<u32>) -> u64
    ensures place { result ≡ with_owner sigs owner }
    ensures most { result ≤ sigs }
{
    match owner {
        None => sigs,
        Some(owner) => {
            if (owner as u64) < sigs {
                owner as u64
            } else {
                sigs
            }
        }
    }
}

/// With which sig each relation stands: the sigs, then the fields.
#[tactic(auto, using(crate::proofs::Sizes::map_more, bound_owners::proofs::Ranges::range_up, crate::proofs::Ranks::joined_end))]
fn all_standings(alloc: Global, sigs: u64, fields: &[Field]) -> Result<Vec<u64>, AllocError>
    ensures { IfOk result (λ v. v.items ≡ standings sigs fields.now) }
{
    let mut all = Vec::new(alloc);
    for sig in 0..sigs {
        all.push(sig)?;
    }
    for field in fields {
        all.push(owner_place(sigs, field.owner))?;
    }
    Ok(all)
}

/// One relation at each standing.
fn ones(alloc: Global, standing: &[u64]) -> Result<Vec<Weight>, AllocError>
    ensures { IfOk result (λ v. v.items ≡ map one_at standing.now) }
{
    let mut all = Vec::new(alloc);
    for place in standing {
        all.push(Weight {
            place: *place,
            size: 1,
        })?;
    }
    Ok(all)
}

/// The number at a place.
fn number_at(numbers: &[u64], place: u64) -> u64
    requires { place < length numbers.now }
    ensures { result ≡ slice_index numbers.now place }
{
    numbers[place as usize]
}

/// How many relations stand before each, where there are so many standings.
#[tactic(auto, using(crate::proofs::Ranks::counted_before, crate::proofs::Ranks::none_same, crate::proofs::Ranks::same_more))]
fn ranks(alloc: Global, count: usize, standing: &[u64]) -> Result<Vec<u64>, AllocError>
    requires { (r : ℕ) → r < length standing.now → slice_index standing.now r < count }
    ensures { IfOk result (λ v. AreOrders standing.now v.items) }
{
    let weights = ones(alloc, standing)?;
    let mut next = starts(alloc, count, &weights)?;
    let mut all = Vec::new(alloc);
    for place in standing {
        all.push(number_at(&next, *place))?;
        add_at(&mut next, *place, 1)?;
    }
    Ok(all)
}

/// For each relation, first the sigs and then the fields, its place in the order.
pub fn orders(alloc: Global, sigs: u64, fields: &[Field]) -> Result<Vec<u64>, AllocError>
    ensures { IfOk result (λ v. AreOrders (standings sigs fields.now) v.items) }
{
    let standing = all_standings(alloc, sigs, fields)?;
    let count = added(sigs, 1)? as usize;
    ranks(alloc, count, &standing)
}
