//! The numbers of the table's variables: state by state, and relation by relation in order.

ghost use Rattle.std.specs.Prelude.{◌≡◌, ◌<◌, length, map, if◌then◌else◌, nat_lt, slice_index, IfOk, false, true};
ghost use Rattle.bound_uppers.specs.Table.{size_at, together, IsTable, IsLayout};
ghost use Rattle.bound_uppers.specs.Sums.{AreStarts};
ghost use Rattle.bound_uppers.specs.Numbers.{weight_of, HasPlaces, HasCells, cells_by};

use crate::places::{Cells, Layout};
use crate::sums::{Weight, added, multiplied, starts};
use crate::table::{Bound, Bounds};
use std::alloc::{AllocError, Global};

/// How many variables a relation has at the first state, or at each later one.
fn size_of(bound: &Bound, later: bool) -> u64
    ensures { result ≡ size_at later bound.now }
{
    if later && bound.fixed {
        return 0;
    }
    bound.upper.len() as u64
}

/// How many the relations have together.
fn total(relations: &[Bound], later: bool) -> Result<u64, AllocError>
    ensures { IfOk result (λ n. n ≡ together later relations.now) }
{
    let mut count = 0u64;
    for bound in relations {
        count = added(count, size_of(bound, later))?;
    }
    Ok(count)
}

/// The relations' sizes, each at its place in the order.
fn weights(alloc: Global, relations: &[Bound], later: bool) -> Result<Vec<Weight>, AllocError>
    ensures { IfOk result (λ v. v.items ≡ map (weight_of later) relations.now) }
{
    let mut all = Vec::new(alloc);
    for bound in relations {
        all.push(Weight {
            place: bound.order,
            size: size_of(bound, later),
        })?;
    }
    Ok(all)
}

/// How many variables the relations before each place of the order have together.
fn relation_starts(alloc: Global, relations: &[Bound], later: bool) -> Result<Vec<u64>, AllocError>
    ensures { IfOk result (λ v. AreStarts (length relations.now)
        (map (weight_of later) relations.now) v.items) }
{
    let all = weights(alloc, relations, later)?;
    starts(alloc, relations.len(), &all)
}

/// How many variables the relations before this one have together.
fn start_of(starts: &[u64], order: u64) -> u64
    ensures { order < length starts.now → result ≡ slice_index starts.now order }
{
    let place = order as usize;
    if place < starts.len() {
        return starts[place];
    }
    0
}

/// Where the variables of a relation stand.
fn cells_of(is_fixed: bool, first: u64, next: u64, stride: u64) -> Cells
    ensures { result ≡ cells_by is_fixed first next stride }
{
    if is_fixed {
        return Cells {
            first,
            next: first,
            stride: 0,
        };
    }
    Cells {
        first,
        next,
        stride,
    }
}

/// Where the variables of each relation stand, of which there are `all` at the first state.
#[tactic(auto, using(crate::proofs::Sizes::cells_all))]
fn cells(
    alloc: Global,
    relations: &[Bound],
    firsts: &[u64],
    nexts: &[u64],
    all: u64,
    stride: u64,
) -> Result<Vec<Cells>, AllocError>
    requires firsts { AreStarts (length relations.now) (map (weight_of false) relations.now)
        firsts.now }
    requires nexts { AreStarts (length relations.now) (map (weight_of true) relations.now)
        nexts.now }
    requires all { all ≡ together false relations.now }
    requires stride { stride ≡ together true relations.now }
    ensures { HasPlaces relations.now → IfOk result (λ v. HasCells relations.now v.items) }
{
    let mut list = Vec::new(alloc);
    for bound in relations {
        let start = start_of(firsts, bound.order);
        let further = start_of(nexts, bound.order);
        let first = added(1, start)?;
        let behind = added(1, all)?;
        let next = added(behind, further)?;
        list.push(cells_of(bound.fixed, first, next, stride))?;
    }
    Ok(list)
}

/// How many loop variables there are.
fn choices(states: u32) -> u64
    ensures { result ≡ if nat_lt 1 states then states else 0 }
{
    if states > 1 {
        return states as u64;
    }
    0
}

/// The numbers of the table's variables.
pub fn layout(alloc: Global, bounds: &Bounds) -> Result<Layout, AllocError>
    ensures exact { IsTable bounds.now → IfOk result (IsLayout bounds.now) }
{
    let bound_list = bounds.relations.as_slice();
    let firsts = relation_starts(alloc, bound_list, false)?;
    let nexts = relation_starts(alloc, bound_list, true)?;
    let all = total(bound_list, false)?;
    let stride = total(bound_list, true)?;
    let relations = cells(alloc, bound_list, &firsts, &nexts, all, stride)?;
    let later = (bounds.states as u64).saturating_sub(1);
    let behind = multiplied(later, stride)?;
    let last = added(all, behind)?;
    let loops = added(1, last)?;
    let variables = added(last, choices(bounds.states))?;
    Ok(Layout {
        relations,
        loops,
        variables,
    })
}
