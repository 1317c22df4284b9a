//! Finds numbers that fall from each place to those below it, where there is no way round.

use crate::named_fields::fields_in;
use core_tree::{Column, Field, ItemList, Sig, SigKind};
use std::alloc::{AllocError, Global};

/// Places by their numbers.
type PlaceList = ItemList<u32>;

/// That a place is above another one, and the next such way up from the same place.
#[derive(Clone, Copy, Drop)]
struct Way {
    above: usize,
    next: Option<usize>,
}

/// So many zeros.
fn zeros(alloc: Global, count: usize) -> Result<Vec<u32>, AllocError> {
    let mut all = Vec::new(alloc);
    for _ in 0..count {
        all.push(0)?;
    }
    Ok(all)
}

/// No way for any of so many places.
fn no_ways(alloc: Global, count: usize) -> Result<Vec<Option<usize>>, AllocError> {
    let mut all = Vec::new(alloc);
    for _ in 0..count {
        all.push(None)?;
    }
    Ok(all)
}

/// Adds a way up, and one more place that the upper one waits for. A place that isn't there doesn't
/// count.
fn add_way(
    ways: &mut Vec<Way>,
    last: &mut Vec<Option<usize>>,
    waiting: &mut Vec<u32>,
    lower: usize,
    above: usize,
) -> Result<(), AllocError> {
    if lower >= last.len() || above >= waiting.len() {
        return Ok(());
    }
    let number = ways.len();
    let next = last[lower];
    ways.push(Way { above, next })?;
    last[lower] = Some(number);
    waiting[above] = waiting[above].saturating_add(1);
    Ok(())
}

/// All ways up.
fn all_ways(
    alloc: Global,
    below: &[PlaceList],
    last: &mut Vec<Option<usize>>,
    waiting: &mut Vec<u32>,
) -> Result<Vec<Way>, AllocError> {
    let mut ways = Vec::new(alloc);
    for place in 0..below.len() {
        for lower in below[place].as_slice() {
            add_way(&mut ways, last, waiting, *lower as usize, place)?;
        }
    }
    Ok(ways)
}

/// The places that wait for none.
fn first_ready(alloc: Global, waiting: &[u32]) -> Result<Vec<usize>, AllocError> {
    let mut ready = Vec::new(alloc);
    for place in 0..waiting.len() {
        if waiting[place] == 0 {
            ready.push(place)?;
        }
    }
    Ok(ready)
}

/// A place waits for one place less; where none is left, it is ready.
fn release(waiting: &mut Vec<u32>, ready: &mut Vec<usize>, place: usize) -> Result<(), AllocError> {
    if place >= waiting.len() || waiting[place] == 0 {
        return Ok(());
    }
    let left = waiting[place] - 1;
    waiting[place] = left;
    if left == 0 {
        ready.push(place)?;
    }
    Ok(())
}

/// The places above one wait for one place less.
fn release_above(
    ways: &[Way],
    first: Option<usize>,
    waiting: &mut Vec<u32>,
    ready: &mut Vec<usize>,
) -> Result<(), AllocError> {
    let mut next = first;
    for _ in 0..ways.len() {
        match next {
            None => return Ok(()),
            Some(number) => match ways.get(number) {
                None => return Ok(()),
                Some(way) => {
                    release(waiting, ready, way.above)?;
                    next = way.next;
                }
            },
        }
    }
    Ok(())
}

/// A number for each place, above those of the places below it. A place on a way round has 0.
fn numbering(alloc: Global, below: &[PlaceList]) -> Result<ItemList<u32>, AllocError> {
    let count = below.len();
    let mut last = no_ways(alloc, count)?;
    let mut waiting = zeros(alloc, count)?;
    let ways = all_ways(alloc, below, &mut last, &mut waiting)?;
    let mut ready = first_ready(alloc, waiting.as_slice())?;
    let mut numbers = zeros(alloc, count)?;
    for number in 0..count {
        match ready.pop() {
            None => return Ok(ItemList::from_vec(numbers)),
            Some(place) => {
                if place < numbers.len() && place < last.len() {
                    numbers[place] = u32::try_from(number).unwrap_or(u32::MAX);
                    release_above(ways.as_slice(), last[place], &mut waiting, &mut ready)?;
                }
            }
        }
    }
    Ok(ItemList::from_vec(numbers))
}

/// The sigs that are a sig's parents.
fn parents_of(alloc: Global, kind: &SigKind) -> Result<PlaceList, AllocError> {
    let mut parents = PlaceList::new(alloc);
    match kind {
        SigKind::Top => {}
        SigKind::Extends(parent) => parents.push(*parent)?,
        SigKind::Subset(list) => {
            for column in list.as_slice() {
                if let Column::Sig(sig) = *column {
                    parents.push(sig)?;
                }
            }
        }
    }
    Ok(parents)
}

/// A number for each sig, above those of its parents.
pub fn sig_numbers(alloc: Global, sigs: &[Sig]) -> Result<ItemList<u32>, AllocError> {
    let mut below = Vec::new(alloc);
    for sig in sigs {
        below.push(parents_of(alloc, &sig.kind)?)?;
    }
    numbering(alloc, below.as_slice())
}

/// The fields in a field's bound.
fn fields_below(alloc: Global, field: &Field) -> Result<PlaceList, AllocError> {
    match &field.declared {
        None => Ok(PlaceList::new(alloc)),
        Some(declared) => fields_in(alloc, &declared.bound.expr),
    }
}

/// A number for each field, above those of the fields in its bound.
pub fn field_numbers(alloc: Global, fields: &[Field]) -> Result<ItemList<u32>, AllocError> {
    let mut below = Vec::new(alloc);
    for field in fields {
        below.push(fields_below(alloc, field)?)?;
    }
    numbering(alloc, below.as_slice())
}
