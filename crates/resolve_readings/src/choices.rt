//! The right choices of a part, from those of its parts.

ghost use Rattle.std.specs.Prelude.{◌≡◌, [], ◌∷◌, ◌++◌, IfOk, OnOk, IsTrue};
ghost use Rattle.std.specs.List.{filter_map, cons_option};
ghost use Rattle.resolve_types.specs.Types.{pairs};
ghost use Rattle.resolve_readings.specs.Found.{found_as, numbered, made, paired, found as found_of};

use crate::meaning::Meaning;
use crate::operate::{pair, single};
use crate::part::{Binary, Found, Part, Typing, Unary};
use base_lists::Items;
use std::alloc::{AllocError, Global};

/// Each candidate with its number.
fn candidates(alloc: Global, all: &[Meaning]) -> Result<Vec<Found>, AllocError>
    ensures { IfOk result (λ f. f.items ≡ numbered 0 all.now) }
{
    let mut numbers = Vec::new(alloc);
    for number in 0..all.len() {
        let mut choice = Items::new(alloc);
        choice.push(number)?;
        let meaning = all[number].copy(alloc)?;
        numbers.push(Found { choice, meaning })?;
    }
    Ok(numbers)
}

/// Puts a choice behind the others, where there is one.
fn push_some(all: &mut Vec<Found>, one: Option<Found>) -> Result<(), AllocError>
    ensures { OnOk result (all.new.items ≡ all.old.items ++ cons_option one []) }
{
    match one {
        Some(one) => {
            all.push(one)?;
            Ok(())
        }
        None => Ok(()),
    }
}

/// The choice, where the operator is right under it.
fn make_found(
    alloc: Global,
    typing: &Typing,
    operator: Unary,
    one: &Found,
) -> Result<Option<Found>, AllocError>
    ensures { IfOk result (λ f. f ≡ made typing.now operator one.now) }
{
    match single(alloc, typing, operator, &one.meaning)? {
        Some(meaning) => {
            let choice = Items::from_slice(alloc, one.choice.as_slice())?;
            Ok(Some(Found { choice, meaning }))
        }
        None => Ok(None),
    }
}

/// The choices under which the operator is right.
fn make_all(
    alloc: Global,
    typing: &Typing,
    operator: Unary,
    all: &[Found],
) -> Result<Vec<Found>, AllocError>
    ensures { IfOk result (λ f. f.items ≡ filter_map (made typing.now operator) all.now) }
{
    let mut kept = Vec::new(alloc);
    for one in all {
        let found = make_found(alloc, typing, operator, one)?;
        push_some(&mut kept, found)?;
    }
    Ok(kept)
}

/// Both choices, where the operator is right under them.
fn pair_found(
    alloc: Global,
    typing: &Typing,
    operator: Binary,
    left: &Found,
    right: &Found,
) -> Result<Option<Found>, AllocError>
    ensures { IfOk result (λ f. f ≡ paired typing.now operator left.now right.now) }
{
    match pair(alloc, typing, operator, &left.meaning, &right.meaning)? {
        Some(meaning) => {
            let mut choice = Items::from_slice(alloc, left.choice.as_slice())?;
            choice.append(Items::from_slice(alloc, right.choice.as_slice())?)?;
            Ok(Some(Found { choice, meaning }))
        }
        None => Ok(None),
    }
}

/// Adds what a choice makes with others.
fn add_pairs(
    alloc: Global,
    typing: &Typing,
    operator: Binary,
    left: &Found,
    others: &[Found],
    all: &mut Vec<Found>,
) -> Result<(), AllocError>
    ensures { OnOk result (all.new.items ≡ all.old.items
        ++ filter_map (paired typing.now operator left.now) others.now) }
{
    for other in others {
        let found = pair_found(alloc, typing, operator, left, other)?;
        push_some(all, found)?;
    }
    Ok(())
}

/// What choices make with others.
fn pair_all(
    alloc: Global,
    typing: &Typing,
    operator: Binary,
    left: &[Found],
    right: &[Found],
) -> Result<Vec<Found>, AllocError>
    ensures { IfOk result (λ f. f.items ≡ pairs (paired typing.now operator) left.now right.now) }
{
    let mut all = Vec::new(alloc);
    for one in left {
        add_pairs(alloc, typing, operator, one, right, &mut all)?;
    }
    Ok(all)
}

/// Both choices, where the operator is right under them. The second comes behind the first where
/// that lies in memory, so that the choice of a long row isn't copied at each operator.
fn extended(
    alloc: Global,
    typing: &Typing,
    operator: Binary,
    left: Found,
    right: &Found,
) -> Result<Option<Found>, AllocError>
    ensures { IfOk result (λ f. f ≡ paired typing.now operator left right.now) }
{
    let Found {
        mut choice,
        meaning,
    } = left;
    match pair(alloc, typing, operator, &meaning, &right.meaning)? {
        Some(meaning) => {
            choice.append(Items::from_slice(alloc, right.choice.as_slice())?)?;
            Ok(Some(Found { choice, meaning }))
        }
        None => Ok(None),
    }
}

/// Whether there is just one choice. Where it says so, there is.
fn is_one(all: &[Found]) -> bool
    ensures { IsTrue result → (x : _) × (all.now ≡ x ∷ []) }
{
    match all {
        [_] => true,
        _ => false,
    }
}

/// What the only choice makes with another, in its place.
fn extend_only(
    alloc: Global,
    typing: &Typing,
    operator: Binary,
    all: &mut Vec<Found>,
    other: &Found,
) -> Result<(), AllocError>
    ensures { OnOk result ((x : _) → all.old.items ≡ x ∷ [] →
        all.new.items ≡ cons_option (paired typing.now operator x other.now) []) }
{
    match all.pop() {
        None => Ok(()),
        Some(one) => {
            let found = extended(alloc, typing, operator, one, other)?;
            push_some(all, found)?;
            Ok(())
        }
    }
}

/// What choices make with others, in their place.
fn pair_with(
    alloc: Global,
    typing: &Typing,
    operator: Binary,
    all: &mut Vec<Found>,
    others: &[Found],
) -> Result<(), AllocError>
    ensures { OnOk result (all.new.items ≡ pairs (paired typing.now operator) all.old.items
        others.now) }
{
    if let [other] = others {
        if is_one(all.as_slice()) {
            extend_only(alloc, typing, operator, all, other)?;
            return Ok(());
        }
    }
    let paired = pair_all(alloc, typing, operator, all.as_slice(), others)?;
    *all = paired;
    Ok(())
}

/// The one choice of a part without names.
fn known(alloc: Global, meaning: &Meaning) -> Result<Vec<Found>, AllocError>
    ensures { IfOk result (λ f. f.items ≡ found_as [] meaning.now ∷ []) }
{
    let meaning = meaning.copy(alloc)?;
    let choice = Items::new(alloc);
    let mut all = Vec::new(alloc);
    all.push(Found { choice, meaning })?;
    Ok(all)
}

/// Puts the choices of a name in place of those in a list.
#[inline(never)]
fn put_candidates(
    alloc: Global,
    meanings: &[Meaning],
    all: &mut Vec<Found>,
) -> Result<(), AllocError>
    ensures { OnOk result (all.new.items ≡ numbered 0 meanings.now) }
{
    let found = candidates(alloc, meanings)?;
    *all = found;
    Ok(())
}

/// Puts the choice of a part without names in place of those in a list.
#[inline(never)]
fn put_known(alloc: Global, meaning: &Meaning, all: &mut Vec<Found>) -> Result<(), AllocError>
    ensures { OnOk result (all.new.items ≡ found_as [] meaning.now ∷ []) }
{
    let found = known(alloc, meaning)?;
    *all = found;
    Ok(())
}

/// What an operator makes of choices, in their place.
#[inline(never)]
fn make_with(
    alloc: Global,
    typing: &Typing,
    operator: Unary,
    all: &mut Vec<Found>,
) -> Result<(), AllocError>
    ensures { OnOk result (all.new.items ≡ filter_map (made typing.now operator) all.old.items) }
{
    let found = make_all(alloc, typing, operator, all.as_slice())?;
    *all = found;
    Ok(())
}

/// What choices make with the right ones of the operator's right part, in their place.
#[cycle(find)]
#[inline(never)]
fn pair_part(
    alloc: Global,
    typing: &Typing,
    operator: Binary,
    right: &Part,
    all: &mut Vec<Found>,
) -> Result<(), AllocError>
    ensures { OnOk result (all.new.items ≡ pairs (paired typing.now operator) all.old.items
        (found_of typing.now right.now)) }
{
    let mut others = Vec::new(alloc);
    find(alloc, typing, right, &mut others)?;
    pair_with(alloc, typing, operator, all, others.as_slice())?;
    Ok(())
}

/// Puts the right choices of a part in place of those in a list. A row of operators is as deep as
/// it is long, so the walk down its left parts has a small frame: what else is done at a level is
/// done by functions of their own.
#[cycle(find)]
fn find(alloc: Global, typing: &Typing, part: &Part, all: &mut Vec<Found>) -> Result<(), AllocError>
    ensures { OnOk result (all.new.items ≡ found_of typing.now part.now) }
{
    match part {
        Part::Name(candidates) => {
            put_candidates(alloc, candidates.as_slice(), all)?;
            Ok(())
        }
        Part::Known(meaning) => {
            put_known(alloc, meaning, all)?;
            Ok(())
        }
        Part::Single(operator, inner) => {
            find(alloc, typing, inner, all)?;
            make_with(alloc, typing, *operator, all)?;
            Ok(())
        }
        Part::Pair(operator, left, right) => {
            find(alloc, typing, left, all)?;
            pair_part(alloc, typing, *operator, right, all)?;
            Ok(())
        }
    }
}

/// The right choices of a part, the earlier names' candidates first.
pub fn found(alloc: Global, typing: &Typing, part: &Part) -> Result<Items<Found>, AllocError>
    ensures { IfOk result (λ f. f ≡ found_of typing.now part.now) }
{
    let mut all = Vec::new(alloc);
    find(alloc, typing, part, &mut all)?;
    Ok(Items::from_vec(all))
}
