//! The pairs of two atoms, state by state.

ghost use Rattle.std.specs.Prelude.{◌≡◌, ◌≤◌, ◌<◌, ◌++◌, [], map, take, length, get_or, IfOk, OnOk};
ghost use Rattle.bound_uppers.specs.Table.{cell_at};
ghost use Rattle.bound_naming.specs.Reckoned.{first_in, pair_in, state_pairs, pairs_to, matches_of};

use crate::pairs::{Pair, PairList};
use crate::partners::{Match, matches_of, moving};
use crate::spots::SpotList;
use bound_uppers::sums::{added, multiplied};
use bound_uppers::{Bound, Cells, Layout};
use std::alloc::{AllocError, Global};

/// The variable of the first tuple at a state.
#[tactic(auto, using(crate::proofs::StateLists::cell_first, crate::proofs::StateLists::cell_next))]
fn first_of(cells: Cells, state: u32) -> Result<u64, AllocError>
    ensures { IfOk result (λ v. v ≡ cell_at cells state) }
{
    if state == 0 {
        return Ok(cells.first);
    }
    let behind = multiplied((state - 1) as u64, cells.stride)?;
    let first = added(cells.next, behind)?;
    Ok(first)
}

/// The variable of the first tuple of a relation at a state, 0 where there is no such relation.
#[tactic(auto, using(crate::proofs::StateLists::first_lacks, crate::proofs::StateLists::first_there))]
fn first_in(table: &Layout, state: u32, relation: usize) -> Result<u64, AllocError>
    ensures { IfOk result (λ v. v ≡ first_in table.now state relation) }
{
    if relation >= table.relations.len() {
        return Ok(0);
    }
    let first = first_of(table.relations[relation], state)?;
    Ok(first)
}

/// The pair of two partners at a state.
fn pair_in(table: &Layout, state: u32, found: Match) -> Result<Pair, AllocError>
    ensures { IfOk result (λ p. p ≡ pair_in table.now state found) }
{
    let first = first_in(table, state, found.spot.relation)?;
    let earlier = added(first, found.spot.place as u64)?;
    let later = added(first, found.other as u64)?;
    Ok(Pair { earlier, later })
}

/// Adds the pairs of a state, until there are so many.
#[tactic(auto, using(crate::proofs::StateLists::pairs_none, crate::proofs::StateLists::pairs_more, crate::proofs::StateLists::pairs_full, crate::proofs::StateLists::pairs_done, crate::proofs::StateLists::few_more))]
fn add_pairs(
    pairs: &mut PairList,
    table: &Layout,
    state: u32,
    matches: &[Match],
    most: usize,
) -> Result<(), AllocError>
    requires { length pairs.old ≤ most }
    ensures { OnOk result (pairs.new ≡ take most (pairs.old
        ++ map (pair_in table.now state) matches.now)) }
{
    for place in 0..matches.len() {
        if pairs.len() >= most {
            return Ok(());
        }
        let pair = pair_in(table, state, matches[place])?;
        pairs.push(pair)?;
    }
    Ok(())
}

/// Adds the pairs of a state: the first one alone has those of relations that don't change.
#[tactic(auto, using(crate::proofs::StateLists::state_first, crate::proofs::StateLists::state_later))]
fn add_state(
    pairs: &mut PairList,
    table: &Layout,
    state: u32,
    all: &[Match],
    rest: &[Match],
    most: usize,
) -> Result<(), AllocError>
    requires { length pairs.old ≤ most }
    ensures { OnOk result (pairs.new ≡ take most (pairs.old
        ++ state_pairs table.now all.now rest.now state)) }
{
    if state == 0 {
        add_pairs(pairs, table, state, all, most)?;
        return Ok(());
    }
    add_pairs(pairs, table, state, rest, most)?;
    Ok(())
}

/// The first so many pairs of partners at so many states.
#[tactic(auto, using(crate::proofs::StateLists::states_none, crate::proofs::StateLists::states_more, crate::proofs::StateLists::states_few, crate::proofs::StateLists::states_all))]
fn pairs_to(
    alloc: Global,
    table: &Layout,
    all: &[Match],
    states: u32,
    most: usize,
) -> Result<PairList, AllocError>
    ensures { IfOk result (λ ps. ps ≡ take most (pairs_to table.now all.now states)) }
{
    let rest = moving(alloc, all)?;
    let mut pairs = PairList::new(alloc);
    for state in 0..states {
        add_state(&mut pairs, table, state, all, rest.as_slice(), most)?;
    }
    Ok(pairs)
}

/// The first so many pairs of two atoms, where the index is known. A number that isn't an atom is
/// answered as if memory were wanting.
#[tactic(auto, using(crate::proofs::StateLists::pairs_are))]
pub fn pairs_of(
    alloc: Global,
    relations: &[Bound],
    table: &Layout,
    lists: &[SpotList],
    a: u32,
    b: u32,
    states: u32,
    most: usize,
) -> Result<PairList, AllocError>
    ensures within { OnOk result (a < length lists.now) }
    ensures pairs { IfOk result (λ ps. ps ≡ take most (pairs_to table.now
        (matches_of relations.now a b (get_or lists.now a [])) states)) }
{
    let place = a as usize;
    if place >= lists.len() {
        return Err(AllocError);
    }
    let spots = lists[place].as_slice();
    let all = matches_of(alloc, relations, a, b, spots)?;
    let pairs = pairs_to(alloc, table, all.as_slice(), states, most)?;
    Ok(pairs)
}
