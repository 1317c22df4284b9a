//! The pairs of all neighbours: of each two atoms that follow one another, and that the upper bounds
//! don't tell apart.

ghost use Rattle.std.specs.Prelude.{◌≡◌, ◌↔◌, ◌<◌, ◌^◌, ◌+◌, [], ℕ, All, length, get_or, IfOk, OnOk, IsTrue};
ghost use Rattle.bound_uppers.specs.Candidates.{HasSets};
ghost use Rattle.bound_uppers.specs.Table.{IsTable, IsLayout};
ghost use Rattle.bound_naming.specs.Naming.{ArePairs, AreAllPairs};
ghost use Rattle.bound_naming.specs.Reckoned.{IsReady, Stays, AllStay, ArePairsTo};

use crate::listing::pairs_of;
use crate::pairs::PairList;
use crate::partners::exchange;
use crate::spots::{Spot, SpotList, index_of};
use bound_uppers::{Bound, Bounds, Layout, rows_rise};
use std::alloc::{AllocError, Global};

/// How many pairs of two atoms are listed at most.
pub const NAMED_PAIRS: usize = 40;

/// The first pairs of an atom and the next one.
fn next_pairs(
    alloc: Global,
    bounds: &Bounds,
    table: &Layout,
    lists: &[SpotList],
    atom: u32,
) -> Result<PairList, AllocError>
    requires { atom + 1 < 2 ^ 32 }
    ensures { IsReady bounds.now table.now lists.now → IfOk result (λ ps.
        ArePairs bounds.now NAMED_PAIRS atom (atom + 1) ps) }
{
    rows_rise();
    let relations = bounds.relations.as_slice();
    let states = bounds.states;
    let pairs = pairs_of(
        alloc,
        relations,
        table,
        lists,
        atom,
        atom + 1,
        states,
        NAMED_PAIRS,
    )?;
    Ok(pairs)
}

/// Whether the exchange of two atoms carries a tuple of an upper bound into that bound.
fn stays(alloc: Global, relations: &[Bound], a: u32, b: u32, spot: Spot) -> Result<bool, AllocError>
    ensures { IfOk result (λ r. IsTrue r ↔ Stays relations.now a b spot) }
{
    if spot.relation >= relations.len() {
        return Ok(true);
    }
    let upper = &relations[spot.relation].upper;
    if spot.place >= upper.len() {
        return Ok(true);
    }
    let other = exchange(alloc, a, b, upper.tuple(spot.place).numbers())?;
    Ok(upper.contains(&other))
}

/// Whether it carries each of these tuples into its bound.
fn all_stay(
    alloc: Global,
    relations: &[Bound],
    a: u32,
    b: u32,
    spots: &[Spot],
) -> Result<bool, AllocError>
    ensures { IfOk result (λ r. IsTrue r ↔ All (Stays relations.now a b) spots.now) }
{
    for place in 0..spots.len() {
        let is_in = stays(alloc, relations, a, b, spots[place])?;
        if !is_in {
            return Ok(false);
        }
    }
    Ok(true)
}

/// The tuples that have an atom.
fn spots_of(lists: &[SpotList], atom: u32) -> &[Spot]
    requires { atom < length lists.now }
    ensures { result.now ≡ get_or lists.now atom [] }
{
    lists[atom as usize].as_slice()
}

/// Whether the exchange of an atom and the next one carries into their bounds the tuples that have one
/// of the two. A number that isn't an atom with a next one is answered as if memory were wanting.
fn are_alike(
    alloc: Global,
    relations: &[Bound],
    lists: &[SpotList],
    atom: u32,
) -> Result<bool, AllocError>
    requires { atom + 1 < 2 ^ 32 }
    ensures within { OnOk result (atom + 1 < length lists.now) }
    ensures stay { IfOk result (λ r. IsTrue r ↔ AllStay relations.now lists.now atom) }
{
    let next = atom + 1;
    if next as usize >= lists.len() {
        return Err(AllocError);
    }
    let is_first = all_stay(alloc, relations, atom, next, spots_of(lists, atom))?;
    if !is_first {
        return Ok(false);
    }
    let is_second = all_stay(alloc, relations, atom, next, spots_of(lists, next))?;
    Ok(is_second)
}

/// Adds the pairs of an atom and the next one, if the bounds don't tell them apart.
fn add_atom(
    alloc: Global,
    bounds: &Bounds,
    table: &Layout,
    lists: &[SpotList],
    atom: u32,
    all: &mut Vec<PairList>,
) -> Result<(), AllocError>
    requires { atom + 1 < 2 ^ 32 }
    ensures { IsReady bounds.now table.now lists.now →
        ArePairsTo bounds.now (length lists.now) NAMED_PAIRS atom all.old.items → OnOk result
        (ArePairsTo bounds.now (length lists.now) NAMED_PAIRS (atom + 1) all.new.items) }
{
    let is_alike = are_alike(alloc, bounds.relations.as_slice(), lists, atom)?;
    if !is_alike {
        return Ok(());
    }
    let pairs = next_pairs(alloc, bounds, table, lists, atom)?;
    all.push(pairs)?;
    Ok(())
}

/// The upper bounds are sets of tuples.
#[tactic(auto, using(bound_uppers::proofs::Sizes::sets_more, bound_uppers::proofs::Sizes::sets_all))]
pub fn have_sets(bounds: &Bounds)
    ensures { HasSets bounds.now }
{
    for bound in bounds.relations.as_slice() {
        // for the proof: this call's clause says that the bound is a set of tuples
        let _count = bound.upper.len();
    }
}

/// The pairs of all neighbours, a list for each two: of their partners the first so many. Each
/// two atoms that follow one another are tried by the tuples that have one of them.
pub fn all_pairs(
    alloc: Global,
    bounds: &Bounds,
    table: &Layout,
    atoms: u32,
) -> Result<Vec<PairList>, AllocError>
    ensures { IsTable bounds.now → IsLayout bounds.now table.now →
        IfOk result (λ all. AreAllPairs bounds.now atoms NAMED_PAIRS all.items) }
{
    have_sets(bounds);
    let lists = index_of(alloc, bounds, atoms as usize)?;
    let mut all = Vec::new(alloc);
    for atom in 0..atoms.saturating_sub(1) {
        add_atom(alloc, bounds, table, &lists, atom, &mut all)?;
    }
    Ok(all)
}
