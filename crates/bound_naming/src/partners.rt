//! Partners in the upper bounds: the tuples that an exchange of two atoms makes of each other.

ghost use Rattle.std.specs.Prelude.{◌≡◌, ◌++◌, ◌∷◌, [], not, if◌then◌else◌, map, slice_get, Some, IfOk, OnOk, IfSome, IfNone, Contains};
ghost use Rattle.std.specs.List.Sorted.{IsStrictlySortedBy};
ghost use Rattle.core_tuples.specs.Sets.{tuple_cmp};
ghost use Rattle.core_renaming.specs.Composed.{exchanged};
ghost use Rattle.bound_naming.specs.Reckoned.{place_in, if_later, partner_of, with_item, matches_of, moving};

use crate::spots::Spot;
use bound_uppers::Bound;
use core_tree::ItemList;
use core_tuples::{Keyed, Tuple, TupleSet};
use std::alloc::{AllocError, Global};
use std::cmp::Ordering;

/// A tuple of an upper bound and its partner.
#[derive(Clone, Copy, Debug, PartialEq, Eq, Drop)]
pub struct Match {
    /// The earlier tuple.
    pub spot: Spot,
    /// The place of the later one.
    pub other: usize,
    /// Whether their relation is the same in all states.
    pub fixed: bool,
}

/// Tuples with their partners.
pub type MatchList = ItemList<Match>;

/// What the exchange of two atoms makes of a number.
fn exchanged(a: u32, b: u32, number: u32) -> u32
    ensures { result ≡ exchanged a b number }
{
    if number == a {
        b
    } else if number == b {
        a
    } else {
        number
    }
}

/// What the exchange of two atoms makes of a tuple.
#[tactic(auto, using(bound_uppers::proofs::Sizes::map_more))]
pub(crate) fn exchange(alloc: Global, a: u32, b: u32, numbers: &[u32]) -> Result<Tuple, AllocError>
    ensures { IfOk result (λ t. t ≡ map (exchanged a b) numbers.now) }
{
    let mut tuple = Tuple::new(alloc);
    for place in 0..numbers.len() {
        tuple.push(exchanged(a, b, numbers[place]))?;
    }
    Ok(tuple)
}

/// Where a tuple stands.
fn found_at(tuples: &[Keyed], tuple: &Tuple) -> Option<usize>
    requires { IsStrictlySortedBy tuple_cmp tuples.now }
    ensures some { IfSome result (λ place. slice_get tuples.now place ≡ Some tuple.now) }
    ensures none { IfNone result (Contains tuples.now tuple.now → ⊥) }
{
    let mut low = 0;
    let mut high = tuples.len();
    while low < high {
        let middle = low + (high - low) / 2;
        match tuples[middle].tuple().compare(tuple) {
            Ordering::Less => low = middle + 1,
            Ordering::Greater => high = middle,
            Ordering::Equal => return Some(middle),
        }
    }
    None
}

/// Where a tuple stands in an upper bound.
#[tactic(auto, using(crate::proofs::Finding::found_is, crate::proofs::Finding::lost_is))]
fn place_in(upper: &TupleSet, tuple: &Tuple) -> Option<usize>
    ensures { result ≡ place_in tuple.now 0 upper.now.tuples }
{
    found_at(upper.keyed(), tuple)
}

/// A tuple with its partner, if there is one that comes later.
fn if_later(spot: Spot, fixed: bool, other: Option<usize>) -> Option<Match>
    ensures { result ≡ if_later spot fixed other }
{
    match other {
        None => None,
        Some(other) => {
            if spot.place < other {
                Some(Match { spot, other, fixed })
            } else {
                None
            }
        }
    }
}

/// The partner of a tuple of the upper bounds, if it comes later.
#[tactic(auto, using(crate::proofs::Finding::there, crate::proofs::Matching::partner_is, crate::proofs::Matching::partner_lacks, crate::proofs::Matching::partner_past))]
fn partner_of(
    alloc: Global,
    relations: &[Bound],
    a: u32,
    b: u32,
    spot: Spot,
) -> Result<Option<Match>, AllocError>
    ensures { IfOk result (λ m. m ≡ partner_of a b spot
        (slice_get relations.now spot.relation)) }
{
    if spot.relation >= relations.len() {
        return Ok(None);
    }
    let bound = &relations[spot.relation];
    if spot.place >= bound.upper.len() {
        return Ok(None);
    }
    let tuple = bound.upper.tuple(spot.place);
    let other = exchange(alloc, a, b, tuple.numbers())?;
    Ok(if_later(spot, bound.fixed, place_in(&bound.upper, &other)))
}

/// Adds an item, if there is one.
fn add_item(all: &mut MatchList, item: Option<Match>) -> Result<(), AllocError>
    ensures { OnOk result (all.new ≡ all.old ++ with_item item []) }
{
    match item {
        None => Ok(()),
        Some(found) => {
            all.push(found)?;
            Ok(())
        }
    }
}

/// Of these tuples those with a later partner.
#[tactic(auto, using(crate::proofs::Matching::matches_none, crate::proofs::Matching::matches_more, crate::proofs::Matching::matches_all))]
pub fn matches_of(
    alloc: Global,
    relations: &[Bound],
    a: u32,
    b: u32,
    spots: &[Spot],
) -> Result<MatchList, AllocError>
    ensures { IfOk result (λ ms. ms ≡ matches_of relations.now a b spots.now) }
{
    let mut all = MatchList::new(alloc);
    for place in 0..spots.len() {
        let item = partner_of(alloc, relations, a, b, spots[place])?;
        add_item(&mut all, item)?;
    }
    Ok(all)
}

/// Adds one, unless its relation is the same in all states.
fn add_moving(all: &mut MatchList, found: Match) -> Result<(), AllocError>
    ensures { OnOk result (all.new ≡ all.old ++ (if not found.fixed then found ∷ [] else [])) }
{
    if found.fixed {
        return Ok(());
    }
    all.push(found)?;
    Ok(())
}

/// Those of relations that change.
#[tactic(auto, using(crate::proofs::Matching::moving_none, crate::proofs::Matching::moving_more, crate::proofs::Matching::moving_all))]
pub fn moving(alloc: Global, matches: &[Match]) -> Result<MatchList, AllocError>
    ensures { IfOk result (λ ms. ms ≡ moving matches.now) }
{
    let mut all = MatchList::new(alloc);
    for place in 0..matches.len() {
        add_moving(&mut all, matches[place])?;
    }
    Ok(all)
}
