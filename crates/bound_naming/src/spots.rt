//! An index: for each atom the tuples of the upper bounds that have it, in the order of the table.

ghost use Rattle.std.specs.Prelude.{◌≡◌, ◌<◌, ℕ, [], ◌∷◌, take, length, get_or, slice_get, Some, IfOk, OnOk};
ghost use Rattle.bound_uppers.specs.declared.table.Bound.{Bound as BoundTree};
ghost use Rattle.bound_uppers.specs.Table.{IsTable};
ghost use Rattle.bound_naming.specs.Reckoned.{has_atom, is_first, extended_at, one_spot, spots_in, Grow, IsIndex};

use bound_uppers::{Bound, Bounds};
use core_tree::ItemList;
use std::alloc::{AllocError, Global};

/// A tuple of an upper bound.
#[derive(Clone, Copy, Debug, PartialEq, Eq, Drop)]
pub struct Spot {
    /// The place of its relation in the order of relations.
    pub order: u64,
    /// Its relation.
    pub relation: usize,
    /// Its place in the upper bound.
    pub place: usize,
}

/// Tuples of the upper bounds.
pub type SpotList = ItemList<Spot>;

/// Whether an atom is one of the first numbers of a tuple.
#[tactic(auto, using(crate::proofs::Indexing::has_none, crate::proofs::Indexing::has_more, crate::proofs::Indexing::has_there, crate::proofs::Indexing::has_all))]
fn is_before(numbers: &[u32], column: usize, atom: u32) -> bool
    requires { column < length numbers.now }
    ensures { result ≡ has_atom atom (take column numbers.now) }
{
    for place in 0..column {
        if numbers[place] == atom {
            return true;
        }
    }
    false
}

/// So many empty lists.
fn no_lists(alloc: Global, count: usize) -> Result<Vec<SpotList>, AllocError>
    ensures count { IfOk result (λ v. length v.items ≡ count) }
    ensures none { IfOk result (λ v. (a : ℕ) → get_or v.items a [] ≡ []) }
{
    let mut lists = Vec::new(alloc);
    for _place in 0..count {
        lists.push(SpotList::new(alloc))?;
    }
    Ok(lists)
}

/// Adds a tuple to the list of an atom, where there is one.
fn add_to(lists: &mut Vec<SpotList>, atom: u32, spot: Spot) -> Result<(), AllocError>
    ensures { OnOk result (lists.new.items ≡ extended_at lists.old.items atom spot) }
{
    let place = atom as usize;
    if place < lists.len() {
        lists[place].push(spot)?;
    }
    Ok(())
}

/// Adds a tuple to the list of its atom in a column, unless it has that atom before.
#[tactic(auto, using(crate::proofs::Indexing::column_before, crate::proofs::Indexing::column_first))]
fn add_column(
    lists: &mut Vec<SpotList>,
    numbers: &[u32],
    column: usize,
    spot: Spot,
) -> Result<(), AllocError>
    requires { column < length numbers.now }
    ensures { OnOk result (Grow lists.old.items lists.new.items (λ a.
        one_spot (is_first a column numbers.now) spot)) }
{
    let atom = numbers[column];
    if is_before(numbers, column, atom) {
        return Ok(());
    }
    add_to(lists, atom, spot)?;
    Ok(())
}

/// Adds a tuple to the list of each atom that it has.
#[tactic(auto, using(crate::proofs::Indexing::tuple_none, crate::proofs::Indexing::tuple_more, crate::proofs::Indexing::tuple_all))]
fn add_tuple(lists: &mut Vec<SpotList>, numbers: &[u32], spot: Spot) -> Result<(), AllocError>
    ensures { OnOk result (Grow lists.old.items lists.new.items (λ a.
        one_spot (has_atom a numbers.now) spot)) }
{
    for column in 0..numbers.len() {
        add_column(lists, numbers, column, spot)?;
    }
    Ok(())
}

/// Adds the tuples of a relation.
#[tactic(auto, using(crate::proofs::Indexing::bound_none, crate::proofs::Indexing::bound_all))]
fn add_bound(lists: &mut Vec<SpotList>, bound: &Bound, relation: usize) -> Result<(), AllocError>
    ensures { OnOk result (Grow lists.old.items lists.new.items (λ a.
        spots_in a bound.now.order relation 0 bound.now.upper.tuples)) }
{
    for place in 0..bound.upper.len() {
        let spot = Spot {
            order: bound.order,
            relation,
            place,
        };
        let tuple = bound.upper.tuple(place);
        add_tuple(lists, tuple.numbers(), spot)?;
    }
    Ok(())
}

/// Which relation has each place of the order, 0 where none has.
fn ranked(alloc: Global, relations: &[Bound]) -> Result<Vec<usize>, AllocError>
    ensures { IfOk result (λ v. length v.items ≡ length relations.now) }
{
    let mut all = Vec::new(alloc);
    for _place in 0..relations.len() {
        all.push(0usize)?;
    }
    for relation in 0..relations.len() {
        put_at(&mut all, relations[relation].order, relation);
    }
    Ok(all)
}

/// Puts a number at a place, where there is one.
fn put_at(all: &mut [usize], place: u64, number: usize)
    ensures { length all.new ≡ length all.old }
{
    let at = place as usize;
    if at < all.len() {
        all[at] = number;
    }
}

/// Adds the tuples of the relation of this number, which is to have this place in the order.
#[tactic(auto, using(crate::proofs::Finding::there))]
fn add_relation(
    lists: &mut Vec<SpotList>,
    relations: &[Bound],
    relation: usize,
    order: usize,
) -> Result<(), AllocError>
    ensures { OnOk result ((b : BoundTree) × (slice_get relations.now relation ≡ Some b)
        × (b.order ≡ order)
        × Grow lists.old.items lists.new.items (λ a. spots_in a order relation 0 b.upper.tuples)) }
{
    if relation >= relations.len() {
        return Err(AllocError);
    }
    let bound = &relations[relation];
    if bound.order != order as u64 {
        return Err(AllocError);
    }
    add_bound(lists, bound, relation)?;
    Ok(())
}

/// The tuples of the upper bounds by their atoms, of so many atoms. Where two relations have one
/// place in the order, it is answered as if memory were wanting.
pub fn index_of(alloc: Global, bounds: &Bounds, atoms: usize) -> Result<Vec<SpotList>, AllocError>
    ensures { IsTable bounds.now → IfOk result (λ v. IsIndex bounds.now.relations atoms
        (length bounds.now.relations) v.items) }
{
    let relations = bounds.relations.as_slice();
    let order = ranked(alloc, relations)?;
    let mut lists = no_lists(alloc, atoms)?;
    for place in 0..relations.len() {
        add_relation(&mut lists, relations, order[place], place)?;
    }
    Ok(lists)
}
