//! The declarations of an instance, with the places at which each name is found among them.

ghost use Rattle.std.specs.Prelude.{◌≡◌, ◌<◌, ◌++◌, ℕ, List, [], None, Some, length, replicate, slice_get, if◌then◌else◌, IfOk, OnOk};
ghost use Rattle.std.specs.List.{filter_map, cons_option};
ghost use Rattle.std.specs.Str.{bytes_eq};
ghost use Rattle.indexmap.specs.IndexMap.{get_by_text};
ghost use Rattle.resolve_names.specs.declared.table.Declared.{Declared as DeclaredName};
ghost use Rattle.resolve_names.specs.Lookup.{seen_in};
ghost use Rattle.resolve_names.specs.Indexed.{first_place, IsChained, IsIndexed};

use crate::lookup::{add_some, seen_one};
use crate::table::{Decl, Declared};
use base_lists::Items;
use indexmap::IndexMap;
use std::alloc::{AllocError, Global};
use std::marker::Model;

/// The declarations of an instance in text order. Contracts see these alone.
#[derive(Drop)]
pub struct DeclaredList {
    list: Items<Declared>,
    /// The place of the first declaration of each name.
    first: IndexMap<String, usize>,
    /// For each declaration the place of the next one of its name.
    next: Vec<Option<usize>>,
}

impl Model for DeclaredList {
    ghost use Rattle.std.specs.Prelude.{List};
    ghost use Rattle.indexmap.specs.IndexMap.{get_by_text};
    ghost use Rattle.resolve_names.specs.declared.table.Declared.{Declared as DeclaredName};
    ghost use Rattle.resolve_names.specs.Indexed.{IsIndexed};

    ghost Value = { List DeclaredName };

    ghost view = { λ d. d.list };

    ghost invariant = { λ d. IsIndexed d.list 0 (get_by_text d.first) d.next.items };
}

/// The places at which names are found.
#[derive(Drop)]
struct Places {
    first: IndexMap<String, usize>,
    next: Vec<Option<usize>>,
}

/// No next place, so many times.
fn no_next(alloc: Global, count: usize) -> Result<Vec<Option<usize>>, AllocError>
    ensures { IfOk result (λ next. length next.items ≡ count) }
{
    let mut next = Vec::new(alloc);
    for _ in 0..count {
        next.push(None)?;
    }
    Ok(next)
}

/// Puts the place of a name; the answer is the place that it had.
fn put(
    alloc: Global,
    name: &str,
    place: usize,
    first: &mut IndexMap<String, usize>,
) -> Result<Option<usize>, AllocError>
    ensures old { IfOk result (λ old. old ≡ get_by_text first.old name.now) }
    ensures put { OnOk result ((q : List ℕ) → get_by_text first.new q
        ≡ (if bytes_eq name.now q then Some place else get_by_text first.old q)) }
{
    let key = String::from_str(alloc, name)?;
    let old = first.insert(key, place)?;
    Ok(old)
}

/// The places of the names of the declarations, from the last one on.
fn places_of(alloc: Global, list: &[Declared]) -> Result<Places, AllocError>
    ensures { IfOk result (λ p. IsIndexed list.now 0 (get_by_text p.first) p.next.items) }
{
    let mut first = IndexMap::new(alloc);
    let mut next = no_next(alloc, list.len())?;
    for back in 0..list.len() {
        let place = list.len() - 1 - back;
        let later = put(alloc, list[place].name.text(), place, &mut first)?;
        next[place] = later;
    }
    Ok(Places { first, next })
}

/// Adds the declaration at a place, where it is seen; the answer is the next place of its name.
fn add_one(
    list: &[Declared],
    next: &[Option<usize>],
    place: usize,
    is_own: bool,
    name: &str,
    all: &mut Vec<Decl>,
) -> Result<Option<usize>, AllocError>
    requires within { place < length list.now }
    requires every { length next.now ≡ length list.now }
    ensures taken { IfOk result (λ later. slice_get next.now place ≡ Some later) }
    ensures added { OnOk result ((d : DeclaredName) → slice_get list.now place ≡ Some d
        → all.new.items ≡ all.old.items ++ cons_option (seen_in is_own name.now d) []) }
{
    let later = next[place];
    add_some(all, seen_one(&list[place], is_own, name))?;
    Ok(later)
}

/// Adds the declarations of a name that are seen, from its first place on.
fn add_chain(
    list: &[Declared],
    next: &[Option<usize>],
    start: Option<usize>,
    is_own: bool,
    name: &str,
    all: &mut Vec<Decl>,
) -> Result<(), AllocError>
    requires chained { IsChained list.now 0 next.now }
    requires start { start ≡ first_place name.now 0 list.now }
    ensures { OnOk result (all.new.items ≡ all.old.items
        ++ filter_map (seen_in is_own name.now) list.now) }
{
    let mut at = start;
    for _step in 0..list.len() {
        match at {
            None => return Ok(()),
            Some(place) => {
                at = add_one(list, next, place, is_own, name, all)?;
            }
        }
    }
    Ok(())
}

impl DeclaredList {
    /// No declaration.
    pub fn empty(alloc: Global) -> DeclaredList
        ensures { result ≡ [] }
    {
        DeclaredList {
            list: Items::new(alloc),
            first: IndexMap::new(alloc),
            next: Vec::new(alloc),
        }
    }

    /// These declarations.
    pub fn new(alloc: Global, list: Items<Declared>) -> Result<DeclaredList, AllocError>
        ensures { IfOk result (λ d. d ≡ list) }
    {
        let places = places_of(alloc, list.as_slice())?;
        let Places { first, next } = places;
        Ok(DeclaredList { list, first, next })
    }

    /// Adds the declarations of a name that are seen, in order.
    pub fn add_seen(&self, is_own: bool, name: &str, all: &mut Vec<Decl>) -> Result<(), AllocError>
        ensures { OnOk result (all.new.items ≡ all.old.items
            ++ filter_map (seen_in is_own name.now) self.now) }
    {
        let start = self.first.get(name).copied();
        let next = self.next.as_slice();
        add_chain(self.list.as_slice(), next, start, is_own, name, all)?;
        Ok(())
    }
}
