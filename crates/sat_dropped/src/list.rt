//! Lists of numbers, and how one of several changes.

ghost use Rattle.std.specs.Prelude.{◌≡◌, ◌<◌, ◌++◌, ◌∷◌, [], length, replicate, is_ok, if◌then◌else◌, slice_index, slice_set, IfOk, OnOk, OnErr};
ghost use Rattle.std.specs.List.{remove};
ghost use Rattle.sat_dropped.specs.Entries.{list_at};

use std::alloc::{AllocError, Global};
use std::marker::Model;

/// A list of numbers.
#[derive(Drop)]
pub(crate) struct NumberList {
    items: Vec<u64>,
}

impl Model for NumberList {
    ghost use Rattle.std.specs.Prelude.{List, ℕ};

    ghost Value = { List ℕ };

    ghost view = { λ list. list.items.items };
}

impl NumberList {
    /// The empty list.
    pub fn new(alloc: Global) -> NumberList
        ensures { result ≡ [] }
    {
        NumberList {
            items: Vec::new(alloc),
        }
    }

    /// The numbers in order.
    #[inline]
    pub fn numbers(&self) -> &[u64]
        ensures { result.now ≡ self.now }
    {
        self.items.as_slice()
    }

    /// Adds a number at the end.
    pub fn push(&mut self, number: u64) -> Result<(), AllocError>
        ensures { self.new ≡ (if is_ok result then self.old ++ number ∷ [] else self.old) }
    {
        self.items.push(number)?;
        Ok(())
    }

    /// Takes out the number at a place.
    pub fn take_out(&mut self, place: usize) -> u64
        requires { place < length self.old }
        ensures number { result ≡ slice_index self.old place }
        ensures rest { self.new ≡ remove self.old place }
    {
        self.items.remove(place)
    }
}

/// So many empty lists.
pub(crate) fn no_lists(alloc: Global, count: usize) -> Result<Vec<NumberList>, AllocError>
    ensures { IfOk result (λ lists. lists.items ≡ replicate count []) }
{
    let mut lists = Vec::with_capacity(alloc, count)?;
    for _place in 0..count {
        lists.push(NumberList::new(alloc))?;
    }
    Ok(lists)
}

/// The numbers of a list.
#[inline]
pub(crate) fn numbers_at(lists: &[NumberList], place: usize) -> &[u64]
    requires { place < length lists.now }
    ensures { result.now ≡ list_at lists.now place }
{
    lists[place].numbers()
}

/// Adds a number at the end of a list.
pub(crate) fn push_at(
    lists: &mut Vec<NumberList>,
    place: usize,
    number: u64,
) -> Result<(), AllocError>
    requires { place < length lists.old.items }
    ensures ok { OnOk result (lists.new.items
        ≡ slice_set lists.old.items place (list_at lists.old.items place ++ number ∷ [])) }
    ensures err { OnErr result (lists.new.items ≡ lists.old.items) }
{
    lists[place].push(number)?;
    Ok(())
}

/// Takes a number out of a list.
pub(crate) fn take_at(lists: &mut Vec<NumberList>, place: usize, at: usize) -> u64
    requires list { place < length lists.old.items }
    requires number { at < length (list_at lists.old.items place) }
    ensures number { result ≡ slice_index (list_at lists.old.items place) at }
    ensures rest { lists.new.items
        ≡ slice_set lists.old.items place (remove (list_at lists.old.items place) at) }
{
    lists[place].take_out(at)
}
