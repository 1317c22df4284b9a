//! The index: its entries come, are looked for, and leave.

ghost use Rattle.std.specs.Prelude.{◌≡◌, ℕ, ◌+◌, ◌-◌, ◌*◌, ◌<◌, ◌≤◌, ◌^◌, ◌⊎◌, ◌++◌, ◌∷◌, [], Some, length, slice_index, slice_set, IsTrue, IfSome, IfNone, IfOk, OnOk};
ghost use Rattle.std.specs.List.{All, Contains, remove};
ghost use Rattle.sat_trail.specs.Literal.{IsLiteral};
ghost use Rattle.sat_trail.specs.State.{clause_at};
ghost use Rattle.sat_dropped.specs.Part.{IsPart, HasSlot, signature_of};
ghost use Rattle.sat_dropped.specs.Entries.{list_at, HasEntry, entry_count, IsFiled, AreFiled};

use crate::find::{Spot, find};
use crate::list::{NumberList, no_lists, numbers_at, push_at, take_at};
use crate::part::{keep_places, kept_signature, signature, slot};
use sat_trail::{Trail, literal_at};
use std::alloc::{AllocError, Global};
use std::marker::Model;

/// How many numbers there are in the list of a literal.
#[inline]
fn len_at(numbers: &[NumberList], literal: i64) -> usize
    requires { HasSlot (length numbers.now) literal }
{
    numbers_at(numbers, slot(literal)).len()
}

/// The place of that of some literals whose list is shortest.
fn shortest(numbers: &[NumberList], literals: &[i32]) -> usize
    requires some { 0 < length literals.now }
    requires slots { All (HasSlot (length numbers.now)) literals.now }
    ensures { result < length literals.now }
{
    let mut best = 0;
    for place in 1..literals.len() {
        if len_at(numbers, literal_at(literals, place))
            < len_at(numbers, literal_at(literals, best))
        {
            best = place;
        }
    }
    best
}

/// The dropped lemmas of a search, by their numbers, in lists that are asked for those that a clause contains.
#[derive(Drop)]
pub struct Dropped {
    /// How many variables there are.
    variables: usize,
    /// Whether the lists and places are made; before the first entry there are none.
    is_open: bool,
    /// For each literal the signatures of the lemmas in its list.
    signatures: Vec<NumberList>,
    /// For each literal the numbers of these lemmas, in the same order.
    numbers: Vec<NumberList>,
    /// For each literal a place, which is where it stands in the clause that was asked for last if it does.
    places: Vec<usize>,
    /// How many entries there are.
    count: usize,
}

impl Model for Dropped {
    ghost use Rattle.sat_dropped.specs.Entries.{Entries};

    ghost Value = { Entries };

    ghost use Rattle.sat_dropped.specs.Kept.{entries_of, IsIndex};

    ghost view = { entries_of };

    ghost invariant = { IsIndex };
}

impl Dropped {
    /// No entry, over so many variables. The only error is want of memory, which is also that the literals are too many to
    /// have lists.
    pub fn new(alloc: Global, variables: usize) -> Result<Dropped, AllocError>
        ensures variables { IfOk result (λ d. d.variables ≡ variables) }
        ensures none { IfOk result (λ d. (c : ℕ) → (list_at d.signatures c ≡ [])
            × (list_at d.numbers c ≡ [])) }
    {
        if variables > usize::MAX / 4 {
            return Err(AllocError);
        }
        Ok(Dropped {
            variables,
            is_open: false,
            signatures: Vec::new(alloc),
            numbers: Vec::new(alloc),
            places: Vec::new(alloc),
            count: 0,
        })
    }

    /// No entry, with a list for each literal over so many variables. The only error is want of memory.
    fn opened(alloc: Global, variables: usize) -> Result<Dropped, AllocError>
        requires { variables < 2 ^ 62 }
        ensures variables { IfOk result (λ d. d.variables ≡ variables) }
        ensures none { IfOk result (λ d. (c : ℕ) → (list_at d.signatures c ≡ [])
            × (list_at d.numbers c ≡ [])) }
        ensures room { IfOk result (λ d. 2 * variables < length d.numbers) }
    {
        let count = 2 * variables + 1;
        Ok(Dropped {
            variables,
            is_open: true,
            signatures: no_lists(alloc, count)?,
            numbers: no_lists(alloc, count)?,
            places: vec![in alloc; 0; count]?,
            count: 0,
        })
    }

    /// Makes the lists, unless they are there. The only error is want of memory.
    fn open(&mut self) -> Result<(), AllocError>
        ensures variables { self.new.variables ≡ self.old.variables }
        ensures room { OnOk result (2 * self.new.variables < length self.new.numbers) }
        ensures same { (c : ℕ) → (list_at self.new.signatures c ≡ list_at self.old.signatures c)
            × (list_at self.new.numbers c ≡ list_at self.old.numbers c) }
    {
        if self.is_open {
            return Ok(());
        }
        let opened = Dropped::opened(*self.numbers.allocator(), self.variables)?;
        *self = opened;
        Ok(())
    }

    /// How many entries there are.
    pub fn len(&self) -> usize
        ensures count { result ≡ entry_count self.now }
        ensures fits { entry_count self.now < 2 ^ 64 }
    {
        self.count
    }

    /// Adds an entry at the end of a list.
    fn file(&mut self, list: usize, signature: u64, number: u64) -> Result<(), AllocError>
        requires { list < length self.old.numbers }
        ensures variables { self.new.variables ≡ self.old.variables }
        ensures signatures { OnOk result (self.new.signatures ≡ slice_set self.old.signatures list
            (list_at self.old.signatures list ++ signature ∷ [])) }
        ensures numbers { OnOk result (self.new.numbers ≡ slice_set self.old.numbers list
            (list_at self.old.numbers list ++ number ∷ [])) }
        ensures list { OnOk result ((list < length self.old.signatures)
            × (list < length self.old.numbers)) }
    {
        if self.count == usize::MAX {
            return Err(AllocError);
        }
        push_at(&mut self.signatures, list, signature)?;
        push_at(&mut self.numbers, list, number)?;
        self.count += 1;
        Ok(())
    }

    /// As `add`, where the lists are made.
    fn enter(&mut self, trail: &Trail, number: u64) -> Result<bool, AllocError>
        requires room { 2 * self.old.variables < length self.old.numbers }
        requires variables { self.old.variables ≡ trail.now.variables }
        requires number { (0 < number) × (number ≤ length trail.now.ends) }
        requires filed { AreFiled trail.now self.old.signatures self.old.numbers }
        ensures variables { self.new.variables ≡ self.old.variables }
        ensures filed { OnOk result (AreFiled trail.now self.new.signatures self.new.numbers) }
        ensures kept { OnOk result ((n : ℕ) → HasEntry self.old n → HasEntry self.new n) }
        ensures added { IfOk result (λ is_added. IsTrue is_added → HasEntry self.new number) }
    {
        let literals = trail.clause(number);
        if literals.is_empty() {
            return Ok(false);
        }
        let list = slot(literal_at(literals, shortest(&self.numbers, literals)));
        self.file(list, kept_signature(literals), number)?;
        Ok(true)
    }

    /// Adds an entry of a clause, unless that is empty, and tells whether it did. The only error is want of memory.
    pub fn add(&mut self, trail: &Trail, number: u64) -> Result<bool, AllocError>
        requires variables { self.old.variables ≡ trail.now.variables }
        requires number { (0 < number) × (number ≤ length trail.now.ends) }
        requires filed { AreFiled trail.now self.old.signatures self.old.numbers }
        ensures variables { self.new.variables ≡ self.old.variables }
        ensures filed { OnOk result (AreFiled trail.now self.new.signatures self.new.numbers) }
        ensures kept { OnOk result ((n : ℕ) → HasEntry self.old n → HasEntry self.new n) }
        ensures added { IfOk result (λ is_added. IsTrue is_added → HasEntry self.new number) }
    {
        self.open()?;
        let is_added = self.enter(trail, number)?;
        Ok(is_added)
    }

    /// Takes out an entry of a list, and gives its number.
    fn take_out(&mut self, spot: Spot) -> u64
        requires list { spot.list < length self.old.numbers }
        requires beside { length (list_at self.old.signatures spot.list)
            ≡ length (list_at self.old.numbers spot.list) }
        requires number { spot.at < length (list_at self.old.numbers spot.list) }
        ensures number { result ≡ slice_index (list_at self.old.numbers spot.list) spot.at }
        ensures variables { self.new.variables ≡ self.old.variables }
        ensures signatures { self.new.signatures ≡ slice_set self.old.signatures spot.list
            (remove (list_at self.old.signatures spot.list) spot.at) }
        ensures numbers { self.new.numbers ≡ slice_set self.old.numbers spot.list
            (remove (list_at self.old.numbers spot.list) spot.at) }
        ensures count { entry_count self.new + 1 ≡ entry_count self.old }
    {
        take_at(&mut self.signatures, spot.list, spot.at);
        let number = take_at(&mut self.numbers, spot.list, spot.at);
        self.count -= 1;
        number
    }

    /// Looks for an entry whose clause has all of its literals among some, and takes it out.
    ///
    /// It gives the number of the clause, or none where no entry is such a one.
    pub fn take_part(&mut self, trail: &Trail, literals: &[i64]) -> Option<u64>
        requires variables { self.old.variables ≡ trail.now.variables }
        requires literals { All (IsLiteral trail.now.variables) literals.now }
        requires filed { AreFiled trail.now self.old.signatures self.old.numbers }
        ensures variables { self.new.variables ≡ self.old.variables }
        ensures filed { AreFiled trail.now self.new.signatures self.new.numbers }
        ensures part { IfSome result (λ n. (0 < n) × (n ≤ length trail.now.ends)
            × HasEntry self.old n × IsPart (clause_at trail.now (n - 1)) literals.now) }
        ensures fewer { IfSome result (λ n. entry_count self.new + 1 ≡ entry_count self.old) }
        ensures others { (n : ℕ) → HasEntry self.old n → HasEntry self.new n
            ⊎ (result ≡ Some n) }
        ensures none { IfNone result ((n : ℕ) → HasEntry self.old n →
            IsPart (clause_at trail.now (n - 1)) literals.now → ⊥) }
        ensures same { IfNone result (self.new ≡ self.old) }
    {
        if !self.is_open {
            return None;
        }
        keep_places(&mut self.places, literals);
        let bits = signature(literals);
        match find(
            trail,
            &self.places,
            literals,
            bits,
            &self.signatures,
            &self.numbers,
        ) {
            Some(spot) => Some(self.take_out(spot)),
            None => None,
        }
    }
}
