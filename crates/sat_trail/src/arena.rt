//! The arena holds the literals of all clauses in one array, and no clause has memory of its own.

ghost use Rattle.std.specs.Prelude.{◌≡◌, ℕ, ◌+◌, ◌<◌, ◌≤◌, ◌^◌, ◌++◌, ◌∷◌, [], length, slice_index, vec_len, vec_capacity, OnOk};
ghost use Rattle.std.specs.List.{All};
ghost use Rattle.sat_trail.specs.Literal.{IsLiteral};
ghost use Rattle.sat_trail.specs.Assignment.{value_at};
ghost use Rattle.sat_trail.specs.Watched.{start_of, IsArena};

use crate::literal::{push_literals, wide};
use sat_lists::push_in_room;
use std::alloc::{AllocError, Global};

/// How many places there are at most, so that each fits in 32 bits.
const PLACES: usize = 4_294_967_296;

/// The literals of all clauses, one clause after another, and where each clause ends.
#[derive(Drop)]
pub struct Arena {
    /// The literals of all clauses.
    pub literals: Vec<i32>,
    /// The place behind the last literal of each clause.
    pub ends: Vec<u32>,
    /// How many variables there are.
    pub variables: usize,
    ghost in_order: { IsArena literals.items ends.items variables },
    ghost small: { variables < 2 ^ 31 },
    ghost fits: { length literals.items < 2 ^ 32 },
}

impl Arena {
    /// No clause, over so many variables.
    pub fn new(alloc: Global, variables: usize) -> Arena
        requires { variables < 2 ^ 31 }
        ensures literals { result.literals.items ≡ [] }
        ensures ends { result.ends.items ≡ [] }
        ensures variables { result.variables ≡ variables }
    {
        Arena {
            literals: Vec::new(alloc),
            ends: Vec::new(alloc),
            variables,
        }
    }

    /// Where a clause begins.
    #[inline]
    pub fn start(&self, clause: usize) -> usize
        requires { clause < length self.now.ends.items }
        ensures { result ≡ start_of self.now.ends.items clause }
    {
        if clause == 0 {
            0
        } else {
            self.ends[clause - 1] as usize
        }
    }

    /// The literal at a place.
    #[inline]
    pub fn literal_at(&self, place: usize) -> i64
        requires { place < length self.now.literals.items }
        ensures { result ≡ value_at self.now.literals.items place }
    {
        wide(&self.literals[place])
    }

    /// Makes room for a clause of so many literals. The only error is want of memory, which is also that a place doesn't
    /// fit in 32 bits.
    pub fn reserve(&mut self, more: usize) -> Result<(), AllocError>
        ensures literals { self.new.literals.items ≡ self.old.literals.items }
        ensures ends { self.new.ends.items ≡ self.old.ends.items }
        ensures variables { self.new.variables ≡ self.old.variables }
        ensures room { OnOk result ((vec_len self.new.literals + more
            ≤ vec_capacity self.new.literals) × (vec_len self.new.ends
            < vec_capacity self.new.ends)) }
        ensures fits { OnOk result (length self.new.literals.items + more < 2 ^ 32) }
    {
        let len = self.literals.len();
        if more >= PLACES || len >= PLACES - more {
            return Err(AllocError);
        }
        self.literals.reserve(more)?;
        self.ends.reserve(1)?;
        Ok(())
    }

    /// Adds a clause, for which there is room.
    pub fn push(&mut self, clause: &[i64])
        requires literals { All (IsLiteral self.old.variables) clause.now }
        requires room { (vec_len self.old.literals + length clause.now
            ≤ vec_capacity self.old.literals) × (vec_len self.old.ends
            < vec_capacity self.old.ends) }
        requires fits { length self.old.literals.items + length clause.now < 2 ^ 32 }
        ensures literals { self.new.literals.items ≡ self.old.literals.items ++ clause.now }
        ensures ends { self.new.ends.items ≡ self.old.ends.items
            ++ length self.new.literals.items ∷ [] }
        ensures variables { self.new.variables ≡ self.old.variables }
    {
        push_literals(&mut self.literals, clause, self.variables);
        let end = self.literals.len() as u32;
        push_in_room(&mut self.ends, end);
    }
}
