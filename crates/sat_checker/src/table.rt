//! The standing clauses by their numbers, the literals of all in one array.
//!
//! No clause has memory of its own, and a number costs a few bytes beside the literals. What is taken
//! out leaves its literals where they are, until they are more than half of the array.

ghost use Rattle.std.specs.Prelude.{◌≡◌, ℕ, ◌+◌, ◌≤◌, ◌++◌, [], None, Some, length, nat_eq};
ghost use Rattle.std.specs.Prelude.{is_some, option_copied, if◌then◌else◌, OnOk, OnErr};
ghost use Rattle.std.specs.Prelude.{vec_len, vec_capacity};
ghost use Rattle.sat_checker.specs.Table.{found, literals_at};

use crate::compact::compact;
use std::alloc::{AllocError, Global};
use std::collections::HashMap;
use std::marker::Model;

/// How many places there are at most, so that each fits in 32 bits.
pub(crate) const PLACES: usize = 4_294_967_295;

/// Where the literals of a clause stand.
#[derive(Clone, Copy, Debug)]
pub(crate) struct Span {
    /// The place of the first one.
    pub first: u32,
    /// The place behind the last one.
    pub end: u32,
}

/// Clauses by their numbers.
#[derive(Drop)]
pub(crate) struct ClauseTable {
    /// Where the literals of each clause stand.
    spans: HashMap<u64, Span>,
    /// The literals of all clauses, and of some that were taken out.
    literals: Vec<i64>,
    /// How many are of clauses that were taken out.
    unused: usize,
}

impl Model for ClauseTable {
    ghost use Rattle.std.specs.Prelude.{ℕ, ℤ, List, length};
    ghost use Rattle.sat_checker.specs.Table.{entries_of, AreWithin};

    ghost Value = { List (ℕ × List ℤ) };

    ghost view = { λ table. entries_of table.literals.items table.spans.entries };

    ghost invariant = { λ table. AreWithin (length table.literals.items) table.spans.entries };
}

/// The literals of a span.
#[inline]
pub(crate) fn literals_of(literals: &[i64], span: Span) -> &[i64]
    requires { (span.first ≤ span.end) × (span.end ≤ length literals.now) }
    ensures { result.now ≡ literals_at literals.now span }
{
    &literals[span.first as usize..span.end as usize]
}

/// Adds literals at the end of a vector that has room for them.
fn extend_in_room(items: &mut Vec<i64>, more: &[i64])
    requires { vec_len items.old + length more.now ≤ vec_capacity items.old }
    ensures { items.new.items ≡ items.old.items ++ more.now }
{
    if items.extend_from_slice(more).is_err() {
        unreachable!();
    }
}

impl ClauseTable {
    /// No clause.
    pub fn new(alloc: Global) -> ClauseTable
        ensures { result ≡ [] }
    {
        ClauseTable {
            spans: HashMap::new(alloc),
            literals: Vec::new(alloc),
            unused: 0,
        }
    }

    /// The literals of the clause of a number, if it stands.
    #[inline]
    pub fn get(&self, id: u64) -> Option<&[i64]>
        ensures { option_copied result ≡ found self.now id }
    {
        match self.spans.get(&id) {
            Some(span) => Some(literals_of(&self.literals, *span)),
            None => None,
        }
    }

    /// Whether a clause stands under a number.
    #[inline]
    pub fn has(&self, id: u64) -> bool
        ensures { result ≡ is_some (found self.now id) }
    {
        self.spans.contains_key(&id)
    }

    /// Puts a clause under a number. The only error is want of memory, which is also that a place
    /// doesn't fit in 32 bits; all is then as before.
    pub fn insert(&mut self, id: u64, literals: &[i64]) -> Result<(), AllocError>
        ensures put { OnOk result ((other : ℕ) → found self.new other
            ≡ (if nat_eq id other then Some literals.now else found self.old other)) }
        ensures err { OnErr result (self.new ≡ self.old) }
    {
        let first = self.literals.len();
        if literals.len() > PLACES || first > PLACES - literals.len() {
            return Err(AllocError);
        }
        let end = first + literals.len();
        self.literals.reserve(literals.len())?;
        let span = Span {
            first: first as u32,
            end: end as u32,
        };
        self.spans.insert(id, span)?;
        extend_in_room(&mut self.literals, literals);
        Ok(())
    }

    /// Takes out the clause of a number.
    pub fn remove(&mut self, id: u64)
        ensures { (other : ℕ) → found self.new other
            ≡ (if nat_eq id other then None else found self.old other) }
    {
        let Some(span) = self.spans.remove(&id) else {
            return;
        };
        let size = span.end.saturating_sub(span.first);
        let unused = self.unused.saturating_add(size as usize);
        self.unused = compact(&mut self.spans, &mut self.literals, unused);
    }
}
