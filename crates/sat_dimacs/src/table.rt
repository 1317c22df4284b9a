//! The table of a set of clauses: what its variables stand for, a row of text each.

ghost use Rattle.std.specs.Prelude.{◌≡◌, ◌<◌, ◌++◌, ◌∷◌, [], length, slice_get, is_ok, if◌then◌else◌, Some, IsTrue, not};
ghost use Rattle.sat_dimacs.specs.Text.{has_feed};

use std::alloc::{AllocError, Global};
use std::marker::Model;

/// Whether a line feed stands somewhere in a text, so that it is no row.
pub fn has_feed(text: &[u8]) -> bool
    ensures { result ≡ has_feed text.now }
{
    text.iter().any(|byte| *byte == b'\n')
}

/// A row of a table: the text of a comment, without the letter `c`, the blank behind it and the line feed.
#[derive(Debug, Drop)]
pub struct Row {
    text: Vec<u8>,
}

impl Model for Row {
    ghost use Rattle.std.specs.Prelude.{List, ℕ, IsTrue, not};
    ghost use Rattle.sat_dimacs.specs.Text.{has_feed};

    ghost Value = { List ℕ };

    ghost view = { λ row. row.text.items };

    ghost invariant = { λ row. IsTrue (not (has_feed row.text.items)) };
}

impl Row {
    /// The row of a text. `has_feed` is the test of its condition.
    pub fn new(text: Vec<u8>) -> Self
        requires { IsTrue (not (has_feed text.items)) }
        ensures { result ≡ text.items }
    {
        Row { text }
    }

    /// The text.
    pub fn text(&self) -> &[u8]
        ensures text { result.now ≡ self.now }
        ensures row { IsTrue (not (has_feed result.now)) }
    {
        &self.text
    }
}

/// What the variables of a set of clauses stand for: a row each, which is written as a comment before the header.
#[derive(Debug, Drop)]
pub struct Table {
    rows: Vec<Row>,
}

impl Model for Table {
    ghost use Rattle.std.specs.Prelude.{List, ℕ};

    ghost Value = { List (List ℕ) };

    ghost view = { λ table. table.rows.items };
}

impl Table {
    /// The empty table.
    pub fn new(alloc: Global) -> Self
        ensures { result ≡ [] }
    {
        Table {
            rows: Vec::new(alloc),
        }
    }

    /// Adds a row at the end.
    pub fn push(&mut self, item: Row) -> Result<(), AllocError>
        ensures { self.new ≡ (if is_ok result then self.old ++ item ∷ [] else self.old) }
    {
        self.rows.push(item)?;
        Ok(())
    }

    /// How many rows there are.
    pub fn len(&self) -> usize
        ensures { result ≡ length self.now }
    {
        self.rows.len()
    }

    /// The row at a place.
    pub fn get(&self, place: usize) -> &Row
        requires { place < length self.now }
        ensures { slice_get self.now place ≡ Some result.now }
    {
        &self.rows[place]
    }

    /// The rows in order.
    pub fn rows(&self) -> &[Row]
        ensures { result.now ≡ self.now }
    {
        &self.rows
    }
}
