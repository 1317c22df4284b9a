//! Lines of a refutation, lists of them, and what a clause has beside false literals.

ghost use Rattle.std.specs.Prelude.{◌≡◌, ◌==◌, ◌<◌, ◌++◌, ◌∷◌, [], length, reverse, slice_get, take, is_ok, if◌then◌else◌, IfNone, IfSome, Some};

use sat_dimacs::Clause;
use smallvec::SmallVec;
use std::alloc::{AllocError, Global};
use std::marker::Model;

/// A list of clause numbers: the hints of a lemma, or what a line deletes.
#[derive(Debug, Drop)]
pub struct Hints {
    numbers: SmallVec<u64, 8>,
}

impl Model for Hints {
    ghost use Rattle.std.specs.Prelude.{List, ℕ};

    ghost Value = { List ℕ };

    ghost view = { λ hints. hints.numbers.items };
}

impl Hints {
    /// The empty list.
    pub fn new(alloc: Global) -> Self
        ensures { result ≡ [] }
    {
        Hints {
            numbers: SmallVec::new(alloc),
        }
    }

    /// Adds a number at the end.
    pub fn push(&mut self, item: u64) -> Result<(), AllocError>
        ensures { self.new ≡ (if is_ok result then self.old ++ item ∷ [] else self.old) }
    {
        self.numbers.push(item)?;
        Ok(())
    }

    /// How many numbers there are.
    pub fn len(&self) -> usize
        ensures { result ≡ length self.now }
    {
        self.numbers.len()
    }

    /// Whether there is no number.
    pub fn is_empty(&self) -> bool
        ensures { result ≡ (length self.now == 0) }
    {
        self.numbers.len() == 0
    }

    /// The number at a place.
    pub fn get(&self, place: usize) -> &u64
        requires { place < length self.now }
        ensures { slice_get self.now place ≡ Some result.now }
    {
        &self.numbers.as_slice()[place]
    }

    /// The numbers in order.
    pub fn numbers(&self) -> &[u64]
        ensures { result.now ≡ self.now }
    {
        self.numbers.as_slice()
    }
}

/// A line of a refutation.
#[derive(Debug, Drop)]
pub enum Line {
    /// A clause that follows from the standing ones by unit propagation. `id` is its number from then on, and the
    /// hints are the numbers of the clauses that show it: each but the last becomes unit in turn, and the last false.
    Lemma {
        id: u64,
        clause: Clause,
        hints: Hints,
    },
    /// The numbers of clauses that do not stand any more from then on.
    Delete {
        ids: Hints,
    },
}

/// What a clause has beside false literals, where a literal that is written twice counts once.
#[derive(Clone, Copy, Debug, PartialEq, Eq)]
pub enum Rest {
    /// Nothing: the clause is false.
    Nothing,
    /// This one literal.
    One(i64),
    /// Two different literals or more.
    Several,
}

/// A list of lines.
#[derive(Debug, Drop)]
pub struct LineList {
    lines: Vec<Line>,
}

impl Model for LineList {
    ghost use Rattle.std.specs.Prelude.{List};
    ghost use Rattle.sat_lrat.specs.declared.line.Line.{Line};

    ghost Value = { List Line };

    ghost view = { λ list. list.lines.items };
}

impl LineList {
    /// The empty list.
    pub fn new(alloc: Global) -> Self
        ensures { result ≡ [] }
    {
        LineList {
            lines: Vec::new(alloc),
        }
    }

    /// Adds a line at the end.
    pub fn push(&mut self, item: Line) -> Result<(), AllocError>
        ensures { self.new ≡ (if is_ok result then self.old ++ item ∷ [] else self.old) }
    {
        self.lines.push(item)?;
        Ok(())
    }

    /// Takes the last line off, if there is one.
    pub fn pop(&mut self) -> Option<Line>
        ensures some { IfSome result (λ line. self.old ≡ self.new ++ line ∷ []) }
        ensures none { IfNone result ((self.old ≡ []) × (self.new ≡ [])) }
    {
        self.lines.pop()
    }

    /// Lets go of the lines behind so many.
    pub fn truncate(&mut self, count: usize)
        ensures { self.new ≡ take count self.old }
    {
        self.lines.truncate(count);
    }

    /// Turns the order of the lines.
    pub fn reverse(&mut self)
        ensures { self.new ≡ reverse self.old }
    {
        self.lines.reverse();
    }

    /// How many lines there are.
    pub fn len(&self) -> usize
        ensures { result ≡ length self.now }
    {
        self.lines.len()
    }

    /// The line at a place.
    pub fn get(&self, place: usize) -> &Line
        requires { place < length self.now }
        ensures { slice_get self.now place ≡ Some result.now }
    {
        &self.lines[place]
    }

    /// The lines in order.
    pub fn lines(&self) -> &[Line]
        ensures { result.now ≡ self.now }
    {
        &self.lines
    }
}
