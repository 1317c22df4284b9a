//! Clauses and lists of clauses, which contracts see as lists of literals.

ghost use Rattle.std.specs.Prelude.{◌≡◌, ◌==◌, ◌<◌, ◌++◌, ◌∷◌, [], length, slice_get, is_ok, if◌then◌else◌, All, IfOk, Some};
ghost use Rattle.sat_dimacs.specs.Literal.{IsLiteral};

use std::alloc::{AllocError, Global};
use std::marker::Model;

/// A clause, as the list of its literals.
///
/// A literal is the number of a variable, or that number negated. It is not 0, and its magnitude is below 2^63.
#[derive(Debug, Drop)]
pub struct Clause {
    literals: Vec<i64>,
}

impl Model for Clause {
    ghost use Rattle.std.specs.Prelude.{List, ℤ, All};
    ghost use Rattle.sat_dimacs.specs.Literal.{IsLiteral};

    ghost Value = { List ℤ };

    ghost view = { λ clause. clause.literals.items };

    ghost invariant = { λ clause. All IsLiteral clause.literals.items };
}

impl Clause {
    /// The empty clause.
    pub fn new(alloc: Global) -> Self
        ensures { result ≡ [] }
    {
        Clause {
            literals: Vec::new(alloc),
        }
    }

    /// Adds a literal at the end.
    pub fn push(&mut self, item: i64) -> Result<(), AllocError>
        requires { IsLiteral item }
        ensures { self.new ≡ (if is_ok result then self.old ++ item ∷ [] else self.old) }
    {
        self.literals.push(item)?;
        Ok(())
    }

    /// How many literals there are.
    pub fn len(&self) -> usize
        ensures { result ≡ length self.now }
    {
        self.literals.len()
    }

    /// Whether there is no literal.
    pub fn is_empty(&self) -> bool
        ensures { result ≡ (length self.now == 0) }
    {
        self.literals.is_empty()
    }

    /// The literal at a place.
    pub fn get(&self, place: usize) -> &i64
        requires { place < length self.now }
        ensures { slice_get self.now place ≡ Some result.now }
    {
        &self.literals[place]
    }

    /// The literals in order.
    pub fn literals(&self) -> &[i64]
        ensures value { result.now ≡ self.now }
        ensures literals { All IsLiteral result.now }
    {
        &self.literals
    }

    /// An equal clause.
    pub fn copy(&self, alloc: Global) -> Result<Self, AllocError>
        ensures { IfOk result (λ clause. clause ≡ self.now) }
    {
        let literals = Vec::from_slice(alloc, &self.literals)?;
        Ok(Clause { literals })
    }
}

/// A list of clauses.
#[derive(Debug, Drop)]
pub struct ClauseList {
    clauses: Vec<Clause>,
}

impl Model for ClauseList {
    ghost use Rattle.std.specs.Prelude.{List, ℤ};

    ghost Value = { List (List ℤ) };

    ghost view = { λ list. list.clauses.items };
}

impl ClauseList {
    /// The empty list.
    pub fn new(alloc: Global) -> Self
        ensures { result ≡ [] }
    {
        ClauseList {
            clauses: Vec::new(alloc),
        }
    }

    /// Adds a clause at the end.
    pub fn push(&mut self, item: Clause) -> Result<(), AllocError>
        ensures { self.new ≡ (if is_ok result then self.old ++ item ∷ [] else self.old) }
    {
        self.clauses.push(item)?;
        Ok(())
    }

    /// How many clauses there are.
    pub fn len(&self) -> usize
        ensures { result ≡ length self.now }
    {
        self.clauses.len()
    }

    /// The clause at a place.
    pub fn get(&self, place: usize) -> &Clause
        requires { place < length self.now }
        ensures { slice_get self.now place ≡ Some result.now }
    {
        &self.clauses[place]
    }

    /// The clauses in order.
    pub fn clauses(&self) -> &[Clause]
        ensures { result.now ≡ self.now }
    {
        &self.clauses
    }
}
