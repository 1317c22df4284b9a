//! Literals that a conflict analysis has met: a list, and a mark for each variable that is in it.

ghost use Rattle.std.specs.Prelude.{◌≡◌, ℕ, ◌+◌, ◌-◌, ◌<◌, ◌≤◌, ◌↔◌, ◌++◌, ◌∷◌, [], length, take, IfOk, OnOk, IsTrue};
ghost use Rattle.std.specs.List.{All};
ghost use Rattle.sat_trail.specs.Literal.{IsLiteral};
ghost use Rattle.sat_trail.specs.Literal as spec;
ghost use Rattle.sat_trail.specs.Assignment.{value_at};
ghost use Rattle.sat_trail.specs.Reasons.{AreApart};
ghost use Rattle.sat_analysis.specs.Noted.{HasVariable};

use sat_trail::index;
use std::alloc::{AllocError, Global};
use std::marker::Model;

/// Literals that were noted, at most one of each variable, in the order in which they were.
#[derive(Drop)]
pub(crate) struct Noted {
    marks: Vec<bool>,
    items: Vec<i64>,
}

impl Model for Noted {
    ghost use Rattle.std.specs.Prelude.{length};
    ghost use Rattle.sat_analysis.specs.Noted.{Notes, IsNoted};

    ghost Value = { Notes };

    ghost view = { λ n. record { variables = length n.marks.items; literals = n.items.items } };

    ghost invariant = { λ n. IsNoted n.marks.items n.items.items };
}

impl Noted {
    /// No literal, and room for so many variables.
    pub fn new(alloc: Global, variables: usize) -> Result<Noted, AllocError>
        ensures variables { IfOk result (λ n. n.variables ≡ variables) }
        ensures none { IfOk result (λ n. n.literals ≡ []) }
    {
        Ok(Noted {
            marks: vec![in alloc; false; variables]?,
            items: Vec::new(alloc),
        })
    }

    /// The literals.
    #[inline]
    pub fn literals(&self) -> &[i64]
        ensures value { result.now ≡ self.now.literals }
        ensures literals { All (IsLiteral self.now.variables) result.now }
        ensures apart { AreApart result.now }
    {
        self.items.as_slice()
    }

    /// How many there are.
    #[inline]
    pub fn len(&self) -> usize
        ensures { result ≡ length self.now.literals }
    {
        self.items.len()
    }

    /// The literal at a place.
    #[inline]
    pub fn literal(&self, place: usize) -> i64
        requires { place < length self.now.literals }
        ensures value { result ≡ value_at self.now.literals place }
        ensures literal { IsLiteral self.now.variables result }
        ensures apart { AreApart self.now.literals }
    {
        self.items[place]
    }

    /// Whether a literal of the same variable was noted.
    #[inline]
    pub fn has(&self, literal: i64) -> bool
        requires { IsLiteral self.now.variables literal }
        ensures { IsTrue result ↔ HasVariable self.now.literals (spec.index literal) }
    {
        self.marks[index(literal)]
    }

    /// Notes a literal of another variable. The only error is want of memory.
    pub fn add(&mut self, literal: i64) -> Result<(), AllocError>
        requires literal { IsLiteral self.old.variables literal }
        requires fresh { HasVariable self.old.literals (spec.index literal) → ⊥ }
        ensures variables { self.new.variables ≡ self.old.variables }
        ensures added { OnOk result (self.new.literals ≡ self.old.literals ++ literal ∷ []) }
    {
        self.items.push(literal)?;
        self.marks[index(literal)] = true;
        Ok(())
    }

    /// Forgets the last literal.
    fn pop(&mut self)
        requires { 0 < length self.old.literals }
        ensures variables { self.new.variables ≡ self.old.variables }
        ensures literals { self.new.literals ≡ take (length self.old.literals - 1)
            self.old.literals }
    {
        let last = self.items.len() - 1;
        let at = index(self.items[last]);
        self.marks[at] = false;
        self.items.truncate(last);
    }

    /// Forgets the literals behind the first so many.
    pub fn cut(&mut self, len: usize)
        requires { len ≤ length self.old.literals }
        ensures variables { self.new.variables ≡ self.old.variables }
        ensures literals { self.new.literals ≡ take len self.old.literals }
    {
        while self.len() > len {
            self.pop();
        }
    }
}
