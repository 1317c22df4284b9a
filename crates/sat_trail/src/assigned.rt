//! The partial assignment: the true literals in their order, with the level and reason of each.
//!
//! The order is that in which they became true, which makes the list a trail: what is taken back
//! is its end. The level and the reason of a variable are kept until it is assigned again.

ghost use Rattle.std.specs.Prelude.{◌≡◌, ℕ, neg_ℤ, unsigned_abs, ◌+◌, ◌-◌, ◌<◌, ◌≤◌, ◌^◌, ◌↔◌, ◌++◌, ◌∷◌, [], ℤ, pos, length, take, replicate, slice_get, slice_set, slice_index, Some, IsTrue, IfOk};
ghost use Rattle.std.specs.List.{All, Contains};
ghost use Rattle.sat_trail.specs.Literal.{IsLiteral};
ghost use Rattle.sat_trail.specs.Literal as spec;
ghost use Rattle.sat_trail.specs.Assignment.{value_at, IsTold};
ghost use Rattle.sat_trail.specs.Reasons.{IsPut, AreApart};

use crate::index;
use std::alloc::{AllocError, Global};
use std::marker::Model;

/// The value of a variable whose literal is true.
#[inline]
fn sign(literal: i64) -> i8
    requires { 0 < unsigned_abs literal }
    ensures { result ≡ spec.sign literal }
{
    if literal < 0 { -1 } else { 1 }
}

/// The value of a variable whose literal is false.
#[inline]
fn opposite_sign(literal: i64) -> i8
    requires { 0 < unsigned_abs literal }
    ensures { result ≡ spec.sign (neg_ℤ literal) }
{
    if literal < 0 { 1 } else { -1 }
}

#[inline]
fn are_same(a: i8, b: i8) -> bool
    ensures { IsTrue result ↔ (a ≡ b) }
{
    a == b
}

/// The true literals in the order in which they were put, with the value, the place and the reason of each variable.
#[derive(Drop)]
pub struct Assigned {
    /// The value of each variable: 1 true, -1 false, 0 free.
    values: Vec<i8>,
    /// Where each variable that has a value stands on the trail.
    places: Vec<usize>,
    /// The decision level of each variable, as it was last given one.
    levels: Vec<u64>,
    /// The clause that forced each variable when it was last assigned, from 1 on; 0 of a decision.
    reasons: Vec<u64>,
    /// The true literals in their order, at the first `len` places.
    trail: Vec<i64>,
    /// How many literals are true.
    len: usize,
}

impl Model for Assigned {
    ghost use Rattle.std.specs.Prelude.{◌≡◌, length};
    ghost use Rattle.sat_trail.specs.Assignment.{Assignment, assignment, IsAssigned};

    ghost Value = { Assignment };

    ghost view = { λ a. assignment a.trail.items a.len a.values.items a.levels.items a.reasons.items };

    ghost invariant = { λ a. IsAssigned a.trail.items a.len a.values.items a.places.items × (length a.levels.items ≡ length a.values.items) × (length a.reasons.items ≡ length a.values.items) };
}

impl Assigned {
    /// Room for so many variables, all free.
    pub fn new(alloc: Global, variables: usize) -> Result<Assigned, AllocError>
        ensures none { IfOk result (λ a. a.trail ≡ []) }
        ensures free { IfOk result (λ a. a.values ≡ replicate variables (pos 0)) }
    {
        Ok(Assigned {
            values: vec![in alloc; 0; variables]?,
            places: vec![in alloc; 0; variables]?,
            levels: vec![in alloc; 0; variables]?,
            reasons: vec![in alloc; 0; variables]?,
            trail: vec![in alloc; 0; variables]?,
            len: 0,
        })
    }

    /// The value of each variable.
    #[inline]
    pub fn values(&self) -> &[i8]
        ensures values { result.now ≡ self.now.values }
        ensures told { IsTold self.now.trail result.now }
    {
        self.values.as_slice()
    }

    /// The true literals.
    #[inline]
    pub fn trail(&self) -> &[i64]
        ensures trail { result.now ≡ self.now.trail }
        ensures literals { All (IsLiteral (length self.now.values)) result.now }
        ensures apart { AreApart result.now }
        ensures fits { length result.now ≤ length self.now.values }
    {
        &self.trail[..self.len]
    }

    /// How many literals are true.
    #[inline]
    pub fn len(&self) -> usize
        ensures count { result ≡ length self.now.trail }
        ensures fits { result ≤ length self.now.values }
    {
        self.len
    }

    /// The true literal at a place.
    #[inline]
    pub fn literal(&self, place: usize) -> i64
        requires { place < length self.now.trail }
        ensures value { slice_get self.now.trail place ≡ Some result }
        ensures literal { IsLiteral (length self.now.values) result }
    {
        self.trail[place]
    }

    /// The literal that the true one at a place makes false.
    #[inline]
    pub fn falsified(&self, place: usize) -> i64
        requires { place < length self.now.trail }
        ensures value { result ≡ neg_ℤ (value_at self.now.trail place) }
        ensures literal { IsLiteral (length self.now.values) result }
    {
        -self.trail[place]
    }

    /// The place of the negation of a false literal.
    pub fn place(&self, literal: i64) -> usize
        requires literal { IsLiteral (length self.now.values) literal }
        requires is_false { Contains self.now.trail (neg_ℤ literal) }
        ensures place { slice_get self.now.trail result ≡ Some (neg_ℤ literal) }
        ensures only { (j : ℕ) → j < length self.now.trail →
            value_at self.now.trail j ≡ neg_ℤ literal → j ≡ result }
    {
        self.places[index(literal)]
    }

    /// The place of the negation of a literal, if it is false.
    #[inline]
    pub fn last_place(&self, literal: i64) -> usize
        requires { IsLiteral (length self.now.values) literal }
        ensures { Contains self.now.trail (neg_ℤ literal) →
            slice_get self.now.trail result ≡ Some (neg_ℤ literal) }
    {
        self.places[index(literal)]
    }

    /// The level of a variable.
    pub fn level(&self, variable: usize) -> u64
        requires { variable < length self.now.values }
        ensures { result ≡ slice_index self.now.levels variable }
    {
        self.levels[variable]
    }

    /// The reason of a variable, or 0.
    pub fn reason(&self, variable: usize) -> u64
        requires { variable < length self.now.values }
        ensures { result ≡ slice_index self.now.reasons variable }
    {
        self.reasons[variable]
    }

    /// Whether a literal is true.
    #[inline]
    pub fn is_true(&self, literal: i64) -> bool
        requires { IsLiteral (length self.now.values) literal }
        ensures { IsTrue result ↔ Contains self.now.trail literal }
    {
        are_same(self.values[index(literal)], sign(literal))
    }

    /// Whether a literal is false.
    #[inline]
    pub fn is_false(&self, literal: i64) -> bool
        requires { IsLiteral (length self.now.values) literal }
        ensures { IsTrue result ↔ Contains self.now.trail (neg_ℤ literal) }
    {
        are_same(self.values[index(literal)], opposite_sign(literal))
    }

    /// Makes a free literal true.
    #[inline]
    pub fn put(&mut self, literal: i64, level: u64, reason: u64)
        requires literal { IsLiteral (length self.old.values) literal }
        requires not_true { Contains self.old.trail literal → ⊥ }
        requires not_false { Contains self.old.trail (neg_ℤ literal) → ⊥ }
        ensures trail { self.new.trail ≡ self.old.trail ++ literal ∷ [] }
        ensures variables { length self.new.values ≡ length self.old.values }
        ensures fits { length self.new.trail ≤ length self.new.values }
        ensures levels { self.new.levels ≡ slice_set self.old.levels (spec.index literal) level }
        ensures reasons { self.new.reasons ≡ slice_set self.old.reasons (spec.index literal)
            reason }
        ensures put { IsPut self.old self.new literal level reason }
    {
        let at = index(literal);
        self.values[at] = sign(literal);
        self.places[at] = self.len;
        self.levels[at] = level;
        self.reasons[at] = reason;
        self.trail[self.len] = literal;
        self.len += 1;
    }

    /// Takes back the last literal.
    #[inline]
    fn pop(&mut self)
        requires { 0 < length self.old.trail }
        ensures trail { self.new.trail ≡ take (length self.old.trail - 1) self.old.trail }
        ensures variables { length self.new.values ≡ length self.old.values }
        ensures levels { self.new.levels ≡ self.old.levels }
        ensures reasons { self.new.reasons ≡ self.old.reasons }
    {
        self.len -= 1;
        let at = index(self.trail[self.len]);
        self.values[at] = 0;
    }

    /// Takes back the last literals, down to so many.
    pub fn cut(&mut self, len: usize)
        requires { len ≤ length self.old.trail }
        ensures trail { self.new.trail ≡ take len self.old.trail }
        ensures variables { length self.new.values ≡ length self.old.values }
        ensures levels { self.new.levels ≡ self.old.levels }
        ensures reasons { self.new.reasons ≡ self.old.reasons }
    {
        while self.len() > len {
            self.pop();
        }
    }
}
