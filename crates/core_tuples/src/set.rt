//! A finite set of tuples, kept as a vector in order without repeats.

ghost use Rattle.std.specs.Prelude.{◌≡◌, ◌↔◌, ◌⊎◌, ℕ, [], ◌∷◌, ◌++◌, ◌<◌, ◌≤◌, All, length, IfOk, OnOk, OnErr, IfErr, Contains, IsTrue, slice_get, Some};
ghost use Rattle.std.specs.List.Sorted.{IsStrictlySortedBy};
ghost use Rattle.core_tuples.specs.Sets.{tuple_cmp, IsGap};
ghost use Rattle.core_tuples.specs.Index.{IsNumber, FitsIndex};

use crate::keyed::{Keyed, index_of_numbers};
use crate::tuple::Tuple;
use std::alloc::{AllocError, Global};
use std::cmp::Ordering;
use std::marker::Model;

/// A finite set of tuples of one number of columns, from one to nine, and of numbers below 16,384,
/// kept in order: tuples are compared number by number from the left.
#[derive(Drop)]
pub struct TupleSet {
    arity: u32,
    tuples: Vec<Keyed>,
}

impl Model for TupleSet {
    ghost use Rattle.core_tuples.specs.Sets.{TupleList, IsTupleSet};

    ghost Value = { TupleList };

    ghost view = { λ s. record { arity = s.arity; tuples = s.tuples.items } };

    ghost invariant = { λ s. IsTupleSet (record { arity = s.arity; tuples = s.tuples.items }) };
}

impl TupleSet {
    ghost use Rattle.core_tuples.specs.Sets.{In, HasJust, IsTupleSet};

    /// The empty set of tuples of this many columns.
    pub fn empty(alloc: Global, arity: u32) -> TupleSet
        requires least { 1 ≤ arity }
        requires most { arity ≤ 9 }
        ensures { result ≡ record { arity = arity; tuples = [] } }
    {
        TupleSet {
            arity,
            tuples: Vec::new(alloc),
        }
    }

    /// The set of these tuples, which are in order.
    pub(crate) fn sorted(arity: u32, tuples: Vec<Keyed>) -> TupleSet
        requires { IsTupleSet (record { arity = arity; tuples = tuples.items }) }
        ensures { result ≡ record { arity = arity; tuples = tuples.items } }
    {
        TupleSet { arity, tuples }
    }

    /// The number of columns.
    pub fn arity(&self) -> u32
        ensures columns { result ≡ self.now.arity }
        ensures set { IsTupleSet self.now }
    {
        self.arity
    }

    /// An equal set.
    pub fn copy(&self, alloc: Global) -> Result<TupleSet, AllocError>
        ensures { IfOk result (λ s. s ≡ self.now) }
    {
        // for the proof: a field is read, so that the invariant of the set is at hand
        let _ = &self.arity;
        Ok(TupleSet {
            arity: self.arity,
            tuples: copies(alloc, &self.tuples)?,
        })
    }

    /// How many tuples it has.
    pub fn len(&self) -> usize
        ensures count { result ≡ length self.now.tuples }
        ensures set { IsTupleSet self.now }
    {
        self.tuples.len()
    }

    /// The tuple at a place, in order.
    pub fn tuple(&self, place: usize) -> &Tuple
        requires { place < length self.now.tuples }
        ensures { slice_get self.now.tuples place ≡ Some result.now }
    {
        self.tuples[place].tuple()
    }

    /// The tuples with their indices, in order.
    pub fn keyed(&self) -> &[Keyed]
        ensures all { result.now ≡ self.now.tuples }
        ensures set { IsTupleSet self.now }
    {
        // for the proof: a field is read, so that the invariant of the set is at hand
        let _ = &self.arity;
        &self.tuples
    }

    /// Whether the tuple is in the set; one of another length or with a greater number is not.
    pub fn contains(&self, tuple: &Tuple) -> bool
        ensures { IsTrue result ↔ In tuple.now self.now }
    {
        is_row(tuple, self.arity) && place_of(&self.tuples, tuple).is_ok()
    }

    /// Adds a tuple. Where memory is wanting, the set is as before.
    pub fn insert(&mut self, tuple: Tuple) -> Result<(), AllocError>
        requires columns { length tuple ≡ self.old.arity }
        requires numbers { All IsNumber tuple }
        ensures ok { OnOk result (HasJust self.new self.old.arity
            (λ t. In t self.old ⊎ (t ≡ tuple))) }
        ensures err { OnErr result (self.new ≡ self.old) }
    {
        // for the proof: a field is read, so that the invariant of the set is at hand
        let _ = &self.arity;
        if let Err(place) = place_of(&self.tuples, &tuple) {
            self.tuples.insert(place, Keyed::new(tuple))?;
        }
        Ok(())
    }
}

/// Whether the tuple has this many columns and numbers below 16,384.
fn is_row(tuple: &Tuple, arity: u32) -> bool
    ensures { IsTrue result ↔ ((length tuple.now ≡ arity) × All IsNumber tuple.now) }
{
    // Atoms, S66: there are at most 16,384 atoms and integers.
    tuple.numbers().len() == arity as usize && tuple.numbers().iter().all(|x| *x < 16384)
}

/// Where the tuple is, or else where it would be put.
fn place_of(tuples: &[Keyed], tuple: &Tuple) -> Result<usize, usize>
    requires sorted { IsStrictlySortedBy tuple_cmp tuples.now }
    requires columns { All (λ t. length t ≡ length tuple.now) tuples.now }
    requires fits { FitsIndex tuple.now }
    ensures found { IfOk result (λ _. Contains tuples.now tuple.now) }
    ensures gap { IfErr result (λ i. IsGap tuples.now tuple.now i) }
{
    let index = index_of_numbers(tuple.numbers());
    let mut low = 0;
    let mut high = tuples.len();
    while low < high {
        let middle = low + (high - low) / 2;
        match tuples[middle].against(tuple, index) {
            Ordering::Less => low = middle + 1,
            Ordering::Greater => high = middle,
            Ordering::Equal => return Ok(middle),
        }
    }
    Err(low)
}

/// Copies of the tuples.
fn copies(alloc: Global, tuples: &[Keyed]) -> Result<Vec<Keyed>, AllocError>
    ensures { IfOk result (λ v. v.items ≡ tuples.now) }
{
    let mut all = Vec::new(alloc);
    for tuple in tuples {
        all.push(tuple.copy(alloc)?)?;
    }
    Ok(all)
}
