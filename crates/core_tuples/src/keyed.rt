//! A tuple with its index, by which tuples of one number of columns compare as one number.

ghost use Rattle.std.specs.Prelude.{◌≡◌, length, IfOk};
ghost use Rattle.core_tuples.specs.Sets.{tuple_cmp};
ghost use Rattle.core_tuples.specs.Index.{FitsIndex, index_of};

use crate::tuple::Tuple;
use std::alloc::{AllocError, Global};
use std::cmp::Ordering;
use std::marker::Model;

/// A tuple of at most nine numbers below 16,384, with its index: the number whose digits to the
/// base 16,384 are the tuple's numbers. Tuples of one number of columns compare as their indices
/// do. Contracts see the tuple.
#[derive(Drop)]
pub struct Keyed {
    index: u128,
    tuple: Tuple,
}

impl Model for Keyed {
    ghost use Rattle.std.specs.Prelude.{ℕ, List};
    ghost use Rattle.core_tuples.specs.Index.{IsIndexed};

    ghost Value = { List ℕ };

    ghost view = { λ k. k.tuple };

    ghost invariant = { λ k. IsIndexed k.index k.tuple };
}

impl Keyed {
    /// The tuple with its index.
    pub fn new(tuple: Tuple) -> Keyed
        requires { FitsIndex tuple }
        ensures { result ≡ tuple }
    {
        let index = index_of_numbers(tuple.numbers());
        Keyed { index, tuple }
    }

    /// The index.
    pub fn index(&self) -> u128
        ensures index { result ≡ index_of self.now }
        ensures fits { FitsIndex self.now }
    {
        self.index
    }

    /// The tuple.
    pub fn tuple(&self) -> &Tuple
        ensures same { result.now ≡ self.now }
        ensures fits { FitsIndex self.now }
    {
        // for the proof: a field is read, so that the invariant of the tuple is at hand
        let _ = &self.index;
        &self.tuple
    }

    /// The tuple's numbers.
    pub fn numbers(&self) -> &[u32]
        ensures same { result.now ≡ self.now }
        ensures fits { FitsIndex self.now }
    {
        self.tuple().numbers()
    }

    /// A copy.
    pub fn copy(&self, alloc: Global) -> Result<Keyed, AllocError>
        ensures { IfOk result (λ k. k ≡ self.now) }
    {
        Ok(Keyed {
            index: self.index,
            tuple: self.tuple.copy(alloc)?,
        })
    }

    /// How the tuples compare, number by number from the left.
    pub fn compare(&self, other: &Keyed) -> Ordering
        requires { length self.now ≡ length other.now }
        ensures { result ≡ tuple_cmp self.now other.now }
    {
        self.index.cmp(&other.index)
    }

    /// How the tuple compares with one that has this index.
    pub fn against(&self, _other: &Tuple, index: u128) -> Ordering
        requires columns { length self.now ≡ length _other.now }
        requires fits { FitsIndex _other.now }
        requires index { index ≡ index_of _other.now }
        ensures { result ≡ tuple_cmp self.now _other.now }
    {
        self.index.cmp(&index)
    }
}

/// The index of a tuple of these numbers.
pub fn index_of_numbers(numbers: &[u32]) -> u128
    requires { FitsIndex numbers.now }
    ensures { result ≡ index_of numbers.now }
{
    let mut index: u128 = 0;
    for number in numbers {
        index = index * 16384 + u128::from(*number);
    }
    index
}
