//! A tuple of numbers of the universe, and the order of tuples.

ghost use Rattle.std.specs.Prelude.{◌≡◌, refl, ◌↔◌, [], ◌∷◌, ◌++◌, length, IfOk, OnOk, OnErr, IsTrue};
ghost use Rattle.std.specs.Ordering.{as_partial_cmp, nat_cmp};
ghost use Rattle.std.specs.Cmp.{partial_order_from_agreeing_total, partial_equiv_from_equiv, nat_eq_equiv, unsigned_ties};
ghost use Rattle.std.specs.Cmp.Lexicographic.{nat_list_cmp_total, lists_per, lists_equiv, lists_ties};
ghost use Rattle.core_tuples.specs.Sets.{tuple_cmp, is_same};

use smallvec::SmallVec;
use std::alloc::{AllocError, Global};
use std::cmp::Ordering;
use std::marker::Model;

/// A tuple of numbers of the universe. Contracts see it as the list of its numbers.
#[derive(Drop)]
pub struct Tuple {
    numbers: SmallVec<u32, 4>,
}

impl Model for Tuple {
    ghost use Rattle.std.specs.Prelude.{ℕ, List};

    ghost Value = { List ℕ };

    ghost view = { λ a. a.numbers.items };
}

impl Tuple {
    /// The tuple of no number.
    pub fn new(alloc: Global) -> Tuple
        ensures { result ≡ [] }
    {
        Tuple {
            numbers: SmallVec::new(alloc),
        }
    }

    /// The tuple of these numbers.
    pub fn of(alloc: Global, numbers: &[u32]) -> Result<Tuple, AllocError>
        ensures { IfOk result (λ t. t ≡ numbers.now) }
    {
        let numbers = SmallVec::from_slice(alloc, numbers)?;
        Ok(Tuple { numbers })
    }

    /// Adds a number at the end.
    pub fn push(&mut self, number: u32) -> Result<(), AllocError>
        ensures ok { OnOk result (self.new ≡ self.old ++ number ∷ []) }
        ensures err { OnErr result (self.new ≡ self.old) }
    {
        self.numbers.push(number)?;
        Ok(())
    }

    /// The numbers.
    pub fn numbers(&self) -> &[u32]
        ensures { result.now ≡ self.now }
    {
        self.numbers.as_slice()
    }

    /// A copy.
    pub fn copy(&self, alloc: Global) -> Result<Tuple, AllocError>
        ensures { IfOk result (λ t. t ≡ self.now) }
    {
        Tuple::of(alloc, self.numbers())
    }

    /// How the tuples compare, number by number from the left.
    pub fn compare(&self, other: &Tuple) -> Ordering
        ensures { result ≡ tuple_cmp self.now other.now }
    {
        self.numbers().cmp(other.numbers())
    }
}

impl PartialEq for Tuple {
    ghost eq = { is_same };

    ghost laws = { lists_per (partial_equiv_from_equiv nat_eq_equiv) };

    fn eq(&self, other: &Tuple) -> bool {
        self.numbers() == other.numbers()
    }
}

impl Eq for Tuple {
    ghost laws = { lists_equiv nat_eq_equiv };
}

impl PartialOrd for Tuple {
    ghost partial_cmp = { as_partial_cmp tuple_cmp };

    ghost laws = { partial_order_from_agreeing_total tuple_cmp nat_list_cmp_total (λ x y. refl) (lists_ties nat_cmp unsigned_ties) };

    fn partial_cmp(&self, other: &Tuple) -> Option<Ordering> {
        Some(self.cmp(other))
    }
}

impl Ord for Tuple {
    ghost cmp = { tuple_cmp };

    ghost total = { nat_list_cmp_total };

    ghost matches_partial_cmp = { λ x y. refl };

    ghost matches_eq = { lists_ties nat_cmp unsigned_ties };

    fn cmp(&self, other: &Tuple) -> Ordering {
        self.numbers().cmp(other.numbers())
    }
}
