//! What the sigs that extend one sig have together.

ghost use Rattle.std.specs.Prelude.{◌≡◌, ◌+◌, length, IfOk, OnOk};
ghost use Rattle.bound_definitions.specs.Numbers.{together};
ghost use Rattle.bound_numbers.specs.Tables.{table_of, with_child, added_at, added_by, AreFamilies};

use crate::lists::{FamilyList, KnownList, UNKNOWN, known_at, no_families};
use bound_definitions::{Known, sure};
use core_tree::{SigKind, SigList};
use std::alloc::{AllocError, Global};

/// What the sigs that extend one sig have together.
#[derive(Clone, Copy, Debug, PartialEq, Eq, Drop)]
pub struct Family {
    /// How many there are.
    pub count: u64,
    /// The sum of their numbers, where each has one.
    pub sum: Known,
    /// The sum of their exact numbers.
    pub sure: u64,
}

/// The family of a sig that no sig extends.
pub(crate) const NO_FAMILY: Family = Family {
    count: 0,
    sum: Known {
        number: Some(0),
        exact: true,
    },
    sure: 0,
};

/// The sum of two numbers, where it isn't too large.
fn total(first: u64, second: u64) -> Result<u64, AllocError>
    ensures { IfOk result (λ n. n ≡ first + second) }
{
    if first > u64::MAX - second {
        return Err(AllocError);
    }
    Ok(first + second)
}

/// What two sigs have together; the number is exact where each is.
fn both(first: Known, second: Known) -> Result<Known, AllocError>
    ensures { IfOk result (λ k. k ≡ together first second) }
{
    match first.number {
        None => Ok(UNKNOWN),
        Some(a) => match second.number {
            None => Ok(UNKNOWN),
            Some(b) => {
                let number = total(a, b)?;
                Ok(Known {
                    number: Some(number),
                    exact: first.exact && second.exact,
                })
            }
        },
    }
}

/// The family with one sig more.
fn with_child(child: Known, family: Family) -> Result<Family, AllocError>
    ensures { IfOk result (λ f. f ≡ with_child child family) }
{
    let count = total(family.count, 1)?;
    let sum = both(child, family.sum)?;
    let sure = total(sure(child), family.sure)?;
    Ok(Family { count, sum, sure })
}

/// Adds a sig to the family of the one of this number, where there is one.
#[tactic(auto, using(std::proofs::lemmas::List::get_or_read))]
fn add_to(families: &mut Vec<Family>, parent: u32, child: Known) -> Result<(), AllocError>
    ensures length { length families.new.items ≡ length families.old.items }
    ensures added { OnOk result (families.new.items ≡ added_at families.old.items parent child) }
{
    let place = parent as usize;
    if place < families.len() {
        let family = with_child(child, families[place])?;
        families[place] = family;
    }
    Ok(())
}

/// Adds a sig of this kind to the family of the sig that it extends.
pub(crate) fn add_child(
    families: &mut Vec<Family>,
    kind: &SigKind,
    child: Known,
) -> Result<(), AllocError>
    ensures length { length families.new.items ≡ length families.old.items }
    ensures added { OnOk result (families.new.items ≡ added_by families.old.items kind.now child) }
{
    match kind {
        SigKind::Top => Ok(()),
        SigKind::Extends(parent) => {
            add_to(families, *parent, child)?;
            Ok(())
        }
        SigKind::Subset(_) => Ok(()),
    }
}

/// The family of each sig; the last sigs are added first.
pub(crate) fn families_of(
    alloc: Global,
    sigs: &SigList,
    sums: &KnownList,
) -> Result<FamilyList, AllocError>
    ensures length { IfOk result (λ l. length l ≡ length sigs.now) }
    ensures families { IfOk result (λ l. AreFamilies sigs.now (table_of sums.now) l) }
{
    let all = sigs.len();
    let mut families = no_families(alloc, all)?;
    for turn in 0..all {
        let place = all - 1 - turn;
        let sig = sigs.get(place);
        let child = known_at(sums, place);
        add_child(&mut families, &sig.kind, child)?;
    }
    Ok(FamilyList::from_vec(families))
}
