//! Lists of what is known of sigs and of their families, by the sigs' numbers.

ghost use Rattle.std.specs.Prelude.{◌≡◌, ℕ, get_or, length, IfOk};
ghost use Rattle.bound_definitions.specs.Numbers.{unknown};
ghost use Rattle.bound_numbers.specs.Tables.{table_of, family_at, no_family};

use crate::families::{Family, NO_FAMILY};
use bound_definitions::Known;
use core_tree::ItemList;
use std::alloc::{AllocError, Global};

/// What is known of each sig.
pub(crate) type KnownList = ItemList<Known>;
/// The family of each sig.
pub(crate) type FamilyList = ItemList<Family>;

/// A sig of which nothing is known.
pub(crate) const UNKNOWN: Known = Known {
    number: None,
    exact: false,
};

/// Nothing known of so many sigs.
pub(crate) fn nothing_known(alloc: Global, count: usize) -> Result<Vec<Known>, AllocError>
    ensures count { IfOk result (λ v. length v.items ≡ count) }
    ensures none { IfOk result (λ v. (s : ℕ) → get_or v.items s unknown ≡ unknown) }
{
    let mut known = Vec::new(alloc);
    for _sig in 0..count {
        known.push(UNKNOWN)?;
    }
    Ok(known)
}

/// No family of so many sigs.
pub(crate) fn no_families(alloc: Global, count: usize) -> Result<Vec<Family>, AllocError>
    ensures count { IfOk result (λ v. length v.items ≡ count) }
    ensures none { IfOk result (λ v. (s : ℕ) → get_or v.items s no_family ≡ no_family) }
{
    let mut families = Vec::new(alloc);
    for _sig in 0..count {
        families.push(NO_FAMILY)?;
    }
    Ok(families)
}

/// What is known of a sig.
#[tactic(auto, using(std::proofs::lemmas::Option::get_or_from_slice_get, std::proofs::lemmas::List::get_or_past))]
pub(crate) fn known_at(known: &KnownList, sig: usize) -> Known
    ensures { result ≡ table_of known.now sig }
{
    if sig < known.len() {
        let found = known.get(sig);
        return *found;
    }
    UNKNOWN
}

/// The family of a sig.
#[tactic(auto, using(std::proofs::lemmas::Option::get_or_from_slice_get, std::proofs::lemmas::List::get_or_past))]
pub(crate) fn family_at(families: &FamilyList, sig: usize) -> Family
    ensures { result ≡ family_at families.now sig }
{
    if sig < families.len() {
        let found = families.get(sig);
        return *found;
    }
    NO_FAMILY
}
