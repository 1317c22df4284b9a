//! How many atoms each sig has.

ghost use Rattle.std.specs.Prelude.{◌≡◌, ◌<◌, length, All, IfOk, IsTrue};
ghost use Rattle.bound_numbers.specs.Tables.{table_of, of_family, summed, of_parent, number_by, AreTestedSums, AreTestedNumbers, AreScopesOf, AreNumbered};

use crate::families::{Family, add_child, families_of};
use crate::listed::{listed_numbers, overall_number};
use crate::lists::{
    FamilyList, KnownList, UNKNOWN, family_at, known_at, no_families, nothing_known,
};
use crate::order::{leaves_first, parent_of};
use bound_definitions::{Known, or_else, own_of, placed, scope_of};
use core_meaning::SigScopeList;
use core_tree::{ScopeEntryList, Sig, SigKind, SigList};
use std::alloc::{AllocError, Global};

/// Whether the same is known of two sigs.
fn is_same(first: Known, second: Known) -> bool
    ensures { IsTrue result → first ≡ second }
{
    match first.number {
        None => match second.number {
            None => first.exact == second.exact,
            Some(_) => false,
        },
        Some(a) => match second.number {
            None => false,
            Some(b) => a == b && first.exact == second.exact,
        },
    }
}

/// The number of an abstract sig by those of the sigs that extend it, where there are any.
fn of_family(is_abstract: bool, family: Family) -> Known
    ensures { result ≡ of_family is_abstract family }
{
    if family.count == 0 {
        return UNKNOWN;
    }
    if is_abstract {
        return family.sum;
    }
    UNKNOWN
}

/// The number of a sig by its own word, by the command's list, or by the sigs that extend it.
fn summed(sig: &Sig, listed: Known, family: Family) -> Known
    ensures { result ≡ summed sig.now listed family }
{
    or_else(
        own_of(sig, listed, family.count),
        of_family(sig.is_abstract, family),
    )
}

/// The number of each sig by its own word, by the command's list, or by the sigs that extend it, which
/// come before it in the order.
fn drafted_sums(
    alloc: Global,
    sigs: &SigList,
    order: &[usize],
    listed: &KnownList,
) -> Result<KnownList, AllocError>
    requires { All (λ s. s < length sigs.now) order.now }
{
    let mut sums = nothing_known(alloc, sigs.len())?;
    let mut families = no_families(alloc, sigs.len())?;
    for place in order {
        let place = *place;
        let sig = sigs.get(place);
        let sum = summed(sig, known_at(listed, place), families[place]);
        sums[place] = sum;
        add_child(&mut families, &sig.kind, sum)?;
    }
    Ok(KnownList::from_vec(sums))
}

/// Whether each number is that of the sig by its own word, by the command's list, or by the sigs that
/// extend it.
fn are_sums(sigs: &SigList, listed: &KnownList, families: &FamilyList, sums: &KnownList) -> bool
    ensures { IsTrue result → AreTestedSums sigs.now listed.now families.now sums.now }
{
    for place in 0..sigs.len() {
        let sig = sigs.get(place);
        let own = known_at(listed, place);
        let family = family_at(families, place);
        let sum = summed(sig, own, family);
        let known = known_at(sums, place);
        if !is_same(known, sum) {
            return false;
        }
    }
    true
}

/// The number of the sig that one of this kind extends.
fn of_parent(numbers: &KnownList, kind: &SigKind) -> Known
    ensures { result ≡ of_parent (table_of numbers.now) kind.now }
{
    match kind {
        SigKind::Top => UNKNOWN,
        SigKind::Extends(parent) => known_at(numbers, *parent as usize),
        SigKind::Subset(_) => UNKNOWN,
    }
}

/// The number of a sig: the one that it has so far, or that of its place.
fn number_by(kind: &SigKind, overall: u64, family: Family, sum: Known, parent: Known) -> Known
    ensures { result ≡ number_by kind.now overall family sum parent }
{
    or_else(sum, placed(kind, overall, family.sure, parent))
}

/// The number of each sig; those that others extend come after these in the order.
fn drafted_numbers(
    alloc: Global,
    sigs: &SigList,
    order: &[usize],
    overall: u64,
    families: &FamilyList,
    sums: &KnownList,
) -> Result<KnownList, AllocError>
    requires { All (λ s. s < length sigs.now) order.now }
{
    let mut numbers = nothing_known(alloc, sigs.len())?;
    for turn in (0..order.len()).rev() {
        let place = order[turn];
        let parent = match parent_of(sigs, place) {
            Some(parent) => numbers[parent],
            None => UNKNOWN,
        };
        let family = family_at(families, place);
        let sum = known_at(sums, place);
        numbers[place] = number_by(&sigs.get(place).kind, overall, family, sum, parent);
    }
    Ok(KnownList::from_vec(numbers))
}

/// Whether each number is the one that the sig has so far, or that of its place.
fn are_numbers(
    sigs: &SigList,
    overall: u64,
    families: &FamilyList,
    sums: &KnownList,
    numbers: &KnownList,
) -> bool
    ensures { IsTrue result →
        AreTestedNumbers sigs.now overall families.now sums.now (table_of numbers.now) }
{
    for place in 0..sigs.len() {
        let sig = sigs.get(place);
        let family = family_at(families, place);
        let sum = known_at(sums, place);
        let parent = of_parent(numbers, &sig.kind);
        let number = number_by(&sig.kind, overall, family, sum, parent);
        let known = known_at(numbers, place);
        if !is_same(known, number) {
            return false;
        }
    }
    true
}

/// What the scopes say of each sig.
fn scopes_of(alloc: Global, sigs: &SigList, numbers: &KnownList) -> Result<SigScopeList, AllocError>
    ensures length { IfOk result (λ l. length l ≡ length sigs.now) }
    ensures each { IfOk result (λ l. AreScopesOf sigs.now (table_of numbers.now) l) }
{
    let mut list = SigScopeList::new(alloc);
    for place in 0..sigs.len() {
        let sig = sigs.get(place);
        let known = known_at(numbers, place);
        let scope = scope_of(sig, known);
        list.push(scope)?;
    }
    Ok(list)
}

/// The number of each sig under a command's scope, whether it is exact, and whether the sig is
/// top-level: one table of sums and one of numbers that keep the rules. The tables are computed along
/// the hierarchy and tested by the rules. On a model in which a sig is its own ancestor there may be no
/// such tables; the answer is then want of memory, as where a sum is too large.
pub fn numbers(
    alloc: Global,
    sigs: &SigList,
    entries: &ScopeEntryList,
) -> Result<SigScopeList, AllocError>
    ensures length { IfOk result (λ l. length l ≡ length sigs.now) }
    ensures numbered { IfOk result (λ l. AreNumbered sigs.now entries.now l) }
{
    let order = leaves_first(alloc, sigs)?;
    let listed = listed_numbers(alloc, sigs.len(), entries)?;
    let sums = drafted_sums(alloc, sigs, order.as_slice(), &listed)?;
    let families = families_of(alloc, sigs, &sums)?;
    if !are_sums(sigs, &listed, &families, &sums) {
        return Err(AllocError);
    }
    let overall = overall_number(entries);
    let numbers = drafted_numbers(alloc, sigs, order.as_slice(), overall, &families, &sums)?;
    if !are_numbers(sigs, overall, &families, &sums, &numbers) {
        return Err(AllocError);
    }
    let list = scopes_of(alloc, sigs, &numbers)?;
    Ok(list)
}
