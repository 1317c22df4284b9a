//! Own atoms: which sigs are constants, and which atoms of its top-level sig each of them owns.
//!
//! What atoms are called is no part of a model's meaning. So the table keeps for each constant an
//! atom of its own, which no sig beside it has.

ghost use Rattle.std.specs.Prelude.{◌≡◌, ◌&&◌, [], ℕ, List, not, if◌then◌else◌, eqb, true, false, get_or, length, slice_get, is_some, Some, IsTrue, IfOk, OnOk};
ghost use Rattle.core_meaning.specs.Kept.{or_zero_number};
ghost use Rattle.core_tree.specs.declared.model.Sig.{Sig};
ghost use Rattle.core_tree.specs.declared.model.SigKind.TheVariants.{Extends};
ghost use Rattle.core_tree.specs.Types.{by_parent, is_under};
ghost use Rattle.bound_owners.specs.Tops.{HasTops};
ghost use Rattle.bound_owners.specs.Own.{is_one, is_single, owners, is_given_by, HasOrigins};
ghost use Rattle.bound_owners.specs.Owned.{marked, extended_at, AreExtended, AreConstants, HasLists, AreConstantsOf, HasStanding};

use crate::tops::{parent_of, top_of};
use core_meaning::SigScope;
use core_tree::{ItemList, Multiplicity, Sig, SigKind};
use std::alloc::{AllocError, Global};

/// The constants of a model, and those below each top-level sig.
#[derive(Drop)]
pub struct Constants {
    /// For each sig whether it is a constant.
    pub marks: Vec<bool>,
    /// For each sig, where it is a top-level sig, the constants below it, in order.
    pub lists: Vec<ItemList<u32>>,
}

/// Whether the word before a sig is `one`.
fn is_one(multiplicity: Multiplicity) -> bool
    ensures { result ≡ is_one multiplicity }
{
    match multiplicity {
        Multiplicity::Set => false,
        Multiplicity::One => true,
        Multiplicity::Lone => false,
        Multiplicity::Some => false,
    }
}

/// Whether a sig extends another.
fn is_child(kind: &SigKind) -> bool
    ensures { result ≡ by_parent false (λ p. true) kind.now }
{
    match kind {
        SigKind::Top => false,
        SigKind::Extends(_) => true,
        SigKind::Subset(_) => false,
    }
}

/// Whether a sig is a static `one sig` that extends another, and not a literal's.
fn is_single(sig: &Sig) -> bool
    ensures { result ≡ is_single sig.now }
{
    !sig.is_var && is_one(sig.multiplicity) && sig.origin.is_some() && is_child(&sig.kind)
}

/// So many sigs of which none is marked.
fn no_marks(alloc: Global, count: usize) -> Result<Vec<bool>, AllocError>
    ensures count { IfOk result (λ v. length v.items ≡ count) }
    ensures none { IfOk result (λ v. (s : ℕ) → get_or v.items s false ≡ false) }
{
    let mut marks = Vec::new(alloc);
    for _place in 0..count {
        marks.push(false)?;
    }
    Ok(marks)
}

/// Marks a sig, where there is one.
fn mark(marks: &mut [bool], sig: u32)
    ensures { marks.new ≡ marked marks.old sig }
{
    let place = sig as usize;
    if place < marks.len() {
        marks[place] = true;
    }
}

/// Marks what a sig extends.
fn mark_parent(marks: &mut [bool], kind: &SigKind)
    ensures { marks.new ≡ by_parent marks.old (marked marks.old) kind.now }
{
    match kind {
        SigKind::Top => {}
        SigKind::Extends(parent) => mark(marks, *parent),
        SigKind::Subset(_) => {}
    }
}

/// Which sigs are extended.
#[tactic(auto, using(crate::proofs::Owning::extended_none, crate::proofs::Owning::extended_more, crate::proofs::Owning::extended_all))]
fn extended_marks(alloc: Global, sigs: &[Sig]) -> Result<Vec<bool>, AllocError>
    ensures { IfOk result (λ v. AreExtended sigs.now sigs.now v.items) }
{
    let mut marks = no_marks(alloc, sigs.len())?;
    for sig in sigs {
        mark_parent(&mut marks, &sig.kind);
    }
    Ok(marks)
}

/// Whether a sig is marked.
pub fn is_marked(marks: &[bool], sig: u32) -> bool
    ensures { result ≡ get_or marks.now sig false }
{
    let place = sig as usize;
    if place < marks.len() {
        marks[place]
    } else {
        false
    }
}

/// Which sigs are constants.
#[tactic(auto, using(crate::proofs::Owning::constants_none, crate::proofs::Owning::constants_more, crate::proofs::Owning::constants_all))]
fn constant_marks(alloc: Global, sigs: &[Sig]) -> Result<Vec<bool>, AllocError>
    ensures { IfOk result (λ v. AreConstants sigs.now (length sigs.now) v.items) }
{
    let extended = extended_marks(alloc, sigs)?;
    let mut marks = Vec::new(alloc);
    let mut number = 0u32;
    for sig in sigs {
        marks.push(is_single(sig) && !is_marked(&extended, number))?;
        if number == u32::MAX {
            return Err(AllocError);
        }
        number += 1;
    }
    Ok(marks)
}

/// So many empty lists.
fn no_lists(alloc: Global, count: usize) -> Result<Vec<ItemList<u32>>, AllocError>
    ensures count { IfOk result (λ v. length v.items ≡ count) }
    ensures none { IfOk result (λ v. (s : ℕ) → get_or v.items s [] ≡ []) }
{
    let mut lists = Vec::new(alloc);
    for _place in 0..count {
        lists.push(ItemList::new(alloc))?;
    }
    Ok(lists)
}

/// Adds a sig to the list of this number, where there is one.
fn add_to(lists: &mut Vec<ItemList<u32>>, number: u32, sig: u32) -> Result<(), AllocError>
    ensures { OnOk result (lists.new.items ≡ extended_at lists.old.items number sig) }
{
    let place = number as usize;
    if place < lists.len() {
        lists[place].push(sig)?;
    }
    Ok(())
}

/// Adds a sig to the list of its top-level sig, if it is a constant.
fn add_constant(
    lists: &mut Vec<ItemList<u32>>,
    is_constant: bool,
    top: u32,
    sig: u32,
) -> Result<(), AllocError>
    ensures { OnOk result (lists.new.items ≡ if is_constant then
        extended_at lists.old.items top sig else lists.old.items) }
{
    if is_constant {
        add_to(lists, top, sig)?;
        return Ok(());
    }
    Ok(())
}

/// The constants below each top-level sig, where the top-level sigs of all are known.
#[tactic(auto, using(crate::proofs::Owning::lists_none, crate::proofs::Owning::lists_all))]
fn constant_lists(
    alloc: Global,
    sigs: &[Sig],
    ups: &[u32],
    marks: &[bool],
) -> Result<Vec<ItemList<u32>>, AllocError>
    requires tops { HasTops sigs.now ups.now }
    requires marks { AreConstants sigs.now (length sigs.now) marks.now }
    ensures { IfOk result (λ v. HasLists sigs.now (length sigs.now) v.items) }
{
    let mut lists = no_lists(alloc, sigs.len())?;
    let mut number = 0u32;
    for _sig in sigs {
        let top = top_of(ups, number);
        add_constant(&mut lists, is_marked(marks, number), top, number)?;
        if number == u32::MAX {
            return Err(AllocError);
        }
        number += 1;
    }
    Ok(lists)
}

/// The constants of a model.
pub fn constants_of(alloc: Global, sigs: &[Sig], ups: &[u32]) -> Result<Constants, AllocError>
    requires { HasTops sigs.now ups.now }
    ensures { IfOk result (AreConstantsOf sigs.now) }
{
    let marks = constant_marks(alloc, sigs)?;
    let lists = constant_lists(alloc, sigs, ups, &marks)?;
    Ok(Constants { marks, lists })
}

/// How many atoms a sig has by its scope, or none.
fn number_of(numbers: &[SigScope], sig: u32) -> u64
    ensures { result ≡ or_zero_number (slice_get numbers.now sig) }
{
    match numbers.get(sig as usize) {
        None => 0,
        Some(scope) => match scope.number {
            None => 0,
            Some(number) => number,
        },
    }
}

/// The owners of the atoms of a top-level sig, in order: its constants, where it has as many atoms.
pub fn owners_of<'a>(constants: &'a Constants, numbers: &[SigScope], top: u32) -> &'a [u32]
    ensures { (sigs : List Sig) → AreConstantsOf sigs constants.now →
        length numbers.now ≡ length sigs → result.now ≡ owners sigs numbers.now top }
{
    match constants.lists.get(top as usize) {
        None => &[],
        Some(list) => {
            let all = list.as_slice();
            if all.len() as u64 <= number_of(numbers, top) {
                all
            } else {
                &[]
            }
        }
    }
}

/// Whether a sig owns an atom, where these are the owners of the atoms of its top-level sig: a
/// constant does where there are owners.
pub fn does_own(constants: &Constants, owners: &[u32], sig: u32) -> bool
    ensures { result ≡ get_or constants.now.marks.items sig false && not
        (eqb (length owners.now) 0) }
{
    is_marked(&constants.marks, sig) && !owners.is_empty()
}

/// Whether a sig is another, or lies under it by `extends`.
#[tactic(auto, using(crate::proofs::Climbing::under_step, crate::proofs::Climbing::under_end, crate::proofs::Climbing::under_here, crate::proofs::Climbing::under_last))]
pub fn is_under(sigs: &[Sig], low: u32, high: u32) -> bool
    ensures { result ≡ is_under sigs.now (length sigs.now) low high }
{
    let mut up = low;
    for _step in 0..sigs.len() {
        if up == high {
            return true;
        }
        match parent_of(sigs, up) {
            Some(parent) => up = parent,
            None => return false,
        }
    }
    up == high
}

/// Whether the table gives a sig an atom with this owner, or one without owner. It is known whether
/// the sig owns an atom itself.
pub fn gives(sigs: &[Sig], owner: Option<u32>, owns: bool, sig: u32) -> bool
    ensures { result ≡ is_given_by sigs.now owns owner sig }
{
    match owner {
        None => !owns,
        Some(owner) => is_under(sigs, owner, sig),
    }
}

/// Whether a sig and the one that it extends both have an origin, or neither has.
fn has_origin(sigs: &[Sig], sig: &Sig) -> bool
    ensures { (p : ℕ) (e : Sig) → sig.now.kind ≡ Extends p → slice_get sigs.now p ≡ Some e →
        IsTrue result → is_some sig.now.origin ≡ is_some e.origin }
{
    match &sig.kind {
        SigKind::Top => true,
        SigKind::Extends(parent) => match sigs.get(*parent as usize) {
            None => true,
            Some(above) => sig.origin.is_some() == above.origin.is_some(),
        },
        SigKind::Subset(_) => true,
    }
}

/// Whether each sig has an origin just where the one that it extends has one.
#[tactic(auto, using(crate::proofs::Owning::origins_more, crate::proofs::Owning::origins_all))]
pub fn have_origins(sigs: &[Sig]) -> bool
    ensures { IsTrue result → HasOrigins sigs.now }
{
    for sig in sigs {
        if !has_origin(sigs, sig) {
            return false;
        }
    }
    true
}

/// As which sig a sig stands in the table, where these are the owners of the atoms of its top-level
/// sig.
fn stands_as(owners: &[u32], top: u32, sig: u32) -> u32
    ensures { result ≡ if eqb (length owners.now) 0 then top else sig }
{
    if owners.is_empty() { top } else { sig }
}

/// As which sig each sig stands in the table: where no atom of its top-level sig has an owner, as
/// that one.
#[tactic(auto, using(crate::proofs::Owning::standing_none, crate::proofs::Owning::standing_more, crate::proofs::Owning::standing_all))]
pub fn table_standing(
    alloc: Global,
    sigs: &[Sig],
    numbers: &[SigScope],
    ups: &[u32],
    constants: &Constants,
) -> Result<Vec<u32>, AllocError>
    requires tops { HasTops sigs.now ups.now }
    requires constants { AreConstantsOf sigs.now constants.now }
    requires counted { length numbers.now ≡ length sigs.now }
    ensures { IfOk result (λ v. HasStanding sigs.now numbers.now v.items) }
{
    let mut all = Vec::new(alloc);
    let mut number = 0u32;
    for _sig in sigs {
        let top = top_of(ups, number);
        all.push(stands_as(owners_of(constants, numbers, top), top, number))?;
        if number == u32::MAX {
            return Err(AllocError);
        }
        number += 1;
    }
    Ok(all)
}
