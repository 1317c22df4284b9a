//! A sig and all its ancestors.

ghost use Rattle.std.specs.Prelude.{◌≡◌, ◌⊎◌, ◌==◌, ℕ, [], ◌∷◌, All, Contains, IfOk, IfSome, IsTrue, OnOk};
ghost use Rattle.std.specs.List.{list_any};
ghost use Rattle.core_tree.specs.Models.{parents_of};
ghost use Rattle.resolve_told_sigs.specs.Own.{AreAbove, AreAdded, HasParentsIn, IsAtOrAbove, IsIn, parents_at};

use core_tree::{Column, Sig, SigKind};
use std::alloc::{AllocError, Global};

/// Whether a number stands in a list.
fn in_list(list: &[u32], number: u32) -> bool
    ensures { result ≡ list_any (λ u. u == number) list.now }
{
    for other in list {
        if *other == number {
            return true;
        }
    }
    false
}

/// Whether a number stands in a list.
pub fn has(list: &[u32], number: u32) -> bool
    ensures there { IsTrue result → Contains list.now number }
    ensures whole { Contains list.now number → IsTrue result }
{
    in_list(list, number)
}

/// Adds a sig that isn't in the list yet.
fn add_new(list: &mut Vec<u32>, number: u32) -> Result<(), AllocError>
    ensures kept { OnOk result ((t : ℕ) → Contains list.old.items t → Contains list.new.items t) }
    ensures only { OnOk result ((t : ℕ) → Contains list.new.items t
        → Contains list.old.items t ⊎ (number ≡ t)) }
{
    if has(list.as_slice(), number) {
        return Ok(());
    }
    list.push(number)?;
    Ok(())
}

/// Adds a parent that isn't in the list yet, where it is a sig.
fn add_parent(list: &mut Vec<u32>, parent: Column) -> Result<(), AllocError>
    ensures { OnOk result (AreAdded (parent ∷ []) list.old.items list.new.items) }
{
    match parent {
        Column::Int => Ok(()),
        Column::Sig(sig) => {
            add_new(list, sig)?;
            Ok(())
        }
    }
}

/// Adds the parents that aren't in the list yet, where they are sigs.
fn add_all(list: &mut Vec<u32>, parents: &[Column]) -> Result<(), AllocError>
    ensures { OnOk result (AreAdded parents.now list.old.items list.new.items) }
{
    for parent in parents {
        add_parent(list, *parent)?;
    }
    Ok(())
}

/// Adds the parents that stand in what a sig is.
fn add_of_kind(list: &mut Vec<u32>, kind: &SigKind) -> Result<(), AllocError>
    ensures { OnOk result (AreAdded (parents_of kind.now) list.old.items list.new.items) }
{
    match kind {
        SigKind::Top => Ok(()),
        SigKind::Extends(sig) => {
            add_parent(list, Column::Sig(*sig))?;
            Ok(())
        }
        SigKind::Subset(parents) => {
            add_all(list, parents.as_slice())?;
            Ok(())
        }
    }
}

/// Adds the parents of a sig.
fn add_parents(list: &mut Vec<u32>, sigs: &[Sig], number: u32) -> Result<(), AllocError>
    ensures { OnOk result (AreAdded (parents_at sigs.now number) list.old.items list.new.items) }
{
    let place = number as usize;
    if place >= sigs.len() {
        return Ok(());
    }
    add_of_kind(list, &sigs[place].kind)?;
    Ok(())
}

/// Whether a parent stands in a list, where it is a sig.
fn is_in(list: &[u32], parent: Column) -> bool
    ensures { IsTrue result → IsIn list.now parent }
{
    match parent {
        Column::Int => true,
        Column::Sig(sig) => has(list, sig),
    }
}

/// Whether the parents that are sigs stand in a list.
fn are_in(list: &[u32], parents: &[Column]) -> bool
    ensures { IsTrue result → All (IsIn list.now) parents.now }
{
    for parent in parents {
        if !is_in(list, *parent) {
            return false;
        }
    }
    true
}

/// Whether the parents that stand in what a sig is stand in a list.
fn has_kind_in(list: &[u32], kind: &SigKind) -> bool
    ensures { IsTrue result → All (IsIn list.now) (parents_of kind.now) }
{
    match kind {
        SigKind::Top => true,
        SigKind::Extends(sig) => has(list, *sig),
        SigKind::Subset(parents) => are_in(list, parents.as_slice()),
    }
}

/// Whether the parents of a sig stand in a list.
fn has_parents_in(sigs: &[Sig], list: &[u32], number: u32) -> bool
    ensures { IsTrue result → HasParentsIn sigs.now list.now number }
{
    let place = number as usize;
    if place >= sigs.len() {
        return true;
    }
    has_kind_in(list, &sigs[place].kind)
}

/// Whether the parents of each of the list stand in it too.
fn is_closed(sigs: &[Sig], list: &[u32]) -> bool
    ensures { IsTrue result → All (HasParentsIn sigs.now list.now) list.now }
{
    for number in list {
        if !has_parents_in(sigs, list, *number) {
            return false;
        }
    }
    true
}

/// A sig, its parents, theirs, and so on for as many turns as there are sigs.
fn gathered(alloc: Global, sigs: &[Sig], sig: u32) -> Result<Vec<u32>, AllocError>
    ensures own { IfOk result (λ ts. Contains ts.items sig) }
    ensures sound { IfOk result (λ ts. (t : ℕ) → Contains ts.items t → IsAtOrAbove sigs.now sig t) }
{
    let mut list = Vec::new(alloc);
    list.push(sig)?;
    for place in 0..sigs.len() {
        if place >= list.len() {
            return Ok(list);
        }
        let number = list[place];
        add_parents(&mut list, sigs, number)?;
    }
    Ok(list)
}

/// A sig and all its ancestors.
pub fn above_of(alloc: Global, sigs: &[Sig], sig: u32) -> Result<Option<Vec<u32>>, AllocError>
    ensures { IfOk result (λ o. IfSome o (λ ts. AreAbove sigs.now sig ts.items)) }
{
    let list = gathered(alloc, sigs, sig)?;
    if !is_closed(sigs, list.as_slice()) {
        return Ok(None);
    }
    Ok(Some(list))
}
