//! The children of each sig: the sigs that extend it.

ghost use Rattle.std.specs.Prelude.{◌≡◌, ◌<◌, ◌+◌, ◌++◌, List, [], ◌∷◌, IfOk, OnOk, Some, All, length, get_or, set, slice_get};
ghost use Rattle.core_tree.specs.declared.model.Column.TheVariants.{Sig as SigColumn};
ghost use Rattle.core_tree.specs.declared.model.Sig.{Sig as SigData};
ghost use Rattle.form_target.specs.Children.{HasChildren, HasChildrenBelow};

use crate::declarations::next_number;
use core_tree::{Column, ItemList, Sig, SigKind};
use std::alloc::{AllocError, Global};

/// Columns in order.
pub type ColumnList = ItemList<Column>;

/// An empty list for each sig.
fn no_children(alloc: Global, sigs: &[Sig]) -> Result<Vec<ColumnList>, AllocError>
    ensures count { IfOk result (λ lists. length lists.items ≡ length sigs.now) }
    ensures empty { IfOk result (λ lists. All (λ l. l ≡ []) lists.items) }
{
    let mut lists = Vec::new(alloc);
    for _sig in sigs {
        lists.push(ColumnList::new(alloc))?;
    }
    Ok(lists)
}

/// Adds a child to the list of its parent. There is no memory for a parent that isn't there.
fn add_child(lists: &mut Vec<ColumnList>, parent: u32, child: u32) -> Result<(), AllocError>
    ensures there { OnOk result (parent < length lists.old.items) }
    ensures added { OnOk result (lists.new.items ≡ set lists.old.items parent
        (get_or lists.old.items parent [] ++ SigColumn child ∷ [])) }
{
    let place = parent as usize;
    if place >= lists.len() {
        return Err(AllocError);
    }
    lists[place].push(Column::Sig(child))?;
    Ok(())
}

/// Adds a sig to the list of the one that it extends, if any.
fn sort_in(lists: &mut Vec<ColumnList>, number: u32, sig: &Sig) -> Result<(), AllocError>
    ensures { (sigs : List SigData) → slice_get sigs number ≡ Some sig.now →
        HasChildrenBelow sigs number lists.old.items →
        OnOk result (HasChildrenBelow sigs (number + 1) lists.new.items) }
{
    match &sig.kind {
        SigKind::Top => Ok(()),
        SigKind::Subset(_) => Ok(()),
        SigKind::Extends(parent) => {
            add_child(lists, *parent, number)?;
            Ok(())
        }
    }
}

/// The children of each sig, in order.
pub fn child_lists(alloc: Global, sigs: &[Sig]) -> Result<Vec<ColumnList>, AllocError>
    ensures { IfOk result (λ lists. HasChildren sigs.now lists.items) }
{
    let mut lists = no_children(alloc, sigs)?;
    let mut number = 0;
    for sig in sigs {
        sort_in(&mut lists, number, sig)?;
        number = next_number(number)?;
    }
    Ok(lists)
}

/// The children of a sig, in order. There is no memory for a sig that isn't there.
pub fn children_at(lists: &[ColumnList], number: u32) -> Result<&[Column], AllocError>
    ensures { IfOk result (λ l. l.now ≡ get_or lists.now number []) }
{
    let place = number as usize;
    if place >= lists.len() {
        return Err(AllocError);
    }
    Ok(lists[place].as_slice())
}
