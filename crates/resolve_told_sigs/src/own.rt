//! The fields that are joined to `this` where their names alone are written.

ghost use Rattle.std.specs.Prelude.{◌≡◌, ◌⊎◌, List, Contains, IfOk, IfSome, IsTrue, OnOk};
ghost use Rattle.core_tree.specs.declared.model.Sig.{Sig as SigOf};
ghost use Rattle.resolve_said.specs.declared.place.OwnField.{OwnField as OwnFieldOf};
ghost use Rattle.resolve_told_sigs.specs.Own.{AreAbove, AreOwn, IsEarlier, IsJoined, IsSeen, own_field};

use crate::above::{above_of, has};
use crate::table::FieldDecl;
use crate::words::next;
use base_lists::Items;
use base_types::Name;
use core_tree::Sig;
use resolve_said::OwnField;
use std::alloc::{AllocError, Global};

/// Whether a field is seen from an instance.
fn is_seen(instance: u32, field: &FieldDecl) -> bool
    ensures there { IsTrue result → IsSeen instance field.now }
    ensures whole { IsSeen instance field.now → IsTrue result }
{
    !field.is_private || field.instance == instance
}

/// Whether a field stands in a list before this one, where it is of the same sig.
fn is_earlier(sig: u32, lists: u32, field: &FieldDecl) -> bool
    ensures there { IsTrue result → IsEarlier sig lists field.now }
    ensures whole { IsEarlier sig lists field.now → IsTrue result }
{
    field.owner != sig || field.list < lists
}

/// Whether a field is joined to `this` behind so many lists of a sig, of which this is the list with its ancestors.
fn is_joined(above: &[u32], instance: u32, sig: u32, lists: u32, field: &FieldDecl) -> bool
    ensures there { (sigs : List SigOf) → AreAbove sigs sig above.now → IsTrue result
        → IsJoined sigs instance sig lists field.now }
    ensures whole { (sigs : List SigOf) → AreAbove sigs sig above.now
        → IsJoined sigs instance sig lists field.now → IsTrue result }
{
    is_seen(instance, field) && has(above, field.owner) && is_earlier(sig, lists, field)
}

/// Adds a field, if it is joined.
fn push_if(
    alloc: Global,
    all: &mut Items<OwnField>,
    joined: bool,
    number: u32,
    field: &FieldDecl,
) -> Result<(), AllocError>
    ensures kept { OnOk result ((o : OwnFieldOf) → Contains all.old o → Contains all.new o) }
    ensures only { OnOk result ((o : OwnFieldOf) → Contains all.new o
        → Contains all.old o ⊎ (IsTrue joined × (own_field number field.now ≡ o))) }
    ensures added { OnOk result (IsTrue joined → Contains all.new (own_field number field.now)) }
{
    if !joined {
        return Ok(());
    }
    let name = Name::copy(alloc, field.name.text())?;
    all.push(OwnField {
        name,
        field: number,
    })?;
    Ok(())
}

/// The fields that are joined to `this` in an instance behind so many lists of a sig.
pub fn own_fields(
    alloc: Global,
    sigs: &[Sig],
    fields: &[FieldDecl],
    instance: u32,
    sig: u32,
    lists: u32,
) -> Result<Option<Items<OwnField>>, AllocError>
    ensures { IfOk result (λ o. IfSome o (AreOwn sigs.now fields.now instance sig lists)) }
{
    let above = match above_of(alloc, sigs, sig)? {
        None => return Ok(None),
        Some(above) => above,
    };
    let mut all = Items::new(alloc);
    let mut number: u32 = 0;
    for field in fields {
        let joined = is_joined(above.as_slice(), instance, sig, lists, field);
        push_if(alloc, &mut all, joined, number, field)?;
        number = next(number)?;
    }
    Ok(Some(all))
}
