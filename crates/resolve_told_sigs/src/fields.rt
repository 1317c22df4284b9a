//! Whether the fields of a sig say what its text says.

ghost use Rattle.std.specs.Prelude.{◌≡◌, if◌then◌else◌, IfOk, IfSome, IsTrue, Some, None};
ghost use Rattle.resolve_told_sigs.specs.Own.{AreOwn};
ghost use Rattle.resolve_told_sigs.specs.Walks.{Walks};
ghost use Rattle.resolve_told_sigs.specs.Told.{AreLists, IsBound, IsEntry, IsField, IsFieldAt, IsListAt, IsWorded, given};

use crate::own::own_fields;
use crate::says::said_bound;
use crate::table::FieldDecl;
use crate::told::Sources;
use crate::typed::is_field_typed;
use crate::words::{
    bound_word, has_field_word, is_field_label, next, same_bool, same_multiplicity, same_text,
};
use core_tree::{Field, FieldBound};
use resolve_said::OwnField;
use std::alloc::{AllocError, Global};
use syntax_tree::{Field as Written, FieldWord, Named};

/// The owner of a field: its instance, number and label.
#[derive(Clone, Copy, Drop)]
pub struct Owner<'a> {
    pub instance: u32,
    pub sig: u32,
    pub label: &'a str,
}

/// The next list of a sig, and the next field.
#[derive(Clone, Copy, Drop)]
pub struct ListSpot {
    pub list: u32,
    pub field: u32,
}

/// Whether two numbers are the same, where there is one.
fn is_disj_list(found: Option<u32>, wanted: bool, list: u32) -> bool
    ensures { IsTrue result → found ≡ if wanted then Some list else None }
{
    match found {
        None => !wanted,
        Some(number) => wanted && number == list,
    }
}

/// Whether the words of a bound are those of its text.
fn is_worded(list: u32, written: &Written, columns: u32, bound: &FieldBound) -> bool
    ensures { IsTrue result → IsWorded list written.now columns bound.now }
{
    let word = bound_word(written.bound.word, columns);
    let disjoint = has_field_word(FieldWord::Disj, written.words.as_slice());
    same_multiplicity(bound.bound.multiplicity, word)
        && is_disj_list(bound.disj_list, disjoint, list)
        && same_bool(bound.disj_values, written.is_disjoint)
}

/// Whether the bound of the field of this number says what its text says.
fn is_bound(
    alloc: Global,
    sources: &Sources<'_>,
    own: &[OwnField],
    instance: u32,
    sig: u32,
    list: u32,
    number: u32,
    written: &Written,
    columns: u32,
    bound: &FieldBound,
) -> Result<bool, AllocError>
    requires { AreOwn sources.now.model.now.sigs sources.now.fields.now instance sig list own.now }
    ensures { IfOk result (λ b. IsTrue b → IsBound (given sources.now) instance sig list number
        written.now columns bound.now) }
{
    if !is_worded(list, written, columns, bound) {
        return Ok(false);
    }
    let (names, model, readings) = (sources.names, sources.model, sources.readings);
    let (text, expr) = (&written.bound, &bound.bound.expr);
    match said_bound(
        alloc, names, model, readings, instance, sig, own, text, expr,
    )? {
        None => Ok(false),
        Some(found) => {
            let integers = sources.integers;
            let typed = is_field_typed(alloc, readings, integers, instance, sig, number, &found)?;
            Ok(typed)
        }
    }
}

/// Whether a field says what its text says.
fn is_field(
    alloc: Global,
    sources: &Sources<'_>,
    own: &[OwnField],
    owner: &Owner<'_>,
    list: u32,
    number: u32,
    written: &Written,
    name: &Named,
    made: &Field,
) -> Result<bool, AllocError>
    requires { AreOwn sources.now.model.now.sigs sources.now.fields.now owner.now.instance
        owner.now.sig list own.now }
    ensures { IfOk result (λ b. IsTrue b → IsField (given sources.now) owner.now.instance
        owner.now.sig owner.now.label.now list number written.now name.now made.now) }
{
    if !is_field_label(alloc, made.label.text(), owner.label, name.name.text())? {
        return Ok(false);
    }
    if !same_bool(
        made.is_var,
        has_field_word(FieldWord::Var, written.words.as_slice()),
    ) {
        return Ok(false);
    }
    if !is_owner(made.owner, owner.sig) {
        return Ok(false);
    }
    match &made.declared {
        None => Ok(false),
        Some(bound) => {
            let columns = made.columns;
            let (instance, sig) = (owner.instance, owner.sig);
            let told = is_bound(
                alloc, sources, own, instance, sig, list, number, written, columns, bound,
            )?;
            Ok(told)
        }
    }
}

/// Whether it is the number of the owner.
fn is_owner(found: Option<u32>, wanted: u32) -> bool
    ensures { IsTrue result → found ≡ Some wanted }
{
    match found {
        None => false,
        Some(sig) => sig == wanted,
    }
}

/// Whether what is noted of a field is what its text says.
fn is_entry(
    instance: u32,
    sig: u32,
    list: u32,
    written: &Written,
    name: &Named,
    noted: &FieldDecl,
) -> bool
    ensures { IsTrue result → IsEntry instance sig list written.now name.now noted.now }
{
    let private = has_field_word(FieldWord::Private, written.words.as_slice());
    same_text(noted.name.text(), name.name.text())
        && same_bool(noted.is_private, private)
        && noted.instance == instance
        && noted.owner == sig
        && noted.list == list
}

/// Whether the field of this number says what its text says; the answer is the number of the next one.
fn field_at(
    alloc: Global,
    sources: &Sources<'_>,
    own: &[OwnField],
    owner: &Owner<'_>,
    list: u32,
    written: &Written,
    at: u32,
    name: &Named,
) -> Result<Option<u32>, AllocError>
    requires { AreOwn sources.now.model.now.sigs sources.now.fields.now owner.now.instance
        owner.now.sig list own.now }
    ensures { IfOk result (λ o. IfSome o (IsFieldAt (given sources.now) owner.now.instance
        owner.now.sig owner.now.label.now list written.now at name.now)) }
{
    let place = at as usize;
    if place >= sources.model.fields.len() || place >= sources.fields.len() {
        return Ok(None);
    }
    if !is_entry(
        owner.instance,
        owner.sig,
        list,
        written,
        name,
        &sources.fields[place],
    ) {
        return Ok(None);
    }
    let made = sources.model.fields.get(place);
    if !is_field(alloc, sources, own, owner, list, at, written, name, made)? {
        return Ok(None);
    }
    let after = next(at)?;
    Ok(Some(after))
}

/// Whether the fields of a list say what their text says, from this number on; the answer is the number of the next one.
fn fields_at(
    alloc: Global,
    sources: &Sources<'_>,
    own: &[OwnField],
    owner: &Owner<'_>,
    list: u32,
    written: &Written,
    at: u32,
) -> Result<Option<u32>, AllocError>
    requires { AreOwn sources.now.model.now.sigs sources.now.fields.now owner.now.instance
        owner.now.sig list own.now }
    ensures { IfOk result (λ o. IfSome o (Walks (IsFieldAt (given sources.now) owner.now.instance
        owner.now.sig owner.now.label.now list written.now) at written.now.names)) }
{
    let mut here = at;
    for name in written.names.as_slice() {
        match field_at(alloc, sources, own, owner, list, written, here, name)? {
            None => return Ok(None),
            Some(there) => here = there,
        }
    }
    Ok(Some(here))
}

/// Whether the fields of a list say what their text says; the answer is the next list.
fn list_at(
    alloc: Global,
    sources: &Sources<'_>,
    owner: &Owner<'_>,
    at: ListSpot,
    written: &Written,
) -> Result<Option<ListSpot>, AllocError>
    ensures { IfOk result (λ o. IfSome o (IsListAt (given sources.now) owner.now.instance
        owner.now.sig owner.now.label.now at written.now)) }
{
    let sigs = sources.model.sigs.as_slice();
    let (instance, sig) = (owner.instance, owner.sig);
    let own = match own_fields(alloc, sigs, sources.fields, instance, sig, at.list)? {
        None => return Ok(None),
        Some(own) => own,
    };
    let list = at.list;
    match fields_at(
        alloc,
        sources,
        own.as_slice(),
        owner,
        list,
        written,
        at.field,
    )? {
        None => Ok(None),
        Some(field) => {
            let after = next(list)?;
            Ok(Some(ListSpot { list: after, field }))
        }
    }
}

/// Whether the fields of a sig say what its text says, from this number on; the answer is the number of the next one.
pub fn lists_at(
    alloc: Global,
    sources: &Sources<'_>,
    owner: &Owner<'_>,
    at: u32,
    lists: &[Written],
) -> Result<Option<u32>, AllocError>
    ensures { IfOk result (λ o. IfSome o (AreLists (given sources.now) owner.now.instance
        owner.now.sig owner.now.label.now at lists.now)) }
{
    let mut here = ListSpot { list: 0, field: at };
    for written in lists {
        match list_at(alloc, sources, owner, here, written)? {
            None => return Ok(None),
            Some(there) => here = there,
        }
    }
    Ok(Some(here.field))
}
