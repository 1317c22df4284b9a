//! Whether sigs and fields have the types that their declarations make of them.

ghost use Rattle.std.specs.Prelude.{◌≡◌, IfOk, IfSome, IsTrue, Some, length, map, slice_get, take};
ghost use Rattle.resolve_types.specs.declared.columns.Columns.{Columns as TypeOf};
ghost use Rattle.resolve_readings.specs.declared.meaning.What.TheVariants as what;
ghost use Rattle.resolve_rules.specs.Candidates.{set_of};
ghost use Rattle.resolve_told_sigs.specs.Says.{IsFieldTyped, IsSigTyped, is_integer, set_in, sig_type};
ghost use Rattle.resolve_told_sigs.specs.Told.{AreTyped, given, type_in};

use crate::told::Sources;
use crate::walk::Spot;
use crate::words::{next, same_bool};
use base_lists::Items;
use core_tree::Sig;
use resolve_read::{Readings, Types};
use resolve_readings::{Meaning, What};
use resolve_told_types::are_sig_types;
use resolve_types::{Columns, Member};
use std::alloc::{AllocError, Global};

/// Whether two members are the same.
fn same_member(a: Member, b: Member) -> bool
    ensures { IsTrue result → a ≡ b }
{
    match a {
        Member::Int => matches!(b, Member::Int),
        Member::Sig(s) => match b {
            Member::Int => false,
            Member::Sig(t) => s == t,
        },
    }
}

/// Whether two rows are the same.
fn same_row(a: &[Member], b: &[Member]) -> bool
    ensures { IsTrue result → a.now ≡ b.now }
{
    if a.len() != b.len() {
        return false;
    }
    for place in 0..a.len() {
        if !same_member(a[place], b[place]) {
            return false;
        }
    }
    true
}

/// Whether two lists of rows are the same.
fn same_rows(a: &[Items<Member>], b: &[Items<Member>]) -> bool
    ensures { IsTrue result → a.now ≡ b.now }
{
    if a.len() != b.len() {
        return false;
    }
    for place in 0..a.len() {
        if !same_row(a[place].as_slice(), b[place].as_slice()) {
            return false;
        }
    }
    true
}

/// Whether two types are the same.
pub fn same_columns(a: &Columns, b: &Columns) -> bool
    ensures { IsTrue result → a.now ≡ b.now }
{
    a.count == b.count && same_rows(a.rows.as_slice(), b.rows.as_slice())
}

/// The type of a set.
fn set_in(meant: &What) -> Option<&Columns>
    ensures { IfSome result (λ c. meant.now ≡ what.Set c.now) }
{
    match meant {
        What::Set(columns) => Some(columns),
        What::Formula => None,
        What::Waiting(_, _) => None,
    }
}

/// The type of a sig.
pub fn sig_type(types: &Types, sig: u32) -> Option<&Columns>
    ensures { IfSome result (λ c. sig_type types.now sig ≡ Some c.now) }
{
    match types.sigs.as_slice().get(sig as usize) {
        None => None,
        Some(meaning) => set_in(&meaning.what),
    }
}

/// Whether an instance is that of the integers that are opened implicitly.
fn is_integer(integers: Option<u32>, instance: u32) -> bool
    ensures { result ≡ is_integer integers instance }
{
    match integers {
        None => false,
        Some(number) => number == instance,
    }
}

/// Whether a meaning is that of a name, if it is a set of this type; the flag says whether that is one of the implicitly opened
/// integers.
fn is_named(meaning: &Meaning, columns: &Columns, integer: bool) -> bool
    ensures { IsTrue result → meaning.now.what ≡ what.Set columns.now
        → meaning.now ≡ set_of columns.now integer }
{
    !meaning.marked
        && meaning.relevant
        && same_bool(meaning.integer, integer)
        && meaning.widest == columns.count
}

/// Whether a meaning is that of the name of a set.
fn is_set(meaning: &Meaning, integer: bool) -> bool
    ensures { IsTrue result → (c : TypeOf) × (meaning.now ≡ set_of c integer) }
{
    match set_in(&meaning.what) {
        None => false,
        Some(columns) => is_named(meaning, columns, integer),
    }
}

/// Whether a meaning is that of the name of a set of this type.
fn is_set_of(meaning: &Meaning, columns: &Columns, integer: bool) -> bool
    ensures { IsTrue result → meaning.now ≡ set_of columns.now integer }
{
    match set_in(&meaning.what) {
        None => false,
        Some(found) => same_columns(found, columns) && is_named(meaning, columns, integer),
    }
}

/// Whether the sig of this number of an instance means a set.
pub fn is_sig_typed(readings: &Readings, integers: Option<u32>, instance: u32, sig: u32) -> bool
    ensures { IsTrue result → IsSigTyped readings.now integers instance sig }
{
    match readings.types.sigs.as_slice().get(sig as usize) {
        None => false,
        Some(meaning) => is_set(meaning, is_integer(integers, instance)),
    }
}

/// Whether the field of this number means a set of this type.
fn has_type(
    readings: &Readings,
    integers: Option<u32>,
    instance: u32,
    field: u32,
    columns: &Columns,
) -> bool
    ensures { IsTrue result → slice_get readings.now.types.fields field
        ≡ Some (set_of columns.now (is_integer integers instance)) }
{
    match readings.types.fields.as_slice().get(field as usize) {
        None => false,
        Some(meaning) => is_set_of(meaning, columns, is_integer(integers, instance)),
    }
}

/// Whether the field of this number, of a sig of an instance, means what its bound of this type makes of it.
pub fn is_field_typed(
    alloc: Global,
    readings: &Readings,
    integers: Option<u32>,
    instance: u32,
    sig: u32,
    field: u32,
    bound: &Columns,
) -> Result<bool, AllocError>
    ensures { IfOk result (λ b. IsTrue b → IsFieldTyped readings.now integers instance sig field
        bound.now) }
{
    let types = &readings.types;
    match sig_type(types, sig) {
        None => Ok(false),
        Some(this) => {
            let made = this.product(alloc, &types.typing.lines, bound)?;
            Ok(has_type(readings, integers, instance, field, &made))
        }
    }
}

/// An equal type, where a meaning is that of a set.
fn type_in(alloc: Global, meaning: &Meaning) -> Result<Option<Columns>, AllocError>
    ensures { IfOk result (λ o. IfSome o (λ c. type_in meaning.now ≡ Some c)) }
{
    match set_in(&meaning.what) {
        None => Ok(None),
        Some(columns) => {
            let columns = columns.copy(alloc)?;
            Ok(Some(columns))
        }
    }
}

/// The types of sets; none where one is no set.
fn types_of(alloc: Global, meanings: &[Meaning]) -> Result<Option<Items<Columns>>, AllocError>
    ensures { IfOk result (λ o. IfSome o (λ cs. map type_in meanings.now ≡ map Some cs)) }
{
    let mut all = Items::new(alloc);
    for meaning in meanings {
        match type_in(alloc, meaning)? {
            None => return Ok(None),
            Some(columns) => all.push(columns)?,
        }
    }
    Ok(Some(all))
}

/// The first sigs, so many; none where there are fewer.
fn first_sigs(sigs: &[Sig], count: u32) -> Option<&[Sig]>
    ensures { IfSome result (λ front. front.now ≡ take count sigs.now) }
{
    let count = count as usize;
    if count > sigs.len() {
        return None;
    }
    Some(&sigs[..count])
}

/// Whether there are so many types of sigs, one for each field that is declared, and `String` has the number behind the declared sigs.
fn are_counted(types: &Types, sigs: u32, there: Spot) -> bool
    ensures sigs { IsTrue result → length types.now.sigs ≡ sigs }
    ensures fields { IsTrue result → length types.now.fields ≡ there.field }
    ensures string { IsTrue result → types.now.string ≡ there.sig }
{
    types.sigs.len() == sigs as usize
        && types.fields.len() == there.field as usize
        && types.string == there.sig
}

/// Whether the types of the sigs are those of the hierarchy, in which `String` stands behind those that are declared; and there is one
/// for each sig of it, and one for each field that is declared.
pub fn are_typed(alloc: Global, sources: &Sources<'_>, there: Spot) -> Result<bool, AllocError>
    ensures { IfOk result (λ b. IsTrue b → AreTyped (given sources.now) there) }
{
    let types = &sources.readings.types;
    let count = next(there.sig)?;
    if !are_counted(types, count, there) {
        return Ok(false);
    }
    let front = match first_sigs(sources.model.sigs.as_slice(), count) {
        None => return Ok(false),
        Some(front) => front,
    };
    match types_of(alloc, types.sigs.as_slice())? {
        None => Ok(false),
        Some(columns) => {
            let (lines, all) = (types.typing.lines.as_slice(), columns.as_slice());
            let (univ, iden) = (&types.univ, &types.typing.iden);
            let right = are_sig_types(alloc, front, lines, all, univ, iden)?;
            Ok(right)
        }
    }
}
