//! The fields that are joined to `this` where their name alone is written.

ghost use Rattle.std.specs.Prelude.{◌≡◌, map, slice_get, IfOk, IfSome, Some};
ghost use Rattle.resolve_readings.specs.declared.meaning.What.TheVariants as what;
ghost use Rattle.resolve_read.specs.At.{at_of};
ghost use Rattle.resolve_read.specs.Candidates.{has_field, joined_to, meaning_of_this, named_field, own_named};

use crate::locals::same_text;
use crate::meanings::set_meaning;
use crate::spot::Spot;
use base_lists::Items;
use resolve_readings::{Meaning, What};
use resolve_said::OwnField;
use resolve_types::Columns;
use std::alloc::{AllocError, Global};

/// Whether the field is one of those.
pub fn has_field(own: &[OwnField], field: u32) -> bool
    ensures { result ≡ has_field own.now field }
{
    for one in own {
        if one.field == field {
            return true;
        }
    }
    false
}

/// The number of the field, where it has that name.
fn named_field(text: &str, one: &OwnField) -> Option<u32>
    ensures { result ≡ named_field text.now one.now }
{
    if same_text(one.name.text(), text) {
        Some(one.field)
    } else {
        None
    }
}

/// The numbers of those of that name.
pub fn own_named(alloc: Global, own: &[OwnField], text: &str) -> Result<Items<u32>, AllocError>
    ensures { IfOk result (λ fs. fs ≡ own_named own.now text.now) }
{
    let mut all = Items::new(alloc);
    for one in own {
        all.push_some(named_field(text, one))?;
    }
    Ok(all)
}

/// What a field of that type means that is joined to `this`.
fn joined_set(
    alloc: Global,
    spot: &Spot<'_>,
    columns: &Columns,
    integer: bool,
) -> Result<Option<Meaning>, AllocError>
    ensures { IfOk result (λ r. IfSome r (λ m. joined_to (at_of spot.now) (what.Set columns.now)
        integer ≡ Some m)) }
{
    if spot.this.count < 1 {
        return Ok(None);
    }
    if columns.count < 2 {
        return Ok(None);
    }
    let joined = spot.this.join(alloc, &spot.types.typing.lines, columns)?;
    Ok(Some(set_meaning(joined, integer)))
}

/// What a field means that is joined to `this`.
fn joined_to(
    alloc: Global,
    spot: &Spot<'_>,
    meaning: &Meaning,
) -> Result<Option<Meaning>, AllocError>
    ensures { IfOk result (λ r. IfSome r (λ m. joined_to (at_of spot.now) meaning.now.what
        meaning.now.integer ≡ Some m)) }
{
    match &meaning.what {
        What::Set(columns) => {
            let joined = joined_set(alloc, spot, columns, meaning.integer)?;
            Ok(joined)
        }
        _ => Ok(None),
    }
}

/// What the field of that number means that is joined to `this`.
fn meaning_of_this(
    alloc: Global,
    spot: &Spot<'_>,
    field: u32,
) -> Result<Option<Meaning>, AllocError>
    ensures { IfOk result (λ r. IfSome r (λ m. meaning_of_this (at_of spot.now) field
        ≡ Some m)) }
{
    match spot.types.fields.as_slice().get(field as usize) {
        None => Ok(None),
        Some(meaning) => {
            let joined = joined_to(alloc, spot, meaning)?;
            Ok(joined)
        }
    }
}

/// What each of the fields means that are joined to `this`.
pub fn meanings_of_this(
    alloc: Global,
    spot: &Spot<'_>,
    fields: &[u32],
) -> Result<Option<Items<Meaning>>, AllocError>
    ensures { IfOk result (λ r. IfSome r (λ ms. map (meaning_of_this (at_of spot.now)) fields.now
        ≡ map Some ms)) }
{
    let mut all = Items::new(alloc);
    for field in fields {
        match meaning_of_this(alloc, spot, *field)? {
            None => return Ok(None),
            Some(meaning) => all.push(meaning)?,
        }
    }
    Ok(Some(all))
}
