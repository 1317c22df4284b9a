//! What declarations mean by their names.

ghost use Rattle.std.specs.Prelude.{◌≡◌, [], ◌∷◌, map, slice_get, IfOk, IfSome, Some};
ghost use Rattle.resolve_names.specs.Gathered.{number_in};
ghost use Rattle.resolve_rules.specs.Candidates.{set_of};
ghost use Rattle.resolve_read.specs.At.{at_of};
ghost use Rattle.resolve_read.specs.Candidates.{an_integer, meaning_of};

use crate::spot::Spot;
use base_lists::Items;
use resolve_names::Decl;
use resolve_readings::{Meaning, What};
use resolve_types::{Columns, Member};
use std::alloc::{AllocError, Global};
use syntax_tree::SigRef;

/// A set with its type.
pub fn set_meaning(columns: Columns, integer: bool) -> Meaning
    ensures { result ≡ set_of columns integer }
{
    let widest = columns.count;
    Meaning {
        what: What::Set(columns),
        marked: false,
        relevant: true,
        integer,
        widest,
    }
}

/// The type of one column that has one member.
pub fn column_of(alloc: Global, member: Member) -> Result<Columns, AllocError>
    ensures { IfOk result (λ c. c ≡ record { count = 1; rows = (member ∷ []) ∷ [] }) }
{
    let mut row = Items::new(alloc);
    row.push(member)?;
    let mut rows = Items::new(alloc);
    rows.push(row)?;
    Ok(Columns { count: 1, rows })
}

/// An equal meaning to the one of that number, where there is one.
fn copy_at(alloc: Global, all: &[Meaning], number: u32) -> Result<Option<Meaning>, AllocError>
    ensures { IfOk result (λ m. m ≡ slice_get all.now number) }
{
    match all.get(number as usize) {
        None => Ok(None),
        Some(found) => {
            let copy = found.copy(alloc)?;
            Ok(Some(copy))
        }
    }
}

/// What a sig means.
fn meaning_of_sig(
    alloc: Global,
    spot: &Spot<'_>,
    sig: SigRef,
) -> Result<Option<Meaning>, AllocError>
    ensures { IfOk result (λ r. IfSome r (λ m. slice_get spot.now.types.now.sigs
        (number_in spot.now.names.now.scopes sig) ≡ Some m)) }
{
    match spot.names.sig_number(sig) {
        None => Ok(None),
        Some(number) => {
            let found = copy_at(alloc, spot.types.sigs.as_slice(), number)?;
            Ok(found)
        }
    }
}

/// What an integer means.
fn integer(alloc: Global) -> Result<Meaning, AllocError>
    ensures { IfOk result (λ m. m ≡ an_integer) }
{
    let columns = column_of(alloc, Member::Int)?;
    Ok(set_meaning(columns, false))
}

/// What a declaration means by its name.
fn meaning_of(alloc: Global, spot: &Spot<'_>, decl: Decl) -> Result<Option<Meaning>, AllocError>
    ensures { IfOk result (λ r. IfSome r (λ m. meaning_of (at_of spot.now) decl ≡ Some m)) }
{
    match decl {
        Decl::Sig(sig) => {
            let found = meaning_of_sig(alloc, spot, sig)?;
            Ok(found)
        }
        Decl::Parameter(None) => {
            let found = integer(alloc)?;
            Ok(Some(found))
        }
        Decl::Parameter(Some(sig)) => {
            let found = meaning_of_sig(alloc, spot, sig)?;
            Ok(found)
        }
        Decl::Field(field) => {
            let found = copy_at(alloc, spot.types.fields.as_slice(), field)?;
            Ok(found)
        }
        Decl::Body(body) => {
            let found = copy_at(alloc, spot.types.bodies.as_slice(), body)?;
            Ok(found)
        }
    }
}

/// What each of the declarations means.
pub fn meanings_of(
    alloc: Global,
    spot: &Spot<'_>,
    decls: &[Decl],
) -> Result<Option<Items<Meaning>>, AllocError>
    ensures { IfOk result (λ r. IfSome r (λ ms. map (meaning_of (at_of spot.now)) decls.now
        ≡ map Some ms)) }
{
    let mut all = Items::new(alloc);
    for decl in decls {
        match meaning_of(alloc, spot, *decl)? {
            None => return Ok(None),
            Some(meaning) => all.push(meaning)?,
        }
    }
    Ok(Some(all))
}
