//! A model says what the texts declare of sigs, fields, facts and assertions.

ghost use Rattle.std.specs.Prelude.{◌≡◌, length, IfOk, IsTrue};
ghost use Rattle.resolve_told_sigs.specs.Told.{AreFree, AreSigsTold, IsFree, IsWhole, given};

use crate::integers::integers_of;
use crate::sigs::are_strings;
use crate::table::{FieldDecl, all_fields};
use crate::typed::are_typed;
use crate::walk::{Spot, behind_all};
use core_tree::{Field, Model};
use resolve_names::Names;
use resolve_read::Readings;
use std::alloc::{AllocError, Global};
use syntax_tree::Loaded;

/// What the texts are compared with: a model, the names and fields that they declare, what is told of the readings, and the instance
/// of the integers that are opened implicitly.
#[derive(Clone, Copy, Drop)]
pub struct Sources<'a> {
    pub names: &'a Names,
    pub model: &'a Model,
    pub fields: &'a [FieldDecl],
    pub readings: &'a Readings,
    pub integers: Option<u32>,
}

/// Whether a field has no owner.
fn is_free(field: &Field) -> bool
    ensures { IsTrue result → IsFree field.now }
{
    match field.owner {
        None => true,
        Some(_) => false,
    }
}

/// Whether the fields from this place on have no owner.
fn are_free(fields: &[Field], first: usize) -> bool
    ensures { IsTrue result → AreFree first fields.now }
{
    for place in first..fields.len() {
        if !is_free(&fields[place]) {
            return false;
        }
    }
    true
}

/// Whether as many fields, facts and assertions are declared as were passed, and the model has no more facts and assertions.
fn are_counted(sources: &Sources<'_>, there: Spot) -> bool
    ensures fields { IsTrue result → length sources.now.fields.now ≡ there.field }
    ensures facts { IsTrue result → length sources.now.model.now.facts ≡ there.fact }
    ensures asserts { IsTrue result → length sources.now.model.now.asserts ≡ there.assertion }
{
    sources.fields.len() == there.field as usize
        && sources.model.facts.len() == there.fact as usize
        && sources.model.asserts.len() == there.assertion as usize
}

/// Whether the model has no more than what the texts declare, and the types of the declared sigs are those of the hierarchy.
fn is_whole(alloc: Global, sources: &Sources<'_>, there: Spot) -> Result<bool, AllocError>
    ensures { IfOk result (λ b. IsTrue b → IsWhole (given sources.now) there) }
{
    let model = sources.model;
    if !are_strings(model.sigs.as_slice(), there.sig) {
        return Ok(false);
    }
    if !are_free(model.fields.as_slice(), there.field as usize) {
        return Ok(false);
    }
    if !are_counted(sources, there) {
        return Ok(false);
    }
    let typed = are_typed(alloc, sources, there)?;
    Ok(typed)
}

/// Whether a model says what the texts declare of sigs, fields, facts and assertions, by readings that are the right ones, and has no
/// others: its sigs are those that are declared, then `String` and the sigs of literals, and behind the declared fields stand fields
/// without an owner. The types of sigs and fields that are told with the readings are the right ones too.
///
/// Which sigs are exact, and the columns and types that the model itself has of its fields, aren't compared.
pub fn are_sigs_told(
    alloc: Global,
    loaded: &Loaded,
    names: &Names,
    model: &Model,
    readings: &Readings,
) -> Result<bool, AllocError>
    ensures { IfOk result (λ b. IsTrue b → AreSigsTold loaded.now.texts loaded.now.instances
        names.now.scopes model.now readings.now) }
{
    let fields = all_fields(alloc, loaded)?;
    let sources = Sources {
        names,
        model,
        fields: fields.as_slice(),
        readings,
        integers: integers_of(loaded),
    };
    let start = Spot {
        instance: 0,
        sig: 0,
        field: 0,
        fact: 0,
        assertion: 0,
    };
    let texts = loaded.texts.as_slice();
    match behind_all(alloc, &sources, texts, start, loaded.instances.as_slice())? {
        None => Ok(false),
        Some(there) => {
            let whole = is_whole(alloc, &sources, there)?;
            Ok(whole)
        }
    }
}
