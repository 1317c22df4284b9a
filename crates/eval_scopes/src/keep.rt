//! Whether a lasso keeps scopes, sig by sig and field by field.

ghost use Rattle.std.specs.Prelude.{◌≡◌, ◌↔◌, ◌≤◌, ◌∷◌, [], ℕ, List, Contains, length, IfOk, IfSome, IsTrue};
ghost use Rattle.core_meaning.specs.Kept.{InSigBound, IsWithin, Keeps};
ghost use Rattle.eval_scopes.specs.Asked.{Allows, SigKept, SigsKept, FieldKept, FieldsKept};

use crate::bounds::is_bounded;
use crate::places::{ever, stays};
use core_meaning::{Lasso, Scopes, SigScope};
use core_tree::{Field, Model, Sig};
use eval_context::{Setting, make_setting};
use eval_sets::{EvaluationFault, atoms_in};
use std::alloc::{AllocError, Global};

/// Whether a scope allows so many atoms.
fn allows(scope: &SigScope, count: usize) -> bool
    ensures { IsTrue result ↔ Allows scope.now count }
{
    match scope.number {
        None => true,
        Some(number) => is_within(scope.exact, number, count as u64),
    }
}

/// Whether a number is another.
fn is_number(number: u64, count: u64) -> bool
    ensures { IsTrue result ↔ (count ≡ number) }
{
    count == number
}

/// Whether a number is at most another.
fn is_at_most(number: u64, count: u64) -> bool
    ensures { IsTrue result ↔ (count ≤ number) }
{
    count <= number
}

/// Whether a number of atoms is another, or at most another.
fn is_within(exact: bool, number: u64, count: u64) -> bool
    ensures { IsTrue result ↔ IsWithin exact number count }
{
    if exact {
        return is_number(number, count);
    }
    is_at_most(number, count)
}

/// Whether some numbers of the universe lie in the upper bound of a sig.
fn are_bounded(
    setting: &Setting,
    place: usize,
    sig: &Sig,
    members: &[u32],
) -> Result<bool, EvaluationFault>
    ensures { IfOk result (λ b. IsTrue b ↔ ((a : ℕ) → Contains members.now a →
        InSigBound setting.now.model setting.now.scopes place sig.now a)) }
{
    for member in members {
        let bounded = is_bounded(setting, place, sig, *member)?;
        if !bounded {
            return Ok(false);
        }
    }
    Ok(true)
}

/// Whether a sig keeps its upper bound and its scope, and is the same at all positions where it isn't
/// `var`.
fn sig_keeps(
    setting: &Setting,
    place: usize,
    sig: &Sig,
    scope: &SigScope,
) -> Result<bool, EvaluationFault>
    ensures { IfOk result (λ b. IsTrue b ↔ SigKept setting.now place sig.now scope.now) }
{
    let all = ever(setting, place)?;
    let members = atoms_in(setting.alloc(), &all)?;
    if !stays(setting, sig.is_var, place, &all) {
        return Ok(false);
    }
    let count = members.len();
    if !allows(scope, count) {
        return Ok(false);
    }
    are_bounded(setting, place, sig, &members)
}

/// Whether each sig does.
fn sigs_keep(setting: &Setting) -> Result<bool, EvaluationFault>
    ensures { IfOk result (λ b. IsTrue b ↔ SigsKept setting.now (length setting.now.model.sigs)) }
{
    let model = setting.model();
    let scopes = setting.scopes();
    let count = model.sigs.len();
    for place in 0..count {
        if place >= scopes.numbers.len() {
            return Err(EvaluationFault::Unfit);
        }
        let sig = model.sigs.get(place);
        let scope = scopes.numbers.get(place);
        let good = sig_keeps(setting, place, sig, scope)?;
        if !good {
            return Ok(false);
        }
    }
    Ok(true)
}

/// Whether a field is the same at all positions where it isn't `var`.
fn field_keeps(setting: &Setting, place: usize, field: &Field) -> Result<bool, EvaluationFault>
    ensures { IfOk result (λ b. IsTrue b ↔ FieldKept setting.now place field.now) }
{
    let model = setting.model();
    match model.sigs.len().checked_add(place) {
        Some(number) => {
            let all = ever(setting, number)?;
            Ok(stays(setting, field.is_var, number, &all))
        }
        None => Err(EvaluationFault::Unfit),
    }
}

/// Whether each field is.
fn fields_keep(setting: &Setting) -> Result<bool, EvaluationFault>
    ensures { IfOk result (λ b. IsTrue b ↔ FieldsKept setting.now
        (length setting.now.model.fields)) }
{
    let model = setting.model();
    let count = model.fields.len();
    for place in 0..count {
        let field = model.fields.get(place);
        let good = field_keeps(setting, place, field)?;
        if !good {
            return Ok(false);
        }
    }
    Ok(true)
}

/// Whether the lasso keeps the scopes, or why that isn't known.
fn kept(
    alloc: Global,
    model: &Model,
    scopes: &Scopes,
    lasso: &Lasso,
) -> Result<bool, EvaluationFault>
    ensures { IfOk result (λ b. IsTrue b ↔ Keeps model.now scopes.now lasso.now) }
{
    if model.sigs.len() != scopes.numbers.len() {
        return Err(EvaluationFault::Unfit);
    }
    let setting = make_setting(alloc, model, scopes, lasso, 0)?;
    let sigs = sigs_keep(&setting)?;
    if !sigs {
        return Ok(false);
    }
    fields_keep(&setting)
}

/// Whether the lasso keeps the scopes: each sig's atoms lie in its upper bound and number what its
/// scope says, at all positions together, and what isn't `var` is the same at all positions.
///
/// The answer is that of want of memory, too, where the scopes haven't just one entry for each sig,
/// where the universe has more than 16,384 numbers, and where a relation has tuples of two lengths.
pub fn keeps(
    alloc: Global,
    model: &Model,
    scopes: &Scopes,
    lasso: &Lasso,
) -> Result<bool, AllocError>
    ensures { IfOk result (λ b. IsTrue b ↔ Keeps model.now scopes.now lasso.now) }
{
    match kept(alloc, model, scopes, lasso) {
        Ok(truth) => Ok(truth),
        Err(_) => Err(AllocError),
    }
}
