//! The sigs of a model that opens give to `exactly` parameters are compared with those of its texts.

ghost use Rattle.std.specs.Prelude.{◌≡◌, ℕ, None, Some, replicate, slice_get, IfOk, IsTrue};
ghost use Rattle.core_tree.specs.declared.model.Sig.{Sig as ModelSig};
ghost use Rattle.resolve_told_opens.specs.Told.{AreOpensTold};

use crate::gifts::add_gifts;
use core_tree::{Model, Origin, Sig};
use resolve_names::Names;
use std::alloc::{AllocError, Global};
use syntax_tree::Loaded;

/// Whether two places are the same.
fn is_same(a: Origin, b: Origin) -> bool
    ensures { IsTrue result → a ≡ b }
{
    a.instance == b.instance
        && a.place.module == b.place.module
        && a.place.line == b.place.line
        && a.place.column == b.place.column
}

/// Whether both are there and the same, or neither.
fn are_same(a: Option<Origin>, b: Option<Origin>) -> bool
    ensures { IsTrue result → a ≡ b }
{
    match a {
        None => match b {
            None => true,
            Some(_) => false,
        },
        Some(a) => match b {
            None => false,
            Some(b) => is_same(a, b),
        },
    }
}

/// Whether the table has of each sig the open that gives it.
fn has_opens(sigs: &[Sig], table: &[Option<Origin>]) -> bool
    ensures { IsTrue result → (s : ℕ) (d : ModelSig) → slice_get sigs.now s ≡ Some d
        → slice_get table.now s ≡ Some d.exactly }
{
    if table.len() != sigs.len() {
        return false;
    }
    for place in 0..sigs.len() {
        if !are_same(sigs[place].exactly, table[place]) {
            return false;
        }
    }
    true
}

/// No open, so many times.
fn no_opens(alloc: Global, count: usize) -> Result<Vec<Option<Origin>>, AllocError>
    ensures { IfOk result (λ all. all.items ≡ replicate count None) }
{
    let mut all = Vec::new(alloc);
    for _ in 0..count {
        all.push(None)?;
    }
    Ok(all)
}

/// Whether each sig of the model has `exactly` just where an open gives it to an `exactly` parameter, and of the first of these
/// opens.
pub fn are_opens_told(
    alloc: Global,
    loaded: &Loaded,
    names: &Names,
    model: &Model,
) -> Result<bool, AllocError>
    ensures { IfOk result (λ b. IsTrue b → AreOpensTold loaded.now.texts loaded.now.instances
        names.now.scopes model.now.sigs) }
{
    let sigs = model.sigs.as_slice();
    let mut table = no_opens(alloc, sigs.len())?;
    add_gifts(alloc, loaded, names, &mut table)?;
    Ok(has_opens(sigs, table.as_slice()))
}
