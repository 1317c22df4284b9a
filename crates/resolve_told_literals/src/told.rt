//! The literals of a model are compared with those of its texts.

ghost use Rattle.std.specs.Prelude.{IfOk, IsTrue, codes};
ghost use Rattle.resolve_told_literals.specs.Told.{AreLiteralsTold, HasLabel, LabelsDiffer};

use crate::labels::{numbers_from, string_number};
use crate::marks::are_found;
use core_tree::{Model, Sig};
use std::alloc::{AllocError, Global};
use syntax_tree::Loaded;

/// Whether no two sigs have one label.
fn labels_differ(alloc: Global, sigs: &[Sig]) -> Result<bool, AllocError>
    ensures { IfOk result (λ b. IsTrue b → LabelsDiffer sigs.now) }
{
    match numbers_from(alloc, sigs, 0)? {
        None => Ok(false),
        Some(_numbers) => Ok(true),
    }
}

/// The same where `String` has this number.
fn are_told_behind(
    alloc: Global,
    loaded: &Loaded,
    sigs: &[Sig],
    string: usize,
) -> Result<bool, AllocError>
    requires { HasLabel sigs.now string (codes "String") }
    ensures { IfOk result (λ b. IsTrue b → AreLiteralsTold loaded.now.texts loaded.now.instances
        sigs.now) }
{
    if string >= sigs.len() {
        return Ok(false);
    }
    if !labels_differ(alloc, sigs)? {
        return Ok(false);
    }
    let first = string + 1;
    match numbers_from(alloc, sigs, first)? {
        None => Ok(false),
        Some(numbers) => {
            let found = are_found(alloc, loaded, &numbers, first, sigs.len())?;
            Ok(found)
        }
    }
}

/// Whether the sigs behind `String` are just those of the literals that the texts of the instances write, one of each: the label
/// of each is a literal with its quotes. Of all sigs no two have one label.
pub fn are_literals_told(alloc: Global, loaded: &Loaded, model: &Model) -> Result<bool, AllocError>
    ensures { IfOk result (λ b. IsTrue b → AreLiteralsTold loaded.now.texts loaded.now.instances
        model.now.sigs) }
{
    let sigs = model.sigs.as_slice();
    match string_number(sigs) {
        None => Ok(false),
        Some(string) => {
            let told = are_told_behind(alloc, loaded, sigs, string)?;
            Ok(told)
        }
    }
}
