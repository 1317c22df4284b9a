//! A whole model is compared with the texts of which it was made.

ghost use Rattle.std.specs.Prelude.{◌≡◌, IfOk, IsTrue};
ghost use Rattle.resolve_names.specs.Gathered.{scopes_of};
ghost use Rattle.resolve_told.specs.Texts.{IsOfTexts};

use crate::bodies::are_bodies_told;
use crate::commands::are_commands_told;
use core_tree::Model;
use resolve_names::{Names, names};
use resolve_places::is_placed;
use resolve_read::Readings;
use resolve_told_literals::are_literals_told;
use resolve_told_opens::are_opens_told;
use resolve_told_sigs::are_sigs_told;
use std::alloc::{AllocError, Global};
use syntax_tree::Loaded;

/// The names that the texts declare. A model is made of them only where no rule on names is broken.
fn names_of(alloc: Global, loaded: &Loaded) -> Result<Names, AllocError>
    ensures { IfOk result (λ n. n.scopes ≡ scopes_of loaded.now.texts loaded.now.instances) }
{
    match names(alloc, loaded) {
        Ok(names) => Ok(names),
        Err(_) => Err(AllocError),
    }
}

/// Whether a model says what the loaded texts do: its sigs, fields, facts, assertions, predicates and functions are just those
/// that they declare, its commands are those of the root, and each of its formulas says what its text says. It has a sig for each
/// literal in them, and its sigs are exact where their opens say so.
///
/// It takes a model before the relation parameters of a command are fields. Each name of a root stands for the candidate that the
/// root's reading chooses: what the names are taken to stand for is told, with the types of all declarations, and tested too.
pub fn is_of_texts(
    alloc: Global,
    loaded: &Loaded,
    model: &Model,
    readings: &Readings,
) -> Result<bool, AllocError>
    ensures { IfOk result (λ b. IsTrue b → IsOfTexts loaded.now model.now readings.now) }
{
    let placed = is_placed(alloc, loaded, model)?;
    if !placed {
        return Ok(false);
    }
    let names = names_of(alloc, loaded)?;
    let sigs = are_sigs_told(alloc, loaded, &names, model, readings)?;
    if !sigs {
        return Ok(false);
    }
    let bodies = are_bodies_told(alloc, loaded, &names, model, readings)?;
    if !bodies {
        return Ok(false);
    }
    let commands = are_commands_told(alloc, loaded, &names, model, readings)?;
    if !commands {
        return Ok(false);
    }
    let literals = are_literals_told(alloc, loaded, model)?;
    if !literals {
        return Ok(false);
    }
    let opens = are_opens_told(alloc, loaded, &names, model)?;
    Ok(opens)
}
