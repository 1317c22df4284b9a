//! Commands are compared with those that the text of the root declares.

ghost use Rattle.std.specs.Prelude.{◌≡◌, map, option_map, IfOk, IsTrue};
ghost use Rattle.resolve_told.specs.Commands.{kind_of, label_or, place_of_name, subject_name, IsCommand, AreCommandsTold};
ghost use Rattle.resolve_told.specs.Lists.{OneByOne};
ghost use Rattle.resolve_told.specs.CommandViews.{command_of, HasBodies};

use crate::asked::{Sources, asks};
use crate::labels::{is_label, is_place, is_same, subject_name};
use crate::scopes::is_scope;
use crate::texts::{all_bodies, all_commands};
use core_tree::{Command, CommandKind, Model};
use resolve_names::Names;
use resolve_read::Readings;
use std::alloc::{AllocError, Global};
use syntax_tree::{Command as Written, Loaded};

/// Whether this is the kind of a command that checks, or of one that runs.
fn is_kind(kind: CommandKind, is_check: bool) -> bool
    ensures { IsTrue result → kind ≡ kind_of is_check }
{
    match kind {
        CommandKind::Check => is_check,
        CommandKind::Run => !is_check,
    }
}

/// Whether a command stands where the text has it, and is called as there.
fn is_placed(alloc: Global, written: &Written, command: &Command) -> Result<bool, AllocError>
    ensures kind { IfOk result (λ b. IsTrue b → command.now.kind ≡ kind_of written.now.is_check) }
    ensures keyword { IfOk result (λ b. IsTrue b → command.now.keyword ≡ written.now.keyword) }
    ensures first { IfOk result (λ b. IsTrue b → command.now.first ≡ written.now.place) }
    ensures name_place { IfOk result (λ b. IsTrue b → command.now.name_place
        ≡ option_map place_of_name (subject_name written.now.subject)) }
    ensures label { IfOk result (λ b. IsTrue b → command.now.label
        ≡ label_or written.now.label (subject_name written.now.subject)) }
{
    if !is_kind(command.kind, written.is_check) {
        return Ok(false);
    }
    if !is_same(command.keyword, written.keyword) {
        return Ok(false);
    }
    if !is_same(command.first, written.place) {
        return Ok(false);
    }
    let name = subject_name(&written.subject);
    if !is_place(command.name_place, name) {
        return Ok(false);
    }
    let is_right = is_label(alloc, &command.label, &written.label, name)?;
    Ok(is_right)
}

/// Whether a command is that of the text.
fn is_command(
    alloc: Global,
    sources: &Sources<'_>,
    written: &Written,
    command: &Command,
) -> Result<bool, AllocError>
    requires { HasBodies sources.now }
    ensures { IfOk result (λ b. IsTrue b → IsCommand sources.now.loaded.now.texts
        sources.now.loaded.now.instances sources.now.names.now.scopes sources.now.model.now
        sources.now.readings.now written.now command.now) }
{
    let is_there = is_placed(alloc, written, command)?;
    if !is_there {
        return Ok(false);
    }
    let entries = command.scope.as_slice();
    let is_counted = is_scope(alloc, sources.names, &written.scope, entries)?;
    if !is_counted {
        return Ok(false);
    }
    let is_check = written.is_check;
    let formula = &command.formula;
    let is_right = asks(
        alloc,
        sources,
        is_check,
        &written.subject,
        command.body,
        formula,
    )?;
    Ok(is_right)
}

/// Whether the commands are those of the text, one by one.
fn are_commands(
    alloc: Global,
    sources: &Sources<'_>,
    written: &[&Written],
    commands: &[Command],
) -> Result<bool, AllocError>
    requires { HasBodies sources.now }
    ensures { IfOk result (λ b. IsTrue b → OneByOne (λ n w c. IsCommand
        sources.now.loaded.now.texts sources.now.loaded.now.instances sources.now.names.now.scopes
        sources.now.model.now sources.now.readings.now w c) (map command_of written.now)
        commands.now) }
{
    if written.len() != commands.len() {
        return Ok(false);
    }
    for place in 0..written.len() {
        let is_right = is_command(alloc, sources, written[place], &commands[place])?;
        if !is_right {
            return Ok(false);
        }
    }
    Ok(true)
}

/// Whether the commands of a model are just those of the root, one by one in their order: their places, names and scopes, the
/// predicate that each runs, and formulas that say what the text says.
pub fn are_commands_told(
    alloc: Global,
    loaded: &Loaded,
    names: &Names,
    model: &Model,
    readings: &Readings,
) -> Result<bool, AllocError>
    ensures { IfOk result (λ b. IsTrue b → AreCommandsTold loaded.now.texts loaded.now.instances
        names.now.scopes model.now readings.now) }
{
    let bodies = all_bodies(alloc, loaded)?;
    let sources = Sources {
        loaded,
        names,
        model,
        readings,
        bodies: bodies.as_slice(),
    };
    let written = all_commands(alloc, loaded)?;
    let commands = model.commands.as_slice();
    let are_right = are_commands(alloc, &sources, written.as_slice(), commands)?;
    Ok(are_right)
}
