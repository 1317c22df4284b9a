//! Makes the commands of the root.

use crate::sources::{Sources, closed_formula, setting_in};
use crate::{
    asserts_named, check_formula, denied, label_of, name_place, predicates_named, run_formula,
    scope_of,
};
use base_types::Position;
use core_tree::{Assert, Body, Command, CommandKind, CommandList, Formula};
use resolve_expr::faults::Broken;
use resolve_expr::state::{Setting, State, note_at};
use resolve_names::text_of;
use std::alloc::{AllocError, Global};
use syntax_tree::{Command as Declared, Expr as Tree, Module, Paragraph, QualName, Subject};

/// The only one of a list; where it has none or several, that is noted at the name.
fn only(setting: &Setting<'_>, state: &mut State, found: &[u32], place: Position) -> Option<u32> {
    match found {
        [] => {
            note_at(setting, state, place, Broken::UnknownName);
            None
        }
        [one] => Some(*one),
        _ => {
            note_at(setting, state, place, Broken::Ambiguous);
            None
        }
    }
}

/// The body that a command runs, and what it asks.
#[derive(Drop)]
struct Asked {
    body: Option<u32>,
    formula: Formula,
}

fn checked(
    alloc: Global,
    setting: &Setting<'_>,
    state: &mut State,
    name: &QualName,
    asserts: &[Assert],
) -> Result<Asked, AllocError> {
    let found = asserts_named(alloc, setting.names, asserts, setting.instance, name)?;
    let found = only(setting, state, found.as_slice(), name.place);
    Ok(Asked {
        body: None,
        formula: check_formula(alloc, found, asserts)?,
    })
}

fn run(
    alloc: Global,
    setting: &Setting<'_>,
    state: &mut State,
    name: &QualName,
    bodies: &[Body],
) -> Result<Asked, AllocError> {
    let functions = setting.known.functions.as_slice();
    let found = predicates_named(alloc, setting.names, functions, setting.instance, name)?;
    let found = only(setting, state, found.as_slice(), name.place);
    Ok(Asked {
        body: found,
        formula: run_formula(alloc, found, bodies)?,
    })
}

fn asked_by_block(
    alloc: Global,
    setting: &Setting<'_>,
    state: &mut State,
    is_check: bool,
    block: &Tree,
) -> Result<Asked, AllocError> {
    let formula = closed_formula(alloc, setting, state, block)?;
    if is_check {
        return Ok(Asked {
            body: None,
            formula: denied(alloc, formula)?,
        });
    }
    Ok(Asked {
        body: None,
        formula,
    })
}

fn asked_of(
    alloc: Global,
    setting: &Setting<'_>,
    state: &mut State,
    command: &Declared,
    asserts: &[Assert],
    bodies: &[Body],
) -> Result<Asked, AllocError> {
    let is_check = command.is_check;
    match &command.subject {
        Subject::Name(name) => {
            if is_check {
                return checked(alloc, setting, state, name, asserts);
            }
            run(alloc, setting, state, name, bodies)
        }
        Subject::Block(block) => asked_by_block(alloc, setting, state, is_check, block),
        Subject::Labelled(_, block) => asked_by_block(alloc, setting, state, is_check, block),
    }
}

fn kind_of(is_check: bool) -> CommandKind {
    if is_check {
        CommandKind::Check
    } else {
        CommandKind::Run
    }
}

fn model_command(
    alloc: Global,
    setting: &Setting<'_>,
    state: &mut State,
    command: &Declared,
    asserts: &[Assert],
    bodies: &[Body],
) -> Result<Command, AllocError> {
    let Asked { body, formula } = asked_of(alloc, setting, state, command, asserts, bodies)?;
    let label = label_of(alloc, command)?;
    let scope = scope_of(alloc, setting.names, setting.instance, &command.scope)?;
    Ok(Command {
        kind: kind_of(command.is_check),
        keyword: command.keyword,
        first: command.place,
        name_place: name_place(command),
        label,
        body,
        formula,
        scope,
    })
}

fn commands_of(
    alloc: Global,
    setting: &Setting<'_>,
    state: &mut State,
    module: &Module,
    asserts: &[Assert],
    bodies: &[Body],
) -> Result<CommandList, AllocError> {
    let mut all = CommandList::new(alloc);
    for paragraph in module.paragraphs.as_slice() {
        if let Paragraph::Command(command) = paragraph {
            all.push(model_command(alloc, setting, state, command, asserts, bodies)?)?;
        }
    }
    Ok(all)
}

/// The commands of the root.
pub fn model_commands(
    alloc: Global,
    sources: &Sources<'_>,
    state: &mut State,
    asserts: &[Assert],
    bodies: &[Body],
) -> Result<CommandList, AllocError> {
    let setting = setting_in(sources, 0);
    match text_of(sources.loaded, 0) {
        None => Ok(CommandList::new(alloc)),
        Some(text) => commands_of(alloc, &setting, state, &text.tree, asserts, bodies),
    }
}
