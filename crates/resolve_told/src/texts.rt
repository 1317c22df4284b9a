//! What the texts declare: the predicates and functions of all instances, and the commands of the root.

ghost use Rattle.std.specs.Prelude.{◌≡◌, ◌+◌, ◌++◌, map, flat_map, IfOk, OnOk};
ghost use Rattle.resolve_hierarchy.specs.Rules.{paragraphs_in};
ghost use Rattle.resolve_told.specs.Bodies.{bodies_by, bodies_in, bodies_from};
ghost use Rattle.resolve_told.specs.CommandViews.{command_of};
ghost use Rattle.resolve_told.specs.Commands.{commands_by, root_commands};
ghost use Rattle.resolve_told.specs.Views.{declaration};

use std::alloc::{AllocError, Global};
use syntax_tree::{Command, Instance, Loaded, Paragraph, TextList};

/// A predicate or a function, with the number of its instance.
#[derive(Clone, Copy, Drop)]
pub struct Declaration<'a> {
    pub instance: u32,
    pub paragraph: &'a Paragraph,
}

/// Adds a paragraph, where it is a predicate or a function.
fn add_body<'a>(
    instance: u32,
    paragraph: &'a Paragraph,
    all: &mut Vec<Declaration<'a>>,
) -> Result<(), AllocError>
    ensures { OnOk result (map declaration all.new.items ≡ map declaration all.old.items
        ++ bodies_by instance paragraph.now) }
{
    match paragraph {
        Paragraph::Pred(_) => {
            all.push(Declaration {
                instance,
                paragraph,
            })?;
            Ok(())
        }
        Paragraph::Fun(_) => {
            all.push(Declaration {
                instance,
                paragraph,
            })?;
            Ok(())
        }
        _ => Ok(()),
    }
}

/// Adds the predicates and functions among paragraphs.
#[tactic(auto, using(crate::proofs::Walk::bodies_next, crate::proofs::Walk::bodies_end))]
fn add_bodies<'a>(
    instance: u32,
    paragraphs: &'a [Paragraph],
    all: &mut Vec<Declaration<'a>>,
) -> Result<(), AllocError>
    ensures { OnOk result (map declaration all.new.items ≡ map declaration all.old.items
        ++ bodies_in instance paragraphs.now) }
{
    for paragraph in paragraphs {
        add_body(instance, paragraph, all)?;
    }
    Ok(())
}

/// The paragraphs of an instance.
pub fn paragraphs_of<'a>(
    texts: &'a TextList,
    instance: &Instance,
) -> Result<&'a [Paragraph], AllocError>
    ensures { IfOk result (λ ps. ps.now ≡ paragraphs_in texts.now instance.now) }
{
    let place = instance.text as usize;
    if place >= texts.len() {
        // Each instance has a text.
        return Err(AllocError);
    }
    let text = texts.get(place);
    Ok(text.tree.paragraphs.as_slice())
}

/// The number of the next instance.
fn after(number: u32) -> Result<u32, AllocError>
    ensures { IfOk result (λ next. next ≡ number + 1) }
{
    if number >= u32::MAX {
        return Err(AllocError);
    }
    Ok(number + 1)
}

/// The predicates and functions of all instances, in load order and then text order.
#[tactic(auto, using(crate::proofs::Walk::instances_next, crate::proofs::Walk::instances_end))]
pub fn all_bodies<'a>(alloc: Global, loaded: &'a Loaded) -> Result<Vec<Declaration<'a>>, AllocError>
    ensures { IfOk result (λ all. map declaration all.items
        ≡ bodies_from loaded.now.texts 0 loaded.now.instances) }
{
    let texts = &loaded.texts;
    let mut all = Vec::new(alloc);
    let mut number: u32 = 0;
    for instance in loaded.instances.as_slice() {
        let paragraphs = paragraphs_of(texts, instance)?;
        add_bodies(number, paragraphs, &mut all)?;
        number = after(number)?;
    }
    Ok(all)
}

/// Adds a paragraph, where it is a command.
fn add_command<'a>(paragraph: &'a Paragraph, all: &mut Vec<&'a Command>) -> Result<(), AllocError>
    ensures { OnOk result (map command_of all.new.items ≡ map command_of all.old.items
        ++ commands_by paragraph.now) }
{
    match paragraph {
        Paragraph::Command(command) => {
            all.push(command)?;
            Ok(())
        }
        _ => Ok(()),
    }
}

/// The commands among paragraphs.
#[tactic(auto, using(crate::proofs::Walk::flat_end))]
fn commands_in<'a>(
    alloc: Global,
    paragraphs: &'a [Paragraph],
) -> Result<Vec<&'a Command>, AllocError>
    ensures { IfOk result (λ all. map command_of all.items
        ≡ flat_map commands_by paragraphs.now) }
{
    let mut all = Vec::new(alloc);
    for paragraph in paragraphs {
        add_command(paragraph, &mut all)?;
    }
    Ok(all)
}

/// The commands of the root, in text order.
pub fn all_commands<'a>(alloc: Global, loaded: &'a Loaded) -> Result<Vec<&'a Command>, AllocError>
    ensures { IfOk result (λ all. map command_of all.items
        ≡ root_commands loaded.now.texts loaded.now.instances) }
{
    if loaded.instances.len() == 0 {
        // There is a root.
        return Err(AllocError);
    }
    let root = loaded.instances.get(0);
    let paragraphs = paragraphs_of(&loaded.texts, root)?;
    let all = commands_in(alloc, paragraphs)?;
    Ok(all)
}
