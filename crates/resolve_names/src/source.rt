//! What is declared has its source: the text of an instance, and a paragraph in it.

ghost use Rattle.std.specs.Prelude.{◌≡◌, ◌<◌, length, IfOk, IfSome};
ghost use Rattle.resolve_names.specs.Gathered.{module_of};

use base_types::Position;
use std::alloc::AllocError;
use syntax_tree::{Instance, Loaded, Module, Paragraph, Text};

/// The module of an instance. Each instance has a text, so that want of memory is never met.
pub fn module_of<'a>(texts: &'a [Text], instance: &Instance) -> Result<&'a Module, AllocError>
    ensures { IfOk result (λ m. m.now ≡ module_of texts.now instance.now) }
{
    match texts.get(instance.text as usize) {
        None => Err(AllocError),
        Some(text) => Ok(&text.tree),
    }
}

/// The text of an instance; None where there is no such instance.
pub fn text_of<'a>(loaded: &'a Loaded, instance: u32) -> Option<&'a Text> {
    let instance = loaded.instances.as_slice().get(instance as usize)?;
    loaded.texts.as_slice().get(instance.text as usize)
}

/// A paragraph of an instance's text; None where there is none.
pub fn paragraph_at<'a>(
    loaded: &'a Loaded,
    instance: u32,
    paragraph: u32,
) -> Option<&'a Paragraph> {
    let text = text_of(loaded, instance)?;
    text.tree.paragraphs.as_slice().get(paragraph as usize)
}

/// The place in the text of an instance; None where there is no such instance.
pub fn place_in(loaded: &Loaded, instance: u32, place: Position) -> Option<Position>
    ensures { IfSome result (λ p. p.module < length loaded.now.texts) }
{
    let instance = loaded.instances.as_slice().get(instance as usize)?;
    if instance.text as usize >= loaded.texts.len() {
        return None;
    }
    Some(Position {
        module: instance.text,
        line: place.line,
        column: place.column,
    })
}
