//! The names of commands, and the names that they run or check.

use base_types::{Name, Position};
use std::alloc::{AllocError, Global};
use syntax_tree::{Command, QualName, Subject};

/// The last part of a name.
pub(crate) fn last_text(name: &QualName) -> &str {
    match name.parts.as_slice().last() {
        None => "",
        Some(part) => part.text(),
    }
}

fn add_part(text: &mut String, place: usize, part: &Name) -> Result<(), AllocError> {
    if place > 0 {
        text.push_str("/")?;
    }
    text.push_str(part.text())?;
    Ok(())
}

/// A name as it is written, without blanks.
fn written(alloc: Global, name: &QualName) -> Result<Name, AllocError> {
    let mut text = String::new(alloc);
    if name.is_own {
        text.push_str("this/")?;
    }
    let parts = name.parts.as_slice();
    for place in 0..parts.len() {
        add_part(&mut text, place, &parts[place])?;
    }
    Name::copy(alloc, text.as_str())
}

fn subject_name(command: &Command) -> Option<&QualName> {
    match &command.subject {
        Subject::Name(name) => Some(name),
        Subject::Labelled(name, _) => Some(name),
        Subject::Block(_) => None,
    }
}

/// The label of a command, or else the name that it runs or checks.
pub fn label_of(alloc: Global, command: &Command) -> Result<Option<Name>, AllocError> {
    match &command.label {
        Some(label) => Ok(Some(Name::copy(alloc, label.name.text())?)),
        None => match subject_name(command) {
            None => Ok(None),
            Some(name) => Ok(Some(written(alloc, name)?)),
        },
    }
}

/// The place of the name after the keyword.
pub fn name_place(command: &Command) -> Option<Position> {
    match subject_name(command) {
        None => None,
        Some(name) => Some(name.place),
    }
}
