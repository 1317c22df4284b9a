//! What a command is called.

ghost use Rattle.std.specs.Prelude.{◌≡◌, ◌++◌, option_map, flat_map, IfOk, OnOk, IsTrue, string_bytes};
ghost use Rattle.resolve_told.specs.Commands.{subject_name, place_of_name, own_path, parts_spelled, spelled, label_or, with_slash};
ghost use Rattle.resolve_told.specs.CommandViews.{seen_name};

use crate::words::same_text;
use base_types::{Name, Position};
use std::alloc::{AllocError, Global};
use syntax_tree::{Named, QualName, Subject};

/// The name behind `run` or `check`.
pub fn subject_name(subject: &Subject) -> Option<&QualName>
    ensures { seen_name result ≡ subject_name subject.now }
{
    match subject {
        Subject::Name(name) => Some(name),
        Subject::Labelled(name, _) => Some(name),
        Subject::Block(_) => None,
    }
}

/// Whether this is the place of the name.
pub fn is_place(place: Option<Position>, name: Option<&QualName>) -> bool
    ensures { IsTrue result → place ≡ option_map place_of_name (seen_name name.entry) }
{
    match place {
        None => match name {
            None => true,
            Some(_) => false,
        },
        Some(place) => match name {
            None => false,
            Some(name) => is_same(place, name.place),
        },
    }
}

/// Whether two places are the same.
pub fn is_same(a: Position, b: Position) -> bool
    ensures { IsTrue result → a ≡ b }
{
    a.module == b.module && a.line == b.line && a.column == b.column
}

/// The beginning of a name's text.
fn own_path(is_own: bool) -> &'static str
    ensures { result.now ≡ own_path is_own }
{
    if is_own { "this/" } else { "" }
}

/// Adds a part of a name behind a slash.
fn add_part(text: &mut String, part: &Name) -> Result<(), AllocError>
    ensures { OnOk result (string_bytes text.new ≡ string_bytes text.old ++ with_slash part.now) }
{
    text.push_str("/")?;
    text.push_str(part.text())?;
    Ok(())
}

/// Adds the parts of a name, each behind a slash.
#[tactic(auto, using(crate::proofs::Walk::flat_end))]
fn add_parts(text: &mut String, parts: &[Name]) -> Result<(), AllocError>
    ensures { OnOk result (string_bytes text.new ≡ string_bytes text.old
        ++ flat_map with_slash parts.now) }
{
    for part in parts {
        add_part(text, part)?;
    }
    Ok(())
}

/// Adds the parts of a name with slashes between them.
fn add_path(text: &mut String, parts: &[Name]) -> Result<(), AllocError>
    ensures { OnOk result (string_bytes text.new ≡ string_bytes text.old
        ++ parts_spelled parts.now) }
{
    match parts.split_first() {
        None => Ok(()),
        Some((first, rest)) => {
            text.push_str(first.text())?;
            add_parts(text, rest)?;
            Ok(())
        }
    }
}

/// A name with its path, without blanks.
fn spelled(alloc: Global, name: &QualName) -> Result<Name, AllocError>
    ensures { IfOk result (λ n. n ≡ spelled name.now) }
{
    let mut text = String::from_str(alloc, own_path(name.is_own))?;
    add_path(&mut text, name.parts.as_slice())?;
    let copy = Name::copy(alloc, text.as_str())?;
    Ok(copy)
}

/// Whether this is the text of a name, as it is spelled.
fn is_spelled(alloc: Global, label: &Name, name: &QualName) -> Result<bool, AllocError>
    ensures { IfOk result (λ b. IsTrue b → label.now ≡ spelled name.now) }
{
    let text = spelled(alloc, name)?;
    Ok(same_text(label.text(), text.text()))
}

/// Whether this is the label of a command without one of its own.
fn is_name(alloc: Global, label: &Option<Name>, name: Option<&QualName>) -> Result<bool, AllocError>
    ensures { IfOk result (λ b. IsTrue b
        → label.now ≡ option_map spelled (seen_name name.entry)) }
{
    match label {
        None => match name {
            None => Ok(true),
            Some(_) => Ok(false),
        },
        Some(label) => match name {
            None => Ok(false),
            Some(name) => {
                let is_right = is_spelled(alloc, label, name)?;
                Ok(is_right)
            }
        },
    }
}

/// Whether this is what a command is called.
pub fn is_label(
    alloc: Global,
    label: &Option<Name>,
    written: &Option<Named>,
    name: Option<&QualName>,
) -> Result<bool, AllocError>
    ensures { IfOk result (λ b. IsTrue b
        → label.now ≡ label_or written.now (seen_name name.entry)) }
{
    match written {
        None => {
            let is_right = is_name(alloc, label, name)?;
            Ok(is_right)
        }
        Some(written) => match label {
            None => Ok(false),
            Some(label) => Ok(same_text(label.text(), written.name.text())),
        },
    }
}
