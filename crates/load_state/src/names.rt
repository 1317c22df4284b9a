//! The text of a path is sought under names that are made from it.

ghost use Rattle.std.specs.Prelude.{◌≡◌, ◌++◌, IfOk, OnOk, string_bytes};
ghost use Rattle.load_state.specs.Names.{folder_of, slashed, path_bytes, file_name, last_part};

use base_types::Name;
use std::alloc::{AllocError, Global};
use syntax_tree::QualName;

/// The front of a file's name that ends with its last slash, or nothing.
pub fn folder_of(alloc: Global, name: &str) -> Result<String, AllocError>
    ensures { IfOk result (λ folder. string_bytes folder ≡ folder_of name.now) }
{
    let mut folder = String::new(alloc);
    let mut rest = name;
    while let Some((front, back)) = rest.split_once('/') {
        folder.push_str(front)?;
        folder.push('/')?;
        rest = back;
    }
    Ok(folder)
}

/// A path as it is written, without blanks.
pub fn path_text(alloc: Global, path: &QualName) -> Result<String, AllocError>
    ensures { IfOk result (λ text. string_bytes text ≡ path_bytes path.now) }
{
    let mut text = String::new(alloc);
    if path.is_own {
        text.push_str("this/")?;
    }
    push_parts(&mut text, path.parts.as_slice())?;
    Ok(text)
}

/// Adds the parts, with a slash between two of them.
fn push_parts(text: &mut String, parts: &[Name]) -> Result<(), AllocError>
    ensures { OnOk result (string_bytes text.new ≡ string_bytes text.old ++ slashed parts.now) }
{
    if let [first, rest @ ..] = parts {
        text.push_str(first.text())?;
        for part in rest {
            text.push('/')?;
            text.push_str(part.text())?;
        }
    }
    Ok(())
}

/// The name of the file of a path in a folder.
pub fn file_name(alloc: Global, folder: &str, path: &str) -> Result<String, AllocError>
    ensures { IfOk result (λ name. string_bytes name ≡ file_name folder.now path.now) }
{
    let mut name = String::from_str(alloc, folder)?;
    name.push_str(path)?;
    name.push_str(".als")?;
    Ok(name)
}

/// The last part of a path.
pub fn last_part(parts: &[Name]) -> &str
    ensures { result.now ≡ last_part parts.now }
{
    if parts.is_empty() {
        return "";
    }
    parts[parts.len() - 1].text()
}
