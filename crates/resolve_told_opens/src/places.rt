//! Where the opens of a module stand.

ghost use Rattle.std.specs.Prelude.{◌≡◌, ◌++◌, map, flat_map, IfOk, OnOk};
ghost use Rattle.resolve_told_opens.specs.Told.{enum_places, open_places, path_place};

use base_types::Position;
use std::alloc::{AllocError, Global};
use syntax_tree::{Module, Open, Paragraph};

/// The places of the paths of opens.
fn path_places(alloc: Global, opens: &[Open]) -> Result<Vec<Position>, AllocError>
    ensures { IfOk result (λ all. all.items ≡ map path_place opens.now) }
{
    let mut all = Vec::new(alloc);
    for open in opens {
        all.push(open.path.place)?;
    }
    Ok(all)
}

/// Adds the place of a paragraph's name, where it is an enum.
fn add_enum(paragraph: &Paragraph, all: &mut Vec<Position>) -> Result<(), AllocError>
    ensures { OnOk result (all.new.items ≡ all.old.items ++ enum_places paragraph.now) }
{
    match paragraph {
        Paragraph::Enum(written) => {
            all.push(written.name.place)?;
            Ok(())
        }
        _ => Ok(()),
    }
}

/// Adds the places of the names of enums.
fn add_enums(paragraphs: &[Paragraph], all: &mut Vec<Position>) -> Result<(), AllocError>
    ensures { OnOk result (all.new.items ≡ all.old.items ++ flat_map enum_places paragraphs.now) }
{
    for paragraph in paragraphs {
        add_enum(paragraph, all)?;
    }
    Ok(())
}

/// The places of the opens of a module: those that are written, then those that its enums imply.
pub fn open_places(alloc: Global, module: &Module) -> Result<Vec<Position>, AllocError>
    ensures { IfOk result (λ all. all.items ≡ open_places module.now) }
{
    let mut all = path_places(alloc, module.opens.as_slice())?;
    add_enums(module.paragraphs.as_slice(), &mut all)?;
    Ok(all)
}
