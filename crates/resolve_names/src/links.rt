//! An instance has its opens as links to other instances.

ghost use Rattle.std.specs.Prelude.{◌≡◌, ◌<◌, ◌++◌, ◌∷◌, [], All, slice_get, IfOk, OnOk};
ghost use Rattle.resolve_names.specs.Gathered.{is_private_open, link_as, links_from};

use crate::table::Link;
use base_lists::Items;
use base_types::Name;
use std::alloc::{AllocError, Global};
use syntax_tree::{Open, Opened};

/// Whether the open of that place is written and private. The opens that enums imply, and the
/// implicit one, come after the written ones and aren't private.
fn is_private(written: &[Open], place: usize) -> bool
    ensures { result ≡ is_private_open (slice_get written.now place) }
{
    match written.get(place) {
        None => false,
        Some(open) => open.is_private,
    }
}

/// An open, which leads to one of so many instances. Each does, so that want of memory is never
/// met.
fn link_of(
    alloc: Global,
    opened: &Opened,
    is_private: bool,
    count: usize,
) -> Result<Link, AllocError>
    ensures link { IfOk result (λ l. l ≡ link_as is_private opened.now) }
    ensures inside { IfOk result (λ l. l.instance < count) }
{
    if opened.instance as usize >= count {
        return Err(AllocError);
    }
    let alias = Name::copy(alloc, opened.alias.text())?;
    Ok(Link {
        alias,
        is_private,
        instance: opened.instance,
    })
}

/// The opens of an instance of so many.
pub fn links_of(
    alloc: Global,
    opens: &[Opened],
    written: &[Open],
    count: usize,
) -> Result<Items<Link>, AllocError>
    ensures links { IfOk result (λ links. links ≡ links_from written.now opens.now) }
    ensures inside { IfOk result (All (λ l. l.instance < count)) }
{
    let mut links = Items::new(alloc);
    for place in 0..opens.len() {
        let hidden = is_private(written, place);
        let link = link_of(alloc, &opens[place], hidden, count)?;
        links.push(link)?;
    }
    Ok(links)
}
