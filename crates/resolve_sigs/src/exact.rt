//! Finds the sigs that opens give to `exactly` parameters.

use base_types::Position;
use core_tree::Origin;
use resolve_names::{Names, text_of};
use std::alloc::{AllocError, Global};
use syntax_tree::{Header, Instance, Loaded, Module, Paragraph, SigRef};

/// Whether the parameter of that place is an `exactly` one.
fn is_exact(header: &Option<Header>, place: usize) -> bool {
    match header {
        None => false,
        Some(header) => match header.parameters.as_slice().get(place) {
            None => false,
            Some(parameter) => parameter.is_exact,
        },
    }
}

/// The place of the name of the enum before which so many stand.
fn enum_place(paragraphs: &[Paragraph], before: usize) -> Option<Position> {
    let mut left = before;
    for paragraph in paragraphs {
        if let Paragraph::Enum(e) = paragraph {
            if left == 0 {
                return Some(e.name.place);
            }
            left = left.saturating_sub(1);
        }
    }
    None
}

/// The place of the path of an instance's open: of a written one its own, of one that an enum
/// implies the enum's name.
fn open_place(module: &Module, open: usize) -> Option<Position> {
    match module.opens.as_slice().get(open) {
        Some(open) => Some(open.path.place),
        None => {
            let before = open.saturating_sub(module.opens.len());
            enum_place(module.paragraphs.as_slice(), before)
        }
    }
}

fn put_origin(all: &mut Vec<Option<Origin>>, sig: u32, origin: Origin) {
    let place = sig as usize;
    if place < all.len() && all[place].is_none() {
        all[place] = Some(origin);
    }
}

fn put_argument(
    names: &Names,
    argument: Option<SigRef>,
    origin: Origin,
    all: &mut Vec<Option<Origin>>,
) {
    match argument {
        None => {}
        Some(sig) => match names.sig_number(sig) {
            None => {}
            Some(number) => put_origin(all, number, origin),
        },
    }
}

fn put_arguments(
    names: &Names,
    header: &Option<Header>,
    arguments: &[Option<SigRef>],
    origin: Origin,
    all: &mut Vec<Option<Origin>>,
) {
    for place in 0..arguments.len() {
        if is_exact(header, place) {
            put_argument(names, arguments[place], origin, all);
        }
    }
}

/// Puts down the sigs that an open gives to `exactly` parameters.
fn put_opened(
    loaded: &Loaded,
    names: &Names,
    opened: u32,
    origin: Origin,
    all: &mut Vec<Option<Origin>>,
) {
    match (
        text_of(loaded, opened),
        loaded.instances.as_slice().get(opened as usize),
    ) {
        (Some(text), Some(instance)) => {
            let arguments = instance.arguments.as_slice();
            put_arguments(names, &text.tree.header, arguments, origin, all);
        }
        _ => {}
    }
}

fn put_opens(
    loaded: &Loaded,
    names: &Names,
    number: u32,
    instance: &Instance,
    module: &Module,
    all: &mut Vec<Option<Origin>>,
) {
    let opens = instance.opens.as_slice();
    for open in 0..opens.len() {
        if let Some(place) = open_place(module, open) {
            let origin = Origin {
                instance: number,
                place,
            };
            put_opened(loaded, names, opens[open].instance, origin, all);
        }
    }
}

fn put_instance(
    loaded: &Loaded,
    names: &Names,
    number: u32,
    instance: &Instance,
    all: &mut Vec<Option<Origin>>,
) {
    match text_of(loaded, number) {
        None => {}
        Some(text) => put_opens(loaded, names, number, instance, &text.tree, all),
    }
}

fn no_origins(alloc: Global, count: usize) -> Result<Vec<Option<Origin>>, AllocError> {
    let mut all = Vec::new(alloc);
    for _ in 0..count {
        all.push(None)?;
    }
    Ok(all)
}

/// For each sig the first open that gives it to an `exactly` parameter.
pub fn all_exact(
    alloc: Global,
    loaded: &Loaded,
    names: &Names,
) -> Result<Vec<Option<Origin>>, AllocError> {
    let mut all = no_origins(alloc, names.sigs.len())?;
    let instances = loaded.instances.as_slice();
    for place in 0..instances.len() {
        if let Ok(number) = u32::try_from(place) {
            put_instance(loaded, names, number, &instances[place], &mut all);
        }
    }
    Ok(all)
}
