//! What is told of the readings beside the model.

use base_lists::Items;
use resolve_context::meanings::set_meaning;
use resolve_drafts::Pick;
use resolve_expr::candidates::body_meaning;
use resolve_expr::known::{Known, is_integer, sig_type};
use resolve_expr::locals::number_of;
use resolve_expr::state::PickAt;
use resolve_hierarchy::Hierarchy;
use resolve_names::Names;
use resolve_picks::Picks;
use resolve_read::{Readings, Types};
use resolve_readings::Meaning;
use std::alloc::{AllocError, Global};

/// Whether a sig is of the integers that are opened implicitly; `String` isn't.
fn is_integer_sig(names: &Names, known: &Known, sig: usize) -> bool {
    match names.sigs.as_slice().get(sig) {
        None => false,
        Some(entry) => is_integer(known, entry.instance),
    }
}

/// What each sig means, `String` behind the declared ones.
fn sig_meanings(
    alloc: Global,
    names: &Names,
    hierarchy: &Hierarchy,
    known: &Known,
) -> Result<Items<Meaning>, AllocError> {
    let mut all = Items::new(alloc);
    for sig in 0..hierarchy.members.len() {
        let columns = sig_type(alloc, hierarchy, number_of(sig))?;
        all.push(set_meaning(columns, is_integer_sig(names, known, sig)))?;
    }
    Ok(all)
}

/// What each field means.
fn field_meanings(
    alloc: Global,
    names: &Names,
    known: &Known,
) -> Result<Items<Meaning>, AllocError> {
    let mut all = Items::new(alloc);
    let entries = names.fields.as_slice();
    for field in 0..entries.len() {
        let columns = match known.fields.as_slice().get(field) {
            Some(Some(columns)) => columns.copy(alloc)?,
            _ => return Err(AllocError),
        };
        all.push(set_meaning(columns, is_integer(known, entries[field].instance)))?;
    }
    Ok(all)
}

/// What the bare name of each body means.
fn body_meanings(
    alloc: Global,
    names: &Names,
    known: &Known,
) -> Result<Items<Meaning>, AllocError> {
    let mut all = Items::new(alloc);
    let entries = names.bodies.as_slice();
    for body in 0..entries.len() {
        let integer = is_integer(known, entries[body].instance);
        match body_meaning(alloc, known, number_of(body), integer)? {
            None => return Err(AllocError),
            Some(meaning) => all.push(meaning)?,
        }
    }
    Ok(all)
}

/// The types of all declarations.
fn types_of(
    alloc: Global,
    names: &Names,
    hierarchy: &Hierarchy,
    known: Known,
) -> Result<Types, AllocError> {
    let sigs = sig_meanings(alloc, names, hierarchy, &known)?;
    let fields = field_meanings(alloc, names, &known)?;
    let bodies = body_meanings(alloc, names, &known)?;
    let Known {
        typing,
        univ,
        string,
        literals: _,
        integer: _,
        field_names: _,
        fields: _,
        functions: _,
        bodies: _,
    } = known;
    Ok(Types {
        typing,
        univ,
        string,
        sigs,
        fields,
        bodies,
    })
}

/// So many lists of picks.
fn no_picks(alloc: Global, count: usize) -> Result<Vec<Picks>, AllocError> {
    let mut all = Vec::new(alloc);
    for _ in 0..count {
        all.push(Picks::new(alloc))?;
    }
    Ok(all)
}

/// Adds a pick to those of this number.
fn add_pick(all: &mut Vec<Picks>, number: u32, pick: Pick) -> Result<(), AllocError> {
    let place = number as usize;
    if place < all.len() {
        all[place].add(pick.place, pick.target)?;
    }
    Ok(())
}

/// What the names of one expression are taken to stand for.
pub fn picks_of(alloc: Global, picks: &[PickAt]) -> Result<Picks, AllocError> {
    let mut all = Picks::new(alloc);
    for one in picks {
        all.add(one.pick.place, one.pick.target)?;
    }
    Ok(all)
}

/// What is told of the readings.
pub fn readings_of(
    alloc: Global,
    names: &Names,
    hierarchy: &Hierarchy,
    known: Known,
    picks: &[PickAt],
) -> Result<Readings, AllocError> {
    let types = types_of(alloc, names, hierarchy, known)?;
    let mut of_instances = no_picks(alloc, names.scopes.len())?;
    let mut of_sigs = no_picks(alloc, names.sigs.len())?;
    for one in picks {
        match one.sig {
            None => add_pick(&mut of_instances, one.instance, one.pick)?,
            Some(sig) => add_pick(&mut of_sigs, sig, one.pick)?,
        }
    }
    Ok(Readings {
        types,
        of_instances: Items::from_vec(of_instances),
        of_sigs: Items::from_vec(of_sigs),
    })
}
