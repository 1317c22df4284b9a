//! Builds the lines and members of all sigs.

ghost use Rattle.std.specs.Prelude.{length, IfErr};
ghost use Rattle.resolve_hierarchy.specs.Refused.{IsFault};

use crate::cycles::{walked_line, walked_members};
use crate::faults::{Noted, refused};
use crate::fields::{Types, note_twice};
use crate::order::{Order, note_cycle, order_of};
use crate::parents::{Above, Parent, all_above, note_all_extends};
use crate::search::is_set;
use crate::sigs::{Hierarchy, Kind};
use base_lists::Items;
use base_types::Fault;
use resolve_names::Names;
use resolve_types::Member;
use std::alloc::{AllocError, Global};
use syntax_tree::Loaded;

fn is_same(a: Member, b: Member) -> bool {
    match (a, b) {
        (Member::Int, Member::Int) => true,
        (Member::Sig(s), Member::Sig(t)) => s == t,
        _ => false,
    }
}

fn has_member(list: &[Member], member: Member) -> bool {
    for other in list {
        if is_same(*other, member) {
            return true;
        }
    }
    false
}

fn add_member(list: &mut Items<Member>, member: Member) -> Result<(), AllocError> {
    if has_member(list.as_slice(), member) {
        return Ok(());
    }
    list.push(member)
}

fn add_members(list: &mut Items<Member>, more: &[Member]) -> Result<(), AllocError> {
    for member in more {
        add_member(list, *member)?;
    }
    Ok(())
}

/// The members of the types of parents, each once.
fn subset_members(
    alloc: Global,
    parents: &[Parent],
    members: &[Items<Member>],
) -> Result<Items<Member>, AllocError> {
    let mut list = Items::new(alloc);
    for parent in parents {
        match parent.member {
            Member::Int => add_member(&mut list, Member::Int)?,
            Member::Sig(sig) => {
                if let Some(more) = members.get(sig as usize) {
                    add_members(&mut list, more.as_slice())?;
                }
            }
        }
    }
    Ok(list)
}

fn one_member(alloc: Global, sig: u32) -> Result<Items<Member>, AllocError> {
    let mut list = Items::new(alloc);
    list.push(Member::Sig(sig))?;
    Ok(list)
}

fn own_line(alloc: Global, sig: u32) -> Result<Items<u32>, AllocError> {
    let mut line = Items::new(alloc);
    line.push(sig)?;
    Ok(line)
}

/// The line of a sig that is no subset sig: itself, and then that of the sig that it extends.
fn line_of(
    alloc: Global,
    sig: u32,
    parents: &[Parent],
    lines: &[Items<u32>],
) -> Result<Items<u32>, AllocError> {
    let mut line = own_line(alloc, sig)?;
    for parent in parents {
        if let Member::Sig(up) = parent.member {
            if let Some(rest) = lines.get(up as usize) {
                line.append(Items::from_slice(alloc, rest.as_slice())?)?;
            }
        }
    }
    Ok(line)
}

/// The lines and members of all sigs while they are made.
#[derive(Drop)]
struct Made {
    lines: Vec<Items<u32>>,
    members: Vec<Items<Member>>,
}

fn put_line(made: &mut Made, place: usize, line: Items<u32>) {
    if place < made.lines.len() {
        made.lines[place] = line;
    }
}

fn put_members(made: &mut Made, place: usize, list: Items<Member>) {
    if place < made.members.len() {
        made.members[place] = list;
    }
}

/// Each sig by itself, and subset sigs with nothing.
fn first_made(alloc: Global, all: &[Above]) -> Result<Made, AllocError> {
    let mut made = Made {
        lines: Vec::new(alloc),
        members: Vec::new(alloc),
    };
    for place in 0..all.len() {
        match u32::try_from(place) {
            Ok(sig) if !all[place].is_subset => {
                made.lines.push(own_line(alloc, sig)?)?;
                made.members.push(one_member(alloc, sig)?)?;
            }
            _ => {
                made.lines.push(Items::new(alloc))?;
                made.members.push(Items::new(alloc))?;
            }
        }
    }
    Ok(made)
}

/// The line and the members of a sig, from those of its parents.
fn make_one(alloc: Global, all: &[Above], sig: u32, made: &mut Made) -> Result<(), AllocError> {
    let above = match all.get(sig as usize) {
        None => return Ok(()),
        Some(above) => above,
    };
    let parents = above.parents.as_slice();
    if above.is_subset {
        let list = subset_members(alloc, parents, made.members.as_slice())?;
        put_members(made, sig as usize, list);
    } else {
        let line = line_of(alloc, sig, parents, made.lines.as_slice())?;
        put_line(made, sig as usize, line);
    }
    Ok(())
}

/// The line and the members of a sig that is its own ancestor, or has such an ancestor.
fn walk_one(alloc: Global, all: &[Above], sig: u32, made: &mut Made) -> Result<(), AllocError> {
    put_members(made, sig as usize, walked_members(alloc, all, sig)?);
    match all.get(sig as usize) {
        Some(above) if !above.is_subset => {
            put_line(made, sig as usize, walked_line(alloc, all, sig)?);
            Ok(())
        }
        _ => Ok(()),
    }
}

/// The lines and members of the sigs that aren't done: those that are their own ancestors, or have
/// such an ancestor.
fn walk_others(
    alloc: Global,
    all: &[Above],
    done: &[bool],
    made: &mut Made,
) -> Result<(), AllocError> {
    for place in 0..all.len() {
        match u32::try_from(place) {
            Ok(sig) if !is_set(done, place) => walk_one(alloc, all, sig, made)?,
            _ => {}
        }
    }
    Ok(())
}

/// The lines and members of all sigs, and of `String` after them.
pub fn types_of(alloc: Global, all: &[Above], order: &Order) -> Result<Types, AllocError> {
    let mut made = first_made(alloc, all)?;
    for sig in order.sigs.as_slice() {
        make_one(alloc, all, *sig, &mut made)?;
    }
    walk_others(alloc, all, order.done.as_slice(), &mut made)?;
    if let Ok(string) = u32::try_from(all.len()) {
        made.lines.push(own_line(alloc, string)?)?;
        made.members.push(one_member(alloc, string)?)?;
    }
    let Made { lines, members } = made;
    Ok(Types {
        lines: Items::from_vec(lines),
        members: Items::from_vec(members),
    })
}

fn kind_of(alloc: Global, above: &Above) -> Result<Kind, AllocError> {
    let parents = above.parents.as_slice();
    if above.is_subset {
        let mut list = Items::new(alloc);
        for parent in parents {
            list.push(parent.member)?;
        }
        return Ok(Kind::Subset(list));
    }
    match parents.get(0) {
        Some(
            Parent {
                member: Member::Sig(sig),
                place: _,
            },
        ) => Ok(Kind::Extends(*sig)),
        _ => Ok(Kind::Top),
    }
}

/// Where each sig stands, and `String` after them.
fn kinds_of(alloc: Global, all: &[Above]) -> Result<Items<Kind>, AllocError> {
    let mut kinds = Items::new(alloc);
    for above in all {
        kinds.push(kind_of(alloc, above)?)?;
    }
    kinds.push(Kind::Top)?;
    Ok(kinds)
}

/// The hierarchy, or the broken rule that counts first.
fn found(
    alloc: Global,
    loaded: &Loaded,
    names: &Names,
) -> Result<Result<Hierarchy, Noted>, AllocError> {
    let mut least = None;
    let all = all_above(alloc, loaded, names, &mut least)?;
    note_all_extends(all.as_slice(), &mut least);
    let mut order = order_of(alloc, all.as_slice())?;
    note_cycle(alloc, all.as_slice(), &order, &mut least)?;
    let types = types_of(alloc, all.as_slice(), &order)?;
    note_twice(alloc, loaded, names, &types, &mut least)?;
    if let Some(noted) = least {
        return Ok(Err(noted));
    }
    let kinds = kinds_of(alloc, all.as_slice())?;
    let Types { lines, members } = types;
    if let Ok(string) = u32::try_from(all.len()) {
        order.sigs.push(string)?;
    }
    let Order { done: _, sigs } = order;
    Ok(Ok(Hierarchy {
        kinds,
        lines,
        members,
        order: Items::from_vec(sigs),
    }))
}

/// The hierarchy of the sigs of all instances.
///
/// Refused by the first broken rule: a parent that names not one sig, a sig that is its own
/// ancestor, a subset sig or `Int` that is extended, or two fields of one name in one sig or in
/// sigs that overlap. The earliest instance counts, then the least place, then the lower number.
pub fn hierarchy(alloc: Global, loaded: &Loaded, names: &Names) -> Result<Hierarchy, Fault>
    ensures { IfErr result (IsFault (length loaded.now.texts)) }
{
    match found(alloc, loaded, names) {
        Err(_) => Err(Fault::Memory),
        Ok(Err(noted)) => Err(refused(loaded, noted)),
        Ok(Ok(hierarchy)) => Ok(hierarchy),
    }
}
