//! Types stand on ground: as which sig each sig stands, so that types hold at every position.

use crate::{Columns, Member};
use base_lists::Items;
use std::alloc::{AllocError, Global};

/// What types are made of.
#[derive(Drop)]
pub struct Ground<'a> {
    /// For each sig the sigs above it in its line, itself first.
    pub lines: &'a Items<Items<u32>>,
    /// For each sig the members of its type.
    pub members: &'a [Items<Member>],
    /// Whether each sig is `var`.
    pub vars: &'a [bool],
    /// The types of `univ` and `iden`.
    pub univ: &'a Columns,
    pub iden: &'a Columns,
    /// The number of the sig `String`; the literals' sigs have those after it.
    pub string: u32,
    /// The types of the fields so far.
    pub fields: &'a [Option<Columns>],
}

/// As which sig a sig stands: the first of its line that isn't `var`, or the last.
fn standing(line: &[u32], vars: &[bool], sig: u32) -> u32 {
    let mut last = sig;
    for above in line {
        last = *above;
        match vars.get(*above as usize) {
            Some(true) => {}
            _ => return last,
        }
    }
    last
}

fn stand_in(ground: &Ground<'_>, member: Member) -> Member {
    match member {
        Member::Int => Member::Int,
        Member::Sig(sig) => match ground.lines.as_slice().get(sig as usize) {
            None => member,
            Some(line) => Member::Sig(standing(line.as_slice(), ground.vars, sig)),
        },
    }
}

fn add_row(
    alloc: Global,
    rows: &mut Items<Items<Member>>,
    member: Member,
) -> Result<(), AllocError> {
    let mut row = Items::new(alloc);
    row.push(member)?;
    rows.push(row)
}

fn add_members(
    alloc: Global,
    ground: &Ground<'_>,
    members: &[Member],
    rows: &mut Items<Items<Member>>,
) -> Result<(), AllocError> {
    for member in members {
        add_row(alloc, rows, stand_in(ground, *member))?;
    }
    Ok(())
}

/// The type of a sig, so that it holds at every position.
pub fn static_sig(alloc: Global, ground: &Ground<'_>, sig: u32) -> Result<Columns, AllocError> {
    let mut rows = Items::new(alloc);
    if let Some(members) = ground.members.get(sig as usize) {
        add_members(alloc, ground, members.as_slice(), &mut rows)?;
    }
    let columns = Columns { count: 1, rows };
    columns.distinct(alloc)
}

/// The type of integers.
pub(crate) fn int_type(alloc: Global) -> Result<Columns, AllocError> {
    let mut rows = Items::new(alloc);
    add_row(alloc, &mut rows, Member::Int)?;
    Ok(Columns { count: 1, rows })
}

/// A type of no row.
pub(crate) fn nothing(alloc: Global, count: u32) -> Columns {
    Columns {
        count,
        rows: Items::new(alloc),
    }
}

/// The type of no column, which has the one empty row.
pub(crate) fn no_columns(alloc: Global) -> Result<Columns, AllocError> {
    let mut rows = Items::new(alloc);
    rows.push(Items::new(alloc))?;
    Ok(Columns { count: 0, rows })
}
