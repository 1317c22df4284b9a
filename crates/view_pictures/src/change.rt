//! The tuples of a state next to those of the state before.

use std::alloc::{AllocError, Global};
use view_trace::{Table, gone};

/// What a tuple is in a state, next to the state before.
#[derive(Clone, Copy, Debug, PartialEq, Eq)]
pub enum Change {
    /// It is there, and it was.
    Same,
    /// It is there, and wasn't.
    New,
    /// It was there, and isn't.
    Gone,
}

/// A tuple that a picture of a state shows.
#[derive(Drop)]
pub struct Shown<'t> {
    pub tuple: &'t [u32],
    pub change: Change,
}

/// Adds the tuples of a state, which are new where they are marked.
fn push_there<'t>(
    all: &mut Vec<Shown<'t>>,
    table: &'t Table,
    marks: &[bool],
) -> Result<(), AllocError> {
    for (place, tuple) in table.tuples().enumerate() {
        let is_new = marks.get(place).copied().unwrap_or(false);
        let change = if is_new { Change::New } else { Change::Same };
        all.push(Shown { tuple, change })?;
    }
    Ok(())
}

/// Adds the tuples of the state before that are marked as gone.
fn push_gone<'t>(
    all: &mut Vec<Shown<'t>>,
    table: &'t Table,
    marks: &[bool],
) -> Result<(), AllocError> {
    for (place, tuple) in table.tuples().enumerate() {
        if marks.get(place).copied().unwrap_or(false) {
            all.push(Shown {
                tuple,
                change: Change::Gone,
            })?;
        }
    }
    Ok(())
}

/// The tuples of a table that isn't that of the state before: first those that are there, then those that are gone.
fn compared<'t>(
    alloc: Global,
    before: &'t Table,
    now: &'t Table,
) -> Result<Vec<Shown<'t>>, AllocError> {
    let mut all = Vec::new(alloc);
    let fresh = gone(alloc, now, before)?;
    push_there(&mut all, now, fresh.as_slice())?;
    let lost = gone(alloc, before, now)?;
    push_gone(&mut all, before, lost.as_slice())?;
    Ok(all)
}

/// The tuples that a picture of a state shows of a table, next to the table of the state before.
pub fn tuples_to_show<'t>(
    alloc: Global,
    before: Option<&'t Table>,
    now: &'t Table,
) -> Result<Vec<Shown<'t>>, AllocError> {
    match before {
        Some(before) if !before.is_same(now) => compared(alloc, before, now),
        _ => {
            let mut all = Vec::new(alloc);
            push_there(&mut all, now, &[])?;
            Ok(all)
        }
    }
}
