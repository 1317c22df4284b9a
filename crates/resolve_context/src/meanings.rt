//! What names and constants mean by themselves, and types of one column.

use base_lists::Items;
use resolve_readings::{Meaning, What};
use resolve_types::{Columns, Member};
use std::alloc::{AllocError, Global};

/// The type of one column with these members.
pub fn column_of(alloc: Global, members: &[Member]) -> Result<Columns, AllocError> {
    let mut rows = Items::new(alloc);
    for member in members {
        let mut row = Items::new(alloc);
        row.push(*member)?;
        rows.push(row)?;
    }
    Ok(Columns { count: 1, rows })
}

/// The type of integers.
pub fn int_type(alloc: Global) -> Result<Columns, AllocError> {
    column_of(alloc, &[Member::Int])
}

/// The type of the empty product, which has one empty row.
pub fn no_columns(alloc: Global) -> Result<Columns, AllocError> {
    let mut rows = Items::new(alloc);
    rows.push(Items::new(alloc))?;
    Ok(Columns { count: 0, rows })
}

/// A type of so many columns without rows.
pub fn no_rows(alloc: Global, count: u32) -> Columns {
    Columns {
        count,
        rows: Items::new(alloc),
    }
}

/// A set with its type.
pub fn set_meaning(columns: Columns, integer: bool) -> Meaning {
    let widest = columns.count;
    Meaning {
        what: What::Set(columns),
        marked: false,
        relevant: true,
        integer,
        widest,
    }
}

/// What is no set.
pub fn formula_meaning(integer: bool) -> Meaning {
    Meaning {
        what: What::Formula,
        marked: false,
        relevant: true,
        integer,
        widest: 0,
    }
}
