//! Reading the tuples of a line.

use crate::lines::{after, split_atom};
use crate::names::Names;
use crate::trace::Table;
use std::alloc::{AllocError, Global};

/// The most columns of a relation: `docs/RULES.md`, S47.
pub const MOST_COLUMNS: usize = 9;

/// The number of the atom with which a text begins, and what follows it.
fn read_atom<'a>(
    names: &mut Names<'a>,
    text: &'a [u8],
) -> Result<Option<(u32, &'a [u8])>, AllocError> {
    let (name, rest) = split_atom(text);
    match names.number(name)? {
        Some(number) => Ok(Some((number, rest))),
        None => Ok(None),
    }
}

/// Adds the atoms of the tuple with which a text begins, and answers how many they are and what follows them.
fn read_tuple<'a>(
    names: &mut Names<'a>,
    text: &'a [u8],
    atoms: &mut Vec<u32>,
) -> Result<Option<(usize, &'a [u8])>, AllocError> {
    let mut rest = text;
    for columns in 1..MOST_COLUMNS + 1 {
        let Some((number, behind)) = read_atom(names, rest)? else {
            return Ok(None);
        };
        atoms.push(number)?;
        match after(behind, b"->") {
            None => return Ok(Some((columns, behind))),
            Some(next) => rest = next,
        }
    }
    Ok(None)
}

/// What stands before a tuple.
fn separator(is_first: bool) -> &'static [u8] {
    if is_first {
        b" ".as_slice()
    } else {
        b", ".as_slice()
    }
}

/// Reads the tuples of a line, which have one number of columns. There is `None` where it has something else.
fn read_tuples<'a>(
    alloc: Global,
    names: &mut Names<'a>,
    text: &'a [u8],
) -> Result<Option<Table>, AllocError> {
    let mut atoms = Vec::new(alloc);
    let mut all = 0;
    let mut rest = text;
    for count in 0..text.len() {
        if rest.is_empty() {
            return Ok(Some(Table::new(all, atoms)));
        }
        let Some(tuple) = after(rest, separator(count == 0)) else {
            return Ok(None);
        };
        let Some((columns, behind)) = read_tuple(names, tuple, &mut atoms)? else {
            return Ok(None);
        };
        if count > 0 && columns != all {
            return Ok(None);
        }
        all = columns;
        rest = behind;
    }
    if rest.is_empty() {
        Ok(Some(Table::new(all, atoms)))
    } else {
        Ok(None)
    }
}

/// Reads the tuples of a line, none of which stands there twice. There is `None` where it has something else.
pub fn read_table<'a>(
    alloc: Global,
    names: &mut Names<'a>,
    text: &'a [u8],
) -> Result<Option<Table>, AllocError> {
    let Some(table) = read_tuples(alloc, names, text)? else {
        return Ok(None);
    };
    if table.has_repeats(alloc)? {
        return Ok(None);
    }
    Ok(Some(table))
}
