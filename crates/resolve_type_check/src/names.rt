//! Names in scope, each with the rows of its type, the innermost first.

ghost use Rattle.std.specs.Prelude.{◌≡◌, ◌∷◌, IfOk};
ghost use Rattle.resolve_type_check.specs.Names.{names_of};

use crate::pairs::rows_copy;
use core_tree::{ItemList, Row, RowList};
use std::alloc::{AllocError, Global};

/// A name in scope, and the rows of its type.
#[derive(Drop)]
pub struct NamedRows {
    pub name: u32,
    pub rows: RowList,
}

/// The names in scope, the innermost first.
pub type NamedRowsList = ItemList<NamedRows>;

fn copy_of(alloc: Global, named: &NamedRows) -> Result<NamedRows, AllocError>
    ensures { IfOk result (λ n. n ≡ named.now) }
{
    Ok(NamedRows {
        name: named.name,
        rows: rows_copy(alloc, named.rows.as_slice())?,
    })
}

/// Equal names.
pub fn names_copy(alloc: Global, names: &[NamedRows]) -> Result<NamedRowsList, AllocError>
    ensures { IfOk result (λ all. all ≡ names.now) }
{
    let mut all = NamedRowsList::new(alloc);
    for named in names {
        all.push(copy_of(alloc, named)?)?;
    }
    Ok(all)
}

/// The names, and before them one more inside them.
pub fn with_name(
    alloc: Global,
    names: &[NamedRows],
    name: u32,
    rows: &[Row],
) -> Result<NamedRowsList, AllocError>
    ensures { IfOk result (λ all. all ≡ record { name = name; rows = rows.now } ∷ names.now) }
{
    let mut all = NamedRowsList::new(alloc);
    all.push(NamedRows {
        name,
        rows: rows_copy(alloc, rows)?,
    })?;
    for named in names {
        all.push(copy_of(alloc, named)?)?;
    }
    Ok(all)
}

/// The rows of a name; none where it isn't in scope.
pub fn look_up<'a>(names: &'a [NamedRows], name: u32) -> &'a [Row]
    ensures { result.now ≡ names_of names.now name }
{
    match names {
        [] => &[],
        [named, rest @ ..] => {
            if name == named.name {
                named.rows.as_slice()
            } else {
                look_up(rest, name)
            }
        }
    }
}
