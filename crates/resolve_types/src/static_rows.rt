//! The rows of a type as the model has them.

ghost use Rattle.std.specs.Prelude.{◌≡◌, IfOk, map};
ghost use Rattle.resolve_types.specs.StaticRows.{column_of, row_of};

use crate::{Columns, Member};
use core_tree::{Column, Row, RowList};
use std::alloc::{AllocError, Global};

fn column(member: Member) -> Column
    ensures { result ≡ column_of member }
{
    match member {
        Member::Int => Column::Int,
        Member::Sig(sig) => Column::Sig(sig),
    }
}

fn model_row(alloc: Global, row: &[Member]) -> Result<Row, AllocError>
    ensures { IfOk result (λ r. r ≡ row_of row.now) }
{
    let mut all = Row::new(alloc);
    for member in row {
        all.push(column(*member))?;
    }
    Ok(all)
}

/// The rows of a type as the model has them.
pub fn model_rows(alloc: Global, columns: &Columns) -> Result<RowList, AllocError>
    ensures { IfOk result (λ all. all ≡ map row_of columns.now.rows) }
{
    let rows = columns.rows.as_slice();
    let mut all = RowList::new(alloc);
    for row in rows {
        all.push(model_row(alloc, row.as_slice())?)?;
    }
    Ok(all)
}
