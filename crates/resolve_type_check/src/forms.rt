//! What the forms of expressions make of the types of their parts, where these have any.

ghost use Rattle.std.specs.Prelude.{◌<◌, ◌^◌, length, IfOk};
ghost use Rattle.resolve_type_check.specs.Forms.{Combines, Multiplies, Chooses, Applies};

use crate::operators::{combined_type, either_type, product_type, turned_type};
use core_tree::{Model, RelationOp, RowList, UnaryRelation};
use std::alloc::{AllocError, Global};

/// An operator on two relations.
pub fn combine_types(
    alloc: Global,
    model: &Model,
    op: RelationOp,
    first: Option<RowList>,
    second: Option<RowList>,
) -> Result<Option<RowList>, AllocError>
    ensures { IfOk result (Combines model.now op first second) }
{
    match first {
        None => Ok(None),
        Some(a) => match second {
            None => Ok(None),
            Some(b) => {
                let sigs = model.sigs.as_slice();
                Ok(Some(combined_type(alloc, sigs, op, a.as_slice(), b.as_slice())?))
            }
        },
    }
}

/// A product.
pub fn product_types(
    alloc: Global,
    model: &Model,
    first: Option<RowList>,
    second: Option<RowList>,
) -> Result<Option<RowList>, AllocError>
    ensures { IfOk result (Multiplies model.now first second) }
{
    match first {
        None => Ok(None),
        Some(a) => match second {
            None => Ok(None),
            Some(b) => {
                let sigs = model.sigs.as_slice();
                Ok(Some(product_type(alloc, sigs, a.as_slice(), b.as_slice())?))
            }
        },
    }
}

/// A conditional.
pub fn either_types(
    alloc: Global,
    model: &Model,
    first: Option<RowList>,
    second: Option<RowList>,
) -> Result<Option<RowList>, AllocError>
    ensures { IfOk result (Chooses model.now first second) }
{
    match first {
        None => Ok(None),
        Some(a) => match second {
            None => Ok(None),
            Some(b) => Ok(Some(either_type(alloc, a.as_slice(), b.as_slice())?)),
        },
    }
}

/// An operator on one relation.
pub fn turn_types(
    alloc: Global,
    model: &Model,
    op: UnaryRelation,
    rows: Option<RowList>,
) -> Result<Option<RowList>, AllocError>
    requires { length model.now.sigs < 2 ^ 32 }
    ensures { IfOk result (Applies model.now op rows) }
{
    match rows {
        None => Ok(None),
        Some(a) => {
            let sigs = model.sigs.as_slice();
            turned_type(alloc, sigs, op, a.as_slice())
        }
    }
}
