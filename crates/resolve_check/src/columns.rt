//! Counts the columns of an expression whose parts fit.

ghost use Rattle.std.specs.Prelude.{◌≡◌, ◌&&◌, map};
ghost use Rattle.core_tree.specs.Columns.{combined, or_zero};
ghost use Rattle.core_tree.specs.Trees.{variable_of, variable_list};
ghost use Rattle.resolve_check.specs.Fits as fits;

use core_tree::{Multiplicity, RelationOp, Variable};

/// As many columns as an expression may have.
pub fn few(columns: u64) -> Option<u32>
    ensures { result ≡ fits.few columns }
{
    // ArityLimit, S47: a relation has at most nine columns.
    if 1 <= columns && columns <= 9 {
        Some(columns as u32)
    } else {
        None
    }
}

/// The columns, where there are few.
pub fn few_of(columns: Option<u32>) -> Option<u32>
    ensures { result ≡ fits.few_of columns }
{
    match columns {
        None => None,
        Some(columns) => few(columns as u64),
    }
}

/// The columns, where a condition holds.
pub fn only(holds: bool, columns: Option<u32>) -> Option<u32>
    ensures { result ≡ fits.only holds columns }
{
    if holds { columns } else { None }
}

/// Whether both hold.
pub fn both(first: bool, second: bool) -> bool
    ensures { result ≡ first && second }
{
    first && second
}

/// Whether an expression is right.
pub fn is_there(columns: Option<u32>) -> bool
    ensures { result ≡ fits.is_there columns }
{
    match columns {
        None => false,
        Some(_) => true,
    }
}

/// The columns, or 0.
pub fn or_zero(columns: Option<u32>) -> u32
    ensures { result ≡ or_zero columns }
{
    match columns {
        None => 0,
        Some(columns) => columns,
    }
}

/// Whether there is one column.
pub fn is_single(columns: Option<u32>) -> bool
    ensures { result ≡ fits.is_single columns }
{
    match columns {
        None => false,
        Some(columns) => columns == 1,
    }
}

/// Whether there are so many columns.
pub fn has_columns(columns: Option<u32>, wanted: u32) -> bool
    ensures { result ≡ fits.has_columns columns wanted }
{
    match columns {
        None => false,
        Some(columns) => columns == wanted,
    }
}

fn can_combine(op: RelationOp, a: u32, b: u32) -> bool
    ensures { result ≡ fits.can_combine op a b }
{
    match op {
        RelationOp::Union => a == b,
        RelationOp::Difference => a == b,
        RelationOp::Intersection => a == b,
        RelationOp::Override => a == b,
        RelationOp::Join => 3 <= a as u64 + b as u64,
        RelationOp::LeftRestrict => a == 1,
        RelationOp::RightRestrict => b == 1,
    }
}

fn combined(op: RelationOp, a: u32, b: u32) -> u64
    ensures { result ≡ combined op a b }
{
    match op {
        RelationOp::Union => a as u64,
        RelationOp::Difference => a as u64,
        RelationOp::Intersection => a as u64,
        RelationOp::Override => a as u64,
        RelationOp::Join => (a as u64 + b as u64).saturating_sub(2),
        RelationOp::LeftRestrict => b as u64,
        RelationOp::RightRestrict => a as u64,
    }
}

/// The columns of an operator on two relations.
pub fn combined_columns(op: RelationOp, a: Option<u32>, b: Option<u32>) -> Option<u32>
    ensures { result ≡ fits.combined_columns op a b }
{
    match a {
        None => None,
        Some(a) => match b {
            None => None,
            Some(b) => only(can_combine(op, a, b), few(combined(op, a, b))),
        },
    }
}

/// The columns of a product.
pub fn product_columns(a: Option<u32>, b: Option<u32>) -> Option<u32>
    ensures { result ≡ fits.product_columns a b }
{
    match a {
        None => None,
        Some(a) => match b {
            None => None,
            Some(b) => few(a as u64 + b as u64),
        },
    }
}

/// The columns that both have.
pub fn same_columns(a: Option<u32>, b: Option<u32>) -> Option<u32>
    ensures { result ≡ fits.same_columns a b }
{
    match a {
        None => None,
        Some(a) => only(has_columns(b, a), Some(a)),
    }
}

fn can_bound(word: Multiplicity, columns: u32) -> bool
    ensures { result ≡ fits.can_bound word columns }
{
    match word {
        Multiplicity::Set => true,
        Multiplicity::One => columns == 1,
        Multiplicity::Lone => columns == 1,
        Multiplicity::Some => columns == 1,
    }
}

/// The columns of a bound before which a word may stand.
pub fn bounded(word: Multiplicity, columns: Option<u32>) -> Option<u32>
    ensures { result ≡ fits.bounded word columns }
{
    match columns {
        None => None,
        Some(columns) => only(can_bound(word, columns), Some(columns)),
    }
}

/// How many variables there are.
#[tactic(auto, using(crate::proofs::NameLists::count_is))]
pub fn count_of(list: &[Variable]) -> u64
    ensures { result ≡ fits.how_many (variable_list (map variable_of list.now)) }
{
    list.len() as u64
}
