//! As which sig a sig stands in a type, and where two of them meet.

ghost use Rattle.std.specs.Prelude.{◌≡◌, ◌++◌, ◌∷◌, [], ◌<◌, ◌^◌, length, IfOk, OnOk};
ghost use Rattle.core_tree.specs.Types.{is_under, meet, literal_parent, standing, top_row, top_rows, typed_as};
ghost use Rattle.resolve_type_check.specs.Steps.{parent_of, parent_at, standing_parent, meet_sigs, standing_rows};

use core_tree::{Column, Row, RowList, Sig, SigKind};
use std::alloc::{AllocError, Global};

/// The sig that one extends.
fn parent_of(kind: &SigKind) -> Option<u32>
    ensures { result ≡ parent_of kind.now }
{
    match kind {
        SigKind::Extends(parent) => Some(*parent),
        SigKind::Top => None,
        SigKind::Subset(_) => None,
    }
}

fn parent_at(sigs: &[Sig], sig: u32) -> Option<u32>
    ensures { result ≡ parent_at sigs.now sig }
{
    match sigs.get(sig as usize) {
        None => None,
        Some(there) => parent_of(&there.kind),
    }
}

/// The sig that a `var` sig extends.
fn standing_parent(sigs: &[Sig], sig: u32) -> Option<u32>
    ensures { result ≡ standing_parent sigs.now sig }
{
    match sigs.get(sig as usize) {
        None => None,
        Some(there) => {
            if there.is_var {
                parent_of(&there.kind)
            } else {
                None
            }
        }
    }
}

/// As which sig a sig stands in a type, going up at most so far.
fn standing(sigs: &[Sig], steps: usize, sig: u32) -> u32
    ensures { result ≡ standing sigs.now steps sig }
{
    if steps == 0 {
        return sig;
    }
    match standing_parent(sigs, sig) {
        None => sig,
        Some(parent) => standing(sigs, steps - 1, parent),
    }
}

/// Whether sig a is sig b or lies under it, going up at most so far.
fn is_under(sigs: &[Sig], steps: usize, a: u32, b: u32) -> bool
    ensures { result ≡ is_under sigs.now steps a b }
{
    if a == b {
        return true;
    }
    if steps == 0 {
        return false;
    }
    match parent_at(sigs, a) {
        None => false,
        Some(parent) => is_under(sigs, steps - 1, parent, b),
    }
}

fn meet_sigs(sigs: &[Sig], a: u32, b: u32) -> Option<Column>
    ensures { result ≡ meet_sigs sigs.now a b }
{
    if is_under(sigs, sigs.len(), a, b) {
        return Some(Column::Sig(a));
    }
    if is_under(sigs, sigs.len(), b, a) {
        return Some(Column::Sig(b));
    }
    None
}

/// The lower one of two columns where one lies under the other.
pub fn meet(sigs: &[Sig], a: Column, b: Column) -> Option<Column>
    ensures { result ≡ meet sigs.now a b }
{
    match (a, b) {
        (Column::Int, Column::Int) => Some(Column::Int),
        (Column::Sig(s), Column::Sig(t)) => meet_sigs(sigs, s, t),
        _ => None,
    }
}

/// Adds the row of one column.
pub fn add_column(alloc: Global, column: Column, all: &mut RowList) -> Result<(), AllocError>
    ensures { OnOk result (all.new ≡ all.old ++ (column ∷ []) ∷ []) }
{
    let mut row = Row::new(alloc);
    row.push(column)?;
    all.push(row)
}

/// Adds the row of the sig as which a sig stands.
pub fn add_standing(
    alloc: Global,
    sigs: &[Sig],
    sig: u32,
    all: &mut RowList,
) -> Result<(), AllocError>
    ensures { OnOk result (all.new ≡ all.old ++ standing_rows sigs.now sig) }
{
    add_column(alloc, Column::Sig(standing(sigs, sigs.len(), sig)), all)
}

/// As which sig this one is typed where an expression names it: a literal's as `String`.
fn literal_parent(sig: u32, there: &Sig) -> u32
    ensures { result ≡ literal_parent sig there.now }
{
    match there.origin {
        Some(_) => sig,
        None => match parent_of(&there.kind) {
            None => sig,
            Some(parent) => parent,
        },
    }
}

/// As which sig an expression's sig is typed.
pub fn typed_as(sigs: &[Sig], sig: u32) -> u32
    ensures { result ≡ typed_as sigs.now sig }
{
    match sigs.get(sig as usize) {
        None => sig,
        Some(there) => literal_parent(sig, there),
    }
}

/// Adds the row of a top-level sig.
fn add_top(alloc: Global, sig: u32, kind: &SigKind, all: &mut RowList) -> Result<(), AllocError>
    ensures { OnOk result (all.new ≡ all.old ++ top_row sig kind.now) }
{
    match kind {
        SigKind::Top => add_column(alloc, Column::Sig(sig), all),
        SigKind::Extends(_) => Ok(()),
        SigKind::Subset(_) => Ok(()),
    }
}

/// The row of the integers.
pub fn int_rows(alloc: Global) -> Result<RowList, AllocError>
    ensures { IfOk result (λ all. all ≡ (Column.Int ∷ []) ∷ []) }
{
    let mut all = RowList::new(alloc);
    add_column(alloc, Column::Int, &mut all)?;
    Ok(all)
}

/// The rows of all top-level sigs, and `Int`.
pub fn rows_of_tops(alloc: Global, sigs: &[Sig]) -> Result<RowList, AllocError>
    requires { length sigs.now < 2 ^ 32 }
    ensures { IfOk result (λ all. all ≡ top_rows sigs.now 0) }
{
    let mut all = RowList::new(alloc);
    for place in 0..sigs.len() {
        add_top(alloc, place as u32, &sigs[place].kind, &mut all)?;
    }
    add_column(alloc, Column::Int, &mut all)?;
    Ok(all)
}
