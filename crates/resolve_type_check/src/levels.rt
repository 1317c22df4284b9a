//! The rows of a sig: one walk up from `in` sigs to their parents, level by level, each sig of a level once.

ghost use Rattle.std.specs.Prelude.{◌≡◌, ◌↔◌, ◌++◌, ℕ, Contains, IfOk, IsTrue, OnOk, length};
ghost use Rattle.std.specs.List.{flat_map};
ghost use Rattle.core_tree.specs.Types.{sig_rows, typed_as};
ghost use Rattle.resolve_type_check.specs.Levels.{int_row, sig_of, kind_here, rows_here, kind_above, sigs_above};
ghost use Rattle.resolve_type_check.specs.Steps.{standing_rows};
ghost use Rattle.resolve_type_check.specs.Same.{SameRows};

use crate::sets::each_once;
use crate::sigs::{add_column, add_standing, typed_as};
use core_tree::{Column, RowList, Sig, SigKind};
use std::alloc::{AllocError, Global};

/// Adds what a parent of an `in` sig gives: the row of `Int`, or a sig whose rows are added later.
fn add_parent(
    alloc: Global,
    parent: Column,
    all: &mut RowList,
    next: &mut Vec<u32>,
) -> Result<(), AllocError>
    ensures rows { OnOk result (all.new ≡ all.old ++ int_row parent) }
    ensures next { OnOk result (next.new.items ≡ next.old.items ++ sig_of parent) }
{
    match parent {
        Column::Int => {
            add_column(alloc, Column::Int, all)?;
            Ok(())
        }
        Column::Sig(sig) => {
            next.push(sig)?;
            Ok(())
        }
    }
}

/// Adds what the parents of an `in` sig give.
fn add_parents(
    alloc: Global,
    parents: &[Column],
    all: &mut RowList,
    next: &mut Vec<u32>,
) -> Result<(), AllocError>
    ensures rows { OnOk result (all.new ≡ all.old ++ flat_map int_row parents.now) }
    ensures next { OnOk result (next.new.items ≡ next.old.items ++ flat_map sig_of parents.now) }
{
    for parent in parents {
        add_parent(alloc, *parent, all, next)?;
    }
    Ok(())
}

/// Adds what a sig of a kind gives: the row of the sig as which it stands, or what its parents give.
fn add_kind(
    alloc: Global,
    sigs: &[Sig],
    sig: u32,
    kind: &SigKind,
    all: &mut RowList,
    next: &mut Vec<u32>,
) -> Result<(), AllocError>
    ensures rows { OnOk result (all.new
        ≡ all.old ++ kind_here (standing_rows sigs.now sig) kind.now) }
    ensures next { OnOk result (next.new.items ≡ next.old.items ++ kind_above kind.now) }
{
    match kind {
        SigKind::Top => add_standing(alloc, sigs, sig, all),
        SigKind::Extends(_) => add_standing(alloc, sigs, sig, all),
        SigKind::Subset(parents) => add_parents(alloc, parents.as_slice(), all, next),
    }
}

/// Adds what a sig gives.
fn add_here(
    alloc: Global,
    sigs: &[Sig],
    sig: u32,
    all: &mut RowList,
    next: &mut Vec<u32>,
) -> Result<(), AllocError>
    ensures rows { OnOk result (all.new ≡ all.old ++ rows_here sigs.now sig) }
    ensures next { OnOk result (next.new.items ≡ next.old.items ++ sigs_above sigs.now sig) }
{
    match sigs.get(sig as usize) {
        None => Ok(()),
        Some(there) => add_kind(alloc, sigs, sig, &there.kind, all, next),
    }
}

/// Adds what the sigs of a level give, and the sigs of the next one.
fn add_level(
    alloc: Global,
    sigs: &[Sig],
    waiting: &[u32],
    all: &mut RowList,
    next: &mut Vec<u32>,
) -> Result<(), AllocError>
    ensures rows { OnOk result (all.new ≡ all.old ++ flat_map (rows_here sigs.now) waiting.now) }
    ensures next { OnOk result (next.new.items ≡ next.old.items
        ++ flat_map (sigs_above sigs.now) waiting.now) }
{
    for sig in waiting {
        add_here(alloc, sigs, *sig, all, next)?;
    }
    Ok(())
}

/// The sigs that wait, each once.
fn once(waiting: Vec<u32>) -> Result<Vec<u32>, AllocError>
    ensures { IfOk result (λ v. (s : ℕ) → Contains v.items s ↔ Contains waiting.items s) }
{
    let mut sorted = waiting;
    sorted.sort()?;
    sorted.dedup();
    Ok(sorted)
}

/// Whether no sig waits.
fn is_over(waiting: &[u32]) -> bool
    ensures { IsTrue result → length waiting.now ≡ 0 }
{
    waiting.is_empty()
}

/// The rows of a sig, some of them more than once.
fn rows_up(alloc: Global, sigs: &[Sig], sig: u32) -> Result<RowList, AllocError>
    ensures { IfOk result (λ all. SameRows all (sig_rows sigs.now (length sigs.now) sig)) }
{
    let mut all = RowList::new(alloc);
    let mut waiting: Vec<u32> = Vec::new(alloc);
    waiting.push(sig)?;
    for _step in 0..sigs.len() {
        if is_over(&waiting) {
            return Ok(all);
        }
        let mut next: Vec<u32> = Vec::new(alloc);
        add_level(alloc, sigs, &waiting, &mut all, &mut next)?;
        let each = once(next)?;
        waiting = each;
    }
    Ok(all)
}

/// The rows of a sig, each once.
pub fn rows_of_sig(alloc: Global, sigs: &[Sig], sig: u32) -> Result<RowList, AllocError>
    ensures { IfOk result (λ all. SameRows all (sig_rows sigs.now (length sigs.now) sig)) }
{
    let all = rows_up(alloc, sigs, sig)?;
    let made = each_once(alloc, all.as_slice())?;
    Ok(made)
}

/// The rows of a sig that an expression names.
pub fn rows_of_named(alloc: Global, sigs: &[Sig], sig: u32) -> Result<RowList, AllocError>
    ensures { IfOk result (λ all. SameRows all (sig_rows sigs.now (length sigs.now)
        (typed_as sigs.now sig))) }
{
    let typed = typed_as(sigs, sig);
    let made = rows_of_sig(alloc, sigs, typed)?;
    Ok(made)
}
