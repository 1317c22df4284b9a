//! Choices of atoms for the variables of a list.

ghost use Rattle.std.specs.Prelude.{◌≡◌, ◌++◌, ◌∷◌, [], ◌+◌, ◌+ℤ◌, ℕ, ℤ, List, map, length, Contains, AllPairs, IfOk, OnOk};
ghost use Rattle.core_tuples.specs.Sets.{In};
ghost use Rattle.core_meaning.specs.Integers.{wrap, sum_of};
ghost use Rattle.core_meaning.specs.World.{atom_of};
ghost use Rattle.eval_context.specs.Settings.{world};
ghost use Rattle.eval_steps.specs.Judged.{IsFound};
ghost use Rattle.eval_steps.specs.declared.rows.Row.{Row};

use crate::held::Held;
use crate::judge::Judge;
use core_tree::{Expr, Formula};
use core_tuples::Tuple;
use eval_integers::wrapped;
use eval_sets::{EvaluationFault, empty_of, put};
use std::alloc::{AllocError, Global};

/// What is asked at each choice.
#[derive(Clone, Copy)]
pub enum Goal<'a> {
    /// That a formula holds.
    Passes(&'a Formula),
    /// The integer that an expression has.
    Value(&'a Expr),
}

/// What is asked at the positions before one.
#[derive(Clone, Copy)]
pub enum First<'a> {
    /// Nothing.
    Any,
    /// The truth value of a formula.
    Each(&'a Formula),
}

/// A choice of atoms, and the integer that an expression has there.
#[derive(Drop)]
pub struct Row {
    pub chosen: Tuple,
    pub value: i64,
}

/// The row of no atom.
pub fn first_row(alloc: Global, value: i64) -> Result<Vec<Row>, AllocError>
    ensures { IfOk result (λ rows. rows.items ≡ record { chosen = []; value = value } ∷ []) }
{
    let mut rows: Vec<Row> = Vec::new(alloc);
    rows.push(Row {
        chosen: Tuple::new(alloc),
        value,
    })?;
    Ok(rows)
}

/// A tuple with an atom before it.
fn prefixed(alloc: Global, atom: u32, tuple: &Tuple) -> Result<Tuple, AllocError>
    ensures { IfOk result (λ t. t ≡ atom ∷ tuple.now) }
{
    let numbers = tuple.numbers();
    let mut longer = Tuple::of(alloc, &[atom])?;
    for number in numbers {
        longer.push(*number)?;
    }
    Ok(longer)
}

/// A row with an atom before its choice.
fn longer(alloc: Global, atom: u32, row: &Row) -> Result<Row, AllocError>
    ensures { IfOk result (λ r. r ≡ record {
      chosen = atom ∷ row.now.chosen;
      value = row.now.value;
    }) }
{
    let chosen = prefixed(alloc, atom, &row.chosen)?;
    Ok(Row {
        chosen,
        value: row.value,
    })
}

/// Adds rows, each with an atom before its choice.
pub fn add_rows(
    alloc: Global,
    atom: u32,
    more: &[Row],
    rows: &mut Vec<Row>,
) -> Result<(), AllocError>
    ensures { OnOk result (rows.new.items ≡ rows.old.items
        ++ map (λ (r : Row). record { chosen = atom ∷ r.chosen; value = r.value }) more.now) }
{
    for row in more {
        let added = longer(alloc, atom, row)?;
        rows.push(added)?;
    }
    Ok(())
}

/// The set of the choices, which have so many atoms.
pub fn chosen_set<'a>(
    judge: &Judge<'a>,
    columns: usize,
    rows: &[Row],
) -> Result<Held<'a>, EvaluationFault>
    ensures { IfOk result (λ held. IsFound held (Contains (map (λ (r : Row). r.chosen) rows.now))) }
{
    let mut set = empty_of(judge.alloc(), columns);
    for row in rows {
        let chosen = row.chosen.copy(judge.alloc())?;
        put(&mut set, chosen)?;
    }
    Ok(Held::Owned(set))
}

/// The value of a row.
fn value_of(row: &Row) -> i64
    ensures { result ≡ row.now.value }
{
    row.value
}

/// The sum of two integers. Outside 64 bits it is unfit.
fn added(a: i64, b: i64) -> Result<i64, EvaluationFault>
    ensures { IfOk result (λ n. n ≡ a +ℤ b) }
{
    match a.checked_add(b) {
        Some(sum) => Ok(sum),
        None => Err(EvaluationFault::Unfit),
    }
}

/// The set of the sum of the values.
pub fn sum_of_rows<'a>(judge: &Judge<'a>, rows: &[Row]) -> Result<Held<'a>, EvaluationFault>
    ensures { IfOk result (λ held. IsFound held (λ t.
        t ≡ atom_of (world judge.now) (wrap (world judge.now).bits
        (sum_of (map (λ (r : Row). r.value) rows.now))) ∷ [])) }
{
    let mut sum: i64 = 0;
    for row in rows {
        let value = value_of(row);
        sum = added(sum, value)?;
    }
    let setting = judge.setting();
    let set = wrapped(setting, sum)?;
    Ok(Held::Owned(set))
}
