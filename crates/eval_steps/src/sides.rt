//! The sides of an arrow: what goes with each tuple of one, for its multiplicities.

ghost use Rattle.std.specs.Prelude.{◌≡◌, ◌≤◌, ℕ, List, length, IfOk, OnOk, IsTrue};
ghost use Rattle.core_tree.specs.Trees.{term_of};
ghost use Rattle.core_tuples.specs.Sets.{In};
ghost use Rattle.eval_sets.specs.SetOf.{IsSetOf, Gains};
ghost use Rattle.eval_steps.specs.Judged.{is_set, asks_in, asks_for, IsArrow, GivesHead, GivesTail};

use core_tree::{Expr, Multiplicity};
use core_tuples::{Keyed, Tuple, TupleSet};
use eval_sets::{EvaluationFault, empty_of, put};
use std::alloc::Global;

/// Whether a multiplicity is `set`.
fn is_set(multiplicity: Multiplicity) -> bool
    ensures { result ≡ is_set multiplicity }
{
    match multiplicity {
        Multiplicity::Set => true,
        Multiplicity::One => false,
        Multiplicity::Lone => false,
        Multiplicity::Some => false,
    }
}

/// Whether a multiplicity, or an arrow of a bound, isn't `set`.
pub fn asks(multiplicity: Multiplicity, bound: &Expr) -> bool
    ensures { result ≡ asks_for multiplicity (term_of bound.now) }
{
    if !is_set(multiplicity) {
        return true;
    }
    asks_in(bound)
}

/// Whether an arrow of a bound has a multiplicity other than `set`.
fn asks_in(bound: &Expr) -> bool
    ensures { result ≡ asks_in (term_of bound.now) }
{
    match bound {
        Expr::Product(a, left, right, b) => {
            if !is_set(*left) || !is_set(*right) {
                return true;
            }
            if asks_in(a) {
                return true;
            }
            asks_in(b)
        }
        _ => false,
    }
}

/// An expression seen as an arrow.
#[derive(Clone, Copy)]
pub enum Arrow<'a> {
    /// `a m -> n b`.
    Sides(&'a Expr, Multiplicity, Multiplicity, &'a Expr),
    /// Another form.
    Other,
}

/// The two sides of an expression that is an arrow.
pub fn arrow_of(expr: &Expr) -> Arrow<'_>
    ensures { IsArrow result (term_of expr.now) }
{
    match expr {
        Expr::Product(a, left, right, b) => Arrow::Sides(a, *left, *right, b),
        _ => Arrow::Other,
    }
}

/// Whether every tuple of a set has at least so many columns.
pub fn is_long(set: &TupleSet, columns: usize) -> bool
    ensures { IsTrue result → (t : List ℕ) → In t set.now → columns ≤ length t }
{
    columns <= set.arity() as usize || set.len() == 0
}

/// Adds the first so many columns of a tuple that has as many.
fn add_head(
    alloc: Global,
    columns: usize,
    tuple: &Keyed,
    all: &mut TupleSet,
) -> Result<(), EvaluationFault>
    ensures { OnOk result (Gains all.old all.new (GivesHead columns) tuple.now) }
{
    let numbers = tuple.numbers();
    if columns > numbers.len() {
        return Ok(());
    }
    let (head, _) = numbers.split_at(columns);
    let row = Tuple::of(alloc, head)?;
    put(all, row)
}

/// The first so many columns of the tuples that have as many.
pub fn heads(alloc: Global, set: &TupleSet, columns: usize) -> Result<TupleSet, EvaluationFault>
    ensures { IfOk result (λ s. IsSetOf s (λ u. (t : List ℕ) × In t set.now
        × GivesHead columns t u)) }
{
    let mut all = empty_of(alloc, columns);
    let tuples = set.keyed();
    for tuple in tuples {
        add_head(alloc, columns, tuple, &mut all)?;
    }
    Ok(all)
}

/// Adds what follows the first so many columns of a tuple that has as many.
fn add_tail(
    alloc: Global,
    columns: usize,
    tuple: &Keyed,
    all: &mut TupleSet,
) -> Result<(), EvaluationFault>
    ensures { OnOk result (Gains all.old all.new (GivesTail columns) tuple.now) }
{
    let numbers = tuple.numbers();
    if columns > numbers.len() {
        return Ok(());
    }
    let (_, tail) = numbers.split_at(columns);
    let row = Tuple::of(alloc, tail)?;
    put(all, row)
}

/// What follows the first so many columns of the tuples that have as many.
pub fn tails(alloc: Global, set: &TupleSet, columns: usize) -> Result<TupleSet, EvaluationFault>
    ensures { IfOk result (λ s. IsSetOf s (λ u. (t : List ℕ) × In t set.now
        × GivesTail columns t u)) }
{
    let mut all = empty_of(alloc, (set.arity() as usize).saturating_sub(columns));
    let tuples = set.keyed();
    for tuple in tuples {
        add_tail(alloc, columns, tuple, &mut all)?;
    }
    Ok(all)
}
