//! Sets of tuples that are lent or owned.

ghost use Rattle.std.specs.Prelude.{◌≡◌, IfOk};
ghost use Rattle.eval_steps.specs.Judged.{set_in};

use core_tuples::TupleSet;
use eval_sets::EvaluationFault;
use std::alloc::Global;

/// A set of tuples: a relation's set as it stands in a lasso, or one that was computed.
#[derive(Drop)]
pub enum Held<'a> {
    Lent(&'a TupleSet),
    Owned(TupleSet),
}

/// The set.
pub fn set_of<'b>(held: &'b Held<'_>) -> &'b TupleSet
    ensures { result.now ≡ set_in held.now }
{
    match held {
        Held::Lent(set) => *set,
        Held::Owned(set) => set,
    }
}

/// A copy of the set.
pub fn copy_of(alloc: Global, held: &Held<'_>) -> Result<TupleSet, EvaluationFault>
    ensures { IfOk result (λ set. set ≡ set_in held.now) }
{
    Ok(set_of(held).copy(alloc)?)
}
