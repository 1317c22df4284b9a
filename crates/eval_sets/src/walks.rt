//! The transitive closure: walks along a relation, one step longer in each round.

ghost use Rattle.std.specs.Prelude.{◌≡◌, IfOk};
ghost use Rattle.core_tuples.specs.Sets.{In, HasJust};
ghost use Rattle.core_meaning.specs.Operators.{closure_tuples};
ghost use Rattle.eval_sets.specs.SetOf.{IsSetOf};

use crate::fault::EvaluationFault;
use crate::rows::empty_of;
use core_tuples::{TupleSet, difference, join, union};
use std::alloc::Global;

/// More rounds than a closure takes: a walk without a repeat visits each of 16,384 numbers once.
const ROUNDS: u32 = 16385;

/// The pairs between which a walk of at least one step leads. Each round puts one step before the
/// walks that the round before found.
pub fn closure(alloc: Global, a: &TupleSet) -> Result<TupleSet, EvaluationFault>
    ensures { IfOk result (λ s. IsSetOf s (closure_tuples (λ t. In t a.now))) }
{
    if a.arity() != 2 {
        return Ok(empty_of(alloc, 2));
    }
    let mut all = a.copy(alloc)?;
    let mut found = a.copy(alloc)?;
    for _round in 0..ROUNDS {
        if found.len() == 0 {
            return Ok(all);
        }
        let longer = join(alloc, a, &found)?;
        found = difference(alloc, &longer, &all)?;
        all = union(alloc, &all, &found)?;
    }
    Err(EvaluationFault::Unfit)
}
