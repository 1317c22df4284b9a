//! Whether a set lies in a bound, where calls nest below a number.

ghost use Rattle.std.specs.Prelude.{◌↔◌, IfOk, IsTrue};
ghost use Rattle.core_tree.specs.Trees.{term_of};
ghost use Rattle.core_meaning.specs.Operators.{IsInside, HasMultiplicity};
ghost use Rattle.core_meaning.specs.Meaning.{Fits};
ghost use Rattle.core_tuples.specs.Sets.{In};
ghost use Rattle.eval_context.specs.Settings.{world};
ghost use Rattle.eval_steps.specs.Judged.{bodies, scope_names, Means};

use crate::forms::{holds_in, tuples_in};
use crate::walk::Walk;
use core_meaning::Environment;
use core_tree::{Expr, Multiplicity};
use core_tuples::TupleSet;
use eval_sets::EvaluationFault;
use eval_steps::Judge;

/// Whether a set lies in a bound at a position and has its multiplicities, where calls nest below a
/// number.
pub fn is_within<'a>(
    judge: &'a Judge<'a>,
    set: &TupleSet,
    word: Multiplicity,
    bound: &Expr,
    scope: &Environment<'_>,
    position: u64,
    deep: u32,
) -> Result<bool, EvaluationFault>
    ensures { IfOk result (λ b. IsTrue b ↔ (IsInside (λ t. In t set.now)
        (Means judge.now (term_of bound.now) (scope_names judge.now scope.now) position)
        × HasMultiplicity word (λ t. In t set.now)
        × Fits (world judge.now) (bodies judge.now) (term_of bound.now)
        (scope_names judge.now scope.now) position (λ t. In t set.now))) }
{
    let walk = Walk {
        judge,
        deep,
        term: tuples_in,
        claim: holds_in,
    };
    walk.is_within(set, word, bound, scope, position)
}
