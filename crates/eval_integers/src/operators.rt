//! Operators and comparisons on what sets stand for in integer places.

ghost use Rattle.std.specs.Prelude.{◌≡◌, ◌↔◌, ◌∷◌, [], ◌+ℤ◌, ◌≤ℤ◌, ◌<ℤ◌, pos, negsuc, ℕ, ℤ, List, IfOk, IsTrue};
ghost use Rattle.core_tuples.specs.Sets.{In};
ghost use Rattle.core_meaning.specs.World.{atom_of};
ghost use Rattle.core_meaning.specs.Integers.{wrap, result_of};
ghost use Rattle.core_meaning.specs.Operators.{IsNumber, IsCount, Compares};
ghost use Rattle.eval_sets.specs.SetOf.{IsSetOf};
ghost use Rattle.eval_context.specs.Settings.{world};

use crate::values::{literal, number_of};
use crate::{compares, result_of, wrap};
use core_tree::{Comparison, IntOp};
use core_tuples::TupleSet;
use eval_context::Setting;
use eval_sets::{EvaluationFault, size_of};

/// How many tuples a set has, wrapped, as a set of one integer.
pub fn count_of(setting: &Setting, set: &TupleSet) -> Result<TupleSet, EvaluationFault>
    ensures { IfOk result (λ s. IsSetOf s (λ t. (n : ℤ)
        × IsCount (world setting.now) (λ u. In u set.now) n
        × (t ≡ atom_of (world setting.now) n ∷ []))) }
{
    let size = size_of(set);
    if size >= 1_099_511_627_776 {
        return Err(EvaluationFault::Unfit);
    }
    let bits = setting.bits();
    let count = wrap(bits, size as i64);
    let number = literal(setting, count)?;
    Ok(number)
}

/// An operator on what two sets stand for, as a set of one integer.
pub fn arithmetic(
    setting: &Setting,
    op: IntOp,
    a: &TupleSet,
    b: &TupleSet,
) -> Result<TupleSet, EvaluationFault>
    ensures { IfOk result (λ s. IsSetOf s (λ t. (x y : ℤ)
        × IsNumber (world setting.now) (λ u. In u a.now) x
        × IsNumber (world setting.now) (λ u. In u b.now) y
        × (t ≡ atom_of (world setting.now) (wrap (world setting.now).bits (result_of op x y)) ∷
        []))) }
{
    let x = number_of(setting, a)?;
    let y = number_of(setting, b)?;
    let bits = setting.bits();
    let result = result_of(op, x, y);
    let value = wrap(bits, result);
    let number = literal(setting, value)?;
    Ok(number)
}

/// Whether what two sets stand for compares as an operator asks.
pub fn compare(
    setting: &Setting,
    op: Comparison,
    a: &TupleSet,
    b: &TupleSet,
) -> Result<bool, EvaluationFault>
    ensures { IfOk result (λ r. IsTrue r ↔ Compares (world setting.now) op (λ t. In t a.now)
        (λ t. In t b.now)) }
{
    let x = number_of(setting, a)?;
    let y = number_of(setting, b)?;
    Ok(compares(op, x, y))
}
