//! What a relation is at all positions together, and whether it is the same at all of them.

ghost use Rattle.std.specs.Prelude.{◌≡◌, ◌↔◌, ◌⊎◌, ℕ, List, false, IfOk, IsTrue};
ghost use Rattle.core_tuples.specs.Sets.{In};
ghost use Rattle.core_meaning.specs.World.{InRelation};
ghost use Rattle.core_meaning.specs.Operators.{IsInside};
ghost use Rattle.core_meaning.specs.Kept.{IsStatic};
ghost use Rattle.eval_sets.specs.SetOf.{IsSetOf};
ghost use Rattle.eval_context.specs.Settings.{world};
ghost use Rattle.eval_scopes.specs.Asked.{IsEver};

use core_tree::RelationOp;
use core_tuples::{TupleSet, inside};
use eval_context::Setting;
use eval_sets::{EvaluationFault, combine, empty_of};

/// A set with the tuples that a relation has at a position.
fn with_place(
    setting: &Setting,
    number: usize,
    position: u64,
    all: TupleSet,
) -> Result<TupleSet, EvaluationFault>
    ensures { IfOk result (λ s. IsSetOf s (λ t. In t all
        ⊎ InRelation (world setting.now) number position t)) }
{
    match setting.relation(number, position) {
        Some(set) => {
            let more = combine(setting.alloc(), RelationOp::Union, &all, set)?;
            Ok(more)
        }
        None => Ok(all),
    }
}

/// The tuples that a relation has at some position.
pub fn ever(setting: &Setting, number: usize) -> Result<TupleSet, EvaluationFault>
    ensures { IfOk result (λ s. IsSetOf s (IsEver (world setting.now) number)) }
{
    let lasso = setting.lasso();
    let states = lasso.states();
    let mut all = empty_of(setting.alloc(), 1);
    for position in 0..states {
        all = with_place(setting, number, position as u64, all)?;
    }
    Ok(all)
}

/// Whether a set has no tuple.
fn is_empty(set: &TupleSet) -> bool
    ensures { IsTrue result ↔ ((t : List ℕ) → ¬ In t set.now) }
{
    let count = set.len();
    if count == 0 {
        return true;
    }
    false
}

/// Whether a relation has each tuple of a set at a position.
fn has_all(setting: &Setting, number: usize, position: u64, all: &TupleSet) -> bool
    ensures { IsTrue result ↔ IsInside (λ t. In t all.now)
        (InRelation (world setting.now) number position) }
{
    match setting.relation(number, position) {
        Some(set) => inside(all, set),
        None => is_empty(all),
    }
}

/// Whether a relation, which has these tuples at some position, is the same at all positions.
fn is_same(setting: &Setting, number: usize, all: &TupleSet) -> bool
    requires { IsSetOf all.now (IsEver (world setting.now) number) }
    ensures { IsTrue result ↔ IsStatic (world setting.now) number }
{
    let lasso = setting.lasso();
    let states = lasso.states();
    for position in 0..states {
        if !has_all(setting, number, position as u64, all) {
            return false;
        }
    }
    true
}

/// Whether a relation that isn't `var` is the same at all positions.
pub fn stays(setting: &Setting, is_var: bool, number: usize, all: &TupleSet) -> bool
    requires { IsSetOf all.now (IsEver (world setting.now) number) }
    ensures { IsTrue result ↔ (is_var ≡ false → IsStatic (world setting.now) number) }
{
    if is_var {
        return true;
    }
    is_same(setting, number, all)
}
