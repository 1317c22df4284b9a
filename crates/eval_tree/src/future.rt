//! The walk ahead, for `until` and its kin.

ghost use Rattle.std.specs.Prelude.{◌↔◌, IfOk, IsTrue};
ghost use Rattle.core_tree.specs.Trees.{claim_of};
ghost use Rattle.core_meaning.specs.Operators.{UntilAt};
ghost use Rattle.eval_steps.specs.Judged.{scope_names, HoldsIn, Says, SaysFirst};
ghost use Rattle.eval_tree.specs.Evaluates.{Evaluates};

use crate::walk::Walk;
use core_meaning::Environment;
use core_tree::{Expr, Formula};
use eval_sets::EvaluationFault;
use eval_steps::{First, Held, Judge, limit, says};

impl<
    'a,
    T: for<'j> Fn(
        &'j Judge<'j>,
        &Expr,
        &Environment<'_>,
        u64,
        u32,
    ) -> Result<Held<'j>, EvaluationFault>,
    H: for<'j> Fn(
        &'j Judge<'j>,
        &Formula,
        &Environment<'_>,
        u64,
        u32,
    ) -> Result<bool, EvaluationFault>,
> Walk<'a, T, H> {
    /// Whether at some position from one on the second formula has a truth value, and the first, where
    /// there is one, at each position from that one to before it.
    pub(crate) fn forward(
        &self,
        first: First,
        second: &Formula,
        sense: bool,
        scope: &Environment,
        position: u64,
    ) -> Result<bool, EvaluationFault>
        requires { Evaluates self.now.deep (T.pre self.now.term) (T.post self.now.term)
            (H.pre self.now.claim) (H.post self.now.claim) }
        ensures { IfOk result (λ b. IsTrue b ↔ UntilAt
            (SaysFirst self.now.judge.now first.entry sense
            (scope_names self.now.judge.now scope.now))
            (λ j. Says sense (HoldsIn self.now.judge.now (claim_of second.now)
            (scope_names self.now.judge.now scope.now) j)) position) }
    {
        let end = limit(self.judge, second, scope, position)?;
        for place in position..end {
            let truth = self.holds(second, scope, place)?;
            let here = says(sense, truth);
            if here {
                return Ok(true);
            }
            let on = self.goes_on(first, sense, scope, place)?;
            if !on {
                return Ok(false);
            }
        }
        Ok(false)
    }
}
