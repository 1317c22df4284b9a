//! The temporal operators, by two walks: ahead (`forward`) and back (`backward`).

ghost use Rattle.std.specs.Prelude.{◌↔◌, ◌+◌, IfOk, IsTrue};
ghost use Rattle.core_tree.specs.Trees.{claim_of, temporal, temporal_pair};
ghost use Rattle.eval_steps.specs.Judged.{scope_names, HoldsIn, SaysFirst};
ghost use Rattle.eval_tree.specs.Evaluates.{Evaluates};

use crate::walk::Walk;
use core_meaning::Environment;
use core_tree::{Expr, Formula, TemporalBinary, TemporalUnary};
use eval_sets::EvaluationFault;
use eval_steps::{First, Held, Judge, after, says};

impl<
    'a,
    T: for<'j> Fn(
        &'j Judge<'j>,
        &Expr,
        &Environment<'_>,
        u64,
        u32,
    ) -> Result<Held<'j>, EvaluationFault>,
    H: for<'j> Fn(
        &'j Judge<'j>,
        &Formula,
        &Environment<'_>,
        u64,
        u32,
    ) -> Result<bool, EvaluationFault>,
> Walk<'a, T, H> {
    /// Whether a temporal operator on one formula holds.
    pub fn temporal(
        &self,
        op: TemporalUnary,
        f: &Formula,
        scope: &Environment,
        position: u64,
    ) -> Result<bool, EvaluationFault>
        requires { Evaluates self.now.deep (T.pre self.now.term) (T.post self.now.term)
            (H.pre self.now.claim) (H.post self.now.claim) }
        ensures { IfOk result (λ b. IsTrue b ↔ HoldsIn self.now.judge.now
            (temporal op (claim_of f.now)) (scope_names self.now.judge.now scope.now) position) }
    {
        match op {
            TemporalUnary::After => self.holds(f, scope, after(position)?),
            TemporalUnary::Always => Ok(!self.forward(First::Any, f, false, scope, position)?),
            TemporalUnary::Eventually => self.forward(First::Any, f, true, scope, position),
            TemporalUnary::Before => {
                if position == 0 {
                    return Ok(false);
                }
                self.holds(f, scope, position - 1)
            }
            TemporalUnary::Historically => Ok(!self.backward(
                First::Any,
                f,
                false,
                scope,
                position,
                self.deep,
            )?),
            TemporalUnary::Once => self.backward(First::Any, f, true, scope, position, self.deep),
        }
    }

    /// Whether a temporal operator on two formulas holds.
    pub fn temporal_pair(
        &self,
        op: TemporalBinary,
        f: &Formula,
        g: &Formula,
        scope: &Environment,
        position: u64,
    ) -> Result<bool, EvaluationFault>
        requires { Evaluates self.now.deep (T.pre self.now.term) (T.post self.now.term)
            (H.pre self.now.claim) (H.post self.now.claim) }
        ensures { IfOk result (λ b. IsTrue b ↔ HoldsIn self.now.judge.now
            (temporal_pair op (claim_of f.now) (claim_of g.now))
            (scope_names self.now.judge.now scope.now) position) }
    {
        match op {
            TemporalBinary::Until => self.forward(First::Each(f), g, true, scope, position),
            TemporalBinary::Releases => Ok(!self.forward(
                First::Each(f),
                g,
                false,
                scope,
                position,
            )?),
            TemporalBinary::Since => self.backward(
                First::Each(f),
                g,
                true,
                scope,
                position,
                self.deep,
            ),
            TemporalBinary::Triggered => Ok(!self.backward(
                First::Each(f),
                g,
                false,
                scope,
                position,
                self.deep,
            )?),
            TemporalBinary::Then => self.then_next(f, g, scope, position),
        }
    }

    /// Whether the first formula holds, and the second at the next position.
    fn then_next(
        &self,
        f: &Formula,
        g: &Formula,
        scope: &Environment,
        position: u64,
    ) -> Result<bool, EvaluationFault>
        requires { Evaluates self.now.deep (T.pre self.now.term) (T.post self.now.term)
            (H.pre self.now.claim) (H.post self.now.claim) }
        ensures { IfOk result (λ b. IsTrue b ↔ (HoldsIn self.now.judge.now (claim_of f.now)
            (scope_names self.now.judge.now scope.now) position
            × HoldsIn self.now.judge.now (claim_of g.now) (scope_names self.now.judge.now scope.now)
            (position + 1))) }
    {
        let first = self.holds(f, scope, position)?;
        if !first {
            return Ok(false);
        }
        let next = after(position)?;
        let second = self.holds(g, scope, next)?;
        Ok(second)
    }

    /// Whether the first formula, where there is one, has a truth value.
    pub(crate) fn goes_on(
        &self,
        first: First,
        sense: bool,
        scope: &Environment,
        position: u64,
    ) -> Result<bool, EvaluationFault>
        requires { Evaluates self.now.deep (T.pre self.now.term) (T.post self.now.term)
            (H.pre self.now.claim) (H.post self.now.claim) }
        ensures { IfOk result (λ b. IsTrue b ↔ SaysFirst self.now.judge.now first.entry sense
            (scope_names self.now.judge.now scope.now) position) }
    {
        match first {
            First::Any => Ok(true),
            First::Each(formula) => {
                let truth = self.holds(formula, scope, position)?;
                Ok(says(sense, truth))
            }
        }
    }
}
