//! The bodies that are called.

ghost use Rattle.std.specs.Prelude.{◌↔◌, map, IfOk, IsTrue};
ghost use Rattle.core_tree.specs.Trees.{term_of, term_list};
ghost use Rattle.eval_context.specs.Settings.{world};
ghost use Rattle.eval_calls.specs.Entered.{entered};
ghost use Rattle.eval_steps.specs.Judged.{bodies, scope_names, IsFound, InCalled, CalledHolds};
ghost use Rattle.eval_tree.specs.Evaluates.{Evaluates};

use crate::walk::Walk;
use core_meaning::Environment;
use core_tree::{BodyForm, Expr, Formula};
use eval_sets::EvaluationFault;
use eval_steps::{Held, Judge, deeper, next_name, nothing};

impl<
    'a,
    T: for<'j> Fn(
        &'j Judge<'j>,
        &Expr,
        &Environment<'_>,
        u64,
        u32,
    ) -> Result<Held<'j>, EvaluationFault>,
    H: for<'j> Fn(
        &'j Judge<'j>,
        &Formula,
        &Environment<'_>,
        u64,
        u32,
    ) -> Result<bool, EvaluationFault>,
> Walk<'a, T, H> {
    /// The tuples of a function's body whose parameters from a number on stand for the arguments, in
    /// the scope of the call.
    pub fn enter_term(
        &self,
        body: u32,
        arguments: &[Expr],
        from: u32,
        outer: &Environment,
        inner: &Environment,
        position: u64,
        deep: u32,
    ) -> Result<Held<'a>, EvaluationFault>
        requires { Evaluates self.now.deep (T.pre self.now.term) (T.post self.now.term)
            (H.pre self.now.claim) (H.post self.now.claim) }
        ensures { IfOk result (λ held. IsFound held
            (InCalled self.now.judge.now body (entered (world self.now.judge.now)
            (bodies self.now.judge.now) from (term_list (map term_of arguments.now))
            (scope_names self.now.judge.now outer.now) (scope_names self.now.judge.now inner.now))
            position)) }
    {
        let next = deeper(deep)?;
        match arguments.split_first() {
            Some((first, rest)) => {
                let more = Environment::Written(from, first, &*outer, &*inner);
                self.enter_term(body, rest, next_name(from)?, outer, &more, position, next)
            }
            None => {
                let list = self.judge.bodies();
                if body as usize >= list.len() {
                    return Ok(nothing(self.judge));
                }
                match &list.get(body as usize).form {
                    BodyForm::Test(_) => Ok(nothing(self.judge)),
                    BodyForm::Term(e, _) => self.tuples(e, inner, position),
                }
            }
        }
    }

    /// Whether a predicate's body holds whose parameters from a number on stand for the arguments, in
    /// the scope of the call.
    pub fn enter_claim(
        &self,
        body: u32,
        arguments: &[Expr],
        from: u32,
        outer: &Environment,
        inner: &Environment,
        position: u64,
        deep: u32,
    ) -> Result<bool, EvaluationFault>
        requires { Evaluates self.now.deep (T.pre self.now.term) (T.post self.now.term)
            (H.pre self.now.claim) (H.post self.now.claim) }
        ensures { IfOk result (λ b. IsTrue b ↔ CalledHolds self.now.judge.now body
            (entered (world self.now.judge.now) (bodies self.now.judge.now) from
            (term_list (map term_of arguments.now)) (scope_names self.now.judge.now outer.now)
            (scope_names self.now.judge.now inner.now)) position) }
    {
        let next = deeper(deep)?;
        match arguments.split_first() {
            Some((first, rest)) => {
                let more = Environment::Written(from, first, &*outer, &*inner);
                self.enter_claim(body, rest, next_name(from)?, outer, &more, position, next)
            }
            None => {
                let list = self.judge.bodies();
                if body as usize >= list.len() {
                    return Ok(false);
                }
                match &list.get(body as usize).form {
                    BodyForm::Test(f) => self.holds(f, inner, position),
                    BodyForm::Term(_, _) => Ok(false),
                }
            }
        }
    }
}
