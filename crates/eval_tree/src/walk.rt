//! The walk: what the parts of a form are evaluated with.

ghost use Rattle.std.specs.Prelude.{◌↔◌, IfOk, IsTrue};
ghost use Rattle.core_tree.specs.Trees.{term_of, claim_of};
ghost use Rattle.core_meaning.specs.Operators.{IsNumber};
ghost use Rattle.eval_context.specs.Settings.{world};
ghost use Rattle.eval_steps.specs.Judged.{scope_names, Means, HoldsIn, IsFound};
ghost use Rattle.eval_tree.specs.Evaluates.{Evaluates};

use core_meaning::Environment;
use core_tree::{Expr, Formula};
use eval_integers::number_of;
use eval_sets::EvaluationFault;
use eval_steps::{Held, Judge, set_of};

/// What the parts of a form are evaluated with: what they are judged by, below which number their
/// calls may nest, and what evaluates expressions and judges formulas.
#[derive(Clone, Copy)]
pub struct Walk<'a, T, H> {
    pub judge: &'a Judge<'a>,
    pub deep: u32,
    pub term: T,
    pub claim: H,
}

impl<
    'a,
    T: for<'j> Fn(
        &'j Judge<'j>,
        &Expr,
        &Environment<'_>,
        u64,
        u32,
    ) -> Result<Held<'j>, EvaluationFault>,
    H: for<'j> Fn(
        &'j Judge<'j>,
        &Formula,
        &Environment<'_>,
        u64,
        u32,
    ) -> Result<bool, EvaluationFault>,
> Walk<'a, T, H> {
    /// The tuples of a part.
    pub fn tuples(
        &self,
        expr: &Expr,
        scope: &Environment,
        position: u64,
    ) -> Result<Held<'a>, EvaluationFault>
        requires { Evaluates self.now.deep (T.pre self.now.term) (T.post self.now.term)
            (H.pre self.now.claim) (H.post self.now.claim) }
        ensures { IfOk result (λ held. IsFound held
            (Means self.now.judge.now (term_of expr.now) (scope_names self.now.judge.now scope.now)
            position)) }
    {
        (self.term)(self.judge, expr, scope, position, self.deep)
    }

    /// Whether a part holds.
    pub fn holds(
        &self,
        formula: &Formula,
        scope: &Environment,
        position: u64,
    ) -> Result<bool, EvaluationFault>
        requires { Evaluates self.now.deep (T.pre self.now.term) (T.post self.now.term)
            (H.pre self.now.claim) (H.post self.now.claim) }
        ensures { IfOk result (λ b. IsTrue b ↔ HoldsIn self.now.judge.now (claim_of formula.now)
            (scope_names self.now.judge.now scope.now) position) }
    {
        (self.claim)(self.judge, formula, scope, position, self.deep)
    }

    /// What an expression stands for in an integer place.
    pub fn number_in(
        &self,
        expr: &Expr,
        scope: &Environment,
        position: u64,
    ) -> Result<i64, EvaluationFault>
        requires { Evaluates self.now.deep (T.pre self.now.term) (T.post self.now.term)
            (H.pre self.now.claim) (H.post self.now.claim) }
        ensures { IfOk result (λ n. IsNumber (world self.now.judge.now)
            (Means self.now.judge.now (term_of expr.now) (scope_names self.now.judge.now scope.now)
            position) n) }
    {
        let found = self.tuples(expr, scope, position)?;
        let set = set_of(&found);
        let setting = self.judge.setting();
        number_of(setting, set)
    }
}
