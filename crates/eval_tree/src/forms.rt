//! The tuples of an expression, and the truth of a formula, form by form.

ghost use Rattle.std.specs.Prelude.{◌↔◌, map, IfOk, IsTrue};
ghost use Rattle.core_tree.specs.Trees.{term_of, claim_of, claim_list, connect, every};
ghost use Rattle.eval_steps.specs.Judged.{scope_names, Means, HoldsIn, IsFound};
ghost use Rattle.eval_tree.specs.Evaluates.{Evaluates};

use crate::walk::Walk;
use core_meaning::Environment;
use core_tree::{Connective, Expr, Formula};
use eval_context::{Meant, look_up};
use eval_sets::EvaluationFault;
use eval_steps::{
    Earlier, Goal, Held, Judge, after, calculated, chosen_set, combined, compared, counted, deeper,
    field_of, has, identity_at, integers_at, is_equal, is_inside, multiplied, nothing, one_atom,
    one_integer, relation_at, says, set_of, sum_of_rows, transformed, universe_at,
};

impl<
    'a,
    T: for<'j> Fn(
        &'j Judge<'j>,
        &Expr,
        &Environment<'_>,
        u64,
        u32,
    ) -> Result<Held<'j>, EvaluationFault>,
    H: for<'j> Fn(
        &'j Judge<'j>,
        &Formula,
        &Environment<'_>,
        u64,
        u32,
    ) -> Result<bool, EvaluationFault>,
> Walk<'a, T, H> {
    /// The tuples of an expression at a position.
    pub fn term_at(
        &self,
        expr: &Expr,
        scope: &Environment,
        position: u64,
    ) -> Result<Held<'a>, EvaluationFault>
        requires { Evaluates self.now.deep (T.pre self.now.term) (T.post self.now.term)
            (H.pre self.now.claim) (H.post self.now.claim) }
        ensures { IfOk result (λ held. IsFound held
            (Means self.now.judge.now (term_of expr.now) (scope_names self.now.judge.now scope.now)
            position)) }
    {
        match expr {
            Expr::Sig(sig) => Ok(relation_at(self.judge, *sig as usize, position)),
            Expr::Field(field) => Ok(field_of(self.judge, *field as usize, position)),
            Expr::Name(name) => match look_up(&*scope, *name) {
                Meant::Atom(atom) => one_atom(self.judge, atom),
                Meant::Written(written, outer) => self.tuples(written, outer, position),
                Meant::Unknown => Ok(nothing(self.judge)),
            },
            Expr::Univ => universe_at(self.judge, position),
            Expr::Iden => identity_at(self.judge, position),
            Expr::Empty => Ok(nothing(self.judge)),
            Expr::Int => integers_at(self.judge),
            Expr::Combine(op, a, b) => {
                let x = self.tuples(a, scope, position)?;
                let y = self.tuples(b, scope, position)?;
                combined(self.judge, *op, &x, &y)
            }
            Expr::Product(a, _, _, b) => {
                let x = self.tuples(a, scope, position)?;
                let y = self.tuples(b, scope, position)?;
                multiplied(self.judge, &x, &y)
            }
            Expr::Unary(op, a) => {
                let x = self.tuples(a, scope, position)?;
                transformed(self.judge, *op, &x, position)
            }
            Expr::Prime(a) => self.tuples(a, scope, after(position)?),
            Expr::Choose(f, a, b) => {
                let chosen = self.holds(f, scope, position)?;
                if chosen {
                    return self.tuples(a, scope, position);
                }
                self.tuples(b, scope, position)
            }
            Expr::Comprehension(variables, f) => {
                let goal = Goal::Passes(&**f);
                let rows = self.every_row(variables, &goal, scope, position)?;
                chosen_set(self.judge, variables.len(), &rows)
            }
            Expr::Number(number, _) => one_integer(self.judge, *number),
            Expr::Count(a) => {
                let x = self.tuples(a, scope, position)?;
                counted(self.judge, &x)
            }
            Expr::Arithmetic(op, a, b) => {
                let x = self.tuples(a, scope, position)?;
                let y = self.tuples(b, scope, position)?;
                calculated(self.judge, *op, &x, &y)
            }
            Expr::Sum(variables, a) => {
                let goal = Goal::Value(&**a);
                let rows = self.every_row(variables, &goal, scope, position)?;
                sum_of_rows(self.judge, &rows)
            }
            Expr::Let(name, a, b) => {
                let inner = Environment::Written(*name, &**a, &*scope, &*scope);
                self.tuples(b, &inner, position)
            }
            Expr::Call(body, arguments) => {
                // for the proof: this call's clause says that the weights are those of the bodies
                let _ = self.judge.bodies();
                let start = Environment::Empty;
                self.enter_term(*body, arguments, 0, scope, &start, position, self.deep)
            }
        }
    }

    /// Whether a formula holds at a position.
    pub fn claim_at(
        &self,
        formula: &Formula,
        scope: &Environment,
        position: u64,
    ) -> Result<bool, EvaluationFault>
        requires { Evaluates self.now.deep (T.pre self.now.term) (T.post self.now.term)
            (H.pre self.now.claim) (H.post self.now.claim) }
        ensures { IfOk result (λ b. IsTrue b ↔ HoldsIn self.now.judge.now (claim_of formula.now)
            (scope_names self.now.judge.now scope.now) position) }
    {
        match formula {
            Formula::Inside(a, b) => {
                let x = self.tuples(a, scope, position)?;
                let y = self.tuples(b, scope, position)?;
                Ok(is_inside(&x, &y))
            }
            Formula::Equal(a, b) => {
                let x = self.tuples(a, scope, position)?;
                let y = self.tuples(b, scope, position)?;
                Ok(is_equal(&x, &y))
            }
            Formula::Within(a, word, b) => {
                let x = self.tuples(a, scope, position)?;
                let set = set_of(&x);
                self.is_within(set, *word, b, scope, position)
            }
            Formula::Test(quantity, a) => {
                let x = self.tuples(a, scope, position)?;
                Ok(has(*quantity, &x))
            }
            Formula::Compare(op, a, b) => {
                let x = self.tuples(a, scope, position)?;
                let y = self.tuples(b, scope, position)?;
                compared(self.judge, *op, &x, &y)
            }
            Formula::Not(f) => {
                let truth = self.holds(f, scope, position)?;
                Ok(!truth)
            }
            Formula::Every(list) => self.every(list, scope, position, self.deep),
            Formula::Connect(op, f, g) => self.connect(*op, f, g, scope, position),
            Formula::Choose(f, g, h) => {
                let chosen = self.holds(f, scope, position)?;
                if chosen {
                    return self.holds(g, scope, position);
                }
                self.holds(h, scope, position)
            }
            Formula::ForAll(variables, f) => self.for_each(
                variables,
                f,
                true,
                &Earlier::Start,
                scope,
                position,
                self.deep,
            ),
            Formula::Counted(quantity, variables, f) => {
                self.quantified(*quantity, variables, f, scope, position)
            }
            Formula::Temporal(op, f) => self.temporal(*op, f, scope, position),
            Formula::TemporalPair(op, f, g) => self.temporal_pair(*op, f, g, scope, position),
            Formula::Let(name, a, f) => {
                let inner = Environment::Written(*name, &**a, &*scope, &*scope);
                self.holds(f, &inner, position)
            }
            Formula::Call(body, arguments) => {
                // for the proof: this call's clause says that the weights are those of the bodies
                let _ = self.judge.bodies();
                let start = Environment::Empty;
                self.enter_claim(*body, arguments, 0, scope, &start, position, self.deep)
            }
        }
    }

    /// Whether each formula of a list holds.
    fn every(
        &self,
        list: &[Formula],
        scope: &Environment,
        position: u64,
        deep: u32,
    ) -> Result<bool, EvaluationFault>
        requires { Evaluates self.now.deep (T.pre self.now.term) (T.post self.now.term)
            (H.pre self.now.claim) (H.post self.now.claim) }
        ensures { IfOk result (λ b. IsTrue b ↔ HoldsIn self.now.judge.now
            (every (claim_list (map claim_of list.now)))
            (scope_names self.now.judge.now scope.now) position) }
    {
        let next = deeper(deep)?;
        match list.split_first() {
            None => Ok(true),
            Some((first, rest)) => {
                let truth = self.holds(first, scope, position)?;
                if !truth {
                    return Ok(false);
                }
                self.every(rest, scope, position, next)
            }
        }
    }

    /// Whether a connective of two formulas holds.
    fn connect(
        &self,
        op: Connective,
        f: &Formula,
        g: &Formula,
        scope: &Environment,
        position: u64,
    ) -> Result<bool, EvaluationFault>
        requires { Evaluates self.now.deep (T.pre self.now.term) (T.post self.now.term)
            (H.pre self.now.claim) (H.post self.now.claim) }
        ensures { IfOk result (λ b. IsTrue b ↔ HoldsIn self.now.judge.now
            (connect op (claim_of f.now) (claim_of g.now))
            (scope_names self.now.judge.now scope.now) position) }
    {
        let first = self.holds(f, scope, position)?;
        match op {
            Connective::Or => {
                if first {
                    return Ok(true);
                }
                self.holds(g, scope, position)
            }
            Connective::Implies => {
                if !first {
                    return Ok(true);
                }
                self.holds(g, scope, position)
            }
            Connective::Iff => {
                let second = self.holds(g, scope, position)?;
                Ok(says(first, second))
            }
        }
    }
}

/// The tuples of an expression at a position, where calls nest below a number.
#[cycle(walk)]
pub fn tuples_in<'a>(
    judge: &'a Judge<'a>,
    expr: &Expr,
    scope: &Environment<'_>,
    position: u64,
    deep: u32,
) -> Result<Held<'a>, EvaluationFault>
    ensures { IfOk result (λ held. IsFound held (Means judge.now (term_of expr.now)
        (scope_names judge.now scope.now) position)) }
{
    if deep == 0 {
        return Err(EvaluationFault::Unfit);
    }
    let walk = Walk {
        judge,
        deep: deep - 1,
        term: tuples_in,
        claim: holds_in,
    };
    walk.term_at(expr, scope, position)
}

/// Whether a formula holds at a position, where calls nest below a number.
#[cycle(walk)]
pub fn holds_in<'a>(
    judge: &'a Judge<'a>,
    formula: &Formula,
    scope: &Environment<'_>,
    position: u64,
    deep: u32,
) -> Result<bool, EvaluationFault>
    ensures { IfOk result (λ b. IsTrue b ↔ HoldsIn judge.now (claim_of formula.now)
        (scope_names judge.now scope.now) position) }
{
    if deep == 0 {
        return Err(EvaluationFault::Unfit);
    }
    let walk = Walk {
        judge,
        deep: deep - 1,
        term: tuples_in,
        claim: holds_in,
    };
    walk.claim_at(formula, scope, position)
}
