//! Whether a set lies in a bound, and has the multiplicities of its arrows.

ghost use Rattle.std.specs.Prelude.{◌≡◌, ◌↔◌, List, length, ℕ, IfOk, IsTrue};
ghost use Rattle.core_tree.specs.Trees.{term_of};
ghost use Rattle.core_meaning.specs.Operators.{IsInside, HasMultiplicity};
ghost use Rattle.core_meaning.specs.Meaning.{Fits};
ghost use Rattle.core_tuples.specs.Sets.{In};
ghost use Rattle.eval_context.specs.Settings.{world};
ghost use Rattle.eval_steps.specs.Judged.{bodies, scope_names, Means, FitsAfter, FitsBefore, GoesAfter, GoesBefore};
ghost use Rattle.eval_tree.specs.Evaluates.{Evaluates};

use crate::walk::Walk;
use core_meaning::Environment;
use core_tree::{Expr, Formula, Multiplicity};
use core_tuples::{TupleSet, inside};
use eval_sets::{EvaluationFault, has_multiplicity, rows_after, rows_before};
use eval_steps::{Arrow, Held, Judge, arrow_of, asks, deeper, heads, is_long, set_of, tails};

impl<
    'a,
    T: for<'j> Fn(
        &'j Judge<'j>,
        &Expr,
        &Environment<'_>,
        u64,
        u32,
    ) -> Result<Held<'j>, EvaluationFault>,
    H: for<'j> Fn(
        &'j Judge<'j>,
        &Formula,
        &Environment<'_>,
        u64,
        u32,
    ) -> Result<bool, EvaluationFault>,
> Walk<'a, T, H> {
    /// Whether a set lies in a bound and has its multiplicities.
    pub fn is_within(
        &self,
        set: &TupleSet,
        word: Multiplicity,
        bound: &Expr,
        scope: &Environment,
        position: u64,
    ) -> Result<bool, EvaluationFault>
        requires { Evaluates self.now.deep (T.pre self.now.term) (T.post self.now.term)
            (H.pre self.now.claim) (H.post self.now.claim) }
        ensures { IfOk result (λ b. IsTrue b ↔ (IsInside (λ t. In t set.now)
            (Means self.now.judge.now (term_of bound.now) (scope_names self.now.judge.now scope.now)
            position) × HasMultiplicity word (λ t. In t set.now)
            × Fits (world self.now.judge.now) (bodies self.now.judge.now) (term_of bound.now)
            (scope_names self.now.judge.now scope.now) position (λ t. In t set.now))) }
    {
        let may = has_multiplicity(word, set);
        if !may {
            return Ok(false);
        }
        let lies = self.lies_in(set, bound, scope, position, self.deep)?;
        if !lies {
            return Ok(false);
        }
        self.fits(set, bound, scope, position, self.deep)
    }

    /// How many columns the tuples of an expression have.
    fn columns_of(
        &self,
        expr: &Expr,
        scope: &Environment,
        position: u64,
        deep: u32,
    ) -> Result<usize, EvaluationFault>
        requires { Evaluates self.now.deep (T.pre self.now.term) (T.post self.now.term)
            (H.pre self.now.claim) (H.post self.now.claim) }
        ensures { IfOk result (λ n. (t : List ℕ) →
            Means self.now.judge.now (term_of expr.now) (scope_names self.now.judge.now scope.now)
            position t → length t ≡ n) }
    {
        let next = deeper(deep)?;
        match arrow_of(expr) {
            Arrow::Sides(a, _, _, b) => {
                let left = self.columns_of(a, scope, position, next)?;
                let right = self.columns_of(b, scope, position, next)?;
                match left.checked_add(right) {
                    Some(columns) => Ok(columns),
                    None => Err(EvaluationFault::Unfit),
                }
            }
            Arrow::Other => {
                let found = self.tuples(expr, scope, position)?;
                let set = set_of(&found);
                Ok(set.arity() as usize)
            }
        }
    }

    /// Whether a set lies in an expression. A product is not written out.
    fn lies_in(
        &self,
        set: &TupleSet,
        expr: &Expr,
        scope: &Environment,
        position: u64,
        deep: u32,
    ) -> Result<bool, EvaluationFault>
        requires { Evaluates self.now.deep (T.pre self.now.term) (T.post self.now.term)
            (H.pre self.now.claim) (H.post self.now.claim) }
        ensures { IfOk result (λ b. IsTrue b ↔ IsInside (λ t. In t set.now)
            (Means self.now.judge.now (term_of expr.now) (scope_names self.now.judge.now scope.now)
            position)) }
    {
        let next = deeper(deep)?;
        match arrow_of(expr) {
            Arrow::Sides(a, _, _, b) => {
                let columns = self.columns_of(a, scope, position, next)?;
                if !is_long(set, columns) {
                    return Err(EvaluationFault::Unfit);
                }
                let left = heads(self.judge.alloc(), set, columns)?;
                let right = tails(self.judge.alloc(), set, columns)?;
                let begins = self.lies_in(&left, a, scope, position, next)?;
                if !begins {
                    return Ok(false);
                }
                self.lies_in(&right, b, scope, position, next)
            }
            Arrow::Other => {
                let found = self.tuples(expr, scope, position)?;
                let other = set_of(&found);
                Ok(inside(set, other))
            }
        }
    }

    /// Whether a set that lies in a bound has the multiplicities of the bound's arrows.
    #[cycle(arrows)]
    fn fits(
        &self,
        set: &TupleSet,
        bound: &Expr,
        scope: &Environment,
        position: u64,
        deep: u32,
    ) -> Result<bool, EvaluationFault>
        requires { Evaluates self.now.deep (T.pre self.now.term) (T.post self.now.term)
            (H.pre self.now.claim) (H.post self.now.claim) }
        ensures { IfOk result (λ b. IsTrue b ↔ Fits (world self.now.judge.now)
            (bodies self.now.judge.now) (term_of bound.now)
            (scope_names self.now.judge.now scope.now) position (λ t. In t set.now)) }
    {
        let next = deeper(deep)?;
        match arrow_of(bound) {
            Arrow::Sides(a, left, right, b) => {
                let after = self.fits_after(set, a, right, b, scope, position, next)?;
                if !after {
                    return Ok(false);
                }
                self.fits_before(set, b, left, a, scope, position, next)
            }
            Arrow::Other => Ok(true),
        }
    }

    /// Whether each tuple of the first expression goes with so many tuples of the second, and these have
    /// the multiplicities of the second's arrows.
    #[cycle(arrows)]
    fn fits_after(
        &self,
        set: &TupleSet,
        side: &Expr,
        word: Multiplicity,
        other: &Expr,
        scope: &Environment,
        position: u64,
        deep: u32,
    ) -> Result<bool, EvaluationFault>
        requires { Evaluates self.now.deep (T.pre self.now.term) (T.post self.now.term)
            (H.pre self.now.claim) (H.post self.now.claim) }
        ensures { IfOk result (λ b. IsTrue b ↔ FitsAfter self.now.judge.now (term_of side.now) word
            (term_of other.now) (scope_names self.now.judge.now scope.now) position
            (λ t. In t set.now)) }
    {
        let next = deeper(deep)?;
        let some = asks(word, other);
        if !some {
            return Ok(true);
        }
        let found = self.tuples(side, scope, position)?;
        let sides = set_of(&found);
        self.each_after(set, sides, word, other, scope, position, next)
    }

    /// The same, where the side has its tuples.
    #[cycle(arrows)]
    fn each_after(
        &self,
        set: &TupleSet,
        sides: &TupleSet,
        word: Multiplicity,
        other: &Expr,
        scope: &Environment,
        position: u64,
        deep: u32,
    ) -> Result<bool, EvaluationFault>
        requires { Evaluates self.now.deep (T.pre self.now.term) (T.post self.now.term)
            (H.pre self.now.claim) (H.post self.now.claim) }
        ensures { IfOk result (λ b. IsTrue b ↔ ((t : List ℕ) → In t sides.now →
            GoesAfter self.now.judge.now word (term_of other.now)
            (scope_names self.now.judge.now scope.now) position (λ u. In u set.now) t)) }
    {
        let next = deeper(deep)?;
        for place in 0..sides.len() {
            let tuple = sides.tuple(place);
            let numbers = tuple.numbers();
            let rest = rows_after(self.judge.alloc(), set, numbers)?;
            let may = has_multiplicity(word, &rest);
            if !may {
                return Ok(false);
            }
            let fits = self.fits(&rest, other, scope, position, next)?;
            if !fits {
                return Ok(false);
            }
        }
        Ok(true)
    }

    /// Whether each tuple of the second expression goes with so many tuples of the first, and these have
    /// the multiplicities of the first's arrows.
    #[cycle(arrows)]
    fn fits_before(
        &self,
        set: &TupleSet,
        side: &Expr,
        word: Multiplicity,
        other: &Expr,
        scope: &Environment,
        position: u64,
        deep: u32,
    ) -> Result<bool, EvaluationFault>
        requires { Evaluates self.now.deep (T.pre self.now.term) (T.post self.now.term)
            (H.pre self.now.claim) (H.post self.now.claim) }
        ensures { IfOk result (λ b. IsTrue b ↔ FitsBefore self.now.judge.now (term_of side.now) word
            (term_of other.now) (scope_names self.now.judge.now scope.now) position
            (λ t. In t set.now)) }
    {
        let next = deeper(deep)?;
        let some = asks(word, other);
        if !some {
            return Ok(true);
        }
        let found = self.tuples(side, scope, position)?;
        let sides = set_of(&found);
        self.each_before(set, sides, word, other, scope, position, next)
    }

    /// The same, where the side has its tuples.
    #[cycle(arrows)]
    fn each_before(
        &self,
        set: &TupleSet,
        sides: &TupleSet,
        word: Multiplicity,
        other: &Expr,
        scope: &Environment,
        position: u64,
        deep: u32,
    ) -> Result<bool, EvaluationFault>
        requires { Evaluates self.now.deep (T.pre self.now.term) (T.post self.now.term)
            (H.pre self.now.claim) (H.post self.now.claim) }
        ensures { IfOk result (λ b. IsTrue b ↔ ((t : List ℕ) → In t sides.now →
            GoesBefore self.now.judge.now word (term_of other.now)
            (scope_names self.now.judge.now scope.now) position (λ u. In u set.now) t)) }
    {
        let next = deeper(deep)?;
        for place in 0..sides.len() {
            let tuple = sides.tuple(place);
            let numbers = tuple.numbers();
            let rest = rows_before(self.judge.alloc(), set, numbers)?;
            let may = has_multiplicity(word, &rest);
            if !may {
                return Ok(false);
            }
            let fits = self.fits(&rest, other, scope, position, next)?;
            if !fits {
                return Ok(false);
            }
        }
        Ok(true)
    }
}
