//! Choices of atoms for the variables of a list.

ghost use Rattle.std.specs.Prelude.{◌↔◌, ◌+◌, ℕ, List, [], map, length, IfOk, IsTrue};
ghost use Rattle.core_tree.specs.Trees.{claim_of, counted, variable_of, variable_list, no_variables};
ghost use Rattle.core_meaning.specs.Meaning.{ForEach};
ghost use Rattle.eval_context.specs.Settings.{world};
ghost use Rattle.eval_steps.specs.Judged.{bodies, scope_names, HoldsIn, Says, earlier_list, AreRows, ForEachAtom, AreRowsOfAtoms};
ghost use Rattle.eval_tree.specs.Evaluates.{Evaluates};

use crate::walk::Walk;
use core_meaning::Environment;
use core_tree::{Expr, Formula, Quantity, Variable};
use core_tuples::TupleSet;
use eval_sets::EvaluationFault;
use eval_steps::{
    Earlier, Goal, Held, Judge, Row, add_rows, atom_at, deeper, first_row, is_apart, says, set_of,
};

impl<
    'a,
    T: for<'j> Fn(
        &'j Judge<'j>,
        &Expr,
        &Environment<'_>,
        u64,
        u32,
    ) -> Result<Held<'j>, EvaluationFault>,
    H: for<'j> Fn(
        &'j Judge<'j>,
        &Formula,
        &Environment<'_>,
        u64,
        u32,
    ) -> Result<bool, EvaluationFault>,
> Walk<'a, T, H> {
    /// All choices of atoms for variables at which a formula holds, or with the value of an expression.
    pub fn every_row(
        &self,
        variables: &[Variable],
        goal: &Goal,
        scope: &Environment,
        position: u64,
    ) -> Result<Vec<Row>, EvaluationFault>
        requires { Evaluates self.now.deep (T.pre self.now.term) (T.post self.now.term)
            (H.pre self.now.claim) (H.post self.now.claim) }
        ensures { IfOk result (λ rows. AreRows self.now.judge.now goal.now
            (variable_list (map variable_of variables.now))
            (scope_names self.now.judge.now scope.now) position [] (length rows.items + 1)
            rows.items) }
    {
        let start = Earlier::Start;
        let rows = self.rows_in(
            variables,
            goal,
            usize::MAX,
            &start,
            scope,
            position,
            self.deep,
        )?;
        if rows.len() == usize::MAX {
            return Err(EvaluationFault::Unfit);
        }
        Ok(rows)
    }

    /// The row of no atom where a formula holds, or with the value of an expression.
    fn last_row(
        &self,
        goal: &Goal,
        scope: &Environment,
        position: u64,
    ) -> Result<Vec<Row>, EvaluationFault>
        requires { Evaluates self.now.deep (T.pre self.now.term) (T.post self.now.term)
            (H.pre self.now.claim) (H.post self.now.claim) }
        ensures { (earlier : List ℕ) (most : ℕ) → IfOk result
            (λ rows. AreRows self.now.judge.now goal.now no_variables
            (scope_names self.now.judge.now scope.now) position earlier most rows.items) }
    {
        match goal {
            Goal::Passes(formula) => {
                let passes = self.holds(*formula, scope, position)?;
                if passes {
                    return Ok(first_row(self.judge.alloc(), 0)?);
                }
                Ok(Vec::new(self.judge.alloc()))
            }
            Goal::Value(expr) => {
                let value = self.number_in(*expr, scope, position)?;
                Ok(first_row(self.judge.alloc(), value)?)
            }
        }
    }

    /// Choices of atoms for variables that differ as they ask from earlier ones: all, or so many.
    #[cycle(rows)]
    fn rows_in(
        &self,
        variables: &[Variable],
        goal: &Goal,
        most: usize,
        earlier: &Earlier,
        scope: &Environment,
        position: u64,
        deep: u32,
    ) -> Result<Vec<Row>, EvaluationFault>
        requires { Evaluates self.now.deep (T.pre self.now.term) (T.post self.now.term)
            (H.pre self.now.claim) (H.post self.now.claim) }
        ensures { IfOk result (λ rows. AreRows self.now.judge.now goal.now
            (variable_list (map variable_of variables.now))
            (scope_names self.now.judge.now scope.now) position (earlier_list earlier.now) most
            rows.items) }
    {
        let next = deeper(deep)?;
        match variables.split_first() {
            None => self.last_row(goal, scope, position),
            Some((first, rest)) => {
                let found = self.tuples(&first.bound, scope, position)?;
                let atoms = set_of(&found);
                self.rows_of_atoms(
                    atoms, first, rest, goal, most, earlier, scope, position, next,
                )
            }
        }
    }

    /// The same, where a variable has its atoms.
    #[cycle(rows)]
    fn rows_of_atoms(
        &self,
        atoms: &TupleSet,
        variable: &Variable,
        rest: &[Variable],
        goal: &Goal,
        most: usize,
        earlier: &Earlier,
        scope: &Environment,
        position: u64,
        deep: u32,
    ) -> Result<Vec<Row>, EvaluationFault>
        requires { Evaluates self.now.deep (T.pre self.now.term) (T.post self.now.term)
            (H.pre self.now.claim) (H.post self.now.claim) }
        ensures { IfOk result (λ rows. AreRowsOfAtoms self.now.judge.now goal.now variable.now
            atoms.now (variable_list (map variable_of rest.now))
            (scope_names self.now.judge.now scope.now) position (earlier_list earlier.now) most
            rows.items) }
    {
        let next = deeper(deep)?;
        let mut rows: Vec<Row> = Vec::new(self.judge.alloc());
        if atoms.arity() != 1 {
            return Ok(rows);
        }
        for place in 0..atoms.len() {
            let atom = atom_at(atoms, place);
            let apart = is_apart(earlier, variable.apart, atom);
            if !apart {
                continue;
            }
            let inner = Environment::Atom(variable.name, atom, &*scope);
            let chosen = Earlier::Then(atom, &*earlier);
            let more = self.rows_in(rest, goal, most, &chosen, &inner, position, next)?;
            add_rows(self.judge.alloc(), atom, &more, &mut rows)?;
            if rows.len() >= most {
                return Ok(rows);
            }
        }
        Ok(rows)
    }

    /// Whether a formula has a truth value for each choice of atoms for variables.
    #[cycle(each)]
    pub fn for_each(
        &self,
        variables: &[Variable],
        formula: &Formula,
        sense: bool,
        earlier: &Earlier,
        scope: &Environment,
        position: u64,
        deep: u32,
    ) -> Result<bool, EvaluationFault>
        requires { Evaluates self.now.deep (T.pre self.now.term) (T.post self.now.term)
            (H.pre self.now.claim) (H.post self.now.claim) }
        ensures { IfOk result (λ b. IsTrue b ↔ ForEach (world self.now.judge.now)
            (bodies self.now.judge.now) (variable_list (map variable_of variables.now))
            (λ names. Says sense (HoldsIn self.now.judge.now (claim_of formula.now) names position))
            (scope_names self.now.judge.now scope.now) position (earlier_list earlier.now)) }
    {
        let next = deeper(deep)?;
        match variables.split_first() {
            None => {
                let truth = self.holds(formula, scope, position)?;
                Ok(says(sense, truth))
            }
            Some((first, rest)) => {
                let found = self.tuples(&first.bound, scope, position)?;
                let atoms = set_of(&found);
                self.for_each_atom(
                    atoms, first, rest, formula, sense, earlier, scope, position, next,
                )
            }
        }
    }

    /// The same, where a variable has its atoms.
    #[cycle(each)]
    fn for_each_atom(
        &self,
        atoms: &TupleSet,
        variable: &Variable,
        rest: &[Variable],
        formula: &Formula,
        sense: bool,
        earlier: &Earlier,
        scope: &Environment,
        position: u64,
        deep: u32,
    ) -> Result<bool, EvaluationFault>
        requires { Evaluates self.now.deep (T.pre self.now.term) (T.post self.now.term)
            (H.pre self.now.claim) (H.post self.now.claim) }
        ensures { IfOk result (λ b. IsTrue b ↔ ForEachAtom self.now.judge.now variable.now atoms.now
            (variable_list (map variable_of rest.now))
            (λ names. Says sense (HoldsIn self.now.judge.now (claim_of formula.now) names position))
            (scope_names self.now.judge.now scope.now) position (earlier_list earlier.now)) }
    {
        let next = deeper(deep)?;
        if atoms.arity() != 1 {
            return Ok(true);
        }
        for place in 0..atoms.len() {
            let atom = atom_at(atoms, place);
            let apart = is_apart(earlier, variable.apart, atom);
            if !apart {
                continue;
            }
            let inner = Environment::Atom(variable.name, atom, &*scope);
            let chosen = Earlier::Then(atom, &*earlier);
            let each = self.for_each(rest, formula, sense, &chosen, &inner, position, next)?;
            if !each {
                return Ok(false);
            }
        }
        Ok(true)
    }

    /// Whether a quantifier other than `all` holds.
    pub fn quantified(
        &self,
        quantity: Quantity,
        variables: &[Variable],
        formula: &Formula,
        scope: &Environment,
        position: u64,
    ) -> Result<bool, EvaluationFault>
        requires { Evaluates self.now.deep (T.pre self.now.term) (T.post self.now.term)
            (H.pre self.now.claim) (H.post self.now.claim) }
        ensures { IfOk result (λ b. IsTrue b ↔ HoldsIn self.now.judge.now
            (counted quantity (variable_list (map variable_of variables.now))
            (claim_of formula.now))
            (scope_names self.now.judge.now scope.now) position) }
    {
        let start = Earlier::Start;
        match quantity {
            Quantity::Some => Ok(!self.for_each(
                variables, formula, false, &start, scope, position, self.deep,
            )?),
            Quantity::No => self.for_each(
                variables, formula, false, &start, scope, position, self.deep,
            ),
            Quantity::One => {
                let goal = Goal::Passes(formula);
                let rows = self.rows_in(variables, &goal, 2, &start, scope, position, self.deep)?;
                Ok(rows.len() == 1)
            }
            Quantity::Lone => {
                let goal = Goal::Passes(formula);
                let rows = self.rows_in(variables, &goal, 2, &start, scope, position, self.deep)?;
                Ok(rows.len() <= 1)
            }
        }
    }
}
