//! The judge: a model with its scopes, a lasso, and a weight for each body.

ghost use Rattle.std.specs.Prelude.{◌≡◌, ◌↔◌, ◌<◌, ◌≤◌, ◌+◌, ◌*◌, ◌^◌, ◌-◌, ℕ, List, IfOk};
ghost use Rattle.core_tree.specs.Trees.{within, term_of, claim_of};
ghost use Rattle.core_tree.specs.declared.operators.Multiplicity.{Multiplicity};
ghost use Rattle.core_meaning.specs.Sequence.{period};
ghost use Rattle.core_meaning.specs.declared.scope.Environment.{Environment};
ghost use Rattle.core_meaning.specs.Meaning.{no_names};
ghost use Rattle.core_window.specs.Windows.{Binding, atom_names};
ghost use Rattle.eval_steps.specs.Judged.{scope_names, Means, HoldsIn, HasWeights, NamesRepeat, TermRepeats, ClaimRepeats, Again, value_term, IsLimit, IsFolded};
ghost use Rattle.core_window.specs.Repeats.{HasLoop, repeats_from, window_end};

use core_meaning::{Environment, Lasso, Scopes};
use core_tree::{BodyList, Expr, Formula};
use eval_calls::{MANY, MOST, of_expr, of_formula, weigh};
use eval_context::{Setting, make_setting};
use eval_sets::EvaluationFault;
use std::alloc::Global;
use std::marker::Model;

/// A model with its scopes and a lasso, and a weight for each body: how many past operators it nests
/// at most. Contracts see the setting's value.
#[derive(Drop)]
pub struct Judge<'a> {
    setting: Setting<'a>,
    weights: Vec<u32>,
}

impl<'a> Model for Judge<'a> {
    ghost use Rattle.eval_context.specs.Settings.{SettingValue};
    ghost use Rattle.eval_calls.specs.Weight.{AreWeighed};

    ghost Value = { SettingValue };

    ghost use Rattle.core_tree.specs.contracts.tree.Expr as e;
    ghost use Rattle.core_tree.specs.contracts.tree.Formula as f;
    ghost use Rattle.core_tree.specs.contracts.tree.Variable as v;
    ghost use Rattle.std.specs.Coded.{codes};

    ghost coded = { Prim.hlevel (codes, e.the_row.coded, f.the_row.coded, v.the_row.coded) };

    ghost view = { λ j. j.setting };

    ghost invariant = { λ j. AreWeighed j.setting.model.bodies j.weights.items };
}

/// What formulas of a model are judged by on a lasso. Unfit are a body whose rank isn't above the
/// rank of each body that it calls, and what is unfit for a setting.
pub fn judge_of<'a>(
    alloc: Global,
    model: &'a core_tree::Model,
    scopes: &'a Scopes,
    lasso: &'a Lasso,
) -> Result<Judge<'a>, EvaluationFault>
    ensures { IfOk result (λ j. j ≡ record {
      model = model.now;
      scopes = scopes.now;
      lasso =
          lasso.now;
      depth = 0;
    }) }
{
    let setting = make_setting(alloc, model, scopes, lasso, 0)?;
    let found = weigh(alloc, &model.bodies)?;
    match found {
        Some(weights) => Ok(Judge { setting, weights }),
        None => Err(EvaluationFault::Unfit),
    }
}

impl<'a> Judge<'a> {
    /// What is judged in.
    pub fn setting(&self) -> &Setting<'a>
        ensures { result.now ≡ self.now }
    {
        // for the proof: a field is read, so that the invariant of the judge is at hand
        let _ = &self.weights;
        &self.setting
    }

    /// The allocator.
    pub fn alloc(&self) -> Global {
        self.setting.alloc()
    }

    /// The model's bodies.
    pub fn bodies(&self) -> &'a BodyList
        ensures now { result.now ≡ self.now.model.bodies }
        ensures weighed { HasWeights self.now }
    {
        // for the proof: a field is read, so that the invariant of the judge is at hand
        let _ = &self.weights;
        &self.setting.model().bodies
    }

    /// The number of states in the loop.
    pub fn period(&self) -> u64
        ensures number { result ≡ period self.now.lasso }
        ensures some { 1 ≤ result }
        ensures small { result < 2 ^ 32 }
        ensures loops { HasLoop self.now.lasso }
    {
        self.setting.round()
    }

    /// The position after so many rounds of the loop.
    fn repeats_from(&self, rounds: u32) -> u64
        ensures number { result ≡ repeats_from self.now.lasso rounds }
        ensures small { result < 2 ^ 33 + 2 ^ 32 * rounds }
        ensures loops { HasLoop self.now.lasso }
    {
        u64::from(self.setting.lasso().loop_start()) + u64::from(rounds) * self.period()
    }

    /// The end of the first positions that show all, where everything repeats after so many rounds.
    pub fn rounds_end(&self, rounds: u32) -> Result<u64, EvaluationFault>
        ensures { IfOk result (λ end. end ≡ window_end self.now.lasso rounds) }
    {
        if rounds >= MANY {
            return Err(EvaluationFault::Unfit);
        }
        Ok(self.repeats_from(rounds) + self.period())
    }

    /// The rounds that an expression needs where the names of its scope need so many.
    fn expr_rounds(&self, expr: &Expr, names: u32) -> u32
        ensures repeats { (scope : Environment) → result < 2 ^ 32 - 1 →
            NamesRepeat self.now scope names → TermRepeats self.now (term_of expr.now) scope
            result }
        ensures more { names ≤ result }
    {
        let bodies = self.bodies();
        let weight = of_expr(bodies, &self.weights, MOST, expr);
        match weight.checked_add(names) {
            Some(rounds) => rounds,
            None => MOST,
        }
    }

    /// The rounds that a formula needs where the names of its scope need so many.
    fn claim_rounds(&self, formula: &Formula, names: u32) -> u32
        ensures repeats { (scope : Environment) → result < 2 ^ 32 - 1 →
            NamesRepeat self.now scope names → ClaimRepeats self.now (claim_of formula.now) scope
            result }
        ensures more { names ≤ result }
    {
        // for the proof: this call's clauses say that the lasso has a loop
        let _ = self.period();
        let bodies = self.bodies();
        let weight = of_formula(bodies, &self.weights, MOST, formula);
        match weight.checked_add(names) {
            Some(rounds) => rounds,
            None => MOST,
        }
    }

    /// From how many rounds of the loop on a formula has the same truth in each round, where its names
    /// are atoms.
    pub fn fact_rounds(&self, fact: &Formula) -> u32
        ensures { (atoms : List Binding) → result < 2 ^ 32 - 1 →
            Again self.now (claim_of fact.now) (atom_names atoms) result }
    {
        // for the proof: this call's clauses say that the lasso has a loop
        let _ = self.period();
        let bodies = self.bodies();
        of_formula(bodies, &self.weights, MOST, fact)
    }

    /// The same of a bound in which what `this` has in a relation lies, with a multiplicity.
    pub fn bound_rounds(&self, bound: &Expr) -> u32
        ensures { (atoms : List Binding) (n : ℕ) (m : Multiplicity) → result < 2 ^ 32 - 1 →
            Again self.now (within (value_term n) m (term_of bound.now)) (atom_names atoms) result }
    {
        // for the proof: this call's clauses say that the lasso has a loop
        let _ = self.period();
        let bodies = self.bodies();
        of_expr(bodies, &self.weights, MOST, bound)
    }
}

/// From how many rounds of the loop on the names of a scope stand for the same in each round.
fn scope_rounds(judge: &Judge, scope: &Environment) -> u32
    ensures { result < 2 ^ 32 - 1 → NamesRepeat judge.now scope.now result }
{
    match scope {
        Environment::Empty => 0,
        Environment::Atom(_, _, rest) => scope_rounds(judge, *rest),
        Environment::Written(_, expr, outer, rest) => {
            let names = scope_rounds(judge, *outer);
            let written = judge.expr_rounds(*expr, names);
            let others = scope_rounds(judge, *rest);
            written.max(others)
        }
    }
}

/// From how many rounds of the loop on a formula has the same truth in each round.
pub fn claim_repeats(judge: &Judge, formula: &Formula, scope: &Environment) -> u32
    ensures { result < 2 ^ 32 - 1 → ClaimRepeats judge.now (claim_of formula.now) scope.now result }
{
    let names = scope_rounds(judge, scope);
    judge.claim_rounds(formula, names)
}

/// From how many rounds of the loop on an expression has the same tuples in each round.
pub fn term_repeats(judge: &Judge, expr: &Expr, scope: &Environment) -> u32
    ensures { result < 2 ^ 32 - 1 → TermRepeats judge.now (term_of expr.now) scope.now result }
{
    let names = scope_rounds(judge, scope);
    judge.expr_rounds(expr, names)
}

/// The position by which it shows whether a formula, which may be negated, holds at some position
/// from one on. Where past operators nest more than a million deep it is not looked for.
pub fn limit(
    judge: &Judge,
    formula: &Formula,
    scope: &Environment,
    position: u64,
) -> Result<u64, EvaluationFault>
    ensures { IfOk result (λ end. IsLimit (λ j. HoldsIn judge.now (claim_of formula.now)
        (scope_names judge.now scope.now) j) position end) }
{
    let rounds = claim_repeats(judge, formula, scope);
    if rounds >= MANY {
        return Err(EvaluationFault::Unfit);
    }
    let from = judge.repeats_from(rounds);
    let round = judge.period();
    match position.max(from).checked_add(round) {
        Some(end) => Ok(end),
        None => Err(EvaluationFault::Unfit),
    }
}

/// The first position that shows the same as one, where all repeats after so many rounds of the loop.
fn folded(judge: &Judge, rounds: u32, position: u64) -> u64
    ensures { IsFolded judge.now.lasso rounds result position }
{
    let from = judge.repeats_from(rounds);
    let round = judge.period();
    if position < from {
        return position;
    }
    from + (position - from) % round
}

/// An early position at which a closed formula has the same truth.
pub fn claim_place(judge: &Judge, formula: &Formula, position: u64) -> Result<u64, EvaluationFault>
    ensures { IfOk result (λ place. HoldsIn judge.now (claim_of formula.now) no_names place
        ↔ HoldsIn judge.now (claim_of formula.now) no_names position) }
{
    let rounds = claim_repeats(judge, formula, &Environment::Empty);
    if rounds >= MANY {
        return Err(EvaluationFault::Unfit);
    }
    Ok(folded(judge, rounds, position))
}

/// An early position at which a closed expression has the same tuples.
pub fn term_place(judge: &Judge, expr: &Expr, position: u64) -> Result<u64, EvaluationFault>
    ensures { IfOk result (λ place. (t : List ℕ) →
        Means judge.now (term_of expr.now) no_names place t
        ↔ Means judge.now (term_of expr.now) no_names position t) }
{
    // for the proof: this call's clauses say that the lasso has a loop
    let _ = judge.period();
    let rounds = term_repeats(judge, expr, &Environment::Empty);
    if rounds >= MANY {
        return Err(EvaluationFault::Unfit);
    }
    Ok(folded(judge, rounds, position))
}
