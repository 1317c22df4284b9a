//! The search takes turns until clauses are refuted or satisfied, or the budget is spent.

ghost use Rattle.std.specs.Prelude.{◌≡◌, ℕ, ℤ, List, Option, IfOk, IsTrue};
ghost use Rattle.sat_dimacs.specs.Literal.{IsSolution};
ghost use Rattle.sat_lrat.specs.Outcome.{Answers};
ghost use Rattle.sat_lemmas.specs.Outcome.{IsAnswer};
ghost use Rattle.sat_solver.specs.Searched.{AreTrue};
ghost use Rattle.sat_solver.specs.Turn.{AreNewIn, AreFew};

use crate::lent::Lent;
use crate::load::truths_of;
use crate::pace::Pace;
use crate::policy::Dropping;
use crate::round::{Turn, take_turn};
use crate::store::Store;
use base_types::Assignment;
use sat_analysis::Analysis;
use sat_decide::Chooser;
use sat_dimacs::Cnf;
use sat_lemmas::LemmaLog;
use sat_lrat::Outcome;
use sat_trail::Trail;
use std::alloc::{AllocError, Global};

/// The assignment of a trail, which satisfies each formula whose clauses have a true literal each, where every variable
/// has a value.
fn answer(alloc: Global, trail: &Trail) -> Result<Assignment, AllocError>
    ensures { (formula : List (List ℤ)) → AreTrue formula trail.now.assignment.trail →
        IfOk result (IsSolution trail.now.variables formula) }
{
    // for the proof: this call's clauses say what a trail keeps
    let _literals = trail.trail();
    let truths = truths_of(alloc, trail.values())?;
    let assignment = Assignment::new(alloc, truths.as_slice())?;
    Ok(assignment)
}

/// Searches for an assignment that satisfies the clauses, or for lines that refute them. Under a budget it stops where
/// there are so many lemmas and one more could be learnt. It drops lemmas as it is told.
///
/// Each lemma of a refutation is new where no clause is empty, and so is each lemma of a spent budget in any case. A
/// refutation has no more lemmas than the budget, and a budget of 3 to the power of the number of variables or more isn't
/// spent. The chooser picks what is tried; `start` is called on it once. The only error is want of memory.
pub fn solve_dropping<C: Chooser>(
    alloc: Global,
    cnf: &Cnf,
    chooser: &mut C,
    budget: Option<u64>,
    dropping: Dropping,
) -> Result<Outcome, AllocError>
    ensures answer { IfOk result (IsAnswer cnf.now.variables cnf.now.clauses budget) }
    ensures spends { IfOk result (Answers cnf.now.variables cnf.now.clauses budget) }
    ensures fresh { IfOk result (AreNewIn cnf.now.clauses) }
    ensures few { IfOk result (AreFew cnf.now.variables budget) }
{
    let mut trail = Trail::new(alloc, cnf)?;
    let mut log = LemmaLog::new(alloc, cnf)?;
    let variables = trail.values().len();
    let mut analysis = Analysis::new(alloc, variables)?;
    let mut store = Store::new(alloc, cnf, variables, dropping)?;
    let mut pace = Pace::new();
    chooser.start(cnf.variables)?;
    'turns: loop {
        let turn = take_turn(
            alloc,
            &mut log,
            &mut trail,
            &mut analysis,
            &mut store,
            chooser,
            &mut pace,
            budget,
        )?;
        // for the proof: these calls' clauses say what a trail keeps, and that entries are few
        let _literals = trail.trail();
        let _count = store.dropped.len();
        match turn {
            Turn::On => {}
            Turn::Refuted => {
                let LemmaLog { checker: _, lines } = log;
                return Ok(Outcome::Refutation(lines));
            }
            Turn::Full => {
                let assignment = answer(alloc, &trail)?;
                return Ok(Outcome::Assignment(assignment));
            }
            Turn::Spent => {
                let LemmaLog { checker: _, lines } = log;
                return Ok(Outcome::Spent(lines));
            }
        }
    }
}

/// Searches as `solve_dropping` does, and drops now and then the lemmas that served least.
pub fn solve_with<C: Chooser>(
    alloc: Global,
    cnf: &Cnf,
    chooser: &mut C,
    budget: Option<u64>,
) -> Result<Outcome, AllocError>
    ensures answer { IfOk result (IsAnswer cnf.now.variables cnf.now.clauses budget) }
    ensures spends { IfOk result (Answers cnf.now.variables cnf.now.clauses budget) }
    ensures fresh { IfOk result (AreNewIn cnf.now.clauses) }
    ensures few { IfOk result (AreFew cnf.now.variables budget) }
{
    solve_dropping(alloc, cnf, chooser, budget, Dropping::Idle)
}

/// Searches as `solve_with` does, by a boxed chooser.
pub fn solve_by(
    alloc: Global,
    cnf: &Cnf,
    chooser: &mut Box<dyn Chooser>,
    budget: Option<u64>,
) -> Result<Outcome, AllocError>
    ensures answer { IfOk result (IsAnswer cnf.now.variables cnf.now.clauses budget) }
    ensures spends { IfOk result (Answers cnf.now.variables cnf.now.clauses budget) }
    ensures fresh { IfOk result (AreNewIn cnf.now.clauses) }
    ensures few { IfOk result (AreFew cnf.now.variables budget) }
{
    let mut lent = Lent { chooser };
    solve_with(alloc, cnf, &mut lent, budget)
}

/// Searches as `solve_by` does, and drops the chooser.
pub fn solve(
    alloc: Global,
    cnf: &Cnf,
    mut chooser: Box<dyn Chooser>,
    budget: Option<u64>,
) -> Result<Outcome, AllocError>
    ensures answer { IfOk result (IsAnswer cnf.now.variables cnf.now.clauses budget) }
    ensures spends { IfOk result (Answers cnf.now.variables cnf.now.clauses budget) }
    ensures fresh { IfOk result (AreNewIn cnf.now.clauses) }
    ensures few { IfOk result (AreFew cnf.now.variables budget) }
{
    solve_by(alloc, cnf, &mut chooser, budget)
}
