//! The plain search: a turn takes a unit clause's literal, tries a variable, or goes back.

ghost use Rattle.std.specs.Prelude.{◌≡◌, ◌+◌, ℤ, neg_ℤ, None, Some, IfOk, OnOk, length, ◌∷◌};
ghost use Rattle.sat_dimacs.specs.Literal.{IsSolution};
ghost use Rattle.sat_lrat.specs.Outcome.{Answers};
ghost use Rattle.test_dpll.specs.declared.scan.Found.TheVariants as has;
ghost use Rattle.test_dpll.specs.declared.path.Step.{Step};
ghost use Rattle.test_dpll.specs.Path.{IsPath, IsFree, steps_of};
ghost use Rattle.test_dpll.specs.Scan.{IsFound, IsUnitAt};
ghost use Rattle.test_dpll.specs.Search.{IsSearch, CanDeny, IsDenied, IsFalse, IsBack, IsTurn, hints_by};

use crate::path::{Path, Step, denial, least_free, new_path, pop_step, push_step, values_of};
use crate::scan::{Found, find};
use base_types::Assignment;
use sat_dimacs::Cnf;
use sat_lemmas::{LemmaLog, Taken};
use sat_lrat::{Hints, Line, Outcome};
use std::alloc::{AllocError, Global};

/// What a turn of the search comes to.
#[derive(Clone, Copy, Debug, PartialEq, Eq)]
pub(crate) enum Turn {
    /// The search goes on.
    On,
    /// The clauses are refuted.
    Refuted,
    /// Each clause is true.
    Full,
}

/// The number of the next lemma.
fn next_id(cnf: &Cnf, log: &LemmaLog) -> u64
    ensures { result ≡ length cnf.now.clauses + length log.now.lines + 1 }
{
    let clauses = cnf.clauses.clauses().len();
    let lines = log.lines.lines().len();
    clauses as u64 + lines as u64 + 1
}

/// The hints of a lemma.
fn hints_of(alloc: Global, first: u64, second: Option<u64>) -> Result<Hints, AllocError>
    ensures { IfOk result (λ hints. hints ≡ hints_by first second) }
{
    let mut hints = Hints::new(alloc);
    hints.push(first)?;
    if let Some(second) = second {
        hints.push(second)?;
    }
    Ok(hints)
}

/// Takes the lemma "not all of these steps", and gives its number, or `None` where it is empty.
fn deny(
    alloc: Global,
    cnf: &Cnf,
    log: &mut LemmaLog,
    path: &Path,
    first: u64,
    second: Option<u64>,
) -> Result<Option<u64>, AllocError>
    requires kept { IsSearch cnf.now.clauses log.old path.now }
    requires follows { CanDeny log.old.checker (steps_of path.now) first second }
    ensures { IfOk result (IsDenied cnf.now.clauses log.new path.now) }
{
    let id = next_id(cnf, log);
    let clause = denial(alloc, path)?;
    let hints = hints_of(alloc, first, second)?;
    let taken = log.take(Line::Lemma { id, clause, hints })?;
    match taken {
        Taken::Added => Ok(Some(id)),
        Taken::Refuted => Ok(None),
        Taken::Failed => unreachable!(),
    }
}

/// What a step back comes to.
#[derive(Clone, Copy, Debug, PartialEq, Eq)]
pub(crate) enum Back {
    /// A step that was tried is turned round.
    On,
    /// The clauses are refuted.
    Refuted,
    /// A step that was forced is gone, and the lemma without it follows from these two clauses.
    More { reason: u64, last: u64 },
}

/// Takes the latest step back, which the lemma of a number denies, and turns it round where it was tried.
fn step_back(_cnf: &Cnf, _log: &LemmaLog, path: &mut Path, last: u64) -> Result<Back, AllocError>
    requires { IsDenied _cnf.now.clauses _log.now path.old (Some last) }
    ensures { IfOk result (IsBack _cnf.now.clauses path.old _log.now path.new) }
{
    let step = pop_step(path);
    match step.reason {
        None => {
            turn_round(path, &step.literal, last)?;
            Ok(Back::On)
        }
        Some(reason) => Ok(Back::More { reason, last }),
    }
}

/// Denies the steps, and takes the latest one back.
fn deny_step(
    alloc: Global,
    cnf: &Cnf,
    log: &mut LemmaLog,
    path: &mut Path,
    first: u64,
    second: Option<u64>,
) -> Result<Back, AllocError>
    requires kept { IsSearch cnf.now.clauses log.old path.old }
    requires follows { CanDeny log.old.checker (steps_of path.old) first second }
    ensures { IfOk result (IsBack cnf.now.clauses path.old log.new path.new) }
{
    let denied = deny(alloc, cnf, log, path, first, second)?;
    match denied {
        None => Ok(Back::Refuted),
        Some(last) => step_back(cnf, log, path, last),
    }
}

/// Denies the steps by a clause that is false, and goes back to the latest step that was tried, which is turned round.
fn go_back(
    alloc: Global,
    cnf: &Cnf,
    log: &mut LemmaLog,
    path: &mut Path,
    number: u64,
) -> Result<Turn, AllocError>
    requires kept { IsSearch cnf.now.clauses log.old path.old }
    requires conflict { IsFalse log.old.checker (steps_of path.old) number }
    ensures { IfOk result (IsTurn cnf.now.clauses (length path.old.values.items) path.old log.new
        path.new) }
{
    let mut first = number;
    let mut second = None;
    'steps: loop {
        let back = deny_step(alloc, cnf, log, path, first, second)?;
        match back {
            Back::On => return Ok(Turn::On),
            Back::Refuted => return Ok(Turn::Refuted),
            Back::More { reason, last } => {
                first = reason;
                second = Some(last);
            }
        }
    }
}

/// Makes the other literal of a variable true, for the reason of that number.
fn turn_round(path: &mut Path, literal: &i64, number: u64) -> Result<(), AllocError>
    requires path { IsPath path.old }
    requires free { IsFree path.old literal.now }
    ensures path { OnOk result (IsPath path.new) }
    ensures steps { OnOk result ((step : Step) × (step.literal ≡ neg_ℤ literal.now)
        × (step.reason ≡ Some number) × (steps_of path.new ≡ step ∷ steps_of path.old)) }
    ensures size { OnOk result (length path.new.values.items ≡ length path.old.values.items) }
{
    let step = Step {
        literal: -*literal,
        reason: Some(number),
    };
    push_step(path, step)
}

/// Tries the least variable that has no value as false.
fn try_least(path: &mut Path) -> Result<(), AllocError>
    requires path { IsPath path.old }
    requires free { (literal : ℤ) × IsFree path.old literal }
    ensures path { OnOk result (IsPath path.new) }
    ensures steps { OnOk result ((step : Step) × (step.reason ≡ None)
        × (steps_of path.new ≡ step ∷ steps_of path.old)) }
    ensures size { OnOk result (length path.new.values.items ≡ length path.old.values.items) }
{
    let Some(variable) = least_free(path) else {
        unreachable!();
    };
    let step = Step {
        literal: -(variable as i64),
        reason: None,
    };
    push_step(path, step)
}

/// Makes the literal true that a unit clause of a number has left.
fn push_forced(path: &mut Path, literal: &i64, number: u64) -> Result<(), AllocError>
    requires path { IsPath path.old }
    requires free { IsFree path.old literal.now }
    ensures path { OnOk result (IsPath path.new) }
    ensures steps { OnOk result ((step : Step) × (step.literal ≡ literal.now)
        × (step.reason ≡ Some number) × (steps_of path.new ≡ step ∷ steps_of path.old)) }
    ensures size { OnOk result (length path.new.values.items ≡ length path.old.values.items) }
{
    let step = Step {
        literal: *literal,
        reason: Some(number),
    };
    push_step(path, step)
}

/// Takes the literal of a unit clause.
fn take_unit(
    _cnf: &Cnf,
    _log: &LemmaLog,
    path: &mut Path,
    number: u64,
    literal: &i64,
) -> Result<Turn, AllocError>
    requires kept { IsSearch _cnf.now.clauses _log.now path.old }
    requires unit { IsUnitAt path.old _cnf.now.clauses number literal.now }
    ensures { IfOk result (IsTurn _cnf.now.clauses (length path.old.values.items) path.old _log.now
        path.new) }
{
    push_forced(path, literal, number)?;
    Ok(Turn::On)
}

/// Tries the least variable that has no value.
fn take_least(_cnf: &Cnf, _log: &LemmaLog, path: &mut Path) -> Result<Turn, AllocError>
    requires kept { IsSearch _cnf.now.clauses _log.now path.old }
    requires free { (literal : ℤ) × IsFree path.old literal }
    ensures { IfOk result (IsTurn _cnf.now.clauses (length path.old.values.items) path.old _log.now
        path.new) }
{
    try_least(path)?;
    Ok(Turn::On)
}

/// Takes a unit clause's literal, or tries a variable, or goes back from a false clause.
fn take_turn(
    alloc: Global,
    cnf: &Cnf,
    log: &mut LemmaLog,
    path: &mut Path,
) -> Result<Turn, AllocError>
    requires kept { IsSearch cnf.now.clauses log.old path.old }
    requires size { length path.old.values.items ≡ cnf.now.variables }
    ensures { IfOk result (IsTurn cnf.now.clauses (length path.old.values.items) path.old log.new
        path.new) }
{
    match find(path, cnf.clauses.clauses()) {
        Found::True => Ok(Turn::Full),
        Found::False(number) => go_back(alloc, cnf, log, path, number),
        Found::Unit(number, literal) => take_unit(cnf, log, path, number, &literal),
        Found::Open(_) => take_least(cnf, log, path),
    }
}

/// The assignment of a path under which each clause is true.
fn answer(alloc: Global, cnf: &Cnf, path: &Path) -> Result<Assignment, AllocError>
    requires path { IsPath path.now }
    requires size { length path.now.values.items ≡ cnf.now.variables }
    requires found { IsFound path.now cnf.now.clauses (length cnf.now.clauses) has.True }
    ensures { IfOk result (IsSolution cnf.now.variables cnf.now.clauses) }
{
    let values = values_of(alloc, path)?;
    Assignment::new(alloc, values.as_slice())
}

/// Searches for an assignment that satisfies the clauses, or for lines that refute them.
///
/// It never answers `Spent`. Memory is the only thing that it can want.
pub fn split(alloc: Global, cnf: &Cnf) -> Result<Outcome, AllocError>
    ensures { IfOk result (Answers cnf.now.variables cnf.now.clauses None) }
{
    let mut log = LemmaLog::new(alloc, cnf)?;
    let mut path = new_path(alloc, cnf.variables)?;
    'turns: loop {
        let turn = take_turn(alloc, cnf, &mut log, &mut path)?;
        match turn {
            Turn::On => {}
            Turn::Refuted => {
                let LemmaLog { checker: _, lines } = log;
                return Ok(Outcome::Refutation(lines));
            }
            Turn::Full => {
                let assignment = answer(alloc, cnf, &path)?;
                return Ok(Outcome::Assignment(assignment));
            }
        }
    }
}
