//! The mode `random` searches over small random formulas, and compares the outcomes with what all assignments say: `COUNT`.
//!
//! A formula has 30 to 53 clauses of three literals over eight variables. Formula `k` is the one that the generator of
//! [`Dice`] gives from the seed `k` on, so that each run has the same ones. Each is searched three times: dropping
//! few lemmas, dropping each lemma behind a new one, and so again under a budget of 0 to 7 lemmas. An outcome is right where
//! - an assignment satisfies;
//! - lines refute, as the checker says, where no assignment satisfies, and are no more than the budget;
//! - the lines of a spent budget are as many as it allows.
//!
//! A line tells how many formulas some assignment satisfies, how many none does, and how many outcomes are wrong. The status
//! is 1 where one is, and 2 for other words.

use anyhow::Result;
use sat_checker::{Checker, Step};
use sat_decide::{Activity, FirstFree};
use sat_dimacs::{Cnf, read_cnf, satisfies};
use sat_lrat::{LineList, Outcome};
use sat_solver::{Dropping, solve_dropping, solve_with};
use std::alloc::{AllocError, Global};

/// How many variables a formula has.
const VARIABLES: u64 = 8;

/// Numbers that look random: the high bits of a linear congruential generator (Knuth's constants).
#[derive(Drop)]
struct Dice {
    state: u64,
}

impl Dice {
    /// The next number.
    fn roll(&mut self) -> u64 {
        self.state = self
            .state
            .wrapping_mul(6364136223846793005)
            .wrapping_add(1442695040888963407);
        self.state >> 40
    }
}

/// What is counted.
#[derive(Clone, Copy)]
struct Count {
    satisfied: u64,
    refuted: u64,
    wrong: u64,
}

/// Adds a random literal to a text of clauses.
fn push_literal(alloc: Global, text: &mut String, dice: &mut Dice) -> Result<()> {
    let variable = (dice.roll() % VARIABLES).saturating_add(1);
    let sign = if dice.roll() % 2 == 0 { "" } else { "-" };
    let literal = format!(in alloc; "{sign}{variable} ")?;
    text.push_str(literal.as_str())?;
    Ok(())
}

/// A random formula, as a DIMACS text.
fn text_of(alloc: Global, dice: &mut Dice) -> Result<String> {
    let clauses = (dice.roll() % 24).saturating_add(30);
    let mut text = format!(in alloc; "p cnf {VARIABLES} {clauses}\n")?;
    for _clause in 0..clauses {
        for _literal in 0..3 {
            push_literal(alloc, &mut text, dice)?;
        }
        text.push_str("0\n")?;
    }
    Ok(text)
}

/// Whether the assignment of a number satisfies, in which the variable `k` has bit `k - 1`.
fn is_satisfied_by(alloc: Global, cnf: &Cnf, number: u64) -> Result<bool, AllocError> {
    let mut values = Vec::new(alloc);
    for place in 0..VARIABLES {
        values.push((number >> (place % 64)) & 1 == 1)?;
    }
    Ok(satisfies(&values, &cnf.clauses))
}

/// Whether some assignment satisfies.
fn is_satisfiable(alloc: Global, cnf: &Cnf) -> Result<bool, AllocError> {
    for number in 0..1u64 << VARIABLES {
        if is_satisfied_by(alloc, cnf, number)? {
            return Ok(true);
        }
    }
    Ok(false)
}

/// Whether the checker says that lines refute clauses.
fn do_refute(alloc: Global, cnf: &Cnf, lines: &LineList) -> Result<bool, AllocError> {
    let mut checker = Checker::new(alloc, cnf)?;
    for line in lines.lines() {
        match checker.add(line) {
            Ok(Step::Refuted) => return Ok(true),
            Ok(_) => {}
            Err(_) => return Ok(false),
        }
    }
    Ok(false)
}

/// Whether an outcome is right of a formula that can be satisfied or not, under a budget.
fn is_right(
    alloc: Global,
    cnf: &Cnf,
    outcome: &Outcome,
    satisfiable: bool,
    budget: Option<u64>,
) -> Result<bool, AllocError> {
    match outcome {
        Outcome::Assignment(assignment) => {
            let mut values = Vec::new(alloc);
            for variable in 0..assignment.variables() {
                values.push(assignment.value(variable.saturating_add(1)))?;
            }
            Ok(satisfies(&values, &cnf.clauses))
        }
        Outcome::Refutation(lines) => {
            let few = match budget {
                Some(most) => lines.lines().len() as u64 <= most,
                None => true,
            };
            Ok(few && !satisfiable && do_refute(alloc, cnf, lines)?)
        }
        Outcome::Spent(lines) => Ok(budget == Some(lines.lines().len() as u64)),
    }
}

/// How many of the three outcomes of a formula are wrong.
fn wrong_of(alloc: Global, cnf: &Cnf, satisfiable: bool, budget: u64) -> Result<u64, AllocError> {
    let few = solve_with(alloc, cnf, &mut Activity::new(alloc), None)?;
    let all = solve_dropping(alloc, cnf, &mut FirstFree::new(), None, Dropping::All)?;
    let limit = Some(budget);
    let spent = solve_dropping(alloc, cnf, &mut FirstFree::new(), limit, Dropping::All)?;
    let mut wrong = 0u64;
    if !is_right(alloc, cnf, &few, satisfiable, None)? {
        wrong = wrong.saturating_add(1);
    }
    if !is_right(alloc, cnf, &all, satisfiable, None)? {
        wrong = wrong.saturating_add(1);
    }
    if !is_right(alloc, cnf, &spent, satisfiable, limit)? {
        wrong = wrong.saturating_add(1);
    }
    Ok(wrong)
}

/// Counts a formula that has been read.
fn count_read(alloc: Global, cnf: &Cnf, budget: u64, before: Count) -> Result<Count> {
    let mut count = before;
    let satisfiable = is_satisfiable(alloc, cnf)?;
    if satisfiable {
        count.satisfied = count.satisfied.saturating_add(1);
    } else {
        count.refuted = count.refuted.saturating_add(1);
    }
    let wrong = wrong_of(alloc, cnf, satisfiable, budget)?;
    count.wrong = count.wrong.saturating_add(wrong);
    Ok(count)
}

/// Counts the formula of a number. One that isn't read counts as wrong.
fn count_one(alloc: Global, number: u64, before: Count) -> Result<Count> {
    let mut dice = Dice { state: number };
    let text = text_of(alloc, &mut dice)?;
    let budget = dice.roll() % 8;
    if text.len() < 1_000_000 {
        if let Ok(cnf) = read_cnf(alloc, text.as_bytes()) {
            return count_read(alloc, &cnf, budget, before);
        }
    }
    let mut count = before;
    count.wrong = count.wrong.saturating_add(1);
    Ok(count)
}

/// Compares the outcomes of so many formulas.
pub fn run(rt: &(impl Print + AllocGlobal), words: &[String]) -> Result<u8> {
    let Some(Ok(many)) = words.first().map(|word| word.as_str().parse::<u64>()) else {
        return Ok(2);
    };
    let mut count = Count {
        satisfied: 0,
        refuted: 0,
        wrong: 0,
    };
    for number in 0..many {
        count = count_one(rt.alloc(), number, count)?;
    }
    let Count {
        satisfied,
        refuted,
        wrong,
    } = count;
    println!(rt; "random: {satisfied} satisfied, {refuted} refuted, {wrong} wrong")?;
    Ok(if wrong == 0 { 0 } else { 1 })
}
