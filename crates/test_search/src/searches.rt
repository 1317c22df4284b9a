//! The fast search beside the plain one, and the search that drops each lemma at once.

use sat_checker::{Checker, Step};
use sat_decide::FirstFree;
use sat_dimacs::{Cnf, read_cnf, satisfies};
use sat_lrat::Outcome;
use sat_solver::{Dropping, solve_dropping, solve_with};
use std::alloc::{AllocError, Global};
use std::test::Fail;
use test_dpll::split;

/// The clauses of a text.
fn cnf_of(alloc: Global, text: &[u8]) -> Result<Cnf, Fail> {
    if text.len() > 1000000 {
        return Err("the text is long")?;
    }
    match read_cnf(alloc, text) {
        Ok(cnf) => Ok(cnf),
        Err(_) => Err("the clauses are not read")?,
    }
}

/// Whether an outcome says that the clauses can be satisfied, where what it gives shows it.
fn told(alloc: Global, cnf: &Cnf, outcome: &Outcome) -> Result<Option<bool>, AllocError> {
    match outcome {
        Outcome::Assignment(assignment) => {
            let mut values = Vec::new(alloc);
            for variable in 0..assignment.variables() {
                values.push(assignment.value(variable + 1))?;
            }
            Ok(if satisfies(&values, &cnf.clauses) {
                Some(true)
            } else {
                None
            })
        }
        Outcome::Refutation(lines) => {
            let mut checker = Checker::new(alloc, cnf)?;
            for line in lines.lines() {
                if checker.add(line) == Ok(Step::Refuted) {
                    return Ok(Some(false));
                }
            }
            Ok(None)
        }
        Outcome::Spent(_) => Ok(None),
    }
}

/// What the search that drops each lemma behind a new one says of some clauses.
fn told_dropping(alloc: Global, cnf: &Cnf) -> Result<Option<bool>, AllocError> {
    let mut chooser = FirstFree::new();
    let outcome = solve_dropping(alloc, cnf, &mut chooser, None, Dropping::All)?;
    let bare = told(alloc, cnf, &outcome)?;
    Ok(bare)
}

/// Whether the search that drops each lemma spends a budget exactly, or refutes within it.
fn spends(alloc: Global, cnf: &Cnf, budget: u64) -> Result<bool, AllocError> {
    let mut chooser = FirstFree::new();
    match solve_dropping(alloc, cnf, &mut chooser, Some(budget), Dropping::All)? {
        Outcome::Assignment(_) => Ok(false),
        Outcome::Refutation(lines) => Ok(lines.lines().len() as u64 <= budget),
        Outcome::Spent(lines) => Ok(lines.lines().len() as u64 == budget),
    }
}

/// Whether the plain search and the fast one, which drops few lemmas or all, say so of the clauses of a text.
fn say(alloc: Global, text: &[u8], wanted: bool) -> Result<bool, Fail> {
    let cnf = cnf_of(alloc, text)?;
    let outcome = split(alloc, &cnf)?;
    let plain = told(alloc, &cnf, &outcome)?;
    let outcome = solve_with(alloc, &cnf, &mut FirstFree::new(), None)?;
    let fast = told(alloc, &cnf, &outcome)?;
    let bare = told_dropping(alloc, &cnf)?;
    Ok(plain == Some(wanted) && fast == Some(wanted) && bare == Some(wanted))
}

#[test]
fn both_refute_clauses(rt: HostRuntime) -> Result<(), Fail> {
    let text =
        b"p cnf 6 9\n1 2 0\n3 4 0\n5 6 0\n-1 -3 0\n-1 -5 0\n-3 -5 0\n-2 -4 0\n-2 -6 0\n-4 -6 0\n";
    assert!(rt; say(rt.alloc(), text, false)?);
    Ok(())
}

#[test]
fn both_satisfy_clauses(rt: HostRuntime) -> Result<(), Fail> {
    let text = b"p cnf 3 4\n1 2 0\n-1 3 0\n-2 -3 0\n3 -3 0\n";
    assert!(rt; say(rt.alloc(), text, true)?);
    Ok(())
}

/// Four pigeons in three holes.
const PIGEONS: &[u8] =
    b"p cnf 12 22\n1 2 3 0\n4 5 6 0\n7 8 9 0\n10 11 12 0\n-1 -4 0\n-1 -7 0\n-1 -10 0\n-4 -7 0\n-4 -10 0\n-7 -10 0\n-2 -5 0\n-2 -8 0\n-2 -11 0\n-5 -8 0\n-5 -11 0\n-8 -11 0\n-3 -6 0\n-3 -9 0\n-3 -12 0\n-6 -9 0\n-6 -12 0\n-9 -12 0\n";

#[test]
fn dropping_all_refutes_pigeons(rt: HostRuntime) -> Result<(), Fail> {
    let cnf = cnf_of(rt.alloc(), PIGEONS)?;
    assert_eq!(rt; told_dropping(rt.alloc(), &cnf)?, Some(false));
    Ok(())
}

#[test]
fn dropping_all_spends_budgets(rt: HostRuntime) -> Result<(), Fail> {
    let cnf = cnf_of(rt.alloc(), PIGEONS)?;
    for budget in 0..5 {
        assert!(rt; spends(rt.alloc(), &cnf, budget)?);
    }
    Ok(())
}
