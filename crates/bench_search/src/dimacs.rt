//! The mode `dimacs` solves the clauses of a DIMACS text, to measure the search: `FILE`.
//!
//! It prints `s SATISFIABLE` or `s UNSATISFIABLE`, with the number of lemmas, and ends with 10 or 20. A file that isn't
//! read is answered with 3, other words with 2.

use anyhow::Result;
use sat_decide::{Activity, Chooser};
use sat_dimacs::{Cnf, read_cnf};
use sat_lrat::Outcome;
use sat_solver::solve;
use std::fs;
use std::rt::Files;

/// Solves clauses and tells the outcome.
fn tell(rt: &(impl Print + AllocGlobal), cnf: &Cnf) -> Result<u8> {
    let chooser: Box<dyn Chooser> = Box::new(rt.alloc(), Activity::new(rt.alloc()))?;
    match solve(rt.alloc(), cnf, chooser, None)? {
        Outcome::Assignment(_) => {
            println!(rt; "s SATISFIABLE")?;
            Ok(10)
        }
        Outcome::Refutation(lines) => {
            let count = lines.len();
            println!(rt; "s UNSATISFIABLE {count} lemmas")?;
            Ok(20)
        }
        Outcome::Spent(_) => Ok(30),
    }
}

/// Solves the clauses of a file.
fn solve_file(rt: &(impl Files + Print + AllocGlobal), file: &str) -> Result<u8> {
    let text = fs::read(rt, file)?;
    if text.len() > 67_108_864 {
        return Ok(3);
    }
    match read_cnf(rt.alloc(), text.as_slice()) {
        Ok(cnf) => tell(rt, &cnf),
        Err(_) => Ok(3),
    }
}

/// Solves the clauses of the file that the first word names.
pub fn run(rt: &(impl Files + Print + AllocGlobal), words: &[String]) -> Result<u8> {
    let Some(file) = words.first() else {
        return Ok(2);
    };
    solve_file(rt, file.as_str())
}
