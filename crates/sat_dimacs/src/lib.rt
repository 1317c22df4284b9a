//! Clauses over Boolean variables, what satisfies them, and their text in the DIMACS CNF format.
//!
//! The format is that of the SAT competitions: comment lines, a header `p cnf VARIABLES CLAUSES`,
//! and the literals of each clause with a 0 behind them. A literal is the number of a variable,
//! negated or not.
#![tactic(auto)]

mod clause;
mod cnf;
mod print;
mod read;
mod table;
mod truth;

pub use clause::{Clause, ClauseList};
pub use cnf::Cnf;
pub use print::{print_cnf, push_cnf};
pub use read::{CnfFault, read_cnf};
pub use table::{Row, Table, has_feed};
pub use truth::satisfies;

/// The most variables that a header in a text may name (C01).
pub const MOST_VARIABLES: u64 = 100_000_000;

/// The most clauses that a header in a text may name (C01).
pub const MOST_CLAUSES: u64 = 100_000_000;
