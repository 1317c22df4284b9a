//! Lines of a refutation, what a list of lines refutes, and their text in the LRAT format.
//!
//! The format is the checkable form of a SAT solver's proof (Cruz-Filipe and others 2017): a line
//! `id literals 0 hints 0` adds a lemma that follows from the clauses of the hints by unit
//! propagation, and a line `id d ids 0` deletes clauses. The clauses of the formula have the
//! numbers from 1 on.
#![tactic(auto)]

mod laws;
mod line;
mod outcome;
mod print;
mod read;
mod words;

pub use laws::{
    lemmas_are_read_again, numbers_are_read_again, refutation_is_sound, start_is_sound,
    step_is_sound,
};
pub use line::{Hints, Line, LineList, Rest};
pub use outcome::Outcome;
pub use print::{print_lines, push_lines};
pub use read::{LratFault, ReadLine, read_line};

/// The largest number of a clause in a text of lines, 2^63 - 1.
pub const MOST_NUMBER: u64 = 9_223_372_036_854_775_807;

/// The largest variable in a text of lines.
pub const MOST_VARIABLE: u64 = 100_000_000;
