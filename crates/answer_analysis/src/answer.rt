//! The answers of an analysis: a trace, none, or a budget that is spent.

use answer_trace::Labels;
use core_meaning::Lasso;
use sat_dimacs::{Cnf, Table};
use sat_lrat::LineList;

/// What an analysis comes to.
#[derive(Drop)]
pub enum Answer {
    /// A lasso that satisfies the model and the command, the shortest with its sequence, and how it is written.
    Trace {
        labels: Labels,
        lasso: Lasso,
    },
    /// There is none of so many states: clauses over the table, and lines that refute them.
    Refuted {
        table: Table,
        states: u32,
        cnf: Cnf,
        lines: LineList,
    },
    /// The budget is spent: clauses over the table, and the lemmas so far, as many as the budget has.
    Unknown {
        table: Table,
        cnf: Cnf,
        lines: LineList,
    },
}
