//! What a search for an assignment comes to: an assignment, a refutation, or a spent budget.

use crate::line::LineList;
use base_types::Assignment;

/// What a search for an assignment that satisfies clauses comes to.
#[derive(Debug, Drop)]
pub enum Outcome {
    /// A value for each variable, under which each clause is true.
    Assignment(Assignment),
    /// Lines that refute the clauses.
    Refutation(LineList),
    /// Lines with as many lemmas as the search was allowed, each of them new.
    Spent(LineList),
}
