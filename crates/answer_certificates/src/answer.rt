//! The answers of the searches with one state, with two, and on.

use answer_search::Proof;
use core_meaning::Lasso;

/// What the searches with one state, with two, and on come to.
#[derive(Drop)]
pub enum Least {
    /// A lasso with fewest states; where these are more than one, clauses over one state less with lines that refute them.
    Trace { lasso: Lasso, below: Option<Proof> },
    /// There is none of as many states as the scopes have: lines that refute the clauses over so many.
    Refuted(Proof),
    /// A search has spent its budget.
    Unknown(Proof),
}
