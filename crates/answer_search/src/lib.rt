//! From a target to clauses that just its canonical lassos satisfy, and the search of these clauses.
#![tactic(auto)]

mod circuit;
mod found;
mod search;
mod written;

pub use circuit::{circuit_of, table_store};
pub use found::{Found, Proof};
pub use search::{search_lasso, search_target};
pub use written::clauses_of;
