//! Conflict analysis: what a search learns from a false clause, with the hints that show it.
//!
//! The clause comes from resolution back to the first UIP (`point`), is made shorter by
//! minimisation (`minimise`), and has hints for a refutation in the LRAT format (`hints`).
#![tactic(auto)]

mod analysis;
mod clauses;
mod hints;
mod minimise;
mod noted;
mod point;

pub use analysis::Analysis;
