//! The plain search: it takes a unit clause's literal first, or tries the least free variable.
//!
//! Each time a clause is false, the lemma "not all of these steps" is taken, so that the lemmas
//! refute the clauses in the end (DPLL: Davis, Logemann and Loveland 1962). It is slow, and it is
//! what the fast search is compared with.
#![tactic(auto)]

mod path;
mod scan;
mod search;

pub use search::split;
