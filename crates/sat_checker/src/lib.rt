//! A checker of refutations in the LRAT format, line by line (Cruz-Filipe and others 2017).
//!
//! A lemma passes where its hints show it by unit propagation alone, so that a line is checked in
//! a time that goes by the literals in its hints.
#![tactic(auto)]

mod checker;
mod compact;
mod fault;
mod marks;
mod store;
mod table;
mod walk;

pub use checker::Checker;
pub use fault::{LineFault, Step};
