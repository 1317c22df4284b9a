//! The naming as a circuit (a symmetry-breaking predicate): a node that is true of just the assignments of canonical lassos.
#![tactic(auto)]

pub mod circuits;

pub use circuits::naming;
