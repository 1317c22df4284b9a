//! The trail of a search: its clauses, its partial assignment, and unit propagation over both.
//!
//! A [`Trail`] decides ([`Trail::assign`]), propagates ([`Trail::propagate`]), and takes decisions
//! back ([`Trail::undo_to`]). It finds what a clause forces by two watched literals. A clause can be
//! left out of propagation ([`Trail::detach`]), and taken in again ([`Trail::attach`]).
#![tactic(auto)]

mod literal;

pub use literal::{index, list_of, literal_at, wide};

mod add;
mod arena;
mod assigned;
mod detach;
mod propagate;
mod trail;
mod watches;

pub use trail::Trail;
