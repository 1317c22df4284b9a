//! A conflict-driven search: an assignment that satisfies the clauses, or lemmas that refute them.
//!
//! It decides, propagates, learns a clause from each conflict, goes back, and restarts now and
//! then (CDCL; the frame is MiniSat's: Eén and Sörensson 2003). Each lemma is taken through the
//! checker's step as it is learnt, and passes. It contains no clause that is there before it, so
//! the search goes on to something new, whatever the chooser does.
//!
//! Now and then lemmas that serve little are dropped (`policy`): they are propagated no more. A
//! clause that is learnt later may contain a dropped lemma, and would say nothing new. Then it isn't
//! kept, and the dropped one is attached again, which serves as well. That can happen only as often
//! as lemmas are dropped, and lemmas are dropped only behind a new one, so the search ends.
#![tactic(auto)]

mod lent;
mod load;
mod pace;
mod policy;
mod round;
mod search;
mod store;

pub use policy::Dropping;
pub use search::{solve, solve_by, solve_dropping, solve_with};
