//! The lemmas of a search: each is checked as it comes, and those not needed can be left out.
//!
//! A search that hands its lemmas to a log needs no proof that they are right: the log takes a
//! lemma only where it passes the checker's step, so that its lines refute the clauses as soon as
//! the empty lemma was taken. From many lemmas of a search nothing is drawn later: without them a
//! refutation still refutes, and is shorter.
#![tactic(auto)]

mod log;

pub use log::{LemmaLog, Taken};

mod mark;
mod moved;
mod shorten;
mod stay;

pub use shorten::trim;
