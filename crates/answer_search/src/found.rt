//! The answers of a search: a lasso, a refutation, or a budget that is spent.

use bound_uppers::Layout;
use core_meaning::Lasso;
use sat_dimacs::Cnf;
use sat_lrat::LineList;

/// Clauses of a search with lines about them, such as lines that refute them.
#[derive(Drop)]
pub struct Proof {
    /// The number of states of the lassos of which the clauses speak.
    pub states: u32,
    /// The numbers of the variables of such a lasso.
    pub layout: Layout,
    pub cnf: Cnf,
    pub lines: LineList,
}

/// What a search comes to.
#[derive(Drop)]
pub enum Found {
    /// A lasso.
    Trace(Lasso),
    /// There is none of so many states: the lines refute the clauses, which say what one is to satisfy.
    Refuted(Proof),
    /// The budget is spent on just as many lemmas.
    Unknown(Proof),
}
