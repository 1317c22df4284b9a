//! The answers of the search for facts: those that rule out every lasso, or a lasso.

use answer_search::Proof;
use core_meaning::Lasso;
use core_tree::ItemList;

/// Numbers of facts, each less than the next.
pub type NumberList = ItemList<u32>;

/// What the facts come to.
#[derive(Drop)]
pub enum Core {
    /// A lasso that keeps all of them.
    Trace(Lasso),
    /// These facts, counted from 0, rule out every lasso together with the declarations and the command: lines that refute
    /// the clauses for them.
    Refuted { kept: NumberList, proof: Proof },
    /// A search has spent its budget.
    Unknown(Proof),
}
