//! Circuits of sets: relations over their variables, and each operator and test on matrices.
//! Where the operands don't fit, the answer is the error of memory: so each answer that there is
//! is exact.
#![tactic(auto)]

pub mod choosing;
pub mod listing;
pub mod operators;
pub mod questions;
pub mod relation;

pub use choosing::choose;
pub use listing::{add_tuples, distinct_tuples};
pub use operators::{SetOperator, apply, combine};
pub use questions::{Question, ask};
pub use relation::{atom_matrix, put, range_matrix, relation_matrix};
