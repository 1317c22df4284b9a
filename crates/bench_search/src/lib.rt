//! The workbench's modes on the search: [`dimacs`] measures it, [`random`] compares it with all assignments.
#![tactic(auto)]

pub mod dimacs;
pub mod random;
