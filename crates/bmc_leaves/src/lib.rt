//! What the sets of a model have at the places of windows, over the table of variables.
//! They are relations, names and constants (the leaves of formulas), tests of sets, and whether a
//! lasso keeps the numbers of the scopes.
#![tactic(auto)]

pub mod kept;
pub mod leaves;
pub mod loops;
pub mod mentions;
pub mod scopes;
pub mod setting;
pub mod tests_of_sets;
