//! How many past operators formulas nest at most, and laws of calls.
//! The laws say that a call means its body, that the names of a body stand for the arguments, and
//! that a formula repeats after as many rounds of the loop as it weighs.
#![tactic(auto)]

pub mod bodies;
pub mod weight;

pub use bodies::{MANY, weigh};
pub use weight::{MOST, of_expr, of_formula};
