//! Integers of the language as circuits.
//! They are its five operators, the integer that a set stands for, and the set of an integer.
#![tactic(auto)]

pub mod integers;
pub mod members;
pub mod singles;

pub use integers::operate;
pub use members::integer_of;
pub use singles::matrix_of;
