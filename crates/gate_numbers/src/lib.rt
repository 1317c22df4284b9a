//! Circuits of integers: operators and comparisons on bits, and integers as sets and back.
//! Where the widths of the operands don't fit, the answer is the error of memory.
#![tactic(auto)]

pub mod integers;
pub mod values;

pub use integers::{calculate, compare, count_of, masked_sum};
pub use values::{integer_of, matrix_of};
