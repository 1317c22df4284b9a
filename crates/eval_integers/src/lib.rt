//! Integers of a bitwidth, wrapped in two's complement, as the evaluator has them.
//! They are their bits, the five operators and comparisons, and what sets stand for in integer
//! places.
#![tactic(auto)]

pub mod numbers;

pub use numbers::{compares, half_count, integer_count, low_bits, result_of, wrap, wrapped_sum};

pub mod operators;
pub mod values;

pub use operators::{arithmetic, compare, count_of};
pub use values::{add, literal, number_of, wrapped};
