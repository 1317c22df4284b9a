//! Integers as lists of circuit nodes, in two's complement, and counts of nodes.
//!
//! Sums and differences are ripple-carry adders, one full adder for each bit; products add shifted
//! rows, and quotients and remainders come by long division of the magnitudes. A count adds bits
//! of one weight before those of the next, and a count against a limit is a sequential counter
//! (Sinz, Towards an optimal CNF encoding of Boolean cardinality constraints, 2005).
//!
//! Every call works over any circuit, and its result is stated for every assignment of the inputs:
//! the arithmetic of integers, wrapped to the operands' width.
#![tactic(auto)]

pub mod adder;
pub mod bits;
pub mod compare;
pub mod counting;
pub mod each;
pub mod limit;

pub use adder::{add, neg, sub};
pub use bits::Bits;
pub use compare::{equal_bits, less};
pub use counting::count;
pub use limit::{at_most, exactly};

pub mod divide;
pub mod product;

pub use divide::{div, rem};
pub use product::mul;
