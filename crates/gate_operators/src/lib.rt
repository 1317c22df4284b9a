//! Operators of the language on sets and integers, as circuits.
//! Each is one operator at one position, from its operands.
#![tactic(auto)]

pub mod combined;
pub mod unary;

pub use combined::{combine, multiplied};
pub use unary::{closed_below, identity, transposed};
