//! Matrices of Booleans: sets of tuples whose members depend on the inputs of a circuit.
//!
//! Kodkod (Torlak and Jackson, Kodkod: a relational model finder, 2007) translates relational
//! logic to circuits by matrices: an expression of n columns is an n-dimensional matrix that has a
//! Boolean formula for each tuple, and the operators on relations are operators on matrices. This
//! crate does the same. A [`Matrix`] is a map from tuples to nodes of a circuit, and under each
//! assignment of the inputs it means the set of the tuples whose nodes are true.
//!
//! - `union` is `or` of the two nodes, `intersection` is `and`, and `difference` is `and` with the
//!   negation, in one walk along both matrices;
//! - `product` is `and` of each pair of nodes, and `transpose` turns each pair round;
//! - `join` is the product of matrices: `and` of two entries that meet in a number, and `or` over
//!   all such numbers;
//! - `inside`, `equal`, `some`, `lone` and `one` give one node for whole matrices.
//!
//! A matrix is sparse: a tuple without a node isn't in the set, and the operators leave out a
//! tuple whose node is the constant false. So a matrix grows with what its set may have, and not
//! with the universe. The entries stand in a vector in the order of their tuples. Each keeps the
//! index of its tuple (the number whose digits to the base 16,384 are the numbers of the tuple),
//! so that tuples are compared by one comparison of numbers. Entries that come in another order
//! are sorted once (`gather`).
//!
//! The circuit is any that has the trait `Gates`. The contracts state the set that a result means,
//! for every assignment of the inputs, and that nodes that were there keep their values.
#![tactic(auto)]

pub mod entry;
pub mod gather;
pub mod joins;
pub mod matrix;
pub mod merge;
pub mod place;
pub mod questions;

pub use entry::Entry;
pub use gather::gathered;
pub use joins::{join, product, transpose};
pub use matrix::Matrix;
pub use merge::{add_some, difference, intersection, union};
pub use questions::{equal, inside, lone, one, some};
