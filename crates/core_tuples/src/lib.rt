//! Tuples of numbers of a universe, and finite sets of tuples.
#![tactic(auto)]

pub mod joins;
pub mod keyed;
pub mod merge;
pub mod ops;
pub mod rows;
pub mod set;
pub mod tuple;
pub mod universe;

pub use joins::{join, product, transpose};
pub use keyed::{Keyed, index_of_numbers};
pub use merge::{difference, intersection, union};
pub use ops::inside;
pub use set::TupleSet;
pub use tuple::Tuple;
pub use universe::Universe;
