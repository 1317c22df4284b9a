//! Operators on sets of tuples, for sets of any columns.
//! A set that is empty fits every operator; where an operator would give tuples that no set holds,
//! the answer is the fault `Unfit`.
#![tactic(auto)]

pub mod fault;
pub mod operators;
pub mod rows;
pub mod sizes;
pub mod walks;

pub use fault::EvaluationFault;
pub use operators::{combine, paired, turned};
pub use rows::{atoms_in, empty_of, identity, put, rows_after, rows_before, single};
pub use sizes::{are_equal, has_multiplicity, has_quantity, is_apart, is_quantity, size_of};
pub use walks::closure;
