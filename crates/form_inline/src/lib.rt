//! Calls replaced by the bodies that they call, and `let` names by what they stand for.
//!
//! A parameter or `let` name is written out again at each use, with the names as they were where
//! its expression was written. A variable of the result is named by how deep its binder lies, so
//! that it is never the name of a variable around it.
#![tactic(auto)]

pub mod given;
pub mod writing;

pub use writing::inline;
