//! Where a formula of the kernel holds, as a row of circuit nodes over the places of windows.
//!
//! The walk goes along the tree by open recursion: each rule is a function that is given what walks
//! along the parts, so each is proved by itself.
#![tactic(auto)]

pub mod arrows;
pub mod choices;
pub mod forms;
pub mod formulas;
pub mod inside;
pub mod integers;
pub mod leaves;
pub mod levels;
pub mod once;
pub mod ready;
pub mod sets;
pub mod sums;
pub mod tied;
pub mod variables;
pub mod walk;
pub mod whole;

pub use walk::{Answer, Ground, Known, Made, Ready, Walk, Wanted};
