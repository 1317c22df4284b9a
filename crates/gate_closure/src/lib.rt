//! Closure, override and restriction of matrices.
#![tactic(auto)]

pub mod closed;
pub mod filters;

pub use closed::closure;
pub use filters::{left_restrict, override_by, right_restrict};
