//! Whether a lasso keeps the scopes of a command.
//! Each sig's atoms lie in its upper bound and number what its scope says, at all positions
//! together, and what isn't `var` is the same at all positions.
#![tactic(auto)]

pub mod bounds;
pub mod keep;
pub mod places;

pub use keep::keeps;
