//! Which names expressions use, and which expressions are the same: what an expression has is known
//! where it stands again with names that stand for the same.
#![tactic(auto)]

pub mod names;
pub mod same;

pub use names::used_names;
pub use same::same_expr;
