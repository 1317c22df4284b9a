//! The walk over expressions and formulas: it settles each root, and makes the resolved tree.
#![tactic(auto)]

pub mod expression;
pub mod pieces;
pub mod roots;

pub use resolve_context::{candidates, faults, forms, known, locals, places, state};
