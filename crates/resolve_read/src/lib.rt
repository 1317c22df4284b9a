//! Whether what the names of a formula or an expression are taken to stand for are the readings of its roots.
#![tactic(auto)]

mod candidates;
mod draft;
mod ground;
mod leaves;
mod locals;
mod meanings;
mod operators;
mod own;
mod products;
mod root;
mod spot;
mod types;
mod walk;

pub use locals::Locals;
pub use resolve_picks::{Picks, Target};
pub use spot::Spot;
pub use types::{Ground, Readings, Types};
pub use walk::{bound_type, decl_types, is_read, root_type};
