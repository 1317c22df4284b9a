//! Whether the places that a tree keeps are those of its tokens.
#![tactic(auto)]

mod expr;
mod module;
mod names;
mod part;
mod places;
mod walk;
mod words;

pub use places::{has_bound_places, has_module_places, has_places};
