//! The tokens that spell a tree, as it was written.
#![tactic(auto)]

mod expr;
mod module;
mod names;
mod part;
mod words;

pub use module::spell;
