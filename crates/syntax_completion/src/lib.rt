//! Completes the beginning of a text to a whole one.
#![tactic(auto)]

mod completion;
mod copy;
mod pieces;
mod text;
mod words;

pub use text::completed;
