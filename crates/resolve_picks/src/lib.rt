//! What the names of a text are taken to stand for, by their places.
#![tactic(auto)]

mod picks;
mod target;

pub use picks::Picks;
pub use target::Target;
