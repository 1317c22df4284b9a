//! Whether a model is one of these texts: whether its sigs, facts and commands are just those that the texts declare, by
//! their places.
#![tactic(auto)]

mod placed;
mod texts;

pub use placed::is_placed;
