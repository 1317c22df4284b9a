//! Whether all of a model is what its texts declare, its predicates, functions and commands among it: a test on the model,
//! whose "yes" is proved to mean just that.
#![tactic(auto)]

mod asked;
mod bodies;
mod commands;
mod inside;
mod labels;
mod meaning;
mod parameters;
mod reads;
mod receiver;
mod scopes;
mod spots;
mod texts;
mod whole;
mod words;

pub use bodies::are_bodies_told;
pub use commands::are_commands_told;
pub use whole::is_of_texts;
