//! How many atoms each sig has under a command's scope, as the definitions have it.
//! The numbers are computed from the leaves of the hierarchy up and then down again, and each one is
//! tested against its rule.
#![tactic(auto)]

mod families;
mod listed;
mod lists;
mod order;
mod sig_numbers;

pub use families::Family;
pub use listed::{Asked, Numbered, first_entry};
pub use sig_numbers::numbers;
