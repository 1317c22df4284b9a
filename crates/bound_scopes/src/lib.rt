//! The scopes of a command, and the static rules that need them.
//! The scopes are how many atoms each sig has, the bitwidth, and the number of states.
#![tactic(auto)]

mod asking;
mod atoms;
mod counted;
mod deep;
mod entries;
mod keeps;
mod limits;
mod trees;
mod value;
mod wide;

pub use limits::scopes;
pub use value::check_value;
