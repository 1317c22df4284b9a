//! A list and a box that contracts see as what they hold, so that a tree of them is plain data.
#![tactic(auto)]

mod boxed;
mod items;

pub use boxed::Boxed;
pub use items::Items;
