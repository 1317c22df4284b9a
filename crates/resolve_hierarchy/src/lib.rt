//! The hierarchy of sigs: parents, lines of ancestors, the members of types, and overlap.
#![tactic(auto)]

mod build;
mod cycles;
mod faults;
mod fields;
mod order;
mod parents;
mod search;
mod sigs;

pub use build::hierarchy;
pub use sigs::{Hierarchy, Kind};
