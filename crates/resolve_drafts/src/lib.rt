//! Roots on their way to the model: candidates of each name, the reading, the resolved tree.
#![tactic(auto)]

mod built;
mod decided;
mod draft;
mod part;
mod tree;

pub use built::{Built, CallSite, Pending, Pick};
pub use decided::{Reading, Settled, settle};
pub use draft::{Candidate, Draft, Target};
pub use part::part_of;
