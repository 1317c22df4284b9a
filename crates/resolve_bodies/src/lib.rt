//! The predicates and functions of a model: their types, their bodies, and what they call.
//!
//! Each body gets a rank above those of the bodies that it calls; or else there is a call on a
//! cycle of calls, and the one that counts first is given.
#![tactic(auto)]

mod cycle;
mod edge;
mod order;

pub use edge::Edge;
pub use order::{Ranks, call_ranks};

mod bodies;
mod head;
mod inside;
mod types;

pub use bodies::{model_bodies, ranked};
pub use types::type_bodies;
