//! The tuples and the integer of an expression, and the truth of a formula, at a position.
#![tactic(auto)]

pub mod bounds;
pub mod calls;
pub mod choices;
pub mod forms;
pub mod future;
pub mod past;
pub mod times;
pub mod walk;
pub mod within;

pub use forms::{holds_in, tuples_in};
pub use walk::Walk;
pub use within::is_within;
