//! From loaded trees to the model: each root replaced by its reading.
#![tactic(auto)]

mod readings;
mod refused;
mod solve;
mod value;

pub use solve::{Resolved, resolve, resolve_with};
pub use value::{Value, resolve_value, resolve_value_with};
