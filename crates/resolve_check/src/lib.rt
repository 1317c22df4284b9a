//! Whether a model keeps what resolved models keep, and the columns of parameters.
#![tactic(auto)]

mod bodies;
mod columns;
mod fields;
mod formulas;
mod keeps;
mod named_fields;
mod names;
mod numbering;
mod shape;
mod signatures;
mod sigs;
mod walk;

pub use keeps::{keeps_model, keeps_value};
pub use signatures::parameter_columns;
