//! Whether the types of a model's fields are what their declarations say.
#![tactic(auto)]

mod fields;
mod forms;
mod levels;
mod names;
mod operators;
mod pairs;
mod sets;
mod sigs;
mod walk;

pub use fields::keeps_types;
pub use names::{NamedRows, NamedRowsList, names_copy, with_name};
pub use sets::are_within;
pub use walk::type_of;
