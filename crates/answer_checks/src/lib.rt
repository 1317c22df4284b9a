//! Tests on an answer: that each text under some labels is that of one lasso, that a lasso is one of the labels, that the types
//! of a model's fields are those of their declarations, that no sig of it extends an `in` sig, and that each field belongs to a
//! sig or is placed by the formula of a command.
//!
//! Each takes time linear in what it tests, but for the types of fields and bounds, whose time is that of their rows, and for the
//! names over a formula, which are copied where it adds one. Two laws say what a model keeps by what is tested of it.
#![tactic(auto)]

mod below;
mod fields;
mod labels;
mod lassos;
mod laws;
mod models;
mod places;
mod texts;

pub use fields::places_fields;
pub use labels::{has_universe, have_lassos};
pub use lassos::fits_labels;
pub use laws::typed_models_are_models;
pub use models::{extends_plain, is_typed_model};
