//! What paragraphs say of sigs and fields, the sigs of a model, and the bounds of fields.
//!
//! The bounds are read in an order in which each stands behind those that it may name.
#![tactic(auto)]

mod above;
mod exact;
mod fields;
mod labels;
mod said;
mod sigs;

pub use above::above_of;
pub use exact::all_exact;
pub use fields::{FieldWords, field_group, field_label, words_of};
pub use labels::sig_label;
pub use said::all_vars;
pub use sigs::model_sigs;

mod bounds;
mod settle;

pub use settle::settle_fields;
