//! The parts of a model, each from its paragraphs: fields, facts, assertions, commands, literals.
//!
//! Commands have the names that they run and check, their scopes, and the formulas that they ask.
#![tactic(auto)]

mod gather;
mod sorted;

pub use sorted::literals;

mod asked;
mod found;
mod scope;
mod words;

pub use asked::{always_true, check_formula, denied, run_formula};
pub use found::{asserts_named, predicates_named};
pub use scope::scope_of;
pub use words::{label_of, name_place};

mod claims;
mod commands;
mod fields;
mod sources;

pub use claims::{Claims, all_appended, model_claims};
pub use commands::model_commands;
pub use fields::model_fields;
pub use resolve_bodies::{Edge, Ranks, call_ranks, model_bodies, ranked, type_bodies};
pub use resolve_sigs::{all_vars, model_sigs, settle_fields};
pub use sources::{Sources, setting_in};
