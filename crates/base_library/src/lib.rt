//! The library modules that the analyser brings along.
//!
//! They are `util/ordering`, `util/integer`, `util/boolean`, `util/relation` and `util/ternary`.
#![tactic(auto)]

mod embedded;
mod texts;

pub use embedded::EmbeddedLibrary;
