//! The command line of `alloyc`.
//!
//! The words are read by one simple `clap` command, so that the texts that they give are a
//! function of the words. From these texts come the settings of a run, or none; whether the
//! settings fit their mode is a test of the settings alone.
#![tactic(auto)]

mod choices;
mod fit;
mod given;
mod line;
mod named;
mod settings;

pub use fit::fits;
pub use named::{Mode, Part};
pub use settings::{Settings, settings_of_words};
