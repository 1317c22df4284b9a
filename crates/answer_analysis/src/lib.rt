//! The analysis of a loaded model: from its trees to a trace or to clauses with their refutation.
//!
//! [`ready_loaded`] resolves and bounds a model, [`with_target`] adds what a search needs, and [`analyse_loaded`] searches.
//! A law says what it means of the model that its target is ruled out (`laws`).
#![tactic(auto)]

mod answer;
mod fault;
mod laws;
mod ready;
mod search;

pub use answer::Answer;
pub use answer_texts::table;
pub use fault::AnalyseFault;
pub use laws::ruled_out_means_none;
pub use ready::{Prepared, Ready, prepare_loaded, ready_loaded, with_target};
pub use search::{analyse_loaded, is_trace, search_prepared};
