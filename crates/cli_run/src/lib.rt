//! The analyser's top call: from the words of the command line to the bytes of the answer.
//!
//! [`run_words`] asks the libraries for the files that the words name, does the work of the mode,
//! builds the whole text of the answer, and writes it by one call. Its clauses say why each status
//! comes.
#![tactic(auto)]

mod deliver;
mod run;
mod shelves;
mod work;

pub use cli_model::Answer;
pub use run::run_words;
