//! Loads a model: a file and what it opens.
#![tactic(auto)]

mod loader;
mod order;
mod reach;
mod source;
mod walk;

pub use load_state::LoadFault;
pub use loader::{load, load_text, load_tree};
