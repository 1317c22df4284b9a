//! The answers of the modes that read a model or make one, before anything is written.
//!
//! [`on_model`] answers on the text of a model: it is read, and loaded, analysed or listed as the mode asks. [`make`]
//! answers on the model of a ring. An [`Answer`] is a status and a text.
#![tactic(auto)]

mod analysis;
mod answer;
mod files;
mod model;
mod parsed;
mod ready;
mod refusals;
mod ring;
mod root;
mod traced;

pub use answer::Answer;
pub use files::{File, whole_file};
pub use model::on_model;
pub use refusals::{read_fault, refused};
pub use ring::make;
