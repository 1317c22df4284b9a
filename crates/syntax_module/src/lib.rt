//! The parser of modules.
#![tactic(auto, using(crate::proofs::Rules::right_rules))]

mod bodies;
mod command;
mod header;
mod module;
mod paragraph;
mod sig;
mod sig_name;
mod word;

pub use module::parse_module;
