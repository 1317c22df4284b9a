//! The workbench's modes on analyses: [`encoding`] compares circuits with what models mean, [`stages`] measures.
#![tactic(auto)]

pub mod encoding;
pub mod stages;
