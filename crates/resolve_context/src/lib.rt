//! What the walk over expressions stands on: declarations, scopes, candidates, and broken rules.
//!
//! Operators of the text become those of the model, formulas are made from their parts, and a name
//! gets its candidates where it stands.
#![tactic(auto)]

pub mod candidates;
pub mod faults;
pub mod forms;
pub mod formulas;
pub mod known;
pub mod locals;
pub mod meanings;
pub mod places;
pub mod state;
