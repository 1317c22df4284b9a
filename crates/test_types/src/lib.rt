//! A test of the check of fields' types.
#![tactic(auto)]

#[cfg(test)]
mod types;
