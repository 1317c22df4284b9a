//! Tests of loading on small models.
#![tactic(auto)]

#[cfg(test)]
mod answers;
#[cfg(test)]
mod shelf;
