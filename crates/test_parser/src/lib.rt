//! Tests of the parsers on texts.
#![tactic(auto)]

#[cfg(test)]
mod expressions;
#[cfg(test)]
mod modules;
#[cfg(test)]
mod refusals;
