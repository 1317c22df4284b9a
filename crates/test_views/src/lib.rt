//! Tests of reading traces without their models, of quotes, and of what the writers make of a trace.
#![tactic(auto)]

#[cfg(test)]
mod pictures;
#[cfg(test)]
mod quotes;
#[cfg(test)]
mod traces;
