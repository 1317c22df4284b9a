//! The workbench's mode on gates, [`circuits`], which measures, and the values of the gates of a circuit.
#![tactic(auto)]

pub mod circuits;
mod reading;

pub use reading::{among, gate_values};
