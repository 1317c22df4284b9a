//! Own atoms: which sigs are constants, a `one sig` below a top-level sig, and which atoms of that
//! sig each of them owns.
#![tactic(auto)]

pub mod own;
pub mod tops;
