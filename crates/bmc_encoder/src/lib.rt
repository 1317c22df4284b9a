//! A target as a circuit over the table of variables: one run of the encoder.
//!
//! [`encode`] takes a target, whose formulas a lasso is to satisfy, the upper bounds of its
//! relations, and their layout: which variable says that a tuple is in a relation at a state, and
//! which one that the loop begins at a state (`bound_uppers`). A run has these steps:
//!
//! 1. The choices of the loop: one input for each state; with one state there is no choice. The
//!    node `sure` says that just one of them is true: it is true of just the assignments that
//!    stand for a lasso.
//! 2. The first root: whether the lasso keeps the numbers of the scopes (`bmc_leaves`).
//! 3. For each formula, in order: its past depth (`past_depth`); the frame, which has the windows
//!    of all loops with so many rounds (`bmc_windows`); the leaves, which are the sets without
//!    parts that the formula names, as relations, `univ` and `iden`; and the row of the formula
//!    over all places (`bmc_walk`).
//! 4. The root of the formula: of the nodes that the row has at the first places of the windows,
//!    the one that the choice of the loop takes. So a root says whether its formula holds at
//!    position 0.
//!
//! Each formula has a frame of its own: one without past operators is unrolled by one round, even
//! where another needs nine. All of them are built in one circuit.
//!
//! Each root is exact: it is true of just the lassos of which the formula holds at position 0. What is
//! no form of the kernel, or nests more than eight past operators, is a fault.
#![tactic(auto)]

pub mod letless;
pub mod past_depth;
pub mod roots;

pub use roots::{Encoded, encode};
