//! What an encoder of formulas has built so far, and the steps by which it builds more.
//!
//! The walk over a formula (`bmc_walk`) says what is to be built; this crate keeps what is built,
//! in a [`Store`]:
//!
//! - sets (matrices of nodes) and integers (lists of nodes), which are named by their numbers;
//! - the stack of rows: a row says where a formula holds, by one node for each place of the
//!   windows of all loops, the windows one after the other (`bmc_windows`).
//!
//! A step takes its operands from the top of the stack of rows and leaves its answer there, as
//! `negate_top` and `both_top`, which work place by place. What the walk does with rows that stand
//! on no stack is in `windows`: `spread` takes for each place the node of another one, and `moving`
//! goes along each window by itself, by the operators of `gate_temporal`.
//!
//! What an expression has at all places is a row of numbers, which name a set or an integer for
//! each place. What is the same at several places is built once: an operator on two such rows is
//! built for each pair of numbers that meet at some place, and not for each place.
//!
//! Where an operand isn't there, a step takes the constant false, the empty set or no bits in its
//! place, or gives the error of memory. The contracts say what is left where the operands are there.
#![tactic(auto)]

pub mod basics;
pub mod members;
pub mod numbers;
pub mod places;
pub mod steps;
pub mod store;
pub mod windows;

pub use basics::{add_matrix, empty_store, node_or_false, pop_row, push_row};
pub use members::members_of;
pub use numbers::{Operator, TestOperator};
pub use places::{asked, combined, one_set};
pub use steps::{both_top, extend_top, negate_top, push_constant};
pub use store::Store;
pub use windows::TimeOperator;
