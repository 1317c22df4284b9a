//! What a lasso of a command is to satisfy, as formulas of the kernel: the target.
//!
//! The target has what the declarations ask, a formula for each fact, and the command's formula
//! (`target`). What the declarations of sigs and fields ask of a position is made part by part:
//! each function adds the formulas of one part of a declaration to a list, and they all hold at a
//! position exactly where those before them do and that part does.
#![tactic(auto)]

pub mod build;
pub mod children;
pub mod declarations;
pub mod fields;
pub mod sigs;

pub use declarations::implied;

mod target;

pub use target::target_of;
