//! Whether the lines of a model's sigs, their types, and those of `univ` and `iden`, are those of
//! the definitions: a test on what was worked out, whose "yes" is proved to mean just that.
#![tactic(auto)]

mod lines;
mod outermost;
mod ranks;
mod rows;
mod told;
mod types;

pub use told::are_sig_types;
