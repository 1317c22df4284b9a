//! Whether the literals of a model are just those that its texts write: a test on the model, whose "yes" is proved to mean
//! just that.
#![tactic(auto)]

mod labels;
mod marks;
mod told;

pub use told::are_literals_told;
