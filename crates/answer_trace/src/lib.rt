//! The text of a trace: labels, and a lasso written under labels and read again.
#![tactic(auto)]

pub mod atom_index;
pub mod label;
pub mod left;
pub mod make;
pub mod owners;
pub mod print;
pub mod read;
pub mod row;
pub mod words;

pub use label::{Labels, RelationLabel, RelationLabelList, Shown, TextList, TraceFault};
pub use make::make_labels;
pub use print::{print_trace, push_tuple, push_tuples};
pub use read::read_trace;
