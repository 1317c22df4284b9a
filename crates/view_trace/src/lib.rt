//! A trace read without its model: states, the loop, and relations with their tuples by the names of atoms.
//!
//! The text of a trace has all that a picture of it needs. What it doesn't say, as which sig extends which, isn't known
//! here. [`read_trace`] takes a trace alone, and also an answer in which a line `clauses` and more follow the trace.
#![tactic(auto)]

mod fault;
mod lines;
mod names;
mod read;
mod row;
mod trace;

pub use fault::TraceFault;
pub use names::{Names, integer_of, owner_of};
pub use read::read_trace;
pub use trace::{Kind, Relation, State, Table, Trace, gone, kind_of, width_of};
