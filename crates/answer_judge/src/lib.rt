//! What a model says of a trace: each part of it judged, or the tuples of an expression.
//!
//! The trace is read from its text, and judged by the meaning of formulas, not by the clauses of a
//! search.
#![tactic(auto)]

mod answer;
mod expression;
mod judge;
mod unread;
mod value;

pub use answer::TraceAnswer;
pub use expression::{ReadValue, read_value};
pub use judge::judge_trace;
pub use value::value_on_trace;
