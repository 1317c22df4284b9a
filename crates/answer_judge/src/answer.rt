//! The answer on a trace: its status and its text.

ghost use Rattle.std.specs.Prelude.{◌≡◌, IfOk};
ghost use Rattle.answer_judge.specs.Answer.{status_of, text_of, bad_trace_line};

use base_types::Bytes;
use std::alloc::{AllocError, Global};

/// What is said of a trace.
#[derive(Drop)]
pub enum TraceAnswer {
    /// Whether everything holds on it, and the text that says so part by part.
    Judged(bool, Bytes),
    /// The text has the tuples of an expression.
    Valued(Bytes),
    /// The file is no text of a trace; no such text begins with the lines up to this one.
    BadTrace(u32),
}

impl TraceAnswer {
    /// The status that the program ends with once this is written.
    pub fn status(&self) -> u8
        ensures { result ≡ status_of self.now }
    {
        match self {
            TraceAnswer::Judged(satisfied, _) => { if *satisfied { 0 } else { 1 } }
            TraceAnswer::Valued(_) => 0,
            TraceAnswer::BadTrace(_) => 3,
        }
    }

    /// The text, where the file of the trace has this name.
    pub fn text(&self, alloc: Global, name: &str) -> Result<Bytes, AllocError>
        ensures { IfOk result (λ text. text ≡ text_of self.now name.now) }
    {
        match self {
            TraceAnswer::Judged(_, text) => Bytes::copy(alloc, text.bytes()),
            TraceAnswer::Valued(text) => Bytes::copy(alloc, text.bytes()),
            TraceAnswer::BadTrace(line) => bad_trace(alloc, *line, name),
        }
    }
}

/// The line that the file of this name is no text of a trace.
fn bad_trace(alloc: Global, line: u32, name: &str) -> Result<Bytes, AllocError>
    ensures { IfOk result (λ text. text ≡ bad_trace_line line name.now) }
{
    let text = format!(in alloc; "refused C21 {name}:{line}\n")?;
    Bytes::copy(alloc, text.as_bytes())
}
