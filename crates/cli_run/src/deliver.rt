//! The answer is written by one call.

ghost use Rattle.cli_run.specs.Allowed.{Delivered, Finished};

use base_types::Sink;
use cli_model::Answer;
use std::alloc::{AllocError, Global};

/// The status of a run that had no memory. Nothing was written.
const NO_MEMORY: u8 = 5;

/// The status of a run whose sink failed.
const WRITE_FAULT: u8 = 6;

/// Writes the answer, where there was memory for one, and gives the status.
pub fn finish<S: Sink>(alloc: Global, answered: Result<Answer, AllocError>, out: &mut S) -> u8
    ensures { Finished answered (S.got out.old) (S.got out.new) (S.write_faults out.old)
        (S.write_faults out.new) result }
{
    match answered {
        Ok(answer) => deliver(alloc, answer, out),
        Err(_) => NO_MEMORY,
    }
}

/// Writes the whole text of the answer by one call, an empty one by none, and gives the status.
fn deliver<S: Sink>(alloc: Global, answer: Answer, out: &mut S) -> u8
    ensures { Delivered answer (S.got out.old) (S.got out.new) (S.write_faults out.old)
        (S.write_faults out.new) result }
{
    let status = answer.status();
    let Ok(text) = answer.into_text(alloc) else {
        return NO_MEMORY;
    };
    let bytes = text.bytes();
    if bytes.is_empty() {
        return status;
    }
    match out.write(bytes) {
        Ok(()) => status,
        Err(_) => WRITE_FAULT,
    }
}
