//! The lines that say what the search for a trace of a ring came to.

ghost use Rattle.std.specs.Prelude.{◌≡◌, IfOk, string_bytes};
ghost use Rattle.answer_texts.specs.Ring.{made_trace, made_none, made_unknown};

use std::alloc::{AllocError, Global};

/// The line that a ring of so many nodes has a trace of so many states whose loop begins there.
pub fn made_trace(
    alloc: Global,
    nodes: u32,
    states: u32,
    loop_start: u32,
) -> Result<String, AllocError>
    ensures { IfOk result (λ line. string_bytes line ≡ made_trace nodes states loop_start) }
{
    format!(in alloc; "make {nodes} trace states {states} loop {loop_start}\n")
}

/// The line that a ring of so many nodes has no trace of at most so many states.
pub fn made_none(alloc: Global, nodes: u32, states: u32) -> Result<String, AllocError>
    ensures { IfOk result (λ line. string_bytes line ≡ made_none nodes states) }
{
    format!(in alloc; "make {nodes} none states {states}\n")
}

/// The line that the search for a trace of a ring of so many nodes has spent its budget.
pub fn made_unknown(alloc: Global, nodes: u32) -> Result<String, AllocError>
    ensures { IfOk result (λ line. string_bytes line ≡ made_unknown nodes) }
{
    format!(in alloc; "make {nodes} unknown\n")
}
