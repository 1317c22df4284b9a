//! The answer on a text that is no trace: the line at which reading it stops.

ghost use Rattle.std.specs.Prelude.{IfOk};
ghost use Rattle.answer_trace.specs.Faults.{Faults};
ghost use Rattle.answer_laws.specs.Form.{HaveLassos};
ghost use Rattle.answer_judge.specs.Judged.{IsNotRead};

use crate::answer::TraceAnswer;
use answer_analysis::Ready;
use answer_laws::named_lines_are_first;
use answer_trace::TraceFault;
use std::alloc::AllocError;

/// The answer on a text that is no trace of a model that was made ready: the line at which reading it stops.
pub(crate) fn not_read(
    ready: &Ready,
    trace: &[u8],
    fault: TraceFault,
) -> Result<TraceAnswer, AllocError>
    requires read { HaveLassos ready.now.labels }
    requires faults { Faults ready.now.labels trace.now fault }
    ensures { IfOk result (λ answer. IsNotRead ready.now trace.now answer) }
{
    named_lines_are_first();
    match fault {
        TraceFault::BadTrace { line } => Ok(TraceAnswer::BadTrace(line)),
        TraceFault::Memory => Err(AllocError),
    }
}
