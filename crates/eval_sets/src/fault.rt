//! Why an evaluation gives no answer: a fault of memory, or operands that don't fit.

use std::alloc::AllocError;

/// Why an evaluation gives no answer.
#[derive(Clone, Copy, Debug, PartialEq, Eq, Drop)]
pub enum EvaluationFault {
    /// Want of memory.
    Memory,
    /// What was asked for has tuples that no set holds: of two lengths, of no number or of more than
    /// nine, or with a number above 16,383.
    Unfit,
}

impl From<AllocError> for EvaluationFault {
    fn from(_: AllocError) -> EvaluationFault {
        EvaluationFault::Memory
    }
}
