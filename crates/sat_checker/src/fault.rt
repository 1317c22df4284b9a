//! What a line comes to: it passed, breaks a rule from L1 to L5 first, or memory was wanting.

ghost use Rattle.std.specs.Prelude.{◌≡◌};
ghost use Rattle.sat_checker.specs.declared.fault.LineFault.TheVariants.{Memory};

use std::alloc::{AllocError, AllocFailed};

/// What a line did that passed.
#[derive(Clone, Copy, Debug, PartialEq, Eq)]
pub enum Step {
    /// The lemma stands now.
    Added,
    /// The clauses do not stand any more.
    Deleted,
    /// The empty lemma stands now: the formula is refuted.
    Refuted,
}

/// Why a line does not pass. It is the first rule in this order that the line breaks.
#[derive(Clone, Copy, Debug, PartialEq, Eq)]
pub enum LineFault {
    /// The lemma's number is not above all earlier numbers.
    L1,
    /// No clause stands under the number of a hint.
    L2,
    /// A hint is neither false nor unit.
    L3,
    /// The hints are at an end, and none was false.
    L4,
    /// A number to delete has no clause, or stands twice.
    L5,
    /// There is no memory to keep the lemma.
    Memory,
}

impl From<AllocError> for LineFault {
    ghost from_gives = { λ _ fault. fault ≡ Memory };

    fn from(_error: AllocError) -> Self {
        LineFault::Memory
    }
}

impl<T: Drop> From<AllocFailed<T>> for LineFault {
    ghost from_gives = { λ _ fault. fault ≡ Memory };

    fn from(_failed: AllocFailed<T>) -> Self {
        LineFault::Memory
    }
}
