//! Why a text isn't read as a trace.

/// Why a text isn't read as a trace.
#[derive(Clone, Copy, Debug, PartialEq, Eq, thiserror::Error)]
pub enum TraceFault {
    /// With this line, counted from 1, the text stops being that of a trace.
    #[error("line {line} is none of a trace")]
    BadTrace { line: u32 },
    /// Memory was wanting.
    #[error("memory was wanting")]
    Memory,
}
