//! A sink for bytes, which counts how often it has failed.

ghost use Rattle.std.specs.Prelude.{◌≡◌, ℕ, List, Option};
ghost use Rattle.base_types.specs.Causes.{Writes, WriteCause};

use thiserror::Error;

/// The sink did not take the whole piece. Its count of faults has risen.
#[derive(Clone, Copy, Debug, PartialEq, Eq, Error)]
#[error("the output cannot be written")]
pub struct SinkFault;

/// A sink for bytes. What it has got is optional: the standard output doesn't tell.
pub trait Sink {
    /// The bytes that it has got, where it tells them.
    ghost got: { Self → Option (List ℕ) };

    /// How often it has failed. The count never falls, and stays at the greatest `u64` once it is there.
    ghost write_faults: { Self → ℕ };

    /// Writes the whole piece, or fails after a part from its front.
    fn write(&mut self, bytes: &[u8]) -> Result<(), SinkFault>
        ensures bytes { Writes (got self.old) (got self.new) result bytes.now }
        ensures cause { WriteCause (write_faults self.old) (write_faults self.new) result };
}
