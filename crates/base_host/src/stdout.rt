//! The standard output as a sink.

ghost use Rattle.std.specs.Prelude.{◌≡◌, None};

use base_types::{Sink, SinkFault};

/// The standard output. Nothing is told of what it has got.
///
/// A piece is written in a loop; a write that fails, or takes no byte, raises the count.
#[derive(Drop)]
pub struct StdSink<R> {
    rt: R,
    faults: u64,
}

impl<R: Print + Drop> StdSink<R> {
    /// The standard output of this runtime, which it keeps.
    pub fn new(rt: R) -> StdSink<R> {
        StdSink { rt, faults: 0 }
    }
}

impl<R: Print + Drop> Sink for StdSink<R> {
    ghost got = { λ sink. None };

    ghost write_faults = { λ sink. sink.faults };

    fn write(&mut self, bytes: &[u8]) -> Result<(), SinkFault> {
        if writes_whole(&self.rt, bytes) {
            return Ok(());
        }
        self.faults = self.faults.saturating_add(1);
        Err(SinkFault)
    }
}

/// Writes all of the bytes, or up to the first write that fails or takes none.
fn writes_whole<R: Print>(rt: &R, bytes: &[u8]) -> bool {
    let mut rest = bytes;
    while !rest.is_empty() {
        match rt.write_some(rest) {
            Err(_) | Ok(0) => return false,
            Ok(count) => rest = &rest[count..],
        }
    }
    true
}
