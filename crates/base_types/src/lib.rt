//! What every part of the analyser stands on.
//!
//! The outside is seen through two traits: a [`Library`] gives texts by their names, and a
//! [`Sink`] takes the bytes of an answer. Both count how often they have failed, so that a
//! caller's contract can say why it gave up. Beside them stand the refusals (which rule a source
//! breaks, and where), the limits, and owned texts, bytes and truth values that contracts see as
//! lists.
#![tactic(auto)]

mod assignment;
mod fault;
mod library;
pub mod limits;
mod list;
mod memory;
mod place;
mod sink;
mod text;

pub use assignment::Assignment;
pub use fault::Fault;
pub use library::{Fetch, FetchFault, Library};
pub use list::Libraries;
pub use memory::{MemoryLibrary, MemorySink};
pub use place::{Position, Refusal, Rule};
pub use sink::{Sink, SinkFault};
pub use text::{Bytes, Name};
