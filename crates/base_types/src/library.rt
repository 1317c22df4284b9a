//! A library of texts, which counts how often it has failed.

ghost use Rattle.std.specs.Prelude.{◌≡◌, ℕ, Option, Some, Ok};
ghost use Rattle.base_types.specs.Texts.{Texts, Answers};
ghost use Rattle.base_types.specs.Causes.{FetchCause};
ghost use Rattle.base_types.specs.declared.library.FetchFault.TheVariants.{Memory};

use std::alloc::{AllocError, Global};
use thiserror::Error;

/// What a library has under a name.
#[derive(Debug, Drop)]
pub enum Fetch {
    /// The front of the text.
    Found(Vec<u8>),
    /// No text.
    Absent,
}

/// Why a library gives no answer.
#[derive(Clone, Copy, Debug, PartialEq, Eq, Error)]
pub enum FetchFault {
    /// The text can't be read. The library's count of faults has risen.
    #[error("the library cannot read the file")]
    Failed,
    /// There was no memory for the answer.
    #[error("not enough memory")]
    Memory,
}

impl From<AllocError> for FetchFault {
    ghost from_gives = { λ _ fault. fault ≡ Memory };

    fn from(_: AllocError) -> Self {
        FetchFault::Memory
    }
}

/// A library of texts. What it holds is optional: one over real files doesn't tell it.
pub trait Library: Drop {
    /// The names and texts that it holds, where it tells them. No call changes them.
    ghost holds: { Self → Option Texts };

    /// How often it has failed. The count never falls, and stays at the greatest `u64` once it is there.
    ghost faults: { Self → ℕ };

    /// The first `most` bytes of the first text with this name, or all of them where there are fewer.
    fn fetch(&mut self, alloc: Global, name: &str, most: usize) -> Result<Fetch, FetchFault>
        ensures keeps { holds self.new ≡ holds self.old }
        ensures answer { (texts : Texts) (fetch : _) → holds self.old ≡ Some texts →
            result ≡ Ok fetch → Answers texts name.now most fetch }
        ensures cause { FetchCause (faults self.old) (faults self.new) result };
}
