//! A model could not be loaded: a rule is broken, a library failed, or memory was wanting.

use base_types::{Name, Refusal};
use std::alloc::{AllocError, AllocFailed};

/// Why a model could not be loaded.
#[derive(Debug, Drop)]
pub enum LoadFault {
    /// A text breaks a rule of loading: the refusal, and the name of the text that has its place.
    Refused(Refusal, Name),
    /// A library failed when it was asked for this name.
    Read(Name),
    /// Want of memory.
    Memory,
}

impl From<AllocError> for LoadFault {
    ghost use Rattle.std.specs.Prelude.{◌≡◌};
    ghost use Rattle.load_state.specs.declared.fault.LoadFault.TheVariants.{Memory};

    ghost from_gives = { λ _ fault. fault ≡ Memory };

    fn from(_: AllocError) -> LoadFault {
        LoadFault::Memory
    }
}

impl<T: Drop> From<AllocFailed<T>> for LoadFault {
    ghost use Rattle.std.specs.Prelude.{◌≡◌};
    ghost use Rattle.load_state.specs.declared.fault.LoadFault.TheVariants.{Memory};

    ghost from_gives = { λ _ fault. fault ≡ Memory };

    fn from(_: AllocFailed<T>) -> LoadFault {
        LoadFault::Memory
    }
}
