//! Why there is no analysis: a refusal, a library that failed, or want of memory.

ghost use Rattle.answer_analysis.specs.Found.{IsLoadedFault, IsOfModel};

use base_types::{Name, Refusal};
use std::alloc::{AllocError, AllocFailed, Global};
use syntax_tree::Loaded;

/// Why there is no analysis.
#[derive(Debug, Drop)]
pub enum AnalyseFault {
    /// A text breaks a static rule: the refusal, and the name of the text that has its place.
    Refused(Refusal, Name),
    /// A library failed when it was asked for this name.
    Read(Name),
    /// Want of memory.
    Memory,
}

impl From<AllocError> for AnalyseFault {
    ghost use Rattle.std.specs.Prelude.{◌≡◌};
    ghost use Rattle.answer_analysis.specs.declared.fault.AnalyseFault.TheVariants.{Memory};

    ghost from_gives = { λ _ fault. fault ≡ Memory };

    fn from(_: AllocError) -> AnalyseFault {
        AnalyseFault::Memory
    }
}

impl<T: Drop> From<AllocFailed<T>> for AnalyseFault {
    ghost use Rattle.std.specs.Prelude.{◌≡◌};
    ghost use Rattle.answer_analysis.specs.declared.fault.AnalyseFault.TheVariants.{Memory};

    ghost from_gives = { λ _ fault. fault ≡ Memory };

    fn from(_: AllocFailed<T>) -> AnalyseFault {
        AnalyseFault::Memory
    }
}

/// The refusal of a command of this number, with the name of the loaded text that has its place. No refusal of a model has its
/// place in another text.
#[tactic(auto, using(crate::proofs::FaultLaw::named_fault))]
pub fn refused_in(alloc: Global, loaded: &Loaded, command: u32, refusal: Refusal) -> AnalyseFault
    requires { IsOfModel loaded.now command refusal }
    ensures { IsLoadedFault loaded.now command result }
{
    // Only the clauses name it.
    let _ = command;
    let texts = &loaded.texts;
    let number = refusal.place.module as usize;
    if number >= texts.len() {
        return AnalyseFault::Memory;
    }
    match Name::copy(alloc, texts.get(number).name.text()) {
        Ok(name) => AnalyseFault::Refused(refusal, name),
        Err(_) => AnalyseFault::Memory,
    }
}
