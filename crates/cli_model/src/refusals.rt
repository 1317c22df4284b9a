//! A text that is refused, and a library that failed, are answers too.

ghost use Rattle.std.specs.Prelude.{◌≡◌, IfOk};
ghost use Rattle.cli_model.specs.Files.{at_start};

use crate::Answer;
use crate::files::at_start;
use base_types::{Name, Refusal, Rule};
use std::alloc::{AllocError, Global};

/// The text of this name breaks a rule as a whole.
pub fn refused(alloc: Global, rule: Rule, name: &str) -> Result<Answer, AllocError>
    ensures { IfOk result (λ answer. answer ≡ Answer.Refused (at_start rule) name.now) }
{
    refused_at(alloc, at_start(rule), name)
}

/// The text of this name is refused so.
pub fn refused_at(alloc: Global, refusal: Refusal, name: &str) -> Result<Answer, AllocError>
    ensures { IfOk result (λ answer. answer ≡ Answer.Refused refusal name.now) }
{
    Ok(Answer::Refused(refusal, Name::copy(alloc, name)?))
}

/// A library failed at this name.
pub fn read_fault(alloc: Global, name: &str) -> Result<Answer, AllocError>
    ensures { IfOk result (λ answer. answer ≡ Answer.ReadFault name.now) }
{
    Ok(Answer::ReadFault(Name::copy(alloc, name)?))
}
