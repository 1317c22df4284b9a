//! A rule, and the first place at which it is broken, as a refusal.

ghost use Rattle.std.specs.Prelude.{◌≡◌};
ghost use Rattle.base_types.specs.declared.fault.Fault.TheVariants.{Refused};
ghost use Rattle.bound_scopes.specs.Limits.{asked};

use base_types::{Fault, Position, Refusal, Rule};
use core_tree::Origin;

/// A broken rule and its place.
pub(crate) fn refused(rule: Rule, place: Position) -> Fault
    ensures { result ≡ Refused (record { rule = rule; place = place }) }
{
    Fault::Refused(Refusal { rule, place })
}

/// Asks that there is no place at which a rule is broken.
pub(crate) fn ask(rule: Rule, found: Option<Origin>) -> Result<(), Fault>
    ensures { result ≡ asked rule found }
{
    match found {
        None => Ok(()),
        Some(at) => Err(refused(rule, at.place)),
    }
}
