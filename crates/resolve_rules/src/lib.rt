//! The rules on readings and on calls, as definitions, and which of them a root breaks.
//!
//! The definitions are in specs/. The function says which rule is broken by what was decided of a
//! root.
#![tactic(auto)]

ghost use Rattle.std.specs.Prelude.{◌≡◌, IfSome};
ghost use Rattle.resolve_readings.specs.declared.part.Typing.{Typing};
ghost use Rattle.resolve_readings.specs.declared.part.Part.{Part};
ghost use Rattle.resolve_readings.specs.Readings.{count_choices, Decides, IsWithin};
ghost use Rattle.resolve_rules.specs.Roots.{IsBroken};

use base_types::Rule;
use resolve_readings::Outcome;

/// The rule that a root breaks of which this was decided; None where it has a reading.
pub fn rule_of(outcome: &Outcome) -> Option<Rule>
    ensures { (typing : Typing) (root : Part) → Decides typing root outcome.now →
        IsWithin (count_choices root) outcome.now → IfSome result (λ r. IsBroken typing root r) }
{
    match outcome {
        Outcome::Read(_) => None,
        Outcome::NoReading => Some(Rule::NoReading),
        Outcome::Ambiguous => Some(Rule::Ambiguous),
        Outcome::TooMany => Some(Rule::TooManyReadings),
    }
}
