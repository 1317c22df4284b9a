//! Searches whose answers say why they are the best.
//!
//! One is for a trace of the fewest states: with it come clauses that say what a trace of one
//! state less is, and lines that refute them (`search`, `least`). The other is for facts that rule
//! out every trace, together with the declarations and the command: they are found by leaving out
//! one fact after the other (`shrink`, `kept`). A law says what they rule out of the model.
//! Not proved: that none of these facts is to spare.
#![tactic(auto)]

mod answer;
mod search;

pub use answer::Least;
pub use search::find_least;

mod facts;
mod part;
mod reach;
mod shrink;

ghost use Rattle.answer_certificates.specs.Encoded.{UnitsSayModel, UnitsSayPart, UnitsSayKept};
ghost use Rattle.answer_certificates.specs.Kept.{KeptFactsRuleOut};

use bound_laws::satisfying_lassos_are_candidates;
pub use facts::{Core, NumberList};
pub use shrink::find_core;

/// A law: where clauses rule out what a target does with some of a model's facts alone, no lasso of
/// at most as many states as the bounds satisfies the declarations, these facts and the command.
/// The model was made ready.
pub fn kept_facts_rule_out()
    ensures { KeptFactsRuleOut }
{
    satisfying_lassos_are_candidates();
}

/// A law: where clauses say what the target of a model that was made ready does, their units are
/// one for the naming, some for the scopes and the declarations together, one for each fact, in
/// order, and the last for the command. Where they say it without the formulas of some facts, they
/// have one for each of the other facts alone.
pub fn units_say_the_model()
    ensures whole { UnitsSayModel }
    ensures part { UnitsSayPart }
    ensures kept { UnitsSayKept }
{}

mod certificate;
mod kept;
mod least;

pub use certificate::{Certificate, trace_shown};
pub use kept::core_certificate;
pub use least::least_certificate;
