//! A law: what is ruled out of a model that was made ready.

ghost use Rattle.answer_analysis.specs.Found.{RuledOutMeansNone};

use bound_laws::satisfying_lassos_are_candidates;

/// A law: where the target of a model that was made ready is ruled out within the bounds of the model over some number of states,
/// no lasso of at most so many states satisfies the model and its command.
pub fn ruled_out_means_none()
    ensures { RuledOutMeansNone }
{
    satisfying_lassos_are_candidates();
}
