//! What values of a table's variables tell of lassos.
//! Each lasso within the bounds is one for which some values of the table's variables stand.
#![tactic(auto)]

ghost use Rattle.bmc_laws.specs.TableTold.{CandidatesAreTold, StandingHaveOneLoop, AgreeingAreDecoded, AlikeStand};

use bound_uppers::rows_rise;

/// A law: each lasso within the bounds is one for which some values of the table's variables stand.
pub fn candidates_are_told()
    ensures { CandidatesAreTold }
{
    rows_rise();
}

/// A law: values of the table's variables that stand for a lasso choose one loop; a lasso within the bounds of which they
/// tell is one for which they stand; and values that are the same on these variables stand for the same lassos.
pub fn values_tell()
    ensures one_loop { StandingHaveOneLoop }
    ensures decoded { AgreeingAreDecoded }
    ensures alike { AlikeStand }
{
    rows_rise();
}
