//! Laws: each lasso that satisfies a model and a command has a renaming among those of the search,
//! and of these a canonical one is enough.
#![tactic(auto)]

ghost use Rattle.bound_laws.specs.Satisfying.{SatisfyingAreCandidates};
ghost use Rattle.bound_laws.specs.Canonical.{CandidatesHaveCanonical};

use bound_uppers::{lassos_unroll, rows_rise};
use core_laws::{relations_have_rows, same_sequences_satisfy_the_same};
use core_renaming::{lassos_have_renamed, renaming_keeps_models};

/// A law: a lasso of at most as many states as the bounds that satisfies a model with some facts, and
/// a command, has a renaming that is a candidate and satisfies them.
pub fn satisfying_lassos_are_candidates()
    ensures { SatisfyingAreCandidates }
{
    lassos_unroll();
    same_sequences_satisfy_the_same();
    relations_have_rows();
    lassos_have_renamed();
    renaming_keeps_models();
}

/// A law: where a candidate satisfies a target, a canonical candidate does so too.
pub fn candidates_have_canonical()
    ensures { CandidatesHaveCanonical }
{
    rows_rise();
    renaming_keeps_models();
}
