//! The search for a lasso with one state, with two, and on.

ghost use Rattle.std.specs.Prelude.{◌≡◌, IfOk};
ghost use Rattle.answer_certificates.specs.Least.{IsLeast};

use crate::answer::Least;
use answer_search::{Found, Proof, search_lasso};
use bound_uppers::Bounds;
use core_meaning::Target;
use sat_decide::Chooser;
use std::alloc::{AllocError, Global};

/// Looks for a lasso of the target with one state, then with two, up to as many as its scopes have, within the bounds of the
/// model, whose number of states becomes that of each search. The budget counts for each search. The only error is want of
/// memory.
///
/// A lasso lies within the bounds and meets the target. What is refuted rules out every lasso within these bounds of so many
/// states; its lemmas are new, and at most as many as the budget.
pub fn find_least<C: Chooser>(
    alloc: Global,
    target: &Target,
    bounds: &mut Bounds,
    chooser: &mut C,
    budget: Option<u64>,
) -> Result<Least, AllocError>
    ensures relations { bounds.new.relations ≡ bounds.old.relations }
    ensures least { IfOk result (IsLeast target.now bounds.old.relations budget) }
{
    let mut below: Option<Proof> = None;
    for fewer in 0..target.scopes.states {
        // The relations' bounds are the same for every number of states.
        bounds.states = fewer + 1;
        match search_lasso(alloc, target, &*bounds, chooser, budget)? {
            Found::Trace(lasso) => return Ok(Least::Trace { lasso, below }),
            Found::Unknown(proof) => return Ok(Least::Unknown(proof)),
            Found::Refuted(proof) => below = Some(proof),
        }
    }
    match below {
        Some(proof) => Ok(Least::Refuted(proof)),
        // Scopes have at least one state.
        None => Err(AllocError),
    }
}
