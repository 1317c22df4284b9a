//! The search of a target's clauses for a lasso, and its decoding.

ghost use Rattle.std.specs.Prelude.{◌≡◌, IfOk, length};
ghost use Rattle.bound_uppers.specs.Table.{IsLayout};
ghost use Rattle.bound_uppers.specs.Candidates.{IsCandidate, Agrees, HasOneLoop};
ghost use Rattle.answer_search.specs.Clauses.{RulesOut, SaysTarget, SaysTargetWithin};
ghost use Rattle.answer_search.specs.Found.{IsFound, IsFoundWithin};

use crate::found::{Found, Proof};
use crate::written::clauses_of;
use base_types::Assignment;
use bmc_laws::values_tell;
use bound_laws::candidates_have_canonical;
use bound_naming::have_sets;
use bound_uppers::{Bounds, Layout, decode, layout, shortest};
use core_meaning::{Lasso, Target};
use sat_decide::Chooser;
use sat_lemmas::trim;
use sat_lrat::{Outcome, refutation_is_sound};
use sat_solver::solve_with;
use std::alloc::{AllocError, Global};

/// Searches for a lasso of the target within the bounds, of just as many states as these have. The only error is want of
/// memory.
///
/// A lasso lies within the bounds and meets the target. Where the lines refute the clauses, no lasso within the bounds of so
/// many states meets the target. The clauses ask for a canonical lasso; where there is any, there is one. The lemmas of a
/// refutation are new, and at most as many as the budget. The numbers of the variables are made once, and stay beside the clauses.
pub fn search_lasso<C: Chooser>(
    alloc: Global,
    target: &Target,
    bounds: &Bounds,
    chooser: &mut C,
    budget: Option<u64>,
) -> Result<Found, AllocError>
    ensures found { IfOk result (IsFound bounds.now.states budget) }
    ensures says { IfOk result (SaysTarget target.now bounds.now) }
    ensures none { IfOk result (RulesOut target.now bounds.now) }
{
    let states = bounds.states;
    let layout = layout(alloc, bounds)?;
    let cnf = clauses_of(alloc, target, bounds, &layout)?;
    match solve_with(alloc, &cnf, chooser, budget)? {
        Outcome::Assignment(assignment) => {
            values_tell();
            let lasso = lasso_of(alloc, bounds, &layout, &assignment)?;
            Ok(Found::Trace(lasso))
        }
        Outcome::Refutation(lines) => {
            refutation_is_sound();
            candidates_have_canonical();
            have_sets(bounds);
            let rest = trim(alloc, &cnf, lines)?;
            Ok(Found::Refuted(Proof {
                states,
                layout,
                cnf,
                lines: rest,
            }))
        }
        Outcome::Spent(lines) => Ok(Found::Unknown(Proof {
            states,
            layout,
            cnf,
            lines,
        })),
    }
}

/// Searches as `search_lasso` does, and cuts the lasso to as few states as its sequence allows. The only error is want of
/// memory.
pub fn search_target<C: Chooser>(
    alloc: Global,
    target: &Target,
    bounds: &Bounds,
    chooser: &mut C,
    budget: Option<u64>,
) -> Result<Found, AllocError>
    ensures found { IfOk result (IsFoundWithin bounds.now.states budget) }
    ensures says { IfOk result (SaysTargetWithin target.now bounds.now) }
    ensures none { IfOk result (RulesOut target.now bounds.now) }
{
    match search_lasso(alloc, target, bounds, chooser, budget)? {
        Found::Trace(lasso) => {
            let short = shortest(alloc, &lasso)?;
            Ok(Found::Trace(short))
        }
        Found::Refuted(proof) => Ok(Found::Refuted(proof)),
        Found::Unknown(proof) => Ok(Found::Unknown(proof)),
    }
}

/// The lasso for which an assignment of the table's variables stands.
fn lasso_of(
    alloc: Global,
    bounds: &Bounds,
    table: &Layout,
    assignment: &Assignment,
) -> Result<Lasso, AllocError>
    ensures count { IfOk result (λ lasso. length lasso.states ≡ bounds.now.states) }
    ensures candidate { IsLayout bounds.now table.now → IfOk result (IsCandidate bounds.now) }
    ensures agrees { IsLayout bounds.now table.now → HasOneLoop bounds.now assignment.now →
        IfOk result (Agrees bounds.now assignment.now) }
{
    if bounds.states == 0 {
        // Bounds have at least one state.
        return Err(AllocError);
    }
    decode(alloc, bounds, table, assignment)
}
