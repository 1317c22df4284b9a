//! Whether a lasso satisfies a model and the formula of a command.
#![tactic(auto)]

ghost use Rattle.std.specs.Prelude.{◌↔◌, ℕ, All, IfOk, IsTrue};
ghost use Rattle.core_tree.specs.declared.model.Fact.{Fact as FactOf};
ghost use Rattle.core_tree.specs.Trees.{claim_of};
ghost use Rattle.core_meaning.specs.Meaning.{no_names};
ghost use Rattle.core_meaning.specs.Satisfied.{HoldsAt, DeclaresAt, Satisfies};

use core_meaning::{Lasso, Scopes};
use core_tree::{Fact, Formula, Model};
use eval_trace::{declared, holds, keeps};
use std::alloc::{AllocError, Global};

/// Whether the declarations of the model hold at every position.
fn is_declared(
    alloc: Global,
    model: &Model,
    scopes: &Scopes,
    lasso: &Lasso,
) -> Result<bool, AllocError>
    ensures { IfOk result (λ b. IsTrue b ↔ ((i : ℕ) →
        DeclaresAt model.now scopes.now lasso.now i)) }
{
    match declared(alloc, model, scopes, lasso)? {
        Some(_) => Ok(false),
        None => Ok(true),
    }
}

/// Whether each of these facts holds at position 0.
fn facts_hold(
    alloc: Global,
    model: &Model,
    scopes: &Scopes,
    lasso: &Lasso,
    facts: &[Fact],
) -> Result<bool, AllocError>
    ensures { IfOk result (λ b. IsTrue b ↔ All (λ (f : FactOf).
        HoldsAt model.now scopes.now lasso.now (claim_of f.formula) no_names 0) facts.now) }
{
    for fact in facts {
        let truth = holds(alloc, model, scopes, lasso, &fact.formula, 0)?;
        if !truth {
            return Ok(false);
        }
    }
    Ok(true)
}

/// Whether a lasso satisfies a model and the formula of a command: it keeps the scopes, the declarations hold at every
/// position of its infinite sequence, and each fact and the command's formula hold at position 0.
///
/// This rests on the meaning alone, and on no circuit and no clause. Where the evaluator has no answer, the answer is that of
/// want of memory.
pub fn satisfies(
    alloc: Global,
    model: &Model,
    scopes: &Scopes,
    lasso: &Lasso,
    command: &Formula,
) -> Result<bool, AllocError>
    ensures { IfOk result (λ b. IsTrue b ↔ Satisfies model.now scopes.now lasso.now
        (claim_of command.now)) }
{
    let kept = keeps(alloc, model, scopes, lasso)?;
    if !kept {
        return Ok(false);
    }
    let declared = is_declared(alloc, model, scopes, lasso)?;
    if !declared {
        return Ok(false);
    }
    let facts = facts_hold(alloc, model, scopes, lasso, model.facts.as_slice())?;
    if !facts {
        return Ok(false);
    }
    let last = holds(alloc, model, scopes, lasso, command, 0)?;
    Ok(last)
}
