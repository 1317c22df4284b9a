//! The target of a command: the formulas that a lasso is to satisfy, in order.

ghost use Rattle.std.specs.Prelude.{◌≡◌, List, [], ◌∷◌, ◌++◌, All, IfOk};
ghost use Rattle.core_tree.specs.declared.operators.TemporalUnary.TheVariants.{Always as AlwaysOf};
ghost use Rattle.core_tree.specs.Trees.{claim_of, temporal};
ghost use Rattle.form_kernel.specs.Left.{IsLeft};
ghost use Rattle.form_target.specs.Targets.{IsWrittenOut, Adds, fact_claims, always_claims, SayDeclared, IsTargetOf};
ghost use Rattle.core_tree.specs.declared.tree.Formula.{Formula};

use crate::implied;
use core_meaning::{Scopes, Target};
use core_tree::{Command, Fact, Formula, FormulaList, Model, TemporalUnary};
use form_inline::inline;
use form_kernel::kernel;
use std::alloc::{AllocError, Global};

/// The formula with no call, no `let` and no derived operator.
#[tactic(auto, using(crate::proofs::Targets::written))]
fn written_out(alloc: Global, model: &Model, formula: &Formula) -> Result<Formula, AllocError>
    ensures { IfOk result (λ f. IsWrittenOut model.now.bodies (claim_of f) (claim_of formula.now)) }
{
    let flat = inline(alloc, model, formula)?;
    kernel(alloc, &flat)
}

/// `always f`, written out: `f` fails at no position.
#[tactic(auto, using(crate::proofs::Targets::written_always))]
fn always(alloc: Global, model: &Model, formula: &Formula) -> Result<Formula, AllocError>
    ensures { IfOk result (λ f. IsWrittenOut model.now.bodies (claim_of f)
        (temporal AlwaysOf (claim_of formula.now))) }
{
    let flat = inline(alloc, model, formula)?;
    let everywhere = Formula::Temporal(TemporalUnary::Always, Box::new(alloc, flat)?);
    kernel(alloc, &everywhere)
}

/// The formulas, asked of all positions and written out.
#[tactic(auto, using(crate::proofs::Targets::added_next, crate::proofs::Targets::added_whole, crate::proofs::Targets::added_nothing))]
fn all_always(alloc: Global, model: &Model, list: &[Formula]) -> Result<FormulaList, AllocError>
    ensures { IfOk result (λ all. Adds model.now.bodies [] all (always_claims list.now)) }
{
    let mut all = FormulaList::new(alloc);
    for formula in list {
        let everywhere = always(alloc, model, formula)?;
        all.push(everywhere)?;
    }
    Ok(all)
}

/// What the declarations ask of all positions, a formula each.
#[tactic(auto, using(crate::proofs::Targets::asked_of))]
fn declarations(alloc: Global, model: &Model) -> Result<FormulaList, AllocError>
    ensures { IfOk result (λ all. (asked : List Formula)
        × Adds model.now.bodies [] all (always_claims asked) × SayDeclared model.now asked) }
{
    let list = implied(alloc, model)?;
    all_always(alloc, model, &list)
}

/// The formulas, and one more for each fact.
#[tactic(auto, using(crate::proofs::Targets::added_next, crate::proofs::Targets::added_whole, crate::proofs::Targets::added_nothing))]
fn with_facts(
    alloc: Global,
    model: &Model,
    facts: &[Fact],
    before: FormulaList,
) -> Result<FormulaList, AllocError>
    ensures { IfOk result (λ all. Adds model.now.bodies before all (fact_claims facts.now)) }
{
    let mut formulas = before;
    for fact in facts {
        let formula = written_out(alloc, model, &fact.formula)?;
        formulas.push(formula)?;
    }
    Ok(formulas)
}

/// The formulas, one more for each fact, and one for the command.
#[tactic(auto, using(crate::proofs::Targets::added_last))]
fn with_parts(
    alloc: Global,
    model: &Model,
    command: &Command,
    before: FormulaList,
) -> Result<FormulaList, AllocError>
    ensures { IfOk result (λ all. Adds model.now.bodies before all
        (fact_claims model.now.facts ++ claim_of command.now.formula ∷ [])) }
{
    let mut formulas = with_facts(alloc, model, model.facts.as_slice(), before)?;
    let asked = written_out(alloc, model, &command.formula)?;
    formulas.push(asked)?;
    Ok(formulas)
}

/// The target of a command: the declarations, then a formula for each fact, and last the command's. The second number is
/// that of the declarations' formulas.
///
/// Each formula has only the forms that `kernel` leaves. A lasso satisfies the target exactly where
/// it keeps the scopes' numbers, nothing that the declarations ask fails at any position, and the
/// facts and the command hold at position 0.
#[tactic(auto, using(crate::proofs::Targets::target_left, crate::proofs::Targets::target_is))]
pub fn target_of(
    alloc: Global,
    model: &Model,
    scopes: &Scopes,
    command: &Command,
) -> Result<(Target, u32), AllocError>
    ensures forms { IfOk result (λ r. All (λ f. IsLeft (claim_of f)) r.0.formulas) }
    ensures target { IfOk result (λ r. IsTargetOf model.now scopes.now
        (claim_of command.now.formula) r.0 r.1) }
    ensures scopes { IfOk result (λ r. r.0.scopes ≡ scopes.now) }
{
    let declared = declarations(alloc, model)?;
    let Ok(first_fact) = u32::try_from(declared.len()) else {
        return Err(AllocError);
    };
    let formulas = with_parts(alloc, model, command, declared)?;
    let target = Target {
        formulas,
        scopes: scopes.copy(alloc)?,
    };
    Ok((target, first_fact))
}
