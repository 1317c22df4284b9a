//! A target without some of its facts.

ghost use Rattle.std.specs.Prelude.{◌≡◌, ◌≢◌, ◌<◌, ◌++◌, ◌∷◌, [], ℕ, true, length, map, IfOk, OnOk, if◌then◌else◌};
ghost use Rattle.core_tree.specs.Trees.{claim_of};
ghost use Rattle.answer_certificates.specs.Core.{AreKept};
ghost use Rattle.answer_certificates.specs.Parts.{is_out, stays, IsPartOf, AreLeftOut};

use crate::facts::NumberList;
use core_meaning::Target;
use core_tree::{Formula, FormulaList};
use std::alloc::{AllocError, Global};

/// Whether the fact at a place is left out; there is one flag for each fact.
pub fn is_dropped(dropped: &[bool], fact: usize) -> bool
    ensures { result ≡ is_out dropped.now fact }
{
    if fact < dropped.len() {
        return dropped[fact];
    }
    false
}

/// Leaves a fact out.
pub fn drop_fact(dropped: &mut [bool], fact: usize)
    ensures count { length dropped.new ≡ length dropped.old }
    ensures out { fact < length dropped.old → is_out dropped.new fact ≡ true }
    ensures others { (k : ℕ) → k ≢ fact → is_out dropped.new k ≡ is_out dropped.old k }
{
    if fact < dropped.len() {
        dropped[fact] = true;
    }
}

/// Whether the formula at a place stays; that of the first fact stands at `first`.
fn stays(first: usize, dropped: &[bool], place: usize) -> bool
    ensures { result ≡ stays first dropped.now place }
{
    place < first || !is_dropped(dropped, place - first)
}

/// Adds a copy of a formula, if it stays.
fn push_copy(
    alloc: Global,
    formulas: &mut FormulaList,
    formula: &Formula,
    stay: bool,
) -> Result<(), AllocError>
    ensures { OnOk result (map claim_of formulas.new ≡ map claim_of formulas.old
        ++ (if stay then claim_of formula.now ∷ [] else [])) }
{
    if !stay {
        return Ok(());
    }
    let copy = formula.copy(alloc)?;
    formulas.push(copy)?;
    Ok(())
}

/// The target without the facts that are left out; the formula of the first fact stands at `first`.
pub fn part_of(
    alloc: Global,
    target: &Target,
    first: usize,
    dropped: &[bool],
) -> Result<Target, AllocError>
    ensures { IfOk result (IsPartOf target.now first dropped.now) }
{
    let mut formulas = FormulaList::new(alloc);
    for place in 0..target.formulas.len() {
        let stay = stays(first, dropped, place);
        push_copy(alloc, &mut formulas, target.formulas.get(place), stay)?;
    }
    let scopes = target.scopes.copy(alloc)?;
    Ok(Target { formulas, scopes })
}

/// Adds the number of a fact that isn't left out.
fn push_kept(kept: &mut NumberList, fact: u32, is_left_out: bool) -> Result<(), AllocError>
    ensures { OnOk result (kept.new ≡ kept.old ++ (if is_left_out then [] else fact ∷ [])) }
{
    if is_left_out {
        return Ok(());
    }
    kept.push(fact)?;
    Ok(())
}

/// The numbers of the facts that are kept.
pub fn kept_facts(alloc: Global, facts: u32, dropped: &[bool]) -> Result<NumberList, AllocError>
    requires { length dropped.now ≡ facts }
    ensures kept { IfOk result (AreKept facts) }
    ensures left_out { IfOk result (λ kept. AreLeftOut facts kept dropped.now) }
{
    let mut kept = NumberList::new(alloc);
    for fact in 0..facts {
        push_kept(&mut kept, fact, is_dropped(dropped, fact as usize))?;
    }
    Ok(kept)
}
