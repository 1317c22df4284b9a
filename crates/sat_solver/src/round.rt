//! One turn of the search: it propagates, and then learns from a conflict or decides.

ghost use Rattle.std.specs.Prelude.{◌≡◌, ◌≢◌, ℕ, ℤ, pos, ◌+◌, ◌-◌, ◌<◌, ◌≤◌, ◌⊎◌, ◌↔◌, List, Option, Some, IfOk, OnOk, IfSome, IfNone, IsTrue, IsFalse, length};
ghost use Rattle.std.specs.List.{All};
ghost use Rattle.sat_lrat.specs.declared.line.Line.{Line};
ghost use Rattle.sat_lrat.specs.Step.{State};
ghost use Rattle.sat_trail.specs.Literal.{IsLiteral};
ghost use Rattle.sat_trail.specs.Literal as spec;
ghost use Rattle.sat_trail.specs.Assignment.{value_at};
ghost use Rattle.sat_trail.specs.Sound.{IsFree, IsOpen};
ghost use Rattle.sat_trail.specs.Watched.{IsTrueIn, IsFalseIn};
ghost use Rattle.sat_trail.specs.State.{IsAttached};
ghost use Rattle.sat_analysis.specs.Learnt.{IsLearnt};
ghost use Rattle.sat_solver.specs.Shared.{AreShared};
ghost use Rattle.sat_dropped.specs.Entries.{Entries, HasEntry, entry_count};
ghost use Rattle.sat_solver.specs.Covered.{IsIndexed, HasNoPart};
ghost use Rattle.sat_solver.specs.Searched.{IsSearch, IsFull};
ghost use Rattle.sat_solver.specs.News.{behind};
ghost use Rattle.sat_solver.specs.Remaining.{remaining};
ghost use Rattle.sat_solver.specs.Turn.{IsKept, IsTurn, AreWithin, GoesOn};

use crate::load::{clause_of, count_of, hints_of, is_literal, level_count};
use crate::pace::Pace;
use crate::store::{Store, reduce};
use sat_analysis::Analysis;
use sat_decide::Chooser;
use sat_lemmas::{LemmaLog, Taken};
use sat_lrat::Line;
use sat_trail::Trail;
use std::alloc::{AllocError, Global};

/// What a step of the search comes to.
#[derive(Clone, Copy, Debug, PartialEq, Eq)]
pub(crate) enum Turn {
    /// The search goes on.
    On,
    /// The clauses are refuted.
    Refuted,
    /// Each variable has a value, and nothing is false.
    Full,
    /// There are as many lemmas as the budget allows.
    Spent,
}

/// Raises the weights of the variables of false literals that a conflict came from.
fn bump_all<C: Chooser>(chooser: &mut C, literals: &[i64]) {
    for literal in literals {
        if let Some(its_negation) = literal.checked_neg() {
            chooser.bump(its_negation);
        }
    }
}

/// Whether a variable of this value is free.
#[inline]
fn is_zero(value: &i8) -> bool
    ensures { IsTrue result ↔ (value.now ≡ pos 0) }
{
    *value == 0
}

/// The negation of the least free variable, if there is one.
fn least_free(values: &[i8]) -> Option<i64>
    ensures some { IfSome result (λ l. IsLiteral (length values.now) l
        × (value_at values.now (spec.index l) ≡ pos 0)) }
    ensures none { IfNone result ((i : ℕ) → i < length values.now → value_at values.now i ≡ pos 0 →
        ⊥) }
{
    for place in 0..values.len() {
        if is_zero(&values[place]) {
            return Some(-(place as i64) - 1);
        }
    }
    None
}

/// Whether a literal is one of a free variable.
fn can_assign(trail: &Trail, literal: i64) -> bool
    ensures literal { IsTrue result → IsLiteral trail.now.variables literal }
    ensures free { IsTrue result → IsFree trail.now.assignment.trail literal }
{
    is_literal(trail.values().len(), literal) && trail.is_free(literal)
}

/// A free literal, the picked one if it is free, or none where no variable is free.
fn free_literal(trail: &Trail, picked: i64) -> Option<i64>
    ensures free { IfSome result (λ l. IsLiteral trail.now.variables l
        × IsFree trail.now.assignment.trail l) }
    ensures full { IfNone result (IsFull trail.now) }
{
    if can_assign(trail, picked) {
        return Some(picked);
    }
    // for the proof: this call's clauses say what a trail keeps
    let _literals = trail.trail();
    least_free(trail.values())
}

/// Makes a free literal true, if there is one.
fn decide<C: Chooser>(trail: &mut Trail, chooser: &mut C) -> Turn
    requires settled { (i : ℕ) → IsAttached trail.old i →
        IsTrueIn trail.old.literals trail.old.ends trail.old.assignment.trail i
        ⊎ IsOpen trail.old.literals trail.old.ends trail.old.assignment.trail i }
    ensures variables { trail.new.variables ≡ trail.old.variables }
    ensures turn { (formula : List (List ℤ)) (budget : Option ℕ) (lines : List Line)
        (state : State) (count : ℕ) (d : Entries) →
        IsSearch formula lines state trail.old count d →
        IsTurn formula budget result lines state trail.new count d }
    ensures longer { result ≡ Turn.On → length trail.new.assignment.trail
        ≡ length trail.old.assignment.trail + 1 }
{
    // for the proof: this call's clauses say what a trail keeps
    let _literals = trail.trail();
    let picked = chooser.pick(trail.values());
    match free_literal(trail, picked) {
        Some(literal) => {
            trail.assign(literal);
            Turn::On
        }
        None => Turn::Full,
    }
}

/// Whether the lemmas so far are as many as the budget allows.
fn is_spent(budget: Option<u64>, count: usize) -> bool
    ensures spent { IsTrue result → budget ≡ Some count }
    ensures left { IsFalse result → budget ≢ Some count }
{
    match budget {
        Some(limit) => limit == count as u64,
        None => false,
    }
}

/// Keeps what was learnt: the trail goes back and has the clause, and the checker takes the lemma, which passes.
fn keep(
    alloc: Global,
    log: &mut LemmaLog,
    trail: &mut Trail,
    analysis: &Analysis,
) -> Result<Taken, AllocError>
    requires shared { AreShared trail.old log.old.checker }
    requires literals { All (IsLiteral trail.old.variables) analysis.now.literals.items }
    requires learnt { IsLearnt trail.old analysis.now.literals.items analysis.now.hints.items
        analysis.now.back_to }
    ensures variables { trail.new.variables ≡ trail.old.variables }
    ensures passes { IfOk result (λ taken. taken ≢ Taken.Failed) }
    ensures more { OnOk result (length log.new.lines ≡ length log.old.lines + 1) }
    ensures indexed { (d : Entries) → IsIndexed trail.old d →
        OnOk result (IsIndexed trail.new d) }
    ensures fewer { (formula : List (List ℤ)) (count : ℕ) (d : Entries) →
        IsSearch formula log.old.lines log.old.checker trail.old count d →
        HasNoPart trail.old d analysis.now.literals.items →
        IfOk result (λ taken. taken ≡ Taken.Added →
        remaining trail.old.variables (behind formula log.new.lines)
        < remaining trail.old.variables (behind formula log.old.lines)) }
    ensures taken { (formula : List (List ℤ)) (count : ℕ) (d : Entries) →
        IsSearch formula log.old.lines log.old.checker trail.old count d →
        HasNoPart trail.old d analysis.now.literals.items →
        IfOk result (λ taken.
        IsKept formula taken log.new.lines log.new.checker trail.new count d) }
{
    // for the proof: this call's clauses say what a trail keeps
    let _literals = trail.trail();
    let clause = clause_of(alloc, count_of(trail.values()), &analysis.literals)?;
    let hints = hints_of(alloc, &analysis.hints)?;
    trail.undo_to(analysis.back_to);
    let id = trail.add_clause(&clause)?;
    let taken = log.take(Line::Lemma { id, clause, hints })?;
    Ok(taken)
}

/// Goes back to level 0 where this is due, and lets old weights count less.
fn count_conflict<C: Chooser>(trail: &mut Trail, levels: u64, chooser: &mut C, pace: &mut Pace)
    ensures variables { trail.new.variables ≡ trail.old.variables }
    ensures indexed { (d : Entries) → IsIndexed trail.old d → IsIndexed trail.new d }
    ensures search { (formula : List (List ℤ)) (lines : List Line) (state : State) (count : ℕ)
        (d : Entries) → IsSearch formula lines state trail.old count d →
        IsSearch formula lines state trail.new count d }
{
    chooser.decay();
    pace.take_levels(levels);
    if pace.is_restart_due() {
        trail.undo_to(0);
    }
}

/// Goes on behind a new lemma: it may go back to level 0, and may drop lemmas.
fn go_on<C: Chooser>(
    alloc: Global,
    trail: &mut Trail,
    literals: &[i64],
    store: &mut Store,
    chooser: &mut C,
    pace: &mut Pace,
) -> Result<(), AllocError>
    requires indexed { IsIndexed trail.old store.old.dropped }
    ensures variables { trail.new.variables ≡ trail.old.variables }
    ensures search { (formula : List (List ℤ)) (lines : List Line) (state : State) →
        IsSearch formula lines state trail.old store.old.first store.old.dropped →
        OnOk result (IsSearch formula lines state trail.new store.new.first store.new.dropped) }
{
    // A variable that has been undone keeps the level that it had last.
    let levels = level_count(trail, literals);
    count_conflict(trail, levels, chooser, pace);
    store.policy.add(levels, literals.len())?;
    if !store.policy.is_due() {
        return Ok(());
    }
    reduce(alloc, trail, store)?;
    Ok(())
}

/// Attaches a dropped lemma again, at level 0.
fn take_back(trail: &mut Trail, number: u64) -> Result<(), AllocError>
    requires number { (0 < number) × (number ≤ length trail.old.ends) }
    ensures variables { trail.new.variables ≡ trail.old.variables }
    ensures search { (formula : List (List ℤ)) (lines : List Line) (state : State) (count : ℕ)
        (d e : Entries) → IsSearch formula lines state trail.old count d →
        IsIndexed trail.old e →
        ((n : ℕ) → HasEntry d n → HasEntry e n ⊎ (Some number ≡ Some n)) →
        OnOk result (IsSearch formula lines state trail.new count e) }
{
    // for the proof: this call's clauses say what a trail keeps
    let _literals = trail.trail();
    trail.undo_to(0);
    trail.attach(number)?;
    Ok(())
}

/// Keeps what was learnt and goes on behind it, unless the budget is spent.
fn take_lemma<C: Chooser>(
    alloc: Global,
    log: &mut LemmaLog,
    trail: &mut Trail,
    analysis: &Analysis,
    store: &mut Store,
    chooser: &mut C,
    pace: &mut Pace,
    budget: Option<u64>,
) -> Result<Turn, AllocError>
    requires shared { AreShared trail.old log.old.checker }
    requires indexed { IsIndexed trail.old store.old.dropped }
    requires room { AreWithin budget log.old.lines }
    requires literals { All (IsLiteral trail.old.variables) analysis.now.literals.items }
    requires learnt { IsLearnt trail.old analysis.now.literals.items analysis.now.hints.items
        analysis.now.back_to }
    requires none { HasNoPart trail.old store.old.dropped analysis.now.literals.items }
    ensures variables { trail.new.variables ≡ trail.old.variables }
    ensures turn { (formula : List (List ℤ)) → IsSearch formula log.old.lines log.old.checker
        trail.old store.old.first store.old.dropped →
        IfOk result (λ turn. IsTurn formula budget turn log.new.lines log.new.checker trail.new
        store.new.first store.new.dropped) }
    ensures room { OnOk result (AreWithin budget log.new.lines) }
    ensures fewer { (formula : List (List ℤ)) → IsSearch formula log.old.lines log.old.checker
        trail.old store.old.first store.old.dropped →
        IfOk result (λ turn. turn ≡ Turn.On → remaining trail.old.variables
        (behind formula log.new.lines) < remaining trail.old.variables
        (behind formula log.old.lines)) }
{
    // What is learnt under a spent budget is the further lemma, which isn't kept.
    if is_spent(budget, log.lines.len()) {
        return Ok(Turn::Spent);
    }
    bump_all(chooser, analysis.met());
    store.policy.note_all(store.first, &analysis.hints);
    let taken = keep(alloc, log, trail, analysis)?;
    match taken {
        Taken::Added => {
            go_on(alloc, trail, &analysis.literals, store, chooser, pace)?;
            Ok(Turn::On)
        }
        Taken::Refuted => Ok(Turn::Refuted),
        Taken::Failed => unreachable!(),
    }
}

/// Learns from a false clause. Where what is learnt contains a dropped lemma, it isn't kept, and the dropped one is
/// attached again in its place.
fn take_conflict<C: Chooser>(
    alloc: Global,
    log: &mut LemmaLog,
    trail: &mut Trail,
    analysis: &mut Analysis,
    store: &mut Store,
    chooser: &mut C,
    pace: &mut Pace,
    budget: Option<u64>,
    conflict: u64,
) -> Result<Turn, AllocError>
    requires analysis { analysis.old.variables ≡ trail.old.variables }
    requires shared { AreShared trail.old log.old.checker }
    requires indexed { IsIndexed trail.old store.old.dropped }
    requires room { AreWithin budget log.old.lines }
    requires conflict { (0 < conflict) × (conflict ≤ length trail.old.ends)
        × IsFalseIn trail.old.literals trail.old.ends trail.old.assignment.trail (conflict - 1) }
    requires attached { IsAttached trail.old (conflict - 1) }
    ensures analysis { analysis.new.variables ≡ analysis.old.variables }
    ensures variables { trail.new.variables ≡ trail.old.variables }
    ensures turn { (formula : List (List ℤ)) → IsSearch formula log.old.lines log.old.checker
        trail.old store.old.first store.old.dropped →
        IfOk result (λ turn. IsTurn formula budget turn log.new.lines log.new.checker trail.new
        store.new.first store.new.dropped) }
    ensures room { OnOk result (AreWithin budget log.new.lines) }
    ensures on { (formula : List (List ℤ)) → IsSearch formula log.old.lines log.old.checker
        trail.old store.old.first store.old.dropped →
        IfOk result (λ turn. turn ≡ Turn.On →
        (remaining trail.old.variables (behind formula log.new.lines)
        < remaining trail.old.variables (behind formula log.old.lines))
        ⊎ ((log.new.lines ≡ log.old.lines)
        × (entry_count store.new.dropped < entry_count store.old.dropped))) }
{
    analysis.learn(trail, conflict)?;
    match store.dropped.take_part(trail, analysis.literals.as_slice()) {
        Some(number) => {
            store.policy.note(store.first, number);
            take_back(trail, number)?;
            Ok(Turn::On)
        }
        None => {
            let turn = take_lemma(alloc, log, trail, analysis, store, chooser, pace, budget)?;
            Ok(turn)
        }
    }
}

/// Propagates, and learns or decides.
pub(crate) fn take_turn<C: Chooser>(
    alloc: Global,
    log: &mut LemmaLog,
    trail: &mut Trail,
    analysis: &mut Analysis,
    store: &mut Store,
    chooser: &mut C,
    pace: &mut Pace,
    budget: Option<u64>,
) -> Result<Turn, AllocError>
    requires analysis { analysis.old.variables ≡ trail.old.variables }
    requires shared { AreShared trail.old log.old.checker }
    requires indexed { IsIndexed trail.old store.old.dropped }
    requires room { AreWithin budget log.old.lines }
    ensures analysis { analysis.new.variables ≡ analysis.old.variables }
    ensures variables { trail.new.variables ≡ trail.old.variables }
    ensures turn { (formula : List (List ℤ)) → IsSearch formula log.old.lines log.old.checker
        trail.old store.old.first store.old.dropped →
        IfOk result (λ turn. IsTurn formula budget turn log.new.lines log.new.checker trail.new
        store.new.first store.new.dropped) }
    ensures room { OnOk result (AreWithin budget log.new.lines) }
    ensures on { (formula : List (List ℤ)) → IsSearch formula log.old.lines log.old.checker
        trail.old store.old.first store.old.dropped →
        IfOk result (λ turn. turn ≡ Turn.On →
        GoesOn trail.old.variables formula log.old.lines store.old.dropped
        trail.old.assignment.trail log.new.lines store.new.dropped trail.new.assignment.trail) }
{
    // for the proof: this call's clauses say what a trail keeps
    let _literals = trail.trail();
    let found = trail.propagate()?;
    match found {
        Some(conflict) => {
            let turn = take_conflict(
                alloc, log, trail, analysis, store, chooser, pace, budget, conflict,
            )?;
            Ok(turn)
        }
        None => Ok(decide(trail, chooser)),
    }
}
