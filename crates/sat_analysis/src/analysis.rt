//! Learning from a conflict: the clause of the first UIP, its hints, and the level to go back to.
//!
//! In the implication graph a forced literal has an edge from the negation of each other literal
//! of its reason. A conflict is a clause that is false on the trail. To resolve it with the reason
//! of one of its literals puts the others of that reason in the literal's place, and what comes
//! out is false too.
//!
//! The trail is walked back from its end. Each literal of the last decision level that was met, in
//! the conflict or in a reason since, is resolved away, until just one met literal of that level
//! is left. This is the first UIP, the first unique implication point from the conflict on: all
//! that the level contributed to the conflict came through it. There is one wherever the levels
//! below were propagated to their ends, at the latest the decision itself. The graph is cut just
//! behind it: the conflict side was resolved away, and the learnt clause has the negations of the
//! literals of the reason side with an edge into the other: that of the UIP, and the met ones of
//! lower levels. (Implication graphs and their UIPs: GRASP, Marques-Silva and Sakallah 1999.)
//!
//! The met literals below the last level are then parted into those that stay and those that
//! others force (`minimise`). The UIP's negation is the clause's one literal of the last level. So
//! when the search goes back to the greatest level of the others, `back_to`, all others are still
//! false: the learnt clause is unit there, and forces it. At level 0 all is resolved away, and the
//! clause is empty.
//!
//! The hints are the reasons of all literals that were resolved away, in the order of the trail,
//! and last the conflict: under the learnt clause's negation each reason is unit in turn, and the
//! conflict false. This is what a lemma of the LRAT format wants (Cruz-Filipe and others 2017).

ghost use Rattle.std.specs.Prelude.{◌≡◌, ℕ, ℤ, neg_ℤ, ◌+◌, ◌-◌, ◌<◌, ◌≤◌, ◌++◌, ◌∷◌, [], List, length, IfOk, IfSome, OnOk, Option};
ghost use Rattle.std.specs.List.{All, Contains};
ghost use Rattle.sat_trail.specs.Literal.{IsLiteral};
ghost use Rattle.sat_trail.specs.Assignment.{value_at};
ghost use Rattle.sat_trail.specs.Watched.{IsFalseIn};
ghost use Rattle.sat_trail.specs.State.{clause_at, IsAttached};
ghost use Rattle.sat_trail.specs.Reasons.{AreApart};
ghost use Rattle.sat_analysis.specs.Resolved.{Stands, AllFail, IsClosed};
ghost use Rattle.sat_analysis.specs.Hints.{IsAnalysed};
ghost use Rattle.sat_analysis.specs.Learnt.{IsAsserting, IsLevelBelow, IsSecond, IsLearnt};

use crate::clauses::level_of;
use crate::hints::{gather_hints, gather_places};
use crate::minimise::part;
use crate::noted::Noted;
use crate::point::find_point;
use sat_trail::Trail;
use std::alloc::{AllocError, Global};

/// What one conflict teaches, with room that is kept from one conflict to the next.
#[derive(Drop)]
pub struct Analysis {
    /// How many variables the trail has.
    pub variables: usize,
    /// The literals of the learnt clause, all of them false on the trail.
    pub literals: Vec<i64>,
    /// The numbers of the clauses that show the learnt one: each leaves one literal under those before, and the last
    /// one none. They are the reasons in the order of the trail, and then the false clause.
    pub hints: Vec<u64>,
    /// The greatest level among the clause's literals but the one of the last level, or 0.
    pub back_to: u64,
    /// The literals that were met between the false clause and the implication point, and behind them those that show
    /// that a met one can be left out.
    noted: Noted,
    /// How many were met.
    met: usize,
    /// The met literals that are left out.
    dropped: Vec<i64>,
    /// The places on the trail of the literals that are resolved away.
    places: Vec<usize>,
    ghost one_mark_each: { noted.variables ≡ variables },
}

impl Analysis {
    /// Room for so many variables. The only error is want of memory.
    pub fn new(alloc: Global, variables: usize) -> Result<Analysis, AllocError>
        ensures { IfOk result (λ a. a.variables ≡ variables) }
    {
        Ok(Analysis {
            variables,
            literals: Vec::new(alloc),
            hints: Vec::new(alloc),
            back_to: 0,
            noted: Noted::new(alloc, variables)?,
            met: 0,
            dropped: Vec::new(alloc),
            places: Vec::new(alloc),
        })
    }

    /// The false literals that were met between the false clause and the implication point.
    pub fn met(&self) -> &[i64] {
        let literals = self.noted.literals();
        &literals[..self.met.min(literals.len())]
    }

    /// Learns from an attached clause that is false on the trail.
    ///
    /// `literals`, `hints` and `back_to` then tell what was learnt. Every literal is false on the trail, and the hints
    /// show the clause. It is empty at level 0. Above, one literal is of the last level, where every level below was
    /// propagated to its end; and then it contains no attached clause, if no clause of the trail is empty. The only error
    /// is want of memory.
    pub fn learn(&mut self, trail: &Trail, conflict: u64) -> Result<(), AllocError>
        requires variables { self.old.variables ≡ trail.now.variables }
        requires conflict { (0 < conflict) × (conflict ≤ length trail.now.ends)
            × IsFalseIn trail.now.literals trail.now.ends trail.now.assignment.trail
            (conflict - 1) }
        requires attached { IsAttached trail.now (conflict - 1) }
        ensures variables { self.new.variables ≡ self.old.variables }
        ensures literals { OnOk result (All (IsLiteral trail.now.variables)
            self.new.literals.items) }
        ensures learnt { OnOk result (IsLearnt trail.now self.new.literals.items
            self.new.hints.items self.new.back_to) }
    {
        // for the proof: this call's clauses say what a trail keeps
        let _literals = trail.trail();
        self.clear();
        self.met = resolve_all(
            trail,
            &mut self.noted,
            &mut self.places,
            &mut self.literals,
            &mut self.dropped,
            conflict,
        )?;
        self.back_to = second_level(trail, self.literals.as_slice());
        gather_hints(trail, &mut self.places, &mut self.hints, conflict)?;
        Ok(())
    }

    /// Forgets what was learnt.
    fn clear(&mut self)
        ensures variables { self.new.variables ≡ self.old.variables }
        ensures noted { self.new.noted.literals ≡ [] }
        ensures places { self.new.places.items ≡ [] }
        ensures literals { (self.new.literals.items ≡ []) × (self.new.dropped.items ≡ []) }
        ensures hints { self.new.hints.items ≡ [] }
    {
        self.noted.cut(0);
        self.literals.clear();
        self.hints.clear();
        self.dropped.clear();
        self.places.clear();
    }
}

/// Resolves a false clause up to its implication point, and leaves out what others force. It gives how many literals
/// were met up to the point.
fn resolve_all(
    trail: &Trail,
    noted: &mut Noted,
    places: &mut Vec<usize>,
    learnt: &mut Vec<i64>,
    dropped: &mut Vec<i64>,
    conflict: u64,
) -> Result<usize, AllocError>
    requires trail { Stands trail.now }
    requires variables { noted.old.variables ≡ trail.now.variables }
    requires conflict { (0 < conflict) × (conflict ≤ length trail.now.ends)
        × IsFalseIn trail.now.literals trail.now.ends trail.now.assignment.trail (conflict - 1) }
    requires attached { IsAttached trail.now (conflict - 1) }
    requires none { (noted.old.literals ≡ []) × (places.old.items ≡ []) × (learnt.old.items ≡ [])
        × (dropped.old.items ≡ []) }
    ensures variables { noted.new.variables ≡ noted.old.variables }
    ensures literals { OnOk result (All (IsLiteral trail.now.variables) learnt.new.items) }
    ensures analysed { OnOk result (IsAnalysed trail.now (clause_at trail.now (conflict - 1))
        noted.new.literals learnt.new.items places.new.items) }
    ensures asserting { OnOk result (IsAsserting trail.now learnt.new.items) }
    ensures apart { OnOk result (AreApart learnt.new.items) }
{
    let point = find_point(trail, noted, places, conflict)?;
    let met = noted.len();
    part(trail, noted, learnt, dropped)?;
    gather_places(trail, dropped.as_slice(), 0, places)?;
    gather_places(trail, noted.literals(), met, places)?;
    close(trail, point, learnt)?;
    Ok(met)
}

/// Adds the negation of the literal at the point, if there is one.
fn close(trail: &Trail, point: Option<usize>, learnt: &mut Vec<i64>) -> Result<(), AllocError>
    requires { IfSome point (λ place. place < length trail.now.assignment.trail) }
    ensures { OnOk result (IsClosed trail.now point learnt.old.items learnt.new.items) }
{
    match point {
        Some(place) => {
            learnt.push(negation_at(trail, place))?;
            Ok(())
        }
        None => Ok(()),
    }
}

/// The negation of the true literal at a place.
fn negation_at(trail: &Trail, place: usize) -> i64
    requires { place < length trail.now.assignment.trail }
    ensures { result ≡ neg_ℤ (value_at trail.now.assignment.trail place) }
{
    // for the proof: this call's clauses say how many values there are
    let _values = trail.values();
    -trail.trail()[place]
}

/// The greatest level among the literals below the last level, or 0.
fn second_level(trail: &Trail, literals: &[i64]) -> u64
    requires { All (IsLiteral trail.now.variables) literals.now }
    ensures { IsSecond trail.now literals.now result }
{
    let top = trail.top();
    let mut second = 0;
    for place in 0..literals.len() {
        second = second.max(level_below(trail, literals[place], top));
    }
    second
}

/// The level of a literal, where it is below a bound, or 0.
fn level_below(trail: &Trail, literal: i64, bound: u64) -> u64
    requires { IsLiteral trail.now.variables literal }
    ensures { IsLevelBelow trail.now literal bound result }
{
    let level = level_of(trail, literal);
    if level < bound { level } else { 0 }
}
