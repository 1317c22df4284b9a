//! A trail is a partial assignment by decision levels, with the clause that forced each literal.
//!
//! A decision opens a level: its literal is made true without a reason. What the clauses force
//! then has the same level, and the clause that forced it as its reason. Level 0 is below all
//! decisions: what is true there follows from the clauses alone. To go back to a level takes the
//! literals above it from the end of the trail, and leaves clauses and watches as they are.
//!
//! A clause is attached when it is added, and just attached clauses are propagated. One that is
//! detached keeps its number and its literals, and stays the reason of what it forced.

ghost use Rattle.std.specs.Prelude.{◌≡◌, ◌≢◌, ℕ, ℤ, pos, neg_ℤ, unsigned_abs, ◌+◌, ◌-◌, ◌*◌, ◌<◌, ◌≤◌, ◌⊎◌, ◌++◌, ◌∷◌, [], List, length, take, slice_index, slice_index_or, slice_set, slice_get, Some, IfNone, IfSome, IfOk, OnOk, OnErr, IsTrue, true, false};
ghost use Rattle.std.specs.List.{Contains, All};
ghost use Rattle.sat_trail.specs.Literal.{IsLiteral};
ghost use Rattle.sat_trail.specs.Literal as spec;
ghost use Rattle.sat_dimacs.specs.Literal.{IsWithin};
ghost use Rattle.sat_trail.specs.Assignment.{value_at, IsTold};
ghost use Rattle.sat_trail.specs.Watched.{IsTrueIn, IsFalseIn, IsArena};
ghost use Rattle.sat_trail.specs.Sound.{IsFree, IsOpen};
ghost use Rattle.sat_trail.specs.State.{clause_at, IsAttached, Keeps, Adds};
ghost use Rattle.sat_trail.specs.Reasons.{ForcesMore, AreReasoned, AreApart, IsPut};

use crate::add::{bound, latest, lower, two_latest};
use crate::arena::Arena;
use crate::assigned::Assigned;
use crate::detach::{clear, unwatch};
use crate::literal::{list_of, push_literal, write_literal};
use crate::propagate::{advance, advance_short};
use crate::watches::Watches;
use sat_dimacs::{Clause, Cnf};
use sat_lists::{NodeLists, push_in_room};
use std::alloc::{AllocError, Global};
use std::marker::Model;

/// Whether neither of two facts holds.
fn are_neither(one: bool, other: bool) -> bool
    ensures { IsTrue result → (one ≡ false) × (other ≡ false) }
{
    !one && !other
}

/// The clauses of a search and its partial assignment.
#[derive(Drop)]
pub struct Trail {
    /// The clauses.
    arena: Arena,
    /// The two watched literals of each attached clause that isn't short.
    watches: Watches,
    /// Whether each clause is attached.
    attached: Vec<bool>,
    /// The short clauses, which have no two different literals: the empty one and unit clauses. They stay attached.
    short: Vec<usize>,
    /// The assignment: true literals in their order, each with its decision level and its reason.
    assigned: Assigned,
    /// For each open level, how many literals were true before its decision.
    lens: Vec<usize>,
    /// For each open level, what `done` is again once it is taken back: as it was at its decision, or
    /// less where a clause has come since whose watched literal was false then.
    dones: Vec<usize>,
    /// For each open level, what `short_done` is again once it is taken back.
    short_dones: Vec<usize>,
    /// The present decision level, which is how many decisions are true.
    top: usize,
    /// How many true literals are propagated: the head of the queue (MiniSat's `qhead`).
    done: usize,
    /// How many of the short clauses are propagated, each of which is true then.
    short_done: usize,
}

impl Model for Trail {
    ghost use Rattle.sat_trail.specs.State.{Search};

    ghost Value = { Search };

    ghost use Rattle.sat_trail.specs.Search.{search_of, IsTrail};

    ghost view = { search_of };

    ghost invariant = { IsTrail };
}

impl Trail {
    /// The clauses of a formula, all attached, under the numbers from 1 on in their order, with nothing assigned.
    ///
    /// The only error is want of memory.
    pub fn new(alloc: Global, cnf: &Cnf) -> Result<Trail, AllocError>
        ensures variables { IfOk result (λ t. t.variables ≡ cnf.now.variables) }
        ensures clauses { IfOk result (λ t. Keeps t cnf.now.clauses) }
        ensures nothing_assigned { IfOk result (λ t. (t.assignment.trail ≡ []) × (t.limits ≡ [])) }
    {
        let mut trail = Trail::empty(alloc, cnf.variables as usize)?;
        for clause in cnf.clauses.clauses() {
            trail.add_clause(clause)?;
        }
        Ok(trail)
    }

    /// No clause, over so many variables.
    fn empty(alloc: Global, variables: usize) -> Result<Trail, AllocError>
        ensures variables { IfOk result (λ t. t.variables ≡ variables) }
        ensures clauses { IfOk result (λ t. (t.ends ≡ []) × (t.attached ≡ [])) }
        ensures nothing_assigned { IfOk result (λ t. (t.assignment.trail ≡ []) × (t.limits ≡ [])) }
    {
        if variables >= 1 << 31 {
            return Err(AllocError);
        }
        Ok(Trail {
            arena: Arena::new(alloc, variables),
            watches: Watches {
                at: Vec::new(alloc),
                copies: Vec::new(alloc),
                lists: NodeLists::new(alloc, 2 * variables)?,
            },
            attached: Vec::new(alloc),
            short: Vec::new(alloc),
            assigned: Assigned::new(alloc, variables)?,
            lens: vec![in alloc; 0; variables]?,
            dones: vec![in alloc; 0; variables]?,
            short_dones: vec![in alloc; 0; variables]?,
            top: 0,
            done: 0,
            short_done: 0,
        })
    }

    /// Adds a clause behind the others, attached, and gives its number, which is how many there are then.
    ///
    /// It takes time in the clause's length and the number of open levels. The only error is want of memory, and the
    /// trail is then as before.
    pub fn add_clause(&mut self, clause: &Clause) -> Result<u64, AllocError>
        requires { IsWithin self.old.variables clause.now }
        ensures added { IfOk result (λ n. Adds self.old self.new clause.now
            × (n ≡ length self.new.ends)) }
        ensures assignment { (self.new.variables ≡ self.old.variables)
            × (self.new.assignment ≡ self.old.assignment) × (self.new.limits ≡ self.old.limits) }
        ensures err { OnErr result (self.new ≡ self.old) }
    {
        self.add_literals(clause.literals())
    }

    /// Adds a clause of these literals.
    fn add_literals(&mut self, literals: &[i64]) -> Result<u64, AllocError>
        requires { All (IsLiteral self.old.variables) literals.now }
        ensures added { IfOk result (λ n. Adds self.old self.new literals.now
            × (n ≡ length self.new.ends)) }
        ensures assignment { (self.new.variables ≡ self.old.variables)
            × (self.new.assignment ≡ self.old.assignment) × (self.new.limits ≡ self.old.limits) }
        ensures err { OnErr result (self.new ≡ self.old) }
    {
        let one = latest(&self.assigned, literals, 0);
        if one < literals.len() {
            let two = latest(&self.assigned, literals, literals[one]);
            if two < literals.len() {
                return self.add_long(literals, one, two);
            }
        }
        self.add_short(literals)
    }

    /// Adds a clause that watches the literals at two places.
    fn add_long(&mut self, literals: &[i64], one: usize, two: usize) -> Result<u64, AllocError>
        requires literals { All (IsLiteral self.old.variables) literals.now }
        requires places { (one < length literals.now) × (two < length literals.now) }
        requires different { value_at literals.now one ≢ value_at literals.now two }
        ensures added { IfOk result (λ n. Adds self.old self.new literals.now
            × (n ≡ length self.new.ends)) }
        ensures assignment { (self.new.variables ≡ self.old.variables)
            × (self.new.assignment ≡ self.old.assignment) × (self.new.limits ≡ self.old.limits) }
        ensures err { OnErr result (self.new ≡ self.old) }
    {
        self.arena.reserve(literals.len())?;
        self.watches.at.reserve(2)?;
        self.watches.copies.reserve(2)?;
        self.attached.reserve(1)?;
        let node = self.watches.at.len();
        self.watches
            .lists
            .add_pair(list_of(literals[one]), list_of(literals[two]), node)?;
        let first = self.arena.literals.len();
        push_in_room(&mut self.watches.at, (first + one) as u32);
        push_in_room(&mut self.watches.at, (first + two) as u32);
        push_literal(&mut self.watches.copies, &literals[one]);
        push_literal(&mut self.watches.copies, &literals[two]);
        push_in_room(&mut self.attached, true);
        self.arena.push(literals);
        let limit = bound(&self.assigned, literals[one]).min(bound(&self.assigned, literals[two]));
        self.done = self.done.min(limit);
        lower(&mut self.dones, self.top, limit);
        Ok(self.arena.ends.len() as u64)
    }

    /// Adds a clause without two different literals.
    fn add_short(&mut self, literals: &[i64]) -> Result<u64, AllocError>
        requires literals { All (IsLiteral self.old.variables) literals.now }
        requires alike { (p q : ℕ) → p < length literals.now → q < length literals.now →
            value_at literals.now p ≡ value_at literals.now q }
        ensures added { IfOk result (λ n. Adds self.old self.new literals.now
            × (n ≡ length self.new.ends)) }
        ensures assignment { (self.new.variables ≡ self.old.variables)
            × (self.new.assignment ≡ self.old.assignment) × (self.new.limits ≡ self.old.limits) }
        ensures err { OnErr result (self.new ≡ self.old) }
    {
        self.arena.reserve(literals.len())?;
        self.watches.at.reserve(2)?;
        self.watches.copies.reserve(2)?;
        self.short.reserve(1)?;
        self.attached.reserve(1)?;
        push_in_room(&mut self.watches.at, 0);
        push_in_room(&mut self.watches.at, 0);
        push_in_room(&mut self.watches.copies, 0);
        push_in_room(&mut self.watches.copies, 0);
        push_in_room(&mut self.short, self.arena.ends.len());
        push_in_room(&mut self.attached, true);
        self.arena.push(literals);
        Ok(self.arena.ends.len() as u64)
    }

    /// Whether neither a literal nor its negation is true.
    pub fn is_free(&self, literal: i64) -> bool
        requires { IsLiteral self.now.variables literal }
        ensures { IsTrue result → IsFree self.now.assignment.trail literal }
    {
        are_neither(
            self.assigned.is_true(literal),
            self.assigned.is_false(literal),
        )
    }

    /// Opens a level with a free literal made true. It has no reason.
    pub fn assign(&mut self, literal: i64)
        requires literal { IsLiteral self.old.variables literal }
        requires free { IsFree self.old.assignment.trail literal }
        ensures clauses { (self.new.literals ≡ self.old.literals) × (self.new.ends ≡ self.old.ends)
            × (self.new.attached ≡ self.old.attached)
            × (self.new.variables ≡ self.old.variables) }
        ensures trail { self.new.assignment.trail ≡ self.old.assignment.trail ++ literal ∷ [] }
        ensures limits { self.new.limits ≡ self.old.limits
            ++ length self.old.assignment.trail ∷ [] }
        ensures put { IsPut self.old.assignment self.new.assignment literal
            (length self.old.limits + 1) 0 }
    {
        let len = self.assigned.len();
        self.assigned.put(literal, self.top as u64 + 1, 0);
        self.lens[self.top] = len;
        self.dones[self.top] = self.done;
        self.short_dones[self.top] = self.short_done;
        self.top += 1;
    }

    /// Takes back the levels above one.
    pub fn undo_to(&mut self, level: u64)
        requires { level ≤ length self.old.limits }
        ensures clauses { (self.new.literals ≡ self.old.literals) × (self.new.ends ≡ self.old.ends)
            × (self.new.attached ≡ self.old.attached)
            × (self.new.variables ≡ self.old.variables) }
        ensures trail { self.new.assignment.trail ≡ take
            (slice_index_or self.old.limits level (length self.old.assignment.trail))
            self.old.assignment.trail }
        ensures limits { self.new.limits ≡ take level self.old.limits }
        ensures kept { (self.new.assignment.levels ≡ self.old.assignment.levels)
            × (self.new.assignment.reasons ≡ self.old.assignment.reasons) }
    {
        let level = level as usize;
        if level < self.top {
            self.top = level;
            self.assigned.cut(self.lens[level]);
            self.done = self.dones[level];
            self.short_done = self.short_dones[level];
        }
    }

    /// Detaches the marked clauses, but for those without two different literals; place i marks clause i + 1. They force
    /// nothing from here on; what they forced stays, with them as its reasons.
    pub fn detach(&mut self, marks: &[bool])
        ensures clauses { (self.new.literals ≡ self.old.literals) × (self.new.ends ≡ self.old.ends)
            × (self.new.variables ≡ self.old.variables) }
        ensures assignment { (self.new.assignment ≡ self.old.assignment)
            × (self.new.limits ≡ self.old.limits) }
        ensures size { length self.new.attached ≡ length self.old.attached }
        ensures attached { (i : ℕ) → IsAttached self.old i →
            IsAttached self.new i ⊎ (slice_index_or marks.now i false ≡ true) }
        ensures only { (i : ℕ) → IsAttached self.new i → IsAttached self.old i }
    {
        let count = self.arena.ends.len();
        clear(&mut self.attached, self.watches.at.as_slice(), marks);
        unwatch(&mut self.watches.at, count, marks);
        self.watches.lists.retain(marks);
    }

    /// Attaches a clause again.
    ///
    /// It takes time in the clause's length and the number of open levels. The only error is want of memory, and the
    /// trail is then as before.
    pub fn attach(&mut self, number: u64) -> Result<(), AllocError>
        requires number { (0 < number) × (number ≤ length self.old.ends) }
        ensures clauses { (self.new.literals ≡ self.old.literals) × (self.new.ends ≡ self.old.ends)
            × (self.new.variables ≡ self.old.variables) }
        ensures assignment { (self.new.assignment ≡ self.old.assignment)
            × (self.new.limits ≡ self.old.limits) }
        ensures attached { OnOk result (self.new.attached
            ≡ slice_set self.old.attached (number - 1) true) }
        ensures err { OnErr result (self.new ≡ self.old) }
    {
        let clause = number as usize - 1;
        if self.attached[clause] {
            return Ok(());
        }
        match two_latest(&self.assigned, self.clause(number)) {
            Some((one, two)) => self.watch(clause, one, two),
            // A clause without two different literals stays attached, so this can't be.
            None => Err(AllocError),
        }
    }

    /// Attaches a clause, which watches the literals at two of its places.
    fn watch(&mut self, clause: usize, one: usize, two: usize) -> Result<(), AllocError>
        requires clause { clause < length self.old.ends }
        requires one { one < length (clause_at self.old clause) }
        requires two { two < length (clause_at self.old clause) }
        requires different { value_at (clause_at self.old clause) one
            ≢ value_at (clause_at self.old clause) two }
        ensures clauses { (self.new.literals ≡ self.old.literals) × (self.new.ends ≡ self.old.ends)
            × (self.new.variables ≡ self.old.variables) }
        ensures assignment { (self.new.assignment ≡ self.old.assignment)
            × (self.new.limits ≡ self.old.limits) }
        ensures attached { OnOk result (self.new.attached
            ≡ slice_set self.old.attached clause true) }
        ensures err { OnErr result (self.new ≡ self.old) }
    {
        let from = self.arena.start(clause);
        let place = from + one;
        let other = from + two;
        let first = self.arena.literal_at(place);
        let second = self.arena.literal_at(other);
        let node = 2 * clause;
        let next = node + 1;
        self.watches
            .lists
            .add_pair(list_of(first), list_of(second), node)?;
        self.watches.at[node] = place as u32;
        self.watches.at[next] = other as u32;
        write_literal(&mut self.watches.copies, node, first);
        write_literal(&mut self.watches.copies, next, second);
        self.attached[clause] = true;
        let limit = bound(&self.assigned, first).min(bound(&self.assigned, second));
        self.done = self.done.min(limit);
        lower(&mut self.dones, self.top, limit);
        Ok(())
    }

    /// Makes true what the attached clauses force, with the clause as its reason, and gives the number of a clause that is false,
    /// if there is one.
    ///
    /// The only error is want of memory. What was made true until then stays, and is all forced.
    pub fn propagate(&mut self) -> Result<Option<u64>, AllocError>
        ensures clauses { (self.new.literals ≡ self.old.literals) × (self.new.ends ≡ self.old.ends)
            × (self.new.attached ≡ self.old.attached)
            × (self.new.variables ≡ self.old.variables) }
        ensures longer { (ts : List ℤ) × (self.new.assignment.trail ≡ self.old.assignment.trail
            ++ ts) }
        ensures forced { ForcesMore self.new.literals self.new.ends (length self.old.limits)
            self.old.assignment self.new.assignment }
        ensures limits { self.new.limits ≡ self.old.limits }
        ensures none { IfOk result (λ o. IfNone o ((i : ℕ) → IsAttached self.new i →
            IsTrueIn self.new.literals self.new.ends self.new.assignment.trail i
            ⊎ IsOpen self.new.literals self.new.ends self.new.assignment.trail i)) }
        ensures false_clause { IfOk result (λ o. IfSome o (λ n. (0 < n)
            × (n ≤ length self.new.ends) × IsAttached self.new (n - 1)
            × IsFalseIn self.new.literals self.new.ends self.new.assignment.trail (n - 1))) }
    {
        let level = self.top as u64;
        let (short_done, found) = advance_short(
            &self.arena,
            self.short.as_slice(),
            &mut self.assigned,
            self.short_done,
            level,
        );
        self.short_done = short_done;
        if found.is_some() {
            return Ok(found);
        }
        let (done, found) = advance(
            &self.arena,
            &mut self.watches,
            &mut self.assigned,
            self.done,
            level,
        );
        self.done = done;
        found
    }

    /// The value of each variable: 1 true, -1 false, 0 free.
    pub fn values(&self) -> &[i8]
        ensures values { result.now ≡ self.now.assignment.values }
        ensures variables { length result.now ≡ self.now.variables }
        ensures told { IsTold self.now.assignment.trail result.now }
    {
        self.assigned.values()
    }

    /// The true literals in the order in which they were put, at most one of each variable. Each has its level and,
    /// unless it opened one, its reason. The clauses lie one after another.
    #[inline]
    pub fn trail(&self) -> &[i64]
        ensures trail { result.now ≡ self.now.assignment.trail }
        ensures literals { All (IsLiteral self.now.variables) result.now }
        ensures apart { AreApart result.now }
        ensures fits { length result.now ≤ self.now.variables }
        ensures reasoned { AreReasoned self.now }
        ensures arena { IsArena self.now.literals self.now.ends self.now.variables }
        ensures flags { length self.now.attached ≡ length self.now.ends }
    {
        self.assigned.trail()
    }

    /// How many literals were true when the last level was opened: 0 at level 0.
    #[inline]
    pub fn base(&self) -> usize
        ensures { result ≡ slice_index self.now.limits (length self.now.limits - 1) }
    {
        let top = self.top;
        if top == 0 {
            return 0;
        }
        self.lens[top - 1]
    }

    /// The present level.
    pub fn top(&self) -> u64
        ensures { result ≡ length self.now.limits }
    {
        self.top as u64
    }

    /// The level of a variable.
    pub fn level(&self, variable: u64) -> u64
        requires variable { (0 < variable) × (variable ≤ self.now.variables) }
        ensures { result ≡ slice_index self.now.assignment.levels (variable - 1) }
    {
        self.assigned.level(variable as usize - 1)
    }

    /// The clause that forced a variable, or none where it opened a level.
    pub fn reason(&self, variable: u64) -> Option<u64>
        requires variable { (0 < variable) × (variable ≤ self.now.variables) }
        ensures reason { IfSome result (λ n. slice_index self.now.assignment.reasons (variable - 1)
            ≡ n) }
        ensures in_range { IfSome result (λ n. (0 < n) × (n ≤ length self.now.ends)) }
        ensures chosen { IfNone result ((j : ℕ) → j < length self.now.assignment.trail →
            spec.index (value_at self.now.assignment.trail j) ≡ variable - 1 →
            Contains self.now.limits j) }
        ensures forced { IfSome result (λ n. (j : ℕ) → j < length self.now.assignment.trail →
            spec.index (value_at self.now.assignment.trail j) ≡ variable - 1 →
            Contains self.now.limits j → ⊥) }
    {
        let clause = self.assigned.reason(variable as usize - 1);
        if clause == 0 || clause > self.arena.ends.len() as u64 {
            return None;
        }
        Some(clause)
    }

    /// Where the negation of a false literal stands on the trail; of another literal any number.
    pub fn place(&self, literal: i64) -> usize
        requires { IsLiteral self.now.variables literal }
        ensures { Contains self.now.assignment.trail (neg_ℤ literal) →
            slice_get self.now.assignment.trail result ≡ Some (neg_ℤ literal) }
    {
        self.assigned.last_place(literal)
    }

    /// How many clauses there are, attached or not.
    pub fn clause_count(&self) -> u64
        ensures { result ≡ length self.now.ends }
    {
        self.arena.ends.len() as u64
    }

    /// The literals of a clause, each in 32 bits.
    pub fn clause(&self, number: u64) -> &[i32]
        requires number { (0 < number) × (number ≤ length self.now.ends) }
        ensures clause { result.now ≡ clause_at self.now (number - 1) }
        ensures literals { All (IsLiteral self.now.variables) result.now }
    {
        let clause = number as usize - 1;
        &self.arena.literals[self.arena.start(clause)..self.arena.ends[clause] as usize]
    }
}
