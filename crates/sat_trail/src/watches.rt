//! Two watched literals: a literal that becomes false has those clauses visited that watch it.
//!
//! A clause forces nothing and isn't false as long as two different literals of it aren't false.
//! So each attached clause with two different literals watches two of them, and isn't looked at
//! before one of the two becomes false (Chaff: Moskewicz, Madigan, Zhao, Zhang and Malik 2001). To
//! take literals back costs nothing here: `IsKept` says that a watch that moves keeps what holds of
//! the watches at every earlier length of the trail, so they are right when the search goes back.
//!
//! Nodes. Clause k, counted from 0, has the nodes 2k and 2k + 1, one for each watch. `at` says at
//! which place of the arena the literal of a node stands, and `copies` repeats the literal itself.
//! The copy of the other node serves as the blocker literal: where it is true, so is the clause,
//! which then isn't read. Clauses that watch nothing have nodes too, both at one place, and on no
//! list: those without two different literals, and those that are detached.
//!
//! Lists. Each node stands in the list of the literal that it watches, which is walked when that
//! literal becomes false. (MiniSat files it under the negation, which becomes true then: Eén and
//! Sörensson 2003.)
//!
//! A walk. When a false literal's turn comes, the nodes of its list are `loose`. Each loose node in
//! turn is settled: it stays on the list, or goes to that of the literal that it watches now. A
//! false clause ends the walk; its node and those behind it are put back.
//!
//! Why lists side by side in memory. Most visits see only that the blocker is true. So a walk reads
//! a list from its first node to its last one, and a node that stays costs no more than a number
//! written a few places before. What that takes is memory where a node goes to a list that is full.
//! Where there is none, the node stays where it was, the rest of the list is put back, and
//! propagation ends with that error: every watch is right then, and the place of the trail counts
//! as not propagated.

ghost use Rattle.std.specs.Prelude.{◌≡◌, ◌≢◌, ℕ, ℤ, neg_ℤ, ◌+◌, ◌-◌, ◌*◌, ◌/◌, ◌%◌, ◌<◌, ◌≤◌, ◌⊎◌, ◌∷◌, [], length, IsTrue, IsFalse, IfNone, IfSome, IfOk, OnErr, drop, ◌^◌};
ghost use Rattle.std.specs.List.{Contains};
ghost use Rattle.sat_lists.specs.Nodes.{AreAtRest};
ghost use Rattle.sat_trail.specs.Assignment.{value_at};
ghost use Rattle.sat_trail.specs.Watched.{IsKept, IsTaken, IsFalseIn, watched, sibling};
ghost use Rattle.sat_trail.specs.Found.{IsFound};
ghost use Rattle.sat_trail.specs.Watching.{HasValues, AreWoven, AreCopied, StayWatched, AreVisited, Propagates, IsWatching, IsFalseClause};

use crate::arena::Arena;
use crate::assigned::Assigned;
use crate::literal::{list_of, wide, write_literal};
use sat_lists::NodeLists;
use std::alloc::AllocError;

/// The places of the two watched literals of each clause, and the lists of the nodes that watch each literal.
#[derive(Drop)]
pub struct Watches {
    /// At which place of the arena the literal stands that each node watches.
    pub at: Vec<u32>,
    /// The literal that each node watches, so that a visit mostly reads no clause.
    pub copies: Vec<i32>,
    /// The nodes that watch each literal.
    pub lists: NodeLists,
}

/// The other node of a node's clause.
#[inline]
fn other_node(node: usize) -> usize
    requires { node + 1 < 2 ^ 64 }
    ensures { result ≡ sibling node }
{
    if node % 2 == 0 { node + 1 } else { node - 1 }
}

/// The first place of a literal that isn't false and isn't `other`, or `last`.
#[inline]
fn find_first(arena: &Arena, assigned: &Assigned, first: usize, last: usize, other: i64) -> usize
    requires variables { HasValues arena.now assigned.now }
    requires ordered { first ≤ last }
    requires in_range { last ≤ length arena.now.literals.items }
    ensures within { (first ≤ result) × (result ≤ last) }
    ensures unlike { result < last → value_at arena.now.literals.items result ≢ other }
    ensures not_false { result < last → Contains assigned.now.trail
        (neg_ℤ (value_at arena.now.literals.items result)) → ⊥ }
    ensures closed { (p : ℕ) → first ≤ p → p < result →
        (value_at arena.now.literals.items p ≡ other)
        ⊎ Contains assigned.now.trail (neg_ℤ (value_at arena.now.literals.items p)) }
{
    for place in first..last {
        let literal = arena.literal_at(place);
        if literal != other && !assigned.is_false(literal) {
            return place;
        }
    }
    last
}

/// The place of a literal that isn't false and isn't `other`, or `last`. It is looked for behind the place that was
/// watched so far, and only then from the first on, since those before it are mostly still false.
#[inline]
fn find_open(
    arena: &Arena,
    assigned: &Assigned,
    first: usize,
    last: usize,
    other: i64,
    from: usize,
) -> usize
    requires variables { HasValues arena.now assigned.now }
    requires ordered { first ≤ last }
    requires in_range { last ≤ length arena.now.literals.items }
    ensures within { (first ≤ result) × (result ≤ last) }
    ensures unlike { result < last → value_at arena.now.literals.items result ≢ other }
    ensures not_false { result < last → Contains assigned.now.trail
        (neg_ℤ (value_at arena.now.literals.items result)) → ⊥ }
    ensures closed { result ≡ last → (p : ℕ) → first ≤ p → p < last →
        (value_at arena.now.literals.items p ≡ other)
        ⊎ Contains assigned.now.trail (neg_ℤ (value_at arena.now.literals.items p)) }
{
    if first <= from && from < last {
        let place = find_first(arena, assigned, from, last, other);
        if place < last {
            return place;
        }
        let place = find_first(arena, assigned, first, from, other);
        if place < from {
            return place;
        }
        return last;
    }
    find_first(arena, assigned, first, last, other)
}

/// What the clause of a node is.
enum Found {
    True,
    Open(u32),
    Forced(i64),
    False,
}

impl Watches {
    /// The literal that a node watches, of which this is the copy.
    #[inline]
    fn literal_at(&self, node: usize) -> i64
        requires { node < length self.now.copies.items }
        ensures { result ≡ value_at self.now.copies.items node }
    {
        wide(&self.copies[node])
    }

    /// Looks at the clause of a node whose literal is false.
    #[inline]
    fn inspect(&self, arena: &Arena, assigned: &Assigned, node: usize) -> Found
        requires variables { HasValues arena.now assigned.now }
        requires two_each { length self.now.at.items ≡ 2 * length arena.now.ends.items }
        requires copied { AreCopied arena.now self.now }
        requires in_range { node < length self.now.at.items }
        requires pair { IsWatching arena.now self.now node }
        ensures { IsFound arena.now.literals.items arena.now.ends.items self.now.at.items
            assigned.now.trail node result }
    {
        let other = self.literal_at(other_node(node));
        if assigned.is_true(other) {
            return Found::True;
        }
        let clause = node / 2;
        let last = arena.ends[clause] as usize;
        let from = self.at[node] as usize;
        let place = find_open(arena, assigned, arena.start(clause), last, other, from);
        if place < last {
            return Found::Open(place as u32);
        }
        if assigned.is_false(other) {
            return Found::False;
        }
        Found::Forced(other)
    }

    /// Takes the first loose node: it is settled, unless its clause is false. The only error is want of memory, and all is
    /// then as before.
    #[inline]
    fn take(
        &mut self,
        arena: &Arena,
        assigned: &mut Assigned,
        node: usize,
        level: u64,
    ) -> Result<bool, AllocError>
        requires variables { HasValues arena.now assigned.old }
        requires woven { AreWoven arena.now self.old }
        requires copied { AreCopied arena.now self.old }
        requires first { self.old.lists.loose ≡ node ∷ drop 1 self.old.lists.loose }
        ensures variables { length assigned.new.values ≡ length assigned.old.values }
        ensures copied { AreCopied arena.now self.new }
        ensures taken { IfOk result (λ b. IsTrue b → IsTaken arena.now.literals.items
            arena.now.ends.items arena.now.variables self.old.at.items assigned.old.trail
            self.old.lists.loose self.new.at.items assigned.new.trail self.new.lists) }
        ensures false_clause { IfOk result (λ b. IsFalse b → (node < length self.old.at.items)
            × IsWatching arena.now self.old node
            × IsFalseIn arena.now.literals.items arena.now.ends.items assigned.old.trail
            (node / 2)) }
        ensures unchanged { IfOk result (λ b. IsFalse b → (self.new ≡ self.old)
            × (assigned.new ≡ assigned.old)) }
        ensures err { OnErr result ((self.new ≡ self.old) × (assigned.new ≡ assigned.old)) }
        ensures forced { Propagates arena.now level assigned.old assigned.new }
    {
        match self.inspect(arena, assigned, node) {
            Found::True => {
                self.lists.keep();
                Ok(true)
            }
            Found::Open(place) => {
                let literal = arena.literal_at(place as usize);
                self.lists.settle(list_of(literal))?;
                self.at[node] = place;
                write_literal(&mut self.copies, node, literal);
                Ok(true)
            }
            Found::Forced(literal) => {
                assigned.put(literal, level, (node / 2) as u64 + 1);
                self.lists.keep();
                Ok(true)
            }
            Found::False => Ok(false),
        }
    }

    /// Takes the loose nodes in turn, up to one whose clause is false, and gives that clause's number. The only error is
    /// want of memory.
    pub fn visit(
        &mut self,
        arena: &Arena,
        assigned: &mut Assigned,
        level: u64,
    ) -> Result<Option<u64>, AllocError>
        requires variables { HasValues arena.now assigned.old }
        requires woven { AreWoven arena.now self.old }
        requires copied { AreCopied arena.now self.old }
        ensures variables { length assigned.new.values ≡ length assigned.old.values }
        ensures woven { AreWoven arena.now self.new }
        ensures copied { AreCopied arena.now self.new }
        ensures kept { StayWatched arena.now self.old assigned.old self.new assigned.new }
        ensures forced { Propagates arena.now level assigned.old assigned.new }
        ensures none_loose { IfOk result (λ o. IfNone o (self.new.lists.loose ≡ [])) }
        ensures visited { IfOk result (λ o. IfNone o ((w : ℤ) →
            Contains assigned.old.trail (neg_ℤ w) →
            AreVisited arena.now self.old assigned.old w →
            AreVisited arena.now self.new assigned.new w)) }
        ensures false_clause { IfOk result (λ o. IfSome o (IsFalseClause arena.now self.new
            assigned.new)) }
    {
        'nodes: while let Some(node) = self.lists.first() {
            let is_settled = self.take(arena, assigned, node, level)?;
            if !is_settled {
                return Ok(Some((node / 2) as u64 + 1));
            }
        }
        Ok(None)
    }

    /// Puts what is left of the loose nodes back, which ends the walk.
    pub fn restore(&mut self, arena: &Arena)
        requires woven { AreWoven arena.now self.old }
        ensures woven { AreWoven arena.now self.new }
        ensures at { self.new.at.items ≡ self.old.at.items }
        ensures copies { self.new.copies.items ≡ self.old.copies.items }
        ensures at_rest { AreAtRest self.new.lists }
    {
        'nodes: while let Some(_node) = self.lists.first() {
            self.lists.keep();
        }
        self.lists.finish();
    }
}
