//! Lassos: finitely many states that stand for an infinite sequence.

ghost use Rattle.std.specs.Prelude.{◌≡◌, ◌<◌, ◌≤◌, ◌^◌, [], ◌∷◌, ◌++◌, length, MatchOption, IfOk, OnOk, OnErr, slice_get, Some};

use core_tuples::TupleSet;
use std::alloc::{AllocError, Global};
use std::marker::Model;

/// A state: one set of tuples for each relation, first those of the sigs and then those of the
/// fields. Contracts see it as the list of the sets.
#[derive(Drop)]
pub struct State {
    sets: Vec<TupleSet>,
}

impl Model for State {
    ghost use Rattle.std.specs.Prelude.{List};
    ghost use Rattle.core_tuples.specs.Sets.{TupleList};

    ghost Value = { List TupleList };

    ghost view = { λ s. s.sets.items };
}

impl State {
    /// The state of no relation.
    pub fn new(alloc: Global) -> State
        ensures { result ≡ [] }
    {
        State {
            sets: Vec::new(alloc),
        }
    }

    /// Adds the set of the next relation.
    pub fn push(&mut self, set: TupleSet) -> Result<(), AllocError>
        ensures ok { OnOk result (self.new ≡ self.old ++ set ∷ []) }
        ensures err { OnErr result (self.new ≡ self.old) }
    {
        self.sets.push(set)?;
        Ok(())
    }

    /// How many relations it has.
    pub fn len(&self) -> usize
        ensures { result ≡ length self.now }
    {
        self.sets.len()
    }

    /// An equal state.
    pub fn copy(&self, alloc: Global) -> Result<State, AllocError>
        ensures { IfOk result (λ s. s ≡ self.now) }
    {
        Ok(State {
            sets: set_copies(alloc, &self.sets)?,
        })
    }

    /// The set of a relation.
    pub fn get(&self, relation: usize) -> &TupleSet
        requires { relation < length self.now }
        ensures { slice_get self.now relation ≡ Some result.now }
    {
        &self.sets[relation]
    }
}

/// Equal sets.
fn set_copies(alloc: Global, sets: &[TupleSet]) -> Result<Vec<TupleSet>, AllocError>
    ensures { IfOk result (λ v. v.items ≡ sets.now) }
{
    let mut all = Vec::new(alloc);
    for set in sets {
        all.push(set.copy(alloc)?)?;
    }
    Ok(all)
}

/// Equal states.
fn state_copies(alloc: Global, states: &[State]) -> Result<Vec<State>, AllocError>
    ensures { IfOk result (λ v. v.items ≡ states.now) }
{
    let mut all = Vec::new(alloc);
    for state in states {
        all.push(state.copy(alloc)?)?;
    }
    Ok(all)
}

/// Finitely many states, and the loop index: the place to which one goes from the last. There are
/// fewer than 2^32 states, and the loop index is below their number.
#[derive(Drop)]
pub struct Lasso {
    states: Vec<State>,
    loop_start: u32,
}

impl Model for Lasso {
    ghost use Rattle.std.specs.Prelude.{◌<◌, ◌^◌, length};
    ghost use Rattle.core_meaning.specs.Sequence.{LassoValue};

    ghost Value = { LassoValue };

    ghost view = { λ l. record { states = l.states.items; loop_start = l.loop_start } };

    ghost invariant = { λ l. (l.loop_start < length l.states.items) × (length l.states.items < 2 ^ 32) };
}

/// The lasso of these states and this loop index: none exactly where there is no state or the index
/// isn't below their number.
pub fn make_lasso(states: Vec<State>, loop_start: u32) -> Option<Lasso>
    requires { length states.items < 2 ^ 32 }
    ensures { MatchOption result (length states.items ≤ loop_start)
        (λ l. (loop_start < length states.items) × (l
        ≡ record { states = states.items; loop_start = loop_start })) }
{
    if loop_start as usize >= states.len() {
        return None;
    }
    Some(Lasso { states, loop_start })
}

impl Lasso {
    ghost use Rattle.core_meaning.specs.Sequence.{place_of};

    /// How many states it has.
    pub fn states(&self) -> u32
        ensures count { result ≡ length self.now.states }
        ensures some { self.now.loop_start < result }
    {
        self.states.len() as u32
    }

    /// The place to which one goes from the last state.
    pub fn loop_start(&self) -> u32
        ensures { result ≡ self.now.loop_start }
    {
        self.loop_start
    }

    /// An equal lasso.
    pub fn copy(&self, alloc: Global) -> Result<Lasso, AllocError>
        ensures { IfOk result (λ l. l ≡ self.now) }
    {
        Ok(Lasso {
            states: state_copies(alloc, &self.states)?,
            loop_start: self.loop_start,
        })
    }

    /// The state that a position shows: past the last state one goes round from the loop index.
    pub fn at(&self, position: u64) -> &State
        ensures { slice_get self.now.states (place_of self.now position) ≡ Some result.now }
    {
        let count = self.states.len() as u64;
        let start = self.loop_start as u64;
        let mut place = position;
        if position >= count {
            place = start + (position - start) % (count - start);
        }
        &self.states[place as usize]
    }
}
