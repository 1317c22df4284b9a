//! The lemmas that a search has dropped, and how some are dropped.

ghost use Rattle.std.specs.Prelude.{◌≡◌, ℕ, ℤ, ◌+◌, ◌<◌, ◌≤◌, [], List, true, false, length, slice_index_or, IfOk, OnOk, IsTrue};
ghost use Rattle.sat_lrat.specs.declared.line.Line.{Line};
ghost use Rattle.sat_lrat.specs.Step.{State};
ghost use Rattle.sat_dropped.specs.Entries.{list_at, HasEntry};
ghost use Rattle.sat_solver.specs.Covered.{IsIndexed};
ghost use Rattle.sat_solver.specs.Searched.{IsSearch};

use crate::policy::{Dropping, Policy};
use sat_dimacs::Cnf;
use sat_dropped::Dropped;
use sat_trail::Trail;
use std::alloc::{AllocError, Global};

/// What a search keeps of its lemmas beside the trail.
#[derive(Drop)]
pub(crate) struct Store {
    /// How many clauses the formula has. They come before the lemmas.
    pub first: usize,
    /// The dropped lemmas.
    pub dropped: Dropped,
    /// Which lemmas are dropped, and when.
    pub policy: Policy,
}

impl Store {
    /// No lemma yet, over so many variables.
    pub fn new(
        alloc: Global,
        cnf: &Cnf,
        variables: usize,
        dropping: Dropping,
    ) -> Result<Store, AllocError>
        ensures first { IfOk result (λ store. store.first ≡ length cnf.now.clauses) }
        ensures variables { IfOk result (λ store. store.dropped.variables ≡ variables) }
        ensures none { IfOk result (λ store. (c : ℕ) → (list_at store.dropped.signatures c ≡ [])
            × (list_at store.dropped.numbers c ≡ [])) }
    {
        Ok(Store {
            first: cnf.clauses.len(),
            dropped: Dropped::new(alloc, variables)?,
            policy: Policy::new(alloc, dropping),
        })
    }
}

/// Whether the lemma at a place is picked.
fn is_picked(picks: &[bool], place: usize) -> bool {
    match picks.get(place) {
        Some(pick) => *pick,
        None => false,
    }
}

/// Adds an entry of a clause, if it is picked, and tells whether it did.
fn file_if(
    trail: &Trail,
    dropped: &mut Dropped,
    number: u64,
    is_picked: bool,
) -> Result<bool, AllocError>
    requires indexed { IsIndexed trail.now dropped.old }
    requires number { (0 < number) × (number ≤ length trail.now.ends) }
    ensures indexed { OnOk result (IsIndexed trail.now dropped.new) }
    ensures kept { OnOk result ((n : ℕ) → HasEntry dropped.old n → HasEntry dropped.new n) }
    ensures filed { IfOk result (λ is_filed. IsTrue is_filed → HasEntry dropped.new number) }
{
    if !is_picked {
        return Ok(false);
    }
    let is_filed = dropped.add(trail, number)?;
    Ok(is_filed)
}

/// Adds an entry of each picked lemma, and marks just those clauses of the trail.
fn file_picked(
    alloc: Global,
    trail: &Trail,
    dropped: &mut Dropped,
    first: usize,
    picks: &[bool],
) -> Result<Vec<bool>, AllocError>
    requires indexed { IsIndexed trail.now dropped.old }
    ensures indexed { OnOk result (IsIndexed trail.now dropped.new) }
    ensures kept { OnOk result ((n : ℕ) → HasEntry dropped.old n → HasEntry dropped.new n) }
    ensures marked { IfOk result (λ marks. (i : ℕ) → slice_index_or marks.items i false ≡ true →
        (first ≤ i) × HasEntry dropped.new (i + 1)) }
{
    let mut marks = vec![in alloc; false; first]?;
    for place in first..trail.clause_count() as usize {
        let is_filed = file_if(
            trail,
            dropped,
            place as u64 + 1,
            is_picked(picks, place - first),
        )?;
        marks.push(is_filed)?;
    }
    Ok(marks)
}

/// Drops the lemmas that the policy picks.
pub(crate) fn reduce(alloc: Global, trail: &mut Trail, store: &mut Store) -> Result<(), AllocError>
    requires indexed { IsIndexed trail.old store.old.dropped }
    ensures variables { trail.new.variables ≡ trail.old.variables }
    ensures search { (formula : List (List ℤ)) (lines : List Line) (state : State) →
        IsSearch formula lines state trail.old store.old.first store.old.dropped →
        OnOk result (IsSearch formula lines state trail.new store.new.first store.new.dropped) }
{
    let picks = store.policy.picks(alloc)?;
    let first = store.first;
    let marks = file_picked(alloc, trail, &mut store.dropped, first, picks.as_slice())?;
    trail.detach(marks.as_slice());
    Ok(())
}
