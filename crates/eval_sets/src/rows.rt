//! Sets made tuple by tuple: what is kept of a set, and what is added to one.

ghost use Rattle.std.specs.Prelude.{◌≡◌, ◌≤◌, ◌↔◌, ◌⊎◌, ◌++◌, ◌∷◌, [], ℕ, List, length, slice_index, All, IsTrue, IfOk, OnOk, OnErr, MatchOption};
ghost use Rattle.core_tuples.specs.Index.{IsNumber};
ghost use Rattle.core_tuples.specs.Sets.{In};
ghost use Rattle.core_meaning.specs.Operators.{IsListOf};
ghost use Rattle.eval_sets.specs.SetOf.{IsSetOf, Gains};
ghost use Rattle.eval_sets.specs.Rows.{Begins, Ends, Passes, GivesItself, GivesFirst, GivesTwice, GivesAfter, GivesBefore};

use crate::fault::EvaluationFault;
use core_tuples::{Keyed, Tuple, TupleSet};
use std::alloc::{AllocError, Global};

/// Which tuples of a set are kept, by another set.
#[derive(Clone, Copy, Debug, PartialEq, Eq, Drop)]
pub enum Rule {
    /// Those whose first number is in a set of one column.
    BeginsIn,
    /// Those whose last number is in a set of one column.
    EndsIn,
    /// Those whose first number isn't in a set of one column.
    BeginsApart,
}

/// Whether a tuple has this many columns and numbers below 16,384.
fn is_row(tuple: &Tuple, arity: u32) -> bool
    ensures { IsTrue result ↔ ((length tuple.now ≡ arity) × All IsNumber tuple.now) }
{
    // Atoms, S66: there are at most 16,384 atoms and integers.
    tuple.numbers().len() == arity as usize && tuple.numbers().iter().all(|x| *x < 16384)
}

/// Adds a tuple. One of other columns than the set's, or with a number above 16,383, is unfit. After
/// a fault the set is as before.
pub fn put(set: &mut TupleSet, tuple: Tuple) -> Result<(), EvaluationFault>
    ensures ok { OnOk result (IsSetOf set.new (λ t. In t set.old ⊎ (t ≡ tuple))) }
    ensures err { OnErr result (set.new ≡ set.old) }
{
    if !is_row(&tuple, set.arity()) {
        return Err(EvaluationFault::Unfit);
    }
    set.insert(tuple)?;
    Ok(())
}

/// An empty set: of so many columns, where a set may have so many, else of one.
pub fn empty_of(alloc: Global, columns: usize) -> TupleSet
    ensures { IsSetOf result (λ _. ⊥) }
{
    // ArityLimit, S47: a relation has at most nine columns.
    if columns >= 1 && columns <= 9 {
        return TupleSet::empty(alloc, columns as u32);
    }
    TupleSet::empty(alloc, 1)
}

/// The set of one number; one above 16,383 is unfit.
pub fn single(alloc: Global, number: u32) -> Result<TupleSet, EvaluationFault>
    ensures { IfOk result (λ s. IsSetOf s (λ t. t ≡ number ∷ [])) }
{
    let mut set = TupleSet::empty(alloc, 1);
    let row = Tuple::of(alloc, &[number])?;
    put(&mut set, row)?;
    Ok(set)
}

/// Whether a number is the only number of a tuple of a set.
fn has_single(alloc: Global, set: &TupleSet, number: u32) -> Result<bool, AllocError>
    ensures { IfOk result (λ b. IsTrue b ↔ In (number ∷ []) set.now) }
{
    Ok(set.contains(&Tuple::of(alloc, &[number])?))
}

/// Whether a tuple begins with a number of a set of one column.
fn begins_in(alloc: Global, tuple: &Keyed, atoms: &TupleSet) -> Result<bool, AllocError>
    ensures { IfOk result (λ b. IsTrue b ↔ Begins atoms.now tuple.now) }
{
    let numbers = tuple.numbers();
    if numbers.len() == 0 {
        return Ok(false);
    }
    has_single(alloc, atoms, numbers[0])
}

/// The last number of a tuple.
fn last_of(tuple: &Keyed) -> Option<u32>
    ensures { MatchOption result (length tuple.now ≡ 0)
        (λ x. (r : List ℕ) × (tuple.now ≡ r ++ x ∷ [])) }
{
    let numbers = tuple.numbers();
    let count = numbers.len();
    if count == 0 {
        return None;
    }
    let place = count - 1;
    Some(numbers[place])
}

/// Whether a tuple ends with a number of a set of one column.
fn ends_in(alloc: Global, tuple: &Keyed, atoms: &TupleSet) -> Result<bool, AllocError>
    ensures { IfOk result (λ b. IsTrue b ↔ Ends atoms.now tuple.now) }
{
    match last_of(tuple) {
        Some(last) => has_single(alloc, atoms, last),
        None => Ok(false),
    }
}

/// Whether a tuple passes a rule.
fn passes(alloc: Global, rule: Rule, tuple: &Keyed, atoms: &TupleSet) -> Result<bool, AllocError>
    ensures { IfOk result (λ b. IsTrue b ↔ Passes rule atoms.now tuple.now) }
{
    match rule {
        Rule::BeginsIn => begins_in(alloc, tuple, atoms),
        Rule::EndsIn => ends_in(alloc, tuple, atoms),
        Rule::BeginsApart => Ok(!begins_in(alloc, tuple, atoms)?),
    }
}

/// Adds a tuple where it passes a rule.
fn add_passing(
    alloc: Global,
    rule: Rule,
    tuple: &Keyed,
    atoms: &TupleSet,
    all: &mut TupleSet,
) -> Result<(), EvaluationFault>
    ensures { OnOk result (Gains all.old all.new (GivesItself rule atoms.now) tuple.now) }
{
    if !passes(alloc, rule, tuple, atoms)? {
        return Ok(());
    }
    let row = Tuple::of(alloc, tuple.numbers())?;
    put(all, row)
}

/// The tuples of a set that pass a rule.
pub fn passing(
    alloc: Global,
    rule: Rule,
    set: &TupleSet,
    atoms: &TupleSet,
) -> Result<TupleSet, EvaluationFault>
    ensures { IfOk result (λ s. IsSetOf s (λ t. In t set.now × Passes rule atoms.now t)) }
{
    let mut all = empty_of(alloc, set.arity() as usize);
    let tuples = set.keyed();
    for tuple in tuples {
        add_passing(alloc, rule, tuple, atoms, &mut all)?;
    }
    Ok(all)
}

/// Adds a tuple's first number.
fn add_first(alloc: Global, tuple: &Keyed, all: &mut TupleSet) -> Result<(), EvaluationFault>
    ensures { OnOk result (Gains all.old all.new GivesFirst tuple.now) }
{
    let numbers = tuple.numbers();
    if numbers.len() == 0 {
        return Ok(());
    }
    let first = numbers[0];
    let row = Tuple::of(alloc, &[first])?;
    put(all, row)
}

/// The first numbers of a set's tuples.
pub fn firsts(alloc: Global, set: &TupleSet) -> Result<TupleSet, EvaluationFault>
    ensures { IfOk result (λ s. IsSetOf s (λ t. (x : ℕ) × (r : List ℕ) × In (x ∷ r) set.now
        × (t ≡ x ∷ []))) }
{
    let mut all = TupleSet::empty(alloc, 1);
    let tuples = set.keyed();
    for tuple in tuples {
        add_first(alloc, tuple, &mut all)?;
    }
    Ok(all)
}

/// Adds the pair of a single number with itself.
fn add_twice(alloc: Global, tuple: &Keyed, all: &mut TupleSet) -> Result<(), EvaluationFault>
    ensures { OnOk result (Gains all.old all.new GivesTwice tuple.now) }
{
    let numbers = tuple.numbers();
    if numbers.len() != 1 {
        return Ok(());
    }
    let number = numbers[0];
    let row = Tuple::of(alloc, &[number, number])?;
    put(all, row)
}

/// The pairs of each member of a set of one column with itself.
pub fn identity(alloc: Global, set: &TupleSet) -> Result<TupleSet, EvaluationFault>
    ensures { IfOk result (λ s. IsSetOf s (λ t. (x : ℕ) × In (x ∷ []) set.now × (t ≡ x ∷ x ∷ []))) }
{
    let mut all = TupleSet::empty(alloc, 2);
    let tuples = set.keyed();
    for tuple in tuples {
        add_twice(alloc, tuple, &mut all)?;
    }
    Ok(all)
}

/// Adds what follows some numbers in a tuple that begins with them.
fn add_after(
    alloc: Global,
    begin: &[u32],
    tuple: &Keyed,
    all: &mut TupleSet,
) -> Result<(), EvaluationFault>
    ensures { OnOk result (Gains all.old all.new (GivesAfter begin.now) tuple.now) }
{
    match tuple.numbers().strip_prefix(begin) {
        Some(rest) => {
            let row = Tuple::of(alloc, rest)?;
            put(all, row)
        }
        None => Ok(()),
    }
}

/// What follows some numbers in the tuples that begin with them; what has no number is unfit.
pub fn rows_after(alloc: Global, set: &TupleSet, begin: &[u32]) -> Result<TupleSet, EvaluationFault>
    ensures { IfOk result (λ s. IsSetOf s (λ t. In (begin.now ++ t) set.now)) }
{
    let mut all = empty_of(alloc, (set.arity() as usize).saturating_sub(begin.len()));
    let tuples = set.keyed();
    for tuple in tuples {
        add_after(alloc, begin, tuple, &mut all)?;
    }
    Ok(all)
}

/// Adds what stands before some numbers in a tuple that ends with them.
fn add_before(
    alloc: Global,
    end: &[u32],
    tuple: &Keyed,
    all: &mut TupleSet,
) -> Result<(), EvaluationFault>
    ensures { OnOk result (Gains all.old all.new (GivesBefore end.now) tuple.now) }
{
    match tuple.numbers().strip_suffix(end) {
        Some(rest) => {
            let row = Tuple::of(alloc, rest)?;
            put(all, row)
        }
        None => Ok(()),
    }
}

/// What stands before some numbers in the tuples that end with them; what has no number is unfit.
pub fn rows_before(alloc: Global, set: &TupleSet, end: &[u32]) -> Result<TupleSet, EvaluationFault>
    ensures { IfOk result (λ s. IsSetOf s (λ t. In (t ++ end.now) set.now)) }
{
    let mut all = empty_of(alloc, (set.arity() as usize).saturating_sub(end.len()));
    let tuples = set.keyed();
    for tuple in tuples {
        add_before(alloc, end, tuple, &mut all)?;
    }
    Ok(all)
}

/// The first number of a tuple.
fn first_of(tuple: &Keyed) -> u32
    requires { 1 ≤ length tuple.now }
    ensures { result ≡ slice_index tuple.now 0 }
{
    tuple.numbers()[0]
}

/// The members of a set of one column, in order; of another set none.
pub fn atoms_in(alloc: Global, set: &TupleSet) -> Result<Vec<u32>, AllocError>
    ensures { IfOk result (λ v. IsListOf (λ x. In (x ∷ []) set.now) v.items) }
{
    let mut all = Vec::new(alloc);
    if set.arity() != 1 {
        return Ok(all);
    }
    let tuples = set.keyed();
    for tuple in tuples {
        all.push(first_of(tuple))?;
    }
    Ok(all)
}
