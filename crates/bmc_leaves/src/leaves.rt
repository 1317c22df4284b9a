//! The sets of leaves at all places: relations, names, `univ`, `iden` and the integers.

ghost use Rattle.std.specs.Prelude.{◌≡◌, ◌<◌, ◌≤◌, ◌+◌, ◌^◌, ◌∷◌, [], ◌++◌, ℕ, Bool, true, OnOk, IfOk, Some, IsTrue, All, slice_get, length, map};
ghost use Rattle.gate_trait.specs.Built.{Keeps};
ghost use Rattle.gate_matrix.specs.Matrices.{MatrixEntries};
ghost use Rattle.gate_operators.specs.Sets.{MeansSet};
ghost use Rattle.bmc_stack.specs.Rows.{Grows};
ghost use Rattle.bmc_stack.specs.Stored.{AreStored};
ghost use Rattle.core_meaning.specs.declared.scopes.SigScope.{SigScope as ScopeOfSig};
ghost use Rattle.core_meaning.specs.Kept.{world_of};
ghost use Rattle.core_tree.specs.Trees.{name as named, empty as nothing};
ghost use Rattle.bmc_leaves.specs.Shown.{Atoms, atom_in, under, IsReading, HaveTuples, AreOf, of_relation, of_univ, of_iden, of_int, AreRight};
ghost use Rattle.bmc_leaves.specs.Relations.{AddsState, AtStates, AtShown, HasOneColumn, univ_below, reading_of};

use crate::scopes::{cells_of, first_variable};
use crate::setting::Setting;
use bmc_stack::{Operator, Store, add_matrix, combined, one_set};
use bmc_windows::{found_at, moved, repeated};
use bound_uppers::{Bound, Cells};
use core_meaning::SigScope;
use core_tree::RelationOp;
use core_tuples::TupleSet;
use gate_matrix::Matrix;
use gate_sets::{SetOperator, atom_matrix, range_matrix, relation_matrix};
use gate_trait::Gates;
use std::alloc::{AllocError, Global};

/// The empty set at each place.
pub fn no_set<G: Gates>(
    alloc: Global,
    gates: &G,
    store: &mut Store,
    setting: &Setting,
) -> Result<Vec<usize>, AllocError>
    requires { AreStored (G.belongs gates.now) store.old }
    ensures stored { OnOk result (AreStored (G.belongs gates.now) store.new) }
    ensures grows { OnOk result (Grows store.old store.new) }
    ensures right { IfOk result (λ numbers. (depth : ℕ) (atoms : Atoms) →
        IsReading (reading_of setting.now depth)
        → AreRight (under (reading_of setting.now depth) atoms) (G.node_value gates.now)
        store.new.matrices.items nothing numbers.items) }
{
    let matrix = Matrix::empty(alloc, 1);
    let count = setting.frame.shown.len();
    let row = one_set(alloc, gates, store, matrix, count)?;
    Ok(row)
}

/// Adds the set that a relation has at a state, and gives its number.
fn add_state<G: Gates>(
    alloc: Global,
    gates: &mut G,
    store: &mut Store,
    bound: &Bound,
    cells: Cells,
    state: u32,
) -> Result<usize, AllocError>
    requires { AreStored (G.belongs gates.old) store.old }
    ensures keeps { Keeps G.belongs G.node_value gates.old gates.new }
    ensures stored { OnOk result (AreStored (G.belongs gates.new) store.new) }
    ensures grows { OnOk result (Grows store.old store.new) }
    ensures adds { IfOk result (λ k. AddsState (G.node_value gates.new) store.new.matrices.items
        bound.now cells state k) }
{
    let first = first_variable(cells, bound.fixed, state)?;
    let matrix = relation_matrix(alloc, gates, &bound.upper, first)?;
    let number = add_matrix(gates, store, matrix)?;
    Ok(number)
}

/// Adds the sets that a relation has at so many states, and gives their numbers.
fn add_states<G: Gates>(
    alloc: Global,
    gates: &mut G,
    store: &mut Store,
    bound: &Bound,
    cells: Cells,
    states: u32,
) -> Result<Vec<usize>, AllocError>
    requires { AreStored (G.belongs gates.old) store.old }
    ensures keeps { Keeps G.belongs G.node_value gates.old gates.new }
    ensures stored { OnOk result (AreStored (G.belongs gates.new) store.new) }
    ensures grows { OnOk result (Grows store.old store.new) }
    ensures sets { IfOk result (λ numbers. AtStates (G.node_value gates.new)
        store.new.matrices.items bound.now cells states numbers.items) }
{
    let mut numbers = Vec::new(alloc);
    for state in 0..states {
        let number = add_state(alloc, gates, store, bound, cells, state)?;
        numbers.push(number)?;
    }
    Ok(numbers)
}

/// The sets of a relation that is the same in all states: one set.
fn fixed_sets<G: Gates>(
    alloc: Global,
    gates: &mut G,
    store: &mut Store,
    setting: &Setting,
    bound: &Bound,
    cells: Cells,
) -> Result<Vec<usize>, AllocError>
    requires { AreStored (G.belongs gates.old) store.old }
    ensures keeps { Keeps G.belongs G.node_value gates.old gates.new }
    ensures stored { OnOk result (AreStored (G.belongs gates.new) store.new) }
    ensures grows { OnOk result (Grows store.old store.new) }
    ensures sets { IfOk result (λ numbers. bound.now.fixed ≡ true →
        AtShown (G.node_value gates.new) store.new.matrices.items bound.now cells
        setting.now.bounds.now.states setting.now.frame.now.shown.items numbers.items) }
{
    let numbers = add_states(alloc, gates, store, bound, cells, 1)?;
    let row = repeated(alloc, found_at(&numbers, 0), setting.frame.shown.len())?;
    Ok(row)
}

/// The sets of a relation: at each place that of the state that is shown there.
fn moving_sets<G: Gates>(
    alloc: Global,
    gates: &mut G,
    store: &mut Store,
    setting: &Setting,
    bound: &Bound,
    cells: Cells,
) -> Result<Vec<usize>, AllocError>
    requires { AreStored (G.belongs gates.old) store.old }
    ensures keeps { Keeps G.belongs G.node_value gates.old gates.new }
    ensures stored { OnOk result (AreStored (G.belongs gates.new) store.new) }
    ensures grows { OnOk result (Grows store.old store.new) }
    ensures sets { IfOk result (λ numbers. AtShown (G.node_value gates.new) store.new.matrices.items
        bound.now cells setting.now.bounds.now.states setting.now.frame.now.shown.items
        numbers.items) }
{
    let numbers = add_states(alloc, gates, store, bound, cells, setting.bounds.states)?;
    let row = moved(alloc, &numbers, &setting.frame.shown)?;
    Ok(row)
}

/// The sets of a relation that is fixed or not.
fn shown_sets<G: Gates>(
    alloc: Global,
    gates: &mut G,
    store: &mut Store,
    setting: &Setting,
    bound: &Bound,
    cells: Cells,
) -> Result<Vec<usize>, AllocError>
    requires { AreStored (G.belongs gates.old) store.old }
    ensures keeps { Keeps G.belongs G.node_value gates.old gates.new }
    ensures stored { OnOk result (AreStored (G.belongs gates.new) store.new) }
    ensures grows { OnOk result (Grows store.old store.new) }
    ensures sets { IfOk result (λ numbers. AtShown (G.node_value gates.new) store.new.matrices.items
        bound.now cells setting.now.bounds.now.states setting.now.frame.now.shown.items
        numbers.items) }
{
    if bound.fixed {
        let row = fixed_sets(alloc, gates, store, setting, bound, cells)?;
        return Ok(row);
    }
    moving_sets(alloc, gates, store, setting, bound, cells)
}

/// The tuples of a relation: one set for a fixed one, else one for each state. Its error is want of
/// memory, that there is no such relation, or that a variable's number would be too great.
pub fn relation_sets<G: Gates>(
    alloc: Global,
    gates: &mut G,
    store: &mut Store,
    setting: &Setting,
    number: usize,
) -> Result<Vec<usize>, AllocError>
    requires { AreStored (G.belongs gates.old) store.old }
    ensures keeps { Keeps G.belongs G.node_value gates.old gates.new }
    ensures stored { OnOk result (AreStored (G.belongs gates.new) store.new) }
    ensures grows { OnOk result (Grows store.old store.new) }
    ensures of { IfOk result (λ numbers. (depth : ℕ) → IsReading (reading_of setting.now depth) →
        AreOf (reading_of setting.now depth) (G.node_value gates.new) store.new.matrices.items
        (of_relation number) numbers.items) }
{
    let relations = setting.bounds.relations.as_slice();
    let cells = setting.layout.relations.as_slice();
    if number >= relations.len() || number >= cells.len() {
        return Err(AllocError);
    }
    let bound = &relations[number];
    let kept = cells_of(cells, number);
    let row = shown_sets(alloc, gates, store, setting, bound, kept)?;
    Ok(row)
}

/// The atom of a name, or the empty set.
pub fn name_sets<G: Gates>(
    alloc: Global,
    gates: &G,
    store: &mut Store,
    setting: &Setting,
    atom: Option<u32>,
) -> Result<Vec<usize>, AllocError>
    requires { AreStored (G.belongs gates.now) store.old }
    ensures stored { OnOk result (AreStored (G.belongs gates.now) store.new) }
    ensures grows { OnOk result (Grows store.old store.new) }
    ensures right { IfOk result (λ numbers. (depth : ℕ) (atoms : Atoms) (x : ℕ) →
        IsReading (reading_of setting.now depth) → atom ≡ atom_in atoms x
        → AreRight (under (reading_of setting.now depth) atoms) (G.node_value gates.now)
        store.new.matrices.items (named x) numbers.items) }
{
    let matrix = atom_matrix(alloc, gates, atom)?;
    let count = setting.frame.shown.len();
    let row = one_set(alloc, gates, store, matrix, count)?;
    Ok(row)
}

/// How many integers there are of a bitwidth, at most 16,384.
fn integer_count(bits: u32) -> u32
    ensures { bits ≤ 12 → result ≡ 2 ^ bits }
{
    if bits >= 14 {
        return 16384;
    }
    1u32 << bits
}

/// The integers.
pub fn integer_sets<G: Gates>(
    alloc: Global,
    gates: &G,
    store: &mut Store,
    setting: &Setting,
) -> Result<Vec<usize>, AllocError>
    requires { AreStored (G.belongs gates.now) store.old }
    ensures stored { OnOk result (AreStored (G.belongs gates.now) store.new) }
    ensures grows { OnOk result (Grows store.old store.new) }
    ensures of { IfOk result (λ numbers. (depth : ℕ) → IsReading (reading_of setting.now depth) →
        AreOf (reading_of setting.now depth) (G.node_value gates.now) store.new.matrices.items
        of_int numbers.items) }
{
    let first = setting.universe.atoms;
    let integers = integer_count(setting.universe.bits);
    let end = first.saturating_add(integers);
    let matrix = range_matrix(alloc, gates, first, end)?;
    let count = setting.frame.shown.len();
    let row = one_set(alloc, gates, store, matrix, count)?;
    Ok(row)
}

/// Whether all tuples of a set have one number.
fn has_one_column(upper: &TupleSet) -> bool
    ensures { IsTrue result → All (λ t. length t ≡ 1) upper.now.tuples }
{
    upper.arity() == 1
}

/// The tuples of the relation of a sig, which have one number each. Its error is want of memory, that there
/// is no such relation, that it has other columns, or that a variable's number would be too great.
fn sig_sets<G: Gates>(
    alloc: Global,
    gates: &mut G,
    store: &mut Store,
    setting: &Setting,
    number: usize,
) -> Result<Vec<usize>, AllocError>
    requires { AreStored (G.belongs gates.old) store.old }
    ensures keeps { Keeps G.belongs G.node_value gates.old gates.new }
    ensures stored { OnOk result (AreStored (G.belongs gates.new) store.new) }
    ensures grows { OnOk result (Grows store.old store.new) }
    ensures of { IfOk result (λ numbers. (depth : ℕ) → IsReading (reading_of setting.now depth) →
        AreOf (reading_of setting.now depth) (G.node_value gates.new) store.new.matrices.items
        (of_relation number) numbers.items) }
    ensures column { OnOk result ((depth : ℕ) → IsReading (reading_of setting.now depth) →
        HasOneColumn (reading_of setting.now depth) number) }
{
    let relations = setting.bounds.relations.as_slice();
    let cells = setting.layout.relations.as_slice();
    if number >= relations.len() || number >= cells.len() {
        return Err(AllocError);
    }
    let bound = &relations[number];
    let kept = cells_of(cells, number);
    if !has_one_column(&bound.upper) {
        return Err(AllocError);
    }
    let row = shown_sets(alloc, gates, store, setting, bound, kept)?;
    Ok(row)
}

/// Whether the sig of this number is top-level.
fn is_top(numbers: &[SigScope], number: usize) -> bool
    requires { number < length numbers.now }
    ensures { slice_get (map (λ (s : ScopeOfSig). s.top) numbers.now) number ≡ Some result }
{
    numbers[number].top
}

/// The tuples of a set and those of the sig of this number.
fn with_sig<G: Gates>(
    alloc: Global,
    gates: &mut G,
    store: &mut Store,
    setting: &Setting,
    number: usize,
    all: &[usize],
) -> Result<Vec<usize>, AllocError>
    requires store { AreStored (G.belongs gates.old) store.old }
    requires top { slice_get (map (λ (s : ScopeOfSig). s.top) setting.now.scopes.now.numbers) number
        ≡ Some true }
    ensures keeps { Keeps G.belongs G.node_value gates.old gates.new }
    ensures stored { OnOk result (AreStored (G.belongs gates.new) store.new) }
    ensures grows { OnOk result (Grows store.old store.new) }
    ensures more { IfOk result (λ row. (depth : ℕ) → IsReading (reading_of setting.now depth)
        → HaveTuples (reading_of setting.now depth) (G.node_value gates.old)
        store.old.matrices.items (λ lasso k. univ_below (world_of setting.now.scopes.now lasso)
        number k) all.now
        → HaveTuples (reading_of setting.now depth) (G.node_value gates.new)
        store.new.matrices.items (λ lasso k. univ_below (world_of setting.now.scopes.now lasso)
        (number + 1) k) row.items) }
{
    let more = sig_sets(alloc, gates, store, setting, number)?;
    let union = Operator::OfSets(SetOperator::Combine(RelationOp::Union));
    let row = combined(alloc, gates, store, setting.universe, union, all, &more)?;
    Ok(row)
}

/// The tuples of a set, and those of the sig of this number where it is top-level.
fn with_top<G: Gates>(
    alloc: Global,
    gates: &mut G,
    store: &mut Store,
    setting: &Setting,
    number: usize,
    all: Vec<usize>,
) -> Result<Vec<usize>, AllocError>
    requires store { AreStored (G.belongs gates.old) store.old }
    requires number { number < length setting.now.scopes.now.numbers }
    ensures keeps { Keeps G.belongs G.node_value gates.old gates.new }
    ensures stored { OnOk result (AreStored (G.belongs gates.new) store.new) }
    ensures grows { OnOk result (Grows store.old store.new) }
    ensures more { IfOk result (λ row. (depth : ℕ) → IsReading (reading_of setting.now depth)
        → HaveTuples (reading_of setting.now depth) (G.node_value gates.old)
        store.old.matrices.items (λ lasso k. univ_below (world_of setting.now.scopes.now lasso)
        number k) all.items
        → HaveTuples (reading_of setting.now depth) (G.node_value gates.new)
        store.new.matrices.items (λ lasso k. univ_below (world_of setting.now.scopes.now lasso)
        (number + 1) k) row.items) }
{
    let numbers = setting.scopes.numbers.as_slice();
    if !is_top(numbers, number) {
        return Ok(all);
    }
    let row = with_sig(alloc, gates, store, setting, number, all.as_slice())?;
    Ok(row)
}

/// The top-level sigs and the integers.
pub fn univ_sets<G: Gates>(
    alloc: Global,
    gates: &mut G,
    store: &mut Store,
    setting: &Setting,
) -> Result<Vec<usize>, AllocError>
    requires { AreStored (G.belongs gates.old) store.old }
    ensures keeps { Keeps G.belongs G.node_value gates.old gates.new }
    ensures stored { OnOk result (AreStored (G.belongs gates.new) store.new) }
    ensures grows { OnOk result (Grows store.old store.new) }
    ensures of { IfOk result (λ numbers. (depth : ℕ) → IsReading (reading_of setting.now depth) →
        AreOf (reading_of setting.now depth) (G.node_value gates.new) store.new.matrices.items
        of_univ numbers.items) }
{
    let mut all = integer_sets(alloc, gates, store, setting)?;
    let sigs = setting.scopes.numbers.as_slice();
    for number in 0..sigs.len() {
        all = with_top(alloc, gates, store, setting, number, all)?;
    }
    Ok(all)
}

/// The pairs of everything with itself.
pub fn iden_sets<G: Gates>(
    alloc: Global,
    gates: &mut G,
    store: &mut Store,
    setting: &Setting,
) -> Result<Vec<usize>, AllocError>
    requires { AreStored (G.belongs gates.old) store.old }
    ensures keeps { Keeps G.belongs G.node_value gates.old gates.new }
    ensures stored { OnOk result (AreStored (G.belongs gates.new) store.new) }
    ensures grows { OnOk result (Grows store.old store.new) }
    ensures of { IfOk result (λ numbers. (depth : ℕ) → IsReading (reading_of setting.now depth) →
        AreOf (reading_of setting.now depth) (G.node_value gates.new) store.new.matrices.items
        of_iden numbers.items) }
{
    let all = univ_sets(alloc, gates, store, setting)?;
    let identity = Operator::OfSets(SetOperator::Identity);
    let row = combined(alloc, gates, store, setting.universe, identity, &all, &all)?;
    Ok(row)
}
