//! Operators and tests on two sets or integers of the store, named by their numbers.

ghost use Rattle.std.specs.Prelude.{◌≡◌, ◌↔◌, ◌∷◌, [], ◌++◌, ℕ, Bool, true, List, Some, IfOk, OnOk, slice_get};
ghost use Rattle.gate_trait.specs.Built.{Keeps, AllIn};
ghost use Rattle.gate_trait.specs.declared.node.Node.{Node as CircuitNode};
ghost use Rattle.gate_matrix.specs.Matrices.{AllBelong, MatrixEntries};
ghost use Rattle.gate_operators.specs.Sets.{MeansSet, set_of};
ghost use Rattle.gate_sets.specs.Sets.{tuples_made, IsAnswered};
ghost use Rattle.bmc_stack.specs.Rows.{Grows, AreBeside, HasTop};
ghost use Rattle.bmc_stack.specs.Steps.{MakesSet, AnswersSets, AddsAnswer};
ghost use Rattle.bmc_stack.specs.Stored.{AreStored};

use crate::basics::{add_integer, add_matrix};
use crate::steps::extend_top;
use crate::store::Store;
use core_tree::{Comparison, IntOp};
use core_tuples::Universe;
use gate_integers::Bits;
use gate_matrix::Matrix;
use gate_numbers::{calculate, compare, count_of, integer_of, matrix_of};
use gate_sets::{Question, SetOperator, apply, ask};
use gate_trait::{Gates, Node};
use std::alloc::{AllocError, Global};

/// An operator on one or two sets or integers. That on one is given it twice.
#[derive(Clone, Copy, Debug, PartialEq, Eq)]
pub enum Operator {
    /// A set of two sets.
    OfSets(SetOperator),
    /// An integer of two integers.
    OfIntegers(IntOp),
    /// The number of tuples of a set.
    Count,
    /// The sum of the integers of a set.
    Total,
    /// The set of one integer.
    AsSet,
}

/// A test of one or two sets or integers. That of one is given it twice.
#[derive(Clone, Copy, Debug, PartialEq, Eq)]
pub enum TestOperator {
    OfSets(Question),
    OfIntegers(Comparison),
}

/// What an operator gives of two sets; the empty set where there are none of these numbers.
fn set_of_sets<G: Gates>(
    alloc: Global,
    gates: &mut G,
    store: &Store,
    op: SetOperator,
    a: usize,
    b: usize,
) -> Result<Matrix, AllocError>
    requires { AreStored (G.belongs gates.old) store.now }
    ensures keeps { Keeps G.belongs G.node_value gates.old gates.new }
    ensures belongs { IfOk result (λ m. AllBelong (G.belongs gates.new) m.entries) }
    ensures means { IfOk result (λ m. (p q : MatrixEntries) →
        slice_get store.now.matrices.items a ≡ Some p →
        slice_get store.now.matrices.items b ≡ Some q
        → (x : ℕ → Bool) → MeansSet (G.node_value gates.new x) m
        (tuples_made op (set_of (G.node_value gates.old x) p)
        (set_of (G.node_value gates.old x) q))) }
{
    if a >= store.matrices.len() || b >= store.matrices.len() {
        return Ok(Matrix::empty(alloc, 1));
    }
    apply(alloc, gates, op, &store.matrices[a], &store.matrices[b])
}

/// What an operator gives of two integers; no bits where there are none of these numbers.
fn integer_of_integers<G: Gates>(
    alloc: Global,
    gates: &mut G,
    store: &Store,
    op: IntOp,
    a: usize,
    b: usize,
) -> Result<Bits, AllocError>
    requires { AreStored (G.belongs gates.old) store.now }
    ensures keeps { Keeps G.belongs G.node_value gates.old gates.new }
    ensures belongs { IfOk result (λ s. AllIn (G.belongs gates.new) s) }
{
    if a >= store.integers.len() || b >= store.integers.len() {
        return Ok(Bits::new(alloc));
    }
    calculate(alloc, gates, op, &store.integers[a], &store.integers[b])
}

/// The number of tuples of a set; no bits where there is none of this number.
fn count_at<G: Gates>(
    alloc: Global,
    gates: &mut G,
    store: &Store,
    universe: Universe,
    a: usize,
) -> Result<Bits, AllocError>
    requires { AreStored (G.belongs gates.old) store.now }
    ensures keeps { Keeps G.belongs G.node_value gates.old gates.new }
    ensures belongs { IfOk result (λ s. AllIn (G.belongs gates.new) s) }
{
    if a >= store.matrices.len() {
        return Ok(Bits::new(alloc));
    }
    count_of(alloc, gates, universe.bits, &store.matrices[a])
}

/// The sum of the integers of a set; no bits where there is none of this number.
fn total_at<G: Gates>(
    alloc: Global,
    gates: &mut G,
    store: &Store,
    universe: Universe,
    a: usize,
) -> Result<Bits, AllocError>
    requires { AreStored (G.belongs gates.old) store.now }
    ensures keeps { Keeps G.belongs G.node_value gates.old gates.new }
    ensures belongs { IfOk result (λ s. AllIn (G.belongs gates.new) s) }
{
    if a >= store.matrices.len() {
        return Ok(Bits::new(alloc));
    }
    integer_of(alloc, gates, universe, &store.matrices[a])
}

/// The set of an integer; the empty set where there is none of this number.
fn set_at<G: Gates>(
    alloc: Global,
    gates: &mut G,
    store: &Store,
    universe: Universe,
    a: usize,
) -> Result<Matrix, AllocError>
    requires { AreStored (G.belongs gates.old) store.now }
    ensures keeps { Keeps G.belongs G.node_value gates.old gates.new }
    ensures belongs { IfOk result (λ m. AllBelong (G.belongs gates.new) m.entries) }
{
    if a >= store.integers.len() {
        return Ok(Matrix::empty(alloc, 1));
    }
    matrix_of(alloc, gates, universe, &store.integers[a])
}

/// Adds what an operator gives of two sets, and gives its number.
fn add_set<G: Gates>(
    alloc: Global,
    gates: &mut G,
    store: &mut Store,
    op: SetOperator,
    pair: (usize, usize),
) -> Result<usize, AllocError>
    requires { AreStored (G.belongs gates.old) store.old }
    ensures keeps { Keeps G.belongs G.node_value gates.old gates.new }
    ensures stored { OnOk result (AreStored (G.belongs gates.new) store.new) }
    ensures grows { OnOk result (Grows store.old store.new) }
    ensures makes { IfOk result (λ k. (p q : MatrixEntries) →
        slice_get store.old.matrices.items pair.0 ≡ Some p →
        slice_get store.old.matrices.items pair.1 ≡ Some q
        → (m : MatrixEntries) × (slice_get store.new.matrices.items k ≡ Some m)
        × ((x : ℕ → Bool) → MeansSet (G.node_value gates.new x) m
        (tuples_made op (set_of (G.node_value gates.old x) p)
        (set_of (G.node_value gates.old x) q)))) }
{
    let new = set_of_sets(alloc, gates, store, op, pair.0, pair.1)?;
    let number = add_matrix(gates, store, new)?;
    Ok(number)
}

/// Adds what the operator gives, and gives its number.
pub fn apply_at<G: Gates>(
    alloc: Global,
    gates: &mut G,
    store: &mut Store,
    universe: Universe,
    op: Operator,
    pair: (usize, usize),
) -> Result<usize, AllocError>
    requires { AreStored (G.belongs gates.old) store.old }
    ensures keeps { Keeps G.belongs G.node_value gates.old gates.new }
    ensures stored { OnOk result (AreStored (G.belongs gates.new) store.new) }
    ensures grows { OnOk result (Grows store.old store.new) }
    ensures sets { IfOk result (λ k. MakesSet op (G.node_value gates.old) (G.node_value gates.new)
        store.old.matrices.items store.new.matrices.items pair k) }
{
    match op {
        Operator::OfSets(op) => {
            let number = add_set(alloc, gates, store, op, pair)?;
            Ok(number)
        }
        Operator::OfIntegers(op) => {
            let new = integer_of_integers(alloc, gates, store, op, pair.0, pair.1)?;
            add_integer(gates, store, new)
        }
        Operator::Count => {
            let new = count_at(alloc, gates, store, universe, pair.0)?;
            add_integer(gates, store, new)
        }
        Operator::Total => {
            let new = total_at(alloc, gates, store, universe, pair.0)?;
            add_integer(gates, store, new)
        }
        Operator::AsSet => {
            let new = set_at(alloc, gates, store, universe, pair.0)?;
            add_matrix(gates, store, new)
        }
    }
}

/// Whether two sets pass the test; never where there are none of these numbers.
fn ask_sets<G: Gates>(
    alloc: Global,
    gates: &mut G,
    store: &Store,
    question: Question,
    a: usize,
    b: usize,
) -> Result<Node, AllocError>
    requires { AreStored (G.belongs gates.old) store.now }
    ensures keeps { Keeps G.belongs G.node_value gates.old gates.new }
    ensures belongs { IfOk result (λ n. G.belongs gates.new n) }
    ensures means { IfOk result (λ n. (p q : MatrixEntries) →
        slice_get store.now.matrices.items a ≡ Some p →
        slice_get store.now.matrices.items b ≡ Some q
        → (x : ℕ → Bool) → (G.node_value gates.new x n ≡ true)
        ↔ IsAnswered question (set_of (G.node_value gates.old x) p)
        (set_of (G.node_value gates.old x) q)) }
{
    if a >= store.matrices.len() || b >= store.matrices.len() {
        return Ok(gates.constant(false));
    }
    ask(
        alloc,
        gates,
        question,
        &store.matrices[a],
        &store.matrices[b],
    )
}

/// Whether two integers compare so; never where there are none of these numbers.
fn ask_integers<G: Gates>(
    alloc: Global,
    gates: &mut G,
    store: &Store,
    op: Comparison,
    a: usize,
    b: usize,
) -> Result<Node, AllocError>
    requires { AreStored (G.belongs gates.old) store.now }
    ensures keeps { Keeps G.belongs G.node_value gates.old gates.new }
    ensures belongs { IfOk result (λ n. G.belongs gates.new n) }
{
    if a >= store.integers.len() || b >= store.integers.len() {
        return Ok(gates.constant(false));
    }
    compare(alloc, gates, op, &store.integers[a], &store.integers[b])
}

/// Whether two sets or integers pass the test; never where there are none of these numbers.
fn ask_pair<G: Gates>(
    alloc: Global,
    gates: &mut G,
    store: &Store,
    question: TestOperator,
    pair: (usize, usize),
) -> Result<Node, AllocError>
    requires { AreStored (G.belongs gates.old) store.now }
    ensures keeps { Keeps G.belongs G.node_value gates.old gates.new }
    ensures belongs { IfOk result (λ n. G.belongs gates.new n) }
    ensures sets { IfOk result (λ n. AnswersSets question (G.node_value gates.old)
        (G.node_value gates.new) store.now.matrices.items pair n) }
{
    match question {
        TestOperator::OfSets(question) => {
            ask_sets(alloc, gates, store, question, pair.0, pair.1)
        }
        TestOperator::OfIntegers(op) => ask_integers(alloc, gates, store, op, pair.0, pair.1),
    }
}

/// Adds whether the test is passed to the row on top.
pub fn ask_at<G: Gates>(
    alloc: Global,
    gates: &mut G,
    store: &mut Store,
    question: TestOperator,
    pair: (usize, usize),
) -> Result<(), AllocError>
    requires { AreStored (G.belongs gates.old) store.old }
    ensures keeps { Keeps G.belongs G.node_value gates.old gates.new }
    ensures stored { OnOk result (AreStored (G.belongs gates.new) store.new) }
    ensures beside { OnOk result (AreBeside store.old store.new) }
    ensures rows { OnOk result ((rest : List (List CircuitNode)) (f : List CircuitNode) →
        store.old.rows.items ≡ rest ++ f ∷ []
        → HasTop rest store.new.rows.items (AddsAnswer question (G.node_value gates.old)
        (G.node_value gates.new) store.old.matrices.items pair f)) }
{
    let node = ask_pair(alloc, gates, store, question, pair)?;
    extend_top(alloc, gates, store, node)?;
    Ok(())
}
