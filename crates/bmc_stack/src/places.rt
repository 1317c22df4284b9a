//! Sets and integers at all places: what is the same at several places is built once.

ghost use Rattle.std.specs.Prelude.{◌≡◌, ◌∷◌, [], ◌++◌, ℕ, Bool, List, OnOk, IfOk, length, replicate};
ghost use Rattle.gate_trait.specs.declared.node.Node.{Node as CircuitNode};
ghost use Rattle.gate_trait.specs.Built.{Keeps};
ghost use Rattle.gate_matrix.specs.Matrices.{AllBelong};
ghost use Rattle.gate_sets.specs.declared.operators.SetOperator.{SetOperator as OperatorOfSets};
ghost use Rattle.gate_sets.specs.declared.questions.Question.{Question as QuestionOfSets};
ghost use Rattle.bmc_stack.specs.declared.numbers.Operator.TheVariants.{OfSets};
ghost use Rattle.bmc_stack.specs.declared.numbers.TestOperator.TheVariants.{OfSets as AskSets};
ghost use Rattle.bmc_stack.specs.Stored.{AreStored};
ghost use Rattle.bmc_stack.specs.Rows.{IsAdded, Grows, AreBeside, HasTop};
ghost use Rattle.bmc_stack.specs.Sets.{AreMade, AreAnswered};
ghost use Rattle.bmc_stack.specs.Steps.{AllMade, AllAnswered};

use crate::basics::add_matrix;
use crate::numbers::{Operator, TestOperator, apply_at, ask_at};
use crate::steps::{push_constant, spread_top};
use crate::store::Store;
use bmc_windows::{moved, pair_at, pairs_of, repeated};
use core_tuples::Universe;
use gate_matrix::Matrix;
use gate_trait::Gates;
use std::alloc::{AllocError, Global};

/// The same set at each of so many places.
pub fn one_set<G: Gates>(
    alloc: Global,
    gates: &G,
    store: &mut Store,
    matrix: Matrix,
    count: usize,
) -> Result<Vec<usize>, AllocError>
    requires store { AreStored (G.belongs gates.now) store.old }
    requires matrix { AllBelong (G.belongs gates.now) matrix.entries }
    ensures stored { OnOk result (AreStored (G.belongs gates.now) store.new) }
    ensures added { OnOk result (IsAdded store.old store.new matrix) }
    ensures numbers { IfOk result (λ row. row.items
        ≡ replicate count (length store.old.matrices.items)) }
{
    let number = add_matrix(gates, store, matrix)?;
    let row = repeated(alloc, number, count)?;
    Ok(row)
}

/// What the operator gives of each of these pairs.
fn made_of<G: Gates>(
    alloc: Global,
    gates: &mut G,
    store: &mut Store,
    universe: Universe,
    op: Operator,
    pairs: &[(usize, usize)],
) -> Result<Vec<usize>, AllocError>
    requires { AreStored (G.belongs gates.old) store.old }
    ensures keeps { Keeps G.belongs G.node_value gates.old gates.new }
    ensures stored { OnOk result (AreStored (G.belongs gates.new) store.new) }
    ensures grows { OnOk result (Grows store.old store.new) }
    ensures made { IfOk result (λ numbers. AllMade op (G.node_value gates.old)
        (G.node_value gates.new) store.old.matrices.items store.new.matrices.items pairs.now
        numbers.items) }
{
    let mut numbers = Vec::new(alloc);
    for place in 0..pairs.len() {
        let pair = pair_at(pairs, place);
        let number = apply_at(alloc, gates, store, universe, op, pair)?;
        numbers.push(number)?;
    }
    Ok(numbers)
}

/// What the operator gives at each place.
pub fn combined<G: Gates>(
    alloc: Global,
    gates: &mut G,
    store: &mut Store,
    universe: Universe,
    op: Operator,
    a: &[usize],
    b: &[usize],
) -> Result<Vec<usize>, AllocError>
    requires { AreStored (G.belongs gates.old) store.old }
    ensures keeps { Keeps G.belongs G.node_value gates.old gates.new }
    ensures stored { OnOk result (AreStored (G.belongs gates.new) store.new) }
    ensures grows { OnOk result (Grows store.old store.new) }
    ensures sets { IfOk result (λ row. (of : OperatorOfSets) → op ≡ OfSets of
        → AreMade of (G.node_value gates.old) (G.node_value gates.new) store.old.matrices.items
        store.new.matrices.items a.now b.now row.items) }
{
    let pairs = pairs_of(alloc, a, b)?;
    let numbers = made_of(alloc, gates, store, universe, op, &pairs.pairs)?;
    let row = moved(alloc, &numbers, &pairs.row)?;
    Ok(row)
}

/// Adds to the row on top, for each of these pairs, whether the test is passed.
fn answers_of<G: Gates>(
    alloc: Global,
    gates: &mut G,
    store: &mut Store,
    question: TestOperator,
    pairs: &[(usize, usize)],
) -> Result<(), AllocError>
    requires { AreStored (G.belongs gates.old) store.old }
    ensures keeps { Keeps G.belongs G.node_value gates.old gates.new }
    ensures stored { OnOk result (AreStored (G.belongs gates.new) store.new) }
    ensures beside { OnOk result (AreBeside store.old store.new) }
    ensures rows { OnOk result ((rest : List (List CircuitNode)) →
        store.old.rows.items ≡ rest ++ [] ∷ []
        → HasTop rest store.new.rows.items (AllAnswered question (G.node_value gates.old)
        (G.node_value gates.new) store.old.matrices.items pairs.now)) }
{
    for place in 0..pairs.len() {
        let pair = pair_at(pairs, place);
        ask_at(alloc, gates, store, question, pair)?;
    }
    Ok(())
}

/// Puts on the stack where the test is passed.
pub fn asked<G: Gates>(
    alloc: Global,
    gates: &mut G,
    store: &mut Store,
    question: TestOperator,
    a: &[usize],
    b: &[usize],
) -> Result<(), AllocError>
    requires { AreStored (G.belongs gates.old) store.old }
    ensures keeps { Keeps G.belongs G.node_value gates.old gates.new }
    ensures stored { OnOk result (AreStored (G.belongs gates.new) store.new) }
    ensures beside { OnOk result (AreBeside store.old store.new) }
    ensures sets { OnOk result ((of : QuestionOfSets) → question ≡ AskSets of
        → HasTop store.old.rows.items store.new.rows.items
        (AreAnswered of (G.node_value gates.old) (G.node_value gates.new) store.old.matrices.items
        a.now b.now)) }
{
    let pairs = pairs_of(alloc, a, b)?;
    push_constant(alloc, gates, store, 0, false)?;
    answers_of(alloc, gates, store, question, &pairs.pairs)?;
    spread_top(alloc, gates, store, &pairs.row)?;
    Ok(())
}
