//! Operators on one or two sets, with the error of memory where the columns don't fit.

ghost use Rattle.std.specs.Prelude.{◌≡◌, ◌≤◌, ◌+◌, ℕ, Bool, IfOk, OnOk, IsTrue};
ghost use Rattle.gate_trait.specs.Built.{Keeps};
ghost use Rattle.core_meaning.specs.Operators.{combined_tuples, product_tuples, closure_tuples};
ghost use Rattle.gate_matrix.specs.Matrices.{AllBelong};
ghost use Rattle.gate_closure.specs.Walks.{IsBelow};
ghost use Rattle.gate_operators.specs.Sets.{MeansSet, set_of, FitTogether, columns_of, turned, pairs_with_itself};
ghost use Rattle.gate_sets.specs.Sets.{FitsOperator, columns_made, tuples_made};

use core_tree::RelationOp;
use gate_matrix::Matrix;
use gate_operators::{closed_below, identity, multiplied, transposed};
use gate_trait::Gates;
use std::alloc::{AllocError, Global};

/// An operator on one or two sets. That on one set is given it twice.
#[derive(Clone, Copy, Debug, PartialEq, Eq)]
pub enum SetOperator {
    Combine(RelationOp),
    Product,
    Transpose,
    Closure,
    Identity,
}

/// Whether an operator takes sets of so many columns.
fn fit_together(op: RelationOp, a: u32, b: u32) -> bool
    requires a_columns { a ≤ 9 }
    requires b_columns { b ≤ 9 }
    ensures { IsTrue result → FitTogether op a b }
{
    match op {
        RelationOp::Union => a == b,
        RelationOp::Difference => a == b,
        RelationOp::Intersection => a == b,
        RelationOp::Join => a + b >= 3 && a + b <= 11,
        RelationOp::Override => a == b,
        RelationOp::LeftRestrict => a == 1,
        RelationOp::RightRestrict => b == 1,
    }
}

/// What an operator gives of two sets; the error of memory where their columns don't fit.
pub fn combine<G: Gates>(
    alloc: Global,
    gates: &mut G,
    op: RelationOp,
    a: &Matrix,
    b: &Matrix,
) -> Result<Matrix, AllocError>
    requires a_belongs { AllBelong (G.belongs gates.old) a.now.entries }
    requires b_belongs { AllBelong (G.belongs gates.old) b.now.entries }
    ensures keeps { Keeps G.belongs G.node_value gates.old gates.new }
    ensures belongs { IfOk result (λ m. AllBelong (G.belongs gates.new) m.entries) }
    ensures fit { OnOk result (FitTogether op a.now.arity b.now.arity) }
    ensures columns { IfOk result (λ m. m.arity ≡ columns_of op a.now.arity b.now.arity) }
    ensures means { IfOk result (λ m. (x : ℕ → Bool) → MeansSet (G.node_value gates.new x) m
        (combined_tuples op (set_of (G.node_value gates.old x) a.now)
        (set_of (G.node_value gates.old x) b.now))) }
{
    if !fit_together(op, a.arity(), b.arity()) {
        return Err(AllocError);
    }
    gate_operators::combine(alloc, gates, op, a, b)
}

/// The tuples of the first set, each followed by each of the second; the error of memory where there
/// would be too many columns.
fn multiply<G: Gates>(
    alloc: Global,
    gates: &mut G,
    a: &Matrix,
    b: &Matrix,
) -> Result<Matrix, AllocError>
    requires a_belongs { AllBelong (G.belongs gates.old) a.now.entries }
    requires b_belongs { AllBelong (G.belongs gates.old) b.now.entries }
    ensures keeps { Keeps G.belongs G.node_value gates.old gates.new }
    ensures belongs { IfOk result (λ m. AllBelong (G.belongs gates.new) m.entries) }
    ensures fit { OnOk result (a.now.arity + b.now.arity ≤ 9) }
    ensures columns { IfOk result (λ m. m.arity ≡ a.now.arity + b.now.arity) }
    ensures means { IfOk result (λ m. (x : ℕ → Bool) → MeansSet (G.node_value gates.new x) m
        (product_tuples (set_of (G.node_value gates.old x) a.now)
        (set_of (G.node_value gates.old x) b.now))) }
{
    // ArityLimit, S47: a relation has at most nine columns.
    if a.arity() + b.arity() > 9 {
        return Err(AllocError);
    }
    multiplied(alloc, gates, a, b)
}

/// The pairs turned round; the error of memory where the tuples are no pairs.
fn turn<G: Gates>(alloc: Global, gates: &mut G, a: &Matrix) -> Result<Matrix, AllocError>
    requires { AllBelong (G.belongs gates.old) a.now.entries }
    ensures keeps { Keeps G.belongs G.node_value gates.old gates.new }
    ensures belongs { IfOk result (λ m. AllBelong (G.belongs gates.new) m.entries) }
    ensures fit { OnOk result (a.now.arity ≡ 2) }
    ensures columns { IfOk result (λ m. m.arity ≡ 2) }
    ensures means { IfOk result (λ m. (x : ℕ → Bool) → MeansSet (G.node_value gates.new x) m
        (turned (set_of (G.node_value gates.old x) a.now))) }
{
    if a.arity() != 2 {
        return Err(AllocError);
    }
    transposed(alloc, gates, a)
}

/// The greatest number of a set's tuples.
fn greatest(a: &Matrix) -> u32 {
    let mut most = 0u32;
    for entry in a.entries() {
        for number in entry.tuple.numbers() {
            if most < *number {
                most = *number;
            }
        }
    }
    most
}

/// Whether all numbers are below this one.
fn all_below(a: &Matrix, end: u32) -> bool
    ensures { IsTrue result → IsBelow end a.now }
{
    a.entries()
        .iter()
        .all(|entry| entry.tuple.numbers().iter().all(|x| *x < end))
}

/// The pairs between which a walk leads; the error of memory where the tuples are no pairs.
fn close<G: Gates>(alloc: Global, gates: &mut G, a: &Matrix) -> Result<Matrix, AllocError>
    requires { AllBelong (G.belongs gates.old) a.now.entries }
    ensures keeps { Keeps G.belongs G.node_value gates.old gates.new }
    ensures belongs { IfOk result (λ m. AllBelong (G.belongs gates.new) m.entries) }
    ensures fit { OnOk result (a.now.arity ≡ 2) }
    ensures columns { IfOk result (λ m. m.arity ≡ 2) }
    ensures means { IfOk result (λ m. (x : ℕ → Bool) → MeansSet (G.node_value gates.new x) m
        (closure_tuples (set_of (G.node_value gates.old x) a.now))) }
{
    let end = greatest(a).saturating_add(1);
    // No number reaches the end, which is asked again for the sake of the proof.
    if a.arity() != 2 || !all_below(a, end) {
        return Err(AllocError);
    }
    closed_below(alloc, gates, end as u64, a)
}

/// The pairs of each atom with itself; the error of memory where the set has more columns than one.
fn pair_up<G: Gates>(alloc: Global, gates: &mut G, a: &Matrix) -> Result<Matrix, AllocError>
    requires { AllBelong (G.belongs gates.old) a.now.entries }
    ensures keeps { Keeps G.belongs G.node_value gates.old gates.new }
    ensures belongs { IfOk result (λ m. AllBelong (G.belongs gates.new) m.entries) }
    ensures fit { OnOk result (a.now.arity ≡ 1) }
    ensures columns { IfOk result (λ m. m.arity ≡ 2) }
    ensures means { IfOk result (λ m. (x : ℕ → Bool) → MeansSet (G.node_value gates.new x) m
        (pairs_with_itself (set_of (G.node_value gates.old x) a.now))) }
{
    if a.arity() != 1 {
        return Err(AllocError);
    }
    identity(alloc, gates, a)
}

/// What the operator gives. Its error is want of memory, or that the columns don't fit the operator.
pub fn apply<G: Gates>(
    alloc: Global,
    gates: &mut G,
    op: SetOperator,
    a: &Matrix,
    b: &Matrix,
) -> Result<Matrix, AllocError>
    requires a_belongs { AllBelong (G.belongs gates.old) a.now.entries }
    requires b_belongs { AllBelong (G.belongs gates.old) b.now.entries }
    ensures keeps { Keeps G.belongs G.node_value gates.old gates.new }
    ensures belongs { IfOk result (λ m. AllBelong (G.belongs gates.new) m.entries) }
    ensures fit { OnOk result (FitsOperator op a.now.arity b.now.arity) }
    ensures columns { IfOk result (λ m. m.arity ≡ columns_made op a.now.arity b.now.arity) }
    ensures means { IfOk result (λ m. (x : ℕ → Bool) → MeansSet (G.node_value gates.new x) m
        (tuples_made op (set_of (G.node_value gates.old x) a.now)
        (set_of (G.node_value gates.old x) b.now))) }
{
    match op {
        SetOperator::Combine(op) => combine(alloc, gates, op, a, b),
        SetOperator::Product => multiply(alloc, gates, a, b),
        SetOperator::Transpose => turn(alloc, gates, a),
        SetOperator::Closure => close(alloc, gates, a),
        SetOperator::Identity => pair_up(alloc, gates, a),
    }
}
