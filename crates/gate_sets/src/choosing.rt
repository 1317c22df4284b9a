//! Sets that depend on the value of a node: one where it is true, else another.

ghost use Rattle.std.specs.Prelude.{◌≡◌, ◌&&◌, ℕ, Bool, List, IfOk, OnOk};
ghost use Rattle.gate_trait.specs.Built.{Keeps};
ghost use Rattle.gate_matrix.specs.Matrices.{AllBelong, truth};
ghost use Rattle.gate_operators.specs.Sets.{MeansSet, set_of};
ghost use Rattle.gate_sets.specs.Sets.{chosen_tuples};

use gate_matrix::{Entry, Matrix, gathered, union};
use gate_trait::{Gates, Node};
use std::alloc::{AllocError, Global};

/// The matrix whose nodes are those of another, where this node is true.
fn masked<G: Gates>(
    alloc: Global,
    gates: &mut G,
    node: Node,
    matrix: &Matrix,
) -> Result<Matrix, AllocError>
    requires node { G.belongs gates.old node }
    requires matrix { AllBelong (G.belongs gates.old) matrix.now.entries }
    ensures keeps { Keeps G.belongs G.node_value gates.old gates.new }
    ensures belongs { IfOk result (λ m. AllBelong (G.belongs gates.new) m.entries) }
    ensures columns { IfOk result (λ m. m.arity ≡ matrix.now.arity) }
    ensures truth { IfOk result (λ m. (x : ℕ → Bool) (t : List ℕ) →
        truth (G.node_value gates.new x) m t
        ≡ (G.node_value gates.old x node && truth (G.node_value gates.old x) matrix.now t)) }
{
    let mut all = Vec::new(alloc);
    let entries = matrix.entries();
    for entry in entries {
        let both = gates.and(node, entry.node)?;
        let tuple = entry.tuple.copy(alloc)?;
        all.push(Entry { tuple, node: both })?;
    }
    let made = gathered(alloc, gates, matrix.arity(), all)?;
    Ok(made)
}

/// The first set where the node is true, else the second. Its error is want of memory, or that the
/// sets differ in their number of columns.
pub fn choose<G: Gates>(
    alloc: Global,
    gates: &mut G,
    node: Node,
    a: &Matrix,
    b: &Matrix,
) -> Result<Matrix, AllocError>
    requires node { G.belongs gates.old node }
    requires a_belongs { AllBelong (G.belongs gates.old) a.now.entries }
    requires b_belongs { AllBelong (G.belongs gates.old) b.now.entries }
    ensures keeps { Keeps G.belongs G.node_value gates.old gates.new }
    ensures belongs { IfOk result (λ m. AllBelong (G.belongs gates.new) m.entries) }
    ensures fit { OnOk result (a.now.arity ≡ b.now.arity) }
    ensures columns { IfOk result (λ m. m.arity ≡ a.now.arity) }
    ensures means { IfOk result (λ m. (x : ℕ → Bool) → MeansSet (G.node_value gates.new x) m
        (chosen_tuples (G.node_value gates.old x node) (set_of (G.node_value gates.old x) a.now)
        (set_of (G.node_value gates.old x) b.now))) }
{
    if a.arity() != b.arity() {
        return Err(AllocError);
    }
    let other = gates.not(node);
    let first = masked(alloc, gates, node, a)?;
    let second = masked(alloc, gates, other, b)?;
    let made = union(alloc, gates, &first, &second)?;
    Ok(made)
}
