//! Operators on one relation: transpose, closure, and the identity of a set.

ghost use Rattle.std.specs.Prelude.{◌≡◌, ◌∷◌, [], ℕ, Bool, IfOk};
ghost use Rattle.gate_trait.specs.Built.{Keeps};
ghost use Rattle.core_meaning.specs.Operators.{closure_tuples};
ghost use Rattle.gate_matrix.specs.Matrices.{AllBelong};
ghost use Rattle.gate_closure.specs.Walks.{IsBelow};
ghost use Rattle.gate_operators.specs.Sets.{MeansSet, set_of, turned, pairs_with_itself};

use core_tuples::{Keyed, Tuple};
use gate_closure::closure;
use gate_matrix::{Entry, Matrix, gathered, transpose};
use gate_trait::Gates;
use std::alloc::{AllocError, Global};

/// The pairs of a set, each turned round.
pub fn transposed<G: Gates>(alloc: Global, gates: &mut G, a: &Matrix) -> Result<Matrix, AllocError>
    requires belongs { AllBelong (G.belongs gates.old) a.now.entries }
    requires pairs { a.now.arity ≡ 2 }
    ensures keeps { Keeps G.belongs G.node_value gates.old gates.new }
    ensures belongs { IfOk result (λ m. AllBelong (G.belongs gates.new) m.entries) }
    ensures columns { IfOk result (λ m. m.arity ≡ 2) }
    ensures means { IfOk result (λ m. (x : ℕ → Bool) → MeansSet (G.node_value gates.new x) m
        (turned (set_of (G.node_value gates.old x) a.now))) }
{
    let made = transpose(alloc, gates, a)?;
    Ok(made)
}

/// The pairs between which a finite walk of at least one step leads, where the numbers of the pairs
/// are below `end`.
pub fn closed_below<G: Gates>(
    alloc: Global,
    gates: &mut G,
    end: u64,
    a: &Matrix,
) -> Result<Matrix, AllocError>
    requires belongs { AllBelong (G.belongs gates.old) a.now.entries }
    requires pairs { a.now.arity ≡ 2 }
    requires below { IsBelow end a.now }
    ensures keeps { Keeps G.belongs G.node_value gates.old gates.new }
    ensures belongs { IfOk result (λ m. AllBelong (G.belongs gates.new) m.entries) }
    ensures columns { IfOk result (λ m. m.arity ≡ 2) }
    ensures means { IfOk result (λ m. (x : ℕ → Bool) → MeansSet (G.node_value gates.new x) m
        (closure_tuples (set_of (G.node_value gates.old x) a.now))) }
{
    let made = closure(alloc, gates, a, end)?;
    Ok(made)
}

/// The pair of a number with itself.
fn twice(alloc: Global, number: u32) -> Result<Tuple, AllocError>
    ensures { IfOk result (λ t. t ≡ number ∷ number ∷ []) }
{
    let mut tuple = Tuple::new(alloc);
    tuple.push(number)?;
    tuple.push(number)?;
    Ok(tuple)
}

/// The pairs of each atom of a set with itself.
pub fn identity<G: Gates>(alloc: Global, gates: &mut G, a: &Matrix) -> Result<Matrix, AllocError>
    requires belongs { AllBelong (G.belongs gates.old) a.now.entries }
    requires single { a.now.arity ≡ 1 }
    ensures keeps { Keeps G.belongs G.node_value gates.old gates.new }
    ensures belongs { IfOk result (λ m. AllBelong (G.belongs gates.new) m.entries) }
    ensures columns { IfOk result (λ m. m.arity ≡ 2) }
    ensures means { IfOk result (λ m. (x : ℕ → Bool) → MeansSet (G.node_value gates.new x) m
        (pairs_with_itself (set_of (G.node_value gates.old x) a.now))) }
{
    let mut all = Vec::new(alloc);
    let entries = a.entries();
    for entry in entries {
        let tuple = twice(alloc, entry.tuple.numbers()[0])?;
        all.push(Entry {
            tuple: Keyed::new(tuple),
            node: entry.node,
        })?;
    }
    let made = gathered(alloc, gates, 2, all)?;
    Ok(made)
}
