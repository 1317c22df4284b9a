//! The transitive closure, by squaring the matrix again and again.

ghost use Rattle.std.specs.Prelude.{◌≡◌, ◌≤◌, ◌<◌, ◌+◌, ◌*◌, ◌↔◌, ℕ, Bool, true, List, All, IfOk};
ghost use Rattle.gate_trait.specs.Built.{Keeps};
ghost use Rattle.gate_matrix.specs.Matrices.{AllBelong, truth};
ghost use Rattle.gate_closure.specs.Walks.{IsReached, IsReachedWithin, IsBelow};

use gate_matrix::{Matrix, join, union};
use gate_trait::Gates;
use std::alloc::{AllocError, Global};

/// The pairs between which a walk leads of at most twice as many steps.
fn doubled<G: Gates>(alloc: Global, gates: &mut G, a: &Matrix) -> Result<Matrix, AllocError>
    requires belongs { AllBelong (G.belongs gates.old) a.now.entries }
    requires columns { a.now.arity ≡ 2 }
    ensures keeps { Keeps G.belongs G.node_value gates.old gates.new }
    ensures belongs { IfOk result (λ m. AllBelong (G.belongs gates.new) m.entries) }
    ensures arity { IfOk result (λ m. m.arity ≡ 2) }
    ensures truth { IfOk result (λ m. (x : ℕ → Bool) (t : List ℕ) →
        (truth (G.node_value gates.new x) m t ≡ true)
        ↔ IsReachedWithin (G.node_value gates.old x) a.now 2 t) }
{
    // for the proof: this call's clause says that it is a matrix
    let _ = a.arity();
    let two = join(alloc, gates, a, a)?;
    union(alloc, gates, a, &two)
}

/// The pairs between which a finite walk of at least one step along the pairs of the set leads, by
/// squaring again and again until no walk without a repeated atom can be longer.
pub fn closure<G: Gates>(
    alloc: Global,
    gates: &mut G,
    a: &Matrix,
    atoms: u64,
) -> Result<Matrix, AllocError>
    requires belongs { AllBelong (G.belongs gates.old) a.now.entries }
    requires columns { a.now.arity ≡ 2 }
    requires numbers { IsBelow atoms a.now }
    ensures keeps { Keeps G.belongs G.node_value gates.old gates.new }
    ensures belongs { IfOk result (λ m. AllBelong (G.belongs gates.new) m.entries) }
    ensures arity { IfOk result (λ m. m.arity ≡ 2) }
    ensures truth { IfOk result (λ m. (x : ℕ → Bool) (t : List ℕ) →
        (truth (G.node_value gates.new x) m t ≡ true)
        ↔ IsReached (G.node_value gates.old x) a.now t) }
{
    // for the proof: this call's clause says that it is a matrix
    let _ = a.arity();
    let mut pairs = a.copy(alloc)?;
    let limit = u128::from(atoms);
    let mut steps: u128 = 1;
    while steps < limit {
        pairs = doubled(alloc, gates, &pairs)?;
        steps *= 2;
    }
    Ok(pairs)
}
