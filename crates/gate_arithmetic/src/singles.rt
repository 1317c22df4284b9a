//! The set of one integer.

ghost use Rattle.std.specs.Prelude.{◌≡◌, ◌^◌, ◌<◌, ◌↔◌, ℕ, Bool, true, [], ◌∷◌, length, IfOk};
ghost use Rattle.gate_trait.specs.Built.{Keeps, AllIn};
ghost use Rattle.gate_integers.specs.Numbers.{from_bits, signed};
ghost use Rattle.gate_matrix.specs.Matrices.{AllBelong};
ghost use Rattle.gate_operators.specs.Sets.{MeansSet, IsUniverse};
ghost use Rattle.gate_arithmetic.specs.Singles.{atom_for};

use crate::members::{amount_at, weighted};
use core_tuples::{Keyed, Tuple, Universe};
use gate_integers::{Bits, equal_bits};
use gate_matrix::{Entry, Matrix, gathered};
use gate_trait::{Gates, Node};
use std::alloc::{AllocError, Global};

/// Whether the bits are these low bits of an integer.
fn has_amount<G: Gates>(
    alloc: Global,
    gates: &mut G,
    bits: &Bits,
    width: u32,
    amount: u32,
) -> Result<Node, AllocError>
    requires belongs { AllIn (G.belongs gates.old) bits.now }
    requires width { length bits.now ≡ width }
    requires small { amount < 2 ^ width }
    ensures keeps { Keeps G.belongs G.node_value gates.old gates.new }
    ensures belongs { IfOk result (λ n. G.belongs gates.new n) }
    ensures value { IfOk result (λ n. (x : ℕ → Bool) → (G.node_value gates.new x n ≡ true)
        ↔ (signed (G.node_value gates.old x) bits.now ≡ from_bits width amount)) }
{
    let always = gates.constant(true);
    let wanted = weighted(alloc, gates, width, amount, always)?;
    let equal = equal_bits(alloc, gates, bits, &wanted)?;
    Ok(equal)
}

/// The number alone, with a node.
fn single(alloc: Global, number: u32, node: Node) -> Result<Entry, AllocError>
    requires { number < 16384 }
    ensures tuple { IfOk result (λ e. e.tuple ≡ number ∷ []) }
    ensures node { IfOk result (λ e. e.node ≡ node) }
{
    let tuple = Tuple::of(alloc, &[number])?;
    Ok(Entry {
        tuple: Keyed::new(tuple),
        node,
    })
}

/// The set of the one number that stands for the integer.
pub fn matrix_of<G: Gates>(
    alloc: Global,
    gates: &mut G,
    universe: Universe,
    bits: &Bits,
) -> Result<Matrix, AllocError>
    requires universe { IsUniverse universe }
    requires width { length bits.now ≡ universe.bits }
    requires belongs { AllIn (G.belongs gates.old) bits.now }
    ensures keeps { Keeps G.belongs G.node_value gates.old gates.new }
    ensures belongs { IfOk result (λ m. AllBelong (G.belongs gates.new) m.entries) }
    ensures columns { IfOk result (λ m. m.arity ≡ 1) }
    ensures means { IfOk result (λ m. (x : ℕ → Bool) → MeansSet (G.node_value gates.new x) m
        (λ t. t ≡ atom_for universe (signed (G.node_value gates.old x) bits.now) ∷ [])) }
{
    let mut all = Vec::new(alloc);
    for place in 0..2_u32.pow(universe.bits) {
        let amount = amount_at(universe, place);
        let node = has_amount(alloc, gates, bits, universe.bits, amount)?;
        let entry = single(alloc, universe.atoms + place, node)?;
        all.push(entry)?;
    }
    let made = gathered(alloc, gates, 1, all)?;
    Ok(made)
}
