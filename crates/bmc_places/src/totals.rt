//! Sets as integers, and integers as sets.

ghost use Rattle.std.specs.Prelude.{◌≡◌, ◌≤◌, ◌+◌, ◌^◌, ◌<◌, ◌∷◌, [], ℕ, Bool, List, All, Some, IfOk, IfSome, IsTrue, length, slice_get};
ghost use Rattle.gate_trait.specs.declared.node.Node.{Node as CircuitNode};
ghost use Rattle.gate_trait.specs.Built.{Keeps, AllIn};
ghost use Rattle.core_meaning.specs.Operators.{IsNumber};
ghost use Rattle.core_meaning.specs.World.{World};
ghost use Rattle.gate_arithmetic.specs.Singles.{atom_for};
ghost use Rattle.gate_integers.specs.Numbers.{signed};
ghost use Rattle.gate_matrix.specs.Matrices.{AllBelong, MatrixEntries};
ghost use Rattle.gate_operators.specs.Sets.{IsUniverse, MeansSet, set_of};
ghost use Rattle.bmc_stack.specs.Stored.{AreStored};

use bmc_stack::Store;
use core_tuples::{Keyed, Universe};
use gate_integers::Bits;
use gate_matrix::{Entry, Matrix};
use gate_trait::Gates;
use std::alloc::{AllocError, Global};

/// A small power of two.
#[tactic(auto, using(crate::proofs::BitLaws::pow_few, crate::proofs::BitLaws::pow_some))]
pub fn power_of(bits: u32) -> u32
    requires { bits ≤ 12 }
    ensures number { result ≡ 2 ^ bits }
    ensures some { 1 ≤ result }
    ensures few { result ≤ 4096 }
{
    2u32.pow(bits)
}

/// The number behind those of a universe, if it is within the limits.
fn universe_end(universe: Universe) -> Option<u32>
    ensures universe { IfSome result (λ _. IsUniverse universe) }
    ensures end { IfSome result (λ n. n ≡ universe.atoms + 2 ^ universe.bits) }
{
    if universe.bits < 1 {
        return None;
    }
    if universe.bits > 12 {
        return None;
    }
    // Atoms, S66: there are at most 16,384 atoms and integers.
    if universe.atoms > 16384 {
        return None;
    }
    let end = universe.atoms + power_of(universe.bits);
    if end > 16384 {
        return None;
    }
    Some(end)
}

/// Whether the tuple is of one number, and that is below the end.
fn is_below(tuple: &Keyed, end: u32) -> bool
    ensures { IsTrue result → (a : ℕ) → tuple.now ≡ a ∷ [] → a < end }
{
    let numbers = tuple.numbers();
    if numbers.len() != 1 {
        return false;
    }
    let number = numbers[0];
    if number < end {
        return true;
    }
    false
}

/// Whether all tuples are of one number, and all are below the end.
fn are_below(entries: &[Entry], end: u32) -> bool
    ensures { IsTrue result → All (λ e. (a : ℕ) → e.tuple ≡ a ∷ [] → a < end) entries.now }
{
    for entry in entries {
        let below = is_below(&entry.tuple, end);
        if !below {
            return false;
        }
    }
    true
}

/// The sum of the integers in a set, where this number is behind those of the universe.
fn total_below<G: Gates>(
    alloc: Global,
    gates: &mut G,
    universe: Universe,
    end: u32,
    matrix: &Matrix,
) -> Result<Bits, AllocError>
    requires universe { IsUniverse universe }
    requires end { end ≡ universe.atoms + 2 ^ universe.bits }
    requires belongs { AllBelong (G.belongs gates.old) matrix.now.entries }
    ensures keeps { Keeps G.belongs G.node_value gates.old gates.new }
    ensures belongs { IfOk result (λ s. AllIn (G.belongs gates.new) s) }
    ensures width { IfOk result (λ s. length s ≡ universe.bits) }
    ensures value { IfOk result (λ s. (x : ℕ → Bool) (w : World) → w.atoms ≡ universe.atoms →
        w.bits ≡ universe.bits → IsNumber w (set_of (G.node_value gates.old x) matrix.now)
        (signed (G.node_value gates.new x) s)) }
{
    let columns = matrix.arity();
    if columns != 1 {
        return Err(AllocError);
    }
    let entries = matrix.entries();
    let below = are_below(entries, end);
    if !below {
        return Err(AllocError);
    }
    let made = gate_arithmetic::integer_of(alloc, gates, universe, matrix)?;
    Ok(made)
}

/// The sum of the integers in a set. Its error is want of memory, or that the set has more columns than one or
/// a number that isn't of the universe, or that the universe isn't within the limits.
fn total_of<G: Gates>(
    alloc: Global,
    gates: &mut G,
    universe: Universe,
    matrix: &Matrix,
) -> Result<Bits, AllocError>
    requires { AllBelong (G.belongs gates.old) matrix.now.entries }
    ensures keeps { Keeps G.belongs G.node_value gates.old gates.new }
    ensures belongs { IfOk result (λ s. AllIn (G.belongs gates.new) s) }
    ensures width { IfOk result (λ s. length s ≡ universe.bits) }
    ensures value { IfOk result (λ s. (x : ℕ → Bool) (w : World) → w.atoms ≡ universe.atoms →
        w.bits ≡ universe.bits → IsNumber w (set_of (G.node_value gates.old x) matrix.now)
        (signed (G.node_value gates.new x) s)) }
{
    match universe_end(universe) {
        None => Err(AllocError),
        Some(end) => {
            let made = total_below(alloc, gates, universe, end, matrix)?;
            Ok(made)
        }
    }
}

/// The sum of the integers in the set of this number. Its error is want of memory, or that there is no such set,
/// or none of integers.
pub fn totaled<G: Gates>(
    alloc: Global,
    gates: &mut G,
    store: &Store,
    universe: Universe,
    a: usize,
) -> Result<Bits, AllocError>
    requires { AreStored (G.belongs gates.old) store.now }
    ensures keeps { Keeps G.belongs G.node_value gates.old gates.new }
    ensures belongs { IfOk result (λ s. AllIn (G.belongs gates.new) s) }
    ensures width { IfOk result (λ s. length s ≡ universe.bits) }
    ensures value { IfOk result (λ s. (p : MatrixEntries) →
        slice_get store.now.matrices.items a ≡ Some p → (x : ℕ → Bool) (w : World) →
        w.atoms ≡ universe.atoms → w.bits ≡ universe.bits
        → IsNumber w (set_of (G.node_value gates.old x) p)
        (signed (G.node_value gates.new x) s)) }
{
    if a >= store.matrices.len() {
        return Err(AllocError);
    }
    let made = total_of(alloc, gates, universe, &store.matrices[a])?;
    Ok(made)
}

/// The set of an integer alone. Its error is want of memory, or that the integer hasn't the universe's width or
/// the universe isn't within the limits.
fn single_of<G: Gates>(
    alloc: Global,
    gates: &mut G,
    universe: Universe,
    bits: &Bits,
) -> Result<Matrix, AllocError>
    requires { AllIn (G.belongs gates.old) bits.now }
    ensures keeps { Keeps G.belongs G.node_value gates.old gates.new }
    ensures belongs { IfOk result (λ m. AllBelong (G.belongs gates.new) m.entries) }
    ensures means { IfOk result (λ m. (x : ℕ → Bool) → MeansSet (G.node_value gates.new x) m
        (λ t. t ≡ atom_for universe (signed (G.node_value gates.old x) bits.now) ∷ [])) }
{
    let width = bits.len();
    if width != universe.bits as usize {
        return Err(AllocError);
    }
    match universe_end(universe) {
        None => Err(AllocError),
        Some(_) => {
            let made = gate_arithmetic::matrix_of(alloc, gates, universe, bits)?;
            Ok(made)
        }
    }
}

/// The set of the integer of this number alone. Its error is want of memory, or that there is no integer of this number and of the
/// universe's width, or that the universe isn't within the limits.
pub fn single_set<G: Gates>(
    alloc: Global,
    gates: &mut G,
    store: &Store,
    universe: Universe,
    a: usize,
) -> Result<Matrix, AllocError>
    requires { AreStored (G.belongs gates.old) store.now }
    ensures keeps { Keeps G.belongs G.node_value gates.old gates.new }
    ensures belongs { IfOk result (λ m. AllBelong (G.belongs gates.new) m.entries) }
    ensures means { IfOk result (λ m. (s : List CircuitNode) →
        slice_get store.now.integers.items a ≡ Some s → (x : ℕ → Bool) →
        MeansSet (G.node_value gates.new x) m (λ t. t
        ≡ atom_for universe (signed (G.node_value gates.old x) s) ∷ [])) }
{
    if a >= store.integers.len() {
        return Err(AllocError);
    }
    let made = single_of(alloc, gates, universe, &store.integers[a])?;
    Ok(made)
}
