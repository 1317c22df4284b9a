//! The matrices of relations over their variables, of atoms and of intervals of numbers.

ghost use Rattle.std.specs.Prelude.{◌≡◌, ◌<◌, ◌||◌, ◌∷◌, [], ℕ, Bool, List, IfOk, OnOk, IsTrue, All, length};
ghost use Rattle.core_tuples.specs.Index.{IsNumber};
ghost use Rattle.core_tuples.specs.Sets.{is_same};
ghost use Rattle.gate_trait.specs.Built.{Keeps};
ghost use Rattle.gate_matrix.specs.Matrices.{AllBelong, IsPut, truth};
ghost use Rattle.gate_operators.specs.Sets.{MeansSet};
ghost use Rattle.gate_sets.specs.Sets.{InVariables, one_atom, from_to};

use core_tuples::{Tuple, TupleSet};
use gate_matrix::{Entry, Matrix, gathered};
use gate_trait::{Gates, Node};
use std::alloc::{AllocError, Global};

/// Whether the tuple has this many numbers, all below 16,384.
fn is_row(tuple: &Tuple, arity: u32) -> bool
    ensures columns { IsTrue result → length tuple.now ≡ arity }
    ensures numbers { IsTrue result → All IsNumber tuple.now }
{
    // Atoms, S66: there are at most 16,384 atoms and integers.
    tuple.numbers().len() == arity as usize && tuple.numbers().iter().all(|x| *x < 16384)
}

/// Gives a tuple a node. Its error is want of memory, or that the tuple hasn't as many numbers as the
/// matrix has columns, or that one is too great.
pub fn put<G: Gates>(
    gates: &G,
    matrix: &mut Matrix,
    tuple: Tuple,
    node: Node,
) -> Result<(), AllocError>
    requires matrix { AllBelong (G.belongs gates.now) matrix.old.entries }
    requires node { G.belongs gates.now node }
    ensures belongs { AllBelong (G.belongs gates.now) matrix.new.entries }
    ensures ok { OnOk result (IsPut matrix.old tuple node matrix.new) }
{
    // for the proof: only the clauses name the gates
    let _ = gates;
    if !is_row(&tuple, matrix.arity()) {
        return Err(AllocError);
    }
    matrix.put(tuple, node)
}

/// The matrix of a relation whose tuples have the variables from `first` on, in order. Its error is
/// want of memory, or that a number of a variable would be too great.
pub fn relation_matrix<G: Gates>(
    alloc: Global,
    gates: &mut G,
    upper: &TupleSet,
    first: u64,
) -> Result<Matrix, AllocError>
    ensures keeps { Keeps G.belongs G.node_value gates.old gates.new }
    ensures belongs { IfOk result (λ m. AllBelong (G.belongs gates.new) m.entries) }
    ensures columns { IfOk result (λ m. m.arity ≡ upper.now.arity) }
    ensures means { IfOk result (λ m. (x : ℕ → Bool) → MeansSet (G.node_value gates.new x) m
        (InVariables x upper.now.tuples first)) }
{
    let tuples = upper.keyed();
    if u64::MAX - first < tuples.len() as u64 {
        return Err(AllocError);
    }
    let mut all = Vec::new(alloc);
    for place in 0..tuples.len() {
        let node = gates.input(first + place as u64)?;
        let tuple = tuples[place].copy(alloc)?;
        all.push(Entry { tuple, node })?;
    }
    let made = gathered(alloc, gates, upper.arity(), all)?;
    Ok(made)
}

/// Adds the tuple of one number. Its error is want of memory, or that the number is too great.
fn put_atom<G: Gates>(
    alloc: Global,
    gates: &G,
    matrix: &mut Matrix,
    atom: u32,
) -> Result<(), AllocError>
    requires { AllBelong (G.belongs gates.now) matrix.old.entries }
    ensures belongs { AllBelong (G.belongs gates.now) matrix.new.entries }
    ensures columns { OnOk result (matrix.new.arity ≡ matrix.old.arity) }
    ensures truth { OnOk result ((x : ℕ → Bool) (t : List ℕ) →
        truth (G.node_value gates.now x) matrix.new t
        ≡ (is_same (atom ∷ []) t || truth (G.node_value gates.now x) matrix.old t)) }
{
    let tuple = Tuple::of(alloc, &[atom])?;
    let node = gates.constant(true);
    put(gates, matrix, tuple, node)
}

/// The matrix of one atom, or of none. Its error is want of memory, or that the atom's number is too
/// great.
pub fn atom_matrix<G: Gates>(
    alloc: Global,
    gates: &G,
    atom: Option<u32>,
) -> Result<Matrix, AllocError>
    ensures belongs { IfOk result (λ m. AllBelong (G.belongs gates.now) m.entries) }
    ensures columns { IfOk result (λ m. m.arity ≡ 1) }
    ensures means { IfOk result (λ m. (x : ℕ → Bool) →
        MeansSet (G.node_value gates.now x) m (one_atom atom)) }
{
    let mut matrix = Matrix::empty(alloc, 1);
    match atom {
        None => Ok(matrix),
        Some(number) => {
            put_atom(alloc, gates, &mut matrix, number)?;
            Ok(matrix)
        }
    }
}

/// The matrix of the numbers from `first` to before `end`. Its error is want of memory, or that a
/// number is too great.
pub fn range_matrix<G: Gates>(
    alloc: Global,
    gates: &G,
    first: u32,
    end: u32,
) -> Result<Matrix, AllocError>
    ensures belongs { IfOk result (λ m. AllBelong (G.belongs gates.now) m.entries) }
    ensures columns { IfOk result (λ m. m.arity ≡ 1) }
    ensures means { IfOk result (λ m. (x : ℕ → Bool) →
        MeansSet (G.node_value gates.now x) m (from_to first end)) }
{
    let mut matrix = Matrix::empty(alloc, 1);
    if end <= first {
        return Ok(matrix);
    }
    for atom in first..end {
        put_atom(alloc, gates, &mut matrix, atom)?;
    }
    Ok(matrix)
}
