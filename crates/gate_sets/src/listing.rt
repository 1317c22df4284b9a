//! The tuples of several matrices, each once.

ghost use Rattle.std.specs.Prelude.{◌≡◌, ◌↔◌, ◌++◌, ℕ, List, Contains, OnOk, IfOk};
ghost use Rattle.gate_matrix.specs.Matrices.{tuples_of};

use core_tuples::Tuple;
use gate_matrix::Matrix;
use std::alloc::{AllocError, Global};

/// Adds copies of the tuples of a matrix.
pub fn add_tuples(alloc: Global, matrix: &Matrix, all: &mut Vec<Tuple>) -> Result<(), AllocError>
    ensures { OnOk result (all.new.items ≡ all.old.items ++ tuples_of matrix.now.entries) }
{
    for place in 0..matrix.len() {
        let copy = matrix.tuple(place).copy(alloc)?;
        all.push(copy)?;
    }
    Ok(())
}

/// The tuples in order, each once.
pub fn distinct_tuples(_alloc: Global, tuples: Vec<Tuple>) -> Result<Vec<Tuple>, AllocError>
    ensures { IfOk result (λ all. (t : List ℕ) → Contains all.items t ↔ Contains tuples.items t) }
{
    let mut sorted = tuples;
    sorted.sort()?;
    sorted.dedup();
    Ok(sorted)
}
