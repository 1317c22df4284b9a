//! Tells how large a circuit is over either store of gates.

use bmc_encoder::encode;
use bound_uppers::{Bounds, Layout};
use core_meaning::Target;
use gate_store::CircuitStore;
use gate_trait::PlainGates;
use std::alloc::{AllocError, Global};

/// How many gates the circuit of a target has.
#[derive(Clone, Copy, Debug, PartialEq, Eq)]
pub struct Sizes {
    /// In a list of all that are asked for.
    pub plain: u64,
    /// In a store that has each once.
    pub shared: u64,
}

/// How many gates the circuit of a target has over a list of all that are asked for.
fn plain_size(
    alloc: Global,
    target: &Target,
    bounds: &Bounds,
    table: &Layout,
) -> Result<u64, AllocError> {
    let mut gates = PlainGates::new(alloc);
    let _encoded = encode(alloc, target, bounds, table, &mut gates)?;
    Ok(gates.gates())
}

/// How many gates the circuit of a target has over a store that has each once.
fn shared_size(
    alloc: Global,
    target: &Target,
    bounds: &Bounds,
    table: &Layout,
) -> Result<u64, AllocError> {
    let mut gates = CircuitStore::new(alloc);
    let _encoded = encode(alloc, target, bounds, table, &mut gates)?;
    Ok(gates.gates())
}

/// How many gates the circuit of a target has over either.
pub fn sizes_of(
    alloc: Global,
    target: &Target,
    bounds: &Bounds,
    table: &Layout,
) -> Result<Sizes, AllocError> {
    Ok(Sizes {
        plain: plain_size(alloc, target, bounds, table)?,
        shared: shared_size(alloc, target, bounds, table)?,
    })
}
