//! The values of the gates of a circuit.

use gate_store::CircuitStore;
use gate_trait::{Gate, Node};
use std::alloc::{AllocError, Global};

/// The gate of this number, or the constant false behind the last one.
fn gate_at(store: &CircuitStore, number: u64) -> Gate {
    if number < store.gates() {
        store.gate(number)
    } else {
        Gate::Constant(false)
    }
}

/// A node's value, where the list has the values of the gates.
pub fn among(values: &[bool], node: Node) -> bool {
    let value = values.get(node.number() as usize).copied().unwrap_or(false);
    value != node.negated()
}

/// Bit `place` of a number, the least being 0.
fn has_bit(bits: u64, place: u64) -> bool {
    (bits >> (place % 64)) & 1 == 1
}

/// The value of a gate behind those with these values, where input `k` has bit `k - 1`.
fn gate_value(values: &[bool], gate: Gate, bits: u64) -> bool {
    match gate {
        Gate::Constant(value) => value,
        Gate::Input(variable) => has_bit(bits, variable.saturating_sub(1)),
        Gate::And(a, b) => among(values, a) && among(values, b),
        Gate::Or(a, b) => among(values, a) || among(values, b),
        Gate::Xor(a, b) => among(values, a) != among(values, b),
        Gate::Choose(c, a, b) => {
            if among(values, c) {
                among(values, a)
            } else {
                among(values, b)
            }
        }
    }
}

/// The values of all gates, where input `k` has bit `k - 1`.
pub fn gate_values(
    alloc: Global,
    store: &CircuitStore,
    bits: u64,
) -> Result<Vec<bool>, AllocError> {
    let mut values = Vec::new(alloc);
    for number in 0..store.gates() {
        let next = gate_value(&values, gate_at(store, number), bits);
        values.push(next)?;
    }
    Ok(values)
}
