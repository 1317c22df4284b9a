//! Sets as integers, and integers as sets.

ghost use Rattle.std.specs.Prelude.{◌≡◌, ◌≤◌, ◌+◌, ◌^◌, ℕ, Bool, length, IfOk, IsTrue};
ghost use Rattle.gate_trait.specs.Built.{Keeps, AllIn};
ghost use Rattle.gate_integers.specs.Numbers.{signed};
ghost use Rattle.core_meaning.specs.Integers.{wrap};
ghost use Rattle.gate_matrix.specs.Matrices.{AllBelong};
ghost use Rattle.gate_operators.specs.Sets.{IsUniverse};
ghost use Rattle.gate_arithmetic.specs.Members.{integer_sum};

use core_tuples::{Tuple, Universe};
use gate_integers::Bits;
use gate_matrix::Matrix;
use gate_sets::put;
use gate_trait::{Gates, Node, NodeList};
use std::alloc::{AllocError, Global};

/// Whether the universe is within the limits.
fn is_universe(universe: Universe) -> bool
    ensures { IsTrue result → IsUniverse universe }
{
    if universe.bits < 1 || universe.bits > 12 {
        return false;
    }
    // Atoms, S66: there are at most 16,384 atoms and integers.
    u64::from(universe.atoms) + 2_u64.pow(universe.bits) <= 16384
}

/// The wrapped sum of the integers in a set. Its error is want of memory, or that the set has more
/// columns than one or the universe isn't within the limits.
pub fn integer_of<G: Gates>(
    alloc: Global,
    gates: &mut G,
    universe: Universe,
    matrix: &Matrix,
) -> Result<Bits, AllocError>
    requires { AllBelong (G.belongs gates.old) matrix.now.entries }
    ensures keeps { Keeps G.belongs G.node_value gates.old gates.new }
    ensures belongs { IfOk result (λ s. AllIn (G.belongs gates.new) s) }
    ensures width { IfOk result (λ s. length s ≡ universe.bits) }
    ensures value { IfOk result (λ s. (x : ℕ → Bool) → signed (G.node_value gates.new x) s
        ≡ wrap universe.bits (integer_sum universe (G.node_value gates.old x) matrix.now.entries)) }
{
    if !is_universe(universe) || matrix.arity() != 1 {
        return Err(AllocError);
    }
    gate_arithmetic::integer_of(alloc, gates, universe, matrix)
}

/// Adds the node with a bit false, and then the node with it true.
fn split_node<G: Gates>(
    gates: &mut G,
    node: Node,
    bit: Node,
    new: &mut NodeList,
) -> Result<(), AllocError>
    requires node { G.belongs gates.old node }
    requires bit { G.belongs gates.old bit }
    requires new { AllIn (G.belongs gates.old) new.old }
    ensures keeps { Keeps G.belongs G.node_value gates.old gates.new }
    ensures belongs { AllIn (G.belongs gates.new) new.new }
{
    let other = gates.not(bit);
    let without = gates.and(node, other)?;
    let with = gates.and(node, bit)?;
    new.push(without)?;
    new.push(with)
}

/// For each node, the node with this bit false, and then the node with it true.
fn split<G: Gates>(
    alloc: Global,
    gates: &mut G,
    nodes: &NodeList,
    bit: Node,
) -> Result<NodeList, AllocError>
    requires nodes { AllIn (G.belongs gates.old) nodes.now }
    requires bit { G.belongs gates.old bit }
    ensures keeps { Keeps G.belongs G.node_value gates.old gates.new }
    ensures belongs { IfOk result (λ row. AllIn (G.belongs gates.new) row) }
{
    let mut new = NodeList::new(alloc);
    for node in nodes.as_slice() {
        split_node(gates, *node, bit, &mut new)?;
    }
    Ok(new)
}

/// The bit that tells between the two halves of the integers in order: the sign bit negated.
fn ordered_bit<G: Gates>(gates: &G, bits: &Bits, place: usize) -> Node
    requires { AllIn (G.belongs gates.now) bits.now }
    ensures { G.belongs gates.now result }
{
    if place >= bits.len() {
        return gates.constant(false);
    }
    let bit = *bits.get(place);
    if place == bits.len() - 1 {
        return gates.not(bit);
    }
    bit
}

/// For each integer of the width, from the least up, whether the bits are that integer.
fn place_nodes<G: Gates>(alloc: Global, gates: &mut G, bits: &Bits) -> Result<NodeList, AllocError>
    requires { AllIn (G.belongs gates.old) bits.now }
    ensures keeps { Keeps G.belongs G.node_value gates.old gates.new }
    ensures belongs { IfOk result (λ row. AllIn (G.belongs gates.new) row) }
{
    let mut nodes = NodeList::new(alloc);
    nodes.push(gates.constant(true))?;
    for done in 0..bits.len() {
        let bit = ordered_bit(gates, bits, bits.len() - 1 - done);
        nodes = split(alloc, gates, &nodes, bit)?;
    }
    Ok(nodes)
}

/// Adds a number with its node.
fn put_number<G: Gates>(
    alloc: Global,
    gates: &G,
    matrix: &mut Matrix,
    number: u32,
    node: Node,
) -> Result<(), AllocError>
    requires matrix { AllBelong (G.belongs gates.now) matrix.old.entries }
    requires node { G.belongs gates.now node }
    ensures { AllBelong (G.belongs gates.now) matrix.new.entries }
{
    let tuple = Tuple::of(alloc, &[number])?;
    put(gates, matrix, tuple, node)
}

/// The set of the one integer that the bits are.
pub fn matrix_of<G: Gates>(
    alloc: Global,
    gates: &mut G,
    universe: Universe,
    bits: &Bits,
) -> Result<Matrix, AllocError>
    requires { AllIn (G.belongs gates.old) bits.now }
    ensures keeps { Keeps G.belongs G.node_value gates.old gates.new }
    ensures belongs { IfOk result (λ m. AllBelong (G.belongs gates.new) m.entries) }
{
    let nodes = place_nodes(alloc, gates, bits)?;
    let mut matrix = Matrix::empty(alloc, 1);
    let mut number = universe.atoms;
    for node in nodes.as_slice() {
        put_number(alloc, gates, &mut matrix, number, *node)?;
        number = number.saturating_add(1);
    }
    Ok(matrix)
}
