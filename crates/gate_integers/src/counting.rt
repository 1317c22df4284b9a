//! How many nodes are true, as an integer, by adders from the least weight up.

ghost use Rattle.std.specs.Prelude.{◌≡◌, ◌+◌, ◌*◌, ℕ, Bool, count_by, length, take, IfOk, pos};
ghost use Rattle.gate_trait.specs.Built.{Keeps, AllIn};
ghost use Rattle.gate_integers.specs.Numbers.{bit, signed, wrap};

use crate::adder::add_digits;
use crate::bits::Bits;
use gate_trait::{Gates, Node};
use std::alloc::{AllocError, Global};

/// The node at this place, or past the end the constant false.
fn node_or_false<G: Gates>(gates: &G, nodes: &[Node], place: usize) -> Node
    requires { AllIn (G.belongs gates.now) nodes.now }
    ensures belongs { G.belongs gates.now result }
    ensures counts { (x : ℕ → Bool) → count_by (G.node_value gates.now x)
        (take (place + 1) nodes.now)
        ≡ count_by (G.node_value gates.now x) (take place nodes.now)
        + bit (G.node_value gates.now x result) }
{
    if place < nodes.len() {
        nodes[place]
    } else {
        gates.constant(false)
    }
}

/// The sum of one column of bits, and what is carried to the next column.
#[derive(Drop, Debug)]
struct Column {
    bit: Node,
    carries: Vec<Node>,
}

/// Adds a column of bits, two at a time to the sum so far.
fn add_column<G: Gates>(alloc: Global, gates: &mut G, nodes: &[Node]) -> Result<Column, AllocError>
    requires { AllIn (G.belongs gates.old) nodes.now }
    ensures keeps { Keeps G.belongs G.node_value gates.old gates.new }
    ensures bit_belongs { IfOk result (λ c. G.belongs gates.new c.bit) }
    ensures carries_belong { IfOk result (λ c. AllIn (G.belongs gates.new) c.carries.items) }
    ensures sum { IfOk result (λ c. (x : ℕ → Bool) →
        bit (G.node_value gates.new x c.bit) + 2
        * count_by (G.node_value gates.new x) c.carries.items
        ≡ count_by (G.node_value gates.old x) nodes.now) }
{
    let mut carries = Vec::new(alloc);
    let mut bit = gates.constant(false);
    let mut place = 0;
    while place < nodes.len() {
        let first = node_or_false(gates, nodes, place);
        let second = node_or_false(gates, nodes, place + 1);
        let digit = add_digits(gates, first, second, bit)?;
        carries.push(digit.carry)?;
        bit = digit.sum;
        place += 2;
    }
    Ok(Column { bit, carries })
}

/// How many of the nodes are true, wrapped to the width. The bits of each weight are added before
/// those of the next, so that it takes about three gates for each node.
pub fn count<G: Gates>(
    alloc: Global,
    gates: &mut G,
    nodes: &[Node],
    width: u32,
) -> Result<Bits, AllocError>
    requires { AllIn (G.belongs gates.old) nodes.now }
    ensures keeps { Keeps G.belongs G.node_value gates.old gates.new }
    ensures belongs { IfOk result (λ s. AllIn (G.belongs gates.new) s) }
    ensures width { IfOk result (λ s. length s ≡ width) }
    ensures value { IfOk result (λ s. (x : ℕ → Bool) → signed (G.node_value gates.new x) s
        ≡ wrap width (pos (count_by (G.node_value gates.old x) nodes.now))) }
{
    let mut bits = Bits::new(alloc);
    let mut column = Vec::from_slice(alloc, nodes)?;
    for _place in 0..width {
        let next = add_column(alloc, gates, &column)?;
        bits.push(next.bit)?;
        column = next.carries;
    }
    Ok(bits)
}
