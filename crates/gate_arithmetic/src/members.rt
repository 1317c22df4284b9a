//! The integer that a set stands for in an integer place.

ghost use Rattle.std.specs.Prelude.{◌≡◌, ◌+◌, ◌*◌, ◌%◌, ◌^◌, ◌<◌, ◌≤◌, ◌&&◌, ℕ, Bool, length, IfOk};
ghost use Rattle.gate_trait.specs.Built.{Keeps, AllIn};
ghost use Rattle.gate_integers.specs.Numbers.{number, bit, signed};
ghost use Rattle.core_meaning.specs.Integers.{wrap};
ghost use Rattle.gate_matrix.specs.Matrices.{AllBelong};
ghost use Rattle.gate_operators.specs.Sets.{IsUniverse};
ghost use Rattle.gate_arithmetic.specs.Members.{amount_from, amount_for, integer_sum};

use core_tuples::Universe;
use gate_integers::Bits;
use gate_integers::adder::add_numbers;
use gate_integers::each::zeros;
use gate_matrix::Matrix;
use gate_trait::{Gates, Node};
use std::alloc::{AllocError, Global};

/// The node where it is set, else the constant false.
fn bit_or_false<G: Gates>(gates: &G, set: bool, node: Node) -> Node
    requires { G.belongs gates.now node }
    ensures belongs { G.belongs gates.now result }
    ensures value { (x : ℕ → Bool) → G.node_value gates.now x result
        ≡ (set && G.node_value gates.now x node) }
{
    if set { node } else { gates.constant(false) }
}

/// A number where the node is true, else 0.
pub(crate) fn weighted<G: Gates>(
    alloc: Global,
    gates: &G,
    width: u32,
    amount: u32,
    node: Node,
) -> Result<Bits, AllocError>
    requires node_belongs { G.belongs gates.now node }
    requires small { amount < 2 ^ width }
    ensures belongs { IfOk result (λ bits. AllIn (G.belongs gates.now) bits) }
    ensures width { IfOk result (λ bits. length bits ≡ width) }
    ensures means { IfOk result (λ bits. (x : ℕ → Bool) → number (G.node_value gates.now x) bits
        ≡ bit (G.node_value gates.now x node) * amount) }
{
    let mut bits = Bits::new(alloc);
    let mut rest = amount;
    for _place in 0..width {
        bits.push(bit_or_false(gates, rest % 2 == 1, node))?;
        rest /= 2;
    }
    Ok(bits)
}

/// The low bits of the integer that has this place among them, counted from the least.
pub(crate) fn amount_at(universe: Universe, place: u32) -> u32
    requires universe { IsUniverse universe }
    requires within { place < 16384 }
    ensures amount { result ≡ amount_from universe place }
    ensures small { result < 2 ^ universe.bits }
{
    let whole = 2_u32.pow(universe.bits);
    let half = 2_u32.pow(universe.bits - 1);
    (place + half) % whole
}

/// The low bits of the integer for which a number of the universe stands, or 0 for an atom.
fn amount_of(universe: Universe, member: u32) -> u32
    requires universe { IsUniverse universe }
    requires within { member < 16384 }
    ensures amount { result ≡ amount_for universe member }
    ensures small { result < 2 ^ universe.bits }
{
    if member < universe.atoms {
        0
    } else {
        amount_at(universe, member - universe.atoms)
    }
}

/// The sum so far and what one more number adds, where the node says whether it is in the set.
fn add_member<G: Gates>(
    alloc: Global,
    gates: &mut G,
    universe: Universe,
    total: &[Node],
    member: u32,
    node: Node,
) -> Result<Bits, AllocError>
    requires universe { IsUniverse universe }
    requires within { member < 16384 }
    requires total_belongs { AllIn (G.belongs gates.old) total.now }
    requires node_belongs { G.belongs gates.old node }
    requires width { length total.now ≡ universe.bits }
    ensures keeps { Keeps G.belongs G.node_value gates.old gates.new }
    ensures belongs { IfOk result (λ s. AllIn (G.belongs gates.new) s) }
    ensures width { IfOk result (λ s. length s ≡ universe.bits) }
    ensures sum { IfOk result (λ s. (x : ℕ → Bool) → number (G.node_value gates.new x) s
        ≡ (number (G.node_value gates.old x) total.now + bit (G.node_value gates.old x node)
        * amount_for universe member) % 2 ^ universe.bits) }
{
    let amount = amount_of(universe, member);
    let part = weighted(alloc, gates, universe.bits, amount, node)?;
    let sum = add_numbers(alloc, gates, total, part.nodes())?;
    Ok(sum)
}

/// The wrapped sum of the integers in a set.
pub fn integer_of<G: Gates>(
    alloc: Global,
    gates: &mut G,
    universe: Universe,
    matrix: &Matrix,
) -> Result<Bits, AllocError>
    requires universe { IsUniverse universe }
    requires single { matrix.now.arity ≡ 1 }
    requires belongs { AllBelong (G.belongs gates.old) matrix.now.entries }
    ensures keeps { Keeps G.belongs G.node_value gates.old gates.new }
    ensures belongs { IfOk result (λ s. AllIn (G.belongs gates.new) s) }
    ensures width { IfOk result (λ s. length s ≡ universe.bits) }
    ensures value { IfOk result (λ s. (x : ℕ → Bool) → signed (G.node_value gates.new x) s
        ≡ wrap universe.bits (integer_sum universe (G.node_value gates.old x) matrix.now.entries)) }
{
    let mut total = zeros(alloc, gates, universe.bits as usize)?;
    let entries = matrix.entries();
    for entry in entries {
        let first = entry.tuple.numbers()[0];
        let sum = add_member(alloc, gates, universe, total.nodes(), first, entry.node)?;
        total = sum;
    }
    Ok(total)
}
