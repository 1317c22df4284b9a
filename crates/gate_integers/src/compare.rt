//! Comparisons of integers: less, and equal.

ghost use Rattle.std.specs.Prelude.{◌≡◌, ◌<◌, ◌≤◌, ◌↔◌, ◌<ℤ◌, ℕ, Bool, true, nat_lt, length, take, IfOk};
ghost use Rattle.gate_trait.specs.Built.{Keeps, Computes, AllIn};
ghost use Rattle.gate_integers.specs.Numbers.{number, signed};

use crate::bits::Bits;
use gate_trait::{Gates, Node};
use std::alloc::{AllocError, Global};

/// Whether the first number is less than the second, by so many low bits of each.
fn less_below<G: Gates>(
    gates: &mut G,
    a: &[Node],
    b: &[Node],
    width: usize,
) -> Result<Node, AllocError>
    requires a_belongs { AllIn (G.belongs gates.old) a.now }
    requires b_belongs { AllIn (G.belongs gates.old) b.now }
    requires a_width { width ≤ length a.now }
    requires b_width { width ≤ length b.now }
    ensures keeps { Keeps G.belongs G.node_value gates.old gates.new }
    ensures belongs { IfOk result (λ n. G.belongs gates.new n) }
    ensures less { IfOk result (λ n. (x : ℕ → Bool) → G.node_value gates.new x n
        ≡ nat_lt (number (G.node_value gates.old x) (take width a.now))
        (number (G.node_value gates.old x) (take width b.now))) }
{
    let mut less = gates.constant(false);
    for i in 0..width {
        let differ = gates.xor(a[i], b[i])?;
        less = gates.choose(differ, b[i], less)?;
    }
    Ok(less)
}

/// Whether the first integer is less than the second.
pub fn less<G: Gates>(_alloc: Global, gates: &mut G, a: &Bits, b: &Bits) -> Result<Node, AllocError>
    requires a_belongs { AllIn (G.belongs gates.old) a.now }
    requires b_belongs { AllIn (G.belongs gates.old) b.now }
    requires widths { length a.now ≡ length b.now }
    requires some { 0 < length a.now }
    ensures keeps { Keeps G.belongs G.node_value gates.old gates.new }
    ensures belongs { IfOk result (λ n. G.belongs gates.new n) }
    ensures value { IfOk result (λ n. (x : ℕ → Bool) → (G.node_value gates.new x n ≡ true)
        ↔ (signed (G.node_value gates.old x) a.now <ℤ signed (G.node_value gates.old x) b.now)) }
{
    let left = a.nodes();
    let right = b.nodes();
    let top = left.len() - 1;
    let below = less_below(gates, left, right, top)?;
    let differ = gates.xor(left[top], right[top])?;
    let less = gates.choose(differ, left[top], below)?;
    Ok(less)
}

/// Whether the integers are equal.
pub fn equal_bits<G: Gates>(
    _alloc: Global,
    gates: &mut G,
    a: &Bits,
    b: &Bits,
) -> Result<Node, AllocError>
    requires a_belongs { AllIn (G.belongs gates.old) a.now }
    requires b_belongs { AllIn (G.belongs gates.old) b.now }
    requires widths { length a.now ≡ length b.now }
    ensures keeps { Keeps G.belongs G.node_value gates.old gates.new }
    ensures belongs { IfOk result (λ n. G.belongs gates.new n) }
    ensures value { IfOk result (λ n. (x : ℕ → Bool) → (G.node_value gates.new x n ≡ true)
        ↔ (signed (G.node_value gates.old x) a.now ≡ signed (G.node_value gates.old x) b.now)) }
{
    let left = a.nodes();
    let right = b.nodes();
    let mut equal = gates.constant(true);
    for i in 0..left.len() {
        let differ = gates.xor(left[i], right[i])?;
        let alike = gates.not(differ);
        equal = gates.and(equal, alike)?;
    }
    Ok(equal)
}
