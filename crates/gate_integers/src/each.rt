//! One step for each bit of a list: negation, choice, and whether some bit is true.

ghost use Rattle.std.specs.Prelude.{◌≡◌, ◌<◌, ◌&&◌, ℕ, Bool, not, false, length, map, IfOk, nat_lt, replicate, if◌then◌else◌};
ghost use Rattle.gate_trait.specs.Built.{Keeps, AllIn, xor};
ghost use Rattle.gate_integers.specs.Numbers.{number};

use crate::bits::Bits;
use gate_trait::{Gates, Node};
use std::alloc::{AllocError, Global};

/// So many bits that are false.
pub fn zeros<G: Gates>(alloc: Global, gates: &G, width: usize) -> Result<Bits, AllocError>
    ensures belongs { IfOk result (λ bits. AllIn (G.belongs gates.now) bits) }
    ensures width { IfOk result (λ bits. length bits ≡ width) }
    ensures values { IfOk result (λ bits. (x : ℕ → Bool) →
        map (G.node_value gates.now x) bits ≡ replicate width false) }
{
    let mut bits = Bits::new(alloc);
    for _bit in 0..width {
        bits.push(gates.constant(false))?;
    }
    Ok(bits)
}

/// The bits, each negated.
pub fn negated<G: Gates>(alloc: Global, gates: &G, a: &[Node]) -> Result<Bits, AllocError>
    requires { AllIn (G.belongs gates.now) a.now }
    ensures belongs { IfOk result (λ bits. AllIn (G.belongs gates.now) bits) }
    ensures width { IfOk result (λ bits. length bits ≡ length a.now) }
    ensures values { IfOk result (λ bits. (x : ℕ → Bool) → map (G.node_value gates.now x) bits
        ≡ map (λ n. not (G.node_value gates.now x n)) a.now) }
{
    let mut bits = Bits::new(alloc);
    for node in a {
        bits.push(gates.not(*node))?;
    }
    Ok(bits)
}

/// The bits, each negated where the sign is true.
pub fn negated_where<G: Gates>(
    alloc: Global,
    gates: &mut G,
    sign: Node,
    a: &[Node],
) -> Result<Bits, AllocError>
    requires sign_belongs { G.belongs gates.old sign }
    requires a_belongs { AllIn (G.belongs gates.old) a.now }
    ensures keeps { Keeps G.belongs G.node_value gates.old gates.new }
    ensures belongs { IfOk result (λ bits. AllIn (G.belongs gates.new) bits) }
    ensures width { IfOk result (λ bits. length bits ≡ length a.now) }
    ensures values { IfOk result (λ bits. (x : ℕ → Bool) → map (G.node_value gates.new x) bits
        ≡ map (λ n. xor (G.node_value gates.old x sign) (G.node_value gates.old x n)) a.now) }
{
    let mut bits = Bits::new(alloc);
    for node in a {
        bits.push(gates.xor(sign, *node)?)?;
    }
    Ok(bits)
}

/// The bits where the condition is true, else as many that are false.
pub fn masked<G: Gates>(
    alloc: Global,
    gates: &mut G,
    condition: Node,
    a: &[Node],
) -> Result<Bits, AllocError>
    requires condition_belongs { G.belongs gates.old condition }
    requires a_belongs { AllIn (G.belongs gates.old) a.now }
    ensures keeps { Keeps G.belongs G.node_value gates.old gates.new }
    ensures belongs { IfOk result (λ bits. AllIn (G.belongs gates.new) bits) }
    ensures width { IfOk result (λ bits. length bits ≡ length a.now) }
    ensures values { IfOk result (λ bits. (x : ℕ → Bool) → map (G.node_value gates.new x) bits
        ≡ map (λ n. G.node_value gates.old x condition && G.node_value gates.old x n) a.now) }
{
    let mut bits = Bits::new(alloc);
    for node in a {
        bits.push(gates.and(condition, *node)?)?;
    }
    Ok(bits)
}

/// The bits of `a` where the condition is true, else those of `b`.
pub fn chosen<G: Gates>(
    alloc: Global,
    gates: &mut G,
    condition: Node,
    a: &[Node],
    b: &[Node],
) -> Result<Bits, AllocError>
    requires condition_belongs { G.belongs gates.old condition }
    requires a_belongs { AllIn (G.belongs gates.old) a.now }
    requires b_belongs { AllIn (G.belongs gates.old) b.now }
    requires widths { length a.now ≡ length b.now }
    ensures keeps { Keeps G.belongs G.node_value gates.old gates.new }
    ensures belongs { IfOk result (λ bits. AllIn (G.belongs gates.new) bits) }
    ensures width { IfOk result (λ bits. length bits ≡ length a.now) }
    ensures values { IfOk result (λ bits. (x : ℕ → Bool) → map (G.node_value gates.new x) bits
        ≡ (if G.node_value gates.old x condition
        then map (G.node_value gates.old x) a.now
        else map (G.node_value gates.old x) b.now)) }
{
    let mut bits = Bits::new(alloc);
    for i in 0..a.len() {
        bits.push(gates.choose(condition, a[i], b[i])?)?;
    }
    Ok(bits)
}

/// The same bits.
pub fn copied<G: Gates>(alloc: Global, gates: &G, a: &[Node]) -> Result<Bits, AllocError>
    requires { AllIn (G.belongs gates.now) a.now }
    ensures belongs { IfOk result (λ bits. AllIn (G.belongs gates.now) bits) }
    ensures same { IfOk result (λ bits. bits ≡ a.now) }
{
    // for the proof: only the clauses name the gates
    let _circuit = gates;
    let mut bits = Bits::new(alloc);
    for node in a {
        bits.push(*node)?;
    }
    Ok(bits)
}

/// Whether some bit is true.
pub fn any_bit<G: Gates>(gates: &mut G, a: &[Node]) -> Result<Node, AllocError>
    requires { AllIn (G.belongs gates.old) a.now }
    ensures keeps { Keeps G.belongs G.node_value gates.old gates.new }
    ensures belongs { IfOk result (λ n. G.belongs gates.new n) }
    ensures value { IfOk result (λ n. (x : ℕ → Bool) → G.node_value gates.new x n
        ≡ nat_lt 0 (number (G.node_value gates.old x) a.now)) }
{
    let mut some = gates.constant(false);
    for node in a {
        some = gates.or(some, *node)?;
    }
    Ok(some)
}
