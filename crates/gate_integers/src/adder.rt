//! Sums and differences, by ripple-carry adders.

ghost use Rattle.std.specs.Prelude.{◌≡◌, ◌<◌, ◌+◌, ◌*◌, ◌^◌, ◌-◌, ◌%◌, ℕ, Bool, length, IfOk, if◌then◌else◌, ◌+ℤ◌, ◌-ℤ◌, pos};
ghost use Rattle.gate_trait.specs.Built.{Keeps, Computes, AllIn, xor};
ghost use Rattle.gate_integers.specs.Numbers.{number, signed, wrap, bit};

use crate::bits::Bits;
use crate::each::{negated, negated_where, zeros};
use gate_trait::{Gates, Node};
use std::alloc::{AllocError, Global};

/// A digit of a sum, and what is carried to the next.
#[derive(Clone, Copy, Debug)]
pub struct Digit {
    pub sum: Node,
    pub carry: Node,
}

/// The sum of three bits: a full adder of three gates.
pub fn add_digits<G: Gates>(gates: &mut G, a: Node, b: Node, c: Node) -> Result<Digit, AllocError>
    requires a_belongs { G.belongs gates.old a }
    requires b_belongs { G.belongs gates.old b }
    requires c_belongs { G.belongs gates.old c }
    ensures keeps { Keeps G.belongs G.node_value gates.old gates.new }
    ensures sum_belongs { IfOk result (λ d. G.belongs gates.new d.sum) }
    ensures carry_belongs { IfOk result (λ d. G.belongs gates.new d.carry) }
    ensures digits { IfOk result (λ d. (x : ℕ → Bool) →
        bit (G.node_value gates.new x d.sum) + 2 * bit (G.node_value gates.new x d.carry)
        ≡ bit (G.node_value gates.old x a) + bit (G.node_value gates.old x b)
        + bit (G.node_value gates.old x c)) }
{
    let half = gates.xor(a, b)?;
    let sum = gates.xor(half, c)?;
    let carry = gates.choose(half, c, a)?;
    Ok(Digit { sum, carry })
}

/// A sum, with what is carried out of the greatest bit.
#[derive(Drop, Debug)]
pub struct Sum {
    pub total: Bits,
    pub carry: Node,
}

/// The sum of two numbers of one width and a bit.
pub fn add_carried<G: Gates>(
    alloc: Global,
    gates: &mut G,
    a: &[Node],
    b: &[Node],
    carry: Node,
) -> Result<Sum, AllocError>
    requires a_belongs { AllIn (G.belongs gates.old) a.now }
    requires b_belongs { AllIn (G.belongs gates.old) b.now }
    requires carry_belongs { G.belongs gates.old carry }
    requires widths { length a.now ≡ length b.now }
    ensures keeps { Keeps G.belongs G.node_value gates.old gates.new }
    ensures total_belongs { IfOk result (λ s. AllIn (G.belongs gates.new) s.total) }
    ensures carry_belongs { IfOk result (λ s. G.belongs gates.new s.carry) }
    ensures width { IfOk result (λ s. length s.total ≡ length a.now) }
    ensures number { IfOk result (λ s. (x : ℕ → Bool) →
        number (G.node_value gates.new x) s.total + 2 ^ length a.now
        * bit (G.node_value gates.new x s.carry)
        ≡ number (G.node_value gates.old x) a.now + number (G.node_value gates.old x) b.now
        + bit (G.node_value gates.old x carry)) }
{
    let mut total = Bits::new(alloc);
    let mut over = carry;
    for i in 0..a.len() {
        let digit = add_digits(gates, a[i], b[i], over)?;
        total.push(digit.sum)?;
        over = digit.carry;
    }
    Ok(Sum { total, carry: over })
}

/// The sum of two numbers, as a number, where a carry out of the greatest bit is lost.
pub fn add_numbers<G: Gates>(
    alloc: Global,
    gates: &mut G,
    a: &[Node],
    b: &[Node],
) -> Result<Bits, AllocError>
    requires a_belongs { AllIn (G.belongs gates.old) a.now }
    requires b_belongs { AllIn (G.belongs gates.old) b.now }
    requires widths { length a.now ≡ length b.now }
    ensures keeps { Keeps G.belongs G.node_value gates.old gates.new }
    ensures belongs { IfOk result (λ s. AllIn (G.belongs gates.new) s) }
    ensures width { IfOk result (λ s. length s ≡ length a.now) }
    ensures number { IfOk result (λ s. (x : ℕ → Bool) → number (G.node_value gates.new x) s
        ≡ (number (G.node_value gates.old x) a.now + number (G.node_value gates.old x) b.now)
        % 2 ^ length a.now) }
{
    let no_carry = gates.constant(false);
    let sum = add_carried(alloc, gates, a, b, no_carry)?;
    Ok(sum.total)
}

/// The difference of two numbers, with a bit that is true where the first isn't less.
pub fn subtract_carried<G: Gates>(
    alloc: Global,
    gates: &mut G,
    a: &[Node],
    b: &[Node],
) -> Result<Sum, AllocError>
    requires a_belongs { AllIn (G.belongs gates.old) a.now }
    requires b_belongs { AllIn (G.belongs gates.old) b.now }
    requires widths { length a.now ≡ length b.now }
    ensures keeps { Keeps G.belongs G.node_value gates.old gates.new }
    ensures total_belongs { IfOk result (λ s. AllIn (G.belongs gates.new) s.total) }
    ensures carry_belongs { IfOk result (λ s. G.belongs gates.new s.carry) }
    ensures width { IfOk result (λ s. length s.total ≡ length a.now) }
    ensures number { IfOk result (λ s. (x : ℕ → Bool) →
        number (G.node_value gates.new x) s.total + 2 ^ length a.now
        * bit (G.node_value gates.new x s.carry) + number (G.node_value gates.old x) b.now
        ≡ number (G.node_value gates.old x) a.now + 2 ^ length a.now) }
{
    let other = negated(alloc, gates, b)?;
    let one = gates.constant(true);
    let difference = add_carried(alloc, gates, a, other.nodes(), one)?;
    Ok(difference)
}

/// The number, or where the sign is true its negation.
pub fn negate_where<G: Gates>(
    alloc: Global,
    gates: &mut G,
    sign: Node,
    a: &[Node],
) -> Result<Bits, AllocError>
    requires sign_belongs { G.belongs gates.old sign }
    requires a_belongs { AllIn (G.belongs gates.old) a.now }
    ensures keeps { Keeps G.belongs G.node_value gates.old gates.new }
    ensures belongs { IfOk result (λ s. AllIn (G.belongs gates.new) s) }
    ensures width { IfOk result (λ s. length s ≡ length a.now) }
    ensures number { IfOk result (λ s. (x : ℕ → Bool) → number (G.node_value gates.new x) s
        ≡ (if G.node_value gates.old x sign
        then (2 ^ length a.now - number (G.node_value gates.old x) a.now) % 2 ^ length a.now
        else number (G.node_value gates.old x) a.now)) }
{
    let turned = negated_where(alloc, gates, sign, a)?;
    let none = zeros(alloc, gates, a.len())?;
    let sum = add_carried(alloc, gates, turned.nodes(), none.nodes(), sign)?;
    Ok(sum.total)
}

/// The sum, wrapped to the width.
pub fn add<G: Gates>(alloc: Global, gates: &mut G, a: &Bits, b: &Bits) -> Result<Bits, AllocError>
    requires a_belongs { AllIn (G.belongs gates.old) a.now }
    requires b_belongs { AllIn (G.belongs gates.old) b.now }
    requires widths { length a.now ≡ length b.now }
    ensures keeps { Keeps G.belongs G.node_value gates.old gates.new }
    ensures belongs { IfOk result (λ s. AllIn (G.belongs gates.new) s) }
    ensures width { IfOk result (λ s. length s ≡ length a.now) }
    ensures value { IfOk result (λ s. (x : ℕ → Bool) → signed (G.node_value gates.new x) s
        ≡ wrap (length a.now) (signed (G.node_value gates.old x) a.now
        +ℤ signed (G.node_value gates.old x) b.now)) }
{
    let sum = add_numbers(alloc, gates, a.nodes(), b.nodes())?;
    Ok(sum)
}

/// The difference, wrapped to the width.
pub fn sub<G: Gates>(alloc: Global, gates: &mut G, a: &Bits, b: &Bits) -> Result<Bits, AllocError>
    requires a_belongs { AllIn (G.belongs gates.old) a.now }
    requires b_belongs { AllIn (G.belongs gates.old) b.now }
    requires widths { length a.now ≡ length b.now }
    ensures keeps { Keeps G.belongs G.node_value gates.old gates.new }
    ensures belongs { IfOk result (λ s. AllIn (G.belongs gates.new) s) }
    ensures width { IfOk result (λ s. length s ≡ length a.now) }
    ensures value { IfOk result (λ s. (x : ℕ → Bool) → signed (G.node_value gates.new x) s
        ≡ wrap (length a.now) (signed (G.node_value gates.old x) a.now
        -ℤ signed (G.node_value gates.old x) b.now)) }
{
    let difference = subtract_carried(alloc, gates, a.nodes(), b.nodes())?;
    Ok(difference.total)
}

/// The negation, wrapped to the width: the least integer is its own.
pub fn neg<G: Gates>(alloc: Global, gates: &mut G, a: &Bits) -> Result<Bits, AllocError>
    requires { AllIn (G.belongs gates.old) a.now }
    ensures keeps { Keeps G.belongs G.node_value gates.old gates.new }
    ensures belongs { IfOk result (λ s. AllIn (G.belongs gates.new) s) }
    ensures width { IfOk result (λ s. length s ≡ length a.now) }
    ensures value { IfOk result (λ s. (x : ℕ → Bool) → signed (G.node_value gates.new x) s
        ≡ wrap (length a.now) (pos 0 -ℤ signed (G.node_value gates.old x) a.now)) }
{
    let sign = gates.constant(true);
    let negation = negate_where(alloc, gates, sign, a.nodes())?;
    Ok(negation)
}
