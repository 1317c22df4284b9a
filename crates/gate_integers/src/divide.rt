//! Quotients and remainders, by long division of the magnitudes.

ghost use Rattle.std.specs.Prelude.{◌≡◌, ◌<◌, ◌≤◌, ◌+◌, ◌-◌, ◌*◌, ◌^◌, nat_lt, ℕ, Bool, length, IfOk, reverse, slice_get, Some};
ghost use Rattle.gate_trait.specs.Built.{Keeps, AllIn};
ghost use Rattle.gate_integers.specs.Numbers.{number, signed, wrap, bit};
ghost use Rattle.gate_integers.specs.Quotients.{quotient, remainder, magnitude, IsDivided};

use crate::Bits;
use crate::adder::{negate_where, subtract_carried};
use crate::each::{any_bit, chosen, masked, zeros};
use crate::product::shifted_in;
use gate_trait::{Gates, Node};
use std::alloc::{AllocError, Global};

/// One bit of a quotient, and what is left to divide.
#[derive(Drop, Debug)]
struct Step {
    bit: Node,
    rest: Bits,
}

/// Takes the divisor once from twice the rest and the next bit, where it can be taken.
fn divide_step<G: Gates>(
    alloc: Global,
    gates: &mut G,
    rest: &[Node],
    next: Node,
    b: &[Node],
) -> Result<Step, AllocError>
    requires rest_belongs { AllIn (G.belongs gates.old) rest.now }
    requires next_belongs { G.belongs gates.old next }
    requires b_belongs { AllIn (G.belongs gates.old) b.now }
    requires widths { length rest.now ≡ length b.now }
    ensures keeps { Keeps G.belongs G.node_value gates.old gates.new }
    ensures bit_belongs { IfOk result (λ s. G.belongs gates.new s.bit) }
    ensures rest_belongs { IfOk result (λ s. AllIn (G.belongs gates.new) s.rest) }
    ensures width { IfOk result (λ s. length s.rest ≡ length rest.now) }
    ensures sum { IfOk result (λ s. (x : ℕ → Bool) →
        bit (G.node_value gates.old x next) + 2 * number (G.node_value gates.old x) rest.now
        < 2 ^ length rest.now →
        bit (G.node_value gates.new x s.bit) * number (G.node_value gates.old x) b.now
        + number (G.node_value gates.new x) s.rest
        ≡ bit (G.node_value gates.old x next) + 2 * number (G.node_value gates.old x) rest.now) }
    ensures taken { IfOk result (λ s. (x : ℕ → Bool) →
        bit (G.node_value gates.old x next) + 2 * number (G.node_value gates.old x) rest.now
        < 2 ^ length rest.now →
        bit (G.node_value gates.new x s.bit) ≡ 0 →
        number (G.node_value gates.new x) s.rest < number (G.node_value gates.old x) b.now) }
{
    let shifted = shifted_in(alloc, gates, rest, next)?;
    let less = subtract_carried(alloc, gates, shifted.nodes(), b)?;
    let rest = chosen(
        alloc,
        gates,
        less.carry,
        less.total.nodes(),
        shifted.nodes(),
    )?;
    Ok(Step {
        bit: less.carry,
        rest,
    })
}

/// A quotient and a remainder.
#[derive(Drop, Debug)]
struct Parts {
    quotient: Bits,
    remainder: Bits,
}

/// The bit at a place, the least at 0.
fn bit_at(bits: &[Node], place: usize) -> Node
    requires { place < length bits.now }
    ensures { slice_get bits.now place ≡ Some result }
{
    bits[place]
}

/// Divides numbers without signs, from the greatest bit down. A quotient by 0 has every bit.
fn divide<G: Gates>(
    alloc: Global,
    gates: &mut G,
    a: &[Node],
    b: &[Node],
) -> Result<Parts, AllocError>
    requires a_belongs { AllIn (G.belongs gates.old) a.now }
    requires b_belongs { AllIn (G.belongs gates.old) b.now }
    requires widths { length a.now ≡ length b.now }
    ensures keeps { Keeps G.belongs G.node_value gates.old gates.new }
    ensures quotient_belongs { IfOk result (λ p. AllIn (G.belongs gates.new) p.quotient) }
    ensures remainder_belongs { IfOk result (λ p. AllIn (G.belongs gates.new) p.remainder) }
    ensures quotient_width { IfOk result (λ p. length p.quotient ≡ length a.now) }
    ensures remainder_width { IfOk result (λ p. length p.remainder ≡ length a.now) }
    ensures sum { IfOk result (λ p. (x : ℕ → Bool) →
        number (G.node_value gates.new x) p.quotient * number (G.node_value gates.old x) b.now
        + number (G.node_value gates.new x) p.remainder
        ≡ number (G.node_value gates.old x) a.now) }
    ensures below { IfOk result (λ p. (x : ℕ → Bool) → 0 < number (G.node_value gates.old x) b.now →
        number (G.node_value gates.new x) p.remainder < number (G.node_value gates.old x) b.now) }
    ensures by_zero { IfOk result (λ p. (x : ℕ → Bool) →
        number (G.node_value gates.old x) b.now ≡ 0 →
        number (G.node_value gates.new x) p.quotient + 1 ≡ 2 ^ length a.now) }
{
    let mut quotient = Bits::new(alloc);
    let mut remainder = zeros(alloc, gates, a.len())?;
    for k in 0..a.len() {
        let next = bit_at(a, a.len() - 1 - k);
        let step = divide_step(alloc, gates, remainder.nodes(), next, b)?;
        quotient.push(step.bit)?;
        remainder = step.rest;
    }
    quotient.reverse();
    Ok(Parts {
        quotient,
        remainder,
    })
}

/// The magnitude, as a number without a sign.
fn magnitude_of<G: Gates>(alloc: Global, gates: &mut G, a: &[Node]) -> Result<Bits, AllocError>
    requires a_belongs { AllIn (G.belongs gates.old) a.now }
    requires some { 0 < length a.now }
    ensures keeps { Keeps G.belongs G.node_value gates.old gates.new }
    ensures belongs { IfOk result (λ s. AllIn (G.belongs gates.new) s) }
    ensures width { IfOk result (λ s. length s ≡ length a.now) }
    ensures number { IfOk result (λ s. (x : ℕ → Bool) → number (G.node_value gates.new x) s
        ≡ magnitude (length a.now) (number (G.node_value gates.old x) a.now)) }
{
    let magnitude = negate_where(alloc, gates, a[a.len() - 1], a)?;
    Ok(magnitude)
}

/// Divides the magnitudes.
fn divide_magnitudes<G: Gates>(
    alloc: Global,
    gates: &mut G,
    a: &[Node],
    b: &[Node],
) -> Result<Parts, AllocError>
    requires a_belongs { AllIn (G.belongs gates.old) a.now }
    requires b_belongs { AllIn (G.belongs gates.old) b.now }
    requires widths { length a.now ≡ length b.now }
    requires some { 0 < length a.now }
    ensures keeps { Keeps G.belongs G.node_value gates.old gates.new }
    ensures quotient_belongs { IfOk result (λ p. AllIn (G.belongs gates.new) p.quotient) }
    ensures remainder_belongs { IfOk result (λ p. AllIn (G.belongs gates.new) p.remainder) }
    ensures quotient_width { IfOk result (λ p. length p.quotient ≡ length a.now) }
    ensures remainder_width { IfOk result (λ p. length p.remainder ≡ length a.now) }
    ensures divided { IfOk result (λ p. (x : ℕ → Bool) → IsDivided
        (magnitude (length a.now) (number (G.node_value gates.old x) a.now))
        (magnitude (length a.now) (number (G.node_value gates.old x) b.now))
        (2 ^ length a.now)
        (number (G.node_value gates.new x) p.quotient)
        (number (G.node_value gates.new x) p.remainder)) }
{
    let over = magnitude_of(alloc, gates, a)?;
    let under = magnitude_of(alloc, gates, b)?;
    let parts = divide(alloc, gates, over.nodes(), under.nodes())?;
    Ok(parts)
}

/// The quotient of two lists of bits.
fn quotient_of<G: Gates>(
    alloc: Global,
    gates: &mut G,
    a: &[Node],
    b: &[Node],
) -> Result<Bits, AllocError>
    requires a_belongs { AllIn (G.belongs gates.old) a.now }
    requires b_belongs { AllIn (G.belongs gates.old) b.now }
    requires widths { length a.now ≡ length b.now }
    requires some { 0 < length a.now }
    ensures keeps { Keeps G.belongs G.node_value gates.old gates.new }
    ensures belongs { IfOk result (λ s. AllIn (G.belongs gates.new) s) }
    ensures width { IfOk result (λ s. length s ≡ length a.now) }
    ensures value { IfOk result (λ s. (x : ℕ → Bool) → signed (G.node_value gates.new x) s
        ≡ wrap (length a.now) (quotient (signed (G.node_value gates.old x) a.now)
        (signed (G.node_value gates.old x) b.now))) }
{
    let parts = divide_magnitudes(alloc, gates, a, b)?;
    let some = any_bit(gates, a)?;
    let magnitude = masked(alloc, gates, some, parts.quotient.nodes())?;
    let sign = gates.xor(a[a.len() - 1], b[b.len() - 1])?;
    let quotient = negate_where(alloc, gates, sign, magnitude.nodes())?;
    Ok(quotient)
}

/// The remainder of two lists of bits.
fn remainder_of<G: Gates>(
    alloc: Global,
    gates: &mut G,
    a: &[Node],
    b: &[Node],
) -> Result<Bits, AllocError>
    requires a_belongs { AllIn (G.belongs gates.old) a.now }
    requires b_belongs { AllIn (G.belongs gates.old) b.now }
    requires widths { length a.now ≡ length b.now }
    requires some { 0 < length a.now }
    ensures keeps { Keeps G.belongs G.node_value gates.old gates.new }
    ensures belongs { IfOk result (λ s. AllIn (G.belongs gates.new) s) }
    ensures width { IfOk result (λ s. length s ≡ length a.now) }
    ensures value { IfOk result (λ s. (x : ℕ → Bool) → signed (G.node_value gates.new x) s
        ≡ wrap (length a.now) (remainder (signed (G.node_value gates.old x) a.now)
        (signed (G.node_value gates.old x) b.now))) }
{
    let parts = divide_magnitudes(alloc, gates, a, b)?;
    let remainder = negate_where(alloc, gates, a[a.len() - 1], parts.remainder.nodes())?;
    Ok(remainder)
}

/// The quotient towards zero, wrapped to the width: of the least integer by -1 it is the least
/// integer. By 0 it is 0 of 0, 1 of a negative dividend and -1 of a positive one.
pub fn div<G: Gates>(alloc: Global, gates: &mut G, a: &Bits, b: &Bits) -> Result<Bits, AllocError>
    requires a_belongs { AllIn (G.belongs gates.old) a.now }
    requires b_belongs { AllIn (G.belongs gates.old) b.now }
    requires widths { length a.now ≡ length b.now }
    requires some { 0 < length a.now }
    ensures keeps { Keeps G.belongs G.node_value gates.old gates.new }
    ensures belongs { IfOk result (λ s. AllIn (G.belongs gates.new) s) }
    ensures width { IfOk result (λ s. length s ≡ length a.now) }
    ensures value { IfOk result (λ s. (x : ℕ → Bool) → signed (G.node_value gates.new x) s
        ≡ wrap (length a.now) (quotient (signed (G.node_value gates.old x) a.now)
        (signed (G.node_value gates.old x) b.now))) }
{
    let quotient = quotient_of(alloc, gates, a.nodes(), b.nodes())?;
    Ok(quotient)
}

/// The remainder, the dividend less the divisor times the quotient: it has the dividend's sign,
/// and by 0 it is the dividend.
pub fn rem<G: Gates>(alloc: Global, gates: &mut G, a: &Bits, b: &Bits) -> Result<Bits, AllocError>
    requires a_belongs { AllIn (G.belongs gates.old) a.now }
    requires b_belongs { AllIn (G.belongs gates.old) b.now }
    requires widths { length a.now ≡ length b.now }
    requires some { 0 < length a.now }
    ensures keeps { Keeps G.belongs G.node_value gates.old gates.new }
    ensures belongs { IfOk result (λ s. AllIn (G.belongs gates.new) s) }
    ensures width { IfOk result (λ s. length s ≡ length a.now) }
    ensures value { IfOk result (λ s. (x : ℕ → Bool) → signed (G.node_value gates.new x) s
        ≡ wrap (length a.now) (remainder (signed (G.node_value gates.old x) a.now)
        (signed (G.node_value gates.old x) b.now))) }
{
    let remainder = remainder_of(alloc, gates, a.nodes(), b.nodes())?;
    Ok(remainder)
}
