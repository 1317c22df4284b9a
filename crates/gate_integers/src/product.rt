//! Products, as sums of shifted rows.

ghost use Rattle.std.specs.Prelude.{◌≡◌, ◌<◌, ◌+◌, ◌*◌, ◌^◌, ◌%◌, ◌*ℤ◌, ℕ, Bool, length, IfOk};
ghost use Rattle.gate_trait.specs.declared.node.Node.{Node as CircuitNode};
ghost use Rattle.gate_trait.specs.Built.{Keeps, AllIn};
ghost use Rattle.gate_integers.specs.Numbers.{number, signed, wrap, bit};

use crate::Bits;
use crate::adder::add_numbers;
use crate::each::{copied, masked, zeros};
use gate_trait::{Gates, Node};
use std::alloc::{AllocError, Global};

/// Twice the number and a bit, where the greatest bit is lost.
pub(crate) fn shifted_in<G: Gates>(
    alloc: Global,
    gates: &G,
    a: &[Node],
    low: Node,
) -> Result<Bits, AllocError>
    requires a_belongs { AllIn (G.belongs gates.now) a.now }
    requires low_belongs { G.belongs gates.now low }
    ensures belongs { IfOk result (λ bits. AllIn (G.belongs gates.now) bits) }
    ensures width { IfOk result (λ bits. length bits ≡ length a.now) }
    ensures number { IfOk result (λ bits. (v : CircuitNode → Bool) → number v bits
        ≡ (bit (v low) + 2 * number v a.now) % 2 ^ length a.now) }
{
    // for the proof: only the clauses name the gates
    let _circuit = gates;
    let mut bits = Bits::new(alloc);
    let mut next = low;
    for node in a {
        bits.push(next)?;
        next = *node;
    }
    Ok(bits)
}

/// The sum so far, and the row that is added where the next bit is true.
#[derive(Drop, Debug)]
struct Partial {
    total: Bits,
    row: Bits,
}

/// Adds the row where the bit is true, and doubles it.
fn multiply_step<G: Gates>(
    alloc: Global,
    gates: &mut G,
    total: &[Node],
    row: &[Node],
    factor: Node,
) -> Result<Partial, AllocError>
    requires total_belongs { AllIn (G.belongs gates.old) total.now }
    requires row_belongs { AllIn (G.belongs gates.old) row.now }
    requires factor_belongs { G.belongs gates.old factor }
    requires widths { length total.now ≡ length row.now }
    ensures keeps { Keeps G.belongs G.node_value gates.old gates.new }
    ensures total_belongs { IfOk result (λ p. AllIn (G.belongs gates.new) p.total) }
    ensures row_belongs { IfOk result (λ p. AllIn (G.belongs gates.new) p.row) }
    ensures total_width { IfOk result (λ p. length p.total ≡ length total.now) }
    ensures row_width { IfOk result (λ p. length p.row ≡ length total.now) }
    ensures total { IfOk result (λ p. (x : ℕ → Bool) → number (G.node_value gates.new x) p.total
        ≡ (number (G.node_value gates.old x) total.now + bit (G.node_value gates.old x factor)
        * number (G.node_value gates.old x) row.now) % 2 ^ length total.now) }
    ensures row { IfOk result (λ p. (x : ℕ → Bool) → number (G.node_value gates.new x) p.row
        ≡ (2 * number (G.node_value gates.old x) row.now) % 2 ^ length total.now) }
{
    let part = masked(alloc, gates, factor, row)?;
    let sum = add_numbers(alloc, gates, total, part.nodes())?;
    let zero = gates.constant(false);
    let doubled = shifted_in(alloc, gates, row, zero)?;
    Ok(Partial {
        total: sum,
        row: doubled,
    })
}

/// The product of two numbers, where the bits above the width are lost.
fn multiply<G: Gates>(
    alloc: Global,
    gates: &mut G,
    a: &[Node],
    b: &[Node],
) -> Result<Bits, AllocError>
    requires a_belongs { AllIn (G.belongs gates.old) a.now }
    requires b_belongs { AllIn (G.belongs gates.old) b.now }
    ensures keeps { Keeps G.belongs G.node_value gates.old gates.new }
    ensures belongs { IfOk result (λ s. AllIn (G.belongs gates.new) s) }
    ensures width { IfOk result (λ s. length s ≡ length a.now) }
    ensures number { IfOk result (λ s. (x : ℕ → Bool) → number (G.node_value gates.new x) s
        ≡ (number (G.node_value gates.old x) a.now * number (G.node_value gates.old x) b.now)
        % 2 ^ length a.now) }
{
    let mut total = zeros(alloc, gates, a.len())?;
    let mut row = copied(alloc, gates, a)?;
    for factor in b {
        let next = multiply_step(alloc, gates, total.nodes(), row.nodes(), *factor)?;
        total = next.total;
        row = next.row;
    }
    Ok(total)
}

/// The product, wrapped to the width.
pub fn mul<G: Gates>(alloc: Global, gates: &mut G, a: &Bits, b: &Bits) -> Result<Bits, AllocError>
    requires a_belongs { AllIn (G.belongs gates.old) a.now }
    requires b_belongs { AllIn (G.belongs gates.old) b.now }
    requires widths { length a.now ≡ length b.now }
    ensures keeps { Keeps G.belongs G.node_value gates.old gates.new }
    ensures belongs { IfOk result (λ s. AllIn (G.belongs gates.new) s) }
    ensures width { IfOk result (λ s. length s ≡ length a.now) }
    ensures value { IfOk result (λ s. (x : ℕ → Bool) → signed (G.node_value gates.new x) s
        ≡ wrap (length a.now) (signed (G.node_value gates.old x) a.now
        *ℤ signed (G.node_value gates.old x) b.now)) }
{
    let product = multiply(alloc, gates, a.nodes(), b.nodes())?;
    Ok(product)
}
