//! The five operators on integers, wrapped to their width.

ghost use Rattle.std.specs.Prelude.{◌≡◌, ◌<◌, ℕ, Bool, length, IfOk};
ghost use Rattle.gate_trait.specs.Built.{Keeps, AllIn};
ghost use Rattle.core_tree.specs.declared.operators.IntOp.TheVariants.{Add, Sub, Mul, Div, Rem};
ghost use Rattle.core_meaning.specs.Integers.{wrap, result_of};
ghost use Rattle.gate_integers.specs.Numbers.{signed};

use core_tree::IntOp;
use gate_integers::Bits;
use gate_trait::Gates;
use std::alloc::{AllocError, Global};

/// The sum, wrapped to the width.
fn sum_of<G: Gates>(alloc: Global, gates: &mut G, a: &Bits, b: &Bits) -> Result<Bits, AllocError>
    requires a_belongs { AllIn (G.belongs gates.old) a.now }
    requires b_belongs { AllIn (G.belongs gates.old) b.now }
    requires widths { length a.now ≡ length b.now }
    requires some { 0 < length a.now }
    ensures keeps { Keeps G.belongs G.node_value gates.old gates.new }
    ensures belongs { IfOk result (λ s. AllIn (G.belongs gates.new) s) }
    ensures width { IfOk result (λ s. length s ≡ length a.now) }
    ensures value { IfOk result (λ s. (x : ℕ → Bool) → signed (G.node_value gates.new x) s
        ≡ wrap (length a.now) (result_of Add (signed (G.node_value gates.old x) a.now)
        (signed (G.node_value gates.old x) b.now))) }
{
    let made = gate_integers::add(alloc, gates, a, b)?;
    Ok(made)
}

/// The difference, wrapped to the width.
fn difference_of<G: Gates>(
    alloc: Global,
    gates: &mut G,
    a: &Bits,
    b: &Bits,
) -> Result<Bits, AllocError>
    requires a_belongs { AllIn (G.belongs gates.old) a.now }
    requires b_belongs { AllIn (G.belongs gates.old) b.now }
    requires widths { length a.now ≡ length b.now }
    requires some { 0 < length a.now }
    ensures keeps { Keeps G.belongs G.node_value gates.old gates.new }
    ensures belongs { IfOk result (λ s. AllIn (G.belongs gates.new) s) }
    ensures width { IfOk result (λ s. length s ≡ length a.now) }
    ensures value { IfOk result (λ s. (x : ℕ → Bool) → signed (G.node_value gates.new x) s
        ≡ wrap (length a.now) (result_of Sub (signed (G.node_value gates.old x) a.now)
        (signed (G.node_value gates.old x) b.now))) }
{
    let made = gate_integers::sub(alloc, gates, a, b)?;
    Ok(made)
}

/// The product, wrapped to the width.
fn product_of<G: Gates>(
    alloc: Global,
    gates: &mut G,
    a: &Bits,
    b: &Bits,
) -> Result<Bits, AllocError>
    requires a_belongs { AllIn (G.belongs gates.old) a.now }
    requires b_belongs { AllIn (G.belongs gates.old) b.now }
    requires widths { length a.now ≡ length b.now }
    requires some { 0 < length a.now }
    ensures keeps { Keeps G.belongs G.node_value gates.old gates.new }
    ensures belongs { IfOk result (λ s. AllIn (G.belongs gates.new) s) }
    ensures width { IfOk result (λ s. length s ≡ length a.now) }
    ensures value { IfOk result (λ s. (x : ℕ → Bool) → signed (G.node_value gates.new x) s
        ≡ wrap (length a.now) (result_of Mul (signed (G.node_value gates.old x) a.now)
        (signed (G.node_value gates.old x) b.now))) }
{
    let made = gate_integers::mul(alloc, gates, a, b)?;
    Ok(made)
}

/// The quotient, wrapped to the width.
fn quotient_of<G: Gates>(
    alloc: Global,
    gates: &mut G,
    a: &Bits,
    b: &Bits,
) -> Result<Bits, AllocError>
    requires a_belongs { AllIn (G.belongs gates.old) a.now }
    requires b_belongs { AllIn (G.belongs gates.old) b.now }
    requires widths { length a.now ≡ length b.now }
    requires some { 0 < length a.now }
    ensures keeps { Keeps G.belongs G.node_value gates.old gates.new }
    ensures belongs { IfOk result (λ s. AllIn (G.belongs gates.new) s) }
    ensures width { IfOk result (λ s. length s ≡ length a.now) }
    ensures value { IfOk result (λ s. (x : ℕ → Bool) → signed (G.node_value gates.new x) s
        ≡ wrap (length a.now) (result_of Div (signed (G.node_value gates.old x) a.now)
        (signed (G.node_value gates.old x) b.now))) }
{
    let made = gate_integers::div(alloc, gates, a, b)?;
    Ok(made)
}

/// The remainder, wrapped to the width.
fn remainder_of<G: Gates>(
    alloc: Global,
    gates: &mut G,
    a: &Bits,
    b: &Bits,
) -> Result<Bits, AllocError>
    requires a_belongs { AllIn (G.belongs gates.old) a.now }
    requires b_belongs { AllIn (G.belongs gates.old) b.now }
    requires widths { length a.now ≡ length b.now }
    requires some { 0 < length a.now }
    ensures keeps { Keeps G.belongs G.node_value gates.old gates.new }
    ensures belongs { IfOk result (λ s. AllIn (G.belongs gates.new) s) }
    ensures width { IfOk result (λ s. length s ≡ length a.now) }
    ensures value { IfOk result (λ s. (x : ℕ → Bool) → signed (G.node_value gates.new x) s
        ≡ wrap (length a.now) (result_of Rem (signed (G.node_value gates.old x) a.now)
        (signed (G.node_value gates.old x) b.now))) }
{
    let made = gate_integers::rem(alloc, gates, a, b)?;
    Ok(made)
}

/// What an operator gives of two integers, wrapped to their width.
pub fn operate<G: Gates>(
    alloc: Global,
    gates: &mut G,
    op: IntOp,
    a: &Bits,
    b: &Bits,
) -> Result<Bits, AllocError>
    requires a_belongs { AllIn (G.belongs gates.old) a.now }
    requires b_belongs { AllIn (G.belongs gates.old) b.now }
    requires widths { length a.now ≡ length b.now }
    requires some { 0 < length a.now }
    ensures keeps { Keeps G.belongs G.node_value gates.old gates.new }
    ensures belongs { IfOk result (λ s. AllIn (G.belongs gates.new) s) }
    ensures width { IfOk result (λ s. length s ≡ length a.now) }
    ensures value { IfOk result (λ s. (x : ℕ → Bool) → signed (G.node_value gates.new x) s
        ≡ wrap (length a.now) (result_of op (signed (G.node_value gates.old x) a.now)
        (signed (G.node_value gates.old x) b.now))) }
{
    match op {
        IntOp::Add => sum_of(alloc, gates, a, b),
        IntOp::Sub => difference_of(alloc, gates, a, b),
        IntOp::Mul => product_of(alloc, gates, a, b),
        IntOp::Div => quotient_of(alloc, gates, a, b),
        IntOp::Rem => remainder_of(alloc, gates, a, b),
    }
}
