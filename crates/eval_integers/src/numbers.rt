//! Integers of a bitwidth: wrapping, the five operators, and comparisons.

ghost use Rattle.std.specs.Prelude.{◌≡◌, ◌≢◌, ◌↔◌, IsTrue, ◌<◌, ◌≤◌, ◌-◌, ◌^◌, ◌+ℤ◌, ◌≤ℤ◌, ◌<ℤ◌, pos, negsuc};
ghost use Rattle.std.specs.Int.RustNames.{int_div, int_rem};
ghost use Rattle.eval_integers.specs.Compared.{CompareOf};
ghost use Rattle.core_meaning.specs.Integers.{low_bits, from_bits, wrap, quotient, remainder, result_of};

use core_tree::{Comparison, IntOp};

/// How many integers a bitwidth gives.
#[tactic(auto, using(crate::proofs::PowLaw::pow_few, crate::proofs::PowLaw::pow_some))]
pub fn integer_count(bits: u32) -> u32
    requires { bits ≤ 14 }
    ensures number { result ≡ 2 ^ bits }
    ensures some { 1 ≤ result }
    ensures few { result ≤ 16384 }
{
    2u32.pow(bits)
}

/// The low bits of an integer, in two's complement.
#[tactic(auto, using(crate::proofs::BitLaw::low_nonneg, crate::proofs::BitLaw::low_negative))]
pub fn low_bits(bits: u32, number: i64) -> u32
    requires { bits ≤ 14 }
    ensures number { result ≡ low_bits bits number }
    ensures below { result < 2 ^ bits }
{
    let count = u64::from(integer_count(bits));
    if number >= 0 {
        (number.unsigned_abs() % count) as u32
    } else {
        (count - 1 - (number.unsigned_abs() - 1) % count) as u32
    }
}

/// Half of the number of integers of a bitwidth.
pub fn half_count(bits: u32) -> u32
    requires most { bits ≤ 14 }
    requires least { 1 ≤ bits }
    ensures number { result ≡ 2 ^ (bits - 1) }
    ensures few { result ≤ 8192 }
{
    integer_count(bits - 1)
}

/// The integer with these low bits.
#[tactic(auto, using(crate::proofs::BitLaw::from_low, crate::proofs::BitLaw::from_high))]
fn from_bits(bits: u32, low: u32) -> i64
    requires most { bits ≤ 14 }
    requires least { 1 ≤ bits }
    requires below { low < 2 ^ bits }
    ensures number { result ≡ from_bits bits low }
    ensures low { negsuc 8191 ≤ℤ result }
    ensures high { result <ℤ pos 8192 }
{
    if low < half_count(bits) {
        i64::from(low)
    } else {
        i64::from(low) - i64::from(integer_count(bits))
    }
}

/// An integer wrapped to a bitwidth.
pub fn wrap(bits: u32, number: i64) -> i64
    requires most { bits ≤ 14 }
    requires least { 1 ≤ bits }
    ensures number { result ≡ wrap bits number }
    ensures low { negsuc 8191 ≤ℤ result }
    ensures high { result <ℤ pos 8192 }
{
    from_bits(bits, low_bits(bits, number))
}

/// The quotient by another integer than 0, towards zero.
fn divided(x: i64, y: i64) -> i64
    requires low { negsuc 8191 ≤ℤ x }
    requires high { x <ℤ pos 8192 }
    requires some { y ≢ pos 0 }
    ensures { result ≡ int_div x y }
{
    x / y
}

/// The quotient, towards zero. By 0 it is 0 of 0, 1 of a negative dividend and -1 of a positive one.
#[tactic(auto, using(crate::proofs::BitLaw::quotient_none, crate::proofs::BitLaw::quotient_low, crate::proofs::BitLaw::quotient_high, crate::proofs::BitLaw::quotient_div))]
fn quotient(x: i64, y: i64) -> i64
    requires low { negsuc 8191 ≤ℤ x }
    requires high { x <ℤ pos 8192 }
    ensures number { result ≡ quotient x y }
{
    if y != 0 {
        return divided(x, y);
    }
    if x == 0 {
        return 0;
    }
    if x < 0 {
        return 1;
    }
    -1
}

/// What division by another integer than 0 leaves, with the sign of the dividend.
fn rest(x: i64, y: i64) -> i64
    requires low { negsuc 8191 ≤ℤ x }
    requires high { x <ℤ pos 8192 }
    requires some { y ≢ pos 0 }
    ensures { result ≡ int_rem x y }
{
    x % y
}

/// The dividend less the divisor times the quotient.
#[tactic(auto, using(crate::proofs::BitLaw::remainder_rest, crate::proofs::BitLaw::remainder_none))]
fn remainder(x: i64, y: i64) -> i64
    requires low { negsuc 8191 ≤ℤ x }
    requires high { x <ℤ pos 8192 }
    ensures number { result ≡ remainder x y }
{
    if y != 0 {
        return rest(x, y);
    }
    x
}

/// What an operator gives before it wraps.
pub fn result_of(op: IntOp, x: i64, y: i64) -> i64
    requires low { negsuc 8191 ≤ℤ x }
    requires high { x <ℤ pos 8192 }
    requires least { negsuc 8191 ≤ℤ y }
    requires most { y <ℤ pos 8192 }
    ensures { result ≡ result_of op x y }
{
    match op {
        IntOp::Add => x + y,
        IntOp::Sub => x - y,
        IntOp::Mul => x * y,
        IntOp::Div => quotient(x, y),
        IntOp::Rem => remainder(x, y),
    }
}

/// The sum of two integers, wrapped; wrapping either first changes nothing.
pub fn wrapped_sum(bits: u32, x: i64, y: i64) -> i64
    requires most { bits ≤ 14 }
    requires least { 1 ≤ bits }
    ensures number { result ≡ wrap bits (x +ℤ y) }
    ensures low { negsuc 8191 ≤ℤ result }
    ensures high { result <ℤ pos 8192 }
{
    let first = wrap(bits, x);
    let second = wrap(bits, y);
    wrap(bits, first + second)
}

/// Whether two integers compare as an operator asks.
pub fn compares(op: Comparison, x: i64, y: i64) -> bool
    ensures { IsTrue result ↔ CompareOf op x y }
{
    match op {
        Comparison::Equal => x == y,
        Comparison::Less => x < y,
        Comparison::AtMost => x <= y,
        Comparison::Greater => x > y,
        Comparison::AtLeast => x >= y,
    }
}
