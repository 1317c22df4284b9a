//! What sets stand for in integer places.

ghost use Rattle.std.specs.Prelude.{◌≡◌, ◌≤◌, ◌-◌, ◌^◌, ◌∷◌, [], ◌+ℤ◌, ◌≤ℤ◌, ◌<ℤ◌, pos, negsuc, map, ℕ, IfOk, IfSome, IfNone, List};
ghost use Rattle.core_tuples.specs.Sets.{In};
ghost use Rattle.core_meaning.specs.World.{atom_of, integer_of, IsInteger};
ghost use Rattle.core_meaning.specs.Integers.{wrap, sum_of};
ghost use Rattle.core_meaning.specs.Operators.{IsNumber};
ghost use Rattle.eval_sets.specs.SetOf.{IsSetOf};
ghost use Rattle.eval_context.specs.Settings.{world};
ghost use Rattle.eval_integers.specs.Amounts.{amount};

use crate::{half_count, integer_count, low_bits, wrap, wrapped_sum};
use core_tuples::TupleSet;
use eval_context::Setting;
use eval_sets::{EvaluationFault, atoms_in, single};

/// The sum of two integers. One outside 64 bits is unfit.
fn added(a: i64, b: i64) -> Result<i64, EvaluationFault>
    ensures { IfOk result (λ n. n ≡ a +ℤ b) }
{
    match a.checked_add(b) {
        Some(sum) => Ok(sum),
        None => Err(EvaluationFault::Unfit),
    }
}

/// Half of the number of integers of a bitwidth.
fn half_of(bits: u32) -> i64
    requires most { bits ≤ 14 }
    requires least { 1 ≤ bits }
    ensures { result ≡ pos (2 ^ (bits - 1)) }
{
    i64::from(half_count(bits))
}

/// The set of an integer. One near the ends of 64 bits is unfit.
pub fn literal(setting: &Setting, number: i64) -> Result<TupleSet, EvaluationFault>
    ensures { IfOk result (λ s. IsSetOf s (λ t. t ≡ atom_of (world setting.now) number ∷ [])) }
{
    let bits = setting.bits();
    let first = setting.atoms();
    let half = half_of(bits);
    let above = added(number, half)?;
    let low = low_bits(bits, above);
    let set = single(setting.alloc(), first + low)?;
    Ok(set)
}

/// The set of an integer, wrapped.
pub fn wrapped(setting: &Setting, number: i64) -> Result<TupleSet, EvaluationFault>
    ensures { IfOk result (λ s. IsSetOf s (λ t. t ≡ atom_of (world setting.now)
        (wrap (world setting.now).bits number) ∷ [])) }
{
    let bits = setting.bits();
    let value = wrap(bits, number);
    let set = literal(setting, value)?;
    Ok(set)
}

/// The sum of two integers, wrapped; wrapping either first changes nothing.
pub fn add(setting: &Setting, x: i64, y: i64) -> i64
    ensures number { result ≡ wrap (world setting.now).bits (x +ℤ y) }
    ensures low { negsuc 8191 ≤ℤ result }
    ensures high { result <ℤ pos 8192 }
{
    wrapped_sum(setting.bits(), x, y)
}

/// The integer for which a number of the universe stands, where it stands for one.
fn integer_for(setting: &Setting, number: u32) -> Option<i64>
    ensures some { IfSome result (λ z. IsInteger (world setting.now) number
        × (z ≡ integer_of (world setting.now) number)) }
    ensures none { IfNone result (¬ IsInteger (world setting.now) number) }
{
    let first = setting.atoms();
    let bits = setting.bits();
    let count = integer_count(bits);
    if number < first || number - first >= count {
        return None;
    }
    let half = half_of(bits);
    Some(i64::from(number - first) - half)
}

/// A sum with what a number of the universe adds to it, wrapped: the integer for which the number
/// stands, or nothing.
fn with_number(setting: &Setting, sum: i64, number: u32) -> i64
    ensures number { result ≡ wrap (world setting.now).bits
        (sum +ℤ amount (world setting.now) number) }
    ensures low { negsuc 8191 ≤ℤ result }
    ensures high { result <ℤ pos 8192 }
{
    match integer_for(setting, number) {
        Some(integer) => add(setting, sum, integer),
        None => add(setting, sum, 0),
    }
}

/// What some numbers of the universe add up to, wrapped.
fn sum_of(setting: &Setting, numbers: &[u32]) -> i64
    ensures number { result ≡ wrap (world setting.now).bits
        (sum_of (map (amount (world setting.now)) numbers.now)) }
    ensures low { negsuc 8191 ≤ℤ result }
    ensures high { result <ℤ pos 8192 }
{
    let mut sum = add(setting, 0, 0);
    for number in numbers {
        sum = with_number(setting, sum, *number);
    }
    sum
}

/// What a set stands for in an integer place: the wrapped sum of its integers.
pub fn number_of(setting: &Setting, set: &TupleSet) -> Result<i64, EvaluationFault>
    ensures number { IfOk result (λ n. IsNumber (world setting.now) (λ t. In t set.now) n) }
    ensures low { IfOk result (λ n. negsuc 8191 ≤ℤ n) }
    ensures high { IfOk result (λ n. n <ℤ pos 8192) }
{
    let members = atoms_in(setting.alloc(), set)?;
    Ok(sum_of(setting, &members))
}
