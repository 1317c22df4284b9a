//! Sums of sizes that stand at places, with overflow as want of memory.

ghost use Rattle.std.specs.Prelude.{◌≡◌, ◌<◌, ◌+◌, ◌*◌, ◌^◌, ℕ, length, if◌then◌else◌, eqb, slice_index, IfOk, OnOk};
ghost use Rattle.bound_uppers.specs.Sums.{AreSizes, AreStarts};

use std::alloc::{AllocError, Global};

/// A size that stands at a place.
#[derive(Clone, Copy, Debug, PartialEq, Eq)]
pub struct Weight {
    pub place: u64,
    pub size: u64,
}

/// The sum of two numbers. Overflow is answered as want of memory: that many things would not fit.
pub fn added(a: u64, b: u64) -> Result<u64, AllocError>
    ensures sum { IfOk result (λ n. n ≡ a + b) }
    ensures fits { IfOk result (λ n. n < 2 ^ 64) }
{
    match a.checked_add(b) {
        Some(sum) => Ok(sum),
        None => Err(AllocError),
    }
}

/// The product of two numbers. Overflow is answered as want of memory: that many things would not
/// fit.
pub fn multiplied(a: u64, b: u64) -> Result<u64, AllocError>
    ensures { IfOk result (λ n. n ≡ a * b) }
{
    match a.checked_mul(b) {
        Some(product) => Ok(product),
        None => Err(AllocError),
    }
}

/// So many zeros.
fn zeros(alloc: Global, count: usize) -> Result<Vec<u64>, AllocError>
    ensures count { IfOk result (λ v. length v.items ≡ count) }
    ensures zeros { IfOk result (λ v. (place : ℕ) → place < count → slice_index v.items place ≡ 0) }
{
    let mut all = Vec::new(alloc);
    for _place in 0..count {
        all.push(0u64)?;
    }
    Ok(all)
}

/// Adds to the number at a place, where there is such a place.
#[tactic(auto, using(crate::proofs::Weighing::set_sum, crate::proofs::Weighing::no_place))]
pub fn add_at(numbers: &mut [u64], place: u64, size: u64) -> Result<(), AllocError>
    ensures count { length numbers.new ≡ length numbers.old }
    ensures sum { OnOk result ((other : ℕ) → other < length numbers.old →
        slice_index numbers.new other ≡ slice_index numbers.old other +
        (if eqb place other then size else 0)) }
{
    let at = place as usize;
    if at >= numbers.len() {
        return Ok(());
    }
    let sum = added(numbers[at], size)?;
    numbers[at] = sum;
    Ok(())
}

/// How much stands at each of so many places.
#[tactic(auto, using(crate::proofs::Weighing::sum_more, crate::proofs::Weighing::sum_none))]
fn sizes(alloc: Global, count: usize, weights: &[Weight]) -> Result<Vec<u64>, AllocError>
    ensures { IfOk result (λ v. AreSizes count weights.now v.items) }
{
    let mut all = zeros(alloc, count)?;
    for weight in weights {
        add_at(&mut all, weight.place, weight.size)?;
    }
    Ok(all)
}

/// How much stands before each of so many places.
#[tactic(auto, using(crate::proofs::Weighing::before_more, crate::proofs::Weighing::before_none))]
pub fn starts(alloc: Global, count: usize, weights: &[Weight]) -> Result<Vec<u64>, AllocError>
    ensures { IfOk result (λ v. AreStarts count weights.now v.items) }
{
    let counts = sizes(alloc, count, weights)?;
    let mut all = Vec::new(alloc);
    let mut sum = 0u64;
    for place in 0..counts.len() {
        all.push(sum)?;
        sum = added(sum, counts[place])?;
    }
    Ok(all)
}
