//! Which two literals a clause watches that is attached, and what has to be propagated again for it.
//!
//! It watches a literal that isn't false, or else the one that became false last. Where a watched
//! literal is false, propagation begins again at its place, at the latest, on every open level.

ghost use Rattle.std.specs.Prelude.{◌≡◌, ◌≢◌, ℕ, neg_ℤ, ◌<◌, ◌≤◌, length, slice_index, IfSome};
ghost use Rattle.std.specs.List.{All};
ghost use Rattle.sat_trail.specs.Literal.{IsLiteral};
ghost use Rattle.sat_trail.specs.Assignment.{value_at};

use crate::assigned::Assigned;
use crate::literal::literal_at;

/// A number that is at most the place of the negation of a literal, if the literal is false.
pub fn bound(assigned: &Assigned, literal: i64) -> usize
    requires { IsLiteral (length assigned.now.values) literal }
    ensures { (j : ℕ) → j < length assigned.now.trail → j < result →
        value_at assigned.now.trail j ≢ neg_ℤ literal }
{
    if assigned.is_false(literal) {
        return assigned.place(literal);
    }
    usize::MAX
}

/// The place of a literal other than `skip` that is false last or not at all, or the length where there is none.
pub fn latest(assigned: &Assigned, literals: &[i64], skip: i64) -> usize
    requires { All (IsLiteral (length assigned.now.values)) literals.now }
    ensures within { result ≤ length literals.now }
    ensures unlike { result < length literals.now → value_at literals.now result ≢ skip }
    ensures none { result ≡ length literals.now → (p : ℕ) → p < length literals.now →
        value_at literals.now p ≡ skip }
{
    let mut best = literals.len();
    let mut rank = 0;
    for place in 0..literals.len() {
        let literal = literals[place];
        if literal != skip {
            let its_rank = bound(assigned, literal);
            if best == literals.len() || its_rank > rank {
                rank = its_rank;
                best = place;
            }
        }
    }
    best
}

/// As `latest`, of literals that are kept in 32 bits.
pub fn latest_kept(assigned: &Assigned, literals: &[i32], skip: i64) -> usize
    requires { All (IsLiteral (length assigned.now.values)) literals.now }
    ensures within { result ≤ length literals.now }
    ensures unlike { result < length literals.now → value_at literals.now result ≢ skip }
    ensures none { result ≡ length literals.now → (p : ℕ) → p < length literals.now →
        value_at literals.now p ≡ skip }
{
    let mut best = literals.len();
    let mut rank = 0;
    for place in 0..literals.len() {
        let literal = literal_at(literals, place);
        if literal != skip {
            let its_rank = bound(assigned, literal);
            if best == literals.len() || its_rank > rank {
                rank = its_rank;
                best = place;
            }
        }
    }
    best
}

/// The places of two different literals that are false last or not at all, if there are two.
pub fn two_latest(assigned: &Assigned, literals: &[i32]) -> Option<(usize, usize)>
    requires { All (IsLiteral (length assigned.now.values)) literals.now }
    ensures { IfSome result (λ places. (places.0 < length literals.now)
        × (places.1 < length literals.now)
        × (value_at literals.now places.0 ≢ value_at literals.now places.1)) }
{
    let one = latest_kept(assigned, literals, 0);
    if one < literals.len() {
        let two = latest_kept(assigned, literals, literal_at(literals, one));
        if two < literals.len() {
            return Some((one, two));
        }
    }
    None
}

/// Lowers each of the first numbers to at most a bound.
pub fn lower(numbers: &mut Vec<usize>, count: usize, bound: usize)
    requires { count ≤ length numbers.old.items }
    ensures len { length numbers.new.items ≡ length numbers.old.items }
    ensures lowered { (k : ℕ) → k < count → (slice_index numbers.new.items k
        ≤ slice_index numbers.old.items k) × (slice_index numbers.new.items k ≤ bound) }
{
    for place in 0..count {
        numbers[place] = numbers[place].min(bound);
    }
}
