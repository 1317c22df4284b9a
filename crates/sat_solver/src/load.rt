//! What passes between the trail, a learnt clause and the answer: literals, hints and values.

ghost use Rattle.std.specs.Prelude.{◌≡◌, ℕ, pos, ◌<◌, ◌≤◌, ◌^◌, ◌↔◌, ◌++◌, ◌∷◌, [], false, IsTrue, IfOk, OnOk, length, slice_index_or};
ghost use Rattle.std.specs.List.{All};
ghost use Rattle.sat_trail.specs.Literal.{IsLiteral};
ghost use Rattle.sat_trail.specs.Assignment.{value_at};

use sat_dimacs::Clause;
use sat_lrat::Hints;
use sat_trail::Trail;
use std::alloc::{AllocError, Global};

/// Whether a literal is one of so many variables.
#[inline]
pub(crate) fn is_literal(variables: usize, literal: i64) -> bool
    ensures { IsTrue result → IsLiteral variables literal }
{
    literal != 0 && literal.unsigned_abs() <= variables as u64
}

/// A bit for the level that a literal's variable had last, by the level's rest at 64.
#[inline]
fn level_bit(trail: &Trail, literal: i64) -> u64 {
    if !is_literal(trail.values().len(), literal) {
        return 0;
    }
    1 << (trail.level(literal.unsigned_abs()) % 64)
}

/// How many levels the variables of some literals had last, where those with one rest at 64 count once.
pub(crate) fn level_count(trail: &Trail, literals: &[i64]) -> u64 {
    let mut bits = 0;
    for literal in literals {
        bits |= level_bit(trail, *literal);
    }
    u64::from(bits.count_ones())
}

/// How many variables there are, by the values of these.
#[inline]
pub(crate) fn count_of(values: &[i8]) -> usize
    ensures count { result ≡ length values.now }
    ensures fits { result < 2 ^ 63 }
{
    values.len()
}

/// Adds a literal to a clause.
fn push_literal(clause: &mut Clause, variables: usize, literal: &i64) -> Result<(), AllocError>
    requires fits { variables < 2 ^ 63 }
    requires literal { IsLiteral variables literal.now }
    ensures { OnOk result (clause.new ≡ clause.old ++ literal.now ∷ []) }
{
    clause.push(*literal)?;
    Ok(())
}

/// The clause of some literals.
pub(crate) fn clause_of(
    alloc: Global,
    variables: usize,
    literals: &[i64],
) -> Result<Clause, AllocError>
    requires fits { variables < 2 ^ 63 }
    requires literals { All (IsLiteral variables) literals.now }
    ensures { IfOk result (λ clause. clause ≡ literals.now) }
{
    let mut clause = Clause::new(alloc);
    for literal in literals {
        push_literal(&mut clause, variables, literal)?;
    }
    Ok(clause)
}

/// Hints of some numbers.
pub(crate) fn hints_of(alloc: Global, numbers: &[u64]) -> Result<Hints, AllocError>
    ensures { IfOk result (λ hints. hints ≡ numbers.now) }
{
    let mut hints = Hints::new(alloc);
    for number in numbers {
        hints.push(*number)?;
    }
    Ok(hints)
}

/// Whether a variable of this value is true.
#[inline]
fn is_true(value: &i8) -> bool
    ensures { IsTrue result ↔ (value.now ≡ pos 1) }
{
    *value == 1
}

/// Whether each variable is true, by its value.
pub(crate) fn truths_of(alloc: Global, values: &[i8]) -> Result<Vec<bool>, AllocError>
    ensures count { IfOk result (λ truths. length truths.items ≡ length values.now) }
    ensures truths { IfOk result (λ truths. (k : ℕ) → k < length values.now →
        IsTrue (slice_index_or truths.items k false) ↔ (value_at values.now k ≡ pos 1)) }
{
    let mut truths = Vec::new(alloc);
    for place in 0..values.len() {
        truths.push(is_true(&values[place]))?;
    }
    Ok(truths)
}
