//! How many variables a table by the top-level sigs of the types has, which is counted before any
//! tuple is made.

ghost use Rattle.std.specs.Prelude.{◌≡◌, ◌<◌, ◌+◌, ◌*◌, ℕ, IfOk, nat_lt, length, slice_get, sum_by};
ghost use Rattle.bound_owners.specs.Tops.{HasTops};
ghost use Rattle.bound_uppers.specs.Kinds.{HasSpans, span_at};
ghost use Rattle.core_tree.specs.Types.{by_sig};
ghost use Rattle.bound_uppers.specs.Counts.{capped, span_count, row_count, rows_count, states_in, is_literal, over_states, sig_count, field_count, sigs_count, loops_in, table_size};

use crate::kinds::{INTEGERS, number_at, sig_kinds, type_kinds};
use crate::numbers::{AtomRange, AtomRanges};
use core_meaning::Scopes;
use core_tree::{Field, Model, Sig, SigKind};
use core_tuples::Tuple;
use std::alloc::{AllocError, Global};

/// The most variables that a table has, its loop indices among them (Cells, S67).
pub const MOST_CELLS: u64 = 1_000_000;

/// The sum, or the greatest number where it is more.
#[tactic(auto, using(crate::proofs::Counting::capped_sum))]
fn sum_of(a: u64, b: u64) -> u64
    ensures { (x y : ℕ) → a ≡ capped x → b ≡ capped y → result ≡ capped (x + y) }
{
    a.saturating_add(b)
}

/// The product, or the greatest number where it is more.
#[tactic(auto, using(crate::proofs::Counting::capped_product))]
fn product_of(a: u64, b: u64) -> u64
    ensures { (x : ℕ) → a ≡ capped x → result ≡ capped (x * b) }
{
    a.saturating_mul(b)
}

/// The numbers of a kind.
fn span_of(spans: &AtomRanges, kind: u32) -> AtomRange
    ensures { result ≡ span_at spans.now kind }
{
    if kind == INTEGERS {
        return spans.integers;
    }
    if (kind as usize) < spans.sigs.len() {
        spans.sigs[kind as usize]
    } else {
        AtomRange { first: 0, count: 0 }
    }
}

/// How many numbers a kind has.
fn count_of(spans: &AtomRanges, kind: u32) -> u64
    ensures { result ≡ span_count spans.now kind }
{
    let span = span_of(spans, kind);
    span.count as u64
}

/// How many tuples a row has, or the greatest number where there are more.
fn row_size(spans: &AtomRanges, row: &Tuple) -> u64
    ensures { result ≡ capped (row_count (span_count spans.now) row.now) }
{
    let kinds = row.numbers();
    let mut size = 1u64;
    for place in 0..kinds.len() {
        let kind = number_at(kinds, place);
        let count = count_of(spans, kind);
        size = product_of(size, count);
    }
    size
}

/// How many tuples rows of different kinds have together, or the greatest number where there are
/// more.
fn rows_size(spans: &AtomRanges, rows: &[Tuple]) -> u64
    ensures { result ≡ capped (rows_count (span_count spans.now) rows.now) }
{
    let mut size = 0u64;
    for row in rows {
        let more = row_size(spans, row);
        size = sum_of(size, more);
    }
    size
}

/// How many states a lasso has: one at least.
pub fn states_of(scopes: &Scopes) -> u32
    ensures some { 0 < result }
    ensures same { 0 < scopes.now.states → result ≡ scopes.now.states }
    ensures is { result ≡ states_in scopes.now }
{
    if scopes.states == 0 {
        return 1;
    }
    scopes.states
}

/// How many variables a relation of so many tuples has: for each one, or one at each state.
fn in_states(scopes: &Scopes, is_var: bool, tuples: u64) -> u64
    ensures { (x : ℕ) → tuples ≡ capped x → result ≡ capped (over_states scopes.now is_var x) }
{
    if is_var {
        let states = states_of(scopes);
        return product_of(tuples, states as u64);
    }
    tuples
}

/// Whether this is a literal's sig.
fn is_of_literal(sig: &Sig) -> bool
    ensures { result ≡ is_literal sig.now }
{
    if sig.origin.is_some() {
        return false;
    }
    match &sig.kind {
        SigKind::Top => false,
        SigKind::Extends(_) => true,
        SigKind::Subset(_) => false,
    }
}

/// How many variables a sig has, which has this number.
fn sig_size(
    alloc: Global,
    sigs: &[Sig],
    sig: &Sig,
    ups: &[u32],
    scopes: &Scopes,
    spans: &AtomRanges,
    number: u32,
) -> Result<u64, AllocError>
    requires tops { HasTops sigs.now ups.now }
    requires spans { HasSpans scopes.now spans.now }
    ensures { IfOk result (λ n. n ≡ capped (sig_count sigs.now scopes.now number sig.now)) }
{
    if is_of_literal(sig) {
        let one = in_states(scopes, sig.is_var, 1);
        return Ok(one);
    }
    let rows = sig_kinds(alloc, sigs, ups, number)?;
    let tuples = rows_size(spans, &rows);
    let size = in_states(scopes, sig.is_var, tuples);
    Ok(size)
}

/// How many variables the sigs have.
fn sigs_size(
    alloc: Global,
    sigs: &[Sig],
    ups: &[u32],
    scopes: &Scopes,
    spans: &AtomRanges,
) -> Result<u64, AllocError>
    requires tops { HasTops sigs.now ups.now }
    requires spans { HasSpans scopes.now spans.now }
    ensures { IfOk result (λ n. n ≡ capped (sigs_count sigs.now scopes.now (length sigs.now))) }
{
    let mut size = 0u64;
    let mut number = 0u32;
    for sig in sigs {
        let more = sig_size(alloc, sigs, sig, ups, scopes, spans, number)?;
        size = sum_of(size, more);
        if number == u32::MAX {
            return Err(AllocError);
        }
        number += 1;
    }
    Ok(size)
}

/// How many variables a field has.
fn field_size(
    alloc: Global,
    sigs: &[Sig],
    field: &Field,
    ups: &[u32],
    scopes: &Scopes,
    spans: &AtomRanges,
) -> Result<u64, AllocError>
    requires tops { HasTops sigs.now ups.now }
    requires spans { HasSpans scopes.now spans.now }
    ensures { IfOk result (λ n. n ≡ capped (field_count sigs.now scopes.now field.now)) }
{
    // for the proof: the clauses speak of the sigs
    let _ = sigs;
    let listed = field.rows.as_slice();
    let rows = type_kinds(alloc, ups, listed)?;
    let tuples = rows_size(spans, &rows);
    let size = in_states(scopes, field.is_var, tuples);
    Ok(size)
}

/// How many variables the fields have.
fn fields_size(
    alloc: Global,
    sigs: &[Sig],
    fields: &[Field],
    ups: &[u32],
    scopes: &Scopes,
    spans: &AtomRanges,
) -> Result<u64, AllocError>
    requires tops { HasTops sigs.now ups.now }
    requires spans { HasSpans scopes.now spans.now }
    ensures { IfOk result (λ n. n ≡ capped (sum_by (field_count sigs.now scopes.now)
        fields.now)) }
{
    let mut size = 0u64;
    for field in fields {
        let more = field_size(alloc, sigs, field, ups, scopes, spans)?;
        size = sum_of(size, more);
    }
    Ok(size)
}

/// How many variables say where the loop begins: none where there is one state.
fn loops_of(scopes: &Scopes) -> u64
    ensures { result ≡ capped (loops_in scopes.now) }
{
    let states = states_of(scopes);
    if states > 1 {
        return states as u64;
    }
    0
}

/// Whether a number is over the most that a table has.
#[tactic(auto, using(crate::proofs::Counting::over_capped))]
fn is_over(number: u64) -> bool
    ensures { (x : ℕ) → number ≡ capped x → result ≡ nat_lt 1000000 x }
{
    number > MOST_CELLS
}

/// Whether the table would have more than 1,000,000 variables, where the relations have the products
/// of the top-level sigs of their types. They are counted before any tuple is made.
pub fn is_large(
    alloc: Global,
    model: &Model,
    scopes: &Scopes,
    ups: &[u32],
    spans: &AtomRanges,
) -> Result<bool, AllocError>
    requires tops { HasTops model.now.sigs ups.now }
    requires spans { HasSpans scopes.now spans.now }
    ensures { IfOk result (λ large. large ≡ nat_lt 1000000 (table_size model.now scopes.now)) }
{
    let sigs = model.sigs.as_slice();
    let fields = model.fields.as_slice();
    let first = sigs_size(alloc, sigs, ups, scopes, spans)?;
    let second = fields_size(alloc, sigs, fields, ups, scopes, spans)?;
    let relations = sum_of(first, second);
    let loops = loops_of(scopes);
    let all = sum_of(relations, loops);
    Ok(is_over(all))
}
