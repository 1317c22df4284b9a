//! What the forms of trees measure over what their parts do.

ghost use Rattle.std.specs.Prelude.{◌≡◌, max, IfOk};
ghost use Rattle.core_tree.specs.Past.{Depths};
ghost use Rattle.form_measures.specs.declared.forms.Measure.TheVariants as measures;
ghost use Rattle.form_measures.specs.Measured.{raised, over_parts, over_row, over_unary, past_binary, over_binary, over_let};
ghost use Rattle.form_measures.specs.Weights.{weight_at};

use crate::weight::{Weight, joined, nothing};
use core_tree::{TemporalBinary, TemporalUnary};
use std::alloc::{AllocError, Global};

/// What is counted on the way from a formula to its leaves.
#[derive(Clone, Copy, Debug, PartialEq, Eq, Drop)]
pub enum Measure {
    /// Past operators.
    Past,
    /// Every part.
    Depth,
}

/// So many more.
fn more(alloc: Global, weight: &Weight) -> Result<Weight, AllocError>
    ensures { IfOk result (λ w. (d : Depths) → weight_at d w ≡ raised 1 (weight_at d weight.now)) }
{
    let raised = joined(nothing(alloc), 1, weight)?;
    Ok(raised)
}

/// The greater one.
pub(crate) fn both(first: Weight, second: &Weight) -> Result<Weight, AllocError>
    ensures { IfOk result (λ w. (d : Depths) →
        weight_at d w ≡ max (weight_at d first) (weight_at d second.now)) }
{
    let greater = joined(first, 0, second)?;
    Ok(greater)
}

/// A part that is no past operator, over what its part measures.
pub(crate) fn over_parts(
    alloc: Global,
    measure: Measure,
    parts: Weight,
) -> Result<Weight, AllocError>
    ensures { IfOk result (λ w. (d : Depths) →
        weight_at d w ≡ over_parts measure (weight_at d parts)) }
{
    match measure {
        Measure::Past => Ok(parts),
        Measure::Depth => {
            let whole = more(alloc, &parts)?;
            Ok(whole)
        }
    }
}

/// The same over two parts.
pub(crate) fn over_two(
    alloc: Global,
    measure: Measure,
    first: Weight,
    second: Weight,
) -> Result<Weight, AllocError>
    ensures { IfOk result (λ w. (d : Depths) → weight_at d w
        ≡ over_parts measure (max (weight_at d first) (weight_at d second))) }
{
    let parts = both(first, &second)?;
    let whole = over_parts(alloc, measure, parts)?;
    Ok(whole)
}

/// The same over three parts.
pub(crate) fn over_three(
    alloc: Global,
    measure: Measure,
    first: Weight,
    second: Weight,
    third: Weight,
) -> Result<Weight, AllocError>
    ensures { IfOk result (λ w. (d : Depths) → weight_at d w
        ≡ over_parts measure (max (max (weight_at d first) (weight_at d second))
        (weight_at d third))) }
{
    let parts = both(first, &second)?;
    let whole = over_two(alloc, measure, parts, third)?;
    Ok(whole)
}

/// An operator of a level over a first operand, with its own level, and a second one, where every part
/// counts. A row of operators of one level is one part, however long it is.
fn deep_row(
    alloc: Global,
    level: u32,
    own: u32,
    first: Weight,
    second: Weight,
) -> Result<Weight, AllocError>
    ensures { IfOk result (λ w. (d : Depths) → weight_at d w
        ≡ over_row measures.Depth level own (weight_at d first) (weight_at d second)) }
{
    if level == 0 {
        let apart = over_two(alloc, Measure::Depth, first, second)?;
        return Ok(apart);
    }
    if own != level {
        let apart = over_two(alloc, Measure::Depth, first, second)?;
        return Ok(apart);
    }
    let rest = more(alloc, &second)?;
    let row = both(first, &rest)?;
    Ok(row)
}

/// The same for any measure; past operators nest in a row too.
pub(crate) fn over_row(
    alloc: Global,
    measure: Measure,
    level: u32,
    own: u32,
    first: Weight,
    second: Weight,
) -> Result<Weight, AllocError>
    ensures { IfOk result (λ w. (d : Depths) → weight_at d w
        ≡ over_row measure level own (weight_at d first) (weight_at d second)) }
{
    match measure {
        Measure::Past => {
            let whole = both(first, &second)?;
            Ok(whole)
        }
        Measure::Depth => {
            let whole = deep_row(alloc, level, own, first, second)?;
            Ok(whole)
        }
    }
}

/// A past operator on one formula.
fn past_unary(alloc: Global, op: TemporalUnary, inner: Weight) -> Result<Weight, AllocError>
    ensures { IfOk result (λ w. (d : Depths) →
        weight_at d w ≡ over_unary measures.Past op (weight_at d inner)) }
{
    match op {
        TemporalUnary::After => Ok(inner),
        TemporalUnary::Always => Ok(inner),
        TemporalUnary::Eventually => Ok(inner),
        TemporalUnary::Before => {
            let whole = more(alloc, &inner)?;
            Ok(whole)
        }
        TemporalUnary::Historically => {
            let whole = more(alloc, &inner)?;
            Ok(whole)
        }
        TemporalUnary::Once => {
            let whole = more(alloc, &inner)?;
            Ok(whole)
        }
    }
}

/// A temporal operator on one formula.
pub(crate) fn over_unary(
    alloc: Global,
    measure: Measure,
    op: TemporalUnary,
    inner: Weight,
) -> Result<Weight, AllocError>
    ensures { IfOk result (λ w. (d : Depths) →
        weight_at d w ≡ over_unary measure op (weight_at d inner)) }
{
    match measure {
        Measure::Past => {
            let whole = past_unary(alloc, op, inner)?;
            Ok(whole)
        }
        Measure::Depth => {
            let whole = more(alloc, &inner)?;
            Ok(whole)
        }
    }
}

/// A past operator on two formulas.
fn past_binary(alloc: Global, op: TemporalBinary, parts: Weight) -> Result<Weight, AllocError>
    ensures { IfOk result (λ w. (d : Depths) → weight_at d w ≡ past_binary op (weight_at d parts)) }
{
    match op {
        TemporalBinary::Until => Ok(parts),
        TemporalBinary::Releases => Ok(parts),
        TemporalBinary::Since => {
            let whole = more(alloc, &parts)?;
            Ok(whole)
        }
        TemporalBinary::Triggered => {
            let whole = more(alloc, &parts)?;
            Ok(whole)
        }
        TemporalBinary::Then => Ok(parts),
    }
}

/// A temporal operator of a level on two formulas, the first of which has a level of its own.
pub(crate) fn over_binary(
    alloc: Global,
    measure: Measure,
    op: TemporalBinary,
    levels: Levels,
    first: Weight,
    second: Weight,
) -> Result<Weight, AllocError>
    ensures { IfOk result (λ w. (d : Depths) → weight_at d w
        ≡ over_binary measure op levels.row levels.first (weight_at d first)
        (weight_at d second)) }
{
    match measure {
        Measure::Past => {
            let parts = both(first, &second)?;
            let whole = past_binary(alloc, op, parts)?;
            Ok(whole)
        }
        Measure::Depth => {
            let whole = deep_row(alloc, levels.row, levels.first, first, second)?;
            Ok(whole)
        }
    }
}

/// The levels of an operator and of its first operand.
#[derive(Clone, Copy, Debug, PartialEq, Eq, Drop)]
pub(crate) struct Levels {
    pub row: u32,
    pub first: u32,
}

/// A `let`, over what its value and its body measure. The value counts as a part where every part does.
pub(crate) fn over_let(
    alloc: Global,
    measure: Measure,
    value: Weight,
    inner: Weight,
) -> Result<Weight, AllocError>
    ensures { IfOk result (λ w. (d : Depths) → weight_at d w
        ≡ over_let measure (weight_at d value) (weight_at d inner)) }
{
    match measure {
        Measure::Past => Ok(inner),
        Measure::Depth => {
            let whole = over_two(alloc, Measure::Depth, value, inner)?;
            Ok(whole)
        }
    }
}
