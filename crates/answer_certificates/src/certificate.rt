//! The text of a search that certifies its answer, and the check of a lasso that was found.

ghost use Rattle.std.specs.Prelude.{◌≡◌, IfOk};
ghost use Rattle.answer_analysis.specs.Found.{IsTraceOf};
ghost use Rattle.answer_analysis.specs.declared.ready.Prepared.{Prepared as PreparedOf};
ghost use Rattle.bound_uppers.specs.Table.{IsLaidOut};
ghost use Rattle.answer_search.specs.Found.{Spends};
ghost use Rattle.answer_trace.specs.Text.{trace_text};
ghost use Rattle.answer_laws.specs.Form.{IsLassoOf};
ghost use Rattle.answer_texts.specs.Certified.{trace_part};
ghost use Rattle.answer_texts.specs.Table.{IsTableOf};
ghost use Rattle.answer_certificates.specs.Certificate.{IsShort, ShowsTrace, IsSpentText};

use answer_analysis::{Prepared, Ready, is_trace, table};
use answer_search::Proof;
use answer_texts::{trace_part, unknown_text};
use answer_trace::{Labels, print_trace};
use base_types::Bytes;
use cli_words::Part;
use core_meaning::Lasso;
use std::alloc::{AllocError, Global};

/// The text of what a search comes to.
#[derive(Drop)]
pub enum Certificate {
    /// There is a trace.
    Trace(Bytes),
    /// There is none.
    Refuted(Bytes),
    /// The budget is spent.
    Unknown(Bytes),
}

/// The part that is asked for of a trace of a prepared model, which has these labels.
pub fn trace_shown(
    alloc: Global,
    labels: &Labels,
    lasso: &Lasso,
    part: Part,
) -> Result<Bytes, AllocError>
    ensures { (prepared : PreparedOf) → labels.now ≡ prepared.ready.labels →
        IsTraceOf prepared.ready lasso.now → IsLassoOf prepared.ready.labels lasso.now →
        IsShort prepared lasso.now → IfOk result (ShowsTrace prepared part) }
{
    let shown = lasso_part(alloc, labels, lasso, part)?;
    Ok(shown)
}

/// The part that is asked for of the text of this lasso.
pub(crate) fn lasso_part(
    alloc: Global,
    labels: &Labels,
    lasso: &Lasso,
    part: Part,
) -> Result<Bytes, AllocError>
    ensures { IfOk result (λ text. text ≡ trace_part part (trace_text labels.now lasso.now)) }
{
    let trace = print_trace(alloc, labels, lasso)?;
    let text = trace_part(alloc, part, trace);
    let shown = Bytes::from_vec(text);
    Ok(shown)
}

/// The text of a budget that is spent.
pub(crate) fn spent_shown(
    alloc: Global,
    ready: &Ready,
    proof: &Proof,
    budget: Option<u64>,
) -> Result<Bytes, AllocError>
    requires spends { Spends budget proof.now }
    requires laid { IsLaidOut ready.now.bounds proof.now.layout }
    ensures { IfOk result (IsSpentText (IsTableOf ready.now.labels ready.now.bounds) proof.now.cnf
        budget) }
{
    let Some(conflicts) = budget else {
        unreachable!();
    };
    let rows = table(alloc, &ready.labels, &ready.bounds, &proof.layout)?;
    let text = unknown_text(alloc, conflicts, &rows, &proof.cnf, &proof.lines)?;
    let shown = Bytes::from_vec(text);
    Ok(shown)
}

/// Goes on where a lasso that a search has found is one of the prepared model's labels and satisfies the model and its command.
/// No search is known to find another; the answer to such a one would be that of want of memory.
pub(crate) fn test_trace(alloc: Global, ready: &Ready, lasso: &Lasso) -> Result<(), AllocError>
    ensures trace { IfOk result (λ r. IsTraceOf ready.now lasso.now) }
    ensures fits { IfOk result (λ r. IsLassoOf ready.now.labels lasso.now) }
{
    let holds = is_trace(alloc, ready, lasso)?;
    if holds { Ok(()) } else { Err(AllocError) }
}

/// The part that is asked for of a lasso that a search has found, where that is a trace of the prepared model.
pub(crate) fn found_shown(
    alloc: Global,
    prepared: &Prepared,
    lasso: &Lasso,
    part: Part,
) -> Result<Bytes, AllocError>
    requires { IsShort prepared.now lasso.now }
    ensures { IfOk result (ShowsTrace prepared.now part) }
{
    let holds = is_trace(alloc, &prepared.ready, lasso)?;
    if !holds {
        return Err(AllocError);
    }
    let text = trace_shown(alloc, &prepared.ready.labels, lasso, part)?;
    Ok(text)
}
