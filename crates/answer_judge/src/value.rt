//! The answer on an expression: its tuples at a position of a trace.

ghost use Rattle.std.specs.Prelude.{◌≡◌, IfOk};
ghost use Rattle.core_tree.specs.Trees.{term_of};
ghost use Rattle.answer_trace.specs.Text.{trace_text};
ghost use Rattle.answer_laws.specs.Form.{HaveLassos, IsLassoOf};
ghost use Rattle.answer_judge.specs.Judged.{IsValue, value_text};

use crate::answer::TraceAnswer;
use crate::unread::not_read;
use answer_analysis::Ready;
use answer_laws::read_lassos_are_of_the_labels;
use answer_trace::{TextList, push_tuples, read_trace};
use base_types::Bytes;
use core_meaning::Lasso;
use core_tree::Expr;
use core_tuples::TupleSet;
use eval_trace::tuples;
use std::alloc::{AllocError, Global};

/// The tuples of an expression at a position of the sequence of the trace that a text spells: just those of its meaning, in
/// ascending order.
pub fn value_on_trace(
    alloc: Global,
    ready: &Ready,
    value: &Expr,
    position: u64,
    trace: &[u8],
) -> Result<TraceAnswer, AllocError>
    requires { HaveLassos ready.now.labels }
    ensures { IfOk result (λ answer. IsValue ready.now (term_of value.now) position trace.now
        answer) }
{
    read_lassos_are_of_the_labels();
    match read_trace(alloc, &ready.labels, trace) {
        Ok(lasso) => valued(alloc, ready, value, position, &lasso, trace),
        Err(fault) => {
            let answer = not_read(ready, trace, fault)?;
            Ok(answer)
        }
    }
}

/// The tuples of an expression at a position of the sequence of the lasso of which this is the text.
fn valued(
    alloc: Global,
    ready: &Ready,
    value: &Expr,
    position: u64,
    lasso: &Lasso,
    trace: &[u8],
) -> Result<TraceAnswer, AllocError>
    requires fits { IsLassoOf ready.now.labels lasso.now }
    requires spelled { trace_text ready.now.labels lasso.now ≡ trace.now }
    ensures { IfOk result (λ answer. IsValue ready.now (term_of value.now) position trace.now
        answer) }
{
    let set = tuples(alloc, &ready.model, &ready.scopes, lasso, value, position)?;
    // for the proof: this call's clause says that it is a set of tuples
    let _ = set.arity();
    let text = value_text(alloc, &ready.labels.atoms, &set)?;
    let shown = Bytes::from_vec(text);
    // for the proof: only the clauses name the text of the trace
    let _ = trace;
    Ok(TraceAnswer::Valued(shown))
}

/// The line that has the tuples of a set.
fn value_text(alloc: Global, atoms: &TextList, set: &TupleSet) -> Result<Vec<u8>, AllocError>
    ensures { IfOk result (λ text. text.items ≡ value_text atoms.now set.now.tuples) }
{
    let mut out = Vec::new(alloc);
    out.extend_from_slice(b"value =")?;
    push_tuples(&mut out, atoms, set.keyed())?;
    out.extend_from_slice(b"\n")?;
    Ok(out)
}
