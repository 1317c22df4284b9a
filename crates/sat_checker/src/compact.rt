//! Makes the array of literals anew from the clauses that stand.

ghost use Rattle.std.specs.Prelude.{◌≡◌, ◌+◌, ◌<◌, ◌^◌, true, length, IfOk};
ghost use Rattle.sat_checker.specs.Table.{joined, laid_from, span_from, total, size_of};
ghost use Rattle.sat_checker.specs.Table.{entries_of, AreWithin, AllWithin};

use crate::table::{PLACES, Span, literals_of};
use std::alloc::{AllocError, Global};
use std::collections::HashMap;

/// So many literals of no clause an array may have, however short it is.
const FEW: usize = 4096;

/// The literals of all clauses, one clause behind another, in a vector with room for so many.
fn gathered(
    alloc: Global,
    spans: &HashMap<u64, Span>,
    literals: &[i64],
    room: usize,
) -> Result<Vec<i64>, AllocError>
    requires { AreWithin (length literals.now) spans.now.entries }
    ensures all { IfOk result (λ all. all.items ≡ joined literals.now spans.now.entries) }
    ensures within { IfOk result (λ _. AllWithin (length literals.now) spans.now.entries) }
{
    let mut all = Vec::with_capacity(alloc, room)?;
    for (_id, span) in spans.iter() {
        all.extend_from_slice(literals_of(literals, *span))?;
    }
    Ok(all)
}

/// A span from a place on, as long as another.
#[inline]
fn moved(first: u32, span: Span) -> Span
    ensures { first + size_of span < 2 ^ 32 → result ≡ span_from first span }
{
    let size = span.end.saturating_sub(span.first);
    Span {
        first,
        end: first.wrapping_add(size),
    }
}

/// Lets the spans stand one behind another.
fn lay_out(spans: &mut HashMap<u64, Span>)
    requires { total spans.old.entries < 2 ^ 32 }
    ensures { spans.new.entries ≡ laid_from 0 spans.old.entries }
{
    let mut end = 0;
    spans.retain(
        move |_id: &u64, span: &mut Span| -> bool
            ensures kept { result ≡ true }
            ensures next { end.entry + size_of span.old < 2 ^ 32 →
                (span.new ≡ span_from end.entry span.old)
                × (end.exit ≡ end.entry + size_of span.old) }
        {
            *span = moved(end, *span);
            end = span.end;
            true
        },
    );
}

/// Makes the array anew where more than half of it is of no clause, unless memory is wanting. It
/// takes how many literals are of no clause, and says how many are then.
pub(crate) fn compact(
    spans: &mut HashMap<u64, Span>,
    literals: &mut Vec<i64>,
    unused: usize,
) -> usize
    requires { AreWithin (length literals.old.items) spans.old.entries }
    ensures same { entries_of literals.new.items spans.new.entries
        ≡ entries_of literals.old.items spans.old.entries }
    ensures within { AreWithin (length literals.new.items) spans.new.entries }
{
    let count = literals.len();
    if unused <= FEW || unused <= count / 2 {
        return unused;
    }
    let alloc = *literals.allocator();
    let room = count.saturating_sub(unused);
    let Ok(all) = gathered(alloc, spans, literals.as_slice(), room) else {
        return unused;
    };
    if all.len() > PLACES {
        return unused;
    }
    lay_out(spans);
    *literals = all;
    0
}
