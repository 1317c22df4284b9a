//! The marked lines of a list, each moved and none copied.

ghost use Rattle.std.specs.Prelude.{◌≡◌, ◌≤◌, ◌-◌, ◌++◌, IfOk, OnOk, length, reverse};
ghost use Rattle.sat_lemmas.specs.Kept.{is_marked, kept};

use sat_lrat::LineList;
use std::alloc::{AllocError, Global};

/// Takes the last line off a list, and puts it behind those of another where its place is marked.
fn take_last(left: &mut LineList, moved: &mut LineList, marks: &[bool]) -> Result<(), AllocError>
    requires { length left.old ≤ length marks.now }
    ensures fewer { length left.new ≡ length left.old - 1 }
    ensures kept { OnOk result (kept (is_marked marks.now) 0 left.new ++ reverse moved.new
        ≡ kept (is_marked marks.now) 0 left.old ++ reverse moved.old) }
{
    let Some(line) = left.pop() else {
        return Ok(());
    };
    if marks[left.len()] {
        moved.push(line)?;
    }
    Ok(())
}

/// The marked lines, in their order.
pub(crate) fn move_marked(
    alloc: Global,
    lines: LineList,
    marks: &[bool],
) -> Result<LineList, AllocError>
    requires { length lines ≤ length marks.now }
    ensures { IfOk result (λ rest. rest ≡ kept (is_marked marks.now) 0 lines) }
{
    let mut left = lines;
    let mut moved = LineList::new(alloc);
    let count = left.len();
    for _done in 0..count {
        take_last(&mut left, &mut moved, marks)?;
    }
    moved.reverse();
    Ok(moved)
}
