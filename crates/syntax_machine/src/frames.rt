//! What goes on behind an expression, by the frame that it stands in.

ghost use Rattle.std.specs.Prelude.{◌≡◌, ◌&&◌, IfOk, max, Option};
ghost use Rattle.syntax_machine.specs.Machine as machine;
ghost use Rattle.syntax_machine.specs.declared.thread.Frame.TheVariants as frame;

use crate::goals::{deeper, have, operand};
use crate::states::{items, next_argument, next_binding, wanted};
use crate::template::{Threads, when};
use crate::thread::{Declared, Frame, Goal, Item, Mark, State};
use crate::tokens::{closes_brace, closes_parenthesis, is_else};
use base_lists::Items;
use std::alloc::{AllocError, Global};
use syntax_tree::TokenKind;

/// What variables are declared for, behind a bound of this depth.
fn with_bound(declared: Declared, bound: u32) -> Declared
    ensures { result ≡ machine.with_bound declared bound }
{
    match declared {
        Declared::Quantified(goal, is_sum, depth) => {
            Declared::Quantified(goal, is_sum, depth.max(deeper(bound)))
        }
        Declared::Comprehension(goal, depth) => {
            Declared::Comprehension(goal, depth.max(deeper(bound)))
        }
        Declared::Parameters(room, closing) => Declared::Parameters(room, closing),
    }
}

/// An `else` behind a consequence.
fn alternative(
    alloc: Global,
    token: &TokenKind,
    goal: Goal,
    so_far: u32,
    mark: Mark,
    depth: u32,
) -> Result<Threads, AllocError>
    ensures { IfOk result (λ ts. ts ≡ machine.shift token.now (frame.Consequence goal so_far) mark
        depth) }
{
    let need = Item::Need(operand(goal, 4));
    let then = Item::Then(Frame::Last(goal, 4, so_far.max(deeper(depth))));
    let may = is_else(token) && (4 <= mark.level && (!mark.is_open && !mark.is_bare));
    let threads = when(alloc, may, &[need, then])?;
    Ok(threads)
}

/// What goes on in a frame with a token, behind an expression that was read.
pub fn shift(
    alloc: Global,
    token: &TokenKind,
    frame: Frame,
    mark: Mark,
    depth: u32,
) -> Result<Threads, AllocError>
    ensures { IfOk result (λ ts. ts ≡ machine.shift token.now frame mark depth) }
{
    match frame {
        Frame::Parenthesis(goal) => {
            let have = have(goal, deeper(depth));
            Ok(when(alloc, closes_parenthesis(token), &[have])?)
        }
        Frame::Last(_, _, _) => Ok(Items::new(alloc)),
        Frame::Consequence(goal, so_far) => {
            Ok(alternative(alloc, token, goal, so_far, mark, depth)?)
        }
        Frame::Item(goal, so_far) => {
            let so_far = so_far.max(deeper(depth));
            Ok(items(alloc, token, goal, so_far, false)?)
        }
        Frame::Argument(goal, so_far) => {
            let so_far = so_far.max(deeper(depth));
            Ok(next_argument(alloc, token, goal, so_far)?)
        }
        Frame::Bound(declared) => {
            let declared = with_bound(declared, depth);
            Ok(wanted(alloc, token, State::NextDecl(declared))?)
        }
        Frame::Value(goal, so_far) => {
            let so_far = so_far.max(deeper(depth));
            Ok(next_binding(alloc, token, goal, so_far)?)
        }
        Frame::Body(_, _, _) => Ok(Items::new(alloc)),
        Frame::Inside(goal, so_far) => {
            let have = have(goal, so_far.max(deeper(depth)));
            Ok(when(alloc, closes_brace(token), &[have])?)
        }
    }
}

/// The expression that is complete with the one that was read.
pub fn completed(frame: Frame, mark: Mark, depth: u32) -> Option<(Goal, Mark, u32)>
    ensures { result ≡ machine.completed frame mark depth }
{
    match frame {
        Frame::Last(goal, level, so_far) => {
            Some((goal, Mark { level, ..mark }, so_far.max(deeper(depth))))
        }
        Frame::Consequence(goal, so_far) => {
            let mark = Mark {
                level: 4,
                is_open: mark.is_open,
                is_bare: true,
            };
            Some((goal, mark, so_far.max(deeper(depth))))
        }
        Frame::Body(goal, has_bar, so_far) => {
            let mark = Mark {
                level: 0,
                is_open: has_bar,
                is_bare: has_bar && mark.is_bare,
            };
            Some((goal, mark, so_far.max(deeper(depth))))
        }
        _ => None,
    }
}
