//! Where a token leads: the threads that are left behind it.

ghost use Rattle.std.specs.Prelude.{◌≡◌, ◌<◌, ◌+◌, ◌++◌, ◌∷◌, length, IfOk, IfSome, OnOk, Option, None, Some};
ghost use Rattle.syntax_tree.specs.Spelling.{kinds};
ghost use Rattle.syntax_machine.specs.Machine as machine;
ghost use Rattle.syntax_machine.specs.Stacks.{stack_at, threads_at, AreWithin, Adds, AddsBefore, AddsWith, from_rest};
ghost use Rattle.syntax_machine.specs.Threads.{from_thread, from_each, IsFirstDeath};
ghost use Rattle.syntax_machine.specs.declared.thread.Item.TheVariants.{Have, Then};

use crate::begin::begin;
use crate::extend::extend;
use crate::frames::{completed, shift};
use crate::options::options;
use crate::pieces::parts;
use crate::renew::{FEW, items_of, tidy};
use crate::stacks::{Rest, Stacks, add, add_over, each};
use crate::states::wanted;
use crate::thread::{Frame, Goal, Item, Mark};
use crate::tokens::matches;
use base_lists::Items;
use std::alloc::{AllocError, Global};
use syntax_tree::{Token, TokenKind};

/// Adds where a token leads from an expression that was read, and answers what is left.
fn take_read(
    alloc: Global,
    stacks: &mut Stacks,
    tops: &mut Items<usize>,
    token: &TokenKind,
    goal: Goal,
    mark: Mark,
    depth: u32,
    below: usize,
) -> Result<Rest, AllocError>
    requires { below < length stacks.old }
    ensures adds { IfOk result (AddsBefore token.now stacks.old tops.old stacks.new tops.new
        (machine.each (machine.extend token.now goal mark depth) (stack_at stacks.old below)
        ++ from_thread token.now (Some (mark, depth)) (stack_at stacks.old below))) }
    ensures below { IfOk result (λ rest. rest.at ≡ below) }
{
    let longer = extend(alloc, token, goal, mark, depth)?;
    each(stacks, tops, &longer, below)?;
    Ok(Rest {
        read: Some((mark, depth)),
        at: below,
    })
}

/// Adds where a token goes on in a frame, behind the expression that was read.
fn take_shift(
    alloc: Global,
    stacks: &mut Stacks,
    tops: &mut Items<usize>,
    token: &TokenKind,
    mark: Mark,
    depth: u32,
    frame: Frame,
    below: usize,
) -> Result<(), AllocError>
    requires { below < length stacks.old }
    ensures { OnOk result (Adds stacks.old tops.old stacks.new tops.new
        (machine.each (machine.shift token.now frame mark depth) (stack_at stacks.old below))) }
{
    let next = shift(alloc, token, frame, mark, depth)?;
    each(stacks, tops, &next, below)?;
    Ok(())
}

/// Adds where a token leads from a frame, behind the expression that was read, and answers what is
/// left.
fn take_frame(
    alloc: Global,
    stacks: &mut Stacks,
    tops: &mut Items<usize>,
    token: &TokenKind,
    mark: Mark,
    depth: u32,
    frame: Frame,
    below: usize,
) -> Result<Option<Rest>, AllocError>
    requires { below < length stacks.old }
    ensures adds { IfOk result (AddsWith token.now stacks.old tops.old stacks.new tops.new
        (from_thread token.now (Some (mark, depth)) (Then frame ∷ stack_at stacks.old below))) }
    ensures below { IfOk result (λ o. IfSome o (λ rest. rest.at ≡ below)) }
{
    take_shift(alloc, stacks, tops, token, mark, depth, frame, below)?;
    match completed(frame, mark, depth) {
        None => Ok(None),
        Some((goal, mark, depth)) => {
            let rest = take_read(alloc, stacks, tops, token, goal, mark, depth, below)?;
            Ok(Some(rest))
        }
    }
}

/// Adds where a token leads from the top item of a thread, behind the expression that was read,
/// where there is one, and answers what is left.
fn take_item(
    alloc: Global,
    stacks: &mut Stacks,
    tops: &mut Items<usize>,
    token: &TokenKind,
    read: Option<(Mark, u32)>,
    item: Item,
    below: usize,
) -> Result<Option<Rest>, AllocError>
    requires { below < length stacks.old }
    ensures adds { IfOk result (AddsWith token.now stacks.old tops.old stacks.new tops.new
        (from_thread token.now read (item ∷ stack_at stacks.old below))) }
    ensures below { IfOk result (λ o. IfSome o (λ rest. rest.at ≡ below)) }
{
    match item {
        Item::Token(kind) => {
            add(stacks, tops, matches(kind, token), below)?;
            Ok(None)
        }
        Item::Need(goal) => {
            let next = begin(alloc, token, goal)?;
            each(stacks, tops, &next, below)?;
            Ok(None)
        }
        Item::Want(state) => {
            let next = wanted(alloc, token, state)?;
            each(stacks, tops, &next, below)?;
            Ok(None)
        }
        Item::Have(goal, mark, depth) => {
            let rest = take_read(alloc, stacks, tops, token, goal, mark, depth, below)?;
            Ok(Some(rest))
        }
        Item::Then(frame) => match read {
            None => Ok(None),
            Some((mark, depth)) => {
                let rest = take_frame(alloc, stacks, tops, token, mark, depth, frame, below)?;
                Ok(rest)
            }
        },
        Item::Part(piece) => {
            let next = parts(alloc, token, piece)?;
            each(stacks, tops, &next, below)?;
            Ok(None)
        }
        Item::May(optional) => {
            let next = options(alloc, token, optional)?;
            each(stacks, tops, &next, below)?;
            Ok(Some(Rest {
                read: None,
                at: below,
            }))
        }
    }
}

/// Adds where a token leads from the top item of what is left of a thread, and answers what is left
/// then, which is shorter.
fn take_rest(
    alloc: Global,
    stacks: &mut Stacks,
    tops: &mut Items<usize>,
    token: &TokenKind,
    rest: Rest,
) -> Result<Option<Rest>, AllocError>
    requires { rest.at < length stacks.old }
    ensures adds { IfOk result (AddsWith token.now stacks.old tops.old stacks.new tops.new
        (from_rest token.now stacks.old rest)) }
    ensures falls { IfOk result (λ o. IfSome o (λ next. next.at < rest.at)) }
    ensures within { IfOk result (λ o. IfSome o (λ next. next.at < length stacks.new)) }
{
    match stacks.get(rest.at) {
        None => Ok(None),
        Some(node) => {
            let next = take_item(alloc, stacks, tops, token, rest.read, node.item, node.below)?;
            Ok(next)
        }
    }
}

/// Adds where a token leads from a thread.
fn take_thread(
    alloc: Global,
    stacks: &mut Stacks,
    tops: &mut Items<usize>,
    token: &TokenKind,
    at: usize,
) -> Result<(), AllocError>
    requires { at < length stacks.old }
    ensures { OnOk result (Adds stacks.old tops.old stacks.new tops.new
        (from_thread token.now None (stack_at stacks.old at))) }
{
    let mut rest = Rest { read: None, at };
    'items: loop {
        let left = take_rest(alloc, stacks, tops, token, rest)?;
        match left {
            None => return Ok(()),
            Some(next) => rest = next,
        }
    }
}

/// Where a token leads from these threads.
fn take_token(
    alloc: Global,
    stacks: &mut Stacks,
    tops: &Items<usize>,
    token: &TokenKind,
) -> Result<Items<usize>, AllocError>
    requires { AreWithin stacks.old tops.now }
    ensures within { IfOk result (λ next. AreWithin stacks.new next) }
    ensures leads { IfOk result (λ next. threads_at stacks.new next
        ≡ from_each token.now (threads_at stacks.old tops.now)) }
{
    let mut next = Items::new(alloc);
    for place in 0..tops.len() {
        take_thread(alloc, stacks, &mut next, token, *tops.get(place))?;
    }
    Ok(next)
}

/// The same, and lays out anew what is left, where much isn't.
fn advance(
    alloc: Global,
    stacks: &mut Stacks,
    tops: &Items<usize>,
    token: &TokenKind,
    limit: &mut usize,
) -> Result<Items<usize>, AllocError>
    requires { AreWithin stacks.old tops.now }
    ensures within { IfOk result (λ next. AreWithin stacks.new next) }
    ensures leads { IfOk result (λ next. threads_at stacks.new next
        ≡ from_each token.now (threads_at stacks.old tops.now)) }
{
    let led = take_token(alloc, stacks, tops, token)?;
    let next = tidy(alloc, stacks, led, limit)?;
    Ok(next)
}

/// The place of the first token behind which no thread is left of this one, where there is one.
pub fn death_from(
    alloc: Global,
    tokens: &[Token],
    start: &[Item],
) -> Result<Option<usize>, AllocError>
    ensures first { IfOk result (IsFirstDeath (kinds tokens.now) start.now) }
    ensures within { IfOk result (λ o. IfSome o (λ n. n < length tokens.now)) }
{
    let mut stacks = Stacks::new(alloc);
    let mut tops = Items::new(alloc);
    let mut limit = FEW;
    add_over(&mut stacks, &mut tops, start, 0)?;
    for place in 0..tokens.len() {
        let token = &tokens[place];
        let next = advance(alloc, &mut stacks, &tops, &token.kind, &mut limit)?;
        if next.is_empty() {
            return Ok(Some(place));
        }
        tops = next;
    }
    Ok(None)
}

/// The items of the first thread that is left behind these tokens, where there is one.
pub fn left_behind(
    alloc: Global,
    tokens: &[Token],
    start: &[Item],
) -> Result<Items<Item>, AllocError> {
    let mut stacks = Stacks::new(alloc);
    let mut tops = Items::new(alloc);
    let mut limit = FEW;
    add_over(&mut stacks, &mut tops, start, 0)?;
    for token in tokens {
        let next = advance(alloc, &mut stacks, &tops, &token.kind, &mut limit)?;
        tops = next;
    }
    match tops.as_slice() {
        [] => Ok(Items::new(alloc)),
        [first, ..] => Ok(items_of(alloc, &stacks, *first)?),
    }
}
