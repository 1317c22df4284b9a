//! Threads that share what lies below: each is an item on top of an earlier one.

ghost use Rattle.std.specs.Prelude.{◌≡◌, ◌<◌, ◌+◌, ◌++◌, [], ◌∷◌, length, IfOk, IfNone, IfSome, OnOk, Some};
ghost use Rattle.syntax_machine.specs.Machine as machine;
ghost use Rattle.syntax_machine.specs.Stacks.{stack_at, stacks_of, Stands, Adds};

use crate::template::Threads;
use crate::thread::{Item, Mark};
use base_lists::Items;
use std::alloc::{AllocError, Global};
use std::marker::Model;

/// An item on top of the thread of this number.
#[derive(Clone, Copy)]
pub struct Node {
    pub item: Item,
    pub below: usize,
}

/// What is left of a thread: its number, and the expression that was read, where there is one.
#[derive(Clone, Copy)]
pub struct Rest {
    pub read: Option<(Mark, u32)>,
    pub at: usize,
}

/// Threads by their numbers. Contracts see the list of them; the first is the empty one.
#[derive(Drop)]
pub struct Stacks {
    nodes: Vec<Node>,
}

impl Model for Stacks {
    ghost use Rattle.std.specs.Prelude.{List};
    ghost use Rattle.syntax_machine.specs.Machine.{Thread};
    ghost use Rattle.syntax_machine.specs.Stacks.{stacks_of};

    ghost Value = { List Thread };

    ghost view = { λ s. stacks_of s.nodes.items };
}

/// The top item of a thread, and what lies below.
#[tactic(auto, using(crate::proofs::Shared::is_first_empty))]
fn node_at(nodes: &[Node], at: usize) -> Option<Node>
    ensures none { IfNone result (stack_at (stacks_of nodes.now) at ≡ []) }
    ensures some { IfSome result (λ n. stack_at (stacks_of nodes.now) at
        ≡ n.item ∷ stack_at (stacks_of nodes.now) n.below) }
    ensures falls { IfSome result (λ n. n.below < at) }
{
    if at == 0 {
        return None;
    }
    let node = *nodes.get(at - 1)?;
    if node.below < at {
        return Some(node);
    }
    Some(Node {
        item: node.item,
        below: 0,
    })
}

impl Stacks {
    /// The empty thread alone.
    pub fn new(alloc: Global) -> Stacks
        ensures { result ≡ [] ∷ [] }
    {
        Stacks {
            nodes: Vec::new(alloc),
        }
    }

    /// How many threads there are beside the empty one.
    #[tactic(auto, using(crate::proofs::Shared::one_more_than))]
    pub fn len(&self) -> usize
        ensures { length self.now ≡ result + 1 }
    {
        self.nodes.len()
    }

    /// The top item of a thread, and the number of what lies below, unless it is empty.
    pub fn get(&self, at: usize) -> Option<Node>
        ensures none { IfNone result (stack_at self.now at ≡ []) }
        ensures some { IfSome result (λ n. stack_at self.now at
            ≡ n.item ∷ stack_at self.now n.below) }
        ensures falls { IfSome result (λ n. n.below < at) }
    {
        node_at(self.nodes.as_slice(), at)
    }

    /// Puts an item on top of a thread, and answers the number of the new one.
    #[tactic(auto, using(crate::proofs::Shared::push_top, crate::proofs::Shared::push_grows))]
    pub fn push(&mut self, item: Item, below: usize) -> Result<usize, AllocError>
        ensures top { IfOk result (λ top. top ≡ length self.old) }
        ensures new { OnOk result (self.new
            ≡ self.old ++ (item ∷ stack_at self.old below) ∷ []) }
    {
        self.nodes.push(Node { item, below })?;
        Ok(self.nodes.len())
    }
}

/// Puts items on top of a thread, and answers the number of the new one.
#[cycle(put)]
#[tactic(auto, using(crate::proofs::Shared::stands_still, crate::proofs::Shared::stands_on))]
fn put(stacks: &mut Stacks, items: &[Item], below: usize) -> Result<usize, AllocError>
    requires { below < length stacks.old }
    ensures { IfOk result (Stands stacks.old stacks.new
        (items.now ++ stack_at stacks.old below)) }
{
    match items {
        [] => Ok(below),
        [first, rest @ ..] => {
            let under = put(stacks, rest, below)?;
            let top = stacks.push(*first, under)?;
            Ok(top)
        }
    }
}

/// Adds the thread of this number, where it may be.
#[tactic(auto, using(crate::proofs::Shared::adds_not, crate::proofs::Shared::adds_may))]
pub fn add(
    stacks: &mut Stacks,
    tops: &mut Items<usize>,
    may: bool,
    at: usize,
) -> Result<(), AllocError>
    requires { at < length stacks.old }
    ensures { OnOk result (Adds stacks.old tops.old stacks.new tops.new
        (machine.when may (stack_at stacks.old at))) }
{
    let _ = stacks;
    if !may {
        return Ok(());
    }
    tops.push(at)?;
    Ok(())
}

/// Adds a thread on top of another.
#[tactic(auto, using(crate::proofs::Shared::adds_one))]
pub fn add_over(
    stacks: &mut Stacks,
    tops: &mut Items<usize>,
    items: &[Item],
    below: usize,
) -> Result<(), AllocError>
    requires { below < length stacks.old }
    ensures { OnOk result (Adds stacks.old tops.old stacks.new tops.new
        ((items.now ++ stack_at stacks.old below) ∷ [])) }
{
    let top = put(stacks, items, below)?;
    tops.push(top)?;
    Ok(())
}

/// Adds each of these threads, on top of another.
#[cycle(each_of)]
#[tactic(auto, using(crate::proofs::Shared::adds_none))]
fn each_of(
    stacks: &mut Stacks,
    tops: &mut Items<usize>,
    threads: &[Items<Item>],
    below: usize,
) -> Result<(), AllocError>
    requires { below < length stacks.old }
    ensures { OnOk result (Adds stacks.old tops.old stacks.new tops.new
        (machine.each threads.now (stack_at stacks.old below))) }
{
    match threads {
        [] => Ok(()),
        [first, rest @ ..] => {
            add_over(stacks, tops, first.as_slice(), below)?;
            each_of(stacks, tops, rest, below)?;
            Ok(())
        }
    }
}

/// Adds each of these threads, on top of another.
pub fn each(
    stacks: &mut Stacks,
    tops: &mut Items<usize>,
    threads: &Threads,
    below: usize,
) -> Result<(), AllocError>
    requires { below < length stacks.old }
    ensures { OnOk result (Adds stacks.old tops.old stacks.new tops.new
        (machine.each threads.now (stack_at stacks.old below))) }
{
    each_of(stacks, tops, threads.as_slice(), below)?;
    Ok(())
}
