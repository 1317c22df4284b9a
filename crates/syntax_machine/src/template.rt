//! The threads to which a token leads, each without what lies below it.

ghost use Rattle.std.specs.Prelude.{◌≡◌, ◌++◌, [], ◌∷◌, IfOk};
ghost use Rattle.syntax_machine.specs.Machine as machine;

use crate::thread::{Expected, Item, State};
use base_lists::Items;
use std::alloc::{AllocError, Global};

/// Threads, each without what lies below it.
pub type Threads = Items<Items<Item>>;

/// The thread, where it may be.
pub fn when(alloc: Global, may: bool, thread: &[Item]) -> Result<Threads, AllocError>
    ensures { IfOk result (λ ts. ts ≡ machine.when may thread.now) }
{
    let mut threads = Items::new(alloc);
    if !may {
        return Ok(threads);
    }
    threads.push(Items::from_slice(alloc, thread)?)?;
    Ok(threads)
}

/// This thread alone.
pub fn single(alloc: Global, thread: &[Item]) -> Result<Threads, AllocError>
    ensures { IfOk result (λ ts. ts ≡ thread.now ∷ []) }
{
    let threads = when(alloc, true, thread)?;
    Ok(threads)
}

/// A thread on top of an item.
fn over(alloc: Global, thread: &Items<Item>, below: Item) -> Result<Items<Item>, AllocError>
    ensures { IfOk result (λ t. t ≡ thread.now ++ below ∷ []) }
{
    let mut whole = Items::from_slice(alloc, thread.as_slice())?;
    whole.push(below)?;
    Ok(whole)
}

/// A thread, and others behind it.
fn before(alloc: Global, head: Items<Item>, tail: Threads) -> Result<Threads, AllocError>
    ensures { IfOk result (λ ts. ts ≡ head ∷ tail) }
{
    let mut whole = Items::new(alloc);
    whole.push(head)?;
    whole.append(tail)?;
    Ok(whole)
}

/// Each of the threads, on top of an item.
#[cycle(on_item)]
pub fn on_item(alloc: Global, threads: &[Items<Item>], below: Item) -> Result<Threads, AllocError>
    ensures { IfOk result (λ ts. ts ≡ machine.each threads.now (below ∷ [])) }
{
    match threads {
        [] => Ok(Items::new(alloc)),
        [first, rest @ ..] => {
            let head = over(alloc, first, below)?;
            let tail = on_item(alloc, rest, below)?;
            let found = before(alloc, head, tail)?;
            Ok(found)
        }
    }
}

/// The names of a path so far, and what is behind the path.
pub fn named(alloc: Global, after: &[Item]) -> Result<Threads, AllocError>
    ensures { IfOk result (λ ts. ts ≡ machine.named after.now) }
{
    let slash = Item::Token(Expected::Slash);
    let mut longer = Items::from_slice(alloc, &[slash, Item::Want(State::Names)])?;
    longer.append(Items::from_slice(alloc, after)?)?;
    let mut threads = single(alloc, after)?;
    threads.push(longer)?;
    Ok(threads)
}
