//! The first token at which a text can't go on.

ghost use Rattle.std.specs.Prelude.{◌≡◌, ◌<◌, ◌+◌, length, take, IfOk, IfSome};
ghost use Rattle.syntax_tree.specs.Spelling.{kinds};
ghost use Rattle.syntax_machine.specs.Deaths.{start_of, NoneBegins};
ghost use Rattle.syntax_machine.specs.Threads.{IsFirstDeath};

use crate::goals::{a_block, whole};
use crate::thread::{Item, Optional, Piece, Root};
use crate::walk::{death_from, left_behind};
use base_lists::Items;
use std::alloc::{AllocError, Global};
use syntax_tree::Token;

/// The thread of a whole text, before its first token.
fn start_of(alloc: Global, root: Root, room: Option<u32>) -> Result<Items<Item>, AllocError>
    ensures { IfOk result (λ t. t ≡ start_of root room) }
{
    match root {
        Root::Expr => Ok(Items::from_slice(alloc, &[Item::Need(whole(room))])?),
        Root::Bound => Ok(Items::from_slice(alloc, &[Item::Part(Piece::Bound(room))])?),
        Root::Block => Ok(Items::from_slice(alloc, &[Item::Need(a_block(room))])?),
        Root::Module => {
            let header = Item::May(Optional::Header);
            let opens = Item::May(Optional::Opens);
            let paragraphs = Item::Part(Piece::Paragraphs(room));
            Ok(Items::from_slice(alloc, &[header, opens, paragraphs])?)
        }
    }
}

/// The place of the first token behind which no thread is left, where there is one: no right text
/// of this kind begins with the tokens up to it. Its trees have this room, or any depth.
///
/// # Errors
/// The only one is want of memory.
pub fn first_death(
    alloc: Global,
    tokens: &[Token],
    root: Root,
    room: Option<u32>,
) -> Result<Option<usize>, AllocError>
    ensures first { IfOk result (IsFirstDeath (kinds tokens.now) (start_of root room)) }
    ensures within { IfOk result (λ o. IfSome o (λ n. n < length tokens.now)) }
    ensures refuses { IfOk result (λ o. IfSome o (λ n. NoneBegins root room
        (take (n + 1) (kinds tokens.now)))) }
{
    let start = start_of(alloc, root, room)?;
    let death = death_from(alloc, tokens, start.as_slice())?;
    Ok(death)
}

/// The items of the first thread that is left behind these tokens of a text, where there is one.
/// Its trees have this room, or any depth.
///
/// # Errors
/// The only one is want of memory.
pub fn thread_behind(
    alloc: Global,
    tokens: &[Token],
    root: Root,
    room: Option<u32>,
) -> Result<Items<Item>, AllocError> {
    let start = start_of(alloc, root, room)?;
    let items = left_behind(alloc, tokens, start.as_slice())?;
    Ok(items)
}
