//! Whole texts that begin with some tokens.

ghost use Rattle.std.specs.Prelude.{IfOk};
ghost use Rattle.syntax_tree.specs.Spelling.{EndsWell};
ghost use Rattle.syntax_completion.specs.Longer.{IsLonger};

use crate::completion::completion;
use crate::copy::copied;
use crate::words::nowhere;
use base_lists::Items;
use std::alloc::{AllocError, Global};
use syntax_machine::Item;
use syntax_tree::{Token, TokenKind};

/// The tokens, and behind them others that complete the thread, and the end. Nothing is promised of
/// the others: whoever wants to know that a text goes on parses it with them.
///
/// # Errors
/// The only one is want of memory.
pub fn completed(
    alloc: Global,
    tokens: &[Token],
    thread: &[Item],
) -> Result<Items<Token>, AllocError>
    ensures ends { IfOk result (λ text. EndsWell text) }
    ensures longer { IfOk result (λ text. IsLonger tokens.now text) }
{
    let mut text = copied(alloc, tokens)?;
    let more = completion(alloc, thread)?;
    text.append(more)?;
    let kind = TokenKind::End;
    let place = nowhere();
    text.push(Token { kind, place })?;
    Ok(text)
}
