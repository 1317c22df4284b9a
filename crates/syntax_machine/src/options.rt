//! What may come next in a module or not, by the token that comes next.

ghost use Rattle.std.specs.Prelude.{◌≡◌, IfOk};
ghost use Rattle.syntax_machine.specs.Modules as modules;
ghost use Rattle.syntax_machine.specs.declared.thread.Optional.TheVariants as optional;

use crate::begin::begin;
use crate::goals::a_block;
use crate::template::{Threads, when};
use crate::thread::{Expected, Item, Optional, Piece, State};
use crate::tokens::{
    is_as, is_comma, is_expect, is_extends, is_for, is_in, is_module, is_open, is_plus, is_private,
    opens_bracket, opens_parenthesis,
};
use std::alloc::{AllocError, Global};
use syntax_tree::TokenKind;

/// The header of a module.
fn header(alloc: Global, token: &TokenKind) -> Result<Threads, AllocError>
    ensures { IfOk result (λ ts. ts ≡ modules.options token.now optional.Header) }
{
    let path = Item::Want(State::Path);
    let parameters = Item::May(Optional::HeaderParameters);
    let threads = when(alloc, is_module(token), &[path, parameters])?;
    Ok(threads)
}

/// The opens of a module.
fn opens(alloc: Global, token: &TokenKind) -> Result<Threads, AllocError>
    ensures { IfOk result (λ ts. ts ≡ modules.options token.now optional.Opens) }
{
    let word = Item::Token(Expected::Open);
    let path = Item::Want(State::Path);
    let arguments = Item::May(Optional::Arguments);
    let alias = Item::May(Optional::Alias);
    let more = Item::May(Optional::Opens);
    let private = is_private(token);
    let mut threads = when(alloc, private, &[word, path, arguments, alias, more])?;
    threads.append(when(alloc, is_open(token), &[path, arguments, alias, more])?)?;
    Ok(threads)
}

/// The arguments of an `open`.
fn arguments(alloc: Global, token: &TokenKind) -> Result<Threads, AllocError>
    ensures { IfOk result (λ ts. ts ≡ modules.options token.now optional.Arguments) }
{
    let name = Item::Part(Piece::SigName);
    let next = Item::Part(Piece::NextSigName);
    let threads = when(alloc, opens_bracket(token), &[name, next])?;
    Ok(threads)
}

/// The parents of a sig.
fn parents(alloc: Global, token: &TokenKind) -> Result<Threads, AllocError>
    ensures { IfOk result (λ ts. ts ≡ modules.options token.now optional.Parents) }
{
    let name = Item::Part(Piece::SigName);
    let more = Item::May(Optional::MoreParents);
    let mut threads = when(alloc, is_extends(token), &[name])?;
    threads.append(when(alloc, is_in(token), &[name, more])?)?;
    Ok(threads)
}

/// Further parents of a sig.
fn more_parents(alloc: Global, token: &TokenKind) -> Result<Threads, AllocError>
    ensures { IfOk result (λ ts. ts ≡ modules.options token.now optional.MoreParents) }
{
    let name = Item::Part(Piece::SigName);
    let more = Item::May(Optional::MoreParents);
    let threads = when(alloc, is_plus(token), &[name, more])?;
    Ok(threads)
}

/// The parameters of a predicate or function.
fn parameters(alloc: Global, token: &TokenKind, room: Option<u32>) -> Result<Threads, AllocError>
    ensures { IfOk result (λ ts. ts ≡ modules.options token.now (optional.Parameters room)) }
{
    let square = Item::Part(Piece::Square(room));
    let round = Item::Part(Piece::Round(room));
    let mut threads = when(alloc, opens_bracket(token), &[square])?;
    threads.append(when(alloc, opens_parenthesis(token), &[round])?)?;
    Ok(threads)
}

/// The continuations of what may come next or not.
pub fn options(alloc: Global, token: &TokenKind, option: Optional) -> Result<Threads, AllocError>
    ensures { IfOk result (λ ts. ts ≡ modules.options token.now option) }
{
    match option {
        Optional::Header => Ok(header(alloc, token)?),
        Optional::HeaderParameters => {
            let parameter = Item::Part(Piece::Parameter);
            Ok(when(alloc, opens_bracket(token), &[parameter])?)
        }
        Optional::Opens => Ok(opens(alloc, token)?),
        Optional::Arguments => Ok(arguments(alloc, token)?),
        Optional::Alias => {
            let name = Item::Token(Expected::Name);
            Ok(when(alloc, is_as(token), &[name])?)
        }
        Optional::Parents => Ok(parents(alloc, token)?),
        Optional::MoreParents => Ok(more_parents(alloc, token)?),
        Optional::Block(room) => Ok(begin(alloc, token, a_block(room))?),
        Optional::Parameters(room) => Ok(parameters(alloc, token, room)?),
        Optional::Scope => {
            let scope = Item::Part(Piece::Scope);
            Ok(when(alloc, is_for(token), &[scope])?)
        }
        Optional::Expect => {
            let number = Item::Token(Expected::Number);
            Ok(when(alloc, is_expect(token), &[number])?)
        }
        Optional::Entries => {
            let entry = Item::Part(Piece::Entry);
            Ok(when(alloc, is_comma(token), &[entry])?)
        }
    }
}
