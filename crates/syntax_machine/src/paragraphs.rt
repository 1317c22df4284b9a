//! The paragraphs of a module, by the token that comes next.

ghost use Rattle.std.specs.Prelude.{◌≡◌, [], ◌∷◌, IfOk, not};
ghost use Rattle.syntax_tree.specs.declared.token.Word.TheVariants.{Fun, Sig};
ghost use Rattle.syntax_machine.specs.Machine as machine;
ghost use Rattle.syntax_machine.specs.Modules as modules;
ghost use Rattle.syntax_machine.specs.declared.thread.Piece.TheVariants as piece;
ghost use Rattle.syntax_machine.specs.declared.thread.Item.TheVariants.{Part};

use crate::goals::{a_block, whole};
use crate::template::{Threads, on_item, single, when};
use crate::thread::{Expected, Item, Optional, Piece, Qualified};
use crate::tokens::is_end;
use base_lists::Items;
use std::alloc::{AllocError, Global};
use syntax_tree::{TokenKind, Word};

/// A command.
fn command(alloc: Global, word: Word, room: Option<u32>) -> Result<Threads, AllocError>
    ensures { IfOk result (λ ts. ts ≡ modules.command word room) }
{
    match word {
        Word::Run | Word::Check => {
            let subject = Item::Part(Piece::Subject(room));
            let scope = Item::May(Optional::Scope);
            let expect = Item::May(Optional::Expect);
            let threads = single(alloc, &[subject, scope, expect])?;
            Ok(threads)
        }
        _ => Ok(Items::new(alloc)),
    }
}

/// The own name of a predicate or function, maybe behind that of a receiver, and the rest.
fn with_receiver(alloc: Global, rest: &[Item]) -> Result<Threads, AllocError>
    ensures { IfOk result (λ ts. ts ≡ modules.with_receiver rest.now) }
{
    let name = Item::Token(Expected::Name);
    let receiver = Item::Part(Piece::SigName);
    let dot = Item::Token(Expected::Dot);
    let mut own = Items::from_slice(alloc, &[name])?;
    own.append(Items::from_slice(alloc, rest)?)?;
    let mut received = Items::from_slice(alloc, &[receiver, dot, name])?;
    received.append(Items::from_slice(alloc, rest)?)?;
    let mut threads = Items::new(alloc);
    threads.push(own)?;
    threads.push(received)?;
    Ok(threads)
}

/// A function, behind its word.
fn function(alloc: Global, room: Option<u32>) -> Result<Threads, AllocError>
    ensures { IfOk result (λ ts. ts ≡ modules.callable Fun room) }
{
    let parameters = Item::May(Optional::Parameters(room));
    let colon = Item::Token(Expected::Colon);
    let bound = Item::Part(Piece::Bound(room));
    let open = Item::Token(Expected::OpenBrace);
    let need = Item::Need(whole(room));
    let close = Item::Token(Expected::CloseBrace);
    let threads = with_receiver(alloc, &[parameters, colon, bound, open, need, close])?;
    Ok(threads)
}

/// A predicate or a function.
fn callable(alloc: Global, word: Word, room: Option<u32>) -> Result<Threads, AllocError>
    ensures { IfOk result (λ ts. ts ≡ modules.callable word room) }
{
    match word {
        Word::Pred => {
            let parameters = Item::May(Optional::Parameters(room));
            let need = Item::Need(a_block(room));
            let threads = with_receiver(alloc, &[parameters, need])?;
            Ok(threads)
        }
        Word::Fun => {
            let threads = function(alloc, room)?;
            Ok(threads)
        }
        _ => Ok(Items::new(alloc)),
    }
}

/// What follows the word `sig`.
fn named_sig(alloc: Global, room: Option<u32>) -> Result<Threads, AllocError>
    ensures { IfOk result (λ ts. ts ≡ modules.sig Sig modules.unqualified room) }
{
    let names = Item::Part(Piece::SigNames);
    let parents = Item::May(Optional::Parents);
    let open = Item::Token(Expected::OpenBrace);
    let fields = Item::Part(Piece::Fields(room));
    let block = Item::May(Optional::Block(room));
    let threads = single(alloc, &[names, parents, open, fields, block])?;
    Ok(threads)
}

/// A further qualifier of a sig, where it may be.
fn qualifier(
    alloc: Global,
    stands: bool,
    qualified: Qualified,
    room: Option<u32>,
) -> Result<Threads, AllocError>
    ensures { IfOk result (λ ts. ts ≡ machine.when (not stands)
        (Part (piece.Sig qualified room) ∷ [])) }
{
    let threads = when(alloc, !stands, &[Item::Part(Piece::Sig(qualified, room))])?;
    Ok(threads)
}

/// A sig behind these qualifiers.
fn sig(
    alloc: Global,
    word: Word,
    qualified: Qualified,
    room: Option<u32>,
) -> Result<Threads, AllocError>
    ensures { IfOk result (λ ts. ts ≡ modules.sig word qualified room) }
{
    match word {
        Word::Sig => Ok(named_sig(alloc, room)?),
        Word::Private => {
            let next = Qualified {
                is_private: true,
                ..qualified
            };
            Ok(qualifier(alloc, qualified.is_private, next, room)?)
        }
        Word::Var => {
            let next = Qualified {
                is_var: true,
                ..qualified
            };
            Ok(qualifier(alloc, qualified.is_var, next, room)?)
        }
        Word::Abstract => {
            let next = Qualified {
                is_abstract: true,
                ..qualified
            };
            Ok(qualifier(alloc, qualified.is_abstract, next, room)?)
        }
        Word::Lone | Word::One | Word::Some => {
            let next = Qualified {
                has_word: true,
                ..qualified
            };
            Ok(qualifier(alloc, qualified.has_word, next, room)?)
        }
        _ => Ok(Items::new(alloc)),
    }
}

/// A fact, an assertion, an enum or what is private.
fn claim(alloc: Global, word: Word, room: Option<u32>) -> Result<Threads, AllocError>
    ensures { IfOk result (λ ts. ts ≡ modules.claim word room) }
{
    match word {
        Word::Fact | Word::Assert => {
            let threads = single(alloc, &[Item::Part(Piece::Title(room))])?;
            Ok(threads)
        }
        Word::Enum => {
            let name = Item::Token(Expected::Name);
            let open = Item::Token(Expected::OpenBrace);
            let threads = single(alloc, &[name, open, Item::Part(Piece::Member)])?;
            Ok(threads)
        }
        Word::Private => {
            let threads = single(alloc, &[Item::Part(Piece::Callable(room))])?;
            Ok(threads)
        }
        _ => Ok(Items::new(alloc)),
    }
}

/// No qualifier.
fn unqualified() -> Qualified
    ensures { result ≡ modules.unqualified }
{
    Qualified {
        is_private: false,
        is_var: false,
        is_abstract: false,
        has_word: false,
    }
}

/// A paragraph that begins with a reserved word.
fn paragraph_word(alloc: Global, word: Word, room: Option<u32>) -> Result<Threads, AllocError>
    ensures { IfOk result (λ ts. ts ≡ modules.paragraph_word word room) }
{
    let mut callables = callable(alloc, word, room)?;
    callables.append(sig(alloc, word, unqualified(), room)?)?;
    let mut commands = command(alloc, word, room)?;
    commands.append(callables)?;
    let mut threads = claim(alloc, word, room)?;
    threads.append(commands)?;
    Ok(threads)
}

/// A paragraph.
fn paragraph(alloc: Global, token: &TokenKind, room: Option<u32>) -> Result<Threads, AllocError>
    ensures { IfOk result (λ ts. ts ≡ modules.paragraph token.now room) }
{
    match token {
        TokenKind::Name(_) => {
            let colon = Item::Token(Expected::Colon);
            let keyword = Item::Part(Piece::Keyword(room));
            Ok(single(alloc, &[colon, keyword])?)
        }
        TokenKind::Word(word) => Ok(paragraph_word(alloc, *word, room)?),
        _ => Ok(Items::new(alloc)),
    }
}

/// The paragraphs that are left, and the end.
pub fn paragraphs(
    alloc: Global,
    token: &TokenKind,
    room: Option<u32>,
) -> Result<Threads, AllocError>
    ensures { IfOk result (λ ts. ts ≡ modules.parts token.now (piece.Paragraphs room)) }
{
    let begun = paragraph(alloc, token, room)?;
    let more = Item::Part(Piece::Paragraphs(room));
    let mut threads = on_item(alloc, begun.as_slice(), more)?;
    threads.append(when(alloc, is_end(token), &[])?)?;
    Ok(threads)
}

/// A command.
pub fn keyword(alloc: Global, token: &TokenKind, room: Option<u32>) -> Result<Threads, AllocError>
    ensures { IfOk result (λ ts. ts ≡ modules.parts token.now (piece.Keyword room)) }
{
    match token {
        TokenKind::Word(word) => Ok(command(alloc, *word, room)?),
        _ => Ok(Items::new(alloc)),
    }
}

/// A predicate or a function.
pub fn callable_at(
    alloc: Global,
    token: &TokenKind,
    room: Option<u32>,
) -> Result<Threads, AllocError>
    ensures { IfOk result (λ ts. ts ≡ modules.parts token.now (piece.Callable room)) }
{
    match token {
        TokenKind::Word(word) => Ok(callable(alloc, *word, room)?),
        _ => Ok(Items::new(alloc)),
    }
}

/// A sig behind these qualifiers.
pub fn sig_at(
    alloc: Global,
    token: &TokenKind,
    qualified: Qualified,
    room: Option<u32>,
) -> Result<Threads, AllocError>
    ensures { IfOk result (λ ts. ts ≡ modules.parts token.now (piece.Sig qualified room)) }
{
    match token {
        TokenKind::Word(word) => Ok(sig(alloc, *word, qualified, room)?),
        _ => Ok(Items::new(alloc)),
    }
}
