//! The parts of a module, outside its expressions, by the token that comes next.

ghost use Rattle.std.specs.Prelude.{◌≡◌, ◌++◌, [], ◌∷◌, IfOk};
ghost use Rattle.syntax_machine.specs.Machine as machine;
ghost use Rattle.syntax_machine.specs.Modules as modules;
ghost use Rattle.syntax_machine.specs.declared.thread.Piece.TheVariants as piece;
ghost use Rattle.syntax_machine.specs.declared.thread.Item.TheVariants.{Want};
ghost use Rattle.syntax_machine.specs.declared.thread.State.TheVariants as state;
ghost use Rattle.syntax_machine.specs.declared.thread.Declared.TheVariants as declared;

use crate::begin::begin;
use crate::goals::{a_block, bound};
use crate::paragraphs::{callable_at, keyword, paragraphs, sig_at};
use crate::states::{path, variable};
use crate::template::{Threads, on_item, when};
use crate::thread::{Declared, Expected, Item, Optional, Piece, State};
use crate::tokens::{
    closes_brace, closes_bracket, closes_parenthesis, is_bits, is_comma, is_disj, is_exactly,
    is_field_word, is_int, is_multiplicity, is_name, is_number,
};
use std::alloc::{AllocError, Global};
use syntax_tree::{Bracket, TokenKind};

/// The name of a sig.
pub fn sig_name(alloc: Global, token: &TokenKind) -> Result<Threads, AllocError>
    ensures { IfOk result (λ ts. ts ≡ modules.sig_name token.now) }
{
    let mut threads = path(alloc, token)?;
    threads.append(when(alloc, is_int(token), &[])?)?;
    Ok(threads)
}

/// A bound.
fn bounded(alloc: Global, token: &TokenKind, room: Option<u32>) -> Result<Threads, AllocError>
    ensures { IfOk result (λ ts. ts ≡ modules.bounded token.now room) }
{
    let need = Item::Need(bound(room));
    let mut threads = when(alloc, is_multiplicity(token), &[need])?;
    threads.append(begin(alloc, token, bound(room))?)?;
    Ok(threads)
}

/// A name of a field, and what follows it.
fn field_name(alloc: Global, token: &TokenKind, room: Option<u32>) -> Result<Threads, AllocError>
    ensures { IfOk result (λ ts. ts ≡ modules.parts token.now (piece.FieldName room)) }
{
    let comma = Item::Token(Expected::Comma);
    let more = Item::Part(Piece::FieldName(room));
    let colon = Item::Token(Expected::Colon);
    let bound = Item::Part(Piece::FieldBound(room));
    let next = Item::Part(Piece::NextField(room));
    let mut threads = when(alloc, is_name(token), &[comma, more])?;
    threads.append(when(alloc, is_name(token), &[colon, bound, next])?)?;
    Ok(threads)
}

/// A field.
fn field(alloc: Global, token: &TokenKind, room: Option<u32>) -> Result<Threads, AllocError>
    ensures { IfOk result (λ ts. ts ≡ modules.field token.now room) }
{
    let again = Item::Part(Piece::Field(room));
    let mut threads = when(alloc, is_field_word(token), &[again])?;
    threads.append(field_name(alloc, token, room)?)?;
    Ok(threads)
}

/// The fields, or the end of them.
fn fields(alloc: Global, token: &TokenKind, room: Option<u32>) -> Result<Threads, AllocError>
    ensures { IfOk result (λ ts. ts ≡ modules.parts token.now (piece.Fields room)) }
{
    let mut threads = when(alloc, closes_brace(token), &[])?;
    threads.append(field(alloc, token, room)?)?;
    Ok(threads)
}

/// The bound of a field, maybe with `disj` before it.
fn field_bound(alloc: Global, token: &TokenKind, room: Option<u32>) -> Result<Threads, AllocError>
    ensures { IfOk result (λ ts. ts ≡ modules.parts token.now (piece.FieldBound room)) }
{
    let disjoint = Item::Part(Piece::Bound(room));
    let mut threads = when(alloc, is_disj(token), &[disjoint])?;
    threads.append(bounded(alloc, token, room)?)?;
    Ok(threads)
}

/// Behind a part of a list in braces.
fn next_part(alloc: Global, token: &TokenKind, next: Piece) -> Result<Threads, AllocError>
    ensures { IfOk result (λ ts. ts ≡ modules.next_part token.now next) }
{
    let end = Item::Token(Expected::CloseBrace);
    let mut more = when(alloc, is_comma(token), &[end])?;
    more.append(when(alloc, is_comma(token), &[Item::Part(next)])?)?;
    let mut threads = when(alloc, closes_brace(token), &[])?;
    threads.append(more)?;
    Ok(threads)
}

/// Parameters, or the end of them.
fn parameters(
    alloc: Global,
    token: &TokenKind,
    room: Option<u32>,
    closing: Bracket,
) -> Result<Threads, AllocError>
    ensures { IfOk result (λ ts. ts ≡ machine.when (machine.is_disj token.now)
        (Want (state.Variable (declared.Parameters room closing)) ∷ [])
        ++ machine.variable token.now (declared.Parameters room closing)) }
{
    let declared = Declared::Parameters(room, closing);
    let disjoint = Item::Want(State::Variable(declared));
    let mut threads = when(alloc, is_disj(token), &[disjoint])?;
    threads.append(variable(alloc, token, declared)?)?;
    Ok(threads)
}

/// What follows an argument of an `open`.
fn next_sig_name(alloc: Global, token: &TokenKind) -> Result<Threads, AllocError>
    ensures { IfOk result (λ ts. ts ≡ modules.parts token.now piece.NextSigName) }
{
    let name = Item::Part(Piece::SigName);
    let next = Item::Part(Piece::NextSigName);
    let mut threads = when(alloc, is_comma(token), &[name, next])?;
    threads.append(when(alloc, closes_bracket(token), &[])?)?;
    Ok(threads)
}

/// A parameter of a module.
fn parameter(alloc: Global, token: &TokenKind) -> Result<Threads, AllocError>
    ensures { IfOk result (λ ts. ts ≡ modules.parts token.now piece.Parameter) }
{
    let name = Item::Token(Expected::Name);
    let next = Item::Part(Piece::NextParameter);
    let mut threads = when(alloc, is_exactly(token), &[name, next])?;
    threads.append(when(alloc, is_name(token), &[next])?)?;
    Ok(threads)
}

/// What follows a parameter of a module.
fn next_parameter(alloc: Global, token: &TokenKind) -> Result<Threads, AllocError>
    ensures { IfOk result (λ ts. ts ≡ modules.parts token.now piece.NextParameter) }
{
    let parameter = Item::Part(Piece::Parameter);
    let mut threads = when(alloc, is_comma(token), &[parameter])?;
    threads.append(when(alloc, closes_bracket(token), &[])?)?;
    Ok(threads)
}

/// The names of sigs.
fn sig_names(alloc: Global, token: &TokenKind) -> Result<Threads, AllocError>
    ensures { IfOk result (λ ts. ts ≡ modules.parts token.now piece.SigNames) }
{
    let comma = Item::Token(Expected::Comma);
    let more = Item::Part(Piece::SigNames);
    let mut threads = when(alloc, is_name(token), &[])?;
    threads.append(when(alloc, is_name(token), &[comma, more])?)?;
    Ok(threads)
}

/// A block, maybe with a name before it.
fn title(alloc: Global, token: &TokenKind, room: Option<u32>) -> Result<Threads, AllocError>
    ensures { IfOk result (λ ts. ts ≡ modules.parts token.now (piece.Title room)) }
{
    let need = Item::Need(a_block(room));
    let mut threads = when(alloc, is_name(token), &[need])?;
    threads.append(begin(alloc, token, a_block(room))?)?;
    Ok(threads)
}

/// Parameters in square brackets, or the end of them.
fn square(alloc: Global, token: &TokenKind, room: Option<u32>) -> Result<Threads, AllocError>
    ensures { IfOk result (λ ts. ts ≡ modules.parts token.now (piece.Square room)) }
{
    let mut threads = when(alloc, closes_bracket(token), &[])?;
    threads.append(parameters(alloc, token, room, Bracket::Square)?)?;
    Ok(threads)
}

/// Parameters in round brackets, or the end of them.
fn round(alloc: Global, token: &TokenKind, room: Option<u32>) -> Result<Threads, AllocError>
    ensures { IfOk result (λ ts. ts ≡ modules.parts token.now (piece.Round room)) }
{
    let mut threads = when(alloc, closes_parenthesis(token), &[])?;
    threads.append(parameters(alloc, token, room, Bracket::Round)?)?;
    Ok(threads)
}

/// An entry of a scope.
fn entry(alloc: Global, token: &TokenKind) -> Result<Threads, AllocError>
    ensures { IfOk result (λ ts. ts ≡ modules.parts token.now piece.Entry) }
{
    let target = Item::Part(Piece::Target);
    let entries = Item::May(Optional::Entries);
    let number = Item::Token(Expected::Number);
    let mut threads = when(alloc, is_number(token), &[target, entries])?;
    threads.append(when(alloc, is_exactly(token), &[number, target, entries])?)?;
    Ok(threads)
}

/// A scope.
fn scope(alloc: Global, token: &TokenKind) -> Result<Threads, AllocError>
    ensures { IfOk result (λ ts. ts ≡ modules.parts token.now piece.Scope) }
{
    let but = Item::Token(Expected::But);
    let mut more = when(alloc, is_number(token), &[but, Item::Part(Piece::Entry)])?;
    more.append(entry(alloc, token)?)?;
    let mut threads = when(alloc, is_number(token), &[])?;
    threads.append(more)?;
    Ok(threads)
}

/// What an entry of a scope is for.
fn target(alloc: Global, token: &TokenKind) -> Result<Threads, AllocError>
    ensures { IfOk result (λ ts. ts ≡ modules.parts token.now piece.Target) }
{
    let mut threads = sig_name(alloc, token)?;
    threads.append(when(alloc, is_bits(token), &[])?)?;
    Ok(threads)
}

/// What a command is about: a block, or a name and maybe a block.
fn subject(alloc: Global, token: &TokenKind, room: Option<u32>) -> Result<Threads, AllocError>
    ensures { IfOk result (λ ts. ts ≡ modules.parts token.now (piece.Subject room)) }
{
    let mut threads = begin(alloc, token, a_block(room))?;
    let names = path(alloc, token)?;
    let block = Item::May(Optional::Block(room));
    threads.append(on_item(alloc, names.as_slice(), block)?)?;
    Ok(threads)
}

/// A member of an enum.
fn member(alloc: Global, token: &TokenKind) -> Result<Threads, AllocError>
    ensures { IfOk result (λ ts. ts ≡ modules.parts token.now piece.Member) }
{
    let threads = when(alloc, is_name(token), &[Item::Part(Piece::NextMember)])?;
    Ok(threads)
}

/// The continuations of a part of a module.
pub fn parts(alloc: Global, token: &TokenKind, piece: Piece) -> Result<Threads, AllocError>
    ensures { IfOk result (λ ts. ts ≡ modules.parts token.now piece) }
{
    match piece {
        Piece::SigName => Ok(sig_name(alloc, token)?),
        Piece::NextSigName => Ok(next_sig_name(alloc, token)?),
        Piece::Parameter => Ok(parameter(alloc, token)?),
        Piece::NextParameter => Ok(next_parameter(alloc, token)?),
        Piece::Paragraphs(room) => Ok(paragraphs(alloc, token, room)?),
        Piece::Keyword(room) => Ok(keyword(alloc, token, room)?),
        Piece::Callable(room) => Ok(callable_at(alloc, token, room)?),
        Piece::Sig(qualified, room) => Ok(sig_at(alloc, token, qualified, room)?),
        Piece::SigNames => Ok(sig_names(alloc, token)?),
        Piece::Fields(room) => Ok(fields(alloc, token, room)?),
        Piece::Field(room) => Ok(field(alloc, token, room)?),
        Piece::FieldName(room) => Ok(field_name(alloc, token, room)?),
        Piece::FieldBound(room) => Ok(field_bound(alloc, token, room)?),
        Piece::Bound(room) => Ok(bounded(alloc, token, room)?),
        Piece::NextField(room) => Ok(next_part(alloc, token, Piece::Field(room))?),
        Piece::Member => Ok(member(alloc, token)?),
        Piece::NextMember => Ok(next_part(alloc, token, Piece::Member)?),
        Piece::Title(room) => Ok(title(alloc, token, room)?),
        Piece::Square(room) => Ok(square(alloc, token, room)?),
        Piece::Round(room) => Ok(round(alloc, token, room)?),
        Piece::Scope => Ok(scope(alloc, token)?),
        Piece::Entry => Ok(entry(alloc, token)?),
        Piece::Target => Ok(target(alloc, token)?),
        Piece::Subject(room) => Ok(subject(alloc, token, room)?),
    }
}
