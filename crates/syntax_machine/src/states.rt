//! The continuations of a state, by the token that comes next.

ghost use Rattle.std.specs.Prelude.{◌≡◌, [], ◌∷◌, IfOk, if◌then◌else◌};
ghost use Rattle.syntax_machine.specs.Machine as machine;
ghost use Rattle.syntax_machine.specs.declared.thread.Declared.TheVariants as declared;
ghost use Rattle.syntax_machine.specs.declared.thread.Frame.TheVariants as frame;
ghost use Rattle.syntax_machine.specs.declared.thread.Item.TheVariants.{Then};
ghost use Rattle.syntax_machine.specs.declared.thread.State.TheVariants as state;

use crate::begin::{begin, binding, block_before};
use crate::extend::compared;
use crate::goals::{body, bound, has_room, have, inner, item, leaf, whole};
use crate::template::{Threads, named, on_item, single, when};
use crate::thread::{Declared, Expected, Frame, Goal, Item, State};
use crate::tokens::{
    closes_brace, closes_bracket, closes_parenthesis, is_bar, is_comma, is_disj, is_multiplicity,
    is_name,
};
use base_lists::Items;
use std::alloc::{AllocError, Global};
use syntax_tree::{Bracket, Symbol, TokenKind, Word};

/// Behind a list of variables or a value: the body of a form.
fn bodied(
    alloc: Global,
    token: &TokenKind,
    goal: Goal,
    must_bar: bool,
    depth: u32,
) -> Result<Threads, AllocError>
    ensures { IfOk result (λ ts. ts ≡ machine.bodied token.now goal must_bar depth) }
{
    let need = Item::Need(body(goal));
    let then = Item::Then(Frame::Body(goal, true, depth));
    let mut threads = when(alloc, is_bar(token) && goal.has_bars, &[need, then])?;
    let block = Item::Then(Frame::Body(goal, false, depth));
    threads.append(block_before(alloc, token, must_bar, inner(goal.room), block)?)?;
    Ok(threads)
}

/// Behind a list of variables of a form.
fn next_of_form(
    alloc: Global,
    token: &TokenKind,
    goal: Goal,
    is_sum: bool,
    depth: u32,
) -> Result<Threads, AllocError>
    ensures { IfOk result (λ ts. ts ≡ machine.next_decl token.now
        (declared.Quantified goal is_sum depth)) }
{
    let declared = Declared::Quantified(goal, is_sum, depth);
    let more = Item::Want(State::Declare(declared));
    let mut threads = when(alloc, is_comma(token), &[more])?;
    threads.append(bodied(alloc, token, goal, is_sum, depth)?)?;
    Ok(threads)
}

/// Behind a list of variables of a comprehension.
fn next_inside(
    alloc: Global,
    token: &TokenKind,
    goal: Goal,
    depth: u32,
) -> Result<Threads, AllocError>
    ensures { IfOk result (λ ts. ts ≡ machine.next_decl token.now
        (declared.Comprehension goal depth)) }
{
    let more = Item::Want(State::Declare(Declared::Comprehension(goal, depth)));
    let need = Item::Need(whole(inner(goal.room)));
    let inside = Item::Then(Frame::Inside(goal, depth));
    let mut bodies = when(alloc, is_bar(token), &[need, inside])?;
    bodies.append(block_before(alloc, token, false, inner(goal.room), inside)?)?;
    let mut threads = when(alloc, is_comma(token), &[more])?;
    threads.append(bodies)?;
    Ok(threads)
}

/// Behind a list of parameters.
fn next_parameters(
    alloc: Global,
    token: &TokenKind,
    room: Option<u32>,
    closing: Bracket,
) -> Result<Threads, AllocError>
    ensures { IfOk result (λ ts. ts ≡ machine.next_decl token.now
        (declared.Parameters room closing)) }
{
    let more = Item::Want(State::Declare(Declared::Parameters(room, closing)));
    let mut threads = when(alloc, is_comma(token), &[more])?;
    match closing {
        Bracket::Square => {
            threads.append(when(alloc, closes_bracket(token), &[])?)?;
            Ok(threads)
        }
        Bracket::Round => {
            threads.append(when(alloc, closes_parenthesis(token), &[])?)?;
            Ok(threads)
        }
    }
}

/// Behind a list of variables.
fn next_decl(alloc: Global, token: &TokenKind, declared: Declared) -> Result<Threads, AllocError>
    ensures { IfOk result (λ ts. ts ≡ machine.next_decl token.now declared) }
{
    match declared {
        Declared::Quantified(goal, is_sum, depth) => {
            let threads = next_of_form(alloc, token, goal, is_sum, depth)?;
            Ok(threads)
        }
        Declared::Comprehension(goal, depth) => {
            let threads = next_inside(alloc, token, goal, depth)?;
            Ok(threads)
        }
        Declared::Parameters(room, closing) => {
            let threads = next_parameters(alloc, token, room, closing)?;
            Ok(threads)
        }
    }
}

/// The room of a bound.
fn room_of(declared: Declared) -> Option<u32>
    ensures { result ≡ machine.room_of declared }
{
    match declared {
        Declared::Quantified(goal, _, _) => inner(goal.room),
        Declared::Comprehension(goal, _) => inner(goal.room),
        Declared::Parameters(room, _) => room,
    }
}

/// A variable, and what follows it.
pub fn variable(alloc: Global, token: &TokenKind, declared: Declared) -> Result<Threads, AllocError>
    ensures { IfOk result (λ ts. ts ≡ machine.variable token.now declared) }
{
    if !is_name(token) {
        return Ok(Items::new(alloc));
    }
    let comma = Item::Token(Expected::Comma);
    let more = Item::Want(State::Variable(declared));
    let colon = Item::Token(Expected::Colon);
    let bound = Item::Want(State::Bound(declared));
    let mut threads = single(alloc, &[comma, more])?;
    threads.append(single(alloc, &[colon, bound])?)?;
    Ok(threads)
}

/// The same, maybe with `disj` before it.
fn declare(alloc: Global, token: &TokenKind, declared: Declared) -> Result<Threads, AllocError>
    ensures { IfOk result (λ ts. ts ≡ machine.wanted token.now (state.Declare declared)) }
{
    let disjoint = Item::Want(State::Variable(declared));
    let mut threads = when(alloc, is_disj(token), &[disjoint])?;
    threads.append(variable(alloc, token, declared)?)?;
    Ok(threads)
}

/// The bound of variables.
fn bound_of(alloc: Global, token: &TokenKind, declared: Declared) -> Result<Threads, AllocError>
    ensures { IfOk result (λ ts. ts ≡ machine.wanted token.now (state.Bound declared)) }
{
    let goal = bound(room_of(declared));
    let then = Item::Then(Frame::Bound(declared));
    let mut threads = when(alloc, is_multiplicity(token), &[Item::Need(goal), then])?;
    let plain = begin(alloc, token, goal)?;
    threads.append(on_item(alloc, plain.as_slice(), then)?)?;
    Ok(threads)
}

/// A path, maybe with `this/` before it.
pub fn path(alloc: Global, token: &TokenKind) -> Result<Threads, AllocError>
    ensures { IfOk result (λ ts. ts ≡ machine.path token.now) }
{
    match token {
        TokenKind::Name(_) => {
            let threads = named(alloc, &[])?;
            Ok(threads)
        }
        TokenKind::Word(word) => {
            let slash = Item::Token(Expected::Slash);
            let this = matches!(*word, Word::This);
            let threads = when(alloc, this, &[slash, Item::Want(State::Names)])?;
            Ok(threads)
        }
        _ => Ok(Items::new(alloc)),
    }
}

/// The rest of a path, behind a `/`.
fn names(alloc: Global, token: &TokenKind) -> Result<Threads, AllocError>
    ensures { IfOk result (λ ts. ts ≡ machine.wanted token.now state.Names) }
{
    if !is_name(token) {
        return Ok(Items::new(alloc));
    }
    let threads = named(alloc, &[])?;
    Ok(threads)
}

/// A comparator that is a symbol, behind a negation.
fn comparator_symbol(
    alloc: Global,
    symbol: Symbol,
    goal: Goal,
    depth: u32,
) -> Result<Threads, AllocError>
    ensures { IfOk result (λ ts. ts ≡ machine.comparator_symbol symbol goal depth) }
{
    match symbol {
        Symbol::Equal
        | Symbol::Less
        | Symbol::Greater
        | Symbol::EqualLess
        | Symbol::LessEqual
        | Symbol::GreaterEqual => Ok(compared(alloc, false, goal, depth)?),
        _ => Ok(Items::new(alloc)),
    }
}

/// A comparator that is a word, behind a negation.
fn comparator_word(alloc: Global, word: Word, goal: Goal, depth: u32) -> Result<Threads, AllocError>
    ensures { IfOk result (λ ts. ts ≡ machine.comparator_word word goal depth) }
{
    match word {
        Word::In => Ok(compared(alloc, true, goal, depth)?),
        _ => Ok(Items::new(alloc)),
    }
}

/// A comparator behind a negation.
fn negated(alloc: Global, token: &TokenKind, goal: Goal, depth: u32) -> Result<Threads, AllocError>
    ensures { IfOk result (λ ts. ts ≡ machine.negated token.now goal depth) }
{
    match token {
        TokenKind::Word(word) => Ok(comparator_word(alloc, *word, goal, depth)?),
        TokenKind::Symbol(symbol) => Ok(comparator_symbol(alloc, *symbol, goal, depth)?),
        _ => Ok(Items::new(alloc)),
    }
}

/// An item of a block, where there may be one.
fn item_of(
    alloc: Global,
    token: &TokenKind,
    goal: Goal,
    depth: u32,
    is_first: bool,
) -> Result<Threads, AllocError>
    ensures { IfOk result (λ ts. ts ≡ if machine.has_room goal.room 0 then machine.each
        (machine.begin token.now (machine.item is_first (machine.inner goal.room)))
        (Then (frame.Item goal depth) ∷ []) else []) }
{
    if !has_room(goal.room, 0) {
        return Ok(Items::new(alloc));
    }
    let begun = begin(alloc, token, item(is_first, inner(goal.room)))?;
    let threads = on_item(
        alloc,
        begun.as_slice(),
        Item::Then(Frame::Item(goal, depth)),
    )?;
    Ok(threads)
}

/// The items of a block that are left, or its end.
pub fn items(
    alloc: Global,
    token: &TokenKind,
    goal: Goal,
    depth: u32,
    is_first: bool,
) -> Result<Threads, AllocError>
    ensures { IfOk result (λ ts. ts ≡ machine.wanted token.now
        (state.Items goal depth is_first)) }
{
    let mut threads = when(alloc, closes_brace(token), &[have(goal, depth)])?;
    threads.append(item_of(alloc, token, goal, depth, is_first)?)?;
    Ok(threads)
}

/// The arguments of a box, or its end.
fn arguments(
    alloc: Global,
    token: &TokenKind,
    goal: Goal,
    depth: u32,
) -> Result<Threads, AllocError>
    ensures { IfOk result (λ ts. ts ≡ machine.wanted token.now (state.Arguments goal depth)) }
{
    let have = Item::Have(goal, leaf(16), depth);
    let mut threads = when(alloc, closes_bracket(token), &[have])?;
    let begun = begin(alloc, token, whole(inner(goal.room)))?;
    let then = Item::Then(Frame::Argument(goal, depth));
    threads.append(on_item(alloc, begun.as_slice(), then)?)?;
    Ok(threads)
}

/// What follows an argument.
pub fn next_argument(
    alloc: Global,
    token: &TokenKind,
    goal: Goal,
    depth: u32,
) -> Result<Threads, AllocError>
    ensures { IfOk result (λ ts. ts ≡ machine.wanted token.now
        (state.NextArgument goal depth)) }
{
    let have = Item::Have(goal, leaf(16), depth);
    let mut threads = when(alloc, closes_bracket(token), &[have])?;
    let need = Item::Need(whole(inner(goal.room)));
    let then = Item::Then(Frame::Argument(goal, depth));
    threads.append(when(alloc, is_comma(token), &[need, then])?)?;
    Ok(threads)
}

/// What follows a value of a `let`.
pub fn next_binding(
    alloc: Global,
    token: &TokenKind,
    goal: Goal,
    depth: u32,
) -> Result<Threads, AllocError>
    ensures { IfOk result (λ ts. ts ≡ machine.wanted token.now
        (state.NextBinding goal depth)) }
{
    let mut threads = binding(alloc, is_comma(token), goal, depth)?;
    threads.append(bodied(alloc, token, goal, false, depth)?)?;
    Ok(threads)
}

/// The continuations of a state.
pub fn wanted(alloc: Global, token: &TokenKind, state: State) -> Result<Threads, AllocError>
    ensures { IfOk result (λ ts. ts ≡ machine.wanted token.now state) }
{
    match state {
        State::Names => Ok(names(alloc, token)?),
        State::Path => Ok(path(alloc, token)?),
        State::Items(goal, depth, is_first) => Ok(items(alloc, token, goal, depth, is_first)?),
        State::Arguments(goal, depth) => Ok(arguments(alloc, token, goal, depth)?),
        State::NextArgument(goal, depth) => Ok(next_argument(alloc, token, goal, depth)?),
        State::Comparator(goal, depth) => Ok(negated(alloc, token, goal, depth)?),
        State::Declare(declared) => Ok(declare(alloc, token, declared)?),
        State::Variable(declared) => Ok(variable(alloc, token, declared)?),
        State::Bound(declared) => Ok(bound_of(alloc, token, declared)?),
        State::NextDecl(declared) => Ok(next_decl(alloc, token, declared)?),
        State::NextBinding(goal, depth) => Ok(next_binding(alloc, token, goal, depth)?),
    }
}
