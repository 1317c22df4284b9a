//! How an expression begins: the threads to which its first token leads.

ghost use Rattle.std.specs.Prelude.{◌≡◌, ◌&&◌, ◌||◌, not, [], ◌∷◌, IfOk, Option, if◌then◌else◌};
ghost use Rattle.syntax_tree.specs.Levels.{prefix_level, is_sum, is_multiplicity};
ghost use Rattle.syntax_tree.specs.declared.token.Symbol.TheVariants.{OpenBrace, OpenParenthesis};
ghost use Rattle.syntax_machine.specs.Machine as machine;
ghost use Rattle.syntax_machine.specs.declared.thread.Item.TheVariants.{Token, Want};
ghost use Rattle.syntax_machine.specs.declared.thread.Expected.TheVariants as expected;
ghost use Rattle.syntax_machine.specs.declared.thread.State.TheVariants as state;

use crate::goals::{a_block, has_room, have, inner, operand, value, whole};
use crate::template::{Threads, named, single, when};
use crate::thread::{Declared, Expected, Frame, Goal, Item, State};
use crate::tokens::{constant_of, opens_brace, prefix_symbol, prefix_word, quantifier_of};
use base_lists::Items;
use std::alloc::{AllocError, Global};
use syntax_tree::{Constant, Prefix, Quantifier, Symbol, TokenKind, Word};

/// The level of a prefix operator.
fn prefix_level(operator: Prefix) -> u8
    ensures { result ≡ prefix_level operator }
{
    match operator {
        Prefix::No | Prefix::Some | Prefix::Lone | Prefix::One => 9,
        Prefix::Count => 11,
        Prefix::Transpose | Prefix::Closure | Prefix::ReflexiveClosure => 17,
        _ => 7,
    }
}

/// An operator before its operand.
fn begin_prefix(alloc: Global, operator: Option<Prefix>, goal: Goal) -> Result<Threads, AllocError>
    ensures { IfOk result (λ ts. ts ≡ machine.begin_prefix operator goal) }
{
    match operator {
        None => Ok(Items::new(alloc)),
        Some(operator) => {
            let level = prefix_level(operator);
            let room = has_room(goal.room, 0);
            let need = Item::Need(operand(goal, level));
            let last = Item::Then(Frame::Last(goal, level, 0));
            let threads = when(alloc, goal.least <= level && room, &[need, last])?;
            Ok(threads)
        }
    }
}

/// A constant.
fn begin_constant(
    alloc: Global,
    constant: Option<Constant>,
    goal: Goal,
) -> Result<Threads, AllocError>
    ensures { IfOk result (λ ts. ts ≡ machine.begin_constant constant goal) }
{
    match constant {
        None => Ok(Items::new(alloc)),
        Some(_) => {
            let threads = single(alloc, &[have(goal, 0)])?;
            Ok(threads)
        }
    }
}

/// Whether a quantifier is a `sum`.
fn is_sum(quantifier: Quantifier) -> bool
    ensures { result ≡ is_sum quantifier }
{
    matches!(quantifier, Quantifier::Sum)
}

/// Whether a quantifier is a multiplicity word too.
fn is_multiplicity(quantifier: Quantifier) -> bool
    ensures { result ≡ is_multiplicity quantifier }
{
    matches!(
        quantifier,
        Quantifier::Some | Quantifier::Lone | Quantifier::One
    )
}

/// A form with variables may begin so.
fn may_quantify(quantifier: Quantifier, goal: Goal) -> bool
    ensures { result ≡ goal.has_forms && (goal.has_words || not (is_multiplicity quantifier))
        && (goal.has_bars || not (is_sum quantifier)) && machine.has_room goal.room 0 }
{
    let words = goal.has_words || !is_multiplicity(quantifier);
    let bars = goal.has_bars || !is_sum(quantifier);
    let room = has_room(goal.room, 0);
    goal.has_forms && words && bars && room
}

/// A form with variables.
fn begin_quantified(
    alloc: Global,
    quantifier: Option<Quantifier>,
    goal: Goal,
) -> Result<Threads, AllocError>
    ensures { IfOk result (λ ts. ts ≡ machine.begin_quantified quantifier goal) }
{
    match quantifier {
        None => Ok(Items::new(alloc)),
        Some(quantifier) => {
            let declared = Declared::Quantified(goal, is_sum(quantifier), 0);
            let may = may_quantify(quantifier, goal);
            let threads = when(alloc, may, &[Item::Want(State::Declare(declared))])?;
            Ok(threads)
        }
    }
}

/// A name of a `let` so far as deep as that, its value, and what follows, where it may be.
pub fn binding(alloc: Global, may: bool, goal: Goal, depth: u32) -> Result<Threads, AllocError>
    ensures { IfOk result (λ ts. ts ≡ machine.when may (machine.binding goal depth)) }
{
    let name = Item::Token(Expected::Name);
    let equal = Item::Token(Expected::Equal);
    let need = Item::Need(value(inner(goal.room)));
    let then = Item::Then(Frame::Value(goal, depth));
    let threads = when(alloc, may, &[name, equal, need, then])?;
    Ok(threads)
}

/// A path that begins with `this`.
fn begin_this(alloc: Global, word: Word, goal: Goal) -> Result<Threads, AllocError>
    ensures { IfOk result (λ ts. ts ≡ machine.when (machine.is_this word)
        (Token expected.Slash ∷ Want state.Names ∷ machine.have goal 0 ∷ [])) }
{
    let slash = Item::Token(Expected::Slash);
    let names = Item::Want(State::Names);
    let is_this = matches!(word, Word::This);
    let threads = when(alloc, is_this, &[slash, names, have(goal, 0)])?;
    Ok(threads)
}

/// A `let`.
fn begin_let(alloc: Global, word: Word, goal: Goal) -> Result<Threads, AllocError>
    ensures { IfOk result (λ ts. ts ≡ machine.when (machine.is_let word && (goal.has_forms &&
        machine.has_room goal.room 0)) (machine.binding goal 0)) }
{
    let is_let = matches!(word, Word::Let);
    let room = has_room(goal.room, 0);
    let threads = binding(alloc, is_let && (goal.has_forms && room), goal, 0)?;
    Ok(threads)
}

/// How an expression begins with a reserved word.
fn begin_word(alloc: Global, word: Word, goal: Goal) -> Result<Threads, AllocError>
    ensures { IfOk result (λ ts. ts ≡ machine.begin_word word goal) }
{
    let mut paths = begin_this(alloc, word, goal)?;
    paths.append(begin_let(alloc, word, goal)?)?;
    let mut forms = begin_quantified(alloc, quantifier_of(word), goal)?;
    forms.append(paths)?;
    let mut prefixes = begin_prefix(alloc, prefix_word(word), goal)?;
    prefixes.append(forms)?;
    let mut threads = begin_constant(alloc, constant_of(word), goal)?;
    threads.append(prefixes)?;
    Ok(threads)
}

/// A block or a comprehension.
fn begin_brace(alloc: Global, goal: Goal) -> Result<Threads, AllocError>
    ensures { IfOk result (λ ts. ts ≡ machine.begin_symbol OpenBrace goal) }
{
    let mut threads = single(alloc, &[Item::Want(State::Items(goal, 0, true))])?;
    let declared = Item::Want(State::Declare(Declared::Comprehension(goal, 0)));
    threads.append(when(alloc, has_room(goal.room, 0), &[declared])?)?;
    Ok(threads)
}

/// A parenthesis.
fn begin_parenthesis(alloc: Global, goal: Goal) -> Result<Threads, AllocError>
    ensures { IfOk result (λ ts. ts ≡ machine.begin_symbol OpenParenthesis goal) }
{
    let need = Item::Need(whole(inner(goal.room)));
    let then = Item::Then(Frame::Parenthesis(goal));
    let threads = when(alloc, has_room(goal.room, 0), &[need, then])?;
    Ok(threads)
}

/// How an expression begins with a symbol.
fn begin_symbol(alloc: Global, symbol: Symbol, goal: Goal) -> Result<Threads, AllocError>
    ensures { IfOk result (λ ts. ts ≡ machine.begin_symbol symbol goal) }
{
    match symbol {
        Symbol::Minus => {
            let number = Item::Token(Expected::Number);
            let threads = when(alloc, goal.has_minus, &[number, have(goal, 0)])?;
            Ok(threads)
        }
        Symbol::At => {
            let threads = single(alloc, &[Item::Want(State::Path), have(goal, 0)])?;
            Ok(threads)
        }
        Symbol::OpenParenthesis => {
            let threads = begin_parenthesis(alloc, goal)?;
            Ok(threads)
        }
        Symbol::OpenBrace => {
            let threads = begin_brace(alloc, goal)?;
            Ok(threads)
        }
        _ => {
            let threads = begin_prefix(alloc, prefix_symbol(symbol), goal)?;
            Ok(threads)
        }
    }
}

/// How an expression that is no block alone begins.
fn begin_any(alloc: Global, token: &TokenKind, goal: Goal) -> Result<Threads, AllocError>
    ensures { IfOk result (λ ts. ts ≡ machine.begin_any token.now goal) }
{
    match token {
        TokenKind::Name(_) => {
            let threads = named(alloc, &[have(goal, 0)])?;
            Ok(threads)
        }
        TokenKind::Number(_) => {
            let threads = single(alloc, &[have(goal, 0)])?;
            Ok(threads)
        }
        TokenKind::Literal(_) => {
            let threads = single(alloc, &[have(goal, 0)])?;
            Ok(threads)
        }
        TokenKind::Word(word) => {
            let threads = begin_word(alloc, *word, goal)?;
            Ok(threads)
        }
        TokenKind::Symbol(symbol) => {
            let threads = begin_symbol(alloc, *symbol, goal)?;
            Ok(threads)
        }
        TokenKind::End => Ok(Items::new(alloc)),
    }
}

/// How an expression begins with a token.
pub fn begin(alloc: Global, token: &TokenKind, goal: Goal) -> Result<Threads, AllocError>
    ensures { IfOk result (λ ts. ts ≡ machine.begin token.now goal) }
{
    if goal.is_block {
        let items = Item::Want(State::Items(goal, 0, true));
        let threads = when(alloc, opens_brace(token), &[items])?;
        return Ok(threads);
    }
    let threads = begin_any(alloc, token, goal)?;
    Ok(threads)
}

/// A block and what is behind it, where the token begins one, if `|` needn't stand in its place.
pub fn block_before(
    alloc: Global,
    token: &TokenKind,
    must_bar: bool,
    room: Option<u32>,
    after: Item,
) -> Result<Threads, AllocError>
    ensures { IfOk result (λ ts. ts ≡ if must_bar then [] else machine.each (machine.begin token.now
        (machine.a_block room)) (after ∷ [])) }
{
    if must_bar {
        return Ok(Items::new(alloc));
    }
    let items = Item::Want(State::Items(a_block(room), 0, true));
    let threads = when(alloc, opens_brace(token), &[items, after])?;
    Ok(threads)
}
