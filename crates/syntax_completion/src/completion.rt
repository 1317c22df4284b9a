//! Completes a thread: tokens that lead it to its end.
//!
//! Nothing is promised of them. Whoever wants to know that a text goes on parses it with them.

use crate::pieces::put_part;
use crate::words::{put_block, put_number, put_symbol, put_text, put_word};
use base_lists::Items;
use std::alloc::{AllocError, Global};
use syntax_machine::{Declared, Expected, Frame, Goal, Item, State};
use syntax_tree::{Bracket, Symbol, Token, Word};

/// A token that is expected.
fn put_expected(
    alloc: Global,
    words: &mut Items<Token>,
    expected: Expected,
) -> Result<(), AllocError> {
    match expected {
        Expected::Name => Ok(put_text(alloc, words, "a")?),
        Expected::Number => Ok(put_number(words)?),
        Expected::Arithmetic => Ok(put_text(alloc, words, "add")?),
        Expected::Multiplicity => Ok(put_word(words, Word::One)?),
        Expected::Slash => Ok(put_symbol(words, Symbol::Slash)?),
        Expected::Comma => Ok(put_symbol(words, Symbol::Comma)?),
        Expected::Colon => Ok(put_symbol(words, Symbol::Colon)?),
        Expected::Equal => Ok(put_symbol(words, Symbol::Equal)?),
        Expected::Arrow => Ok(put_symbol(words, Symbol::Arrow)?),
        Expected::Dot => Ok(put_symbol(words, Symbol::Dot)?),
        Expected::OpenBrace => Ok(put_symbol(words, Symbol::OpenBrace)?),
        Expected::CloseBrace => Ok(put_symbol(words, Symbol::CloseBrace)?),
        Expected::Open => Ok(put_word(words, Word::Open)?),
        Expected::But => Ok(put_word(words, Word::But)?),
    }
}

/// An expression, or a block.
fn put_needed(alloc: Global, words: &mut Items<Token>, goal: Goal) -> Result<(), AllocError> {
    if goal.is_block {
        put_block(words)?;
        return Ok(());
    }
    put_text(alloc, words, "a")?;
    Ok(())
}

/// What follows a list of variables: a body, or the end of parameters.
fn put_after_decl(
    alloc: Global,
    words: &mut Items<Token>,
    declared: Declared,
) -> Result<(), AllocError> {
    match declared {
        Declared::Quantified(_, is_sum, _) => {
            if !is_sum {
                put_block(words)?;
                return Ok(());
            }
            put_symbol(words, Symbol::Bar)?;
            put_text(alloc, words, "a")?;
            Ok(())
        }
        Declared::Comprehension(_, _) => {
            put_block(words)?;
            put_symbol(words, Symbol::CloseBrace)?;
            Ok(())
        }
        Declared::Parameters(_, Bracket::Square) => Ok(put_symbol(words, Symbol::CloseBracket)?),
        Declared::Parameters(_, Bracket::Round) => {
            Ok(put_symbol(words, Symbol::CloseParenthesis)?)
        }
    }
}

/// The bound of variables, and what follows it.
fn put_bound(
    alloc: Global,
    words: &mut Items<Token>,
    declared: Declared,
) -> Result<(), AllocError> {
    put_text(alloc, words, "a")?;
    put_after_decl(alloc, words, declared)?;
    Ok(())
}

/// A variable, and what follows it.
fn put_variable(
    alloc: Global,
    words: &mut Items<Token>,
    declared: Declared,
) -> Result<(), AllocError> {
    put_text(alloc, words, "a")?;
    put_symbol(words, Symbol::Colon)?;
    put_bound(alloc, words, declared)?;
    Ok(())
}

/// The rest of a state.
fn put_state(alloc: Global, words: &mut Items<Token>, state: State) -> Result<(), AllocError> {
    match state {
        State::Names | State::Path => Ok(put_text(alloc, words, "a")?),
        State::Items(_, _, _) => Ok(put_symbol(words, Symbol::CloseBrace)?),
        State::Arguments(_, _) | State::NextArgument(_, _) => {
            Ok(put_symbol(words, Symbol::CloseBracket)?)
        }
        State::Comparator(_, _) => {
            put_symbol(words, Symbol::Equal)?;
            put_text(alloc, words, "a")?;
            Ok(())
        }
        State::Declare(declared) | State::Variable(declared) => {
            Ok(put_variable(alloc, words, declared)?)
        }
        State::Bound(declared) => Ok(put_bound(alloc, words, declared)?),
        State::NextDecl(declared) => Ok(put_after_decl(alloc, words, declared)?),
        State::NextBinding(_, _) => Ok(put_block(words)?),
    }
}

/// The rest of a frame, behind its expression.
fn put_frame(alloc: Global, words: &mut Items<Token>, frame: Frame) -> Result<(), AllocError> {
    match frame {
        Frame::Parenthesis(_) => Ok(put_symbol(words, Symbol::CloseParenthesis)?),
        Frame::Item(_, _) | Frame::Inside(_, _) => Ok(put_symbol(words, Symbol::CloseBrace)?),
        Frame::Argument(_, _) => Ok(put_symbol(words, Symbol::CloseBracket)?),
        Frame::Bound(declared) => Ok(put_after_decl(alloc, words, declared)?),
        Frame::Value(_, _) => Ok(put_block(words)?),
        Frame::Last(_, _, _) | Frame::Consequence(_, _) | Frame::Body(_, _, _) => Ok(()),
    }
}

/// The rest of a part of a thread. What may come next or not doesn't.
fn put_item(alloc: Global, words: &mut Items<Token>, item: Item) -> Result<(), AllocError> {
    match item {
        Item::Token(expected) => Ok(put_expected(alloc, words, expected)?),
        Item::Need(goal) => Ok(put_needed(alloc, words, goal)?),
        Item::Want(state) => Ok(put_state(alloc, words, state)?),
        Item::Have(_, _, _) => Ok(()),
        Item::Then(frame) => Ok(put_frame(alloc, words, frame)?),
        Item::Part(piece) => Ok(put_part(alloc, words, piece)?),
        Item::May(_) => Ok(()),
    }
}

/// The rest of a thread.
pub fn completion(alloc: Global, thread: &[Item]) -> Result<Items<Token>, AllocError> {
    let mut words = Items::new(alloc);
    for item in thread {
        put_item(alloc, &mut words, *item)?;
    }
    Ok(words)
}
