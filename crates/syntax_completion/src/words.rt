//! Single tokens, and `{ }`.

use base_lists::Items;
use base_types::{Name, Position};
use std::alloc::{AllocError, Global};
use syntax_tree::{Symbol, Token, TokenKind, Word};

/// The place of tokens that no text has.
pub fn nowhere() -> Position {
    Position {
        module: 0,
        line: 1,
        column: 1,
    }
}

/// A name.
pub fn put_text(alloc: Global, words: &mut Items<Token>, text: &str) -> Result<(), AllocError> {
    let kind = TokenKind::Name(Name::copy(alloc, text)?);
    let place = nowhere();
    words.push(Token { kind, place })?;
    Ok(())
}

/// A symbol.
pub fn put_symbol(words: &mut Items<Token>, symbol: Symbol) -> Result<(), AllocError> {
    let kind = TokenKind::Symbol(symbol);
    let place = nowhere();
    words.push(Token { kind, place })?;
    Ok(())
}

/// A reserved word.
pub fn put_word(words: &mut Items<Token>, word: Word) -> Result<(), AllocError> {
    let kind = TokenKind::Word(word);
    let place = nowhere();
    words.push(Token { kind, place })?;
    Ok(())
}

/// A number.
pub fn put_number(words: &mut Items<Token>) -> Result<(), AllocError> {
    let kind = TokenKind::Number(1);
    let place = nowhere();
    words.push(Token { kind, place })?;
    Ok(())
}

/// `{ }`
pub fn put_block(words: &mut Items<Token>) -> Result<(), AllocError> {
    put_symbol(words, Symbol::OpenBrace)?;
    put_symbol(words, Symbol::CloseBrace)?;
    Ok(())
}
