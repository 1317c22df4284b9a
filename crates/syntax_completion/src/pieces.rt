//! Completes a part of a module.

use crate::words::{put_block, put_number, put_symbol, put_text, put_word};
use base_lists::Items;
use std::alloc::{AllocError, Global};
use syntax_machine::Piece;
use syntax_tree::{Symbol, Token, Word};

/// A reserved word, and a block behind it.
fn put_command(words: &mut Items<Token>) -> Result<(), AllocError> {
    put_word(words, Word::Run)?;
    put_block(words)?;
    Ok(())
}

/// A predicate.
fn put_predicate(alloc: Global, words: &mut Items<Token>) -> Result<(), AllocError> {
    put_word(words, Word::Pred)?;
    put_text(alloc, words, "a")?;
    put_block(words)?;
    Ok(())
}

/// A sig.
fn put_sig(alloc: Global, words: &mut Items<Token>) -> Result<(), AllocError> {
    put_word(words, Word::Sig)?;
    put_text(alloc, words, "a")?;
    put_block(words)?;
    Ok(())
}

/// A name of a field and its bound, which end the fields.
fn put_field(alloc: Global, words: &mut Items<Token>) -> Result<(), AllocError> {
    put_text(alloc, words, "a")?;
    put_symbol(words, Symbol::Colon)?;
    put_text(alloc, words, "a")?;
    put_symbol(words, Symbol::CloseBrace)?;
    Ok(())
}

/// A name, and the end of its list.
fn put_last(alloc: Global, words: &mut Items<Token>, closing: Symbol) -> Result<(), AllocError> {
    put_text(alloc, words, "a")?;
    put_symbol(words, closing)?;
    Ok(())
}

/// A number, and what it is the scope of.
fn put_entry(alloc: Global, words: &mut Items<Token>) -> Result<(), AllocError> {
    put_number(words)?;
    put_text(alloc, words, "a")?;
    Ok(())
}

/// The rest of a part of a module.
pub fn put_part(alloc: Global, words: &mut Items<Token>, piece: Piece) -> Result<(), AllocError> {
    match piece {
        Piece::SigName | Piece::SigNames | Piece::FieldBound(_) | Piece::Bound(_) => {
            Ok(put_text(alloc, words, "a")?)
        }
        Piece::Target => Ok(put_text(alloc, words, "a")?),
        Piece::NextSigName | Piece::NextParameter | Piece::Square(_) => {
            Ok(put_symbol(words, Symbol::CloseBracket)?)
        }
        Piece::Parameter => Ok(put_last(alloc, words, Symbol::CloseBracket)?),
        Piece::Paragraphs(_) => Ok(()),
        Piece::Keyword(_) => Ok(put_command(words)?),
        Piece::Callable(_) => Ok(put_predicate(alloc, words)?),
        Piece::Sig(_, _) => Ok(put_sig(alloc, words)?),
        Piece::Fields(_) | Piece::NextField(_) | Piece::NextMember => {
            Ok(put_symbol(words, Symbol::CloseBrace)?)
        }
        Piece::Field(_) | Piece::FieldName(_) => Ok(put_field(alloc, words)?),
        Piece::Member => Ok(put_last(alloc, words, Symbol::CloseBrace)?),
        Piece::Title(_) | Piece::Subject(_) => Ok(put_block(words)?),
        Piece::Round(_) => Ok(put_symbol(words, Symbol::CloseParenthesis)?),
        Piece::Scope => Ok(put_number(words)?),
        Piece::Entry => Ok(put_entry(alloc, words)?),
    }
}
