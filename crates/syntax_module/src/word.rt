//! Parses words and numbers that have to come next.

ghost use Rattle.std.specs.Prelude.{◌≡◌, ◌∷◌, IfOk};
ghost use Rattle.syntax_tree.specs.declared.token.TokenKind.TheVariants as kind;
ghost use Rattle.syntax_tree.specs.Spelling.{kinds};
ghost use Rattle.syntax_tree.specs.ModuleWords.{numeral_words};
ghost use Rattle.syntax_expr.specs.Reads.{Reads};

use base_types::{Fault, Rule};
use syntax_expr::Cursor;
use syntax_tree::{Numeral, Symbol, Token, TokenKind, Word, same_word};

/// Goes past this word, which has to come next.
pub fn expect_word(cursor: &mut Cursor<'_>, word: Word) -> Result<(), Fault>
    ensures { IfOk result (λ _. kinds cursor.old ≡ kind.Word word ∷ kinds cursor.new) }
{
    if cursor.eat_word(word) {
        Ok(())
    } else {
        Err(cursor.refuse(Rule::Syntax))
    }
}

/// The number that has to come next.
pub fn numeral(cursor: &mut Cursor<'_>) -> Result<Numeral, Fault>
    ensures { Reads numeral_words cursor.old result cursor.new }
{
    let place = cursor.place();
    match cursor.kind() {
        TokenKind::Number(number) => {
            let value = *number;
            cursor.advance();
            Ok(Numeral { place, value })
        }
        _ => Err(cursor.refuse(Rule::Syntax)),
    }
}

/// Whether a name comes next.
pub fn sees_name(cursor: &Cursor<'_>) -> bool {
    matches!(cursor.kind(), TokenKind::Name(_))
}

/// Whether a name with a colon after it comes next.
pub fn sees_label(rest: &[Token]) -> bool {
    match rest {
        [first, second, ..] => {
            matches!(&first.kind, TokenKind::Name(_))
                && matches!(&second.kind, TokenKind::Symbol(Symbol::Colon))
        }
        _ => false,
    }
}

fn is_word(of: &TokenKind, word: Word) -> bool {
    match of {
        TokenKind::Word(found) => same_word(*found, word),
        _ => false,
    }
}

/// Whether `private` and then this word come next.
pub fn sees_private(rest: &[Token], word: Word) -> bool {
    match rest {
        [first, second, ..] => {
            matches!(&first.kind, TokenKind::Word(Word::Private)) && is_word(&second.kind, word)
        }
        _ => false,
    }
}
