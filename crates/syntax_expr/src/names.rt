//! Parses names, and lists of them.

ghost use Rattle.std.specs.Prelude.{◌≡◌, ◌<◌, map, length, IfOk, IsTrue};
ghost use Rattle.syntax_tree.specs.Levels.{name_right};
ghost use Rattle.syntax_tree.specs.declared.token.Symbol.TheVariants as s;
ghost use Rattle.syntax_tree.specs.Spelling.{separated, one_name, declared_name, name_words};
ghost use Rattle.syntax_expr.specs.Reads.{Reads};

use crate::cursor::Cursor;
use base_lists::Items;
use base_types::{Fault, Name};
use std::alloc::Global;
use syntax_tree::{Named, QualName, Symbol, Token, TokenKind, Word};

/// One or more names, with the mark between two of them.
pub fn names(alloc: Global, cursor: &mut Cursor<'_>, mark: Symbol) -> Result<Items<Name>, Fault>
    ensures some { IfOk result (λ names. 0 < length names) }
    ensures reads { Reads (λ names. separated mark (map one_name names)) cursor.old result
        cursor.new }
{
    let mut found = Items::new(alloc);
    found.push(cursor.name(alloc)?)?;
    for _turn in 0..cursor.left() {
        if !cursor.eat(mark) {
            break;
        }
        found.push(cursor.name(alloc)?)?;
    }
    Ok(found)
}

/// One or more names that are declared here, with commas between them.
pub fn declared_names(alloc: Global, cursor: &mut Cursor<'_>) -> Result<Items<Named>, Fault>
    ensures some { IfOk result (λ names. 0 < length names) }
    ensures reads { Reads (λ names. separated s.Comma (map declared_name names)) cursor.old result
        cursor.new }
{
    let mut found = Items::new(alloc);
    found.push(cursor.named(alloc)?)?;
    for _turn in 0..cursor.left() {
        if !cursor.eat(Symbol::Comma) {
            break;
        }
        found.push(cursor.named(alloc)?)?;
    }
    Ok(found)
}

/// Whether `this/` comes next.
pub fn begins_own(rest: &[Token]) -> bool {
    match rest {
        [first, second, ..] => {
            matches!(&first.kind, TokenKind::Word(Word::This))
                && matches!(&second.kind, TokenKind::Symbol(Symbol::Slash))
        }
        _ => false,
    }
}

/// A name with the path before it.
pub fn qual_name(alloc: Global, cursor: &mut Cursor<'_>) -> Result<QualName, Fault>
    ensures right { IfOk result (λ name. IsTrue (name_right name)) }
    ensures reads { Reads name_words cursor.old result cursor.new }
{
    let place = cursor.place();
    let is_own = cursor.eat_word(Word::This);
    if is_own {
        cursor.expect(Symbol::Slash)?;
    }
    let parts = names(alloc, cursor, Symbol::Slash)?;
    Ok(QualName {
        place,
        is_own,
        parts,
    })
}
