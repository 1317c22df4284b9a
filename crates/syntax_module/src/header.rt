//! Parses the line that names a module, and its opens.

ghost use Rattle.std.specs.Prelude.{◌≡◌, ◌++◌, ◌∷◌, [], map, IfOk, IsTrue, ◌<◌, length};
ghost use Rattle.syntax_tree.specs.declared.token.Word.TheVariants as w;
ghost use Rattle.syntax_tree.specs.declared.token.Symbol.TheVariants as s;
ghost use Rattle.syntax_tree.specs.Words.{word};
ghost use Rattle.syntax_tree.specs.Spelling.{kinds, separated, joined, optional};
ghost use Rattle.syntax_tree.specs.ModuleWords.{parameter_words, in_brackets, header_words, first_words, sig_name_words, alias_words, open_words};
ghost use Rattle.syntax_tree.specs.Levels.{every};
ghost use Rattle.syntax_tree.specs.ModuleRules.{on, header_right, open_right, sig_name_right};
ghost use Rattle.syntax_expr.specs.Reads.{Reads};

use crate::sig_name::sig_names;
use crate::word::{expect_word, sees_private};
use base_lists::Items;
use base_types::Fault;
use std::alloc::Global;
use syntax_expr::{Cursor, qual_name};
use syntax_tree::{Header, Named, Open, Parameter, SigName, Symbol, Word};

fn parameter(alloc: Global, cursor: &mut Cursor<'_>) -> Result<Parameter, Fault>
    ensures { Reads parameter_words cursor.old result cursor.new }
{
    let is_exact = cursor.eat_word(Word::Exactly);
    let name = cursor.named(alloc)?;
    Ok(Parameter { is_exact, name })
}

fn parameter_list(alloc: Global, cursor: &mut Cursor<'_>) -> Result<Items<Parameter>, Fault>
    ensures some { IfOk result (λ found. 0 < length found) }
    ensures reads { Reads (λ found. separated s.Comma (map parameter_words found)) cursor.old result
        cursor.new }
{
    let mut found = Items::new(alloc);
    let first = parameter(alloc, cursor)?;
    found.push(first)?;
    for _turn in 0..cursor.left() {
        if !cursor.eat(Symbol::Comma) {
            break;
        }
        let next = parameter(alloc, cursor)?;
        found.push(next)?;
    }
    Ok(found)
}

fn parameters(alloc: Global, cursor: &mut Cursor<'_>) -> Result<Items<Parameter>, Fault>
    ensures { Reads (λ found. in_brackets (map parameter_words found)) cursor.old result
        cursor.new }
{
    if !cursor.eat(Symbol::OpenBracket) {
        return Ok(Items::new(alloc));
    }
    let found = parameter_list(alloc, cursor)?;
    cursor.expect(Symbol::CloseBracket)?;
    Ok(found)
}

/// The line that names a module, where it comes next.
pub fn header(alloc: Global, cursor: &mut Cursor<'_>) -> Result<Option<Header>, Fault>
    ensures right { IfOk result (λ found. IsTrue (on header_right found)) }
    ensures reads { Reads first_words cursor.old result cursor.new }
{
    let place = cursor.place();
    if !cursor.eat_word(Word::Module) {
        return Ok(None);
    }
    let path = qual_name(alloc, cursor)?;
    let parameters = parameters(alloc, cursor)?;
    Ok(Some(Header {
        place,
        path,
        parameters,
    }))
}

fn arguments(alloc: Global, cursor: &mut Cursor<'_>) -> Result<Items<SigName>, Fault>
    ensures right { IfOk result (λ found. IsTrue (every sig_name_right found)) }
    ensures reads { Reads (λ found. in_brackets (map sig_name_words found)) cursor.old result
        cursor.new }
{
    if !cursor.eat(Symbol::OpenBracket) {
        return Ok(Items::new(alloc));
    }
    let found = sig_names(alloc, cursor, Symbol::Comma)?;
    cursor.expect(Symbol::CloseBracket)?;
    Ok(found)
}

fn alias(alloc: Global, cursor: &mut Cursor<'_>) -> Result<Option<Named>, Fault>
    ensures { Reads alias_words cursor.old result cursor.new }
{
    if !cursor.eat_word(Word::As) {
        return Ok(None);
    }
    Ok(Some(cursor.named(alloc)?))
}

fn open(alloc: Global, cursor: &mut Cursor<'_>) -> Result<Open, Fault>
    ensures right { IfOk result (λ found. IsTrue (open_right found)) }
    ensures reads { Reads open_words cursor.old result cursor.new }
{
    let place = cursor.place();
    let is_private = cursor.eat_word(Word::Private);
    expect_word(cursor, Word::Open)?;
    let path = qual_name(alloc, cursor)?;
    let arguments = arguments(alloc, cursor)?;
    let alias = alias(alloc, cursor)?;
    Ok(Open {
        place,
        is_private,
        path,
        arguments,
        alias,
    })
}

/// The opens that come next.
pub fn opens(alloc: Global, cursor: &mut Cursor<'_>) -> Result<Items<Open>, Fault>
    ensures right { IfOk result (λ found. IsTrue (every open_right found)) }
    ensures reads { Reads (λ found. joined (map open_words found)) cursor.old result cursor.new }
{
    let mut found = Items::new(alloc);
    for _turn in 0..cursor.left() {
        if !cursor.sees_word(Word::Open) && !sees_private(cursor.rest(), Word::Open) {
            break;
        }
        let next = open(alloc, cursor)?;
        found.push(next)?;
    }
    Ok(found)
}
