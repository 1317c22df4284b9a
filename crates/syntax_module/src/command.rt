//! Parses commands with their scopes.

ghost use Rattle.std.specs.Prelude.{◌≡◌, ◌++◌, ◌∷◌, [], ◌<◌, length, map, IfOk, IfSome, IsTrue};
ghost use Rattle.syntax_tree.specs.declared.token.Word.TheVariants as w;
ghost use Rattle.syntax_tree.specs.declared.token.Symbol.TheVariants as s;
ghost use Rattle.syntax_tree.specs.Words.{word, symbol};
ghost use Rattle.syntax_tree.specs.Spelling.{kinds, spelling, separated, optional, declared_name, name_words};
ghost use Rattle.syntax_tree.specs.ModuleWords.{numeral_words, target_words, entry_words, entries_words, scope_words, for_words, expect_words, subject_words, label_words, keyword_of, command_words, sig_name_words, block_words};
ghost use Rattle.syntax_tree.specs.ModuleRules.{on, target_right, entries_right, scope_right, subject_right, command_right};
ghost use Rattle.syntax_expr.specs.Reads.{Reads};

use crate::sig::block;
use crate::sig_name::sig_name;
use crate::word::{expect_word, numeral, sees_label, sees_name};
use base_lists::Items;
use base_types::Fault;
use std::alloc::Global;
use syntax_expr::{Cursor, block_at, qual_name};
use syntax_tree::{
    Command, Named, Scope, ScopeEntry, ScopeTarget, Subject, Symbol, Token, TokenKind, Word,
};

fn target(alloc: Global, cursor: &mut Cursor<'_>) -> Result<ScopeTarget, Fault>
    ensures right { IfOk result (λ found. IsTrue (target_right found)) }
    ensures reads { Reads target_words cursor.old result cursor.new }
{
    let place = cursor.place();
    if cursor.eat_word(Word::IntScope) {
        return Ok(ScopeTarget::Bits(place));
    }
    Ok(ScopeTarget::Sig(sig_name(alloc, cursor)?))
}

fn entry(alloc: Global, cursor: &mut Cursor<'_>) -> Result<ScopeEntry, Fault>
    ensures right { IfOk result (λ found. IsTrue (target_right found.target)) }
    ensures reads { Reads entry_words cursor.old result cursor.new }
{
    let is_exact = cursor.eat_word(Word::Exactly);
    let number = numeral(cursor)?;
    let target = target(alloc, cursor)?;
    Ok(ScopeEntry {
        is_exact,
        number,
        target,
    })
}

/// One or more numbers with what they are for.
fn entries(alloc: Global, cursor: &mut Cursor<'_>) -> Result<Items<ScopeEntry>, Fault>
    ensures right { IfOk result (λ found. IsTrue (entries_right found)) }
    ensures reads { Reads entries_words cursor.old result cursor.new }
{
    let mut found = Items::new(alloc);
    let first = entry(alloc, cursor)?;
    found.push(first)?;
    for _turn in 0..cursor.left() {
        if !cursor.eat(Symbol::Comma) {
            break;
        }
        let next = entry(alloc, cursor)?;
        found.push(next)?;
    }
    Ok(found)
}

/// Whether a number comes next that is for all sigs.
fn begins_overall(rest: &[Token]) -> bool {
    let [first, after @ ..] = rest else {
        return false;
    };
    if !matches!(&first.kind, TokenKind::Number(_)) {
        return false;
    }
    match after {
        [second, ..] => match &second.kind {
            TokenKind::Name(_) => sees_label(after),
            TokenKind::Word(Word::Int | Word::IntScope | Word::This) => false,
            _ => true,
        },
        [] => true,
    }
}

fn scope(alloc: Global, cursor: &mut Cursor<'_>) -> Result<Scope, Fault>
    ensures right { IfOk result (λ found. IsTrue (scope_right found)) }
    ensures reads { Reads scope_words cursor.old result cursor.new }
{
    if !begins_overall(cursor.rest()) {
        return Ok(Scope::Entries(entries(alloc, cursor)?));
    }
    let number = numeral(cursor)?;
    if cursor.eat_word(Word::But) {
        return Ok(Scope::But(number, entries(alloc, cursor)?));
    }
    Ok(Scope::Overall(number))
}

/// The scope after `for`, where it comes next.
fn for_scope(alloc: Global, cursor: &mut Cursor<'_>) -> Result<Option<Scope>, Fault>
    ensures right { IfOk result (λ found. IsTrue (on scope_right found)) }
    ensures reads { Reads for_words cursor.old result cursor.new }
{
    if !cursor.eat_word(Word::For) {
        return Ok(None);
    }
    Ok(Some(scope(alloc, cursor)?))
}

/// The number after `expect`, where it comes next.
fn expected(cursor: &mut Cursor<'_>) -> Result<Option<u32>, Fault>
    ensures { Reads expect_words cursor.old result cursor.new }
{
    if !cursor.eat_word(Word::Expect) {
        return Ok(None);
    }
    let number = numeral(cursor)?;
    Ok(Some(number.value))
}

fn named_subject(alloc: Global, cursor: &mut Cursor<'_>, limit: u16) -> Result<Subject, Fault>
    ensures right { IfOk result (λ found. IsTrue (subject_right limit found)) }
    ensures reads { Reads subject_words cursor.old result cursor.new }
{
    let name = qual_name(alloc, cursor)?;
    if let Some(block) = block(alloc, cursor, limit)? {
        return Ok(Subject::Labelled(name, block));
    }
    Ok(Subject::Name(name))
}

fn subject(alloc: Global, cursor: &mut Cursor<'_>, limit: u16) -> Result<Subject, Fault>
    ensures right { IfOk result (λ found. IsTrue (subject_right limit found)) }
    ensures reads { Reads subject_words cursor.old result cursor.new }
{
    if cursor.sees(Symbol::OpenBrace) {
        return Ok(Subject::Block(block_at(alloc, cursor, limit)?));
    }
    named_subject(alloc, cursor, limit)
}

/// A name and a colon, where they come next.
fn label(alloc: Global, cursor: &mut Cursor<'_>) -> Result<Option<Named>, Fault>
    ensures { Reads label_words cursor.old result cursor.new }
{
    if !sees_name(cursor) {
        return Ok(None);
    }
    let name = cursor.named(alloc)?;
    cursor.expect(Symbol::Colon)?;
    Ok(Some(name))
}

/// `run` or `check`, and whether it is the second.
fn keyword(cursor: &mut Cursor<'_>) -> Result<bool, Fault>
    ensures { IfOk result (λ is_check. kinds cursor.old
        ≡ word (keyword_of is_check) ∷ kinds cursor.new) }
{
    if cursor.eat_word(Word::Check) {
        return Ok(true);
    }
    expect_word(cursor, Word::Run)?;
    Ok(false)
}

/// A command.
pub fn command(alloc: Global, cursor: &mut Cursor<'_>, limit: u16) -> Result<Command, Fault>
    ensures right { IfOk result (λ found. IsTrue (command_right limit found)) }
    ensures reads { Reads command_words cursor.old result cursor.new }
{
    let place = cursor.place();
    let label = label(alloc, cursor)?;
    let keyword_place = cursor.place();
    let is_check = keyword(cursor)?;
    let subject = subject(alloc, cursor, limit)?;
    let scope = for_scope(alloc, cursor)?;
    let expected = expected(cursor)?;
    Ok(Command {
        place,
        label,
        keyword: keyword_place,
        is_check,
        subject,
        scope,
        expected,
    })
}
