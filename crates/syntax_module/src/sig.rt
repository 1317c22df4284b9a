//! Parses sigs with their fields, and enums.

ghost use Rattle.std.specs.Prelude.{◌≡◌, ◌++◌, ◌∷◌, [], ◌<◌, not, length, map, IfOk, IfSome, IsTrue};
ghost use Rattle.syntax_tree.specs.declared.token.Word.TheVariants as w;
ghost use Rattle.syntax_tree.specs.declared.token.Symbol.TheVariants as s;
ghost use Rattle.syntax_tree.specs.Words.{word, symbol};
ghost use Rattle.syntax_tree.specs.Spelling.{kinds, spelling, separated, joined, optional, declared_name};
ghost use Rattle.syntax_tree.specs.ModuleWords.{qualifier_word, qualifier_words, field_word_word, field_word_words, field_words, parents_words, block_words, in_braces, sig_words, enum_words, sig_name_words, bound_words};
ghost use Rattle.syntax_tree.specs.Levels.{every};
ghost use Rattle.syntax_tree.specs.ModuleRules.{on, is_word, excludes, qualifiers_right, comma_right, field_right, parents_right, block_right, sig_right, enum_right};
ghost use Rattle.syntax_expr.specs.Reads.{Reads};
ghost use Rattle.syntax_module.specs.Parts.{words_of};

use crate::sig_name::{sig_name, sig_names};
use crate::word::{expect_word, sees_name};
use base_lists::Items;
use base_types::{Fault, Rule};
use std::alloc::Global;
use syntax_expr::{Cursor, block_at, bound_at, declared_names};
use syntax_tree::{
    Enumeration, Expr, Field, FieldWord, Named, Parents, Qualifier, Sig, Symbol, Word,
};

fn qualifier(of: Word) -> Option<Qualifier>
    ensures { IfSome result (λ q. of ≡ qualifier_word q) }
{
    match of {
        Word::Private => Some(Qualifier::Private),
        Word::Var => Some(Qualifier::Var),
        Word::Abstract => Some(Qualifier::Abstract),
        Word::Lone => Some(Qualifier::Lone),
        Word::One => Some(Qualifier::One),
        Word::Some => Some(Qualifier::Some),
        _ => None,
    }
}

fn is_multiplicity(word: Qualifier) -> bool
    ensures { result ≡ is_word word }
{
    matches!(word, Qualifier::Lone | Qualifier::One | Qualifier::Some)
}

/// Whether the second word may not stand after the first before one sig.
fn excluded(first: Qualifier, second: Qualifier) -> bool
    ensures { result ≡ excludes first second }
{
    match (first, second) {
        (Qualifier::Private, Qualifier::Private) => true,
        (Qualifier::Var, Qualifier::Var) => true,
        (Qualifier::Abstract, Qualifier::Abstract) => true,
        _ => {
            let is_word = is_multiplicity(first);
            let follows = is_multiplicity(second);
            is_word && follows
        }
    }
}

/// Whether the word may stand after all of these.
fn may_follow(found: &[Qualifier], next: Qualifier) -> bool
    ensures { result ≡ every (λ q. not (excludes q next)) found.now }
{
    let mut right = true;
    for word in found {
        let taken = excluded(*word, next);
        right = right && !taken;
    }
    right
}

/// The next word before `sig`, where one comes.
fn qualifier_at(cursor: &mut Cursor<'_>) -> Option<Qualifier>
    ensures { kinds cursor.old ≡ words_of qualifier_words result ++ kinds cursor.new }
{
    let word = cursor.word()?;
    let found = qualifier(word)?;
    cursor.advance();
    Some(found)
}

/// The words before `sig`.
fn qualifiers(alloc: Global, cursor: &mut Cursor<'_>) -> Result<Items<Qualifier>, Fault>
    ensures right { IfOk result (λ found. IsTrue (qualifiers_right found)) }
    ensures reads { Reads (λ found. joined (map qualifier_words found)) cursor.old result
        cursor.new }
{
    let mut found = Items::new(alloc);
    for _turn in 0..cursor.left() {
        let fault = cursor.refuse(Rule::Syntax);
        let Some(next) = qualifier_at(cursor) else {
            break;
        };
        if !may_follow(found.as_slice(), next) {
            return Err(fault);
        }
        found.push(next)?;
    }
    Ok(found)
}

fn field_word(of: Word) -> Option<FieldWord>
    ensures { IfSome result (λ f. of ≡ field_word_word f) }
{
    match of {
        Word::Private => Some(FieldWord::Private),
        Word::Var => Some(FieldWord::Var),
        Word::Disj => Some(FieldWord::Disj),
        _ => None,
    }
}

fn field_word_at(cursor: &mut Cursor<'_>) -> Option<FieldWord>
    ensures { kinds cursor.old ≡ words_of field_word_words result ++ kinds cursor.new }
{
    let word = cursor.word()?;
    let found = field_word(word)?;
    cursor.advance();
    Some(found)
}

/// The words before the names of fields.
fn field_words_at(alloc: Global, cursor: &mut Cursor<'_>) -> Result<Items<FieldWord>, Fault>
    ensures { Reads (λ found. joined (map field_word_words found)) cursor.old result cursor.new }
{
    let mut found = Items::new(alloc);
    for _turn in 0..cursor.left() {
        let Some(next) = field_word_at(cursor) else {
            break;
        };
        found.push(next)?;
    }
    Ok(found)
}

fn field(alloc: Global, cursor: &mut Cursor<'_>, limit: u16) -> Result<Field, Fault>
    ensures right { IfOk result (λ found. IsTrue (field_right limit found)) }
    ensures reads { Reads field_words cursor.old result cursor.new }
{
    let place = cursor.place();
    let words = field_words_at(alloc, cursor)?;
    let names = declared_names(alloc, cursor)?;
    cursor.expect(Symbol::Colon)?;
    let is_disjoint = cursor.eat_word(Word::Disj);
    let bound = bound_at(alloc, cursor, limit)?;
    Ok(Field {
        place,
        words,
        names,
        is_disjoint,
        bound,
    })
}

/// One or more fields, and whether a comma stands after the last one.
fn field_list(
    alloc: Global,
    cursor: &mut Cursor<'_>,
    limit: u16,
) -> Result<(Items<Field>, bool), Fault>
    ensures some { IfOk result (λ found. 0 < length found.0) }
    ensures right { IfOk result (λ found. IsTrue (every (field_right limit) found.0)) }
    ensures reads { Reads (λ found. separated s.Comma (map field_words found.0)
        ++ optional found.1 (symbol s.Comma)) cursor.old result cursor.new }
{
    let mut found = Items::new(alloc);
    let first = field(alloc, cursor, limit)?;
    found.push(first)?;
    for _turn in 0..cursor.left() {
        if !cursor.eat(Symbol::Comma) {
            break;
        }
        if cursor.sees(Symbol::CloseBrace) {
            return Ok((found, true));
        }
        let next = field(alloc, cursor, limit)?;
        found.push(next)?;
    }
    Ok((found, false))
}

/// Fields in braces.
fn fields(alloc: Global, cursor: &mut Cursor<'_>, limit: u16) -> Result<(Items<Field>, bool), Fault>
    ensures comma { IfOk result (λ found. IsTrue (comma_right found.0 found.1)) }
    ensures right { IfOk result (λ found. IsTrue (every (field_right limit) found.0)) }
    ensures reads { Reads (λ found. in_braces (map field_words found.0) found.1) cursor.old result
        cursor.new }
{
    cursor.expect(Symbol::OpenBrace)?;
    if cursor.eat(Symbol::CloseBrace) {
        return Ok((Items::new(alloc), false));
    }
    let found = field_list(alloc, cursor, limit)?;
    cursor.expect(Symbol::CloseBrace)?;
    Ok(found)
}

fn parents(alloc: Global, cursor: &mut Cursor<'_>) -> Result<Parents, Fault>
    ensures right { IfOk result (λ found. IsTrue (parents_right found)) }
    ensures reads { Reads parents_words cursor.old result cursor.new }
{
    if cursor.eat_word(Word::Extends) {
        return Ok(Parents::Extends(sig_name(alloc, cursor)?));
    }
    if cursor.eat_word(Word::In) {
        return Ok(Parents::Subset(sig_names(alloc, cursor, Symbol::Plus)?));
    }
    Ok(Parents::Top)
}

/// A block, where one comes next.
pub fn block(alloc: Global, cursor: &mut Cursor<'_>, limit: u16) -> Result<Option<Expr>, Fault>
    ensures right { IfOk result (λ found. IsTrue (on (block_right limit) found)) }
    ensures reads { Reads block_words cursor.old result cursor.new }
{
    if !cursor.sees(Symbol::OpenBrace) {
        return Ok(None);
    }
    Ok(Some(block_at(alloc, cursor, limit)?))
}

/// Sigs that are declared together.
pub fn sig(alloc: Global, cursor: &mut Cursor<'_>, limit: u16) -> Result<Sig, Fault>
    ensures right { IfOk result (λ found. IsTrue (sig_right limit found)) }
    ensures reads { Reads sig_words cursor.old result cursor.new }
{
    let place = cursor.place();
    let qualifiers = qualifiers(alloc, cursor)?;
    expect_word(cursor, Word::Sig)?;
    let names = declared_names(alloc, cursor)?;
    let parents = parents(alloc, cursor)?;
    let (fields, has_comma) = fields(alloc, cursor, limit)?;
    let block = block(alloc, cursor, limit)?;
    Ok(Sig {
        place,
        qualifiers,
        names,
        parents,
        fields,
        has_comma,
        block,
    })
}

/// One or more members, and whether a comma stands after the last one.
fn member_list(alloc: Global, cursor: &mut Cursor<'_>) -> Result<(Items<Named>, bool), Fault>
    ensures some { IfOk result (λ found. 0 < length found.0) }
    ensures reads { Reads (λ found. separated s.Comma (map declared_name found.0)
        ++ optional found.1 (symbol s.Comma)) cursor.old result cursor.new }
{
    let mut found = Items::new(alloc);
    let first = cursor.named(alloc)?;
    found.push(first)?;
    for _turn in 0..cursor.left() {
        if !cursor.eat(Symbol::Comma) {
            break;
        }
        if !sees_name(cursor) {
            return Ok((found, true));
        }
        let next = cursor.named(alloc)?;
        found.push(next)?;
    }
    Ok((found, false))
}

/// A sig with its members.
pub fn enumeration(alloc: Global, cursor: &mut Cursor<'_>) -> Result<Enumeration, Fault>
    ensures right { IfOk result (λ found. IsTrue (enum_right found)) }
    ensures reads { Reads enum_words cursor.old result cursor.new }
{
    let place = cursor.place();
    expect_word(cursor, Word::Enum)?;
    let name = cursor.named(alloc)?;
    cursor.expect(Symbol::OpenBrace)?;
    let (members, has_comma) = member_list(alloc, cursor)?;
    cursor.expect(Symbol::CloseBrace)?;
    Ok(Enumeration {
        place,
        name,
        members,
        has_comma,
    })
}
