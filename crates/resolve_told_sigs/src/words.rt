//! The words before sigs and fields, and the labels that their names make.

ghost use Rattle.std.specs.Prelude.{◌≡◌, ◌+◌, ◌++◌, string_bytes, IfOk, IsTrue};
ghost use Rattle.std.specs.List.{list_any};
ghost use Rattle.resolve_told_sigs.specs.Words.{IsQuoted, bound_word, core_word, field_label, is_field_word, is_qualifier, sig_label, sig_word, word_of};

use base_types::Position;
use core_tree::Multiplicity;
use std::alloc::{AllocError, Global};
use syntax_tree::{FieldWord, Multiplicity as Word, Qualifier};

/// Whether two texts are the same.
pub fn same_text(a: &str, b: &str) -> bool
    ensures { IsTrue result → a.now ≡ b.now }
{
    a.as_bytes() == b.as_bytes()
}

/// Whether two places are the same.
pub fn same_place(a: Position, b: Position) -> bool
    ensures { IsTrue result → a ≡ b }
{
    a.module == b.module && a.line == b.line && a.column == b.column
}

/// Whether two multiplicities are the same.
pub fn same_multiplicity(a: Multiplicity, b: Multiplicity) -> bool
    ensures { IsTrue result → a ≡ b }
{
    match a {
        Multiplicity::Set => matches!(b, Multiplicity::Set),
        Multiplicity::One => matches!(b, Multiplicity::One),
        Multiplicity::Lone => matches!(b, Multiplicity::Lone),
        Multiplicity::Some => matches!(b, Multiplicity::Some),
    }
}

/// Whether both are true or both are false.
pub fn same_bool(a: bool, b: bool) -> bool
    ensures { IsTrue result → a ≡ b }
{
    if a { b } else { !b }
}

/// The number of the next one.
pub fn next(number: u32) -> Result<u32, AllocError>
    ensures { IfOk result (λ n. n ≡ number + 1) }
{
    if number >= u32::MAX {
        // What is declared is counted by fewer numbers.
        return Err(AllocError);
    }
    Ok(number + 1)
}

/// Whether it is the word that is wanted.
fn is_field_word(wanted: FieldWord, word: FieldWord) -> bool
    ensures { result ≡ is_field_word wanted word }
{
    match wanted {
        FieldWord::Private => matches!(word, FieldWord::Private),
        FieldWord::Var => matches!(word, FieldWord::Var),
        FieldWord::Disj => matches!(word, FieldWord::Disj),
    }
}

/// Whether a word stands before the names of fields.
pub fn has_field_word(wanted: FieldWord, words: &[FieldWord]) -> bool
    ensures { result ≡ list_any (is_field_word wanted) words.now }
{
    for word in words {
        if is_field_word(wanted, *word) {
            return true;
        }
    }
    false
}

/// Whether it is the qualifier that is wanted.
fn is_qualifier(wanted: Qualifier, word: Qualifier) -> bool
    ensures { result ≡ is_qualifier wanted word }
{
    match wanted {
        Qualifier::Private => matches!(word, Qualifier::Private),
        Qualifier::Var => matches!(word, Qualifier::Var),
        Qualifier::Abstract => matches!(word, Qualifier::Abstract),
        Qualifier::Lone => matches!(word, Qualifier::Lone),
        Qualifier::One => matches!(word, Qualifier::One),
        Qualifier::Some => matches!(word, Qualifier::Some),
    }
}

/// Whether a word stands before `sig`.
pub fn has_qualifier(wanted: Qualifier, words: &[Qualifier]) -> bool
    ensures { result ≡ list_any (is_qualifier wanted) words.now }
{
    for word in words {
        if is_qualifier(wanted, *word) {
            return true;
        }
    }
    false
}

/// The multiplicity that a word before `sig` is, if any.
fn word_of(qualifier: Qualifier) -> Option<Multiplicity>
    ensures { result ≡ word_of qualifier }
{
    match qualifier {
        Qualifier::Private => None,
        Qualifier::Var => None,
        Qualifier::Abstract => None,
        Qualifier::Lone => Some(Multiplicity::Lone),
        Qualifier::One => Some(Multiplicity::One),
        Qualifier::Some => Some(Multiplicity::Some),
    }
}

/// The multiplicity of a sig: its word, else `set`.
pub fn sig_word(qualifiers: &[Qualifier]) -> Multiplicity
    ensures { result ≡ sig_word qualifiers.now }
{
    for qualifier in qualifiers {
        match word_of(*qualifier) {
            None => {}
            Some(word) => return word,
        }
    }
    Multiplicity::Set
}

/// A multiplicity word of the text in the terms of the model.
fn core_word(word: Word) -> Multiplicity
    ensures { result ≡ core_word word }
{
    match word {
        Word::Set => Multiplicity::Set,
        Word::One => Multiplicity::One,
        Word::Lone => Multiplicity::Lone,
        Word::Some => Multiplicity::Some,
    }
}

/// The multiplicity of the bound of a field of so many columns.
pub fn bound_word(word: Option<Word>, columns: u32) -> Multiplicity
    ensures { result ≡ bound_word word columns }
{
    match word {
        Some(word) => core_word(word),
        None => {
            if columns == 2 {
                Multiplicity::One
            } else {
                Multiplicity::Set
            }
        }
    }
}

/// Two texts with another one between them.
fn joined(alloc: Global, first: &str, between: &str, second: &str) -> Result<String, AllocError>
    ensures { IfOk result (λ t. string_bytes t ≡ first.now ++ (between.now ++ second.now)) }
{
    let mut text = String::from_str(alloc, first)?;
    text.push_str(between)?;
    text.push_str(second)?;
    Ok(text)
}

/// Whether it is the label of the sig of this name in an instance of this label.
pub fn is_sig_label(alloc: Global, whole: &str, label: &str, name: &str) -> Result<bool, AllocError>
    ensures { IfOk result (λ b. IsTrue b → whole.now ≡ sig_label label.now name.now) }
{
    if label.is_empty() {
        return Ok(same_text(whole, name));
    }
    let made = joined(alloc, label, "/", name)?;
    Ok(same_text(whole, made.as_str()))
}

/// Whether it is the label of the field of this name of a sig of this label.
pub fn is_field_label(
    alloc: Global,
    whole: &str,
    label: &str,
    name: &str,
) -> Result<bool, AllocError>
    ensures { IfOk result (λ b. IsTrue b → whole.now ≡ field_label label.now name.now) }
{
    let made = joined(alloc, label, ".", name)?;
    Ok(same_text(whole, made.as_str()))
}

/// Whether a text stands in quotes.
pub fn is_quoted(text: &str) -> bool
    ensures { IsTrue result → IsQuoted text.now }
{
    let bytes = text.as_bytes();
    bytes.len() >= 2 && bytes[0] == 34 && bytes[bytes.len() - 1] == 34
}
