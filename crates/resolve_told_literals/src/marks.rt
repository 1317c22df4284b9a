//! The literals that texts write are marked among the sigs.

ghost use Rattle.std.specs.Prelude.{◌≡◌, ◌≤◌, ◌<◌, ℕ, List, Contains, true, Some, length, slice_get, slice_set, IfOk, IsTrue};
ghost use Rattle.syntax_tree.specs.declared.token.TokenKind.TheVariants as kind;
ghost use Rattle.indexmap.specs.IndexMap.{get_by_text};
ghost use Rattle.resolve_names.specs.Gathered.{module_of};
ghost use Rattle.resolve_told_literals.specs.Told.{IsWritten, Writes};
ghost use Rattle.resolve_told_literals.specs.Marks.{AreFound, AreMarked};

use crate::labels::literal_number;
use indexmap::IndexMap;
use std::alloc::{AllocError, Global};
use syntax_printer::spell;
use syntax_tree::{Instance, Loaded, TextList, TokenKind};

/// Marks a number; whether there is one.
fn mark(number: usize, marks: &mut Vec<bool>) -> bool
    ensures { IsTrue result → marks.new.items ≡ slice_set marks.old.items number true }
{
    if number >= marks.len() {
        return false;
    }
    marks[number] = true;
    true
}

/// Marks the sig of a literal; whether there is one.
fn mark_literal(
    alloc: Global,
    numbers: &IndexMap<String, usize>,
    text: &str,
    marks: &mut Vec<bool>,
) -> Result<bool, AllocError>
    ensures { IfOk result (λ b. IsTrue b → AreMarked (get_by_text numbers.now)
        (λ (t : List ℕ). text.now ≡ t) marks.old.items marks.new.items) }
{
    match literal_number(alloc, numbers, text)? {
        None => Ok(false),
        Some(number) => Ok(mark(number, marks)),
    }
}

/// Marks the sig of a token, where it is a literal; whether there is one.
fn mark_token(
    alloc: Global,
    numbers: &IndexMap<String, usize>,
    token: &TokenKind,
    marks: &mut Vec<bool>,
) -> Result<bool, AllocError>
    ensures { IfOk result (λ b. IsTrue b → AreMarked (get_by_text numbers.now)
        (λ (t : List ℕ). token.now ≡ kind.Literal t) marks.old.items marks.new.items) }
{
    match token {
        TokenKind::Literal(text) => {
            let is_marked = mark_literal(alloc, numbers, text.text(), marks)?;
            Ok(is_marked)
        }
        TokenKind::Name(_) => Ok(true),
        TokenKind::Number(_) => Ok(true),
        TokenKind::Word(_) => Ok(true),
        TokenKind::Symbol(_) => Ok(true),
        TokenKind::End => Ok(true),
    }
}

/// Marks the sigs of the literals among tokens; whether each has one.
fn mark_tokens(
    alloc: Global,
    numbers: &IndexMap<String, usize>,
    tokens: &[TokenKind],
    marks: &mut Vec<bool>,
) -> Result<bool, AllocError>
    ensures { IfOk result (λ b. IsTrue b → AreMarked (get_by_text numbers.now)
        (λ (t : List ℕ). Contains tokens.now (kind.Literal t)) marks.old.items marks.new.items) }
{
    for token in tokens {
        if !mark_token(alloc, numbers, token, marks)? {
            return Ok(false);
        }
    }
    Ok(true)
}

/// Marks the sigs of the literals in the text of an instance; whether each has one.
fn mark_instance(
    alloc: Global,
    texts: &TextList,
    numbers: &IndexMap<String, usize>,
    instance: &Instance,
    marks: &mut Vec<bool>,
) -> Result<bool, AllocError>
    ensures { IfOk result (λ b. IsTrue b → AreMarked (get_by_text numbers.now)
        (Writes (module_of texts.now instance.now)) marks.old.items marks.new.items) }
{
    let place = instance.text as usize;
    if place >= texts.len() {
        // Each instance has a text.
        return Ok(false);
    }
    let text = texts.get(place);
    let tokens = spell(alloc, &text.tree)?;
    let is_marked = mark_tokens(alloc, numbers, tokens.as_slice(), marks)?;
    Ok(is_marked)
}

/// Marks the sigs of the literals in the texts of all instances; whether each has one.
fn mark_instances(
    alloc: Global,
    loaded: &Loaded,
    numbers: &IndexMap<String, usize>,
    marks: &mut Vec<bool>,
) -> Result<bool, AllocError>
    ensures { IfOk result (λ b. IsTrue b → AreMarked (get_by_text numbers.now)
        (IsWritten loaded.now.texts loaded.now.instances) marks.old.items marks.new.items) }
{
    for instance in loaded.instances.as_slice() {
        if !mark_instance(alloc, &loaded.texts, numbers, instance, marks)? {
            return Ok(false);
        }
    }
    Ok(true)
}

/// Whether all numbers from this one on are marked.
fn are_marked(marks: &[bool], first: usize) -> bool
    ensures { IsTrue result → (n : ℕ) → first ≤ n → n < length marks.now
        → slice_get marks.now n ≡ Some true }
{
    for number in first..marks.len() {
        let is_marked = marks[number];
        if !is_marked {
            return false;
        }
    }
    true
}

/// Whether each literal in the texts of the instances has a sig, and each of so many sigs, from this number on, is that of one.
pub fn are_found(
    alloc: Global,
    loaded: &Loaded,
    numbers: &IndexMap<String, usize>,
    first: usize,
    count: usize,
) -> Result<bool, AllocError>
    ensures { IfOk result (λ b. IsTrue b → AreFound (get_by_text numbers.now)
        (IsWritten loaded.now.texts loaded.now.instances) first count) }
{
    let mut marks = vec![in alloc; false; count]?;
    if !mark_instances(alloc, loaded, numbers, &mut marks)? {
        return Ok(false);
    }
    Ok(are_marked(marks.as_slice(), first))
}
