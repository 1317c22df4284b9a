//! Reading the words of one line, or which rule of C11 to C13 they break.

ghost use Rattle.std.specs.Prelude.{◌≡◌, [], Ok, Err};
ghost use Rattle.base_words.specs.Words.{words};
ghost use Rattle.sat_lrat.specs.Text.{short, is_negative, is_deletion, alone, numbers_after, lemma_after, line_of, body_of};
ghost use Rattle.sat_lrat.specs.Read.{Spells};

use crate::line::{Hints, Line};
use crate::{MOST_NUMBER, MOST_VARIABLE};
use base_words::{is_zero, literal, next_word, positive};
use sat_dimacs::Clause;
use std::alloc::{AllocError, Global};

/// Why the words of a line are no line.
#[derive(Clone, Copy, Debug, PartialEq, Eq)]
pub(crate) enum WordFault {
    /// The number of the rule that they break.
    Rule(u8),
    Memory,
}

impl From<AllocError> for WordFault {
    ghost use Rattle.std.specs.Prelude.{◌≡◌};
    ghost use Rattle.sat_lrat.specs.declared.words.WordFault.TheVariants.{Memory};

    ghost from_gives = { λ _ fault. fault ≡ Memory };

    fn from(_error: AllocError) -> Self {
        WordFault::Memory
    }
}

/// The rule that is broken where the words end too early.
fn short(cut: bool) -> WordFault
    ensures { result ≡ WordFault.Rule (short cut) }
{
    if cut {
        WordFault::Rule(13)
    } else {
        WordFault::Rule(11)
    }
}

/// Whether a word is a minus and then a number.
fn is_negative(word: &[u8]) -> bool
    ensures { result ≡ is_negative word.now }
{
    match word {
        [first, digits @ ..] if *first == b'-' => positive(digits, MOST_NUMBER).is_some(),
        _ => false,
    }
}

/// Whether a word is the letter d.
fn is_deletion(word: &[u8]) -> bool
    ensures { result ≡ is_deletion word.now }
{
    match word {
        [letter] => *letter == b'd',
        _ => false,
    }
}

/// Reads numbers up to the word 0, which ends the line.
fn read_numbers(alloc: Global, line: &[u8], cut: bool, minus: u8) -> Result<Hints, WordFault>
    ensures { Spells result (numbers_after cut minus [] (words line.now)) }
{
    let mut hints = Hints::new(alloc);
    let mut rest = line;
    while let Some((word, after)) = next_word(rest) {
        if is_zero(word) {
            return finish(hints, after);
        }
        match positive(word, MOST_NUMBER) {
            Some(number) => hints.push(number)?,
            None => return Err(WordFault::Rule(if is_negative(word) { minus } else { 11 })),
        }
        rest = after;
    }
    Err(short(cut))
}

/// The numbers, if nothing follows them.
fn finish(hints: Hints, rest: &[u8]) -> Result<Hints, WordFault>
    ensures { Spells result (alone hints (words rest.now)) }
{
    match next_word(rest) {
        None => Ok(hints),
        Some(_) => Err(WordFault::Rule(11)),
    }
}

/// Reads literals up to the word 0, and then hints.
fn read_lemma(alloc: Global, id: u64, line: &[u8], cut: bool) -> Result<Line, WordFault>
    ensures { Spells result (lemma_after cut id [] (words line.now)) }
{
    let mut clause = Clause::new(alloc);
    let mut rest = line;
    while let Some((word, after)) = next_word(rest) {
        if is_zero(word) {
            let hints = read_numbers(alloc, after, cut, 12)?;
            return Ok(Line::Lemma { id, clause, hints });
        }
        match literal(word, MOST_VARIABLE) {
            Some(literal) => clause.push(literal)?,
            None => return Err(WordFault::Rule(11)),
        }
        rest = after;
    }
    Err(short(cut))
}

/// Reads what follows the number of a line.
fn read_body(alloc: Global, id: u64, line: &[u8], cut: bool) -> Result<Line, WordFault>
    ensures { Spells result (body_of cut id (words line.now)) }
{
    match next_word(line) {
        None => Err(short(cut)),
        Some((word, rest)) if is_deletion(word) => {
            let ids = read_numbers(alloc, rest, cut, 11)?;
            Ok(Line::Delete { ids })
        }
        Some(_) => read_lemma(alloc, id, line, cut),
    }
}

/// Reads the words of a line.
pub(crate) fn read_words(alloc: Global, line: &[u8], cut: bool) -> Result<Line, WordFault>
    ensures { Spells result (line_of cut (words line.now)) }
{
    let Some((word, rest)) = next_word(line) else {
        return Err(short(cut));
    };
    match positive(word, MOST_NUMBER) {
        None => Err(WordFault::Rule(11)),
        Some(id) => read_body(alloc, id, rest, cut),
    }
}
