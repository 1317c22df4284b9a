//! Reading the lines of a text in the LRAT format, one at a time, or why there is none.

ghost use Rattle.std.specs.Prelude.{◌≤◌, ◌<◌, ◌^◌, length};
ghost use Rattle.std.specs.Prelude.{◌≡◌, ◌+◌, IfSome, IfNone, IfOk, IfErr, ℕ, false, option_copied};
ghost use Rattle.base_words.specs.Words.{words, other_parts};
ghost use Rattle.sat_lrat.specs.Text.{read_from, is_silent, is_last, behind, as_reading, line_of};
ghost use Rattle.sat_lrat.specs.Read.{Gives, HasPlaces, HasPlace};

use crate::line::Line;
use crate::words::{WordFault, read_words};
use base_words::{is_comment, next_word, split_line};
use std::alloc::Global;

/// What is read from a place of a text on.
#[derive(Debug, Drop)]
pub enum ReadLine {
    /// A line, the place of its first byte, and where the next line begins.
    Line(Line, usize, usize),
    /// No line is left.
    Ended,
}

/// Why no line is read.
#[derive(Clone, Copy, Debug, PartialEq, Eq)]
pub enum LratFault {
    /// A line has another form. It is told by the number of the rule and the place of the line's first byte.
    ///
    /// 12, C12: a negative hint, behind what is right so far.
    /// 13, C13: the text ends inside of a line that is right so far.
    /// 11, C11: anything else.
    Refused { rule: u8, start: usize },
    /// Memory was refused.
    Memory,
}

/// Whether a line is a comment or blank.
#[tactic(auto, using(crate::proofs::Places::spoken))]
fn is_silent(line: &[u8]) -> bool
    ensures silent { result ≡ is_silent line.now }
    ensures spoken { result ≡ false → 0 < length line.now }
{
    is_comment(line) || next_word(line).is_none()
}

/// Whether no line feed stands behind a line.
#[tactic(auto, using(crate::proofs::Places::not_last))]
fn is_last(rest: Option<&[u8]>) -> bool
    ensures { result ≡ is_last (other_parts (option_copied rest.entry)) }
{
    match rest {
        None => true,
        Some(_) => false,
    }
}

/// Where the line behind a line begins.
#[tactic(auto, using(crate::proofs::Places::behind_part))]
fn place_behind(start: usize, line: &[u8], rest: Option<&[u8]>) -> usize
    requires { start + length line.now + 1 < 2 ^ 64 }
    ensures place { result ≡ behind start line.now (other_parts (option_copied rest.entry)) }
    ensures next { IfSome rest.entry (λ text. result ≡ start + length line.now + 1) }
    ensures last { IfNone rest.entry (result ≡ start + length line.now) }
{
    match rest {
        None => start + line.len(),
        Some(_) => start + line.len() + 1,
    }
}

/// Reads the words of the line at a place.
fn read_at(
    alloc: Global,
    line: &[u8],
    cut: bool,
    start: usize,
    next: usize,
) -> Result<ReadLine, LratFault>
    ensures reading { Gives result (as_reading start next (line_of cut (words line.now))) }
    ensures places { (from total : ℕ) → from ≤ start → start < next → next ≤ total →
        IfOk result (HasPlaces from total) }
    ensures place { (from total : ℕ) → from ≤ start → start < next → next ≤ total →
        IfErr result (HasPlace from total) }
{
    match read_words(alloc, line, cut) {
        Ok(line) => Ok(ReadLine::Line(line, start, next)),
        Err(WordFault::Rule(rule)) => Err(LratFault::Refused { rule, start }),
        Err(WordFault::Memory) => Err(LratFault::Memory),
    }
}

/// Reads the first line that is neither a comment nor blank, from a place on.
///
/// The place is to be the text's begin, just past a line feed, or the text's end: a line is taken to begin there.
pub fn read_line(alloc: Global, bytes: &[u8], from: usize) -> Result<ReadLine, LratFault>
    requires { from ≤ length bytes.now }
    ensures reading { Gives result (read_from bytes.now from) }
    ensures places { IfOk result (HasPlaces from (length bytes.now)) }
    ensures place { IfErr result (HasPlace from (length bytes.now)) }
{
    let (_, mut text) = bytes.split_at(from);
    let mut start = from;
    'lines: loop {
        let (line, rest) = split_line(text);
        let next = place_behind(start, line, rest);
        if !is_silent(line) {
            return read_at(alloc, line, is_last(rest), start, next);
        }
        let Some(rest) = rest else {
            return Ok(ReadLine::Ended);
        };
        text = rest;
        start = next;
    }
}
