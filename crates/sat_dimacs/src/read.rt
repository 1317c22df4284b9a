//! Reading clauses from a text, or the first rule of C01 to C04 that the text breaks.

ghost use Rattle.std.specs.Prelude.{◌≡◌, ◌++◌, ◌∷◌, [], ◌+◌, ◌≤◌, ◌<◌, ◌^◌, ℕ, max, length, option_copied, OnOk, IfOk, IfSome, IsNone};
ghost use Rattle.base_words.specs.Words.{parts, other_parts, words};
ghost use Rattle.sat_dimacs.specs.Text.{take_word, take_words, take_line, last_line, end_line, ended, clauses_behind, is_p, is_cnf, header_of, is_silent, nothing_taken, formula_behind, formula_of};
ghost use Rattle.sat_dimacs.specs.Read.{IsTaken, Takes, Gives};

use crate::clause::{Clause, ClauseList};
use crate::cnf::Cnf;
use crate::{MOST_CLAUSES, MOST_VARIABLES};
use base_words::{decimal, is_comment, is_zero, literal, next_word, split_line};
use std::alloc::{AllocError, Global};
use std::mem;

/// Why a text is not read as clauses.
#[derive(Clone, Copy, Debug, PartialEq, Eq)]
pub enum CnfFault {
    /// The text breaks a rule. It is the first break in reading order, by its number and its line, counted from 1.
    ///
    /// 1, C01: the first line that is neither a comment nor blank isn't `p cnf V C`, with V and C at most 100,000,000.
    /// 2, C02: a word is neither `0` nor a literal of a variable from 1 to V.
    /// 3, C03: the number of clauses isn't C.
    /// 4, C04: the text ends inside a clause.
    Refused { rule: u8, line: u32 },
    /// Memory was refused.
    Memory,
}

/// Why a word is not taken.
#[derive(Clone, Copy, Debug, PartialEq, Eq)]
enum WordFault {
    Stop,
    Memory,
}

impl From<AllocError> for WordFault {
    ghost use Rattle.std.specs.Prelude.{◌≡◌};
    ghost use Rattle.sat_dimacs.specs.declared.read.WordFault.TheVariants.{Memory};

    ghost from_gives = { λ _ fault. fault ≡ Memory };

    fn from(_error: AllocError) -> Self {
        WordFault::Memory
    }
}

/// The clauses that are closed, and the literals of the one that is open.
#[derive(Drop)]
struct Taken {
    closed: ClauseList,
    opened: Clause,
}

/// Closes the open clause.
fn close(alloc: Global, most: u64, taken: &mut Taken) -> Result<(), AllocError>
    requires { IsTaken most taken.old }
    ensures closed { OnOk result ((taken.new.closed ≡ taken.old.closed ++ taken.old.opened ∷ [])
        × (taken.new.opened ≡ [])) }
    ensures within { IsTaken most taken.new }
{
    let clause = mem::replace(&mut taken.opened, Clause::new(alloc));
    taken.closed.push(clause)
}

/// Takes a word.
fn take_word(alloc: Global, most: u64, taken: &mut Taken, word: &[u8]) -> Result<(), WordFault>
    requires within { IsTaken most taken.old }
    requires most { most ≤ MOST_VARIABLES }
    ensures takes { Takes result taken.new (take_word most taken.old word.now) }
    ensures within { IsTaken most taken.new }
{
    if is_zero(word) {
        close(alloc, most, taken)?;
        return Ok(());
    }
    let Some(literal) = literal(word, most) else {
        return Err(WordFault::Stop);
    };
    taken.opened.push(literal)?;
    Ok(())
}

/// Takes the words of a line.
fn take_words(alloc: Global, most: u64, taken: &mut Taken, line: &[u8]) -> Result<(), WordFault>
    requires within { IsTaken most taken.old }
    requires most { most ≤ MOST_VARIABLES }
    ensures takes { Takes result taken.new (take_words most taken.old (words line.now)) }
    ensures within { IsTaken most taken.new }
{
    let mut rest = line;
    while let Some((word, after)) = next_word(rest) {
        take_word(alloc, most, taken, word)?;
        rest = after;
    }
    Ok(())
}

/// Takes a line.
fn take_line(alloc: Global, most: u64, taken: &mut Taken, line: &[u8]) -> Result<(), WordFault>
    requires within { IsTaken most taken.old }
    requires most { most ≤ MOST_VARIABLES }
    ensures takes { Takes result taken.new (take_line most taken.old line.now) }
    ensures within { IsTaken most taken.new }
{
    if is_comment(line) {
        return Ok(());
    }
    take_words(alloc, most, taken, line)
}

/// Whether a word is the letter p.
fn is_p(word: &[u8]) -> bool
    ensures { result ≡ is_p word.now }
{
    match word {
        [letter] => *letter == b'p',
        _ => false,
    }
}

/// Whether a word is cnf.
fn is_cnf(word: &[u8]) -> bool
    ensures { result ≡ is_cnf word.now }
{
    match word {
        [first, second, third] => *first == b'c' && *second == b'n' && *third == b'f',
        _ => false,
    }
}

/// Reads the four words of a header.
fn read_header(line: &[u8]) -> Option<(u64, u64)>
    ensures header { result ≡ header_of (words line.now) }
    ensures bound { IfSome result (λ numbers. numbers.0 ≤ MOST_VARIABLES) }
{
    let (first, rest) = next_word(line)?;
    let (second, rest) = next_word(rest)?;
    let (third, rest) = next_word(rest)?;
    let (fourth, rest) = next_word(rest)?;
    if next_word(rest).is_some() || !is_p(first) || !is_cnf(second) {
        return None;
    }
    let variables = decimal(third, MOST_VARIABLES)?;
    let count = decimal(fourth, MOST_CLAUSES)?;
    Some((variables, count))
}

/// Whether a line is a comment or blank.
fn is_silent(line: &[u8]) -> bool
    ensures { result ≡ is_silent line.now }
{
    is_comment(line) || next_word(line).is_none()
}

/// The number of the last line, where so many lines stand before the last part of the text.
fn last_line(number: u32, part: &[u8]) -> u32
    requires { number + 1 < 2 ^ 32 }
    ensures { result ≡ last_line number (part.now ∷ []) }
{
    if part.is_empty() { number } else { number + 1 }
}

/// What the text has spelled at its end.
fn finish(variables: u64, count: u64, last: u32, taken: Taken) -> Result<Cnf, CnfFault>
    requires { IsTaken variables taken }
    ensures { Gives result (ended variables count last taken.closed taken.opened) }
{
    if !taken.opened.is_empty() {
        return Err(CnfFault::Refused {
            rule: 4,
            line: last,
        });
    }
    if taken.closed.len() as u64 != count {
        return Err(CnfFault::Refused {
            rule: 3,
            line: last,
        });
    }
    Ok(Cnf {
        variables,
        clauses: taken.closed,
    })
}

/// Reads the clauses that stand behind the header.
#[tactic(auto, using(crate::proofs::Lines::last_more))]
fn read_clauses(
    alloc: Global,
    variables: u64,
    count: u64,
    behind: Option<&[u8]>,
    header: u32,
) -> Result<Cnf, CnfFault>
    requires most { variables ≤ MOST_VARIABLES }
    requires few { IfSome behind (λ text. header + length text.now + 2 < 2 ^ 32) }
    requires header { 0 < header }
    ensures { Gives result (clauses_behind variables count
        (end_line header (option_copied behind.entry)) nothing_taken header
        (other_parts (option_copied behind.entry))) }
{
    let mut taken = Taken {
        closed: ClauseList::new(alloc),
        opened: Clause::new(alloc),
    };
    let Some(mut text) = behind else {
        return finish(variables, count, header, taken);
    };
    let mut number = header;
    'lines: loop {
        let (line, rest) = split_line(text);
        match take_line(alloc, variables, &mut taken, line) {
            Ok(()) => {}
            Err(WordFault::Stop) => return Err(CnfFault::Refused {
                rule: 2,
                line: number + 1,
            }),
            Err(WordFault::Memory) => return Err(CnfFault::Memory),
        }
        let Some(rest) = rest else {
            return finish(variables, count, last_line(number, line), taken);
        };
        number += 1;
        text = rest;
    }
}

/// Reads the clauses of a text in the DIMACS CNF format.
#[tactic(auto, using(crate::proofs::Lines::last_more, crate::proofs::Lines::last_whole))]
pub fn read_cnf(alloc: Global, bytes: &[u8]) -> Result<Cnf, CnfFault>
    requires { length bytes.now < 2 ^ 31 }
    ensures { Gives result (formula_of bytes.now) }
{
    let mut text = bytes;
    let mut number = 0;
    'lines: loop {
        let (line, rest) = split_line(text);
        if !is_silent(line) {
            let Some((variables, count)) = read_header(line) else {
                return Err(CnfFault::Refused {
                    rule: 1,
                    line: number + 1,
                });
            };
            return read_clauses(alloc, variables, count, rest, number + 1);
        }
        let Some(rest) = rest else {
            let line = last_line(number, line).max(1);
            return Err(CnfFault::Refused { rule: 1, line });
        };
        number += 1;
        text = rest;
    }
}
