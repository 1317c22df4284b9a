//! The verdict on two texts, the line that tells it, and the status that a program ends with.

ghost use Rattle.std.specs.Prelude.{◌≡◌, ◌+◌, ◌≤◌, ◌<◌, ◌^◌, length, IfOk, List, ℤ};
ghost use Rattle.sat_lrat.specs.declared.line.Line.{Line};
ghost use Rattle.sat_lrat.specs.Step.{Follows, IsUnsatisfiable};
ghost use Rattle.sat_checker.specs.Answers.{rule_of, kind_of};
ghost use Rattle.sat_dimacs.specs.Text.{formula_of};
ghost use Rattle.std.specs.Prelude.{string_bytes, ℕ, IfSome, IsSome};
ghost use Rattle.sat_lrat.specs.Text.{Found, read_from};
ghost use Rattle.sat_verdict.specs.Mode.{status_of, message_of, line_number, lemmas_of, Ends, IsVerdict, NoneSatisfies, IsTurn, IfOn, IsSoundTurn};

use sat_checker::{Checker, LineFault, Step};
use sat_dimacs::{CnfFault, read_cnf};
use sat_lrat::{Line, LratFault, ReadLine, read_line};
use std::alloc::{AllocError, Global};

/// What two texts come to. A rule is told by its number, and a line by its number from 1 on.
#[derive(Clone, Copy, Debug, PartialEq, Eq)]
pub enum Verdict {
    /// The lines of the second text refute the clauses of the first.
    Refuted,
    /// The first line with a fault stands before any refuting lemma, and breaks a rule from L1 to L5.
    Rejected { rule: u8, line: usize },
    /// Each line passes and no lemma is empty. There are so many lemmas.
    Unfinished { lemmas: u64 },
    /// The first text breaks a rule from C01 to C04.
    BadCnf { rule: u8, line: u32 },
    /// The first line with a fault stands before any refuting lemma, and breaks a rule from C11 to C13.
    BadProof { rule: u8, line: usize },
}

/// The number of the line that begins at a place.
fn line_number(text: &[u8], place: usize) -> usize
    requires { place < length text.now }
    ensures { result ≡ line_number text.now place }
{
    let (front, _) = text.split_at(place);
    front.iter().filter(|byte| **byte == b'\n').count() + 1
}

/// The number of the rule that is broken.
fn rule_number(fault: LineFault) -> Option<u8>
    ensures { result ≡ rule_of fault }
{
    match fault {
        LineFault::L1 => Some(1),
        LineFault::L2 => Some(2),
        LineFault::L3 => Some(3),
        LineFault::L4 => Some(4),
        LineFault::L5 => Some(5),
        LineFault::Memory => None,
    }
}

/// What a line comes to.
#[derive(Clone, Copy, Debug, PartialEq, Eq)]
enum Turn {
    /// The reading is over.
    Over(Verdict),
    /// It goes on at a place, behind so many lemmas.
    On { next: usize, lemmas: u64 },
}

/// What a fault comes to, where it is a broken rule.
fn rejected(fault: LineFault, proof: &[u8], start: usize) -> Result<Turn, AllocError>
    requires { start < length proof.now }
    ensures turn { IfOk result (λ turn. IfSome (rule_of fault)
        (λ rule. turn ≡ Turn.Over (Verdict.Rejected rule (line_number proof.now start)))) }
    ensures rule { IfOk result (λ turn. IsSome (rule_of fault)) }
{
    match rule_number(fault) {
        Some(rule) => {
            let line = line_number(proof, start);
            Ok(Turn::Over(Verdict::Rejected { rule, line }))
        }
        None => Err(AllocError),
    }
}

/// Takes a line that was read.
fn take_line(
    checker: &mut Checker,
    proof: &[u8],
    line: &Line,
    start: usize,
    next: usize,
    lemmas: u64,
) -> Result<Turn, AllocError>
    requires start { start < length proof.now }
    requires few { lemmas + 1 < 2 ^ 64 }
    ensures turn { (from : ℕ) → read_from proof.now from ≡ Found line.now start next →
        IfOk result (λ turn. IsTurn proof.now from lemmas checker.old checker.new turn) }
    ensures places { IfOk result (λ turn. IfOn turn
        (λ place count. (place ≡ next) × (count ≤ lemmas + 1))) }
    ensures sound { (formula : List (List ℤ)) → Follows formula checker.old →
        IfOk result (λ turn. IsSoundTurn formula checker.new turn) }
{
    match checker.add(line) {
        Ok(Step::Refuted) => Ok(Turn::Over(Verdict::Refuted)),
        Ok(Step::Added) => {
            let lemmas = lemmas + 1;
            Ok(Turn::On { next, lemmas })
        }
        Ok(Step::Deleted) => Ok(Turn::On { next, lemmas }),
        Err(fault) => rejected(fault, proof, start),
    }
}

/// Reads a line and takes it.
fn read_turn(
    alloc: Global,
    checker: &mut Checker,
    proof: &[u8],
    from: usize,
    lemmas: u64,
) -> Result<Turn, AllocError>
    requires from { from ≤ length proof.now }
    requires few { lemmas + 1 < 2 ^ 64 }
    ensures turn { IfOk result (λ turn. IsTurn proof.now from lemmas checker.old checker.new turn) }
    ensures places { IfOk result (λ turn. IfOn turn
        (λ place count. (from < place) × (place ≤ length proof.now) × (count ≤ lemmas + 1))) }
    ensures sound { (formula : List (List ℤ)) → Follows formula checker.old →
        IfOk result (λ turn. IsSoundTurn formula checker.new turn) }
{
    match read_line(alloc, proof, from) {
        Ok(ReadLine::Line(line, start, next)) => take_line(
            checker, proof, &line, start, next, lemmas,
        ),
        Ok(ReadLine::Ended) => Ok(Turn::Over(Verdict::Unfinished { lemmas })),
        Err(LratFault::Refused { rule, start }) => {
            let line = line_number(proof, start);
            Ok(Turn::Over(Verdict::BadProof { rule, line }))
        }
        Err(LratFault::Memory) => Err(AllocError),
    }
}

/// Checks the lines of a text.
fn check_lines(alloc: Global, mut checker: Checker, proof: &[u8]) -> Result<Verdict, AllocError>
    ensures verdict { IfOk result (λ verdict. Ends proof.now 0 0 checker verdict) }
    ensures refuted { (formula : List (List ℤ)) → Follows formula checker →
        IfOk result (λ verdict. verdict ≡ Verdict.Refuted → IsUnsatisfiable formula) }
{
    let mut from = 0;
    let mut lemmas = 0;
    'lines: loop {
        match read_turn(alloc, &mut checker, proof, from, lemmas)? {
            Turn::Over(verdict) => return Ok(verdict),
            Turn::On {
                next,
                lemmas: count,
            } => {
                from = next;
                lemmas = count;
            }
        }
    }
}

/// Checks whether the lines of the second text refute the clauses of the first. An error is want of memory alone.
pub fn check_texts(alloc: Global, cnf: &[u8], proof: &[u8]) -> Result<Verdict, AllocError>
    requires { length cnf.now < 2 ^ 31 }
    // The verdict is that on the two texts.
    ensures verdict { IfOk result (IsVerdict cnf.now proof.now) }
    // Where it is `Refuted`, no assignment satisfies the clauses.
    ensures refuted { IfOk result (λ verdict. verdict ≡ Verdict.Refuted →
        NoneSatisfies (formula_of cnf.now)) }
{
    let formula = match read_cnf(alloc, cnf) {
        Ok(formula) => formula,
        Err(CnfFault::Refused { rule, line }) => return Ok(Verdict::BadCnf { rule, line }),
        Err(CnfFault::Memory) => return Err(AllocError),
    };
    let checker = Checker::new(alloc, &formula)?;
    check_lines(alloc, checker, proof)
}

/// The status that a program ends with by a verdict: 0 for `Refuted`, 1 where the proof does not refute, and 3 where a text
/// breaks the rules of its format.
pub fn status_of(verdict: Verdict) -> u8
    ensures { result ≡ status_of verdict }
{
    match verdict {
        Verdict::Refuted => 0,
        Verdict::Rejected { .. } | Verdict::Unfinished { .. } => 1,
        Verdict::BadCnf { .. } | Verdict::BadProof { .. } => 3,
    }
}

/// The line that tells a verdict on two files of these names, without a line feed.
pub fn message_of(
    alloc: Global,
    verdict: Verdict,
    cnf: &str,
    proof: &str,
) -> Result<String, AllocError>
    ensures { IfOk result (λ text. string_bytes text ≡ message_of verdict cnf.now proof.now) }
{
    match verdict {
        Verdict::Refuted => format!(in alloc; "refuted"),
        Verdict::Rejected { rule, line } => format!(in alloc; "rejected L{rule} line {line}"),
        Verdict::Unfinished { lemmas } => format!(in alloc; "unfinished {lemmas}"),
        Verdict::BadCnf { rule, line } => format!(in alloc; "refused C0{rule} {cnf}:{line}"),
        Verdict::BadProof { rule, line } => format!(in alloc; "refused C{rule} {proof}:{line}"),
    }
}
