//! An answer is a status and a text.

ghost use Rattle.std.specs.Prelude.{◌≡◌, IfOk, string_bytes};
ghost use Rattle.cli_model.specs.Answer.{text_of, status_of, checked_line, fault_line, refused_line, numbered_line};

use answer_judge::TraceAnswer;
use base_types::{Bytes, Name, Position, Refusal};
use sat_verdict::{Verdict, message_of, status_of as verdict_status};
use std::alloc::{AllocError, Global};

/// What the program has to say.
#[derive(Drop)]
pub enum Answer {
    /// The words give no settings that fit.
    Usage,
    /// The text of this name breaks a static rule.
    Refused(Refusal, Name),
    /// A library failed at this name.
    ReadFault(Name),
    /// There is a trace; the text shows it.
    Trace(Bytes),
    /// There is no trace; the text says so.
    Refuted(Bytes),
    /// The budget of a search is spent; the text shows it.
    Unknown(Bytes),
    /// The text sums up what was found on a model that was made.
    Made(Bytes),
    /// The text lists the commands of a module.
    Listed(Bytes),
    /// What the lines of the second file come to for the clauses of the first, and the names of the
    /// two.
    Checked(Verdict, Name, Name),
    /// What is said of the trace in the file of this name.
    Traced(TraceAnswer, Name),
}

impl Answer {
    /// The status that the program ends with once this is written.
    pub fn status(&self) -> u8
        ensures { result ≡ status_of self.now }
    {
        match self {
            Answer::Usage => 2,
            Answer::Refused(_, _) => 3,
            Answer::ReadFault(_) => 4,
            Answer::Trace(_) => 10,
            Answer::Refuted(_) => 20,
            Answer::Unknown(_) => 30,
            Answer::Made(_) => 0,
            Answer::Listed(_) => 0,
            Answer::Checked(verdict, _, _) => verdict_status(*verdict),
            Answer::Traced(said, _) => said.status(),
        }
    }

    /// The text; each of its lines is ended by a line feed. Where the answer has it, it is moved
    /// out and not copied.
    pub fn into_text(self, alloc: Global) -> Result<Bytes, AllocError>
        ensures { IfOk result (λ text. text ≡ text_of self) }
    {
        match self {
            Answer::Usage => Bytes::copy(
                alloc,
                b"usage: alloyc MODE FILE [SECOND] [--command N] [--conflicts N] [--part PART] [--chooser N] [--expr E] [--at N]\n",
            ),
            Answer::Refused(refusal, name) => refused(alloc, &refusal, name.text()),
            Answer::ReadFault(name) => fault(alloc, name.text()),
            Answer::Trace(text) => Ok(text),
            Answer::Refuted(text) => Ok(text),
            Answer::Unknown(text) => Ok(text),
            Answer::Made(text) => Ok(text),
            Answer::Listed(text) => Ok(text),
            Answer::Checked(verdict, clauses, lines) => {
                checked(alloc, verdict, clauses.text(), lines.text())
            }
            Answer::Traced(said, second) => said.text(alloc, second.text()),
        }
    }
}

/// The line of a library's fault.
fn fault(alloc: Global, name: &str) -> Result<Bytes, AllocError>
    ensures { IfOk result (λ text. text ≡ fault_line name.now) }
{
    let line = format!(in alloc; "fault read {name}\n")?;
    Bytes::copy(alloc, line.as_bytes())
}

/// The line of a checked proof.
fn checked(alloc: Global, verdict: Verdict, clauses: &str, lines: &str) -> Result<Bytes, AllocError>
    ensures { IfOk result (λ text. text ≡ checked_line verdict clauses.now lines.now) }
{
    let mut line = message_of(alloc, verdict, clauses, lines)?;
    line.push_str("\n")?;
    Bytes::copy(alloc, line.as_bytes())
}

/// The line of a refusal.
fn refused(alloc: Global, refusal: &Refusal, name: &str) -> Result<Bytes, AllocError>
    ensures { IfOk result (λ text. text ≡ refused_line refusal.now name.now) }
{
    let number = refusal.rule.number();
    let line = numbered(alloc, number / 10, number % 10, name, refusal.place)?;
    Bytes::copy(alloc, line.as_bytes())
}

/// The same, with the two digits of the rule's number.
fn numbered(
    alloc: Global,
    tens: u8,
    ones: u8,
    name: &str,
    place: Position,
) -> Result<String, AllocError>
    ensures { IfOk result (λ text. string_bytes text ≡ numbered_line tens ones name.now place) }
{
    let line = place.line;
    let column = place.column;
    format!(in alloc; "refused S{tens}{ones} {name}:{line}:{column}\n")
}
