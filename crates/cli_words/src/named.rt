//! What is chosen by a word: the mode, and the part of the answer that is written.

ghost use Rattle.std.specs.Prelude.{◌≡◌};
ghost use Rattle.cli_words.specs.Named.{mode_named, later_mode_named, part_named, takes_second, searches};

/// What a run does.
#[derive(Clone, Copy, Debug, PartialEq, Eq)]
pub enum Mode {
    /// Searches for a trace of a command.
    Exec,
    /// Lists the commands.
    Commands,
    /// Checks a refutation.
    Lrat,
    /// Generates the model of a leader election in a ring and searches for its trace.
    Make,
    /// Judges a trace.
    Replay,
    /// Evaluates an expression in a trace.
    Eval,
    /// Searches for a trace of fewest states.
    Least,
    /// Names facts that rule out every trace, found by deletion.
    Core,
}

/// Which part of an answer is written.
#[derive(Clone, Copy, Debug, PartialEq, Eq)]
pub enum Part {
    /// The trace, or the line that there is none.
    Answer,
    /// The clauses that were searched.
    Cnf,
    /// The refutation of these clauses.
    Proof,
    /// All three.
    All,
}

/// The mode of this name.
pub fn mode_named(name: &str) -> Option<Mode>
    ensures { result ≡ mode_named name.now }
{
    if name == "exec" {
        Some(Mode::Exec)
    } else if name == "commands" {
        Some(Mode::Commands)
    } else if name == "lrat" {
        Some(Mode::Lrat)
    } else if name == "make" {
        Some(Mode::Make)
    } else {
        later_mode_named(name)
    }
}

/// The same of the other four modes.
fn later_mode_named(name: &str) -> Option<Mode>
    ensures { result ≡ later_mode_named name.now }
{
    if name == "replay" {
        Some(Mode::Replay)
    } else if name == "eval" {
        Some(Mode::Eval)
    } else if name == "least" {
        Some(Mode::Least)
    } else if name == "core" {
        Some(Mode::Core)
    } else {
        None
    }
}

/// The part of this name.
pub fn part_named(name: &str) -> Option<Part>
    ensures { result ≡ part_named name.now }
{
    if name == "answer" {
        Some(Part::Answer)
    } else if name == "cnf" {
        Some(Part::Cnf)
    } else if name == "proof" {
        Some(Part::Proof)
    } else if name == "all" {
        Some(Part::All)
    } else {
        None
    }
}

impl Mode {
    /// Whether the mode takes a second file.
    pub fn takes_second(&self) -> bool
        ensures { result ≡ takes_second self.now }
    {
        match self {
            Mode::Lrat | Mode::Replay | Mode::Eval => true,
            Mode::Exec | Mode::Commands | Mode::Make | Mode::Least | Mode::Core => false,
        }
    }

    /// Whether the mode searches, and so needs a chooser.
    pub fn searches(&self) -> bool
        ensures { result ≡ searches self.now }
    {
        match self {
            Mode::Exec | Mode::Make | Mode::Least | Mode::Core => true,
            Mode::Commands | Mode::Lrat | Mode::Replay | Mode::Eval => false,
        }
    }
}
