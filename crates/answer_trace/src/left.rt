//! The lines of a text that are left to be read.

ghost use Rattle.std.specs.Prelude.{◌≡◌, ◌∷◌, [], ◌+◌, ◌<◌, ◌^◌, length, IfSome, IfNone, IsTrue, ◌↔◌};
ghost use Rattle.base_words.specs.Words.{parts};
ghost use Rattle.answer_trace.specs.Reading.{is_over};

use base_words::split_line;
use std::marker::Model;

/// What is left of a text, and how many lines were taken before it.
#[derive(Drop)]
pub struct Left<'a> {
    bytes: &'a [u8],
    lines: u64,
}

impl<'a> Model for Left<'a> {
    ghost use Rattle.std.specs.Prelude.{◌+◌, ◌<◌, ◌^◌, length};
    ghost use Rattle.answer_trace.specs.Unread.{Unread};

    ghost Value = { Unread };

    ghost view = { λ l. record { bytes = l.bytes.now; lines = l.lines } };

    ghost invariant = { λ l. l.lines + length l.bytes.now < 2 ^ 63 };
}

impl<'a> Left<'a> {
    /// A text of which nothing was taken.
    pub fn new(bytes: &'a [u8]) -> Left<'a>
        ensures { result ≡ record { bytes = bytes.now; lines = 0 } }
    {
        Left { bytes, lines: 0 }
    }

    /// How many lines were taken.
    pub fn lines(&self) -> u64
        ensures value { result ≡ self.now.lines }
        ensures bound { result < 2 ^ 63 }
    {
        // for the proof: a field is read, so that the invariant of the bytes and their lines is at
        // hand
        let _ = self.bytes;
        self.lines
    }

    /// The next line, and what follows its line feed. There is `None` where no line feed ends it.
    pub fn next(&self) -> Option<(&'a [u8], &'a [u8])>
        ensures line { IfSome result (λ found. parts self.now.bytes
            ≡ found.0.now ∷ parts found.1.now) }
        ensures shorter { IfSome result (λ found. length found.1.now < length self.now.bytes) }
        ensures last { IfNone result (parts self.now.bytes ≡ self.now.bytes ∷ []) }
    {
        match split_line(self.bytes) {
            (_, None) => None,
            (line, Some(rest)) => Some((line, rest)),
        }
    }

    /// Goes on behind the next line.
    pub fn go_to(&mut self, rest: &'a [u8])
        requires { length rest.now < length self.old.bytes }
        ensures { self.new ≡ record { bytes = rest.now; lines = self.old.lines + 1 } }
    {
        self.bytes = rest;
        self.lines += 1;
    }

    /// Whether nothing is left.
    #[tactic(auto, using(crate::proofs::Lines::over_at))]
    pub fn is_over(&self) -> bool
        ensures { result ≡ is_over (parts self.now.bytes) }
    {
        self.bytes.is_empty()
    }
}
