//! A chooser for tests that always answers one number: a search has to stand whatever it is told.

use crate::chooser::Chooser;
use std::alloc::AllocError;

/// Always picks one number, whether or not it is a literal of a free variable. It is there for tests.
#[derive(Drop)]
pub struct Lying {
    answer: i64,
}

impl Lying {
    /// The chooser that always answers this number.
    pub fn new(answer: i64) -> Lying {
        Lying { answer }
    }
}

impl Chooser for Lying {
    fn start(&mut self, _variables: u64) -> Result<(), AllocError> {
        Ok(())
    }

    fn pick(&mut self, _values: &[i8]) -> i64 {
        self.answer
    }

    fn bump(&mut self, _variable: i64) {}

    fn decay(&mut self) {}
}
