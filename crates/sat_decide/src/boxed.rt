//! A boxed chooser is a chooser, so that a program may decide which one it uses when it runs.

use crate::chooser::Chooser;
use std::alloc::AllocError;

/// A chooser in a box, as a chooser: each call is handed on to the one in the box.
#[derive(Drop)]
pub struct Boxed {
    pub chooser: Box<dyn Chooser>,
}

impl Chooser for Boxed {
    fn start(&mut self, variables: u64) -> Result<(), AllocError> {
        self.chooser.start(variables)
    }

    fn pick(&mut self, values: &[i8]) -> i64 {
        self.chooser.pick(values)
    }

    fn bump(&mut self, variable: i64) {
        self.chooser.bump(variable)
    }

    fn decay(&mut self) {
        self.chooser.decay()
    }
}
