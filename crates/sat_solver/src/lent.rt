//! A boxed chooser that is lent to a search is a chooser too, so that the lender has it back.

use sat_decide::Chooser;
use std::alloc::AllocError;

/// A boxed chooser that is lent for a search.
#[derive(Drop)]
pub(crate) struct Lent<'a> {
    pub chooser: &'a mut Box<dyn Chooser>,
}

impl<'a> Chooser for Lent<'a> {
    fn start(&mut self, variables: u64) -> Result<(), AllocError> {
        self.chooser.start(variables)
    }

    fn pick(&mut self, values: &[i8]) -> i64 {
        self.chooser.pick(values)
    }

    fn bump(&mut self, variable: i64) {
        self.chooser.bump(variable)
    }

    fn decay(&mut self) {
        self.chooser.decay()
    }
}
