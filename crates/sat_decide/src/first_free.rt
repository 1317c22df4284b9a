//! The plainest heuristic takes the least variable that is free, as false.

use crate::chooser::Chooser;
use std::alloc::AllocError;

/// Picks the least free variable, as false.
///
/// As long as no conflict is told, it goes on behind the variable that it picked last, since those before are
/// assigned.
#[derive(Drop)]
pub struct FirstFree {
    next: usize,
}

impl FirstFree {
    /// The chooser, which needs no room.
    pub fn new() -> FirstFree {
        FirstFree { next: 0 }
    }
}

/// The least free variable from one on, numbered from 0, as false, or 0 where there is none.
fn first_free(values: &[i8], from: usize) -> i64 {
    for place in from..values.len().min(1 << 62) {
        if values[place] == 0 {
            return -(place as i64) - 1;
        }
    }
    0
}

impl Chooser for FirstFree {
    fn start(&mut self, _variables: u64) -> Result<(), AllocError> {
        self.next = 0;
        Ok(())
    }

    fn pick(&mut self, values: &[i8]) -> i64 {
        let mut picked = first_free(values, self.next);
        if picked == 0 {
            picked = first_free(values, 0);
        }
        self.next = picked.unsigned_abs() as usize;
        picked
    }

    fn bump(&mut self, _variable: i64) {
        self.next = 0;
    }

    fn decay(&mut self) {
        self.next = 0;
    }
}
