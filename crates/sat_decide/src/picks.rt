//! What a chooser knows of undone decisions: it sees them by the values that it is given.

ghost use Rattle.std.specs.Prelude.{◌≡◌, ◌<◌, ◌≤◌, ◌^◌, length};

use std::alloc::{AllocError, Global};

/// How many variables there are at most, so that each literal and each place fits in 32 bits.
pub(crate) const MOST: usize = 1 << 31;

/// The value of a variable, or 1 where it has none.
#[inline]
pub(crate) fn value_of(values: &[i8], variable: usize) -> i8 {
    if variable < values.len() {
        values[variable]
    } else {
        1
    }
}

/// The literal of a variable, numbered from 0, with a sign.
pub(crate) fn literal_of(variable: usize, is_true: bool) -> i64 {
    if variable >= 1 << 62 {
        return 0;
    }
    let number = variable as i64 + 1;
    if is_true { number } else { -number }
}

/// Whether a literal is true.
#[inline]
fn is_true(values: &[i8], literal: i64) -> bool {
    let number = literal.unsigned_abs() as usize;
    if number == 0 {
        return false;
    }
    let value = value_of(values, number - 1);
    if literal > 0 { value > 0 } else { value < 0 }
}

/// The literals that were picked and may still be true, and the variables that were set aside behind each.
///
/// As long as the first picks are true, so is all that they force. So a variable that was set aside as assigned
/// behind a pick is free again only where that pick or an earlier one no longer is true.
#[derive(Drop)]
pub(crate) struct Picks {
    literals: Vec<i32>,
    /// How many variables had been set aside before each pick.
    starts: Vec<u32>,
    pub count: usize,
    aside: Vec<u32>,
    pub aside_count: usize,
    ghost same: { length starts.items ≡ length literals.items },
    ghost count_within: { count ≤ length literals.items },
    ghost aside_within: { aside_count ≤ length aside.items },
    ghost small: { length aside.items < 2 ^ 31 },
}

impl Picks {
    /// No room.
    pub fn empty(alloc: Global) -> Picks {
        Picks {
            literals: Vec::new(alloc),
            starts: Vec::new(alloc),
            count: 0,
            aside: Vec::new(alloc),
            aside_count: 0,
        }
    }

    /// Room for so many variables. The only error is want of memory, which is also that they are too many.
    pub fn new(alloc: Global, variables: usize) -> Result<Picks, AllocError> {
        if variables >= MOST {
            return Err(AllocError);
        }
        Ok(Picks {
            literals: vec![in alloc; 0; variables]?,
            starts: vec![in alloc; 0; variables]?,
            count: 0,
            aside: vec![in alloc; 0; variables]?,
            aside_count: 0,
        })
    }

    /// Sets a variable aside.
    pub fn set_aside(&mut self, variable: usize) {
        if self.aside_count < self.aside.len() && variable < MOST {
            self.aside[self.aside_count] = variable as u32;
            self.aside_count += 1;
        }
    }

    /// Keeps a pick.
    pub fn add(&mut self, literal: i64) {
        if self.count < self.literals.len() && literal.unsigned_abs() < MOST as u64 {
            self.literals[self.count] = literal as i32;
            self.starts[self.count] = self.aside_count as u32;
            self.count += 1;
        }
    }

    /// Whether the last pick is no longer true.
    pub fn is_last_undone(&self, values: &[i8]) -> bool {
        self.count > 0 && !is_true(values, i64::from(self.literals[self.count - 1]))
    }

    /// Forgets the picks from the first on that no longer is true, and gives the place from which on variables that
    /// were set aside may be free.
    pub fn forget_undone(&mut self, values: &[i8]) -> usize {
        for place in 0..self.count {
            if !is_true(values, i64::from(self.literals[place])) {
                self.count = place;
                return self.starts[place] as usize;
            }
        }
        self.aside_count
    }

    /// The variable that was set aside last at a place.
    pub fn aside_at(&self, place: usize) -> usize {
        if place < self.aside.len() {
            self.aside[place] as usize
        } else {
            0
        }
    }

    /// Forgets the variables that were set aside from a place on; `aside_at` still tells them.
    pub fn cut_aside(&mut self, place: usize) {
        if place < self.aside_count {
            self.aside_count = place;
        }
    }
}
