//! EVSIDS: decide on a free variable that took part in many recent conflicts, with its last sign.
//!
//! VSIDS gives each variable a score, bumps the scores of the variables of a conflict, and now and
//! then lets all scores decay, so that recent conflicts count more (Chaff: Moskewicz and others
//! 2001). EVSIDS decays after every conflict, and touches no score for it: what later bumps add
//! grows instead, which keeps the order the same (the exponential form is MiniSat's, Eén and
//! Sörensson 2003; for both see Biere and Fröhlich 2015). Here scores are called weights.
//!
//! A bump adds `step` to a weight. It comes for every variable that was met between the conflict
//! and the first UIP, whether or not the learnt clause has it. A decay makes `step` larger by a
//! 12th of itself, so that what was added before counts 12/13. Weights are whole numbers: where
//! the step or a weight passes 2^58, all are shifted down by 30 bits. That keeps the order, but
//! may make equal what was different, such as small old weights.
//!
//! The variables wait in a binary heap by weight. A search undoes decisions without telling the
//! chooser. So a variable that comes out assigned is set aside, and at a pick the chooser looks
//! which of its picks are still true: what was set aside behind the first that isn't may be free,
//! and waits again (`picks`).
//!
//! The sign is the one that the variable had when the chooser last saw it assigned, at a bump or
//! out of the heap (phase saving); at first it is false.
//!
//! Not proved: that the picked variable has the greatest weight. A search is right whatever is
//! picked.

use crate::chooser::Chooser;
use crate::heap::WeightHeap;
use crate::picks::{Picks, literal_of, value_of};
use std::alloc::{AllocError, Global};

/// What a bump adds at first.
const FIRST_STEP: u64 = 1 << 20;

/// A step or a weight above this lets all weights be scaled down.
const LIMIT: u64 = 1 << 58;

/// The power of two by which weights and step are scaled down.
const SHIFT: u32 = 30;

/// By the how manieth part of itself a decay raises what later bumps add.
const DECAY: u64 = 12;

/// Notes the sign of a variable.
fn note_sign(signs: &mut [bool], variable: usize, is_true: bool) {
    if variable < signs.len() {
        signs[variable] = is_true;
    }
}

/// Picks a free variable of greatest weight, with the sign that it had last; at first it is false.
///
/// Weights are whole numbers that a bump raises and that count 12/13 after a decay: in place of lowering all of them
/// a decay raises what later bumps add. Where numbers grow too great, all are scaled down, which keeps their order.
/// The free variables wait in a heap. One that is found assigned is set aside, and waits again once a pick before
/// it has been undone.
#[derive(Drop)]
pub struct Activity {
    alloc: Global,
    /// The variables that wait, by weight.
    heap: WeightHeap,
    /// The sign of each variable when it was last seen assigned: true for a positive literal.
    signs: Vec<bool>,
    /// The decisions that may still be true.
    picks: Picks,
    /// What a bump adds at present.
    step: u64,
    /// Whether there was a bump or a decay since the last pick.
    has_conflict: bool,
}

impl Activity {
    /// A chooser without variables; `start` makes its room.
    pub fn new(alloc: Global) -> Activity {
        Activity {
            alloc,
            heap: WeightHeap::empty(alloc),
            signs: Vec::new(alloc),
            picks: Picks::empty(alloc),
            step: FIRST_STEP,
            has_conflict: false,
        }
    }

    /// Lets the variables wait again that were set aside and have become free.
    fn refresh(&mut self, values: &[i8]) {
        if !self.has_conflict && !self.picks.is_last_undone(values) {
            return;
        }
        self.has_conflict = false;
        let start = self.picks.forget_undone(values);
        let end = self.picks.aside_count;
        self.picks.cut_aside(start);
        for place in start..end {
            let variable = self.picks.aside_at(place);
            if value_of(values, variable) == 0 {
                self.heap.insert(variable);
            } else {
                self.picks.set_aside(variable);
            }
        }
    }

    /// Takes waiting variables in turn, up to one that is free; the others are set aside.
    fn next_free(&mut self, values: &[i8]) -> Option<usize> {
        'waiting: while let Some(variable) = self.heap.pop() {
            let value = value_of(values, variable);
            if value == 0 {
                return Some(variable);
            }
            note_sign(&mut self.signs, variable, value > 0);
            self.picks.set_aside(variable);
        }
        None
    }

    /// The sign that a variable had last.
    fn sign(&self, variable: usize) -> bool {
        variable < self.signs.len() && self.signs[variable]
    }

    /// Scales the weights and the step down.
    fn scale_down(&mut self) {
        self.heap.scale_down(SHIFT);
        self.step = (self.step >> SHIFT).max(FIRST_STEP);
    }
}

impl Chooser for Activity {
    fn start(&mut self, variables: u64) -> Result<(), AllocError> {
        let variables = variables as usize;
        self.heap = WeightHeap::new(self.alloc, variables)?;
        self.signs = vec![in self.alloc; false; variables]?;
        self.picks = Picks::new(self.alloc, variables)?;
        Ok(())
    }

    fn pick(&mut self, values: &[i8]) -> i64 {
        self.refresh(values);
        let Some(variable) = self.next_free(values) else {
            return 0;
        };
        let literal = literal_of(variable, self.sign(variable));
        self.picks.add(literal);
        self.picks.set_aside(variable);
        literal
    }

    fn bump(&mut self, variable: i64) {
        self.has_conflict = true;
        let number = variable.unsigned_abs() as usize;
        if number == 0 {
            return;
        }
        note_sign(&mut self.signs, number - 1, variable > 0);
        let weight = self.heap.raise(number - 1, self.step);
        if weight > LIMIT {
            self.scale_down();
        }
    }

    fn decay(&mut self) {
        self.has_conflict = true;
        self.step = self.step.saturating_add(self.step / DECAY);
        if self.step > LIMIT {
            self.scale_down();
        }
    }
}
