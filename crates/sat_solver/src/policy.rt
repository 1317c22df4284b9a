//! Which lemmas a search drops, and when.
//!
//! Each attached lemma costs visits, and most never serve again. So behind every so many new
//! lemmas, 300 at first and 300 more each time, the search drops a part of them: they are detached,
//! and only the index of dropped lemmas knows them from then on.
//!
//! A lemma serves where it is among the hints of a new one. Kept are those of at most two literals,
//! those of at most two levels, those that served since the last time, and those of at most six
//! levels that served since the last time but one. The others are idle. A lemma's levels are those
//! that its literals had when it was learnt, its LBD (see `pace`): the fewer there are, the likelier
//! it serves (Audemard and Simon 2009). Of the idle ones the quarter of the fewest levels stays,
//! and among those of equally many levels the shorter ones.
//!
//! Not proved: anything of this. Whatever lemmas are dropped, the answer is right and each lemma
//! new.

use std::alloc::{AllocError, Global};

/// How many new lemmas there are before some are dropped for the first time, and how many more each time.
const SPAN: usize = 300;

/// Lemmas of so few levels always stay.
const LEAST_LEVELS: u64 = 2;

/// Lemmas of so few levels stay for two times once they served.
const FEW_LEVELS: u64 = 6;

/// Which lemmas a search drops.
#[derive(Clone, Copy, Debug, PartialEq, Eq)]
pub enum Dropping {
    /// Those that served least, now and then.
    Idle,
    /// All, behind each new one.
    All,
}

/// What is known of a lemma's use.
#[derive(Clone, Copy, Debug)]
struct Lemma {
    /// How many levels its literals had when it was learnt.
    levels: u64,
    /// How many literals it has.
    size: usize,
    /// How many times it stays from now on, if it serves no more.
    stays: u8,
    is_dropped: bool,
}

/// An idle lemma; the less it is worth, the greater.
#[derive(Clone, Copy, Debug, PartialEq, Eq, PartialOrd, Ord)]
struct Idle {
    levels: u64,
    size: usize,
    place: usize,
}

/// How many times a lemma of so many levels stays once it served.
fn stays(levels: u64) -> u8 {
    if levels <= FEW_LEVELS { 2 } else { 1 }
}

/// What a search knows of the use of its lemmas, and how long it is to the next time that some are dropped.
#[derive(Drop)]
pub(crate) struct Policy {
    dropping: Dropping,
    /// The lemmas in the order in which they were learnt.
    lemmas: Vec<Lemma>,
    /// How many new ones there were between the last two times.
    span: usize,
    /// How many new ones there are until the next.
    left: usize,
}

impl Policy {
    /// No lemma yet.
    pub fn new(alloc: Global, dropping: Dropping) -> Policy {
        Policy {
            dropping,
            lemmas: Vec::new(alloc),
            span: SPAN,
            left: SPAN,
        }
    }

    /// Notes a new lemma, of so many levels and literals.
    pub fn add(&mut self, levels: u64, size: usize) -> Result<(), AllocError> {
        self.lemmas.push(Lemma {
            levels,
            size,
            stays: stays(levels),
            is_dropped: false,
        })?;
        self.left = self.left.saturating_sub(1);
        Ok(())
    }

    /// Notes that a clause served, or is attached again, where there are so many clauses before the lemmas.
    pub fn note(&mut self, first: usize, number: u64) {
        let number = number as usize;
        if number <= first {
            return;
        }
        if let Some(lemma) = self.lemmas.get_mut(number - first - 1) {
            lemma.stays = stays(lemma.levels);
            lemma.is_dropped = false;
        }
    }

    /// Notes that some clauses served.
    pub fn note_all(&mut self, first: usize, numbers: &[u64]) {
        for number in numbers {
            self.note(first, *number);
        }
    }

    /// Whether some lemmas are to be dropped now.
    pub fn is_due(&mut self) -> bool {
        if self.dropping == Dropping::All {
            return true;
        }
        if self.left > 0 {
            return false;
        }
        self.span = self.span.saturating_add(SPAN);
        self.left = self.span;
        true
    }

    /// Whether the lemma at a place may be dropped now. If not, it stays one time less.
    fn is_idle(&mut self, place: usize) -> bool {
        let all = self.dropping == Dropping::All;
        let Some(lemma) = self.lemmas.get_mut(place) else {
            return false;
        };
        if lemma.is_dropped {
            return false;
        }
        if all {
            return true;
        }
        if lemma.size <= 2 || lemma.levels <= LEAST_LEVELS {
            return false;
        }
        if lemma.stays > 0 {
            lemma.stays -= 1;
            return false;
        }
        true
    }

    /// The idle lemmas, the most worth first.
    fn idle(&mut self, alloc: Global) -> Result<Vec<Idle>, AllocError> {
        let mut idle = Vec::new(alloc);
        for place in 0..self.lemmas.len() {
            if self.is_idle(place) {
                if let Some(lemma) = self.lemmas.get(place) {
                    idle.push(Idle {
                        levels: lemma.levels,
                        size: lemma.size,
                        place,
                    })?;
                }
            }
        }
        idle.sort_unstable();
        Ok(idle)
    }

    /// Notes that the lemma at a place is dropped.
    fn pick(&mut self, picks: &mut Vec<bool>, place: usize) {
        if let Some(lemma) = self.lemmas.get_mut(place) {
            lemma.is_dropped = true;
        }
        if let Some(pick) = picks.get_mut(place) {
            *pick = true;
        }
    }

    /// Which lemmas are dropped now, in the order in which they were learnt.
    pub fn picks(&mut self, alloc: Global) -> Result<Vec<bool>, AllocError> {
        let mut picks = vec![in alloc; false; self.lemmas.len()]?;
        let idle = self.idle(alloc)?;
        let kept = if self.dropping == Dropping::All {
            0
        } else {
            idle.len() / 4
        };
        for number in kept..idle.len() {
            self.pick(&mut picks, idle[number].place);
        }
        Ok(picks)
    }
}
