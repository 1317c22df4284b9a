//! Restarts: when a search takes back all decisions and begins anew, with all that it has learnt.
//!
//! A restart costs little: learnt clauses, weights and signs stay, so that the search soon comes
//! back to much the same assignment, but decides in the order of the present weights. It corrects
//! early decisions that recent conflicts no longer speak for. Two policies take turns, since
//! restarts at a quick pace serve refutations best, and rare ones assignments. These are CaDiCaL's
//! two modes.
//!
//! Eager phases follow Glucose (Audemard and Simon 2009). The LBD, or glue, of a learnt clause is
//! the number of different decision levels among its literals: the fewer, the more it serves. Two
//! exponential moving averages (EMA) of the LBD are kept, of about the latest 16 learnt clauses
//! and of about 8192. A restart is due where the first is more than 23/20 of the second, that is,
//! where the search learns worse clauses than it used to; but no sooner than ten conflicts after
//! the last. Glucose has a window and the mean of all in their place. The averages start as plain
//! means, so that they aren't drawn to their first value. The levels are counted by their rests at
//! 64, so that the count is at most 64, and less than the LBD where two levels have one rest.
//!
//! Steady phases, CaDiCaL's stable mode, follow the series of Luby, Sinclair and Zuckerman (1993):
//! 1, 1, 2, 1, 1, 2, 4, 1, .., times 1024 conflicts. It is made by Knuth's reluctant doubling from
//! two numbers.
//!
//! The phases grow: the n-th has n thousand conflicts where it is steady, and four times as many
//! where it is eager. The first one is eager.
//!
//! Not proved: anything of this. When a search restarts changes its pace and never its answer's
//! truth.

/// How many conflicts the shortest span between restarts of a steady phase has.
const UNIT: u64 = 1024;

/// How many conflicts there are at least between two restarts of an eager phase.
const LEAST_SPAN: u64 = 10;

/// Over how many lemmas, about, the average of the latest ones goes.
const SHORT_SPAN: u64 = 16;

/// Over how many lemmas, about, the average of all goes.
const LONG_SPAN: u64 = 8192;

/// By what the numbers of levels are multiplied, so that averages in whole numbers are exact enough.
const SCALE: u64 = 1 << 20;

/// How many conflicts the n-th phase has for each n, where it is a steady one.
const PHASE: u64 = 1000;

/// How many times as many conflicts an eager phase has.
const EAGER_TIMES: u64 = 4;

/// When a search goes back to level 0.
///
/// Eager and steady phases take turns. The fewer levels a lemma has, the more it serves: in an eager phase the search
/// begins anew where the latest lemmas have, by moving averages, more than 23/20 as many levels as all lemmas. In a steady
/// phase the spans between restarts follow the series of Luby, Sinclair and Zuckerman: 1, 1, 2, 1, 1, 2, 4, 1, ..
#[derive(Clone, Copy, Debug, Drop)]
pub(crate) struct Pace {
    is_steady: bool,
    /// How many conflicts the present phase has if it is steady; an eager one has four times that.
    phase: u64,
    /// How many conflicts the present phase has left.
    phase_left: u64,
    /// The fast moving average of the levels of learnt clauses, times `SCALE`.
    short_average: u64,
    /// The slow one.
    long_average: u64,
    /// How many learnt clauses were counted.
    count: u64,
    /// How many conflicts an eager phase waits at least until it restarts.
    to_restart: u64,
    /// How many conflicts a steady phase waits until it restarts.
    left: u64,
    /// With `span`, the two numbers of reluctant doubling.
    turn: u64,
    /// The present number of Luby's series.
    span: u64,
}

/// An average over so many numbers, once one more has come.
fn moved(average: u64, number: u64, span: u64) -> u64 {
    if span == 0 {
        return number;
    }
    if number >= average {
        average.saturating_add((number - average) / span)
    } else {
        average.saturating_sub((average - number) / span)
    }
}

impl Pace {
    /// No conflict yet, in an eager phase.
    pub fn new() -> Pace {
        Pace {
            is_steady: false,
            phase: PHASE,
            phase_left: PHASE * EAGER_TIMES,
            short_average: 0,
            long_average: 0,
            count: 0,
            to_restart: LEAST_SPAN,
            left: UNIT,
            turn: 1,
            span: 1,
        }
    }

    /// Counts a lemma with so many levels in both averages.
    pub fn take_levels(&mut self, levels: u64) {
        let number = levels.saturating_mul(SCALE);
        self.count = self.count.saturating_add(1);
        self.short_average = moved(self.short_average, number, self.count.min(SHORT_SPAN));
        self.long_average = moved(self.long_average, number, self.count.min(LONG_SPAN));
    }

    /// Goes on to the next span of a steady phase.
    ///
    /// `turn` counts the turns that begin with 1, and each span doubles up to the greatest power of two that divides
    /// the turn's number.
    fn go_on(&mut self) {
        if self.turn & self.turn.wrapping_neg() == self.span {
            self.turn = self.turn.wrapping_add(1);
            self.span = 1;
        } else {
            self.span = self.span.wrapping_mul(2);
        }
        self.left = self.span.saturating_mul(UNIT);
    }

    /// Counts a conflict of a steady phase, and tells whether a restart is due.
    fn is_span_over(&mut self) -> bool {
        if self.left > 1 {
            self.left -= 1;
            return false;
        }
        self.go_on();
        true
    }

    /// Counts a conflict of an eager phase, and tells whether a restart is due.
    fn are_levels_many(&mut self) -> bool {
        if self.to_restart > 1 {
            self.to_restart -= 1;
            return false;
        }
        if self.short_average.saturating_mul(20) <= self.long_average.saturating_mul(23) {
            return false;
        }
        self.to_restart = LEAST_SPAN;
        true
    }

    /// Counts a conflict towards the end of the phase.
    fn count_phase(&mut self) {
        if self.phase_left > 1 {
            self.phase_left -= 1;
            return;
        }
        self.is_steady = !self.is_steady;
        self.phase = self.phase.saturating_add(PHASE);
        self.phase_left = if self.is_steady {
            self.phase
        } else {
            self.phase.saturating_mul(EAGER_TIMES)
        };
        self.left = UNIT;
        self.turn = 1;
        self.span = 1;
    }

    /// Counts a conflict, and tells whether a restart is due.
    pub fn is_restart_due(&mut self) -> bool {
        self.count_phase();
        if self.is_steady {
            self.is_span_over()
        } else {
            self.are_levels_many()
        }
    }
}
