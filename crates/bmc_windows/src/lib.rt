//! The places at which a bounded model checker evaluates formulas, before any gate is built.
//!
//! Bounded model checking (Biere, Cimatti, Clarke and Zhu, Symbolic model checking without BDDs,
//! 1999) looks for an infinite sequence of states that finitely many states stand for: a lasso of
//! k states, with a loop-back edge from the last of them to the one at which the loop begins. A
//! formula is unrolled along it: at each of finitely many places, a node of a circuit says whether
//! the formula holds there. These places are a window.
//!
//! Truth of the future alone repeats with the loop: for it a window of the k states is enough, and
//! after the last one comes the one at which the loop begins. The past takes longer. In the first
//! round of the loop, `before` at the loop's first state looks at the state in front of the loop;
//! in each later round it looks at the loop's last state. So the first and the second round may
//! differ, and one past operator inside another may shift the difference by a round more. Where
//! the loop begins at position l and has p states, a formula of past depth d has the same truth
//! one round later from position l + d * p on: that is the window law of `core_window`. Benedetti
//! and Cimatti (Bounded model checking for past LTL, 2003) unroll the loop for the same reason.
//!
//! So the window of a loop has the places in front of the loop and then d + 1 rounds of it, and
//! from its last place one goes back by one round. A depth above 8 is read as 8. At which state
//! the loop begins, only an assignment of the variables says: [`frame_of`] plans one window for
//! each of the k loops, one after the other. A [`Frame`] keeps for each place which state it shows
//! and which place is that of the next position; a [`Stretch`] is one window in it.
//!
//! [`pairs_of`] numbers the pairs of values that meet at some place, so that what is the same at
//! several places is built once.
#![tactic(auto)]

pub mod frame;
pub mod pairs;

pub use frame::{Frame, Stretch, frame_of};
pub use pairs::{Pairs, found_at, moved, pair_at, pairs_of, repeated};
