//! The places at which formulas are encoded: the windows of all loops, one after the other.

ghost use Rattle.std.specs.Prelude.{◌≡◌, ◌<◌, ◌≤◌, ◌+◌, ◌-◌, ◌∷◌, [], ◌++◌, ◌^◌, nat_lt, if◌then◌else◌, length, IfOk, OnOk};
ghost use Rattle.bmc_windows.specs.Frames.{IsFrame, IsStretch, AddsPlaces, AddsStretch, rounds_of, window_length, start_of, state_shown, place_next};

use std::alloc::{AllocError, Global};

/// The window of one loop.
#[derive(Clone, Copy, Debug, PartialEq, Eq)]
pub struct Stretch {
    /// Its first place.
    pub start: usize,
    /// The place behind its last.
    pub end: usize,
    /// The place to which one goes from the last.
    pub back: usize,
}

/// All places.
#[derive(Drop)]
pub struct Frame {
    /// How many states a lasso has.
    pub states: u32,
    /// The windows, by the loop index.
    pub windows: Vec<Stretch>,
    /// The state that each place shows.
    pub shown: Vec<usize>,
    /// The place of the next position.
    pub next: Vec<usize>,
}

impl Frame {
    /// How many places there are.
    pub fn len(&self) -> usize {
        self.shown.len()
    }
}

/// How many rounds of a loop a window has, for formulas of this past depth, which is read as 8 where it
/// is greater.
fn rounds_for(depth: u32) -> u64
    ensures { result ≡ rounds_of depth }
{
    if depth < 8 {
        return u64::from(depth) + 1;
    }
    9
}

/// The state that a place of the window shows, where `place` is counted from the window's first.
fn state_at(states: u32, loop_start: u32, place: u64) -> usize
    requires { loop_start < states }
    ensures { result ≡ state_shown states loop_start place }
{
    if place < u64::from(states) {
        return place as usize;
    }
    let start = u64::from(loop_start);
    let round = u64::from(states - loop_start);
    (start + (place - start) % round) as usize
}

/// How many places the window of a loop has.
fn window_size(states: u32, loop_start: u32, rounds: u64) -> u64
    requires start { loop_start < states }
    requires least { 1 ≤ rounds }
    requires most { rounds ≤ 9 }
    ensures size { result ≡ window_length states rounds loop_start }
    ensures round { states - loop_start ≤ result }
{
    u64::from(loop_start) + rounds * u64::from(states - loop_start)
}

/// Adds the states that the places of a window show.
#[tactic(auto, using(crate::proofs::Adding::adds_none, crate::proofs::Adding::adds_one))]
fn add_shown(
    shown: &mut Vec<usize>,
    states: u32,
    loop_start: u32,
    size: u64,
) -> Result<(), AllocError>
    requires { loop_start < states }
    ensures { OnOk result (AddsPlaces shown.old.items shown.new.items size
        (λ k. state_shown states loop_start k)) }
{
    for place in 0..size {
        shown.push(state_at(states, loop_start, place))?;
    }
    Ok(())
}

/// The place of the next position, where `first` is the window's first place and the last goes back by
/// `round`.
fn next_of(first: usize, place: u64, size: u64, round: u64) -> usize
    requires inside { place < size }
    requires some { 1 ≤ round }
    requires most { round ≤ size }
    requires fits { first + place < 2 ^ 63 }
    ensures { result ≡ first + (if nat_lt (place + 1) size then place + 1 else size - round) }
{
    if place + 1 < size {
        return first + (place + 1) as usize;
    }
    first + (size - round) as usize
}

/// Adds the places of the next positions of a window.
#[tactic(auto, using(crate::proofs::Adding::adds_none, crate::proofs::Adding::adds_one))]
fn add_next(
    next: &mut Vec<usize>,
    states: u32,
    loop_start: u32,
    rounds: u64,
    size: u64,
) -> Result<(), AllocError>
    requires start { loop_start < states }
    requires size { size ≡ window_length states rounds loop_start }
    requires round { states - loop_start ≤ size }
    ensures { OnOk result (AddsPlaces next.old.items next.new.items size
        (λ k. length next.old.items + place_next states rounds loop_start k)) }
{
    let first = next.len();
    let round = u64::from(states - loop_start);
    for place in 0..size {
        next.push(next_of(first, place, size, round))?;
    }
    Ok(())
}

/// Adds the places of the window of a loop, with so many rounds.
fn add_window(frame: &mut Frame, loop_start: u32, rounds: u64) -> Result<(), AllocError>
    requires start { loop_start < frame.old.states }
    requires least { 1 ≤ rounds }
    requires most { rounds ≤ 9 }
    requires long { length frame.old.shown.items ≡ start_of frame.old.states rounds loop_start }
    requires together { length frame.old.next.items ≡ length frame.old.shown.items }
    ensures { OnOk result (AddsStretch rounds loop_start frame.old frame.new) }
{
    let start = frame.shown.len();
    let size = window_size(frame.states, loop_start, rounds);
    add_shown(&mut frame.shown, frame.states, loop_start, size)?;
    add_next(&mut frame.next, frame.states, loop_start, rounds, size)?;
    let end = frame.shown.len();
    let round = (frame.states - loop_start) as usize;
    let stretch = Stretch {
        start,
        end,
        back: end - round,
    };
    frame.windows.push(stretch)?;
    Ok(())
}

/// The places of all loops, for so many states and formulas of this past depth, which is read as 8
/// where it is greater.
pub fn frame_of(alloc: Global, states: u32, depth: u32) -> Result<Frame, AllocError>
    ensures { IfOk result (λ f. IsFrame states (rounds_of depth) f) }
{
    let rounds = rounds_for(depth);
    let mut frame = Frame {
        states,
        windows: Vec::new(alloc),
        shown: Vec::new(alloc),
        next: Vec::new(alloc),
    };
    for loop_start in 0..states {
        add_window(&mut frame, loop_start, rounds)?;
    }
    Ok(frame)
}
