//! A root is settled: it has its reading and the tree of it, or a reason why it has none.

ghost use Rattle.std.specs.Prelude.{◌≡◌, IfOk};
ghost use Rattle.resolve_readings.specs.Readings.{Decides, IsWithin, count_choices};
ghost use Rattle.resolve_readings.specs.declared.part.Outcome.TheVariants as outcome;
ghost use Rattle.resolve_drafts.specs.Settled.{outcome_of};

use crate::built::{Built, CallSite, Pick};
use crate::draft::Draft;
use crate::tree::built;
use base_lists::Items;
use resolve_readings::{Decision, Meaning, Outcome, Part, Typing, decide};
use std::alloc::{AllocError, Global};

/// A root under its reading.
#[derive(Drop)]
pub struct Reading {
    /// For each name in turn the number of its candidate.
    pub choice: Items<usize>,
    pub built: Built,
    /// What the root means.
    pub meaning: Option<Meaning>,
    /// The calls in it, those in nested roots aside.
    pub calls: Items<CallSite>,
    /// What the names in it stand for, those in nested roots aside, and those that are in scope.
    pub picks: Items<Pick>,
}

/// What is settled of a root.
#[derive(Drop)]
pub enum Settled {
    Read(Reading),
    /// S42: no reading is right.
    NoReading,
    /// S41: several are right, and none is the root's reading.
    Ambiguous,
    /// S43: there are more than 4,096 readings.
    TooMany,
}

/// The root under a choice, by which it means this.
fn read(
    alloc: Global,
    draft: &Draft,
    choice: Items<usize>,
    meaning: Option<Meaning>,
) -> Result<Settled, AllocError>
    ensures { IfOk result (λ s. outcome_of s ≡ outcome.Read choice) }
{
    let (built, calls, picks) = built(alloc, draft, choice.as_slice())?;
    Ok(Settled::Read(Reading {
        choice,
        built,
        meaning,
        calls: Items::from_vec(calls),
        picks: Items::from_vec(picks),
    }))
}

/// The reading of a root, given as a draft and as the part by which its readings are judged: the
/// one right reading, else the one relevant reading, else the only one that is left when readings
/// that name something of the implicitly opened integers are put aside.
pub fn settle(
    alloc: Global,
    typing: &Typing,
    draft: &Draft,
    part: &Part,
) -> Result<Settled, AllocError>
    ensures decided { IfOk result (λ s. Decides typing.now part.now (outcome_of s)) }
    ensures limit { IfOk result (λ s. IsWithin (count_choices part.now) (outcome_of s)) }
{
    let Decision { outcome, meaning } = decide(alloc, typing, part)?;
    match outcome {
        Outcome::Read(choice) => read(alloc, draft, choice, meaning),
        Outcome::NoReading => Ok(Settled::NoReading),
        Outcome::Ambiguous => Ok(Settled::Ambiguous),
        Outcome::TooMany => Ok(Settled::TooMany),
    }
}
