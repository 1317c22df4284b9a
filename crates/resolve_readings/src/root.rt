//! Which choice is the root's reading.

ghost use Rattle.std.specs.Prelude.{◌≡◌, [], ◌∷◌, min, ◌*◌, ◌<◌, ◌≤◌, IfOk, MatchOption, Some};
ghost use Rattle.resolve_readings.specs.Readings.{Decides, IsDecided, IsWithin, MeansSo, count_choices};
ghost use Rattle.resolve_readings.specs.Found.{single as single_of, passes, passing, chosen_by, outcome_of, IsMeant};
ghost use Rattle.resolve_readings.specs.declared.part.Outcome.TheVariants as outcome;
ghost use Rattle.std.specs.Option.{option_copied};

use crate::choices::found;
use crate::part::{Decision, Found, Outcome, Part, Typing};
use base_lists::Items;
use std::alloc::{AllocError, Global};

/// The product, or the limit where it is no less.
fn product(a: u32, b: u32) -> u32
    requires a { a ≤ 4097 }
    requires b { b ≤ 4097 }
    ensures { result ≡ min (a * b) 4097 }
{
    let product = a * b;
    if product < 4097 { product } else { 4097 }
}

/// How many choices the names have together, or the limit where there are no fewer.
fn choices(part: &Part) -> u32
    ensures { result ≡ min (count_choices part.now) 4097 }
{
    match part {
        Part::Name(all) => {
            let count = all.len();
            if count < 4097 { count as u32 } else { 4097 }
        }
        Part::Known(_) => 1,
        Part::Single(_, inner) => choices(inner),
        Part::Pair(_, left, right) => product(choices(left), choices(right)),
    }
}

/// Whether it is relevant, where that is asked, and names nothing of the integer module, where that is asked.
fn does_pass(one: &Found, relevant: bool, plain: bool) -> bool
    ensures { result ≡ passes relevant plain one.now }
{
    (!relevant || one.meaning.relevant) && (!plain || !one.meaning.integer)
}

/// The first that passes, and those after it.
fn next(all: &[Found], relevant: bool, plain: bool) -> Option<(&Found, &[Found])>
    ensures { MatchOption result (passing relevant plain all.now ≡ [])
        (λ r. passing relevant plain all.now ≡ r.0.now ∷ passing relevant plain r.1.now) }
{
    let mut rest = all;
    while let [first, more @ ..] = rest {
        if does_pass(first, relevant, plain) {
            return Some((first, more));
        }
        rest = more;
    }
    None
}

/// The only one that passes.
fn only(all: &[Found], relevant: bool, plain: bool) -> Option<&Found>
    ensures { option_copied result ≡ single_of (passing relevant plain all.now) }
{
    let (first, more) = next(all, relevant, plain)?;
    match next(more, relevant, plain) {
        Some(_) => None,
        None => Some(first),
    }
}

/// The one that is chosen of all right ones.
fn chosen_one(all: &[Found]) -> Option<&Found>
    ensures { option_copied result ≡ chosen_by all.now }
{
    if let Some(one) = only(all, false, false) {
        return Some(one);
    }
    if let Some(one) = only(all, true, false) {
        return Some(one);
    }
    only(all, next(all, true, false).is_some(), true)
}

/// What is decided where this one is chosen.
fn read_as(alloc: Global, one: &Found) -> Result<Decision, AllocError>
    ensures outcome { IfOk result (λ d. d.outcome ≡ outcome.Read one.now.choice) }
    ensures meaning { IfOk result (λ d. d.meaning ≡ Some one.now.meaning) }
{
    let choice = Items::from_slice(alloc, one.choice.as_slice())?;
    let meaning = one.meaning.copy(alloc)?;
    Ok(Decision {
        outcome: Outcome::Read(choice),
        meaning: Some(meaning),
    })
}

/// What is decided of all right choices.
fn pick(alloc: Global, all: &[Found]) -> Result<Decision, AllocError>
    ensures picked { IfOk result (λ d. d.outcome ≡ outcome_of all.now (chosen_by all.now)) }
    ensures few { IfOk result (λ d. IsDecided d.outcome) }
    ensures meaning { IfOk result (λ d. IsMeant all.now d) }
{
    if all.is_empty() {
        return Ok(Decision {
            outcome: Outcome::NoReading,
            meaning: None,
        });
    }
    match chosen_one(all) {
        Some(one) => {
            let decision = read_as(alloc, one)?;
            Ok(decision)
        }
        None => Ok(Decision {
            outcome: Outcome::Ambiguous,
            meaning: None,
        }),
    }
}

/// The root's reading and what the root means by it, or why it has none.
pub fn decide(alloc: Global, typing: &Typing, root: &Part) -> Result<Decision, AllocError>
    ensures decided { IfOk result (λ d. Decides typing.now root.now d.outcome) }
    ensures limit { IfOk result (λ d. IsWithin (count_choices root.now) d.outcome) }
    ensures meaning { IfOk result (MeansSo typing.now root.now) }
{
    // TooManyReadings, S43: a root has at most 4,096 readings. The count stops at 4,097, one past
    // the limit.
    if choices(root) > 4096 {
        return Ok(Decision {
            outcome: Outcome::TooMany,
            meaning: None,
        });
    }
    let all = found(alloc, typing, root)?;
    let decision = pick(alloc, all.as_slice())?;
    Ok(decision)
}
