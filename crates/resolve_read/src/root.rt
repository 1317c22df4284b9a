//! What a root means by its reading.

ghost use Rattle.std.specs.Prelude.{◌≡◌, [], IfOk, IfSome, Some, true};
ghost use Rattle.resolve_readings.specs.Readings.{IsReading, read};
ghost use Rattle.resolve_readings.specs.declared.part.Unary.TheVariants as unary;
ghost use Rattle.resolve_rules.specs.Prepared.{single, tree_of};
ghost use Rattle.resolve_read.specs.At.{at_of};
ghost use Rattle.resolve_read.specs.Reads.{ReadAs};

use crate::draft::{Draft, put_away, single_draft};
use crate::spot::Spot;
use resolve_readings::{Decision, Meaning, Outcome, Part, RootPlace, Typing, Unary, decide};
use std::alloc::{AllocError, Global};

/// Whether two choices are the same.
fn same_choice(a: &[usize], b: &[usize]) -> bool
    ensures { result ≡ true → a.now ≡ b.now }
{
    a == b
}

/// What a root means by its reading, where the choice is that.
fn root_meaning(
    alloc: Global,
    typing: &Typing,
    root: &Part,
    choice: &[usize],
) -> Result<Option<Meaning>, AllocError>
    ensures { IfOk result (λ r. IfSome r (λ m. IsReading typing.now root.now choice.now
        × (read typing.now root.now choice.now ≡ Some (m, [])))) }
{
    let Decision { outcome, meaning } = decide(alloc, typing, root)?;
    match outcome {
        Outcome::Read(found) => {
            if !same_choice(found.as_slice(), choice) {
                return Ok(None);
            }
            Ok(meaning)
        }
        _ => Ok(None),
    }
}

/// What a root means in its place, where what is chosen for its names is its reading.
pub fn reading(
    alloc: Global,
    spot: &Spot<'_>,
    place: RootPlace,
    draft: Draft,
) -> Result<Option<Meaning>, AllocError>
    ensures { IfOk result (λ r. IfSome r (λ m. ReadAs (at_of spot.now).types.typing
        (single (unary.Fits place) (tree_of draft.part)) draft.choice m)) }
{
    let whole = single_draft(alloc, Unary::Fits(place), draft)?;
    let typing = &spot.types.typing;
    let found = root_meaning(alloc, typing, &whole.part, whole.choice.as_slice());
    match found {
        Err(error) => {
            put_away(whole);
            Err(error)
        }
        Ok(None) => {
            put_away(whole);
            Ok(None)
        }
        Ok(Some(meaning)) => {
            put_away(whole);
            Ok(Some(meaning))
        }
    }
}
