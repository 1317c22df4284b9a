//! Places across instances, in the order in which refusals count.
//! The earliest instance in load order comes first, and in it the least place.

ghost use Rattle.std.specs.Prelude.{◌≡◌};
ghost use Rattle.bound_definitions.specs.Places.{stands_before, comes_before, earlier, place_if, some_place_if, first_from};

use base_types::Position;
use core_tree::Origin;

/// Whether a place comes before another one of its text.
fn stands_before(a: Position, b: Position) -> bool
    ensures { result ≡ stands_before a b }
{
    a.line < b.line || (a.line == b.line && a.column < b.column)
}

/// Whether the one comes before the other.
fn comes_before(a: Origin, b: Origin) -> bool
    ensures { result ≡ comes_before a b }
{
    a.instance < b.instance || (a.instance == b.instance && stands_before(a.place, b.place))
}

/// The earlier one of what was found and a further one.
pub fn earliest(found: Option<Origin>, next: Origin) -> Option<Origin>
    ensures { result ≡ earlier found next }
{
    match found {
        None => Some(next),
        Some(first) => {
            if comes_before(next, first) {
                Some(next)
            } else {
                Some(first)
            }
        }
    }
}

/// The first of what was found and a place under a condition.
pub fn with_place(found: Option<Origin>, is: bool, at: Origin) -> Option<Origin>
    ensures { result ≡ first_from found (place_if is at) }
{
    if is { earliest(found, at) } else { found }
}

/// The first of what was found and a place, if there is one, under a condition.
pub fn with_some_place(found: Option<Origin>, is: bool, at: Option<Origin>) -> Option<Origin>
    ensures { result ≡ first_from found (some_place_if is at) }
{
    match at {
        None => found,
        Some(at) => with_place(found, is, at),
    }
}
