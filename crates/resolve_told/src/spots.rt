//! Where the roots of predicates and functions stand.

ghost use Rattle.std.specs.Prelude.{◌≡◌, Some, slice_get};
ghost use Rattle.resolve_told_sigs.specs.Says.{no_type};
ghost use Rattle.resolve_told.specs.Spots.{AreSpots};

use resolve_names::Names;
use resolve_picks::Picks;
use resolve_read::{Ground, Readings, Spot};
use resolve_types::Columns;

/// Where the roots of predicates and functions of an instance stand.
#[derive(Drop)]
pub struct Spots<'a> {
    /// In the bounds of parameters and results.
    pub bounds: Spot<'a>,
    /// In blocks, and in the expressions of functions.
    pub inside: Spot<'a>,
}

/// Where the roots stand, by what the names of the instance's text are taken to stand for.
pub fn spots_of<'a>(
    names: &'a Names,
    readings: &'a Readings,
    instance: u32,
    picks: &'a Picks,
    this: &'a Columns,
) -> Spots<'a>
    ensures { slice_get readings.now.of_instances instance ≡ Some picks.now → this.now ≡ no_type
        → AreSpots names.now.scopes readings.now instance result }
{
    let types = &readings.types;
    Spots {
        bounds: Spot {
            names,
            types,
            instance,
            own: &[],
            this,
            ground: Ground::BodyBound,
            picks,
        },
        inside: Spot {
            names,
            types,
            instance,
            own: &[],
            this,
            ground: Ground::Anywhere,
            picks,
        },
    }
}
