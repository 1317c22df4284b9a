//! What the names of a text are taken to stand for, by their places.

ghost use Rattle.std.specs.Prelude.{◌≡◌, ◌==◌, Some, if◌then◌else◌, OnOk};
ghost use Rattle.base_types.specs.declared.place.Position.{Position};
ghost use Rattle.resolve_picks.specs.Picks.{key_of, picked_in};

use crate::target::Target;
use base_types::Position;
use std::alloc::{AllocError, Global};
use std::collections::HashMap;

/// What the names of a text are taken to stand for, by their places.
#[derive(Drop)]
pub struct Picks {
    found: HashMap<u64, Target>,
}

/// The line and the column of a place in one number; all places are of one text.
fn key_of(place: Position) -> u64
    ensures { result ≡ key_of place }
{
    place.line as u64 * 4_294_967_296 + place.column as u64
}

impl Picks {
    /// Nothing yet.
    pub fn new(alloc: Global) -> Picks
        ensures { (place : Position) → picked_in result place ≡ None }
    {
        Picks {
            found: HashMap::new(alloc),
        }
    }

    /// The name at this place is taken to stand for the target.
    pub fn add(&mut self, place: Position, target: Target) -> Result<(), AllocError>
        ensures { OnOk result ((other : Position) → picked_in self.new other
            ≡ (if key_of place == key_of other then Some target else picked_in self.old other)) }
    {
        self.found.insert(key_of(place), target)?;
        Ok(())
    }

    /// What the name at this place is taken to stand for.
    pub fn picked(&self, place: Position) -> Option<Target>
        ensures { result ≡ picked_in self.now place }
    {
        self.found.get(&key_of(place)).copied()
    }
}
