//! Where an expression stands: what its names may stand for.

use base_types::Name;
use core_tree::Model;
use resolve_names::Names;
use resolve_picks::Picks;

/// A field that is joined to `this` where its name alone is written.
#[derive(Drop)]
pub struct OwnField {
    pub name: Name,
    /// Its number in the model.
    pub field: u32,
}

/// Where an expression stands.
#[derive(Drop)]
pub struct Site<'a> {
    /// The names of all instances.
    pub names: &'a Names,
    /// The model, of which the sigs and the bodies count.
    pub model: &'a Model,
    /// The number of the instance in whose text it stands.
    pub instance: u32,
    /// The fields of `this`, where there is one.
    pub own: &'a [OwnField],
    /// What the names at each place of the text are taken to stand for, where they aren't in scope.
    pub picks: &'a Picks,
}
