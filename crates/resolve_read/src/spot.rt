//! Where a root is read.

use crate::types::{Ground, Types};
use resolve_names::Names;
use resolve_picks::Picks;
use resolve_said::OwnField;
use resolve_types::Columns;

/// Where a root is read.
#[derive(Drop)]
pub struct Spot<'a> {
    /// The names of all instances.
    pub names: &'a Names,
    /// What all declarations mean.
    pub types: &'a Types,
    /// The number of the instance in whose text the root stands.
    pub instance: u32,
    /// The fields that are joined to `this` where their name alone is written.
    pub own: &'a [OwnField],
    /// The type of `this`, where there are such fields.
    pub this: &'a Columns,
    pub ground: Ground,
    /// What the names at each place of the text are taken to stand for.
    pub picks: &'a Picks,
}
