//! What is known of types where roots are read, and on which ground a root stands.

use base_lists::Items;
use resolve_picks::Picks;
use resolve_readings::{Meaning, Typing};
use resolve_types::Columns;

/// What a name may stand for, by where it is written.
#[derive(Clone, Copy, Debug, PartialEq, Eq, Drop)]
pub enum Ground {
    /// Everything that is visible.
    Anywhere,
    /// The bound of a field: sigs, the parameters of the module, and the fields that are joined to
    /// `this` there.
    FieldBound,
    /// The bound of a parameter or a result: no function.
    BodyBound,
}

/// What the declarations of all instances mean by their names.
#[derive(Drop)]
pub struct Types {
    /// The lines of the sigs, and the type of `iden`.
    pub typing: Typing,
    /// The type of `univ`.
    pub univ: Columns,
    /// The number of the sig `String`.
    pub string: u32,
    /// What each declared sig means.
    pub sigs: Items<Meaning>,
    /// What each declared field means.
    pub fields: Items<Meaning>,
    /// What the bare name of each predicate and function means.
    pub bodies: Items<Meaning>,
}

/// What a resolver tells beside a model: the types of all declarations, and what the names of the
/// texts are taken to stand for.
#[derive(Drop)]
pub struct Readings {
    /// What all declarations mean.
    pub types: Types,
    /// For each instance, what the names of its text are taken to stand for, outside of all sigs.
    pub of_instances: Items<Picks>,
    /// For each sig, the same of the names in its appended fact and in the bounds of its fields.
    pub of_sigs: Items<Picks>,
}
