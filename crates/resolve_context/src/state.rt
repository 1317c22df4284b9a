//! Where a root stands, and what is gathered on the way over the roots.

ghost use Rattle.std.specs.Prelude.{◌≡◌, Some, None};
ghost use Rattle.base_types.specs.declared.place.Position.{Position};

use crate::faults::{Broken, Noted, note};
use crate::known::Known;
use crate::locals::Local;
use base_types::Position;
use resolve_drafts::{CallSite, Pick};
use resolve_hierarchy::Hierarchy;
use resolve_names::Names;
use syntax_tree::Loaded;

/// What a name may stand for, by where it is written.
#[derive(Clone, Copy, Debug, PartialEq, Eq, Drop)]
pub enum Ground {
    /// Everything that is visible.
    Anywhere,
    /// An appended fact: also the fields of the sig and its ancestors, joined to `this`.
    Appended,
    /// A field's bound: only sigs, the module's parameters, and the fields of the sig in lists
    /// before this one, and of its ancestors.
    FieldBound(u32),
    /// The bound of a parameter or a result: no function.
    BodyBound,
}

/// Where a root stands.
#[derive(Drop)]
pub struct Setting<'a> {
    pub loaded: &'a Loaded,
    pub names: &'a Names,
    pub hierarchy: &'a Hierarchy,
    pub known: &'a Known,
    pub instance: u32,
    pub ground: Ground,
    /// In an appended fact or a field's bound the sig and then its ancestors.
    pub above: &'a [u32],
    /// Whether types alone are wanted: nothing is noted, and formulas in it aren't resolved.
    pub is_quiet: bool,
}

/// What a name stands for.
#[derive(Clone, Copy, Debug, Drop)]
pub struct PickAt {
    /// The number of its instance.
    pub instance: u32,
    /// The number of its sig, in an appended fact and in the bound of a field.
    pub sig: Option<u32>,
    pub pick: Pick,
}

/// What is gathered on the way.
#[derive(Drop)]
pub struct State {
    pub locals: Vec<Local>,
    pub least: Option<Noted>,
    pub calls: Vec<CallSite>,
    /// What names stand for.
    pub picks: Vec<PickAt>,
}

/// What is gathered of a root.
#[derive(Clone, Copy, Debug, Drop)]
pub struct Root {
    /// The place of its first name, constant, number, literal or `this`.
    pub first: Option<Position>,
    /// Whether a name of it names nothing.
    pub is_unknown: bool,
    /// Whether something in it was refused.
    pub is_spoilt: bool,
    /// Whether that is so where it stands in a formula's place.
    pub is_spoilt_formula: bool,
}

/// A root of which nothing is gathered yet.
pub fn new_root() -> Root {
    Root {
        first: None,
        is_unknown: false,
        is_spoilt: false,
        is_spoilt_formula: false,
    }
}

/// A name, constant, number, literal or `this` of the root.
pub fn see(root: &mut Root, place: Position)
    ensures kept { (first : Position) → root.old.first ≡ Some first → root.new ≡ root.old }
    ensures first { root.old.first ≡ None → root.new ≡ record {
      first = Some place;
      is_unknown = root.old.is_unknown;
      is_spoilt = root.old.is_spoilt;
      is_spoilt_formula = root.old.is_spoilt_formula;
    } }
{
    if root.first.is_none() {
        root.first = Some(place);
    }
}

/// Notes a broken rule, where that is wanted.
pub fn note_at(setting: &Setting<'_>, state: &mut State, place: Position, broken: Broken) {
    if setting.is_quiet {
        return;
    }
    note(
        &mut state.least,
        Noted {
            instance: setting.instance,
            place,
            broken,
        },
    );
}
