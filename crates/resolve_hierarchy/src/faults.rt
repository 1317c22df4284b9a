//! Broken rules of declarations have an order, and the first one counts.

ghost use Rattle.std.specs.Prelude.{length};
ghost use Rattle.resolve_hierarchy.specs.Refused.{is_of_hierarchy, IsFault};
ghost use Rattle.std.specs.Prelude.{◌≡◌, true};

use base_types::{Fault, Position, Refusal, Rule};
use resolve_names::place_in;
use syntax_tree::Loaded;

/// A rule that the declarations of sigs and fields may break.
#[derive(Clone, Copy, Debug, Drop)]
pub enum Broken {
    /// S31: a parent's name doesn't mean exactly one sig.
    NoParent,
    /// S32: a sig is its own ancestor.
    ParentCycle,
    /// S33: `Int` or a subset sig is extended.
    ExtendsSubset,
    /// S34: two fields of one sig, or of sigs that overlap, have one name.
    FieldTwice,
}

/// A broken rule, with the instance and the place.
#[derive(Clone, Copy, Debug, Drop)]
pub struct Noted {
    pub instance: u32,
    pub place: Position,
    pub broken: Broken,
}

fn number_of(broken: Broken) -> u32 {
    match broken {
        Broken::NoParent => 31,
        Broken::ParentCycle => 32,
        Broken::ExtendsSubset => 33,
        Broken::FieldTwice => 34,
    }
}

fn rule_of(broken: Broken) -> Rule
    ensures { is_of_hierarchy result ≡ true }
{
    match broken {
        Broken::NoParent => Rule::NoParent,
        Broken::ParentCycle => Rule::ParentCycle,
        Broken::ExtendsSubset => Rule::ExtendsSubset,
        Broken::FieldTwice => Rule::FieldTwice,
    }
}

/// Whether a place stands before another in a text.
fn is_place_before(a: Position, b: Position) -> bool {
    a.line < b.line || a.line == b.line && a.column < b.column
}

fn is_same_place(a: Position, b: Position) -> bool {
    a.line == b.line && a.column == b.column
}

/// Whether the first counts before the second: the earlier instance, then the earlier place, then
/// the lower number.
fn is_before(a: &Noted, b: &Noted) -> bool {
    if a.instance != b.instance {
        return a.instance < b.instance;
    }
    if is_same_place(a.place, b.place) {
        return number_of(a.broken) < number_of(b.broken);
    }
    is_place_before(a.place, b.place)
}

/// Keeps the one that counts first.
pub fn note(least: &mut Option<Noted>, noted: Noted) {
    match least {
        Some(before) if !is_before(&noted, before) => {}
        _ => *least = Some(noted),
    }
}

/// The refusal by a broken rule.
pub fn refused(loaded: &Loaded, noted: Noted) -> Fault
    ensures { IsFault (length loaded.now.texts) result }
{
    match place_in(loaded, noted.instance, noted.place) {
        // No rule is noted for an instance that isn't there.
        None => Fault::Memory,
        Some(place) => Fault::Refused(Refusal {
            rule: rule_of(noted.broken),
            place,
        }),
    }
}
