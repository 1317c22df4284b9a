//! The hierarchy of the sigs of all instances, and what overlaps in it.

ghost use Rattle.std.specs.Prelude.{◌≡◌};
ghost use Rattle.std.specs.List.{list_any};
ghost use Rattle.resolve_hierarchy.specs.Overlap.{meets_one, overlap_of, members_at};

use base_lists::Items;
use base_types::Refusal;
use resolve_types::{Member, meet};

/// Where a sig stands.
#[derive(Drop)]
pub enum Kind {
    /// A top-level sig.
    Top,
    /// A sig that extends the one of this number.
    Extends(u32),
    /// A sig inside the union of these parents.
    Subset(Items<Member>),
}

/// The hierarchy of the sigs of all instances. They are numbered in load order and then text
/// order, and `String` is the last one.
#[derive(Drop)]
pub struct Hierarchy {
    /// Where each sig stands.
    pub kinds: Items<Kind>,
    /// The line of each sig: itself, what it extends, and so on up to its top-level sig. The line
    /// of a subset sig is empty.
    pub lines: Items<Items<u32>>,
    /// The members of each sig's type: itself, or for a subset sig the members of its parents'
    /// types.
    pub members: Items<Items<Member>>,
    /// The sigs in an order in which each stands behind its parents.
    pub order: Items<u32>,
}

/// Whether two members meet.
fn does_meet(lines: &Items<Items<u32>>, a: Member, b: Member) -> bool
    ensures { result ≡ meets_one lines.now a b }
{
    meet(lines, a, b).is_some()
}

/// Whether the member meets one of the others.
fn meets_some(lines: &Items<Items<u32>>, member: Member, others: &[Member]) -> bool
    ensures { result ≡ list_any (meets_one lines.now member) others.now }
{
    for other in others {
        if does_meet(lines, member, *other) {
            return true;
        }
    }
    false
}

/// Whether a member of the one list meets one of the other.
pub fn some_meet(lines: &Items<Items<u32>>, a: &[Member], b: &[Member]) -> bool
    ensures { result ≡ list_any (λ m. list_any (meets_one lines.now m) b.now) a.now }
{
    for member in a {
        if meets_some(lines, *member, b) {
            return true;
        }
    }
    false
}

/// The members of the type of a sig.
pub fn members_of(members: &Items<Items<Member>>, sig: usize) -> &[Member]
    ensures { result.now ≡ members_at members.now sig }
{
    match members.as_slice().get(sig) {
        None => &[],
        Some(list) => list.as_slice(),
    }
}

impl Hierarchy {
    /// Whether the types of two sigs have members that meet; the sigs are given by their numbers
    /// over all instances.
    pub fn numbers_overlap(&self, a: u32, b: u32) -> bool
        ensures { result ≡ overlap_of self.now.lines self.now.members a b }
    {
        let first = members_of(&self.members, a as usize);
        let second = members_of(&self.members, b as usize);
        some_meet(&self.lines, first, second)
    }
}
