//! The table of names has, for each instance, what it declares and what it opens.

ghost use Rattle.resolve_names.specs.Marks.{IsLinked};

use crate::index::DeclaredList;
use base_lists::Items;
use base_types::{Name, Refusal};
use syntax_tree::SigRef;

/// What a name stands for.
#[derive(Clone, Copy, Debug, PartialEq, Eq, Drop)]
pub enum Decl {
    /// A sig.
    Sig(SigRef),
    /// A parameter of a module, and what it stands for: a sig, or none where it is `Int`.
    Parameter(Option<SigRef>),
    /// A field, counted from 0 over all instances in load order and then text order.
    Field(u32),
    /// A predicate or a function, counted from 0 over all instances in load order and then text
    /// order.
    Body(u32),
}

/// A name that an instance declares.
#[derive(Drop)]
pub struct Declared {
    pub name: Name,
    /// Whether it is seen in its own module alone.
    pub is_private: bool,
    pub what: Decl,
}

/// An open of an instance.
#[derive(Drop)]
pub struct Link {
    /// The name before the slash that reaches it.
    pub alias: Name,
    /// Whether it is followed from its own module alone.
    pub is_private: bool,
    /// The number of the opened instance.
    pub instance: u32,
}

/// The names of an instance.
#[derive(Drop)]
pub struct Namespace {
    /// The number of its first sig over all instances.
    pub first_sig: u32,
    /// How many sigs it has.
    pub sigs: u32,
    /// The names that it declares, in text order.
    pub declared: DeclaredList,
    pub opens: Items<Link>,
}

/// Where a sig is declared.
#[derive(Clone, Copy, Debug, Drop)]
pub struct SigEntry {
    /// The number of its instance.
    pub instance: u32,
    /// The place of its paragraph among those of the text.
    pub paragraph: u32,
    /// Its place among the names of its paragraph; of an enum 0, and of its members 1 and on.
    pub member: u32,
}

/// Where a field is declared.
#[derive(Clone, Copy, Debug, Drop)]
pub struct FieldEntry {
    /// The number of its sig over all instances.
    pub sig: u32,
    /// The number of its instance.
    pub instance: u32,
    /// The place of its sig's paragraph among those of the text.
    pub paragraph: u32,
    /// The place of its list of names among those of the paragraph.
    pub group: u32,
    /// Its place in that list.
    pub member: u32,
}

/// Where a predicate or a function is declared.
#[derive(Clone, Copy, Debug, Drop)]
pub struct BodyEntry {
    /// The number of its instance.
    pub instance: u32,
    /// The place of its paragraph among those of the text.
    pub paragraph: u32,
}

/// The names of all instances, with the places of what they name.
#[derive(Drop)]
pub struct Names {
    /// The names of each instance, in load order.
    pub scopes: Items<Namespace>,
    /// The sigs of all instances, in load order and then text order.
    pub sigs: Items<SigEntry>,
    /// The fields of all instances, in load order and then text order.
    pub fields: Items<FieldEntry>,
    /// The predicates and functions of all instances, in load order and then text order.
    pub bodies: Items<BodyEntry>,
    pub ghost linked: { IsLinked scopes },
}
