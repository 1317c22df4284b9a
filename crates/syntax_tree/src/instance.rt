//! The modules of an analysis: the texts that were read, and the instances that they have.

use crate::module::Module;
use base_lists::Items;
use base_types::Name;

/// A text that was read.
#[derive(Drop)]
pub struct Text {
    /// The name under which it was found.
    pub name: Name,
    pub tree: Module,
}

/// A sig of an instance.
#[derive(Clone, Copy, Debug, PartialEq, Eq)]
pub struct SigRef {
    /// The number of the instance, counted from 0 in the order of loading.
    pub instance: u32,
    /// The number of the sig among those of its text, counted from 0 in the order of the text. An
    /// enum is a sig, and its members are sigs after it.
    pub sig: u32,
}

/// An open of an instance.
#[derive(Drop)]
pub struct Opened {
    /// The name before the slash that reaches it.
    pub alias: Name,
    /// The number of the opened instance.
    pub instance: u32,
}

/// The arguments of an instance: a sig, or none where it is `Int`.
pub type ArgumentList = Items<Option<SigRef>>;

/// The opens of an instance: those that are written, then those that enums imply, then the
/// implicit one of the integers, where there is one.
pub type OpenedList = Items<Opened>;

/// A text with arguments for its parameters.
#[derive(Drop)]
pub struct Instance {
    /// The number of its text.
    pub text: u32,
    pub arguments: ArgumentList,
    /// What its sigs' labels begin with; empty for the root.
    pub label: Name,
    pub opens: OpenedList,
}

/// The texts of an analysis, in the order of loading.
pub type TextList = Items<Text>;

/// The instances of an analysis, in the order of loading, the root first.
pub type InstanceList = Items<Instance>;
