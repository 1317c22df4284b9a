//! A judgement: what was found on a trace, part by part.

use crate::fact::FactName;
use core_tree::ItemList;

/// A fact, and whether it holds at the first position.
#[derive(Drop)]
pub struct JudgedFact {
    pub fact: FactName,
    pub holds: bool,
}

/// Facts that were judged, in order.
pub type JudgedFactList = ItemList<JudgedFact>;

/// What was found on a trace, part by part.
#[derive(Drop)]
pub struct Judgement {
    /// Whether the scopes are kept.
    pub scopes: bool,
    /// The least position at which a declaration doesn't hold, where there is one.
    pub broken_at: Option<u64>,
    pub facts: JudgedFactList,
    /// Whether the command's formula holds at the first position.
    pub command: bool,
}
