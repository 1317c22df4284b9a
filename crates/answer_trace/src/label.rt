//! How relations and the numbers of a universe are written.

use base_types::Name;
use core_tree::ItemList;
use std::alloc::AllocError;

/// Whether a relation has a line in a state of a trace, and what it holds where it has none.
#[derive(Clone, Copy, Debug, PartialEq, Eq, Drop)]
pub enum Shown {
    /// It has a line.
    Line,
    /// It has no line and no tuple: `String` where there is no literal.
    Nothing,
    /// It has no line and just this atom: the sig of a literal.
    Just(u32),
}

/// How a relation is written.
#[derive(Drop)]
pub struct RelationLabel {
    /// Its label.
    pub label: Name,
    /// How many columns it has.
    pub columns: u32,
    /// Its place in a state.
    pub place: u32,
    /// Whether it has a line.
    pub shown: Shown,
}

/// The labels of relations, in the order in which they are written: each sig and then its fields,
/// `String`, the sigs of literals, and last the fields that no sig owns.
pub type RelationLabelList = ItemList<RelationLabel>;

/// The texts of the numbers of a universe, in order.
pub type TextList = ItemList<Name>;

/// How the relations of a model and the numbers of its universe are written.
#[derive(Drop)]
pub struct Labels {
    pub relations: RelationLabelList,
    pub atoms: TextList,
}

/// Why bytes were not read as a trace.
#[derive(Debug, Drop, thiserror::Error)]
pub enum TraceFault {
    /// No trace text has the lines up to this one, which is counted from 1.
    #[error("line {line} is none of a trace")]
    BadTrace { line: u32 },
    /// Memory was wanting.
    #[error("memory was wanting")]
    Memory,
}

impl From<AllocError> for TraceFault {
    fn from(_: AllocError) -> TraceFault {
        TraceFault::Memory
    }
}
