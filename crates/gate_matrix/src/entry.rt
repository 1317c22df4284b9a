//! An entry of a matrix: a tuple, and the node that says whether it is in the set.

ghost use Rattle.std.specs.Prelude.{◌≡◌, ◌++◌, IfOk, OnOk, Option};

use core_tuples::Keyed;
use gate_trait::Node;
use std::alloc::{AllocError, Global};

/// A tuple with the node that says whether the tuple is in the set.
#[derive(Drop)]
pub struct Entry {
    /// The tuple.
    pub tuple: Keyed,
    /// Whether it is in the set.
    pub node: Node,
}

impl Entry {
    /// A copy.
    pub fn copy(&self, alloc: Global) -> Result<Entry, AllocError>
        ensures { IfOk result (λ e. e ≡ self.now) }
    {
        Ok(Entry {
            tuple: self.tuple.copy(alloc)?,
            node: self.node,
        })
    }
}
