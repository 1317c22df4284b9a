//! Pairs of variables.

use core_tree::ItemList;

/// The variables of two tuples that an exchange of two atoms makes of each other.
#[derive(Clone, Copy, Debug, PartialEq, Eq, Drop)]
pub struct Pair {
    /// That of the tuple that comes first in the table.
    pub earlier: u64,
    /// That of the other.
    pub later: u64,
}

/// Pairs in order.
pub type PairList = ItemList<Pair>;
