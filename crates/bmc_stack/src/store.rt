//! The store: the sets and integers that are built, and the stack of rows.

use gate_integers::Bits;
use gate_matrix::Matrix;
use gate_trait::NodeList;

/// What has been built.
#[derive(Drop)]
pub struct Store {
    /// The sets that are named by their numbers.
    pub matrices: Vec<Matrix>,
    /// The integers that are named by their numbers.
    pub integers: Vec<Bits>,
    /// The stack of rows.
    pub rows: Vec<NodeList>,
}
