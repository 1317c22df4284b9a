//! A target: the formulas that a lasso is to satisfy, and the scopes that it is to keep.

use crate::scopes::Scopes;
use core_tree::FormulaList;

/// Formulas that are to hold at position 0, and the scopes that a lasso is to keep. The formulas
/// are closed kernel formulas.
#[derive(Drop)]
pub struct Target {
    pub formulas: FormulaList,
    pub scopes: Scopes,
}
