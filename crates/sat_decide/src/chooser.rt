//! What a search asks of a decision heuristic: a pick, bumps after a conflict, and decay.

use std::alloc::AllocError;

/// Picks the literal that a search makes true.
///
/// A literal is a number other than 0: `v` says that the variable `v` is true and `-v` that it is false, where the
/// variables are numbered from 1. Nothing is promised of what is picked.
pub trait Chooser: Drop {
    /// Makes room for the variables 1 to `variables`. A search calls it once, before the other three. The only error
    /// is want of memory.
    fn start(&mut self, variables: u64) -> Result<(), AllocError>;

    /// A literal to make true. The value of variable `v` is `values[v - 1]`: 1 true, -1 false and 0 free. Where the
    /// answer isn't a literal of a free variable, the search takes the least free variable, as false.
    fn pick(&mut self, values: &[i8]) -> i64;

    /// Raises the weight of a variable that took part in a conflict. It is given by its literal that was true there,
    /// so that the chooser may keep the sign.
    fn bump(&mut self, variable: i64);

    /// Lowers the weights of all variables.
    fn decay(&mut self);
}
