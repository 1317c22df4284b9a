//! The universe: how many numbers stand for atoms, and after them for integers.

/// How many numbers there are: first one for each atom of a sig, the distinct string literals last
/// among them, then one for each integer of the bitwidth, from the least up.
#[derive(Clone, Copy, Debug, PartialEq, Eq)]
pub struct Universe {
    /// How many atoms there are.
    pub atoms: u32,
    /// The bitwidth of the integers: there are 2 to this power of them.
    pub bits: u32,
}
