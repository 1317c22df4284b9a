//! Which variable says that a tuple is in a relation at a state.

ghost use Rattle.std.specs.Prelude.{◌≡◌, ◌<◌, ◌^◌};

/// Where the variables of a relation stand.
#[derive(Clone, Copy, Debug, PartialEq, Eq)]
pub struct Cells {
    /// The variable of the first tuple at state 0; the others follow in order.
    pub first: u64,
    /// The same at state 1. A relation that is the same in all states has the same variables there.
    pub next: u64,
    /// How far the variables of each later state lie behind those of the state before it.
    pub stride: u64,
}

/// The numbers of the table's variables: for each state and each relation in order, one for each
/// tuple of its upper bound, those of a fixed relation at state 0 alone; then one for each loop
/// index where there are several states.
#[derive(Drop)]
pub struct Layout {
    /// For each relation, in the order of the bounds.
    pub relations: Vec<Cells>,
    /// The variable that says that the loop begins at state 0; those of the other states follow.
    pub loops: u64,
    /// How many variables there are.
    pub variables: u64,
}

impl Cells {
    ghost use Rattle.bound_uppers.specs.Table.{cell_at};

    /// The variable of the first tuple at a state, or the greatest number where it would be greater.
    pub fn at(&self, state: u32) -> u64
        ensures exact { cell_at self.now state < 2 ^ 64 → result ≡ cell_at self.now state }
    {
        if state == 0 {
            return self.first;
        }
        let states = (state - 1) as u64;
        self.next.saturating_add(states.saturating_mul(self.stride))
    }
}
