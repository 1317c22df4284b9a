//! The scopes of a command, as numbers: its universe, and how many states a lasso has at most.

ghost use Rattle.std.specs.Prelude.{◌≡◌, IfOk};

use core_tree::ItemList;
use std::alloc::{AllocError, Global};

/// What the scopes say of a sig.
#[derive(Clone, Copy, Debug, PartialEq, Eq, Drop)]
pub struct SigScope {
    /// How many atoms the sig has at most at all positions together, where it has a number.
    pub number: Option<u64>,
    /// Whether it has just that many.
    pub exact: bool,
    /// Whether it is top-level.
    pub top: bool,
}

/// What the scopes say of each sig of a model, in the model's order.
pub type SigScopeList = ItemList<SigScope>;

/// The scopes of a command: the sizes of its universe and how many states a lasso has at most.
#[derive(Drop)]
pub struct Scopes {
    pub numbers: SigScopeList,
    /// The bitwidth of integers.
    pub bits: u32,
    /// How many states a lasso has at most.
    pub states: u32,
}

impl Scopes {
    /// Equal scopes.
    pub fn copy(&self, alloc: Global) -> Result<Scopes, AllocError>
        ensures { IfOk result (λ s. s ≡ self.now) }
    {
        Ok(Scopes {
            numbers: copies(alloc, self.numbers.as_slice())?,
            bits: self.bits,
            states: self.states,
        })
    }
}

/// An equal list.
fn copies(alloc: Global, numbers: &[SigScope]) -> Result<SigScopeList, AllocError>
    ensures { IfOk result (λ l. l ≡ numbers.now) }
{
    let mut list = SigScopeList::new(alloc);
    for number in numbers {
        list.push(*number)?;
    }
    Ok(list)
}
