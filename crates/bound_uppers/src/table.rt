//! Upper bounds of all relations, and the faults for which there are none.

use base_types::Refusal;
use core_tree::ItemList;
use core_tuples::TupleSet;
use std::alloc::AllocError;

/// What is known of a relation before a lasso is looked for.
#[derive(Drop)]
pub struct Bound {
    /// The tuples that it may have.
    pub upper: TupleSet,
    /// Whether it is the same in all states.
    pub fixed: bool,
    /// Its place in the order of relations, counted from 0.
    pub order: u64,
}

/// A bound for each sig of a model and then for each field.
pub type BoundList = ItemList<Bound>;

/// The upper bounds of all relations, and how many states a lasso has.
#[derive(Drop)]
pub struct Bounds {
    pub relations: BoundList,
    pub states: u32,
}
