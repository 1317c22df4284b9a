//! The setting of an encoding: the table, the scopes and the places.

use bmc_windows::Frame;
use bound_uppers::{Bounds, Layout};
use core_meaning::Scopes;
use core_tree::Variable;
use core_tuples::Universe;

/// The table, the scopes and the places.
#[derive(Clone, Copy)]
pub struct Setting<'a> {
    pub bounds: &'a Bounds,
    pub layout: &'a Layout,
    pub scopes: &'a Scopes,
    pub universe: Universe,
    pub frame: &'a Frame,
}

/// How many variables a list has; 0 where a tuple can't have so many numbers.
pub fn columns_of(list: &[Variable]) -> u32 {
    // ArityLimit, S47: a relation has at most nine columns.
    if list.len() <= 9 {
        list.len() as u32
    } else {
        0
    }
}
