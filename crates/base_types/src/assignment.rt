//! An assignment has a truth value for each of the variables from 1 on.

ghost use Rattle.std.specs.Prelude.{◌≡◌, ◌-◌, ◌<◌, ◌≤◌, length, IfOk, slice_index_or, false};

use std::alloc::{AllocError, Global};
use std::marker::Model;

/// A truth value for each of the propositional variables 1, 2 and on. Contracts see the list of these values.
#[derive(Debug, Drop)]
pub struct Assignment {
    values: Vec<bool>,
}

impl Model for Assignment {
    ghost use Rattle.std.specs.Prelude.{List, Bool};

    ghost Value = { List Bool };

    ghost view = { λ assignment. assignment.values.items };
}

impl Assignment {
    /// The assignment that gives the variables 1, 2 and on these values.
    pub fn new(alloc: Global, values: &[bool]) -> Result<Assignment, AllocError>
        ensures { IfOk result (λ assignment. assignment ≡ values.now) }
    {
        let values = values.to_vec(alloc)?;
        Ok(Assignment { values })
    }

    /// How many variables have a value.
    pub fn variables(&self) -> u64
        ensures { result ≡ length self.now }
    {
        self.values.len() as u64
    }

    /// The value of a variable.
    pub fn value(&self, variable: u64) -> bool
        requires { (0 < variable) × (variable ≤ length self.now) }
        ensures { result ≡ slice_index_or self.now (variable - 1) false }
    {
        self.values[variable as usize - 1]
    }
}
