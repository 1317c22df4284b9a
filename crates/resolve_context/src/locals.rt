//! Locals are variables, parameters and `let` names, each with a number.

use base_types::Name;
use resolve_types::Columns;
use std::alloc::{AllocError, Global};

/// A variable, a parameter or a `let` name. Its number is its place among those in scope.
#[derive(Drop)]
pub struct Local {
    pub name: Name,
    /// Its type; none where what it stands for was refused.
    pub columns: Option<Columns>,
}

/// The number of the innermost local of that name.
pub fn find_local(locals: &[Local], name: &str) -> Option<usize> {
    for step in 0..locals.len() {
        let place = locals.len() - 1 - step;
        if locals[place].name.text() == name {
            return Some(place);
        }
    }
    None
}

/// Adds a local; the answer is its number.
pub fn add_local(
    alloc: Global,
    locals: &mut Vec<Local>,
    name: &str,
    columns: Option<Columns>,
) -> Result<u32, AllocError> {
    let number = number_of(locals.len());
    let name = Name::copy(alloc, name)?;
    locals.push(Local { name, columns })?;
    Ok(number)
}

/// The number of the next one after so many; there are never so many that it doesn't fit.
pub fn number_of(count: usize) -> u32 {
    match u32::try_from(count) {
        Ok(number) => number,
        Err(_) => u32::MAX,
    }
}
