//! Assignments of a table, by numbers.

use std::alloc::{AllocError, Global};

/// The lowest bits of a number, the least first.
pub fn low_bits(alloc: Global, number: u64, many: u64) -> Result<Vec<bool>, AllocError> {
    let mut bits = Vec::new(alloc);
    for place in 0..many {
        bits.push((number >> (place % 64)) & 1 == 1)?;
    }
    Ok(bits)
}
