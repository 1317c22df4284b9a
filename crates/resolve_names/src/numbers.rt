//! Numbers of what is declared. One that doesn't fit is answered by want of memory: the declared
//! names of all instances are fewer than 2^32 - 1, so that it is never met.

ghost use Rattle.std.specs.Prelude.{◌≡◌, ◌+◌, IfOk};

use std::alloc::AllocError;

/// The place as a number.
pub fn number(place: usize) -> Result<u32, AllocError>
    ensures { IfOk result (λ n. n ≡ place) }
{
    if place > 4_294_967_295 {
        return Err(AllocError);
    }
    Ok(place as u32)
}

/// The number behind so many more.
pub fn after(number: u32, count: usize) -> Result<u32, AllocError>
    ensures { IfOk result (λ n. n ≡ number + count) }
{
    let left = 4_294_967_295 - number;
    if count > left as usize {
        return Err(AllocError);
    }
    Ok(number + count as u32)
}
