//! A refusal goes with the name of the text that has its place.

ghost use Rattle.std.specs.Prelude.{◌≡◌, IfOk};
ghost use Rattle.load_state.specs.Causes.{IsRefusal, IsUnread};
ghost use Rattle.load_state.specs.Refusals.{start_of};

use crate::LoadFault;
use base_types::{Name, Position, Refusal, Rule};
use std::alloc::{AllocError, Global};

#[tactic(auto, unfolding(crate::specs::Causes::IsRefusal))]
/// The refusal of a text by a rule that it breaks at a place.
pub fn refused(alloc: Global, rule: Rule, place: Position, name: &str) -> LoadFault
    ensures { IsRefusal rule place name.now result }
{
    match Name::copy(alloc, name) {
        Ok(name) => LoadFault::Refused(Refusal { rule, place }, name),
        Err(_) => LoadFault::Memory,
    }
}

#[tactic(auto, unfolding(crate::specs::Causes::IsUnread))]
/// The fault of a library that was asked for a name.
pub fn unread(alloc: Global, name: &str) -> LoadFault
    ensures { IsUnread name.now result }
{
    match Name::copy(alloc, name) {
        Ok(name) => LoadFault::Read(name),
        Err(_) => LoadFault::Memory,
    }
}

/// The first place of a text.
pub fn start_of(text: u32) -> Position
    ensures { result ≡ start_of text }
{
    Position {
        module: text,
        line: 1,
        column: 1,
    }
}

/// A number of a text, an instance or a sig.
pub fn small(number: usize) -> Result<u32, AllocError>
    ensures { IfOk result (λ n. n ≡ number) }
{
    if number > u32::MAX as usize {
        return Err(AllocError);
    }
    Ok(number as u32)
}
