//! What may stand where an expression is needed, by where that is.

ghost use Rattle.std.specs.Prelude.{◌≡◌, ◌-◌};
ghost use Rattle.syntax_machine.specs.Machine as machine;

use crate::thread::{Goal, Item, Mark};

/// How deep a part may be.
pub fn inner(room: Option<u32>) -> Option<u32>
    ensures { result ≡ machine.inner room }
{
    match room {
        None => None,
        Some(room) => Some(room.saturating_sub(1)),
    }
}

/// The depth of a node over a part of this depth.
pub fn deeper(depth: u32) -> u32
    ensures { result ≡ machine.deeper depth }
{
    depth.saturating_add(1)
}

/// Whether a node may stand over a part of this depth.
pub fn has_room(room: Option<u32>, depth: u32) -> bool
    ensures { result ≡ machine.has_room room depth }
{
    match room {
        None => true,
        Some(room) => depth < room,
    }
}

/// An item of a block, the first one or a later one.
pub fn item(is_first: bool, room: Option<u32>) -> Goal
    ensures { result ≡ machine.item is_first room }
{
    Goal {
        least: 0,
        has_forms: true,
        has_bars: true,
        has_words: true,
        has_minus: is_first,
        is_block: false,
        room,
    }
}

/// An expression between brackets that may hold any.
pub fn whole(room: Option<u32>) -> Goal
    ensures { result ≡ machine.whole room }
{
    item(true, room)
}

/// A value of a `let`.
pub fn value(room: Option<u32>) -> Goal
    ensures { result ≡ machine.value room }
{
    Goal {
        has_bars: false,
        ..whole(room)
    }
}

/// The expression of a bound.
pub fn bound(room: Option<u32>) -> Goal
    ensures { result ≡ machine.bound room }
{
    Goal {
        least: 10,
        has_forms: false,
        ..whole(room)
    }
}

/// A block.
pub fn a_block(room: Option<u32>) -> Goal
    ensures { result ≡ machine.a_block room }
{
    Goal {
        least: 19,
        is_block: true,
        ..whole(room)
    }
}

/// The last operand, of this level or a tighter one, of an expression for a goal.
pub fn operand(goal: Goal, least: u8) -> Goal
    ensures { result ≡ machine.operand goal least }
{
    Goal {
        least,
        has_forms: goal.has_forms,
        has_bars: goal.has_bars,
        has_words: true,
        has_minus: true,
        is_block: false,
        room: inner(goal.room),
    }
}

/// The right operand of `in`, where no multiplicity word follows.
pub fn contained(goal: Goal) -> Goal
    ensures { result ≡ machine.contained goal }
{
    Goal {
        has_words: false,
        ..operand(goal, 10)
    }
}

/// The body after `|` of a form with variables.
pub fn body(goal: Goal) -> Goal
    ensures { result ≡ machine.body goal }
{
    Goal {
        has_forms: true,
        ..operand(goal, 0)
    }
}

/// The mark of a form that is not open.
pub fn leaf(level: u8) -> Mark
    ensures { result ≡ machine.leaf level }
{
    Mark {
        level,
        is_open: false,
        is_bare: false,
    }
}

/// A primary that was read.
pub fn have(goal: Goal, depth: u32) -> Item
    ensures { result ≡ machine.have goal depth }
{
    Item::Have(goal, leaf(19), depth)
}

/// Whether an operator of this level may make a new node over an operand of the level `left` or a
/// tighter one.
pub fn leads(level: u8, left: u8, goal: Goal, mark: Mark, depth: u32) -> bool
    ensures { result ≡ machine.leads level left goal mark depth }
{
    let room = has_room(goal.room, depth);
    goal.least <= level && (left <= mark.level && (!mark.is_open && room))
}

/// Whether an operator of this level may go on with a row.
pub fn goes_on(level: u8, goal: Goal, mark: Mark) -> bool
    ensures { result ≡ machine.goes_on level goal mark }
{
    goal.least <= level && (mark.level == level && !mark.is_open)
}
