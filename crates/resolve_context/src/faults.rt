//! Broken rules have an order, and the first one counts.

use base_types::Position;

/// A rule that names and expressions may break.
#[derive(Clone, Copy, Debug, Drop)]
pub enum Broken {
    /// S40: a name names nothing there.
    UnknownName,
    /// S41: an expression has several readings.
    Ambiguous,
    /// S42: an expression has no reading.
    NoReading,
    /// S43: a root has more readings than 4,096.
    TooManyReadings,
    /// S44: a predicate or function calls itself, directly or not.
    RecursiveCall,
    /// S45: a variable of a quantifier or comprehension would range over relations.
    HigherOrder,
    /// S47: an expression or a field has more than 9 columns.
    ArityLimit,
}

/// A broken rule, with the instance and the place.
#[derive(Clone, Copy, Debug, Drop)]
pub struct Noted {
    pub instance: u32,
    pub place: Position,
    pub broken: Broken,
}

fn number_of(broken: Broken) -> u32 {
    match broken {
        Broken::UnknownName => 40,
        Broken::Ambiguous => 41,
        Broken::NoReading => 42,
        Broken::TooManyReadings => 43,
        Broken::RecursiveCall => 44,
        Broken::HigherOrder => 45,
        Broken::ArityLimit => 47,
    }
}

/// Whether a place stands before another in a text.
pub fn is_place_before(a: Position, b: Position) -> bool {
    a.line < b.line || a.line == b.line && a.column < b.column
}

fn is_same_place(a: Position, b: Position) -> bool {
    a.line == b.line && a.column == b.column
}

/// Whether the first counts before the second: the earlier instance, then the earlier place, then
/// the lower number.
fn is_before(a: &Noted, b: &Noted) -> bool {
    if a.instance != b.instance {
        return a.instance < b.instance;
    }
    if is_same_place(a.place, b.place) {
        return number_of(a.broken) < number_of(b.broken);
    }
    is_place_before(a.place, b.place)
}

/// Keeps the one that counts first.
pub fn note(least: &mut Option<Noted>, noted: Noted) {
    match least {
        Some(before) if !is_before(&noted, before) => {}
        _ => *least = Some(noted),
    }
}
