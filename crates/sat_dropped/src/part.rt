//! Whether all literals of a clause are among those of another.

ghost use Rattle.std.specs.Prelude.{◌≡◌, ◌<◌, ◌↔◌, length, IsTrue, IsFalse};
ghost use Rattle.std.specs.List.{All, Contains};
ghost use Rattle.sat_trail.specs.Assignment.{value_at};
ghost use Rattle.sat_dropped.specs.Part.{IsPart, slot_of, HasSlot, bit_of, signature_of, ArePlaced};

use sat_trail::wide;

/// The place of a literal in a list that begins with one for 0 and goes on with two for each variable.
#[inline]
pub(crate) fn slot(literal: i64) -> usize
    ensures { result ≡ slot_of literal }
{
    if literal >= 0 {
        2 * literal as usize
    } else {
        2 * (-(literal + 1)) as usize + 1
    }
}

/// The bit of a literal in signatures.
#[inline]
fn bit(literal: i64) -> u64
    ensures { result ≡ bit_of literal }
{
    1 << (slot(literal) % 64)
}

/// The bits of all literals of a clause together.
pub(crate) fn signature(literals: &[i64]) -> u64
    ensures { result ≡ signature_of literals.now }
{
    let mut bits = 0;
    for literal in literals {
        bits |= bit(*literal);
    }
    bits
}

/// The bits of all literals of a clause of the trail together.
pub(crate) fn kept_signature(literals: &[i32]) -> u64
    ensures { result ≡ signature_of literals.now }
{
    let mut bits = 0;
    for literal in literals {
        bits |= bit(wide(literal));
    }
    bits
}

/// Keeps for each literal of a list a place where it stands.
pub(crate) fn keep_places(places: &mut Vec<usize>, literals: &[i64])
    requires { All (HasSlot (length places.old.items)) literals.now }
    ensures count { length places.new.items ≡ length places.old.items }
    ensures placed { ArePlaced places.new.items literals.now }
{
    for place in 0..literals.len() {
        places[slot(literals[place])] = place;
    }
}

#[inline]
fn are_same(one: i64, other: i64) -> bool
    ensures { IsTrue result ↔ (one ≡ other) }
{
    one == other
}

/// Whether a literal is among some, by the places that are kept for these.
#[inline]
fn is_among(places: &[usize], literals: &[i64], literal: i64) -> bool
    requires slot { HasSlot (length places.now) literal }
    requires placed { ArePlaced places.now literals.now }
    ensures among { IsTrue result → Contains literals.now literal }
    ensures other { IsFalse result → Contains literals.now literal → ⊥ }
{
    let place = places[slot(literal)];
    if place >= literals.len() {
        return false;
    }
    are_same(literals[place], literal)
}

/// Whether each literal of a clause is among some, by the places that are kept for these.
pub(crate) fn are_among(places: &[usize], literals: &[i64], clause: &[i32]) -> bool
    requires slots { All (HasSlot (length places.now)) clause.now }
    requires placed { ArePlaced places.now literals.now }
    ensures part { IsTrue result → IsPart clause.now literals.now }
    ensures other { IsFalse result → IsPart clause.now literals.now → ⊥ }
{
    for literal in clause {
        if !is_among(places, literals, wide(literal)) {
            return false;
        }
    }
    true
}
