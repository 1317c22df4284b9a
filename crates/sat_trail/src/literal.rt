//! Where a literal stands in lists with one entry a variable, and in lists with two.
//!
//! A literal is a number other than 0: `v` says that variable `v` is true, and `-v` that it is
//! false.

ghost use Rattle.std.specs.Prelude.{◌≡◌, ◌+◌, ◌<◌, ◌≤◌, ◌^◌, ◌++◌, ◌∷◌, [], length, unsigned_abs, slice_set, vec_len, vec_capacity};
ghost use Rattle.std.specs.List.{All};
ghost use Rattle.sat_trail.specs.Literal.{IsLiteral};
ghost use Rattle.sat_trail.specs.Literal as spec;
ghost use Rattle.sat_trail.specs.Assignment.{value_at};

use sat_lists::push_in_room;

/// The place of a literal's variable in a list with one entry for each variable.
#[inline]
pub fn index(literal: i64) -> usize
    requires { 0 < unsigned_abs literal }
    ensures value { result ≡ spec.index literal }
    ensures bound { result < 2 ^ 63 }
{
    literal.unsigned_abs() as usize - 1
}

/// The place of a literal in a list with two entries for each variable.
#[inline]
pub fn list_of(literal: i64) -> usize
    requires { 0 < unsigned_abs literal }
    ensures { result ≡ spec.list_of literal }
{
    let double = 2 * index(literal);
    if literal < 0 { double + 1 } else { double }
}

/// A literal that is kept in 32 bits.
#[inline]
pub fn wide(literal: &i32) -> i64
    ensures { result ≡ literal.now }
{
    i64::from(*literal)
}

/// The literal at a place of a list that keeps each in 32 bits.
#[inline]
pub fn literal_at(literals: &[i32], place: usize) -> i64
    requires { place < length literals.now }
    ensures { result ≡ value_at literals.now place }
{
    wide(&literals[place])
}

/// The same literal in 32 bits.
#[inline]
pub(crate) fn narrow(literal: i64) -> i32
    requires { unsigned_abs literal < 2 ^ 31 }
    ensures { result ≡ literal }
{
    literal as i32
}

/// Writes a literal to a place of such a list.
#[inline]
pub(crate) fn write_literal(literals: &mut Vec<i32>, place: usize, literal: i64)
    requires place { place < length literals.old.items }
    requires fits { unsigned_abs literal < 2 ^ 31 }
    ensures { literals.new.items ≡ slice_set literals.old.items place literal }
{
    literals[place] = narrow(literal);
}

/// Adds a literal at the end of such a list, which has room for it.
pub(crate) fn push_literal(literals: &mut Vec<i32>, literal: &i64)
    requires fits { unsigned_abs literal.now < 2 ^ 31 }
    requires room { vec_len literals.old < vec_capacity literals.old }
    ensures items { literals.new.items ≡ literals.old.items ++ literal.now ∷ [] }
    ensures capacity { vec_capacity literals.old ≤ vec_capacity literals.new }
{
    push_in_room(literals, narrow(*literal));
}

/// Adds literals at the end of such a list, which has room for them.
pub(crate) fn push_literals(literals: &mut Vec<i32>, clause: &[i64], variables: usize)
    requires fits { variables < 2 ^ 31 }
    requires literals { All (IsLiteral variables) clause.now }
    requires room { vec_len literals.old + length clause.now ≤ vec_capacity literals.old }
    ensures { literals.new.items ≡ literals.old.items ++ clause.now }
{
    for place in 0..clause.len() {
        push_literal(literals, &clause[place]);
    }
}
