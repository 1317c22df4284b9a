//! Marks for false literals, which a new stamp clears all at once.

ghost use Rattle.std.specs.Prelude.{◌≡◌, not, neg_ℤ, IsTrue, ◌<◌, ◌≤◌, ◌||◌, ℕ, ℤ, length, slice_index, slice_set, OnOk, OnErr, vec_len};
ghost use Rattle.std.specs.Ordering.{int_eq};
ghost use Rattle.sat_lrat.specs.Step.{among, rest_of, beside, with_literal};
ghost use Rattle.sat_checker.specs.Answers.{IfOne, together};
ghost use Rattle.sat_checker.specs.Marks.{slot_of, fails_by, HasMarks, IsCovered, AreUpTo, AreBefore};

use sat_lrat::Rest;
use std::alloc::AllocError;

/// The place of a literal's mark.
#[inline]
pub(crate) fn slot(literal: i64) -> usize
    ensures { result ≡ slot_of literal }
{
    if literal >= 0 {
        2 * literal as usize
    } else {
        2 * (-(literal + 1)) as usize + 1
    }
}

/// Whether a literal is marked as false.
#[inline]
pub(crate) fn is_marked(marks: &[u32], stamp: u32, literal: i64) -> bool
    requires { HasMarks (length marks.now) literal }
    ensures { result ≡ fails_by stamp marks.now literal }
{
    marks[slot(literal)] == stamp
}

/// Makes a literal true, by a mark on its negation. It answers false, and does nothing, where the
/// negation is true already.
#[inline]
#[tactic(auto, using(crate::proofs::Marking::negated, crate::proofs::Marking::fails_by_set_all))]
pub(crate) fn make_true(marks: &mut [u32], stamp: u32, literal: i64) -> bool
    requires marks { HasMarks (length marks.old) literal }
    requires up_to { AreUpTo stamp marks.old }
    ensures free { result ≡ not (fails_by stamp marks.old (neg_ℤ literal)) }
    ensures marked { IsTrue result →
        fails_by stamp marks.new ≡ with_literal (neg_ℤ literal) (fails_by stamp marks.old) }
    ensures up_to { AreUpTo stamp marks.new }
{
    let negation = -literal;
    if is_marked(marks, stamp, negation) {
        return false;
    }
    let place = slot(negation);
    marks[place] = stamp;
    true
}

/// Marks a literal as false, where it may have a mark.
#[inline]
#[tactic(auto, using(crate::proofs::Marking::marked_there, crate::proofs::Marking::unmarked_there))]
fn mark_if_room(marks: &mut [u32], stamp: u32, literal: i64)
    requires { AreUpTo stamp marks.old }
    ensures marked { (x : ℤ) → slot_of x < length marks.new →
        fails_by stamp marks.new x ≡ (fails_by stamp marks.old x || int_eq literal x) }
    ensures up_to { AreUpTo stamp marks.new }
{
    let place = slot(literal);
    if place < marks.len() {
        marks[place] = stamp;
    }
}

/// Marks those literals as false that may have a mark.
pub(crate) fn mark_all(marks: &mut [u32], stamp: u32, literals: &[i64])
    requires { AreBefore stamp marks.old }
    ensures marked { (x : ℤ) → slot_of x < length marks.new →
        fails_by stamp marks.new x ≡ among literals.now x }
    ensures up_to { AreUpTo stamp marks.new }
{
    for literal in literals {
        mark_if_room(marks, stamp, *literal);
    }
}

/// What was found, with one more literal that is not false.
#[inline]
fn with_found(found: Rest, literal: i64) -> Rest
    ensures together { (rest : Rest) → together result rest ≡ together found (beside literal rest) }
    ensures one { (n : ℕ) → HasMarks n literal → IfOne found (HasMarks n) →
        IfOne result (HasMarks n) }
{
    match found {
        Rest::Nothing => Rest::One(literal),
        Rest::One(other) if other == literal => found,
        _ => Rest::Several,
    }
}

/// What a clause has beside false literals.
#[inline]
pub(crate) fn rest(marks: &[u32], stamp: u32, literals: &[i64]) -> Rest
    requires { IsCovered (length marks.now) literals.now }
    ensures value { result ≡ rest_of (fails_by stamp marks.now) literals.now }
    ensures one { IfOne result (HasMarks (length marks.now)) }
{
    let mut found = Rest::Nothing;
    for literal in literals {
        if !is_marked(marks, stamp, *literal) {
            found = with_found(found, *literal);
        }
    }
    found
}

/// A stamp that no mark has.
pub(crate) fn fresh_stamp(marks: &mut [u32], stamp: u32) -> u32
    requires { AreUpTo stamp marks.old }
    ensures length { length marks.new ≡ length marks.old }
    ensures before { AreBefore result marks.new }
{
    if stamp < u32::MAX {
        return stamp + 1;
    }
    for old in marks.iter_mut() {
        *old = 0;
    }
    1
}
