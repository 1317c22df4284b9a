//! Tests whether the marked lines need no other.

ghost use Rattle.std.specs.Prelude.{◌≡◌, ◌<◌, ◌≤◌, length};
ghost use Rattle.std.specs.List.{list_all};
ghost use Rattle.sat_lrat.specs.Step.{is_empty_lemma};
ghost use Rattle.sat_lemmas.specs.Kept.{is_marked, is_known, may_stay, is_right, are_right};

use crate::mark::place_of;
use sat_lrat::Line;

/// Whether a line is an empty lemma.
pub(crate) fn is_empty_lemma(line: &Line) -> bool
    ensures { result ≡ is_empty_lemma line.now }
{
    match line {
        Line::Lemma { clause, .. } => clause.is_empty(),
        Line::Delete { ids: _ } => false,
    }
}

/// Whether a number may be a hint at a place: that of a clause, or of a marked line before.
fn is_known(clauses: usize, marks: &[bool], place: usize, number: u64) -> bool
    requires { place ≤ length marks.now }
    ensures { result ≡ is_known clauses (is_marked marks.now) place number }
{
    match place_of(clauses, number) {
        None => true,
        Some(other) => other < place && marks[other],
    }
}

/// Whether all numbers may be hints at a place.
fn are_known(clauses: usize, marks: &[bool], place: usize, numbers: &[u64]) -> bool
    requires { place ≤ length marks.now }
    ensures { result ≡ list_all (is_known clauses (is_marked marks.now) place) numbers.now }
{
    numbers
        .iter()
        .all(|number| is_known(clauses, marks, place, *number))
}

/// Whether a line is a lemma that may be kept at a place: it has the number of the place, and its hints are known.
fn may_stay(clauses: usize, marks: &[bool], place: usize, line: &Line) -> bool
    requires { place ≤ length marks.now }
    ensures { result ≡ may_stay clauses (is_marked marks.now) place line.now }
{
    match line {
        Line::Lemma { id, hints, .. } => {
            place_of(clauses, *id) == Some(place)
                && are_known(clauses, marks, place, hints.numbers())
        }
        Line::Delete { .. } => false,
    }
}

/// Whether a line may be kept, where it is marked, or left out.
fn is_right(clauses: usize, marks: &[bool], place: usize, line: &Line) -> bool
    requires { place < length marks.now }
    ensures { result ≡ is_right clauses (is_marked marks.now) place line.now }
{
    if marks[place] {
        return may_stay(clauses, marks, place, line);
    }
    !is_empty_lemma(line)
}

/// Whether this is so of each line.
pub(crate) fn are_right(clauses: usize, marks: &[bool], lines: &[Line]) -> bool
    requires { length lines.now ≤ length marks.now }
    ensures { result ≡ are_right clauses (is_marked marks.now) 0 lines.now }
{
    for place in 0..lines.len() {
        if !is_right(clauses, marks, place, &lines[place]) {
            return false;
        }
    }
    true
}
