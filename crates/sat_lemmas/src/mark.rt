//! Marks the lines that the empty lemma is drawn from.

ghost use Rattle.std.specs.Prelude.{◌≡◌, ◌<◌, length};
ghost use Rattle.sat_lemmas.specs.Kept.{place_of};

use sat_lrat::Line;

/// The place of the line that has a number, unless that is a clause's. The lemmas have the numbers behind the clauses' in
/// turn.
pub(crate) fn place_of(clauses: usize, number: u64) -> Option<usize>
    ensures { result ≡ place_of clauses number }
{
    if number <= clauses as u64 {
        return None;
    }
    Some((number - clauses as u64 - 1) as usize)
}

/// Marks the line that has a number, if there is one.
fn mark(clauses: usize, number: u64, marks: &mut [bool])
    ensures { length marks.new ≡ length marks.old }
{
    if let Some(place) = place_of(clauses, number) {
        if place < marks.len() {
            marks[place] = true;
        }
    }
}

/// Marks the lines that a lemma is drawn from.
fn mark_hints(clauses: usize, line: &Line, marks: &mut [bool])
    ensures { length marks.new ≡ length marks.old }
{
    match line {
        Line::Lemma { hints, .. } => {
            for hint in hints.numbers() {
                mark(clauses, *hint, marks);
            }
        }
        Line::Delete { .. } => {}
    }
}

/// From the last line to the first, marks what each marked line is drawn from.
pub(crate) fn mark_needed(clauses: usize, lines: &[Line], marks: &mut [bool])
    requires { length marks.old ≡ length lines.now }
    ensures { length marks.new ≡ length marks.old }
{
    for place in (0..lines.len()).rev() {
        if marks[place] {
            mark_hints(clauses, &lines[place], marks);
        }
    }
}
