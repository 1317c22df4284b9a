//! Whether the lines of sigs are right.

ghost use Rattle.std.specs.Prelude.{◌≡◌, ◌∷◌, [], IsTrue};
ghost use Rattle.resolve_hierarchy.specs.Above.{AreLines};
ghost use Rattle.resolve_hierarchy.specs.declared.sigs.Kind.TheVariants as kinds;
ghost use Rattle.resolve_told_types.specs.Kinds.{kind_of, kinds_of};
ghost use Rattle.resolve_told_types.specs.Steps.{IsLineStep};

use base_lists::Items;
use core_tree::{Sig, SigKind};

/// Whether a line is just the sig.
fn is_alone(line: &[u32], sig: usize) -> bool
    ensures { IsTrue result → line.now ≡ sig ∷ [] }
{
    match line {
        [only] => *only as usize == sig,
        _ => false,
    }
}

/// Whether two lists of numbers are the same.
fn are_same(a: &[u32], b: &[u32]) -> bool
    ensures { IsTrue result → a.now ≡ b.now }
{
    a == b
}

/// Whether a line is the sig and then these.
fn is_before(line: &[u32], sig: usize, rest: &[u32]) -> bool
    ensures { IsTrue result → line.now ≡ sig ∷ rest.now }
{
    match line {
        [] => false,
        [first, others @ ..] => *first as usize == sig && are_same(others, rest),
    }
}

/// Whether a line is the sig and then the line of its parent, which isn't empty.
fn is_under(lines: &[Items<u32>], sig: usize, parent: u32, line: &[u32]) -> bool
    ensures { IsTrue result → IsLineStep lines.now sig (kinds.Extends parent) line.now }
{
    match lines.get(parent as usize) {
        None => false,
        Some(rest) => !rest.is_empty() && is_before(line, sig, rest.as_slice()),
    }
}

/// Whether the line of a sig is right where that of its parent is.
fn is_line(lines: &[Items<u32>], sig: usize, kind: &SigKind, line: &[u32]) -> bool
    ensures { IsTrue result → IsLineStep lines.now sig (kind_of kind.now) line.now }
{
    match kind {
        SigKind::Top => is_alone(line, sig),
        SigKind::Extends(parent) => is_under(lines, sig, *parent, line),
        SigKind::Subset(_) => line.is_empty(),
    }
}

/// Whether the lines are those of the sigs.
pub fn are_lines(sigs: &[Sig], lines: &[Items<u32>]) -> bool
    ensures { IsTrue result → AreLines (kinds_of sigs.now) lines.now }
{
    if lines.len() != sigs.len() {
        return false;
    }
    for place in 0..sigs.len() {
        if !is_line(lines, place, &sigs[place].kind, lines[place].as_slice()) {
            return false;
        }
    }
    true
}
