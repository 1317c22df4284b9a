//! The members of a type, and where two of them meet.

ghost use Rattle.std.specs.Prelude.{◌≡◌, ◌==◌};
ghost use Rattle.std.specs.List.{list_any};
ghost use Rattle.resolve_types.specs.Types.{is_under, meet_of};

use base_lists::Items;

/// A sig that is no subset sig, or `Int`.
#[derive(Clone, Copy, Debug, Drop)]
pub enum Member {
    Int,
    Sig(u32),
}

/// Whether the second sig is the first or an ancestor of it, by each sig's line of ancestors.
fn under(lines: &Items<Items<u32>>, sig: u32, above: u32) -> bool
    ensures { result ≡ is_under lines.now sig above }
{
    match lines.as_slice().get(sig as usize) {
        Some(line) => in_line(line.as_slice(), above),
        None => false,
    }
}

/// Whether the sig stands in the line.
fn in_line(line: &[u32], sig: u32) -> bool
    ensures { result ≡ list_any (λ u. u == sig) line.now }
{
    for other in line {
        if *other == sig {
            return true;
        }
    }
    false
}

/// The lower of the two, where one is the other or an ancestor of it.
pub fn meet(lines: &Items<Items<u32>>, a: Member, b: Member) -> Option<Member>
    ensures { result ≡ meet_of lines.now a b }
{
    match (a, b) {
        (Member::Int, Member::Int) => Some(Member::Int),
        (Member::Sig(s), Member::Sig(t)) => {
            if under(lines, s, t) {
                return Some(a);
            }
            if under(lines, t, s) {
                return Some(b);
            }
            None
        }
        _ => None,
    }
}
