//! Whether rows of one member are the same, and whether one stands among others.

ghost use Rattle.std.specs.Prelude.{◌≡◌, [], ◌∷◌, All, Contains, IsTrue};
ghost use Rattle.resolve_told_types.specs.Steps.{own_row};

use base_lists::Items;
use resolve_types::Member;

/// Whether two members are the same.
fn is_same(a: Member, b: Member) -> bool
    ensures { IsTrue result → a ≡ b }
{
    match a {
        Member::Int => match b {
            Member::Int => true,
            Member::Sig(_) => false,
        },
        Member::Sig(s) => match b {
            Member::Int => false,
            Member::Sig(t) => s == t,
        },
    }
}

/// Whether a row is just this member.
pub fn is_row_of(row: &[Member], member: Member) -> bool
    ensures { IsTrue result → row.now ≡ member ∷ [] }
{
    match row {
        [only] => is_same(*only, member),
        _ => false,
    }
}

/// Whether a member is the sig of this number.
fn is_sig(member: Member, sig: usize) -> bool
    ensures { IsTrue result → member ∷ [] ≡ own_row sig }
{
    match member {
        Member::Int => false,
        Member::Sig(number) => number as usize == sig,
    }
}

/// Whether a row is just the sig of this number.
pub fn is_own_row(row: &[Member], sig: usize) -> bool
    ensures { IsTrue result → row.now ≡ own_row sig }
{
    match row {
        [only] => is_sig(*only, sig),
        _ => false,
    }
}

/// Whether two rows are of one member, the same.
fn are_same(a: &[Member], b: &[Member]) -> bool
    ensures { IsTrue result → a.now ≡ b.now }
{
    match b {
        [only] => is_row_of(a, *only),
        _ => false,
    }
}

/// Whether a row of one member stands among the rows.
pub fn has_row(rows: &[Items<Member>], row: &[Member]) -> bool
    ensures { IsTrue result → Contains rows.now row.now }
{
    for other in rows {
        if are_same(other.as_slice(), row) {
            return true;
        }
    }
    false
}

/// Whether rows of one member all stand among the rows.
pub fn has_rows(rows: &[Items<Member>], others: &[Items<Member>]) -> bool
    ensures { IsTrue result → All (Contains rows.now) others.now }
{
    for other in others {
        if !has_row(rows, other.as_slice()) {
            return false;
        }
    }
    true
}
