//! The rules that give a sig its number, one by one.

ghost use Rattle.std.specs.Prelude.{◌≡◌, ◌+◌, ◌<◌, ◌^◌};
ghost use Rattle.core_tree.specs.Columns.{or_zero};
ghost use Rattle.bound_definitions.specs.Numbers.{or_else, at_most, together, own_of, placed, scope_of, number_where, is_one, is_lone, is_string, is_static_one, is_static_lone};

use core_meaning::SigScope;
use core_tree::{Multiplicity, Sig, SigKind};

/// What is known of a sig: its number, where it has one, and whether that is exact.
#[derive(Clone, Copy, Debug, PartialEq, Eq, Drop)]
pub struct Known {
    pub number: Option<u64>,
    pub exact: bool,
}

/// The first, or the second where the first has no number.
pub fn or_else(first: Known, second: Known) -> Known
    ensures { result ≡ or_else first second }
{
    match first.number {
        None => second,
        Some(_) => first,
    }
}

/// The same number, which isn't exact.
pub fn at_most(known: Known) -> Known
    ensures { result ≡ at_most known }
{
    Known {
        number: known.number,
        exact: false,
    }
}

/// What two sigs have together; the number is exact where each is.
pub fn together(first: Known, second: Known) -> Known
    requires { or_zero first.number + or_zero second.number < 2 ^ 64 }
    ensures { result ≡ together first second }
{
    match first.number {
        None => Known {
            number: None,
            exact: false,
        },
        Some(a) => match second.number {
            None => Known {
                number: None,
                exact: false,
            },
            Some(b) => Known {
                number: Some(a + b),
                exact: first.exact && second.exact,
            },
        },
    }
}

/// The number that is sure to be needed for a sig: an exact one.
pub fn sure(known: Known) -> u64
    ensures { result ≡ number_where known.exact known.number }
{
    if !known.exact {
        return 0;
    }
    match known.number {
        None => 0,
        Some(number) => number,
    }
}

/// Whether a sig is `String`, which alone is top-level and stands in no text.
pub fn is_string(sig: &Sig) -> bool
    ensures { result ≡ is_string sig.now }
{
    match sig.kind {
        SigKind::Top => sig.origin.is_none(),
        _ => false,
    }
}

fn is_one(multiplicity: Multiplicity) -> bool
    ensures { result ≡ is_one multiplicity }
{
    match multiplicity {
        Multiplicity::One => true,
        _ => false,
    }
}

fn is_lone(multiplicity: Multiplicity) -> bool
    ensures { result ≡ is_lone multiplicity }
{
    match multiplicity {
        Multiplicity::Lone => true,
        _ => false,
    }
}

/// Whether a sig has `one` before it and isn't `var`.
pub fn is_static_one(sig: &Sig) -> bool
    ensures { result ≡ is_static_one sig.now }
{
    !sig.is_var && is_one(sig.multiplicity)
}

/// Whether a sig has `lone` before it and isn't `var`.
pub fn is_static_lone(sig: &Sig) -> bool
    ensures { result ≡ is_static_lone sig.now }
{
    !sig.is_var && is_lone(sig.multiplicity)
}

/// The number of a sig by its own word, by the list of the command, or, of `String`, by the number
/// of literals, which extend it.
pub fn own_of(sig: &Sig, listed: Known, children: u64) -> Known
    ensures { result ≡ own_of sig.now listed children }
{
    if is_string(sig) {
        return Known {
            number: Some(children),
            exact: true,
        };
    }
    if is_static_one(sig) {
        return Known {
            number: Some(1),
            exact: true,
        };
    }
    if is_static_lone(sig) {
        let one = Known {
            number: Some(1),
            exact: false,
        };
        return or_else(listed, one);
    }
    let none = Known {
        number: None,
        exact: false,
    };
    or_else(listed, none)
}

/// The number of a sig that has none by its own word, by the list or by its children: the overall
/// one of a top-level sig, or more where its children's exact numbers need it; the parent's of a
/// child.
pub fn placed(kind: &SigKind, overall: u64, sure: u64, parent: Known) -> Known
    ensures { result ≡ placed overall sure parent kind.now }
{
    match kind {
        SigKind::Top => Known {
            number: Some(if overall < sure { sure } else { overall }),
            exact: false,
        },
        SigKind::Extends(_) => at_most(parent),
        SigKind::Subset(_) => Known {
            number: None,
            exact: false,
        },
    }
}

/// What the scopes say of a sig: the number is also exact where an `exactly` parameter gets it.
pub fn scope_of(sig: &Sig, known: Known) -> SigScope
    ensures { result ≡ scope_of sig.now known }
{
    SigScope {
        number: known.number,
        exact: known.exact || sig.exactly.is_some(),
        top: match sig.kind {
            SigKind::Top => true,
            _ => false,
        },
    }
}
