//! Walks lists of parts, with a mark between two of them.

ghost use Rattle.std.specs.Prelude.{◌≡◌, map};
ghost use Rattle.syntax_places.specs.Pieces as p;
ghost use Rattle.syntax_places.specs.Walk as v;

use crate::walk::Walk;
use crate::words::optional;
use syntax_tree::Symbol;

/// What keeps places of its tokens.
pub trait Part {
    ghost use Rattle.syntax_places.specs.Pieces.{Pieces};

    ghost kept: { Self → Pieces };

    /// Goes past the tokens.
    fn go(&self, walk: &mut Walk<'_>)
        ensures { walk.new ≡ v.walk walk.old (kept self.now) };
}

/// The parts, one after another.
#[tactic(auto, using(crate::proofs::Parts::joined_next, crate::proofs::Parts::joined_end))]
pub fn joined<T: Part>(parts: &[T], walk: &mut Walk<'_>)
    ensures { walk.new ≡ v.walk walk.old (p.joined (map T.kept parts.now)) }
{
    for part in parts {
        part.go(walk);
    }
}

/// The parts, with a mark between two of them.
#[tactic(auto, using(crate::proofs::Parts::separated_next, crate::proofs::Parts::separated_end))]
pub fn separated<T: Part>(mark: Symbol, parts: &[T], walk: &mut Walk<'_>)
    ensures { walk.new ≡ v.walk walk.old (p.separated mark (map T.kept parts.now)) }
{
    let mut is_first = true;
    for part in parts {
        optional(!is_first, walk);
        part.go(walk);
        is_first = false;
    }
}
