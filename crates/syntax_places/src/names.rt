//! Walks the tokens of names, and compares the places that they keep.
#![tactic(auto, using(crate::proofs::Parts::walk_append))]

ghost use Rattle.std.specs.Prelude.{◌≡◌};

use crate::part::{Part, separated};
use crate::walk::Walk;
use crate::words::own;
use base_types::Name;
use syntax_tree::{Named, QualName, Symbol};

impl Part for Name {
    ghost use Rattle.syntax_places.specs.Pieces.{one_name};

    ghost kept = { one_name };

    fn go(&self, walk: &mut Walk<'_>) {
        walk.past();
    }
}

impl Part for Named {
    ghost use Rattle.syntax_places.specs.Pieces.{declared_name};

    ghost kept = { declared_name };

    fn go(&self, walk: &mut Walk<'_>) {
        walk.here(self.place);
        walk.past();
    }
}

impl Part for QualName {
    ghost use Rattle.syntax_places.specs.Pieces.{name_pieces};

    ghost kept = { name_pieces };

    fn go(&self, walk: &mut Walk<'_>) {
        walk.here(self.place);
        own(self.is_own, walk);
        separated(Symbol::Slash, self.parts.as_slice(), walk);
    }
}
