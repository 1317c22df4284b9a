//! A walk goes over tokens along a tree, and compares places on its way.

ghost use Rattle.std.specs.Prelude.{◌≡◌, true};
ghost use Rattle.syntax_places.specs.Pieces.{same_place, begins_at};
ghost use Rattle.syntax_places.specs.Walk as v;

use base_types::Position;
use std::marker::Model;
use syntax_tree::Token;

/// The tokens that are left, and whether all was right so far.
#[derive(Drop)]
pub struct Walk<'a> {
    rest: &'a [Token],
    right: bool,
}

impl<'a> Model for Walk<'a> {
    ghost use Rattle.syntax_places.specs.Walk.{Walked};

    ghost Value = { Walked };

    ghost view = { λ w. record { left = w.rest.now; right = w.right } };
}

fn same_place(a: Position, b: Position) -> bool
    ensures { result ≡ same_place a b }
{
    a.module == b.module && a.line == b.line && a.column == b.column
}

/// Whether the first token has this place.
fn begins_at(place: Position, rest: &[Token]) -> bool
    ensures { result ≡ begins_at place rest.now }
{
    match rest {
        [first, ..] => same_place(place, first.place),
        [] => false,
    }
}

impl<'a> Walk<'a> {
    pub fn new(rest: &'a [Token]) -> Walk<'a>
        ensures { result ≡ record { left = rest.now; right = true } }
    {
        Walk { rest, right: true }
    }

    /// Goes past the next token.
    pub fn past(&mut self)
        ensures { self.new ≡ v.past self.old }
    {
        match self.rest {
            [_, rest @ ..] => self.rest = rest,
            [] => self.right = false,
        }
    }

    /// The next token has this place.
    pub fn here(&mut self, place: Position)
        ensures { self.new ≡ v.look self.old place }
    {
        let begins = begins_at(place, self.rest);
        self.right = self.right && begins;
    }

    /// Whether all was right, and no token is left.
    pub fn is_through(&self) -> bool
        ensures { result ≡ v.is_through self.now }
    {
        self.right && self.rest.is_empty()
    }
}
