//! Walks tokens of which a tree keeps no place.

ghost use Rattle.std.specs.Prelude.{◌≡◌};
ghost use Rattle.syntax_tree.specs.Words.{multiplicity_words, infix_words, negation_words};
ghost use Rattle.syntax_tree.specs.Spelling.{own_words};
ghost use Rattle.syntax_places.specs.Pieces as p;
ghost use Rattle.syntax_places.specs.Walk as v;

use crate::walk::Walk;
use syntax_tree::{Comparison, Infix, Multiplicity, Negation};

/// A token, where it stands.
pub fn optional(stands: bool, walk: &mut Walk<'_>)
    ensures { walk.new ≡ v.past_if stands walk.old }
{
    if stands {
        walk.past();
    }
}

/// A multiplicity word, where one stands.
pub fn multiplicity(of: Option<Multiplicity>, walk: &mut Walk<'_>)
    ensures { walk.new ≡ v.walk walk.old (p.says (multiplicity_words of)) }
{
    if of.is_some() {
        walk.past();
    }
}

/// `this/`, where it stands.
pub fn own(is_own: bool, walk: &mut Walk<'_>)
    ensures { walk.new ≡ v.walk walk.old (p.says (own_words is_own)) }
{
    if is_own {
        walk.past();
        walk.past();
    }
}

/// The operator of a link.
pub fn infix(operator: Infix, walk: &mut Walk<'_>)
    ensures { walk.new ≡ v.walk walk.old (p.says (infix_words operator)) }
{
    match operator {
        Infix::Add | Infix::Sub | Infix::Mul | Infix::Div | Infix::Rem => {
            walk.past();
            walk.past();
            walk.past();
        }
        Infix::Arrow(before, after) => {
            multiplicity(before, walk);
            walk.past();
            multiplicity(after, walk);
        }
        Infix::OrOr
        | Infix::Or
        | Infix::Equivalence
        | Infix::Iff
        | Infix::AndAnd
        | Infix::And
        | Infix::Until
        | Infix::Releases
        | Infix::Since
        | Infix::Triggered
        | Infix::Plus
        | Infix::Minus
        | Infix::Override
        | Infix::Intersection
        | Infix::Domain
        | Infix::Range => walk.past(),
    }
}

/// The operator of a comparison.
pub fn comparison(of: Comparison, walk: &mut Walk<'_>)
    ensures { walk.new ≡ v.walk walk.old (p.comparison_pieces of) }
{
    negation(of.negation, walk);
    walk.past();
    multiplicity(of.word, walk);
}

fn negation(of: Negation, walk: &mut Walk<'_>)
    ensures { walk.new ≡ v.walk walk.old (p.says (negation_words of)) }
{
    match of {
        Negation::Plain => {}
        Negation::Bang | Negation::Not => walk.past(),
    }
}
