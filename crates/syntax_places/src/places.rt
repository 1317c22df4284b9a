//! Tells whether the places that a tree keeps are those of its tokens.

ghost use Rattle.std.specs.Prelude.{◌≡◌};
ghost use Rattle.syntax_places.specs.Pieces.{pieces, worded_pieces, at_places};
ghost use Rattle.syntax_places.specs.ModulePieces.{module_pieces};

use crate::expr::{expr, worded};
use crate::module::module;
use crate::walk::Walk;
use syntax_tree::{Expr, Module, Multiplicity, Token};

/// Whether each place that the tree keeps is that of its token, where these are the tokens that
/// spell the tree.
#[tactic(auto, using(crate::proofs::Parts::through))]
pub fn has_places(tree: &Expr, tokens: &[Token]) -> bool
    ensures { result ≡ at_places (pieces tree.now) tokens.now }
{
    let mut walk = Walk::new(tokens);
    expr(tree, &mut walk);
    walk.is_through()
}

/// The same for a multiplicity word, where one stands, and an expression.
#[tactic(auto, using(crate::proofs::Parts::through))]
pub fn has_bound_places(word: Option<Multiplicity>, tree: &Expr, tokens: &[Token]) -> bool
    ensures { result ≡ at_places (worded_pieces word tree.now) tokens.now }
{
    let mut walk = Walk::new(tokens);
    worded(word, tree, &mut walk);
    walk.is_through()
}

/// The same for a module, the end token among its tokens.
#[tactic(auto, using(crate::proofs::Parts::through))]
pub fn has_module_places(tree: &Module, tokens: &[Token]) -> bool
    ensures { result ≡ at_places (module_pieces tree.now) tokens.now }
{
    let mut walk = Walk::new(tokens);
    module(tree, &mut walk);
    walk.is_through()
}
