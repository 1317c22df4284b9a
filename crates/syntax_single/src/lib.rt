//! Laws of trees: a text has one tree.
//!
//! The rules on levels say which trees are right, and a spelling says which tokens a tree has. The
//! laws say that no two right trees have the same tokens, but for the places in them, and that
//! tokens with their places have one tree. The functions do nothing; a caller that needs a law
//! calls it.
#![tactic(auto)]

ghost use Rattle.syntax_single.specs.Single.{TreesAreSingle, BoundsAreSingle, ModulesAreSingle};
ghost use Rattle.syntax_single.specs.Single.{TokensHaveOneTree, TokensHaveOneModule};

/// A law: two right trees that spell the same tokens are the same, but for their places.
pub fn trees_are_single()
    ensures { TreesAreSingle }
{}

/// The same law for bounds, with the multiplicity words before them.
pub fn bounds_are_single()
    ensures { BoundsAreSingle }
{}

/// The same law for whole texts: two right modules that spell the same tokens are the same, but for
/// their places.
pub fn modules_are_single()
    ensures { ModulesAreSingle }
{}

/// A law: at most one right tree has these tokens and their places.
pub fn tokens_have_one_tree()
    ensures { TokensHaveOneTree }
{}

/// A law: at most one right module has these tokens and their places.
pub fn tokens_have_one_module()
    ensures { TokensHaveOneModule }
{}
