//! The text of the root model comes to a refusal, or to a module with its tokens.

ghost use Rattle.std.specs.Prelude.{◌≤◌, length};
ghost use Rattle.syntax_tree.specs.Instances.{literals_of};

use base_types::Refusal;
use syntax_tree::Module;

/// What the text of a root comes to.
#[derive(Drop)]
pub enum Root {
    /// The module that its tokens spell.
    Module(Parsed),
    /// The first rule that it breaks.
    Broken(Refusal),
}

/// A module, and how many tokens spell it.
#[derive(Drop)]
pub struct Parsed {
    pub tree: Module,
    pub tokens: usize,
    pub ghost few: { length (literals_of tree) ≤ tokens },
}
