//! Parses modules into trees that keep the places of their tokens.

ghost use Rattle.std.specs.Prelude.{◌≡◌, IfOk, IfErr, IsTrue};
ghost use Rattle.syntax_tree.specs.Spelling.{kinds, EndsWell};
ghost use Rattle.syntax_tree.specs.ModuleWords.{module_words};
ghost use Rattle.syntax_tree.specs.ModuleRules.{module_right};
ghost use Rattle.syntax_places.specs.Pieces.{at_places};
ghost use Rattle.syntax_places.specs.ModulePieces.{module_pieces};
ghost use Rattle.syntax_machine.specs.declared.thread.Root.TheVariants as root;
ghost use Rattle.syntax_parser.specs.Refuses.{IsOfTokens};

use crate::refused::of_tokens;
use base_types::Fault;
use base_types::limits::TREE_DEPTH;
use std::alloc::Global;
use syntax_machine::Root;
use syntax_places::has_module_places;
use syntax_tree::{Module, Token};

/// The module, where each of its places is that of its token. The rules of the parser keep no other
/// place; it is tested once more on the module itself.
fn placed(tokens: &[Token], tree: Module) -> Result<Module, Fault>
    ensures same { IfOk result (λ m. m ≡ tree) }
    ensures placed { IfOk result (λ m. IsTrue (at_places (module_pieces m) tokens.now)) }
    ensures refused { IfErr result (λ e. IsOfTokens root.Module tokens.now e) }
{
    if !has_module_places(&tree, tokens) {
        return Err(Fault::Memory);
    }
    Ok(tree)
}

/// The module that the tokens spell. Its trees keep the rules on levels, are of depth 250 at most,
/// and it keeps the places of its tokens.
///
/// # Errors
/// `Refused` at a token such that no module begins with the tokens up to it: none at all under
/// `Syntax`, none within the limit of depth under `TooDeep`. Or `Memory`.
pub fn parse_module(alloc: Global, tokens: &[Token]) -> Result<Module, Fault>
    requires { EndsWell tokens.now }
    ensures spells { IfOk result (λ m. kinds tokens.now ≡ module_words m) }
    ensures placed { IfOk result (λ m. IsTrue (at_places (module_pieces m) tokens.now)) }
    ensures right { IfOk result (λ m. IsTrue (module_right TREE_DEPTH m)) }
    ensures refused { IfErr result (λ e. IsOfTokens root.Module tokens.now e) }
{
    match syntax_module::parse_module(alloc, tokens, TREE_DEPTH as u16) {
        Ok(tree) => placed(tokens, tree),
        Err(fault) => Err(of_tokens(alloc, Root::Module, tokens, fault)),
    }
}
