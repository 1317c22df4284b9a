//! The text of the root model: its tokens, and the module that they spell.

ghost use Rattle.std.specs.Prelude.{◌≡◌, ◌≤◌, length, IfOk};
ghost use Rattle.syntax_tree.specs.Spelling.{EndsWell};
ghost use Rattle.syntax_lexer.specs.Tokens.{tokens_of};
ghost use Rattle.cli_model.specs.Root.{ReadsTo, ParsesTo};

use crate::parsed::{Parsed, Root};
use base_types::Fault;
use base_types::limits::MODULE_BYTES;
use std::alloc::{AllocError, Global};
use syntax_lexer::lex;
use syntax_parser::parse_module;
use syntax_tree::Token;

/// What a text of a root comes to: the module that it spells, or the rule that it breaks.
///
/// The text is cut into tokens as a whole before they are parsed.
pub fn root_of(alloc: Global, text: &[u8]) -> Result<Root, AllocError>
    requires { length text.now ≤ MODULE_BYTES }
    ensures { IfOk result (λ root. ReadsTo (tokens_of 0 text.now) root) }
{
    match lex(alloc, 0, text) {
        Ok(tokens) => root_of_tokens(alloc, &tokens),
        Err(Fault::Refused(refusal)) => Ok(Root::Broken(refusal)),
        Err(Fault::Memory) => Err(AllocError),
    }
}

/// What these tokens come to.
#[tactic(auto, using(load_state::proofs::Heavy::few_literals))]
fn root_of_tokens(alloc: Global, tokens: &[Token]) -> Result<Root, AllocError>
    requires { EndsWell tokens.now }
    ensures { IfOk result (λ root. ParsesTo tokens.now root) }
{
    match parse_module(alloc, tokens) {
        Ok(tree) => Ok(Root::Module(Parsed {
            tree,
            tokens: tokens.len(),
        })),
        Err(Fault::Refused(refusal)) => Ok(Root::Broken(refusal)),
        Err(Fault::Memory) => Err(AllocError),
    }
}
