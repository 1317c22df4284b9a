//! The parsers, whose trees keep the places of their tokens, and whose refusals name the least
//! token at which no text goes on.
#![tactic(auto)]

mod expression;
mod front;
mod module;
mod refused;

ghost use Rattle.syntax_parser.specs.Refuses.{RightModulesAreTaken};

pub use expression::{parse_block, parse_bound, parse_expr};
pub use module::parse_module;
pub use refused::refuse_tokens;

/// A law: no module that keeps the rules of the grammar is refused.
pub fn right_modules_are_taken()
    ensures { RightModulesAreTaken }
{}
