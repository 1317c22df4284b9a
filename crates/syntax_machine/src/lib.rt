//! Which tokens may come next: a machine of threads.
#![tactic(auto)]

mod begin;
mod death;
mod extend;
mod frames;
mod goals;
mod options;
mod paragraphs;
mod pieces;
mod renew;
mod stacks;
mod states;
mod template;
mod thread;
mod tokens;
mod walk;

ghost use Rattle.syntax_machine.specs.Deaths.{DeathsRefuse};
ghost use Rattle.syntax_machine.specs.Law.{ThreadsFollow, ModulesFollow};

pub use death::{first_death, thread_behind};
pub use thread::{
    Declared, Expected, Frame, Goal, Item, Mark, Optional, Piece, Qualified, Root, State,
};

/// A law: no thread is lost that the spelling of a right tree goes along.
pub fn right_trees_are_followed()
    ensures { ThreadsFollow }
{}

/// The same law for modules.
pub fn right_modules_are_followed()
    ensures { ModulesFollow }
{}

/// What both laws come to: where no thread is left, no right text begins with these tokens.
pub fn deaths_refuse()
    ensures { DeathsRefuse }
{}
