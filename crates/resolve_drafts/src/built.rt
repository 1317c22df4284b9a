//! What a part becomes under a choice: a tree, or a call that waits for arguments.

ghost use Rattle.std.specs.Prelude.{◌≡◌, ◌++◌, ◌∷◌, [], IfOk};
ghost use Rattle.resolve_drafts.specs.Calls.{call_of, IsGiven};

use base_types::Position;
use core_tree::{Expr, Formula};
use resolve_picks::Target;
use std::alloc::{AllocError, Global};

/// A call, with the place of the called name.
#[derive(Clone, Copy, Debug, Drop)]
pub struct CallSite {
    pub body: u32,
    pub place: Position,
}

/// A name that is none in scope, with its place and what it stands for.
#[derive(Clone, Copy, Debug, Drop)]
pub struct Pick {
    pub place: Position,
    pub target: Target,
}

/// A call that waits for arguments.
#[derive(Drop)]
pub struct Pending {
    pub body: u32,
    /// How many arguments are wanted still.
    pub left: usize,
    /// Whether it calls a function.
    pub is_function: bool,
    pub arguments: Vec<Expr>,
}

/// The tree of a part under a choice.
#[derive(Drop)]
pub enum Built {
    Term(Expr),
    Test(Formula),
    Waiting(Pending),
    /// The choice is no reading.
    Nothing,
}

/// The call once it waits for nothing.
pub fn called(pending: Pending) -> Built
    ensures { result ≡ call_of pending.body pending.left pending.is_function pending.arguments }
{
    if pending.left > 0 {
        return Built::Waiting(pending);
    }
    let Pending {
        body,
        left: _,
        is_function,
        arguments,
    } = pending;
    if is_function {
        Built::Term(Expr::Call(body, arguments))
    } else {
        Built::Test(Formula::Call(body, arguments))
    }
}

/// The arguments, and one more behind them.
fn with_argument(arguments: Vec<Expr>, argument: Expr) -> Result<Vec<Expr>, AllocError>
    ensures { IfOk result (λ all. all.items ≡ arguments.items ++ argument ∷ []) }
{
    let mut all = arguments;
    all.push(argument)?;
    Ok(all)
}

/// The call with one argument more, behind those that it has.
pub fn give(pending: Pending, argument: Expr) -> Result<Built, AllocError>
    ensures { IfOk result (IsGiven pending argument) }
{
    let Pending {
        body,
        left,
        is_function,
        arguments,
    } = pending;
    let arguments = with_argument(arguments, argument)?;
    Ok(called(Pending {
        body,
        left: left.saturating_sub(1),
        is_function,
        arguments,
    }))
}

/// A call of a body without arguments so far.
pub fn begun(alloc: Global, body: u32, left: usize, is_function: bool) -> Built {
    called(Pending {
        body,
        left,
        is_function,
        arguments: Vec::new(alloc),
    })
}
