//! What names stand for in an environment, and how one is looked up.

ghost use Rattle.std.specs.Prelude.{ℕ, List};
ghost use Rattle.core_tree.specs.declared.model.Body.{Body};
ghost use Rattle.core_meaning.specs.World.{World};
ghost use Rattle.core_meaning.specs.Called.{called, names_of};
ghost use Rattle.eval_context.specs.Settings.{Stands};

use core_meaning::Environment;
use core_tree::Expr;

/// What a name stands for.
#[derive(Clone, Copy)]
pub enum Meant<'a> {
    /// An atom.
    Atom(u32),
    /// An expression, with the scope in which it was written.
    Written(&'a Expr, &'a Environment<'a>),
    /// Nothing.
    Unknown,
}

/// What a name stands for in a scope.
pub fn look_up<'a>(scope: &'a Environment<'a>, name: u32) -> Meant<'a>
    ensures { (w : World) (list : List Body) (n i : ℕ) (t : List ℕ) →
        Stands w (called w list n) result (names_of w (called w list n) scope.now name) i t }
{
    match scope {
        Environment::Empty => Meant::Unknown,
        Environment::Atom(other, atom, rest) => {
            if *other == name {
                Meant::Atom(*atom)
            } else {
                look_up(*rest, name)
            }
        }
        Environment::Written(other, expr, outer, rest) => {
            if *other == name {
                Meant::Written(*expr, *outer)
            } else {
                look_up(*rest, name)
            }
        }
    }
}
