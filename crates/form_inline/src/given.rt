//! The environment of the writing out: what each name of a formula stands for.

ghost use Rattle.core_tree.specs.declared.model.Body.{Body};
ghost use Rattle.std.specs.Prelude.{List, ℕ};
ghost use Rattle.form_inline.specs.Written.{IsBelow, MeansName};

use core_tree::Expr;

/// What names stand for. A later name hides an earlier one.
#[derive(Clone, Copy)]
pub enum Given<'a> {
    /// No names.
    Empty,
    /// A variable: its name, the name of its binder in the result, and the other names.
    Level(u32, u32, &'a Given<'a>),
    /// A `let` name, how deep calls may still nest where its expression was written, that expression, and the other
    /// names, with which it was written.
    Written(u32, usize, &'a Expr, &'a Given<'a>),
    /// The parameters 0, 1 and on of a called body: how deep calls may still nest where the arguments were written, the
    /// arguments, and the names with which those were written. A body sees its parameters alone.
    Passed(usize, &'a [Expr], &'a Given<'a>),
}

/// What one name stands for.
#[derive(Clone, Copy)]
pub enum Meant<'a> {
    /// Nothing.
    Nothing,
    /// The variable of the result with this name.
    Level(u32),
    /// An expression, how deep calls may nest in it, and the names with which it was written.
    Written(usize, &'a Expr, &'a Given<'a>),
}

/// What a name stands for.
pub fn look_up<'a>(given: &Given<'a>, name: u32) -> Meant<'a>
    ensures { (bodies : List Body) (level : ℕ) → IsBelow given.now level →
        MeansName bodies given.now level name result }
{
    match given {
        Given::Empty => Meant::Nothing,
        Given::Level(other, level, rest) => {
            if *other == name {
                Meant::Level(*level)
            } else {
                look_up(rest, name)
            }
        }
        Given::Written(other, calls, value, rest) => {
            if *other == name {
                Meant::Written(*calls, value, rest)
            } else {
                look_up(rest, name)
            }
        }
        Given::Passed(calls, arguments, outer) => match arguments.get(name as usize) {
            Some(argument) => Meant::Written(*calls, argument, outer),
            None => Meant::Nothing,
        },
    }
}
