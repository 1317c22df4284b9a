//! A draft is a root on its way to the model: its names have candidates, the rest is resolved.

use base_lists::Items;
use base_types::Position;
use core_tree::{Comparison, Expr, Formula, IntOp, Multiplicity};
use resolve_readings::{Binary, Meaning, Unary};

/// What a candidate of a name stands for.
#[derive(Clone, Copy, Debug, Drop)]
pub enum Target {
    /// A sig, by its number in the model.
    Sig(u32),
    /// `Int`, by a parameter of a module.
    Int,
    /// A field, by its number in the model.
    Field(u32),
    /// A field joined to `this`, which is name 0.
    OwnField(u32),
    /// A variable, a parameter or a `let` name, by its number.
    Name(u32),
    /// A predicate or a function, by its number in the model.
    Body(u32),
}

/// A candidate of a name, and what the name then means.
#[derive(Drop)]
pub struct Candidate {
    pub target: Target,
    pub meaning: Meaning,
}

/// A part of a root: the candidates of its names, and all that is resolved of it already.
#[cycle(tree)]
#[derive(Drop)]
pub enum Draft {
    /// A name at its place.
    Name(Position, Items<Candidate>),
    /// What has one meaning, with its tree.
    Known(Meaning, Expr),
    Single(Unary, Box<Draft>),
    Pair(Binary, Box<Draft>, Box<Draft>),
    /// `->`, whether a multiplicity word stands beside it, and its two multiplicities.
    Arrow(bool, Multiplicity, Multiplicity, Box<Draft>, Box<Draft>),
    Arithmetic(IntOp, Box<Draft>, Box<Draft>),
    /// A comparison of two integers.
    Compare(Comparison, Box<Draft>, Box<Draft>),
    /// `=> else`, with the condition.
    Choose(Formula, Box<Draft>, Box<Draft>),
    /// `let`, with the number of its name and the value.
    Let(u32, Expr, Box<Draft>),
}

/// The first operand; the rest of the draft is dropped.
fn first_operand(draft: Draft) -> Option<Draft> {
    match draft {
        Draft::Name(_, _) | Draft::Known(_, _) => None,
        Draft::Single(_, inner) => Some(Box::into_inner(inner)),
        Draft::Let(_, _, inner) => Some(Box::into_inner(inner)),
        Draft::Pair(_, left, _) => Some(Box::into_inner(left)),
        Draft::Arrow(_, _, _, left, _) => Some(Box::into_inner(left)),
        Draft::Arithmetic(_, left, _) => Some(Box::into_inner(left)),
        Draft::Compare(_, left, _) => Some(Box::into_inner(left)),
        Draft::Choose(_, left, _) => Some(Box::into_inner(left)),
    }
}

impl Draft {
    /// Drops the draft from the top. A drop by itself takes stack for each level, and a row of
    /// operators is as deep as it is long. A right operand is dropped whole: S11 keeps it at 250 levels.
    pub fn put_away(self) {
        let mut rest = self;
        for _turn in 0..usize::MAX {
            match first_operand(rest) {
                Some(operand) => rest = operand,
                None => return,
            }
        }
    }
}
