//! A root as it is judged: parts with the candidates of each name, the operators, and the outcome.

use crate::meaning::Meaning;
use base_lists::Items;
use resolve_types::Columns;

/// What the parts of a root are judged by: for each sig its line, from itself up to its top-level sig, and the type of `iden`.
#[derive(Drop)]
pub struct Typing {
    pub lines: Items<Items<u32>>,
    pub iden: Columns,
}

/// A multiplicity word before a bound or after `in`.
#[derive(Clone, Copy, Debug, Drop)]
pub enum Multiplicity {
    Set,
    One,
    Lone,
    Some,
}

/// Where a root stands.
#[derive(Clone, Copy, Debug, Drop)]
pub enum RootPlace {
    /// Where a formula is wanted: a comparison, or a call of a predicate.
    Formula,
    /// A bound, with its word.
    Bound(Option<Multiplicity>),
    /// The value of a `let`, or what stands after `some`, `no`, `lone` and `one`.
    Value,
    /// Where a set of that many columns is wanted: the expression of a function or of `sum`.
    Columns(u32),
}

/// An operator on one operand.
#[derive(Clone, Copy, Debug, Drop)]
pub enum Unary {
    /// Parentheses: no argument reaches what stands in them.
    Whole,
    /// `~`
    Transpose,
    /// `^`
    Closure,
    /// `*`
    ReflexiveClosure,
    /// `#`
    Count,
    /// `'`
    Prime,
    /// The body of a `let`, whose values are roots of their own.
    Body,
    /// The whole root, in its place.
    Fits(RootPlace),
}

/// An operator between two operands.
#[derive(Clone, Copy, Debug, Drop)]
pub enum Binary {
    Union,
    Difference,
    Override,
    Intersection,
    /// `->`, and whether a multiplicity word stands beside it.
    Arrow(bool),
    /// `<:`
    LeftRestrict,
    /// `:>`
    RightRestrict,
    /// One of the five operations on integers.
    Arithmetic,
    /// `=> else`, whose condition is a root of its own.
    Choose,
    /// `.`; the right operand may be a body's bare name.
    Dot,
    /// A body or a set before a box, and an argument in it.
    Apply,
    /// `in`, with the word after it.
    In(Option<Multiplicity>),
    Equal,
    /// `<`, `>`, `=<`, `<=` or `>=`
    Order,
}

/// A part of a root, with the candidates of each name.
#[cycle(tree)]
#[derive(Drop)]
pub enum Part {
    /// A name, with what it is for each of its candidates.
    Name(Items<Meaning>),
    /// A constant, a variable, or what has its own roots and is resolved already.
    Known(Meaning),
    Single(Unary, Box<Part>),
    Pair(Binary, Box<Part>, Box<Part>),
}

/// The first operand; the rest of the part is dropped.
fn first_operand(part: Part) -> Option<Part> {
    match part {
        Part::Name(_) | Part::Known(_) => None,
        Part::Single(_, inner) => Some(Box::into_inner(inner)),
        Part::Pair(_, left, _) => Some(Box::into_inner(left)),
    }
}

impl Part {
    /// Drops the part from the top. A drop by itself takes stack for each level, and a row of
    /// operators is as deep as it is long. A right operand is dropped whole: S11 keeps it at 250 levels.
    pub fn put_away(self) {
        let mut rest = self;
        for _turn in 0..usize::MAX {
            match first_operand(rest) {
                Some(operand) => rest = operand,
                None => return,
            }
        }
    }
}

/// A choice under which a part is right: for each name in turn the number of its candidate; and what the part is then.
#[derive(Drop)]
pub struct Found {
    pub choice: Items<usize>,
    pub meaning: Meaning,
}

/// What is decided of a root, and what it means by its reading.
#[derive(Drop)]
pub struct Decision {
    pub outcome: Outcome,
    /// What the root means, where it has a reading.
    pub meaning: Option<Meaning>,
}

/// What is decided of a root.
#[derive(Drop)]
pub enum Outcome {
    /// Its reading.
    Read(Items<usize>),
    /// S42: no choice is right.
    NoReading,
    /// S41: several are right, and none is the root's reading.
    Ambiguous,
    /// S43: there are more than 4,096 choices.
    TooMany,
}
