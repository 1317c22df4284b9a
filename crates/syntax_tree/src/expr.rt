//! The trees of expressions and formulas, as they were written.

use crate::operator::{Comparison, Constant, Infix, Multiplicity, Prefix, Quantifier};
use base_lists::{Boxed, Items};
use base_types::{Name, Position};

/// A name with the path before it.
#[derive(Drop)]
pub struct QualName {
    /// The place of its first token.
    pub place: Position,
    /// Whether `this/` stands before it.
    pub is_own: bool,
    /// The parts between the slashes, of which there is at least one.
    pub parts: Items<Name>,
}

/// A name that is declared here.
#[derive(Drop)]
pub struct Named {
    /// The place of the name.
    pub place: Position,
    pub name: Name,
}

/// Variables with one bound.
#[derive(Drop)]
pub struct Decl<E> {
    /// The place of its first token.
    pub place: Position,
    /// Whether `disj` stands before the names.
    pub is_disjoint: bool,
    /// The variables, of which there is at least one.
    pub names: Items<Named>,
    /// The place of the bound's first token.
    pub bound_place: Position,
    /// The multiplicity word before the bound.
    pub word: Option<Multiplicity>,
    pub bound: E,
}

/// A name of a `let`, and its value.
#[derive(Drop)]
pub struct Binding<E> {
    /// The place of the name.
    pub place: Position,
    pub name: Name,
    pub value: E,
}

/// A step of a join.
#[derive(Drop)]
pub enum Access<E> {
    /// `.` and an operand
    Dot(E),
    /// the arguments in a box
    Bracket(Items<E>),
}

/// An expression or a formula as it was written, its parentheses included.
///
/// A node whose first token is a word or a symbol of its own has that token's place. The place of
/// any other node is that of its first part.
#[cycle(tree)]
#[derive(Drop)]
pub enum Expr {
    Name(QualName),
    /// `@` and a name
    At(Position, QualName),
    Constant(Position, Constant),
    Number(Position, u32),
    /// `-` and a number; the place is that of `-`.
    Negative(Position, u32),
    /// A string literal: the bytes between its quotes.
    Literal(Position, Name),
    Parenthesis(Position, Boxed<Expr>),
    Block(Position, Items<Expr>),
    /// The variables, whether `|` stands before the body, and the body.
    Comprehension(Position, Items<Decl<Expr>>, bool, Boxed<Expr>),
    /// The variables, whether `|` stands before the body, and the body.
    Quantified(Position, Quantifier, Items<Decl<Expr>>, bool, Boxed<Expr>),
    /// The names, whether `|` stands before the body, and the body.
    Let(Position, Items<Binding<Expr>>, bool, Boxed<Expr>),
    /// `;`
    Sequence(Boxed<Expr>, Boxed<Expr>),
    /// Whether `=>` is written as a word, the condition, the consequence, and what stands after `else`.
    Implication(bool, Boxed<Expr>, Boxed<Expr>, Option<Boxed<Expr>>),
    Compare(Comparison, Boxed<Expr>, Boxed<Expr>),
    Prefix(Position, Prefix, Boxed<Expr>),
    /// The first operand, and each further one with the operator before it.
    Infix(Boxed<Expr>, Items<(Infix, Expr)>),
    /// The first operand, and each step after it.
    Join(Boxed<Expr>, Items<Access<Expr>>),
    /// An operand and `'`
    Prime(Boxed<Expr>),
}
