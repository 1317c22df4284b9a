//! Resolved formulas and expressions: the trees that all later stages read.

use crate::operators::{
    Comparison, Connective, IntOp, Multiplicity, Quantity, RelationOp, TemporalBinary,
    TemporalUnary, UnaryRelation,
};
use base_types::Position;

/// A resolved formula.
///
/// Names are numbers. In a body the parameters are 0, 1 and on; in a declaration `this` is 0; a
/// variable or `let` name hides an outer name of its number.
#[cycle(tree)]
#[derive(Drop)]
pub enum Formula {
    /// `a in b` between relations.
    Inside(Box<Expr>, Box<Expr>),
    /// `a = b` between relations.
    Equal(Box<Expr>, Box<Expr>),
    /// `a in m b`, where `m` is a word before the bound and `b` may be products whose arrows have
    /// multiplicities.
    Within(Box<Expr>, Multiplicity, Box<Expr>),
    /// `some e`, `no e`, `one e` or `lone e`.
    Test(Quantity, Box<Expr>),
    /// A comparison of two integers.
    Compare(Comparison, Box<Expr>, Box<Expr>),
    /// `not F`.
    Not(Box<Formula>),
    /// The conjunction of a list, as of a block; the empty one is true.
    Every(Vec<Formula>),
    /// `F or G`, `F implies G` or `F iff G`.
    Connect(Connective, Box<Formula>, Box<Formula>),
    /// `F implies G else H`.
    Choose(Box<Formula>, Box<Formula>, Box<Formula>),
    /// `all x: a, y: b | F`.
    ForAll(Vec<Variable>, Box<Formula>),
    /// `some`, `no`, `one` or `lone` with variables, as in `one x: a, y: b | F`.
    Counted(Quantity, Vec<Variable>, Box<Formula>),
    /// A temporal operator on one formula.
    Temporal(TemporalUnary, Box<Formula>),
    /// A temporal operator on two formulas.
    TemporalPair(TemporalBinary, Box<Formula>, Box<Formula>),
    /// `let x = e | F`, with the name's number.
    Let(u32, Box<Expr>, Box<Formula>),
    /// A call of a predicate, with the body's number and one argument for each parameter.
    Call(u32, Vec<Expr>),
}

/// One variable of a quantifier, a comprehension or a `sum`.
#[cycle(tree)]
#[derive(Drop)]
pub struct Variable {
    /// The name's number.
    pub name: u32,
    /// From how many of the variables just before it in the list its atom differs: the place in
    /// its `disj` list, counted from 0, or 0 outside such a list.
    pub apart: u32,
    /// The bound, of one column. The variables before it in the list may stand in it.
    pub bound: Expr,
}

/// A resolved expression.
#[cycle(tree)]
#[derive(Drop)]
pub enum Expr {
    /// A sig, by its number in the model: `String` and the literals' sigs among them.
    Sig(u32),
    /// A field, by its number in the model.
    Field(u32),
    /// A variable, a parameter or a `let` name.
    Name(u32),
    /// `univ`.
    Univ,
    /// `iden`.
    Iden,
    /// `none`, the empty set of one column.
    Empty,
    /// `Int`.
    Int,
    /// An operator on two relations.
    Combine(RelationOp, Box<Expr>, Box<Expr>),
    /// `a m -> n b`. The two multiplicities count only in a bound; elsewhere they are `Set`.
    Product(Box<Expr>, Multiplicity, Multiplicity, Box<Expr>),
    /// An operator on one relation.
    Unary(UnaryRelation, Box<Expr>),
    /// `e'`.
    Prime(Box<Expr>),
    /// `F implies a else b`.
    Choose(Box<Formula>, Box<Expr>, Box<Expr>),
    /// `{ x: a, y: b | F }`.
    Comprehension(Vec<Variable>, Box<Formula>),
    /// An integer literal, with its place.
    Number(i64, Position),
    /// `#e`.
    Count(Box<Expr>),
    /// One of the five operators on integers.
    Arithmetic(IntOp, Box<Expr>, Box<Expr>),
    /// `sum x: a, y: b | e`.
    Sum(Vec<Variable>, Box<Expr>),
    /// `let x = a | b`, with the name's number.
    Let(u32, Box<Expr>, Box<Expr>),
    /// A call of a function, with the body's number and one argument for each parameter.
    Call(u32, Vec<Expr>),
}
