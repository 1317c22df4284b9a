//! The levels of operators that group to the left.

ghost use Rattle.std.specs.Prelude.{◌≡◌};
ghost use Rattle.core_tree.specs.Trees.{term_of, claim_of};
ghost use Rattle.bound_definitions.specs.Depth.{level_between, level_in, level_of};
ghost use Rattle.form_measures.specs.Levels.{connective_level, binary_level};

use core_tree::{Connective, Expr, Formula, RelationOp, TemporalBinary};

/// The level of an operator between relations.
pub(crate) fn relation_level(op: RelationOp) -> u32
    ensures { result ≡ level_between op }
{
    match op {
        RelationOp::Union => 10,
        RelationOp::Difference => 10,
        RelationOp::Override => 12,
        RelationOp::Intersection => 13,
        RelationOp::LeftRestrict => 15,
        RelationOp::RightRestrict => 15,
        RelationOp::Join => 16,
    }
}

/// The level of the operator of an expression, where operators of that level group to the left, and
/// else 0.
pub(crate) fn expr_level(expr: &Expr) -> u32
    ensures { result ≡ level_in (term_of expr.now) }
{
    match expr {
        Expr::Sig(_) => 0,
        Expr::Field(_) => 0,
        Expr::Name(_) => 0,
        Expr::Univ => 0,
        Expr::Iden => 0,
        Expr::Empty => 0,
        Expr::Int => 0,
        Expr::Combine(op, _, _) => relation_level(*op),
        Expr::Product(_, _, _, _) => 14,
        Expr::Unary(_, _) => 0,
        Expr::Prime(_) => 0,
        Expr::Choose(_, _, _) => 0,
        Expr::Comprehension(_, _) => 0,
        Expr::Number(_, _) => 0,
        Expr::Count(_) => 0,
        Expr::Arithmetic(_, _, _) => 10,
        Expr::Sum(_, _) => 0,
        Expr::Let(_, _, _) => 0,
        Expr::Call(_, _) => 0,
    }
}

/// The level of a connective.
pub(crate) fn connective_level(op: Connective) -> u32
    ensures { result ≡ connective_level op }
{
    match op {
        Connective::Or => 2,
        Connective::Iff => 3,
        Connective::Implies => 0,
    }
}

/// The level of a temporal operator on two formulas.
pub(crate) fn binary_level(op: TemporalBinary) -> u32
    ensures { result ≡ binary_level op }
{
    match op {
        TemporalBinary::Until => 6,
        TemporalBinary::Releases => 6,
        TemporalBinary::Since => 6,
        TemporalBinary::Triggered => 6,
        TemporalBinary::Then => 0,
    }
}

/// The level of the operator of a formula, where operators of that level group to the left, and else 0.
/// A row of conjunctions, as it is written, is one list already.
pub(crate) fn formula_level(formula: &Formula) -> u32
    ensures { result ≡ level_of (claim_of formula.now) }
{
    match formula {
        Formula::Inside(_, _) => 0,
        Formula::Equal(_, _) => 0,
        Formula::Within(_, _, _) => 0,
        Formula::Test(_, _) => 0,
        Formula::Compare(_, _, _) => 0,
        Formula::Not(_) => 0,
        Formula::Every(_) => 0,
        Formula::Connect(op, _, _) => connective_level(*op),
        Formula::Choose(_, _, _) => 0,
        Formula::ForAll(_, _) => 0,
        Formula::Counted(_, _, _) => 0,
        Formula::Temporal(_, _) => 0,
        Formula::TemporalPair(op, _, _) => binary_level(*op),
        Formula::Let(_, _, _) => 0,
        Formula::Call(_, _) => 0,
    }
}
