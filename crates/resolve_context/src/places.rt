//! Finds the place of the first token of an expression.

use base_types::Position;
use syntax_tree::Expr;

/// The place of the first token.
pub fn first_place(tree: &Expr) -> Position {
    match tree {
        Expr::Name(name) => name.place,
        Expr::At(place, _)
        | Expr::Constant(place, _)
        | Expr::Number(place, _)
        | Expr::Negative(place, _)
        | Expr::Literal(place, _)
        | Expr::Parenthesis(place, _)
        | Expr::Block(place, _)
        | Expr::Comprehension(place, _, _, _)
        | Expr::Quantified(place, _, _, _, _)
        | Expr::Let(place, _, _, _)
        | Expr::Prefix(place, _, _) => *place,
        Expr::Sequence(first, _) => first_place(first.get()),
        Expr::Implication(_, first, _, _) => first_place(first.get()),
        Expr::Compare(_, first, _) => first_place(first.get()),
        Expr::Infix(first, _) => first_place(first.get()),
        Expr::Join(first, _) => first_place(first.get()),
        Expr::Prime(first) => first_place(first.get()),
    }
}

/// The place of the first token inside all parentheses round it.
pub fn inner_place(tree: &Expr) -> Position {
    match tree {
        Expr::Parenthesis(_, inner) => inner_place(inner.get()),
        _ => first_place(tree),
    }
}
