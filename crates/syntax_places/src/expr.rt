//! Walks the tokens of expressions and formulas, and compares the places that they keep.
#![tactic(auto, using(crate::proofs::Parts::walk_append, crate::proofs::Parts::walk_optional))]

ghost use Rattle.std.specs.Prelude.{◌≡◌, map};
ghost use Rattle.syntax_places.specs.Pieces as p;
ghost use Rattle.syntax_places.specs.Walk as v;

use crate::part::{Part, separated};
use crate::walk::Walk;
use crate::words::{comparison, infix, multiplicity, optional};
use base_lists::Boxed;
use syntax_tree::{Access, Binding, Decl, Expr, Infix, Multiplicity, Symbol};

/// A tree.
#[tactic(auto, using(crate::proofs::Parts::walk_append, crate::proofs::Parts::walk_optional, crate::proofs::Forms::pieces_Name, crate::proofs::Forms::pieces_At, crate::proofs::Forms::pieces_Constant, crate::proofs::Forms::pieces_Number, crate::proofs::Forms::pieces_Negative, crate::proofs::Forms::pieces_Literal, crate::proofs::Forms::pieces_Parenthesis, crate::proofs::Forms::pieces_Block, crate::proofs::Forms::pieces_Comprehension, crate::proofs::Forms::pieces_Quantified, crate::proofs::Forms::pieces_Let, crate::proofs::Forms::pieces_Sequence, crate::proofs::Forms::pieces_Implication, crate::proofs::Forms::pieces_Compare, crate::proofs::Forms::pieces_Prefix, crate::proofs::Forms::pieces_Infix, crate::proofs::Forms::pieces_Join, crate::proofs::Forms::pieces_Prime))]
#[cycle(placed)]
pub fn expr(tree: &Expr, walk: &mut Walk<'_>)
    ensures { walk.new ≡ v.walk walk.old (p.pieces tree.now) }
{
    match tree {
        Expr::Name(name) => name.go(walk),
        Expr::At(place, name) => {
            walk.here(*place);
            walk.past();
            name.go(walk);
        }
        Expr::Constant(place, _) => {
            walk.here(*place);
            walk.past();
        }
        Expr::Number(place, _) => {
            walk.here(*place);
            walk.past();
        }
        Expr::Negative(place, _) => {
            walk.here(*place);
            walk.past();
            walk.past();
        }
        Expr::Literal(place, _) => {
            walk.here(*place);
            walk.past();
        }
        Expr::Parenthesis(place, inner) => {
            walk.here(*place);
            walk.past();
            expr(inner.get(), walk);
            walk.past();
        }
        Expr::Block(place, items) => {
            walk.here(*place);
            walk.past();
            exprs(items.as_slice(), walk);
            walk.past();
        }
        Expr::Comprehension(place, variables, has_bar, body) => {
            walk.here(*place);
            walk.past();
            decls(variables.as_slice(), walk);
            optional(*has_bar, walk);
            expr(body.get(), walk);
            walk.past();
        }
        Expr::Quantified(place, _, variables, has_bar, body) => {
            walk.here(*place);
            walk.past();
            decls(variables.as_slice(), walk);
            optional(*has_bar, walk);
            expr(body.get(), walk);
        }
        Expr::Let(place, names, has_bar, body) => {
            walk.here(*place);
            walk.past();
            bindings(names.as_slice(), walk);
            optional(*has_bar, walk);
            expr(body.get(), walk);
        }
        Expr::Sequence(first, second) => {
            expr(first.get(), walk);
            walk.past();
            expr(second.get(), walk);
        }
        Expr::Implication(_, condition, consequence, other) => {
            expr(condition.get(), walk);
            walk.past();
            expr(consequence.get(), walk);
            alternative(other, walk);
        }
        Expr::Compare(operator, left, right) => {
            expr(left.get(), walk);
            comparison(*operator, walk);
            expr(right.get(), walk);
        }
        Expr::Prefix(place, _, operand) => {
            walk.here(*place);
            walk.past();
            expr(operand.get(), walk);
        }
        Expr::Infix(first, rest) => {
            expr(first.get(), walk);
            links(rest.as_slice(), walk);
        }
        Expr::Join(first, rest) => {
            expr(first.get(), walk);
            steps(rest.as_slice(), walk);
        }
        Expr::Prime(operand) => {
            expr(operand.get(), walk);
            walk.past();
        }
    }
}

/// What stands after `else`, with it.
#[cycle(placed)]
fn alternative(other: &Option<Boxed<Expr>>, walk: &mut Walk<'_>)
    ensures { walk.new ≡ v.walk walk.old (p.other_pieces other.now) }
{
    match other {
        None => {}
        Some(other) => {
            walk.past();
            expr(other.get(), walk);
        }
    }
}

/// Expressions one after another.
#[tactic(auto, using(crate::proofs::Parts::joined_next, crate::proofs::Parts::joined_end))]
#[cycle(placed)]
fn exprs(items: &[Expr], walk: &mut Walk<'_>)
    ensures { walk.new ≡ v.walk walk.old (p.joined (map p.pieces items.now)) }
{
    for item in items {
        expr(item, walk);
    }
}

/// Variables with their bounds.
#[cycle(placed)]
pub fn decls(decls: &[Decl<Expr>], walk: &mut Walk<'_>)
    ensures { walk.new ≡ v.walk walk.old (p.decls_pieces decls.now) }
{
    let mut is_first = true;
    for one in decls {
        optional(!is_first, walk);
        variables(one, walk);
        expr(&one.bound, walk);
        is_first = false;
    }
}

/// What stands before the bound's expression.
fn variables(of: &Decl<Expr>, walk: &mut Walk<'_>)
    ensures { walk.new ≡ v.walk walk.old (v.before_bound of.now) }
{
    walk.here(of.place);
    optional(of.is_disjoint, walk);
    separated(Symbol::Comma, of.names.as_slice(), walk);
    walk.past();
    walk.here(of.bound_place);
    multiplicity(of.word, walk);
}

/// Names with their values.
#[cycle(placed)]
fn bindings(bindings: &[Binding<Expr>], walk: &mut Walk<'_>)
    ensures { walk.new ≡ v.walk walk.old (p.bindings_pieces bindings.now) }
{
    let mut is_first = true;
    for one in bindings {
        optional(!is_first, walk);
        bound_name(one, walk);
        expr(&one.value, walk);
        is_first = false;
    }
}

/// What stands before the value.
fn bound_name(of: &Binding<Expr>, walk: &mut Walk<'_>)
    ensures { walk.new ≡ v.walk walk.old (v.before_value of.now) }
{
    walk.here(of.place);
    walk.past();
    walk.past();
}

/// Operators with the operands after them.
#[cycle(placed)]
fn links(links: &[(Infix, Expr)], walk: &mut Walk<'_>)
    ensures { walk.new ≡ v.walk walk.old (p.links_pieces links.now) }
{
    for link in links {
        infix(link.0, walk);
        expr(&link.1, walk);
    }
}

/// The steps of a join.
#[cycle(placed)]
fn steps(steps: &[Access<Expr>], walk: &mut Walk<'_>)
    ensures { walk.new ≡ v.walk walk.old (p.steps_pieces steps.now) }
{
    for one in steps {
        match one {
            Access::Dot(operand) => {
                walk.past();
                expr(operand, walk);
            }
            Access::Bracket(items) => {
                walk.past();
                let mut is_first = true;
                let items = items.as_slice();
                for item in items {
                    optional(!is_first, walk);
                    expr(item, walk);
                    is_first = false;
                }
                walk.past();
            }
        }
    }
}

/// A multiplicity word, where one stands, and an expression.
pub fn worded(word: Option<Multiplicity>, tree: &Expr, walk: &mut Walk<'_>)
    ensures { walk.new ≡ v.walk walk.old (p.worded_pieces word tree.now) }
{
    multiplicity(word, walk);
    expr(tree, walk);
}
