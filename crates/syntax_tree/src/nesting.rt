//! Measures how deep a tree is.

ghost use Rattle.std.specs.Prelude.{◌≡◌, ◌+◌, ◌-◌, ◌^◌, min, max, map};
ghost use Rattle.syntax_tree.specs.Depth.{depth_of, deepest, step_depth, rest_depth};

use crate::expr::{Access, Binding, Decl, Expr};
use crate::operator::Infix;
use base_lists::Boxed;

/// The depth of a node whose deepest part has this depth.
fn above(part: u32) -> u32
    ensures { result ≡ min (part + 1) (2 ^ 32 - 1) }
{
    part.saturating_add(1)
}

fn deeper(a: u32, b: u32) -> u32
    ensures { result ≡ max a b }
{
    if a < b { b } else { a }
}

/// The depth of the tree: 0 for a form without inner parts, and one more than that of its deepest
/// part for any other, a parenthesis and a block among them. A greater depth than 4,294,967,295
/// is given as that number.
#[cycle(depth)]
pub fn depth(tree: &Expr) -> u32
    ensures { result ≡ min (depth_of tree.now) (2 ^ 32 - 1) }
{
    match tree {
        Expr::Name(_)
        | Expr::At(_, _)
        | Expr::Constant(_, _)
        | Expr::Number(_, _)
        | Expr::Negative(_, _)
        | Expr::Literal(_, _) => 0,
        Expr::Parenthesis(_, inner) => above(depth(inner.get())),
        Expr::Block(_, items) => {
            if items.len() == 0 {
                0
            } else {
                above(deepest_of(items.as_slice()))
            }
        }
        Expr::Comprehension(_, decls, _, body) => {
            above(deeper(deepest_bound(decls.as_slice()), depth(body.get())))
        }
        Expr::Quantified(_, _, decls, _, body) => {
            above(deeper(deepest_bound(decls.as_slice()), depth(body.get())))
        }
        Expr::Let(_, bindings, _, body) => {
            above(deeper(deepest_value(bindings.as_slice()), depth(body.get())))
        }
        Expr::Sequence(first, second) => above(deeper(depth(first.get()), depth(second.get()))),
        Expr::Implication(_, condition, consequence, other) => {
            let parts = deeper(depth(condition.get()), depth(consequence.get()));
            above(deeper(parts, depth_of_other(other)))
        }
        Expr::Compare(_, left, right) => above(deeper(depth(left.get()), depth(right.get()))),
        Expr::Prefix(_, _, operand) => above(depth(operand.get())),
        Expr::Infix(first, links) => {
            above(deeper(depth(first.get()), deepest_link(links.as_slice())))
        }
        Expr::Join(first, steps) => above(deeper(
            depth(first.get()),
            deepest_step(steps.as_slice()),
        )),
        Expr::Prime(operand) => above(depth(operand.get())),
    }
}

#[cycle(depth)]
fn deepest_of(items: &[Expr]) -> u32
    ensures { result ≡ min (deepest (map depth_of items.now)) (2 ^ 32 - 1) }
{
    let mut most = 0;
    for item in items {
        most = deeper(most, depth(item));
    }
    most
}

/// The greatest depth of a bound, or 0 where there is none.
#[cycle(depth)]
pub fn deepest_bound(decls: &[Decl<Expr>]) -> u32
    ensures { result ≡ min (deepest (map (λ d. depth_of d.bound) decls.now)) (2 ^ 32 - 1) }
{
    let mut most = 0;
    for decl in decls {
        most = deeper(most, depth(&decl.bound));
    }
    most
}

#[cycle(depth)]
fn deepest_value(bindings: &[Binding<Expr>]) -> u32
    ensures { result ≡ min (deepest (map (λ b. depth_of b.value) bindings.now)) (2 ^ 32 - 1) }
{
    let mut most = 0;
    for binding in bindings {
        most = deeper(most, depth(&binding.value));
    }
    most
}

#[cycle(depth)]
fn deepest_link(links: &[(Infix, Expr)]) -> u32
    ensures { result ≡ min (deepest (map (λ l. depth_of l.1) links.now)) (2 ^ 32 - 1) }
{
    let mut most = 0;
    for link in links {
        most = deeper(most, depth(&link.1));
    }
    most
}

#[cycle(depth)]
fn deepest_step(steps: &[Access<Expr>]) -> u32
    ensures { result ≡ min (deepest (map step_depth steps.now)) (2 ^ 32 - 1) }
{
    let mut most = 0;
    for step in steps {
        match step {
            Access::Dot(operand) => most = deeper(most, depth(operand)),
            Access::Bracket(arguments) => {
                let arguments = arguments.as_slice();
                for argument in arguments {
                    most = deeper(most, depth(argument));
                }
            }
        }
    }
    most
}

#[cycle(depth)]
fn depth_of_other(other: &Option<Boxed<Expr>>) -> u32
    ensures { result ≡ min (rest_depth other.now) (2 ^ 32 - 1) }
{
    match other {
        None => 0,
        Some(other) => depth(other.get()),
    }
}
