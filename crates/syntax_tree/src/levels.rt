//! Whether a tree keeps the rules on the levels of operands.

ghost use Rattle.std.specs.Prelude.{◌≡◌, ◌+◌, ◌^◌, ◌<◌, ◌≤◌, map, fold, ◌&&◌, ◌||◌, not};
ghost use Rattle.syntax_tree.specs.Levels as spec;
ghost use Rattle.syntax_tree.specs.Levels.{shape, shaped_decl, shaped_binding, shaped_link, shaped_access};

use crate::expr::{Access, Binding, Decl, Expr};
use crate::operator::{Comparator, Comparison, Infix, Prefix, Quantifier};
use crate::shape::Shape;
use base_lists::{Boxed, Items};

/// Whether a list has an item.
fn has_some<T>(items: &Items<T>) -> bool
    ensures { result ≡ spec.has_some items.now }
{
    match items.as_slice() {
        [] => false,
        _ => true,
    }
}

/// The level of a prefix operator.
fn prefix_level(operator: Prefix) -> u8
    ensures level { result ≡ spec.prefix_level operator }
    ensures within { result ≤ 17 }
{
    match operator {
        Prefix::No | Prefix::Some | Prefix::Lone | Prefix::One => 9,
        Prefix::Count => 11,
        Prefix::Transpose | Prefix::Closure | Prefix::ReflexiveClosure => 17,
        _ => 7,
    }
}

/// The level of an operator that groups to the left.
fn infix_level(operator: Infix) -> u8
    ensures level { result ≡ spec.infix_level operator }
    ensures within { result ≤ 15 }
{
    match operator {
        Infix::OrOr | Infix::Or => 2,
        Infix::Equivalence | Infix::Iff => 3,
        Infix::AndAnd | Infix::And => 5,
        Infix::Until | Infix::Releases | Infix::Since | Infix::Triggered => 6,
        Infix::Override => 12,
        Infix::Intersection => 13,
        Infix::Arrow(_, _) => 14,
        Infix::Domain | Infix::Range => 15,
        _ => 10,
    }
}

fn may_lead(least: u8, x: Shape) -> bool
    ensures { result ≡ spec.may_lead least x }
{
    x.right && least <= x.level && !x.is_open
}

fn may_end(least: u8, x: Shape) -> bool
    ensures { result ≡ spec.may_end least x }
{
    x.right && (least <= x.level || x.level == 0)
}

fn may_bound(x: Shape) -> bool
    ensures { result ≡ spec.may_bound x }
{
    x.right && 10 <= x.level && !x.has_zero
}

fn closed(right: bool) -> Shape
    ensures { result ≡ spec.closed right }
{
    Shape {
        level: 19,
        right,
        is_open: false,
        has_zero: false,
        is_bare: false,
        has_minus: false,
        is_block: false,
        is_worded: false,
    }
}

fn node(level: u8, right: bool, first: Shape, last: Shape, zero: bool) -> Shape
    ensures { result ≡ spec.node level right first last zero }
{
    Shape {
        level,
        right,
        is_open: last.is_open,
        has_zero: first.has_zero || zero,
        is_bare: last.is_bare,
        has_minus: first.has_minus,
        is_block: false,
        is_worded: false,
    }
}

fn zero_form(right: bool, has_bar: bool, body: Shape, worded: bool) -> Shape
    ensures { result ≡ spec.zero_form right has_bar body worded }
{
    Shape {
        level: 0,
        right: right && body.right && (has_bar || body.is_block),
        is_open: has_bar,
        has_zero: true,
        is_bare: has_bar && body.is_bare,
        has_minus: false,
        is_block: false,
        is_worded: worded,
    }
}

fn negative() -> Shape
    ensures { result ≡ spec.negative }
{
    Shape {
        has_minus: true,
        ..closed(true)
    }
}

fn block(right: bool) -> Shape
    ensures { result ≡ spec.block right }
{
    Shape {
        is_block: true,
        ..closed(right)
    }
}

fn comprehension(decls: bool, has_bar: bool, body: Shape) -> Shape
    ensures { result ≡ spec.comprehension decls has_bar body }
{
    closed(decls && body.right && (has_bar || body.is_block))
}

fn is_sum(quantifier: Quantifier) -> bool
    ensures { result ≡ spec.is_sum quantifier }
{
    matches!(quantifier, Quantifier::Sum)
}

fn is_multiplicity(quantifier: Quantifier) -> bool
    ensures { result ≡ spec.is_multiplicity quantifier }
{
    matches!(
        quantifier,
        Quantifier::Some | Quantifier::Lone | Quantifier::One
    )
}

fn quantified(quantifier: Quantifier, decls: bool, has_bar: bool, body: Shape) -> Shape
    ensures { result ≡ spec.quantified quantifier decls has_bar body }
{
    let sums = is_sum(quantifier);
    let worded = is_multiplicity(quantifier);
    zero_form(decls && (has_bar || !sums), has_bar, body, worded)
}

fn sequence(first: Shape, second: Shape) -> Shape
    ensures { result ≡ spec.sequence first second }
{
    let leads = may_lead(2, first);
    let ends = may_end(1, second);
    node(1, leads && ends, first, second, second.has_zero)
}

fn implication(condition: Shape, consequence: Shape) -> Shape
    ensures { result ≡ spec.implication condition consequence }
{
    let leads = may_lead(5, condition);
    let ends = may_end(4, consequence);
    Shape {
        is_bare: true,
        ..node(
            4,
            leads && ends,
            condition,
            consequence,
            consequence.has_zero,
        )
    }
}

fn choice(condition: Shape, consequence: Shape, other: Shape) -> Shape
    ensures { result ≡ spec.choice condition consequence other }
{
    let leads = may_lead(5, condition);
    let middle = may_lead(4, consequence);
    let ends = may_end(4, other);
    let right = leads && middle && !consequence.is_bare && ends;
    node(
        4,
        right,
        condition,
        other,
        consequence.has_zero || other.has_zero,
    )
}

fn is_in(comparator: Comparator) -> bool
    ensures { result ≡ spec.is_in comparator }
{
    matches!(comparator, Comparator::In)
}

fn may_compare(comparison: Comparison, x: Shape) -> bool
    ensures { result ≡ spec.may_compare comparison x }
{
    let contains = is_in(comparison.comparator);
    if comparison.word.is_some() {
        let bounds = may_bound(x);
        contains && bounds
    } else if contains {
        let ends = may_end(10, x);
        ends && !x.is_worded
    } else {
        may_end(9, x)
    }
}

fn compare(comparison: Comparison, left: Shape, right: Shape) -> Shape
    ensures { result ≡ spec.compare comparison left right }
{
    let leads = may_lead(9, left);
    let ends = may_compare(comparison, right);
    node(8, leads && ends, left, right, right.has_zero)
}

fn prefixed(operator: Prefix, operand: Shape) -> Shape
    ensures { result ≡ spec.prefixed operator operand }
{
    let level = prefix_level(operator);
    let ends = may_end(level, operand);
    node(level, ends, closed(true), operand, operand.has_zero)
}

fn primed(operand: Shape) -> Shape
    ensures { result ≡ spec.primed operand }
{
    let leads = may_lead(18, operand);
    node(18, leads, operand, closed(true), false)
}

fn begun(level: u8, some: bool, first: Shape) -> Shape
    requires { level ≤ 16 }
    ensures { result ≡ spec.begun level some first }
{
    Shape {
        right: first.right && level + 1 <= first.level && some,
        ..first
    }
}

fn linked(level: u8, so_far: Shape, operator: Infix, operand: Shape) -> Shape
    requires { level ≤ 15 }
    ensures { result ≡ spec.linked level so_far (operator, operand) }
{
    let same = infix_level(operator) == level;
    let ends = may_end(level + 1, operand);
    let right = so_far.right && !so_far.is_open && same && ends;
    node(level, right, so_far, operand, operand.has_zero)
}

fn dotted(so_far: Shape, operand: Shape) -> Shape
    ensures { result ≡ spec.dotted so_far operand }
{
    let ends = may_end(17, operand);
    let right = so_far.right && !so_far.is_open && ends;
    node(16, right, so_far, operand, operand.has_zero)
}

fn boxed(so_far: Shape, arguments: bool) -> Shape
    ensures { result ≡ spec.boxed so_far arguments }
{
    let right = so_far.right && !so_far.is_open && arguments;
    node(16, right, so_far, closed(true), false)
}

/// Whether so far all was right, and this is.
fn also(so_far: bool, right: bool) -> bool
    ensures { result ≡ so_far && right }
{
    so_far && right
}

fn decl_right(some: bool, bound: Shape) -> bool
    ensures { result ≡ some && spec.may_bound bound }
{
    let bounds = may_bound(bound);
    some && bounds
}

fn item_right(is_first: bool, item: Shape) -> bool
    ensures { result ≡ item.right && (is_first || not item.has_minus) }
{
    item.right && (is_first || !item.has_minus)
}

/// What a tree shows to the node above it: its level, whether it and all its parts keep the rules
/// on levels, and what else those rules ask of an operand.
#[cycle(shape)]
pub fn shape_of(tree: &Expr) -> Shape
    ensures { result ≡ shape tree.now }
{
    match tree {
        Expr::Name(name) => closed(has_some(&name.parts)),
        Expr::At(_, name) => closed(has_some(&name.parts)),
        Expr::Constant(_, _) => closed(true),
        Expr::Number(_, _) => closed(true),
        Expr::Literal(_, _) => closed(true),
        Expr::Negative(_, _) => negative(),
        Expr::Parenthesis(_, inner) => closed(shape_of(inner.get()).right),
        Expr::Block(_, items) => block(items_right(items.as_slice())),
        Expr::Comprehension(_, decls, has_bar, body) => {
            let some = has_some(decls);
            let right = decls_right(decls.as_slice());
            comprehension(also(some, right), *has_bar, shape_of(body.get()))
        }
        Expr::Quantified(_, quantifier, decls, has_bar, body) => {
            let some = has_some(decls);
            let right = decls_right(decls.as_slice());
            quantified(
                *quantifier,
                also(some, right),
                *has_bar,
                shape_of(body.get()),
            )
        }
        Expr::Let(_, bindings, has_bar, body) => {
            let some = has_some(bindings);
            let right = bindings_right(bindings.as_slice());
            zero_form(also(some, right), *has_bar, shape_of(body.get()), false)
        }
        Expr::Sequence(first, second) => sequence(shape_of(first.get()), shape_of(second.get())),
        Expr::Implication(_, condition, consequence, other) => {
            let condition = shape_of(condition.get());
            let consequence = shape_of(consequence.get());
            implied(condition, consequence, other)
        }
        Expr::Compare(comparison, left, right) => {
            compare(*comparison, shape_of(left.get()), shape_of(right.get()))
        }
        Expr::Prefix(_, operator, operand) => prefixed(*operator, shape_of(operand.get())),
        Expr::Infix(first, links) => {
            let level = links_level(links.as_slice());
            let first = begun(level, has_some(links), shape_of(first.get()));
            links_shape(level, first, links.as_slice())
        }
        Expr::Join(first, steps) => {
            let first = begun(16, has_some(steps), shape_of(first.get()));
            steps_shape(first, steps.as_slice())
        }
        Expr::Prime(operand) => primed(shape_of(operand.get())),
    }
}

#[cycle(shape)]
fn implied(condition: Shape, consequence: Shape, other: &Option<Boxed<Expr>>) -> Shape
    ensures { result ≡ spec.other_shape condition consequence other.now }
{
    match other {
        None => implication(condition, consequence),
        Some(other) => choice(condition, consequence, shape_of(other.get())),
    }
}

#[cycle(shape)]
fn items_right(items: &[Expr]) -> bool
    ensures { result ≡ spec.items_right (map shape items.now) }
{
    let mut right = true;
    let mut is_first = true;
    for item in items {
        right = also(right, item_right(is_first, shape_of(item)));
        is_first = false;
    }
    right
}

/// Whether each list of variables has a variable, and a bound that keeps the rules.
#[cycle(shape)]
pub fn decls_right(decls: &[Decl<Expr>]) -> bool
    ensures { result ≡ spec.every spec.decl_right (map shaped_decl decls.now) }
{
    let mut right = true;
    for decl in decls {
        right = also(
            right,
            decl_right(has_some(&decl.names), shape_of(&decl.bound)),
        );
    }
    right
}

#[cycle(shape)]
fn bindings_right(bindings: &[Binding<Expr>]) -> bool
    ensures { result ≡ spec.every (λ b. spec.may_lead 0 b.value) (map shaped_binding bindings.now) }
{
    let mut right = true;
    for binding in bindings {
        right = also(right, may_lead(0, shape_of(&binding.value)));
    }
    right
}

/// The level of the operators of a list, which is that of the first one.
fn links_level(links: &[(Infix, Expr)]) -> u8
    ensures level { result ≡ spec.links_level (map shaped_link links.now) }
    ensures within { result ≤ 15 }
{
    match links {
        [] => 0,
        [first, ..] => infix_level(first.0),
    }
}

#[cycle(shape)]
fn links_shape(level: u8, first: Shape, links: &[(Infix, Expr)]) -> Shape
    requires { level ≤ 15 }
    ensures { result ≡ fold (spec.linked level) first (map shaped_link links.now) }
{
    let mut so_far = first;
    for link in links {
        so_far = linked(level, so_far, link.0, shape_of(&link.1));
    }
    so_far
}

#[cycle(shape)]
fn steps_shape(first: Shape, steps: &[Access<Expr>]) -> Shape
    ensures { result ≡ fold spec.stepped first (map shaped_access steps.now) }
{
    let mut so_far = first;
    for step in steps {
        match step {
            Access::Dot(operand) => so_far = dotted(so_far, shape_of(operand)),
            Access::Bracket(arguments) => {
                let mut right = true;
                let arguments = arguments.as_slice();
                for argument in arguments {
                    right = also(right, shape_of(argument).right);
                }
                so_far = boxed(so_far, right);
            }
        }
    }
    so_far
}
