//! How deep formulas are, and how many past operators they nest, once calls are written out.
//! Nothing is written out for it: a body is measured once, with how deep each of its parameters is
//! used. A `let` name counts as what it stands for.

ghost use Rattle.std.specs.Prelude.{◌≡◌, ◌≤◌, ℕ, nat_lt, if◌then◌else◌, max, map, length, slice_get, Some, IfOk, IfSome};
ghost use Rattle.core_tree.specs.Past.{Depths, BodyDepths};
ghost use Rattle.core_tree.specs.Trees.{term_of, claim_of, variable_of, term_list, claim_list, variable_list};
ghost use Rattle.form_measures.specs.Measured.{up_to, over_parts, measured_in, measured_of, measured_each, measured_arguments, measured_form, under};
ghost use Rattle.form_measures.specs.Weights.{weight_at, arguments_at, named, Counts, Agrees, Weighs, AreWeighed, IsUnder};

use crate::forms::{
    Levels, Measure, both, over_binary, over_let, over_parts, over_row, over_three, over_two,
    over_unary,
};
use crate::levels::{binary_level, connective_level, expr_level, formula_level, relation_level};
use crate::scope::{Named, copied, enter, look_up, with_name};
use crate::weight::{Weight, called, nothing, of_parameter};
use core_tree::{BodyForm, Expr, Formula, Variable};
use std::alloc::{AllocError, Global};

/// What a body measures.
#[derive(Drop)]
pub struct Summary {
    /// How many parameters it has.
    pub count: u64,
    pub weight: Weight,
}

/// What the bounds of variables measure, and the names that are in scope under them.
#[derive(Drop)]
struct Inner {
    bounds: Weight,
    names: Vec<Named>,
}

/// A part that is no past operator, over the bounds of its variables and what stands under these.
fn over_bounds(
    alloc: Global,
    measure: Measure,
    inner: Inner,
    part: Weight,
) -> Result<Weight, AllocError>
    ensures { IfOk result (λ w. (d : Depths) → weight_at d w
        ≡ over_parts measure (max (weight_at d inner.bounds) (weight_at d part))) }
{
    let Inner { bounds, names: _ } = inner;
    let whole = over_two(alloc, measure, bounds, part)?;
    Ok(whole)
}

/// What a formula measures under the names in scope.
#[cycle(walk)]
pub(crate) fn of_formula(
    alloc: Global,
    measure: Measure,
    bodies: &[Option<Summary>],
    names: &[Named],
    formula: &Formula,
) -> Result<Weight, AllocError>
    ensures { IfOk result (λ w. Weighs bodies.now names.now w
        (λ all d. measured_of measure all (claim_of formula.now) d)) }
{
    match formula {
        Formula::Inside(a, b) => {
            let first = of_expr(alloc, measure, bodies, names, a)?;
            let second = of_expr(alloc, measure, bodies, names, b)?;
            let whole = over_two(alloc, measure, first, second)?;
            Ok(whole)
        }
        Formula::Equal(a, b) => {
            let first = of_expr(alloc, measure, bodies, names, a)?;
            let second = of_expr(alloc, measure, bodies, names, b)?;
            let whole = over_two(alloc, measure, first, second)?;
            Ok(whole)
        }
        Formula::Within(a, _, b) => {
            let first = of_expr(alloc, measure, bodies, names, a)?;
            let second = of_expr(alloc, measure, bodies, names, b)?;
            let whole = over_two(alloc, measure, first, second)?;
            Ok(whole)
        }
        Formula::Test(_, a) => {
            let part = of_expr(alloc, measure, bodies, names, a)?;
            let whole = over_parts(alloc, measure, part)?;
            Ok(whole)
        }
        Formula::Compare(_, a, b) => {
            let first = of_expr(alloc, measure, bodies, names, a)?;
            let second = of_expr(alloc, measure, bodies, names, b)?;
            let whole = over_two(alloc, measure, first, second)?;
            Ok(whole)
        }
        Formula::Not(f) => {
            let part = of_formula(alloc, measure, bodies, names, f)?;
            let whole = over_parts(alloc, measure, part)?;
            Ok(whole)
        }
        Formula::Every(list) => {
            let whole = of_each(alloc, measure, bodies, names, list)?;
            Ok(whole)
        }
        Formula::Connect(op, f, g) => {
            let first = of_formula(alloc, measure, bodies, names, f)?;
            let second = of_formula(alloc, measure, bodies, names, g)?;
            let own = formula_level(f);
            let whole = over_row(alloc, measure, connective_level(*op), own, first, second)?;
            Ok(whole)
        }
        Formula::Choose(f, g, h) => {
            let first = of_formula(alloc, measure, bodies, names, f)?;
            let second = of_formula(alloc, measure, bodies, names, g)?;
            let third = of_formula(alloc, measure, bodies, names, h)?;
            let whole = over_three(alloc, measure, first, second, third)?;
            Ok(whole)
        }
        Formula::ForAll(list, f) => {
            let inner = under(alloc, measure, bodies, names, list)?;
            let part = of_formula(alloc, measure, bodies, inner.names.as_slice(), f)?;
            let whole = over_bounds(alloc, measure, inner, part)?;
            Ok(whole)
        }
        Formula::Counted(_, list, f) => {
            let inner = under(alloc, measure, bodies, names, list)?;
            let part = of_formula(alloc, measure, bodies, inner.names.as_slice(), f)?;
            let whole = over_bounds(alloc, measure, inner, part)?;
            Ok(whole)
        }
        Formula::Temporal(op, f) => {
            let part = of_formula(alloc, measure, bodies, names, f)?;
            let whole = over_unary(alloc, measure, *op, part)?;
            Ok(whole)
        }
        Formula::TemporalPair(op, f, g) => {
            let first = of_formula(alloc, measure, bodies, names, f)?;
            let second = of_formula(alloc, measure, bodies, names, g)?;
            let own = formula_level(f);
            let row = binary_level(*op);
            let whole = over_binary(
                alloc,
                measure,
                *op,
                Levels { row, first: own },
                first,
                second,
            )?;
            Ok(whole)
        }
        Formula::Let(name, value, f) => {
            let value = of_expr(alloc, measure, bodies, names, value)?;
            let inner = with_name(alloc, names, *name, &value)?;
            let part = of_formula(alloc, measure, bodies, inner.as_slice(), f)?;
            let whole = over_let(alloc, measure, value, part)?;
            Ok(whole)
        }
        Formula::Call(body, list) => {
            let arguments = of_arguments(alloc, measure, bodies, names, list)?;
            let inner = of_call(alloc, bodies, *body, arguments.as_slice())?;
            let whole = over_parts(alloc, measure, inner)?;
            Ok(whole)
        }
    }
}

/// What an expression measures under the names in scope.
#[cycle(walk)]
pub(crate) fn of_expr(
    alloc: Global,
    measure: Measure,
    bodies: &[Option<Summary>],
    names: &[Named],
    expr: &Expr,
) -> Result<Weight, AllocError>
    ensures { IfOk result (λ w. Weighs bodies.now names.now w
        (λ all d. measured_in measure all (term_of expr.now) d)) }
{
    match expr {
        Expr::Sig(_) => Ok(nothing(alloc)),
        Expr::Field(_) => Ok(nothing(alloc)),
        Expr::Name(name) => {
            let whole = look_up(alloc, names, *name)?;
            Ok(whole)
        }
        Expr::Univ => Ok(nothing(alloc)),
        Expr::Iden => Ok(nothing(alloc)),
        Expr::Empty => Ok(nothing(alloc)),
        Expr::Int => Ok(nothing(alloc)),
        Expr::Combine(op, a, b) => {
            let first = of_expr(alloc, measure, bodies, names, a)?;
            let second = of_expr(alloc, measure, bodies, names, b)?;
            let own = expr_level(a);
            let whole = over_row(alloc, measure, relation_level(*op), own, first, second)?;
            Ok(whole)
        }
        Expr::Product(a, _, _, b) => {
            let first = of_expr(alloc, measure, bodies, names, a)?;
            let second = of_expr(alloc, measure, bodies, names, b)?;
            let own = expr_level(a);
            let whole = over_row(alloc, measure, 14, own, first, second)?;
            Ok(whole)
        }
        Expr::Unary(_, a) => {
            let part = of_expr(alloc, measure, bodies, names, a)?;
            let whole = over_parts(alloc, measure, part)?;
            Ok(whole)
        }
        Expr::Prime(a) => {
            let part = of_expr(alloc, measure, bodies, names, a)?;
            let whole = over_parts(alloc, measure, part)?;
            Ok(whole)
        }
        Expr::Choose(f, a, b) => {
            let first = of_formula(alloc, measure, bodies, names, f)?;
            let second = of_expr(alloc, measure, bodies, names, a)?;
            let third = of_expr(alloc, measure, bodies, names, b)?;
            let whole = over_three(alloc, measure, first, second, third)?;
            Ok(whole)
        }
        Expr::Comprehension(list, f) => {
            let inner = under(alloc, measure, bodies, names, list)?;
            let part = of_formula(alloc, measure, bodies, inner.names.as_slice(), f)?;
            let whole = over_bounds(alloc, measure, inner, part)?;
            Ok(whole)
        }
        Expr::Number(_, _) => Ok(nothing(alloc)),
        Expr::Count(a) => {
            let part = of_expr(alloc, measure, bodies, names, a)?;
            let whole = over_parts(alloc, measure, part)?;
            Ok(whole)
        }
        Expr::Arithmetic(_, a, b) => {
            let first = of_expr(alloc, measure, bodies, names, a)?;
            let second = of_expr(alloc, measure, bodies, names, b)?;
            let own = expr_level(a);
            let whole = over_row(alloc, measure, 10, own, first, second)?;
            Ok(whole)
        }
        Expr::Sum(list, a) => {
            let inner = under(alloc, measure, bodies, names, list)?;
            let part = of_expr(alloc, measure, bodies, inner.names.as_slice(), a)?;
            let whole = over_bounds(alloc, measure, inner, part)?;
            Ok(whole)
        }
        Expr::Let(name, value, a) => {
            let value = of_expr(alloc, measure, bodies, names, value)?;
            let inner = with_name(alloc, names, *name, &value)?;
            let part = of_expr(alloc, measure, bodies, inner.as_slice(), a)?;
            let whole = over_let(alloc, measure, value, part)?;
            Ok(whole)
        }
        Expr::Call(body, list) => {
            let arguments = of_arguments(alloc, measure, bodies, names, list)?;
            let inner = of_call(alloc, bodies, *body, arguments.as_slice())?;
            let whole = over_parts(alloc, measure, inner)?;
            Ok(whole)
        }
    }
}

/// What a conjunction measures; the empty one has no parts.
#[cycle(walk)]
fn of_each(
    alloc: Global,
    measure: Measure,
    bodies: &[Option<Summary>],
    names: &[Named],
    list: &[Formula],
) -> Result<Weight, AllocError>
    ensures { IfOk result (λ w. Weighs bodies.now names.now w
        (λ all d. measured_each measure all (claim_list (map claim_of list.now)) d)) }
{
    let mut whole = nothing(alloc);
    for formula in list {
        let part = of_formula(alloc, measure, bodies, names, formula)?;
        let over = over_parts(alloc, measure, part)?;
        whole = both(whole, &over)?;
    }
    Ok(whole)
}

/// What the arguments of a call measure.
#[cycle(walk)]
fn of_arguments(
    alloc: Global,
    measure: Measure,
    bodies: &[Option<Summary>],
    names: &[Named],
    list: &[Expr],
) -> Result<Vec<Weight>, AllocError>
    ensures { IfOk result (λ v. AreWeighed bodies.now names.now v.items
        (λ all d. measured_arguments measure all (term_list (map term_of list.now)) d)) }
{
    let mut weights = Vec::new(alloc);
    for expr in list {
        let weight = of_expr(alloc, measure, bodies, names, expr)?;
        weights.push(weight)?;
    }
    Ok(weights)
}

/// What the bounds of variables measure, each of which sees the variables before it.
#[cycle(walk)]
fn under(
    alloc: Global,
    measure: Measure,
    bodies: &[Option<Summary>],
    names: &[Named],
    list: &[Variable],
) -> Result<Inner, AllocError>
    ensures { IfOk result (λ u. IsUnder measure bodies.now names.now u.bounds u.names.items
        (variable_list (map variable_of list.now))) }
{
    let mut inner = copied(alloc, names)?;
    let mut bounds = nothing(alloc);
    for variable in list {
        let bound = of_expr(alloc, measure, bodies, inner.as_slice(), &variable.bound)?;
        bounds = both(bounds, &bound)?;
        enter(&mut inner, variable.name, nothing(alloc))?;
    }
    Ok(Inner {
        bounds,
        names: inner,
    })
}

/// What is known of a body.
fn known(bodies: &[Option<Summary>], body: u32) -> Option<&Summary>
    ensures { IfSome result (λ s. slice_get bodies.now body ≡ Some (Some s.now)) }
{
    match bodies.get(body as usize) {
        None => None,
        Some(found) => match found {
            None => None,
            Some(summary) => Some(summary),
        },
    }
}

/// What a call measures, apart from being a part. A body that is called is known, since its rank is lower,
/// and it has as many parameters as there are arguments.
fn of_call(
    alloc: Global,
    bodies: &[Option<Summary>],
    body: u32,
    arguments: &[Weight],
) -> Result<Weight, AllocError>
    ensures { IfOk result (λ w. (all : BodyDepths) → Agrees all bodies.now → (d e : Depths) →
        Counts (arguments_at d arguments.now) e → ((p : ℕ) → length arguments.now ≤ p → e p ≡ 0) →
        weight_at d w ≡ up_to (all body e)) }
{
    match known(bodies, body) {
        None => Err(AllocError),
        Some(summary) => {
            if arguments.len() as u64 > summary.count {
                return Err(AllocError);
            }
            let weight = called(alloc, &summary.weight, arguments)?;
            Ok(weight)
        }
    }
}

/// The parameters 0, 1 and on of a body, so many.
fn parameters(alloc: Global, count: usize) -> Result<Vec<Named>, AllocError>
    ensures { IfOk result (λ v. (d : Depths) (x : ℕ) →
        named d v.items x ≡ (if nat_lt x count then up_to (d x) else 0)) }
{
    let mut names = Vec::new(alloc);
    for place in 0..count {
        if place > u32::MAX as usize {
            return Err(AllocError);
        }
        let weight = of_parameter(alloc, place as u32)?;
        enter(&mut names, place as u32, weight)?;
    }
    Ok(names)
}

/// What a body measures, apart from the bounds of its parameters and of its result.
pub(crate) fn summary_of(
    alloc: Global,
    measure: Measure,
    bodies: &[Option<Summary>],
    count: usize,
    form: &BodyForm,
) -> Result<Summary, AllocError>
    ensures { IfOk result (λ s. (all : BodyDepths) → Agrees all bodies.now → (d e : Depths) →
        Counts d e → ((p : ℕ) → s.count ≤ p → e p ≡ 0) →
        weight_at d s.weight ≡ up_to (measured_form measure all form.now e)) }
{
    let names = parameters(alloc, count)?;
    let names = names.as_slice();
    match form {
        BodyForm::Test(formula) => {
            let weight = of_formula(alloc, measure, bodies, names, formula)?;
            Ok(Summary {
                count: count as u64,
                weight,
            })
        }
        BodyForm::Term(expr, _) => {
            let weight = of_expr(alloc, measure, bodies, names, expr)?;
            Ok(Summary {
                count: count as u64,
                weight,
            })
        }
    }
}
