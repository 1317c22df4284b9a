//! Parts of a resolved tree.

ghost use Rattle.std.specs.Prelude.{◌≡◌, List, length, map, true, false, IfSome, Some, slice_get};
ghost use Rattle.core_tree.specs.declared.model.Body.{Body};
ghost use Rattle.core_tree.specs.declared.operators.RelationOp.TheVariants as relation;
ghost use Rattle.core_tree.specs.Trees.{Term, call_claim, call_term, term_list, term_of, claim_of};
ghost use Rattle.resolve_said.specs.Operators.{IsCall, Takes, IsWhole, Said, is_function, a_call, a_formula, a_set};
ghost use Rattle.resolve_said.specs.Parts.{said_by};

use core_tree::{Body, BodyForm, Expr, Formula, Model, RelationOp};

/// A part of a resolved tree: a set, a formula, or a call with the first of its arguments.
#[derive(Clone, Copy)]
pub enum Part<'a> {
    Set(&'a Expr),
    Formula(&'a Formula),
    /// The number of the body, and the arguments.
    Call(u32, &'a [Expr]),
}

/// What has an argument, and the argument.
#[derive(Clone, Copy)]
pub struct Split<'a> {
    pub rest: Part<'a>,
    pub argument: &'a Expr,
}

/// Whether it is a set or a formula.
pub fn is_whole(part: &Part<'_>) -> bool
    ensures { result ≡ true → IsWhole (said_by part.now) }
{
    match part {
        Part::Set(_) => true,
        Part::Formula(_) => true,
        Part::Call(_, _) => false,
    }
}

/// The body of that number.
fn body_at(model: &Model, body: u32) -> Option<&Body>
    ensures { IfSome result (λ b. slice_get model.now.bodies body ≡ Some b.now) }
{
    let place = body as usize;
    if place >= model.bodies.len() {
        return None;
    }
    Some(model.bodies.get(place))
}

/// Whether the body is a function.
fn is_function(body: &Body) -> bool
    ensures { result ≡ is_function body.now.form }
{
    match &body.form {
        BodyForm::Test(_) => false,
        BodyForm::Term(_, _) => true,
    }
}

/// Whether the body is a predicate.
fn is_predicate(body: &Body) -> bool
    ensures { result ≡ true → is_function body.now.form ≡ false }
{
    match &body.form {
        BodyForm::Test(_) => true,
        BodyForm::Term(_, _) => false,
    }
}

/// Whether the body waits for more than so many arguments.
pub fn waits(model: &Model, body: u32, count: usize) -> bool
    ensures { result ≡ true → (ts : List Term) → length ts ≡ count
        → IsCall model.now.bodies body ts (a_call body ts) }
{
    match body_at(model, body) {
        None => false,
        Some(found) => {
            if count >= found.parameters.len() {
                return false;
            }
            true
        }
    }
}

/// Whether the body is a function of so many arguments.
pub fn has_value(model: &Model, body: u32, count: usize) -> bool
    ensures { result ≡ true → (ts : List Term) → length ts ≡ count
        → IsCall model.now.bodies body ts (a_set (call_term body (term_list ts))) }
{
    match body_at(model, body) {
        None => false,
        Some(found) => count == found.parameters.len() && is_function(found),
    }
}

/// Whether the body is a predicate of so many arguments.
pub fn is_tested(model: &Model, body: u32, count: usize) -> bool
    ensures { result ≡ true → (ts : List Term) → length ts ≡ count
        → IsCall model.now.bodies body ts (a_formula (call_claim body (term_list ts))) }
{
    match body_at(model, body) {
        None => false,
        Some(found) => count == found.parameters.len() && is_predicate(found),
    }
}

/// The last argument, and the call without it.
fn last_argument<'a>(body: u32, arguments: &'a [Expr]) -> Option<Split<'a>>
    ensures { IfSome result (λ s. (bodies : List Body) (all : Said)
        → IsCall bodies body (map term_of arguments.now) all
        → Takes bodies (said_by s.rest) (term_of s.argument.now) all) }
{
    let count = arguments.len();
    if count == 0 {
        return None;
    }
    let last = count - 1;
    Some(Split {
        rest: Part::Call(body, &arguments[..last]),
        argument: &arguments[last],
    })
}

/// Whether it is the join.
fn is_join(op: RelationOp) -> bool
    ensures { result ≡ true → op ≡ relation.Join }
{
    match op {
        RelationOp::Join => true,
        _ => false,
    }
}

/// The last argument of a set: its left operand where it is a join.
fn split_set<'a>(model: &Model, expr: &'a Expr) -> Option<Split<'a>>
    ensures { IfSome result (λ s. Takes model.now.bodies (said_by s.rest)
        (term_of s.argument.now) (a_set (term_of expr.now))) }
{
    match expr {
        Expr::Combine(op, a, b) => {
            if !is_join(*op) {
                return None;
            }
            Some(Split {
                rest: Part::Set(&**b),
                argument: &**a,
            })
        }
        Expr::Call(body, list) => {
            let arguments = list.as_slice();
            if !has_value(model, *body, arguments.len()) {
                return None;
            }
            let taken = last_argument(*body, arguments)?;
            Some(taken)
        }
        _ => None,
    }
}

/// The last argument of a formula.
fn split_formula<'a>(model: &Model, formula: &'a Formula) -> Option<Split<'a>>
    ensures { IfSome result (λ s. Takes model.now.bodies (said_by s.rest)
        (term_of s.argument.now) (a_formula (claim_of formula.now))) }
{
    match formula {
        Formula::Call(body, list) => {
            let arguments = list.as_slice();
            if !is_tested(model, *body, arguments.len()) {
                return None;
            }
            let taken = last_argument(*body, arguments)?;
            Some(taken)
        }
        _ => None,
    }
}

/// The last argument of a call that waits for more.
fn split_call<'a>(model: &Model, body: u32, arguments: &'a [Expr]) -> Option<Split<'a>>
    ensures { IfSome result (λ s. Takes model.now.bodies (said_by s.rest)
        (term_of s.argument.now) (a_call body (map term_of arguments.now))) }
{
    if !waits(model, body, arguments.len()) {
        return None;
    }
    let taken = last_argument(body, arguments)?;
    Some(taken)
}

/// What a part has taken last, and what it was before.
pub fn last_taken<'a>(model: &Model, part: &Part<'a>) -> Option<Split<'a>>
    ensures { IfSome result (λ s. Takes model.now.bodies (said_by s.rest)
        (term_of s.argument.now) (said_by part.now)) }
{
    match part {
        Part::Set(expr) => split_set(model, *expr),
        Part::Formula(formula) => split_formula(model, *formula),
        Part::Call(body, arguments) => split_call(model, *body, *arguments),
    }
}
