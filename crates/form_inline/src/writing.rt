//! Formulas and expressions with calls and `let` names written out, one small function a form.

ghost use Rattle.std.specs.Prelude.{◌≡◌, ◌↔◌, ◌<◌, ◌+◌, ◌++◌, ◌^◌, ℕ, List, IfOk, All, map};
ghost use Rattle.core_tree.specs.Trees.{term_of, claim_of, variable_of, term_list, call_claim, call_term, test, empty};
ghost use Rattle.core_tree.specs.declared.operators.Quantity.TheVariants.{Some as SomeOf};
ghost use Rattle.core_meaning.specs.World.{World};
ghost use Rattle.core_meaning.specs.Meaning.{Holds, no_names};
ghost use Rattle.core_meaning.specs.Called.{no_bodies, bodies_of};
ghost use Rattle.form_inline.specs.CallFree.{IsCallFree, IsCallFreeTerm, HasCallFreeBound};
ghost use Rattle.form_inline.specs.Written.{IsBelow, IsPlain, SameTerm, SameBound, SameClaim, SameClaims, BindsTo};

use crate::given::{Given, Meant, look_up};
use core_tree::{BodyForm, BodyList, Expr, Formula, Model, Multiplicity, Quantity, Variable};
use std::alloc::{AllocError, Global};

/// A formula of the model without free names, with no call and no `let` left.
///
/// It holds at the same positions of every lasso as before.
pub fn inline(alloc: Global, model: &Model, formula: &Formula) -> Result<Formula, AllocError>
    ensures free { IfOk result (λ f. IsCallFree (claim_of f)) }
    ensures same { IfOk result (λ f. (w : World) (i : ℕ) → Holds w no_bodies (claim_of f) no_names i
        ↔ Holds w (bodies_of w model.now.bodies) (claim_of formula.now) no_names i) }
{
    let bodies = &model.bodies;
    written_formula(alloc, bodies, formula, &Given::Empty, 0, bodies.len())
}

/// The next level. There is no memory for a tree with as many levels as there are names.
fn deeper(level: u32) -> Result<u32, AllocError>
    ensures { IfOk result (λ n. n ≡ level + 1) }
{
    if level == u32::MAX {
        return Err(AllocError);
    }
    Ok(level + 1)
}

/// `some none`, which never holds, as one that calls what isn't there.
fn never(alloc: Global) -> Result<Formula, AllocError>
    ensures free { IfOk result (λ f. IsCallFree (claim_of f)) }
    ensures is { IfOk result (λ f. claim_of f ≡ test SomeOf empty) }
{
    let nothing = Box::new(alloc, Expr::Empty)?;
    Ok(Formula::Test(Quantity::Some, nothing))
}

/// The formula with its names written out. Its binders are named from `level` on.
#[cycle(inline)]
fn written_formula(
    alloc: Global,
    bodies: &BodyList,
    formula: &Formula,
    given: &Given,
    level: u32,
    calls: usize,
) -> Result<Formula, AllocError>
    requires { IsBelow given.now level }
    ensures free { IfOk result (λ f. IsCallFree (claim_of f)) }
    ensures same { IfOk result (λ f. SameClaim bodies.now (claim_of f) (claim_of formula.now)
        given.now calls) }
{
    match formula {
        Formula::Inside(a, b) => Ok(Formula::Inside(
            boxed_expr(alloc, bodies, a, given, level, calls)?,
            boxed_expr(alloc, bodies, b, given, level, calls)?,
        )),
        Formula::Equal(a, b) => Ok(Formula::Equal(
            boxed_expr(alloc, bodies, a, given, level, calls)?,
            boxed_expr(alloc, bodies, b, given, level, calls)?,
        )),
        Formula::Within(a, word, b) => Ok(Formula::Within(
            boxed_expr(alloc, bodies, a, given, level, calls)?,
            *word,
            boxed_bound(alloc, bodies, b, given, level, calls)?,
        )),
        Formula::Test(quantity, a) => Ok(Formula::Test(
            *quantity,
            boxed_expr(alloc, bodies, a, given, level, calls)?,
        )),
        Formula::Compare(op, a, b) => Ok(Formula::Compare(
            *op,
            boxed_expr(alloc, bodies, a, given, level, calls)?,
            boxed_expr(alloc, bodies, b, given, level, calls)?,
        )),
        Formula::Not(f) => Ok(Formula::Not(boxed(alloc, bodies, f, given, level, calls)?)),
        Formula::Every(list) => Ok(Formula::Every(formulas(
            alloc, bodies, list, given, level, calls,
        )?)),
        Formula::Connect(op, f, g) => Ok(Formula::Connect(
            *op,
            boxed(alloc, bodies, f, given, level, calls)?,
            boxed(alloc, bodies, g, given, level, calls)?,
        )),
        Formula::Choose(f, g, h) => Ok(Formula::Choose(
            boxed(alloc, bodies, f, given, level, calls)?,
            boxed(alloc, bodies, g, given, level, calls)?,
            boxed(alloc, bodies, h, given, level, calls)?,
        )),
        Formula::ForAll(list, f) => {
            let mut variables = Vec::new(alloc);
            let inner = under(alloc, bodies, list, f, given, level, calls, &mut variables)?;
            Ok(Formula::ForAll(variables, inner))
        }
        Formula::Counted(quantity, list, f) => {
            let mut variables = Vec::new(alloc);
            let inner = under(alloc, bodies, list, f, given, level, calls, &mut variables)?;
            Ok(Formula::Counted(*quantity, variables, inner))
        }
        Formula::Temporal(op, f) => Ok(Formula::Temporal(
            *op,
            boxed(alloc, bodies, f, given, level, calls)?,
        )),
        Formula::TemporalPair(op, f, g) => Ok(Formula::TemporalPair(
            *op,
            boxed(alloc, bodies, f, given, level, calls)?,
            boxed(alloc, bodies, g, given, level, calls)?,
        )),
        Formula::Let(name, e, f) => {
            let inner = Given::Written(*name, calls, e, &*given);
            written_formula(alloc, bodies, f, &inner, deeper(level)?, calls)
        }
        Formula::Call(body, list) => called_formula(
            alloc, bodies, *body, list, given, level, calls,
        ),
    }
}

/// The expression with its names written out. Its binders are named from `level` on, and its arrows have lost their
/// multiplicities, which say something in a bound alone, and there only where they are written.
#[cycle(inline)]
fn written_expr(
    alloc: Global,
    bodies: &BodyList,
    expr: &Expr,
    given: &Given,
    level: u32,
    calls: usize,
) -> Result<Expr, AllocError>
    requires { IsBelow given.now level }
    ensures free { IfOk result (λ e. IsCallFreeTerm (term_of e)) }
    ensures plain { IfOk result (λ e. IsPlain (term_of e)) }
    ensures same { IfOk result (λ e. SameTerm bodies.now (term_of e) (term_of expr.now) given.now
        calls) }
{
    match expr {
        Expr::Sig(sig) => Ok(Expr::Sig(*sig)),
        Expr::Field(field) => Ok(Expr::Field(*field)),
        Expr::Name(name) => match look_up(given, *name) {
            Meant::Nothing => Ok(Expr::Empty),
            Meant::Level(binder) => Ok(Expr::Name(binder)),
            Meant::Written(depth, value, outer) => {
                written_expr(alloc, bodies, value, outer, deeper(level)?, depth)
            }
        },
        Expr::Univ => Ok(Expr::Univ),
        Expr::Iden => Ok(Expr::Iden),
        Expr::Empty => Ok(Expr::Empty),
        Expr::Int => Ok(Expr::Int),
        Expr::Combine(op, a, b) => Ok(Expr::Combine(
            *op,
            boxed_expr(alloc, bodies, a, given, level, calls)?,
            boxed_expr(alloc, bodies, b, given, level, calls)?,
        )),
        Expr::Product(a, _, _, b) => Ok(Expr::Product(
            boxed_expr(alloc, bodies, a, given, level, calls)?,
            Multiplicity::Set,
            Multiplicity::Set,
            boxed_expr(alloc, bodies, b, given, level, calls)?,
        )),
        Expr::Unary(op, a) => Ok(Expr::Unary(
            *op,
            boxed_expr(alloc, bodies, a, given, level, calls)?,
        )),
        Expr::Prime(a) => Ok(Expr::Prime(boxed_expr(alloc, bodies, a, given, level, calls)?)),
        Expr::Choose(f, a, b) => Ok(Expr::Choose(
            boxed(alloc, bodies, f, given, level, calls)?,
            boxed_expr(alloc, bodies, a, given, level, calls)?,
            boxed_expr(alloc, bodies, b, given, level, calls)?,
        )),
        Expr::Comprehension(list, f) => {
            let mut variables = Vec::new(alloc);
            let inner = under(alloc, bodies, list, f, given, level, calls, &mut variables)?;
            Ok(Expr::Comprehension(variables, inner))
        }
        Expr::Number(_, _) => expr.copy(alloc),
        Expr::Count(a) => Ok(Expr::Count(boxed_expr(alloc, bodies, a, given, level, calls)?)),
        Expr::Arithmetic(op, a, b) => Ok(Expr::Arithmetic(
            *op,
            boxed_expr(alloc, bodies, a, given, level, calls)?,
            boxed_expr(alloc, bodies, b, given, level, calls)?,
        )),
        Expr::Sum(list, a) => {
            let mut variables = Vec::new(alloc);
            let inner = under_sum(alloc, bodies, list, a, given, level, calls, &mut variables)?;
            Ok(Expr::Sum(variables, inner))
        }
        Expr::Let(name, a, b) => {
            let inner = Given::Written(*name, calls, a, &*given);
            written_expr(alloc, bodies, b, &inner, deeper(level)?, calls)
        }
        Expr::Call(body, list) => called_expr(alloc, bodies, *body, list, given, level, calls),
    }
}

/// The written-out formula in a box.
#[cycle(inline)]
fn boxed(
    alloc: Global,
    bodies: &BodyList,
    formula: &Formula,
    given: &Given,
    level: u32,
    calls: usize,
) -> Result<Box<Formula>, AllocError>
    requires { IsBelow given.now level }
    ensures free { IfOk result (λ f. IsCallFree (claim_of f.value)) }
    ensures same { IfOk result (λ f. SameClaim bodies.now (claim_of f.value) (claim_of formula.now)
        given.now calls) }
{
    let inner = written_formula(alloc, bodies, formula, given, deeper(level)?, calls)?;
    Ok(Box::new(alloc, inner)?)
}

/// The written-out expression in a box.
#[cycle(inline)]
fn boxed_expr(
    alloc: Global,
    bodies: &BodyList,
    expr: &Expr,
    given: &Given,
    level: u32,
    calls: usize,
) -> Result<Box<Expr>, AllocError>
    requires { IsBelow given.now level }
    ensures free { IfOk result (λ e. IsCallFreeTerm (term_of e.value)) }
    ensures plain { IfOk result (λ e. IsPlain (term_of e.value)) }
    ensures same { IfOk result (λ e. SameTerm bodies.now (term_of e.value) (term_of expr.now)
        given.now calls) }
{
    let inner = written_expr(alloc, bodies, expr, given, deeper(level)?, calls)?;
    Ok(Box::new(alloc, inner)?)
}

/// The written-out bound, whose arrows keep their multiplicities.
#[cycle(inline)]
fn written_bound(
    alloc: Global,
    bodies: &BodyList,
    expr: &Expr,
    given: &Given,
    level: u32,
    calls: usize,
) -> Result<Expr, AllocError>
    requires { IsBelow given.now level }
    ensures free { IfOk result (λ e. IsCallFreeTerm (term_of e)) }
    ensures same { IfOk result (λ e. SameBound bodies.now given.now calls (term_of e)
        (term_of expr.now)) }
{
    match expr {
        Expr::Product(a, left, right, b) => Ok(Expr::Product(
            boxed_bound(alloc, bodies, a, given, level, calls)?,
            *left,
            *right,
            boxed_bound(alloc, bodies, b, given, level, calls)?,
        )),
        _ => written_expr(alloc, bodies, expr, given, deeper(level)?, calls),
    }
}

/// The written-out bound in a box.
#[cycle(inline)]
fn boxed_bound(
    alloc: Global,
    bodies: &BodyList,
    expr: &Expr,
    given: &Given,
    level: u32,
    calls: usize,
) -> Result<Box<Expr>, AllocError>
    requires { IsBelow given.now level }
    ensures free { IfOk result (λ e. IsCallFreeTerm (term_of e.value)) }
    ensures same { IfOk result (λ e. SameBound bodies.now given.now calls (term_of e.value)
        (term_of expr.now)) }
{
    let inner = written_bound(alloc, bodies, expr, given, deeper(level)?, calls)?;
    Ok(Box::new(alloc, inner)?)
}

/// The written-out formulas of a list.
#[cycle(inline)]
#[tactic(auto, using(crate::proofs::Lists::more_claims_free))]
fn formulas(
    alloc: Global,
    bodies: &BodyList,
    list: &[Formula],
    given: &Given,
    level: u32,
    calls: usize,
) -> Result<Vec<Formula>, AllocError>
    requires { IsBelow given.now level }
    ensures free { IfOk result (λ all. All IsCallFree (map claim_of all.items)) }
    ensures same { IfOk result (λ all. SameClaims bodies.now (map claim_of all.items)
        (map claim_of list.now) given.now calls) }
{
    let inner = deeper(level)?;
    let mut all = Vec::new(alloc);
    for formula in list {
        all.push(written_formula(alloc, bodies, formula, given, inner, calls)?)?;
    }
    Ok(all)
}

/// The written-out formula under variables, which are added to `variables`. The bound of each sees
/// those before it.
#[cycle(inline)]
#[tactic(auto, using(crate::proofs::Lists::more_variables_free))]
fn under(
    alloc: Global,
    bodies: &BodyList,
    list: &[Variable],
    formula: &Formula,
    given: &Given,
    level: u32,
    calls: usize,
    variables: &mut Vec<Variable>,
) -> Result<Box<Formula>, AllocError>
    requires bounds { All HasCallFreeBound (map variable_of variables.old.items) }
    requires below { IsBelow given.now level }
    ensures bounds { All HasCallFreeBound (map variable_of variables.new.items) }
    ensures free { IfOk result (λ f. IsCallFree (claim_of f.value)) }
    ensures same { IfOk result (λ f. BindsTo bodies.now calls
        (SameClaim bodies.now (claim_of f.value) (claim_of formula.now))
        (map variable_of variables.old.items) (map variable_of variables.new.items)
        (map variable_of list.now) given.now level) }
{
    match list.split_first() {
        None => boxed(alloc, bodies, formula, given, level, calls),
        Some((first, rest)) => {
            let next = deeper(level)?;
            let bound = written_expr(alloc, bodies, &first.bound, given, next, calls)?;
            variables.push(Variable {
                name: level,
                apart: first.apart,
                bound,
            })?;
            let inner = Given::Level(first.name, level, &*given);
            under(alloc, bodies, rest, formula, &inner, next, calls, variables)
        }
    }
}

/// The same for the expression that a `sum` adds up.
#[cycle(inline)]
#[tactic(auto, using(crate::proofs::Lists::more_variables_free))]
fn under_sum(
    alloc: Global,
    bodies: &BodyList,
    list: &[Variable],
    expr: &Expr,
    given: &Given,
    level: u32,
    calls: usize,
    variables: &mut Vec<Variable>,
) -> Result<Box<Expr>, AllocError>
    requires bounds { All HasCallFreeBound (map variable_of variables.old.items) }
    requires below { IsBelow given.now level }
    ensures bounds { All HasCallFreeBound (map variable_of variables.new.items) }
    ensures free { IfOk result (λ e. IsCallFreeTerm (term_of e.value)) }
    ensures same { IfOk result (λ e. BindsTo bodies.now calls
        (SameTerm bodies.now (term_of e.value) (term_of expr.now))
        (map variable_of variables.old.items) (map variable_of variables.new.items)
        (map variable_of list.now) given.now level) }
{
    match list.split_first() {
        None => boxed_expr(alloc, bodies, expr, given, level, calls),
        Some((first, rest)) => {
            let next = deeper(level)?;
            let bound = written_expr(alloc, bodies, &first.bound, given, next, calls)?;
            variables.push(Variable {
                name: level,
                apart: first.apart,
                bound,
            })?;
            let inner = Given::Level(first.name, level, &*given);
            under_sum(alloc, bodies, rest, expr, &inner, next, calls, variables)
        }
    }
}

/// The body of a predicate, whose parameters stand for the arguments.
#[cycle(inline)]
fn called_formula(
    alloc: Global,
    bodies: &BodyList,
    body: u32,
    arguments: &[Expr],
    given: &Given,
    level: u32,
    calls: usize,
) -> Result<Formula, AllocError>
    requires { IsBelow given.now level }
    ensures free { IfOk result (λ f. IsCallFree (claim_of f)) }
    ensures same { IfOk result (λ f. SameClaim bodies.now (claim_of f)
        (call_claim body (term_list (map term_of arguments.now))) given.now calls) }
{
    if calls == 0 {
        return never(alloc);
    }
    match bodies.as_slice().get(body as usize) {
        None => never(alloc),
        Some(called) => match &called.form {
            BodyForm::Test(formula) => {
                let inner = Given::Passed(calls, &*arguments, &*given);
                written_formula(alloc, bodies, formula, &inner, deeper(level)?, calls - 1)
            }
            BodyForm::Term(_, _) => never(alloc),
        },
    }
}

/// The body of a function, whose parameters stand for the arguments.
#[cycle(inline)]
fn called_expr(
    alloc: Global,
    bodies: &BodyList,
    body: u32,
    arguments: &[Expr],
    given: &Given,
    level: u32,
    calls: usize,
) -> Result<Expr, AllocError>
    requires { IsBelow given.now level }
    ensures free { IfOk result (λ e. IsCallFreeTerm (term_of e)) }
    ensures plain { IfOk result (λ e. IsPlain (term_of e)) }
    ensures same { IfOk result (λ e. SameTerm bodies.now (term_of e)
        (call_term body (term_list (map term_of arguments.now))) given.now calls) }
{
    if calls == 0 {
        return Ok(Expr::Empty);
    }
    match bodies.as_slice().get(body as usize) {
        None => Ok(Expr::Empty),
        Some(called) => match &called.form {
            BodyForm::Test(_) => Ok(Expr::Empty),
            BodyForm::Term(expr, _) => {
                let inner = Given::Passed(calls, &*arguments, &*given);
                written_expr(alloc, bodies, expr, &inner, deeper(level)?, calls - 1)
            }
        },
    }
}
