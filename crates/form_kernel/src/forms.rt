//! The kernel formula of a formula: one small function a form.

ghost use Rattle.std.specs.Prelude.{◌≡◌, ◌↔◌, ◌≤◌, ℕ, ℤ, Bool, Option, IfOk, map};
ghost use Rattle.core_tree.specs.Trees.{claim_of, term_of, variable_of};
ghost use Rattle.core_tree.specs.Past.{Depths, BodyDepths, past_of};
ghost use Rattle.core_meaning.specs.World.{World};
ghost use Rattle.core_meaning.specs.Meaning.{Holds};
ghost use Rattle.core_meaning.specs.Called.{no_bodies};
ghost use Rattle.form_inline.specs.CallFree.{IsCallFree};
ghost use Rattle.form_inline.specs.Written.{atoms};
ghost use Rattle.form_kernel.specs.Left.{IsLeft};
ghost use Rattle.form_kernel.specs.Parts.{Allowed, IsMade};
ghost use Rattle.form_kernel.specs.Written.{end as end_of_arrow, kernel_term, kernel_claim, kernel_binder};

use crate::build::{always_true, not};
use crate::derived::{combined, compare, connect, counted, happen_both, happens, test};
use crate::variables::under;
use core_tree::{Expr, Formula, Multiplicity, Variable};
use std::alloc::{AllocError, Global};

/// The formula with its derived operators written out: it has the kernel's forms alone.
///
/// A formula without calls and `let` holds at the same positions of every lasso as before, whatever
/// atoms its free names stand for. One with them is written out as if what is called or named never
/// held and had no tuples.
pub fn kernel(alloc: Global, formula: &Formula) -> Result<Formula, AllocError>
    ensures forms { IfOk result (λ f. IsLeft (claim_of f)) }
    ensures same { IsCallFree (claim_of formula.now) →
        IfOk result (λ f. (w : World) (m : ℕ → Option ℕ) (i : ℕ) →
        Holds w no_bodies (claim_of f) (atoms m) i
        ↔ Holds w no_bodies (claim_of formula.now) (atoms m) i) }
    ensures past { IfOk result (λ f. (bodies : BodyDepths) (d : Depths) →
        past_of bodies (claim_of f) d ≤ past_of bodies (claim_of formula.now) d) }
    ensures parts { IfOk result (λ f. (sigs : ℕ → Bool) (fields : ℕ → Bool) (numbers : ℤ → Bool)
        (names : Allowed) → IsMade sigs fields numbers (claim_of formula.now) names →
        IsMade sigs fields numbers (claim_of f) names) }
{
    kernel_of(alloc, formula)
}

/// The kernel formula.
#[cycle(kernel)]
fn kernel_of(alloc: Global, formula: &Formula) -> Result<Formula, AllocError>
    ensures { IfOk result (λ f. claim_of f ≡ kernel_claim (claim_of formula.now)) }
{
    match formula {
        Formula::Inside(a, b) => Ok(Formula::Inside(
            boxed_expr(alloc, a, false)?,
            boxed_expr(alloc, b, false)?,
        )),
        Formula::Equal(a, b) => Ok(Formula::Equal(
            boxed_expr(alloc, a, false)?,
            boxed_expr(alloc, b, false)?,
        )),
        Formula::Within(a, word, b) => Ok(Formula::Within(
            boxed_expr(alloc, a, false)?,
            *word,
            boxed_expr(alloc, b, true)?,
        )),
        Formula::Test(quantity, a) => {
            let first = expr_of(alloc, a, false)?;
            test(alloc, *quantity, first)
        }
        Formula::Compare(op, a, b) => {
            let first = expr_of(alloc, a, false)?;
            let second = expr_of(alloc, b, false)?;
            compare(alloc, *op, first, second)
        }
        Formula::Not(f) => Ok(Formula::Not(boxed(alloc, f)?)),
        Formula::Every(list) => Ok(Formula::Every(formulas(alloc, list)?)),
        Formula::Connect(op, f, g) => {
            let first = kernel_of(alloc, f)?;
            let second = kernel_of(alloc, g)?;
            connect(alloc, *op, first, second)
        }
        Formula::Choose(f, g, h) => Ok(Formula::Choose(
            boxed(alloc, f)?,
            boxed(alloc, g)?,
            boxed(alloc, h)?,
        )),
        Formula::ForAll(list, f) => {
            let inner = kernel_of(alloc, f)?;
            let bounds = variables(alloc, list)?;
            under(alloc, bounds, inner)
        }
        Formula::Counted(quantity, list, f) => {
            let inner = kernel_of(alloc, f)?;
            let bounds = variables(alloc, list)?;
            counted(alloc, *quantity, bounds, inner)
        }
        Formula::Temporal(op, f) => {
            let first = kernel_of(alloc, f)?;
            happens(alloc, *op, first)
        }
        Formula::TemporalPair(op, f, g) => {
            let first = kernel_of(alloc, f)?;
            let second = kernel_of(alloc, g)?;
            happen_both(alloc, *op, first, second)
        }
        Formula::Let(_, _, _) => not(alloc, always_true(alloc)),
        Formula::Call(_, _) => not(alloc, always_true(alloc)),
    }
}

/// The multiplicity at an arrow's end, which says something in a bound alone.
fn end(in_bound: bool, word: Multiplicity) -> Multiplicity
    ensures { result ≡ end_of_arrow in_bound word }
{
    if in_bound {
        return word;
    }
    Multiplicity::Set
}

/// The kernel expression. Of a bound the arrows keep their multiplicities.
#[cycle(kernel)]
fn expr_of(alloc: Global, expr: &Expr, in_bound: bool) -> Result<Expr, AllocError>
    ensures { IfOk result (λ e. term_of e ≡ kernel_term in_bound (term_of expr.now)) }
{
    match expr {
        Expr::Sig(sig) => Ok(Expr::Sig(*sig)),
        Expr::Field(field) => Ok(Expr::Field(*field)),
        Expr::Name(name) => Ok(Expr::Name(*name)),
        Expr::Univ => Ok(Expr::Univ),
        Expr::Iden => Ok(Expr::Iden),
        Expr::Empty => Ok(Expr::Empty),
        Expr::Int => Ok(Expr::Int),
        Expr::Combine(op, a, b) => Ok(Expr::Combine(
            *op,
            boxed_expr(alloc, a, false)?,
            boxed_expr(alloc, b, false)?,
        )),
        Expr::Product(a, left, right, b) => Ok(Expr::Product(
            boxed_expr(alloc, a, in_bound)?,
            end(in_bound, *left),
            end(in_bound, *right),
            boxed_expr(alloc, b, in_bound)?,
        )),
        Expr::Unary(op, a) => {
            let first = expr_of(alloc, a, false)?;
            combined(alloc, *op, first)
        }
        Expr::Prime(a) => Ok(Expr::Prime(boxed_expr(alloc, a, false)?)),
        Expr::Choose(f, a, b) => Ok(Expr::Choose(
            boxed(alloc, f)?,
            boxed_expr(alloc, a, false)?,
            boxed_expr(alloc, b, false)?,
        )),
        Expr::Comprehension(list, f) => Ok(Expr::Comprehension(
            variables(alloc, list)?,
            boxed(alloc, f)?,
        )),
        Expr::Number(number, place) => Ok(Expr::Number(*number, *place)),
        Expr::Count(a) => Ok(Expr::Count(boxed_expr(alloc, a, false)?)),
        Expr::Arithmetic(op, a, b) => Ok(Expr::Arithmetic(
            *op,
            boxed_expr(alloc, a, false)?,
            boxed_expr(alloc, b, false)?,
        )),
        Expr::Sum(list, a) => Ok(Expr::Sum(variables(alloc, list)?, boxed_expr(alloc, a, false)?)),
        Expr::Let(_, _, _) => Ok(Expr::Empty),
        Expr::Call(_, _) => Ok(Expr::Empty),
    }
}

/// The kernel formula in a box.
#[cycle(kernel)]
fn boxed(alloc: Global, formula: &Formula) -> Result<Box<Formula>, AllocError>
    ensures { IfOk result (λ f. claim_of f.value ≡ kernel_claim (claim_of formula.now)) }
{
    Ok(Box::new(alloc, kernel_of(alloc, formula)?)?)
}

/// The kernel expression in a box.
#[cycle(kernel)]
fn boxed_expr(alloc: Global, expr: &Expr, in_bound: bool) -> Result<Box<Expr>, AllocError>
    ensures { IfOk result (λ e. term_of e.value ≡ kernel_term in_bound (term_of expr.now)) }
{
    Ok(Box::new(alloc, expr_of(alloc, expr, in_bound)?)?)
}

/// The kernel formulas of a list.
#[cycle(kernel)]
#[tactic(auto, using(crate::proofs::Lists::pushed))]
fn formulas(alloc: Global, list: &[Formula]) -> Result<Vec<Formula>, AllocError>
    ensures { IfOk result (λ all. map claim_of all.items
        ≡ map kernel_claim (map claim_of list.now)) }
{
    let mut all = Vec::new(alloc);
    for formula in list {
        all.push(kernel_of(alloc, formula)?)?;
    }
    Ok(all)
}

/// The variables of a list with kernel expressions as bounds.
#[cycle(kernel)]
#[tactic(auto, using(crate::proofs::Lists::pushed))]
fn variables(alloc: Global, list: &[Variable]) -> Result<Vec<Variable>, AllocError>
    ensures { IfOk result (λ all. map variable_of all.items
        ≡ map kernel_binder (map variable_of list.now)) }
{
    let mut all = Vec::new(alloc);
    for variable in list {
        all.push(Variable {
            name: variable.name,
            apart: variable.apart,
            bound: expr_of(alloc, &variable.bound, false)?,
        })?;
    }
    Ok(all)
}
