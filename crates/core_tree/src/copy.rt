//! Copies of trees: equal, apart from where their parts lie in memory.

ghost use Rattle.std.specs.Prelude.{◌≡◌, IfOk, map};
ghost use Rattle.core_tree.specs.Trees.{term_of, claim_of, variable_of};

use crate::tree::{Expr, Formula, Variable};
use std::alloc::{AllocError, Global};

impl Formula {
    /// An equal formula.
    #[cycle(copy)]
    pub fn copy(&self, alloc: Global) -> Result<Formula, AllocError>
        ensures { IfOk result (λ f. claim_of f ≡ claim_of self.now) }
    {
        match self {
            Formula::Inside(a, b) => Ok(Formula::Inside(
                boxed_expr(alloc, a)?,
                boxed_expr(alloc, b)?,
            )),
            Formula::Equal(a, b) => Ok(Formula::Equal(
                boxed_expr(alloc, a)?,
                boxed_expr(alloc, b)?,
            )),
            Formula::Within(a, word, b) => Ok(Formula::Within(
                boxed_expr(alloc, a)?,
                *word,
                boxed_expr(alloc, b)?,
            )),
            Formula::Test(quantity, a) => Ok(Formula::Test(*quantity, boxed_expr(alloc, a)?)),
            Formula::Compare(op, a, b) => Ok(Formula::Compare(
                *op,
                boxed_expr(alloc, a)?,
                boxed_expr(alloc, b)?,
            )),
            Formula::Not(f) => Ok(Formula::Not(boxed(alloc, f)?)),
            Formula::Every(list) => Ok(Formula::Every(formulas(alloc, list)?)),
            Formula::Connect(op, f, g) => Ok(Formula::Connect(
                *op,
                boxed(alloc, f)?,
                boxed(alloc, g)?,
            )),
            Formula::Choose(f, g, h) => Ok(Formula::Choose(
                boxed(alloc, f)?,
                boxed(alloc, g)?,
                boxed(alloc, h)?,
            )),
            Formula::ForAll(list, f) => Ok(Formula::ForAll(
                variables(alloc, list)?,
                boxed(alloc, f)?,
            )),
            Formula::Counted(quantity, list, f) => Ok(Formula::Counted(
                *quantity,
                variables(alloc, list)?,
                boxed(alloc, f)?,
            )),
            Formula::Temporal(op, f) => Ok(Formula::Temporal(*op, boxed(alloc, f)?)),
            Formula::TemporalPair(op, f, g) => Ok(Formula::TemporalPair(
                *op,
                boxed(alloc, f)?,
                boxed(alloc, g)?,
            )),
            Formula::Let(name, e, f) => Ok(Formula::Let(
                *name,
                boxed_expr(alloc, e)?,
                boxed(alloc, f)?,
            )),
            Formula::Call(body, list) => Ok(Formula::Call(*body, exprs(alloc, list)?)),
        }
    }
}

impl Expr {
    /// An equal expression.
    #[cycle(copy)]
    pub fn copy(&self, alloc: Global) -> Result<Expr, AllocError>
        ensures { IfOk result (λ e. term_of e ≡ term_of self.now) }
    {
        match self {
            Expr::Sig(sig) => Ok(Expr::Sig(*sig)),
            Expr::Field(field) => Ok(Expr::Field(*field)),
            Expr::Name(name) => Ok(Expr::Name(*name)),
            Expr::Univ => Ok(Expr::Univ),
            Expr::Iden => Ok(Expr::Iden),
            Expr::Empty => Ok(Expr::Empty),
            Expr::Int => Ok(Expr::Int),
            Expr::Combine(op, a, b) => Ok(Expr::Combine(
                *op,
                boxed_expr(alloc, a)?,
                boxed_expr(alloc, b)?,
            )),
            Expr::Product(a, left, right, b) => Ok(Expr::Product(
                boxed_expr(alloc, a)?,
                *left,
                *right,
                boxed_expr(alloc, b)?,
            )),
            Expr::Unary(op, a) => Ok(Expr::Unary(*op, boxed_expr(alloc, a)?)),
            Expr::Prime(a) => Ok(Expr::Prime(boxed_expr(alloc, a)?)),
            Expr::Choose(f, a, b) => Ok(Expr::Choose(
                boxed(alloc, f)?,
                boxed_expr(alloc, a)?,
                boxed_expr(alloc, b)?,
            )),
            Expr::Comprehension(list, f) => Ok(Expr::Comprehension(
                variables(alloc, list)?,
                boxed(alloc, f)?,
            )),
            Expr::Number(number, place) => Ok(Expr::Number(*number, *place)),
            Expr::Count(a) => Ok(Expr::Count(boxed_expr(alloc, a)?)),
            Expr::Arithmetic(op, a, b) => Ok(Expr::Arithmetic(
                *op,
                boxed_expr(alloc, a)?,
                boxed_expr(alloc, b)?,
            )),
            Expr::Sum(list, a) => Ok(Expr::Sum(variables(alloc, list)?, boxed_expr(alloc, a)?)),
            Expr::Let(name, a, b) => Ok(Expr::Let(
                *name,
                boxed_expr(alloc, a)?,
                boxed_expr(alloc, b)?,
            )),
            Expr::Call(body, list) => Ok(Expr::Call(*body, exprs(alloc, list)?)),
        }
    }
}

/// An equal formula in a box.
#[cycle(copy)]
fn boxed(alloc: Global, formula: &Formula) -> Result<Box<Formula>, AllocError>
    ensures { IfOk result (λ f. claim_of f.value ≡ claim_of formula.now) }
{
    Ok(Box::new(alloc, formula.copy(alloc)?)?)
}

/// An equal expression in a box.
#[cycle(copy)]
fn boxed_expr(alloc: Global, expr: &Expr) -> Result<Box<Expr>, AllocError>
    ensures { IfOk result (λ e. term_of e.value ≡ term_of expr.now) }
{
    Ok(Box::new(alloc, expr.copy(alloc)?)?)
}

/// Equal formulas.
#[cycle(copy)]
fn formulas(alloc: Global, list: &[Formula]) -> Result<Vec<Formula>, AllocError>
    ensures { IfOk result (λ all. map claim_of all.items ≡ map claim_of list.now) }
{
    let mut all = Vec::new(alloc);
    for formula in list {
        all.push(formula.copy(alloc)?)?;
    }
    Ok(all)
}

/// Equal expressions.
#[cycle(copy)]
fn exprs(alloc: Global, list: &[Expr]) -> Result<Vec<Expr>, AllocError>
    ensures { IfOk result (λ all. map term_of all.items ≡ map term_of list.now) }
{
    let mut all = Vec::new(alloc);
    for expr in list {
        all.push(expr.copy(alloc)?)?;
    }
    Ok(all)
}

/// Equal variables.
#[cycle(copy)]
fn variables(alloc: Global, list: &[Variable]) -> Result<Vec<Variable>, AllocError>
    ensures { IfOk result (λ all. map variable_of all.items ≡ map variable_of list.now) }
{
    let mut all = Vec::new(alloc);
    for variable in list {
        all.push(Variable {
            name: variable.name,
            apart: variable.apart,
            bound: variable.bound.copy(alloc)?,
        })?;
    }
    Ok(all)
}
