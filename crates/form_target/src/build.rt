//! Small formulas and expressions of which those of declarations are made.

ghost use Rattle.std.specs.Prelude.{◌≡◌, IfOk};
ghost use Rattle.core_tree.specs.Trees.{term_of, claim_of, sig as sig_term, field as field_term, name as name_term, combine as combine_term, inside as inside_claim, within as within_claim, test as test_claim, for_all, no_variables, more_variables};
ghost use Rattle.core_tree.specs.declared.operators.RelationOp.TheVariants.{Intersection, Join};
ghost use Rattle.core_tree.specs.declared.operators.Quantity.TheVariants.{No};
ghost use Rattle.form_target.specs.Unions.{column_term, IsUnion};

use core_tree::{Column, Expr, Formula, Multiplicity, Quantity, RelationOp, Variable};
use std::alloc::{AllocError, Global};

/// An operator on two relations.
pub fn combine(alloc: Global, op: RelationOp, a: Expr, b: Expr) -> Result<Expr, AllocError>
    ensures { IfOk result (λ e. term_of e ≡ combine_term op (term_of a) (term_of b)) }
{
    Ok(Expr::Combine(op, Box::new(alloc, a)?, Box::new(alloc, b)?))
}

/// `a in b`.
pub fn inside(alloc: Global, a: Expr, b: Expr) -> Result<Formula, AllocError>
    ensures { IfOk result (λ f. claim_of f ≡ inside_claim (term_of a) (term_of b)) }
{
    Ok(Formula::Inside(Box::new(alloc, a)?, Box::new(alloc, b)?))
}

/// `a in word b`.
pub fn within(alloc: Global, a: Expr, word: Multiplicity, b: Expr) -> Result<Formula, AllocError>
    ensures { IfOk result (λ f. claim_of f ≡ within_claim (term_of a) word (term_of b)) }
{
    Ok(Formula::Within(Box::new(alloc, a)?, word, Box::new(alloc, b)?))
}

/// `some e`, `no e`, `one e` or `lone e`.
pub fn test(alloc: Global, quantity: Quantity, e: Expr) -> Result<Formula, AllocError>
    ensures { IfOk result (λ f. claim_of f ≡ test_claim quantity (term_of e)) }
{
    Ok(Formula::Test(quantity, Box::new(alloc, e)?))
}

/// `no (a & b)`.
pub fn disjoint(alloc: Global, a: Expr, b: Expr) -> Result<Formula, AllocError>
    ensures { IfOk result (λ f. claim_of f ≡ test_claim No
        (combine_term Intersection (term_of a) (term_of b))) }
{
    let shared = combine(alloc, RelationOp::Intersection, a, b)?;
    Ok(test(alloc, Quantity::No, shared)?)
}

/// `all x: s | f` for an atom of a sig, whose name is 0.
pub fn for_each(alloc: Global, sig: u32, f: Formula) -> Result<Formula, AllocError>
    ensures { IfOk result (λ g. claim_of g ≡ for_all
        (more_variables 0 0 (sig_term sig) no_variables) (claim_of f)) }
{
    let mut list = Vec::new(alloc);
    list.push(Variable {
        name: 0,
        apart: 0,
        bound: Expr::Sig(sig),
    })?;
    let body = Box::new(alloc, f)?;
    Ok(Formula::ForAll(list, body))
}

/// `all disj x, y: s | f` for two atoms of a sig, whose names are 0 and 1.
pub fn for_each_two(alloc: Global, sig: u32, f: Formula) -> Result<Formula, AllocError>
    ensures { IfOk result (λ g. claim_of g ≡ for_all
        (more_variables 0 0 (sig_term sig) (more_variables 1 1 (sig_term sig) no_variables))
        (claim_of f)) }
{
    let mut list = Vec::new(alloc);
    list.push(Variable {
        name: 0,
        apart: 0,
        bound: Expr::Sig(sig),
    })?;
    list.push(Variable {
        name: 1,
        apart: 1,
        bound: Expr::Sig(sig),
    })?;
    let body = Box::new(alloc, f)?;
    Ok(Formula::ForAll(list, body))
}

/// What the atom of this name has in a field.
pub fn value_of(alloc: Global, name: u32, field: u32) -> Result<Expr, AllocError>
    ensures { IfOk result (λ e. term_of e ≡ combine_term Join (name_term name) (field_term field)) }
{
    Ok(combine(
        alloc,
        RelationOp::Join,
        Expr::Name(name),
        Expr::Field(field),
    )?)
}

/// What a column holds.
fn column(column: Column) -> Expr
    ensures { term_of result ≡ column_term column }
{
    match column {
        Column::Sig(sig) => Expr::Sig(sig),
        Column::Int => Expr::Int,
    }
}

/// The union of what columns hold. It is halved again and again, so that it doesn't nest deeply.
pub fn union_of(alloc: Global, columns: &[Column]) -> Result<Expr, AllocError>
    ensures { IfOk result (λ e. IsUnion columns.now (term_of e)) }
{
    let count = columns.len();
    if count == 0 {
        return Ok(Expr::Empty);
    }
    if count == 1 {
        let only = columns[0];
        return Ok(column(only));
    }
    let (left, right) = columns.split_at(count / 2);
    let first = union_of(alloc, left)?;
    let second = union_of(alloc, right)?;
    Ok(combine(alloc, RelationOp::Union, first, second)?)
}
