//! Kernel formulas under several variables, written with one variable at a time.
//!
//! A variable whose atom differs from those of some variables before it has a bound without these.
//! That needs names of which none hides another: variables whose names don't rise stay together.

ghost use Rattle.std.specs.Prelude.{◌≡◌, ◌<◌, ◌≤◌, [], ◌∷◌, take, length, map, IfOk};
ghost use Rattle.core_tree.specs.declared.operators.RelationOp.TheVariants.{Difference as DifferenceOf};
ghost use Rattle.core_tree.specs.Trees.{claim_of, term_of, variable_of, variable_list, name as name_term, combine, comprehension, for_all as for_all_claim, negation};
ghost use Rattle.form_kernel.specs.Single.{without as without_term, alone as alone_binders, is_rising, one_by_one as one_by_one_claim, under as under_claim, lone_values as lone_values_claim, lone_by_one as lone_by_one_claim, lone_under as lone_under_claim, are_many_rising as are_many_rising_binders};
ghost use Rattle.form_kernel.specs.Names.{names_onto, alone_at};

use crate::build::{both, lone, not};
use core_tree::{Expr, Formula, RelationOp, Variable};
use std::alloc::{AllocError, Global};

/// The most variables that stand in one comprehension: a relation has at most so many columns
/// (ArityLimit, S47).
pub const MOST_COLUMNS: usize = 9;

/// `e - x` for the variable `x`.
fn without(alloc: Global, e: Expr, x: u32) -> Result<Expr, AllocError>
    ensures { IfOk result (λ d. term_of d ≡ combine DifferenceOf (term_of e) (name_term x)) }
{
    Ok(Expr::Combine(
        RelationOp::Difference,
        Box::new(alloc, e)?,
        Box::new(alloc, Expr::Name(x))?,
    ))
}

/// The bound without the atoms of the last `apart` of the variables before a place.
#[tactic(auto, using(crate::proofs::Lists::apart_none, crate::proofs::Lists::apart_first, crate::proofs::Lists::apart_step))]
fn apart_bound(
    alloc: Global,
    bound: Expr,
    list: &[Variable],
    place: usize,
    apart: u32,
) -> Result<Expr, AllocError>
    requires end { place ≤ length list.now }
    ensures { IfOk result (λ e. term_of e ≡ without_term (term_of bound)
        (take apart (names_onto (map variable_of (take place list.now)) []))) }
{
    if place == 0 {
        return Ok(bound);
    }
    if apart == 0 {
        return Ok(bound);
    }
    let left = without(alloc, bound, list[place - 1].name)?;
    apart_bound(alloc, left, list, place - 1, apart - 1)
}

/// The variable at a place, alone: its bound is without those atoms from which its own differs.
#[tactic(auto, using(crate::proofs::Lists::single_is))]
fn single(alloc: Global, list: &[Variable], place: usize) -> Result<Variable, AllocError>
    requires place { place < length list.now }
    ensures { IfOk result (λ v. variable_of v ≡ alone_at [] (map variable_of list.now) place) }
{
    let variable = &list[place];
    let copy = variable.bound.copy(alloc)?;
    let bound = apart_bound(alloc, copy, list, place, variable.apart)?;
    Ok(Variable {
        name: variable.name,
        apart: 0,
        bound,
    })
}

/// Each variable alone.
#[tactic(auto, using(crate::proofs::Lists::alone_more, crate::proofs::Lists::alone_all))]
fn alone(alloc: Global, list: &[Variable]) -> Result<Vec<Variable>, AllocError>
    ensures { IfOk result (λ all. map variable_of all.items
        ≡ alone_binders [] (map variable_of list.now)) }
{
    let mut all = Vec::new(alloc);
    for place in 0..list.len() {
        all.push(single(alloc, list, place)?)?;
    }
    Ok(all)
}

/// Equal variables.
pub fn copies(alloc: Global, list: &[Variable]) -> Result<Vec<Variable>, AllocError>
    ensures { IfOk result (λ all. map variable_of all.items ≡ map variable_of list.now) }
{
    let mut all = Vec::new(alloc);
    for variable in list {
        all.push(Variable {
            name: variable.name,
            apart: variable.apart,
            bound: variable.bound.copy(alloc)?,
        })?;
    }
    Ok(all)
}

/// Whether each name is above the one before, and the first not below `least`.
#[tactic(auto, using(crate::proofs::Lists::rises_none, crate::proofs::Lists::rises_low, crate::proofs::Lists::rises_on))]
fn rises(list: &[Variable], least: u64) -> bool
    ensures { result ≡ is_rising least (map variable_of list.now) }
{
    match list.split_first() {
        None => true,
        Some((first, rest)) => {
            if (first.name as u64) < least {
                return false;
            }
            rises(rest, first.name as u64 + 1)
        }
    }
}

/// `all x: e | f` with one variable.
#[tactic(auto, using(crate::proofs::Lists::all_one))]
fn for_all(alloc: Global, variable: Variable, f: Formula) -> Result<Formula, AllocError>
    ensures { IfOk result (λ g. claim_of g ≡ for_all_claim
        (variable_list (variable_of variable ∷ [])) (claim_of f)) }
{
    let mut list = Vec::new(alloc);
    list.push(variable)?;
    Ok(Formula::ForAll(list, Box::new(alloc, f)?))
}

/// `all` with one of the variables after another.
#[tactic(auto, using(crate::proofs::Lists::one_by_one_step, crate::proofs::Lists::one_by_one_end))]
fn one_by_one(alloc: Global, list: Vec<Variable>, f: Formula) -> Result<Formula, AllocError>
    ensures { IfOk result (λ g. claim_of g ≡ one_by_one_claim (map variable_of list.items)
        (claim_of f)) }
{
    let mut outer = list;
    match outer.pop() {
        None => Ok(f),
        Some(last) => {
            let inner = for_all(alloc, last, f)?;
            one_by_one(alloc, outer, inner)
        }
    }
}

/// The formula holds for all values of the variables.
#[tactic(auto, using(crate::proofs::Lists::under_rising, crate::proofs::Lists::under_many))]
pub fn under(alloc: Global, list: Vec<Variable>, f: Formula) -> Result<Formula, AllocError>
    ensures { IfOk result (λ g. claim_of g ≡ under_claim (map variable_of list.items)
        (claim_of f)) }
{
    if rises(&list, 0) {
        let singles = alone(alloc, &list)?;
        return one_by_one(alloc, singles, f);
    }
    Ok(Formula::ForAll(list, Box::new(alloc, f)?))
}

/// The values of the variables at which the formula holds.
#[tactic(auto, using(core_tree::proofs::RowLemmas::comprehension_is))]
pub fn values_of(alloc: Global, list: Vec<Variable>, f: Formula) -> Result<Expr, AllocError>
    ensures { IfOk result (λ e. term_of e ≡ comprehension
        (variable_list (map variable_of list.items)) (claim_of f)) }
{
    Ok(Expr::Comprehension(list, Box::new(alloc, f)?))
}

/// The formula holds for at most one choice of values of the variables.
fn lone_values(alloc: Global, list: Vec<Variable>, f: Formula) -> Result<Formula, AllocError>
    ensures { IfOk result (λ g. claim_of g ≡ lone_values_claim (map variable_of list.items)
        (claim_of f)) }
{
    let values = values_of(alloc, list, f)?;
    lone(alloc, values)
}

/// Whether there are more variables than a relation has columns, and their names rise.
#[tactic(auto, using(crate::proofs::Lists::many_few, crate::proofs::Lists::many_more))]
pub fn are_many_rising(list: &[Variable]) -> bool
    ensures { result ≡ are_many_rising_binders (map variable_of list.now) }
{
    if list.len() <= MOST_COLUMNS {
        return false;
    }
    rises(list, 0)
}

/// An equal variable in a list of its own.
fn only(alloc: Global, variable: &Variable) -> Result<Vec<Variable>, AllocError>
    ensures { IfOk result (λ all. map variable_of all.items ≡ variable_of variable.now ∷ []) }
{
    let bound = variable.bound.copy(alloc)?;
    let mut all = Vec::new(alloc);
    all.push(Variable {
        name: variable.name,
        apart: variable.apart,
        bound,
    })?;
    Ok(all)
}

/// For at most one value of the first variable are there values of the others at which the formula
/// holds.
fn lone_first(
    alloc: Global,
    first: &Variable,
    rest: &[Variable],
    f: Formula,
) -> Result<Formula, AllocError>
    ensures { IfOk result (λ g. claim_of g ≡ lone_values_claim (variable_of first.now ∷ [])
        (negation (one_by_one_claim (map variable_of rest.now) (negation (claim_of f))))) }
{
    let fails = not(alloc, f)?;
    let others = copies(alloc, rest)?;
    let none = one_by_one(alloc, others, fails)?;
    let goes_on = not(alloc, none)?;
    let variable = only(alloc, first)?;
    lone_values(alloc, variable, goes_on)
}

/// At each value of the variable the formula holds.
#[tactic(auto, using(crate::proofs::Lists::all_only))]
fn each_value(alloc: Global, variable: &Variable, f: Formula) -> Result<Formula, AllocError>
    ensures { IfOk result (λ g. claim_of g ≡ for_all_claim
        (variable_list (variable_of variable.now ∷ [])) (claim_of f)) }
{
    let list = only(alloc, variable)?;
    Ok(Formula::ForAll(list, Box::new(alloc, f)?))
}

/// The formula holds for at most one choice of values of the variables, each of which is alone.
/// Where there are more of them than a relation has columns, that is so of the first one, and at
/// each of its values of the others.
#[tactic(auto, using(crate::proofs::Lists::lone_few, crate::proofs::Lists::lone_step))]
fn lone_by_one(alloc: Global, list: &[Variable], f: Formula) -> Result<Formula, AllocError>
    ensures { IfOk result (λ g. claim_of g ≡ lone_by_one_claim (map variable_of list.now)
        (claim_of f)) }
{
    if list.len() <= MOST_COLUMNS {
        let few = copies(alloc, list)?;
        return lone_values(alloc, few, f);
    }
    match list.split_first() {
        None => lone_values(alloc, Vec::new(alloc), f),
        Some((first, rest)) => {
            let other = f.copy(alloc)?;
            let single = lone_first(alloc, first, rest, other)?;
            let inner = lone_by_one(alloc, rest, f)?;
            let each = each_value(alloc, first, inner)?;
            both(alloc, single, each)
        }
    }
}

/// The same for any variables whose names rise.
pub fn lone_alone(alloc: Global, list: &[Variable], f: Formula) -> Result<Formula, AllocError>
    ensures { IfOk result (λ g. claim_of g ≡ lone_by_one_claim
        (alone_binders [] (map variable_of list.now)) (claim_of f)) }
{
    let singles = alone(alloc, list)?;
    lone_by_one(alloc, &singles, f)
}

/// The formula holds for at most one choice of values of the variables.
#[tactic(auto, using(crate::proofs::Lists::lone_many, crate::proofs::Lists::lone_others))]
pub fn lone_under(alloc: Global, list: Vec<Variable>, f: Formula) -> Result<Formula, AllocError>
    ensures { IfOk result (λ g. claim_of g ≡ lone_under_claim (map variable_of list.items)
        (claim_of f)) }
{
    if are_many_rising(&list) {
        return lone_alone(alloc, &list, f);
    }
    lone_values(alloc, list, f)
}
