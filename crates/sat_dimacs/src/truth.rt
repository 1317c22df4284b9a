//! Whether an assignment satisfies clauses.

ghost use Rattle.std.specs.Prelude.{◌≡◌, ◌<◌, ◌↔◌, IsTrue};
ghost use Rattle.std.specs.List.{list_all};
ghost use Rattle.sat_dimacs.specs.Literal.{literal_value, clause_value, Satisfies, value_of};

use crate::clause::{Clause, ClauseList};

/// The value of a variable; one without a value is false.
#[inline]
fn value(values: &[bool], variable: u64) -> bool
    requires { 0 < variable }
    ensures { result ≡ value_of values.now variable }
{
    let place = variable as usize - 1;
    place < values.len() && values[place]
}

/// Whether a literal is true.
#[inline]
fn is_true(values: &[bool], literal: i64) -> bool
    ensures { result ≡ literal_value (value_of values.now) literal }
{
    if literal > 0 {
        value(values, literal as u64)
    } else if literal < 0 {
        !value(values, literal.unsigned_abs())
    } else {
        false
    }
}

/// Whether a clause is true, which is where one of its literals is.
fn is_true_clause(values: &[bool], literals: &[i64]) -> bool
    ensures { result ≡ clause_value (value_of values.now) literals.now }
{
    literals.iter().any(|literal| is_true(values, *literal))
}

/// Whether each clause is true.
fn are_true(values: &[bool], clauses: &[Clause]) -> bool
    ensures { result ≡ list_all (clause_value (value_of values.now)) clauses.now }
{
    clauses
        .iter()
        .all(|clause| is_true_clause(values, clause.literals()))
}

/// Whether each clause is true, where these are the values of the variables 1, 2 and on. A variable behind the last
/// value is false.
#[tactic(auto, using(crate::proofs::Satisfying::each_true, crate::proofs::Satisfying::all_true))]
pub fn satisfies(values: &[bool], clauses: &ClauseList) -> bool
    ensures { IsTrue result ↔ Satisfies (value_of values.now) clauses.now }
{
    are_true(values, clauses.clauses())
}
