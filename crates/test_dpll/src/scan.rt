//! What a path makes of the clauses: one is false, one is unit, all are true, or one is open.

ghost use Rattle.std.specs.Prelude.{◌≡◌, ◌≢◌, ◌+◌, ◌≤◌, nat_abs, length, All, true, if◌then◌else◌, IfNone, IfSome};
ghost use Rattle.sat_dimacs.specs.Literal.{IsLiteral, IsWithin};
ghost use Rattle.sat_lrat.specs.declared.line.Rest.{Rest};
ghost use Rattle.sat_lrat.specs.Step.{among, beside};
ghost use Rattle.sat_checker.specs.Answers.{together};
ghost use Rattle.test_dpll.specs.Path.{IsPath, IsFree, steps_of};
ghost use Rattle.test_dpll.specs.Steps.{denial_of};
ghost use Rattle.test_dpll.specs.Scan.{IsStatus, IsFound, IfFree, rest_from, is_true_literal, with_unit, with_open, with_status};
ghost use Rattle.test_dpll.specs.declared.path.Path.{Path};

use crate::path::{Path, literal_value};
use sat_dimacs::Clause;

/// What the steps make of a clause.
#[derive(Clone, Copy, Debug, PartialEq, Eq)]
pub(crate) enum Status {
    /// A literal is true.
    True,
    /// Each literal is false.
    False,
    /// This literal alone has no value, and the others are false.
    Unit(i64),
    /// This literal and another one have no value, and no literal is true.
    Open(i64),
}

/// What was found of a clause so far, with one more literal that has no value.
#[inline]
fn with_free(found: Status, literal: i64) -> Status
    requires { found ≢ Status.True }
    ensures rest { (rest : Rest) → together (rest_from result) rest
        ≡ together (rest_from found) (beside literal rest) }
    ensures free { (path : Path) → IsFree path literal → IfFree path found → IfFree path result }
    ensures kind { result ≢ Status.True }
{
    match found {
        Status::True => unreachable!(),
        Status::False => Status::Unit(literal),
        Status::Unit(other) if other == literal => found,
        Status::Unit(_) => Status::Open(literal),
        Status::Open(_) => found,
    }
}

/// What was found of a clause so far, with one literal more, or `None` where it is true.
fn with_literal(path: &Path, found: Status, literal: &i64) -> Option<Status>
    requires path { IsPath path.now }
    requires literal { IsLiteral literal.now }
    requires within { nat_abs literal.now ≤ length path.now.values.items }
    requires kind { found ≢ Status.True }
    ensures is_true { IfNone result (is_true_literal path.now literal.now ≡ true) }
    ensures rest { (rest : Rest) → IfSome result (λ next. together (rest_from next) rest
        ≡ together (rest_from found)
        (if among (denial_of (steps_of path.now)) literal.now then rest
        else beside literal.now rest)) }
    ensures free { IfFree path.now found → IfSome result (IfFree path.now) }
    ensures kind { IfSome result (λ next. next ≢ Status.True) }
{
    match literal_value(path, *literal) {
        Some(true) => None,
        Some(false) => Some(found),
        None => Some(with_free(found, *literal)),
    }
}

/// What the steps make of a clause.
#[tactic(auto, using(crate::proofs::Scanning::rest_more, crate::proofs::Scanning::true_at))]
fn status_of(path: &Path, literals: &[i64]) -> Status
    requires path { IsPath path.now }
    requires literals { All IsLiteral literals.now }
    requires within { IsWithin (length path.now.values.items) literals.now }
    ensures { IsStatus path.now literals.now result }
{
    let mut found = Status::False;
    for literal in literals {
        let Some(next) = with_literal(path, found, literal) else {
            return Status::True;
        };
        found = next;
    }
    found
}

/// What the steps make of the clauses together.
#[derive(Clone, Copy, Debug, PartialEq, Eq)]
pub(crate) enum Found {
    /// Each clause is true.
    True,
    /// The clause of this number is false.
    False(u64),
    /// No clause is false, and the one of this number is unit, with this literal left.
    Unit(u64, i64),
    /// No clause is false or unit, and this literal has no value.
    Open(i64),
}

/// What was found so far, with a unit clause more.
#[inline]
fn with_unit(found: Found, number: u64, literal: i64) -> Found
    ensures { result ≡ with_unit found number literal }
{
    match found {
        Found::Unit(..) | Found::False(_) => found,
        Found::True | Found::Open(_) => Found::Unit(number, literal),
    }
}

/// What was found so far, with an open clause more.
#[inline]
fn with_open(found: Found, literal: i64) -> Found
    ensures { result ≡ with_open found literal }
{
    match found {
        Found::True => Found::Open(literal),
        Found::Unit(..) | Found::False(_) | Found::Open(_) => found,
    }
}

/// What was found so far, with one clause more of that status and number.
fn with_status(found: Found, status: Status, number: u64) -> Found
    ensures { result ≡ with_status found status number }
{
    match status {
        Status::True => found,
        Status::False => Found::False(number),
        Status::Unit(literal) => with_unit(found, number, literal),
        Status::Open(literal) => with_open(found, literal),
    }
}

/// What the steps make of the clauses: a false one comes before a unit one, and that before an open one.
pub(crate) fn find(path: &Path, clauses: &[Clause]) -> Found
    requires path { IsPath path.now }
    requires within { All (IsWithin (length path.now.values.items)) clauses.now }
    ensures { IsFound path.now clauses.now (length clauses.now) result }
{
    let mut found = Found::True;
    for place in 0..clauses.len() {
        let status = status_of(path, clauses[place].literals());
        found = with_status(found, status, place as u64 + 1);
    }
    found
}
