//! The path of the plain search: the literals that were tried or forced, and the values by them.

ghost use Rattle.std.specs.Prelude.{◌≡◌, ◌≢◌, ◌+◌, ◌<◌, ◌≤◌, ℕ, IfOk, OnOk, IfSome, IfNone, IsSome, None, Some, Ok, length, nat_abs, [], ◌∷◌, ◌++◌, map, slice_index_or, neg_ℤ};
ghost use Rattle.test_dpll.specs.declared.path.Step.{Step};
ghost use Rattle.sat_dimacs.specs.Literal.{IsLiteral};
ghost use Rattle.test_dpll.specs.Steps.{value_by, under, denial_of, is_true, is_positive};
ghost use Rattle.test_dpll.specs.Path.{steps_of, IsPath, IsFree};

use sat_dimacs::Clause;
use std::alloc::{AllocError, Global};

/// A literal that was made true, and the number of the clause that was unit then; a literal that was tried has none.
#[derive(Clone, Copy, Debug, Drop)]
pub(crate) struct Step {
    pub literal: i64,
    pub reason: Option<u64>,
}

/// The steps so far, and the value that each variable has by them.
#[derive(Drop)]
pub(crate) struct Path {
    pub values: Vec<Option<bool>>,
    pub steps: Vec<Step>,
}

/// No step yet, and so many variables without a value.
pub(crate) fn new_path(alloc: Global, variables: u64) -> Result<Path, AllocError>
    ensures path { IfOk result IsPath }
    ensures steps { IfOk result (λ path. steps_of path ≡ []) }
    ensures size { IfOk result (λ path. length path.values.items ≡ variables) }
{
    let mut values = Vec::new(alloc);
    while (values.len() as u64) < variables {
        values.push(None)?;
    }
    Ok(Path {
        values,
        steps: Vec::new(alloc),
    })
}

/// The place of a literal's variable.
#[inline]
fn place_of(literal: &i64) -> usize
    requires { IsLiteral literal.now }
    ensures { result + 1 ≡ nat_abs literal.now }
{
    literal.unsigned_abs() as usize - 1
}

/// Whether a literal is true where its variable is.
#[inline]
fn is_positive(literal: i64) -> bool
    ensures { result ≡ is_positive literal }
{
    literal >= 0
}

/// The value of a literal, by that of its variable.
#[inline]
fn literal_under(literal: i64, value: Option<bool>) -> Option<bool>
    ensures { result ≡ under literal value }
{
    match value {
        None => None,
        Some(value) => Some(if is_positive(literal) { value } else { !value }),
    }
}

/// The value of a literal.
pub(crate) fn literal_value(path: &Path, literal: i64) -> Option<bool>
    requires path { IsPath path.now }
    requires literal { IsLiteral literal }
    requires within { nat_abs literal ≤ length path.now.values.items }
    ensures { result ≡ under literal (value_by (steps_of path.now) (nat_abs literal)) }
{
    literal_under(literal, path.values[place_of(&literal)])
}

/// Makes a literal true whose variable has no value.
pub(crate) fn push_step(path: &mut Path, step: Step) -> Result<(), AllocError>
    requires path { IsPath path.old }
    requires free { IsFree path.old step.literal }
    ensures path { OnOk result (IsPath path.new) }
    ensures steps { OnOk result (steps_of path.new ≡ step ∷ steps_of path.old) }
    ensures size { OnOk result (length path.new.values.items ≡ length path.old.values.items) }
{
    let place = place_of(&step.literal);
    path.steps.push(step)?;
    path.values[place] = Some(is_positive(step.literal));
    Ok(())
}

/// Takes the latest step back.
pub(crate) fn pop_step(path: &mut Path) -> Step
    requires path { IsPath path.old }
    requires some { 0 < length (steps_of path.old) }
    ensures path { IsPath path.new }
    ensures steps { steps_of path.old ≡ result ∷ steps_of path.new }
    ensures size { length path.new.values.items ≡ length path.old.values.items }
{
    match path.steps.pop() {
        None => unreachable!(),
        Some(step) => {
            let place = place_of(&step.literal);
            path.values[place] = None;
            step
        }
    }
}

/// The clause "not all of these steps", the latest one first.
pub(crate) fn denial(alloc: Global, path: &Path) -> Result<Clause, AllocError>
    requires { IsPath path.now }
    ensures { IfOk result (λ clause. clause ≡ denial_of (steps_of path.now)) }
{
    let mut clause = Clause::new(alloc);
    let mut place = path.steps.len();
    while place > 0 {
        place -= 1;
        push_negation(&mut clause, &path.steps[place].literal)?;
    }
    Ok(clause)
}

/// Adds the negation of a literal to a clause.
fn push_negation(clause: &mut Clause, literal: &i64) -> Result<(), AllocError>
    requires { IsLiteral literal.now }
    ensures { OnOk result (clause.new ≡ clause.old ++ neg_ℤ literal.now ∷ []) }
{
    clause.push(-*literal)
}

/// The least variable that has no value.
pub(crate) fn least_free(path: &Path) -> Option<u64>
    requires { IsPath path.now }
    ensures free { IfSome result (λ variable. (0 < variable)
        × (variable ≤ length path.now.values.items)
        × (value_by (steps_of path.now) variable ≡ None)) }
    ensures none { IfNone result ((variable : ℕ) → 0 < variable →
        variable ≤ length path.now.values.items → value_by (steps_of path.now) variable ≢ None) }
{
    for (place, value) in path.values.iter().enumerate() {
        if value.is_none() {
            return Some(place as u64 + 1);
        }
    }
    None
}

/// The value of each variable, where one without a value is false.
pub(crate) fn values_of(alloc: Global, path: &Path) -> Result<Vec<bool>, AllocError>
    ensures { IfOk result (λ values. values.items ≡ map is_true path.now.values.items) }
{
    let mut values = Vec::new(alloc);
    for value in &path.values {
        values.push(is_true(*value))?;
    }
    Ok(values)
}

/// Whether a variable with this value is true.
#[inline]
fn is_true(value: Option<bool>) -> bool
    ensures { result ≡ is_true value }
{
    match value {
        None => false,
        Some(value) => value,
    }
}
