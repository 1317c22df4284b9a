//! What an operator makes of what its operands are.

ghost use Rattle.std.specs.Prelude.{◌≡◌, ◌==◌, ◌&&◌, not, true, IfOk};
ghost use Rattle.resolve_types.specs.Types.{union_of, meets_of};
ghost use Rattle.resolve_types.specs.Rows.{distinct, transpose_of, closure_of};
ghost use Rattle.resolve_readings.specs.declared.part.Binary.TheVariants as binaries;
ghost use Rattle.resolve_readings.specs.declared.meaning.What.TheVariants as whats;
ghost use Rattle.resolve_readings.specs.Meanings.{when, of_one, agrees, integers as integers_of, plain_pair, joined_pair, compared as compared_by, of_pairs, of_set, of_formula, single_of, of_sets, given, given_next, pair_of};

use crate::meaning::{Meaning, What};
use crate::operands::{
    agree, are_plain, both, columns_of, does_formula_fit, does_set_fit, does_word_fit, has_count,
    integers, is_plain, joins, one, plain, same_count, waits,
};
use crate::part::{Binary, Typing, Unary};
use resolve_types::Columns;
use std::alloc::{AllocError, Global};

/// The rows of both: `+`, `++` and a conditional.
fn united(
    alloc: Global,
    a: &Columns,
    b: &Columns,
    left: &Meaning,
    right: &Meaning,
) -> Result<Option<Meaning>, AllocError>
    ensures { IfOk result (λ m. m ≡ plain_pair (a.now.count == b.now.count) (union_of a.now b.now)
        true left.now right.now) }
{
    if !are_plain(same_count(a, b), left, right) {
        return Ok(None);
    }
    let set = a.union(alloc, b)?;
    Ok(Some(plain(alloc, &set, true, left, right)?))
}

/// `-`
fn lessened(
    alloc: Global,
    a: &Columns,
    b: &Columns,
    left: &Meaning,
    right: &Meaning,
) -> Result<Option<Meaning>, AllocError>
    ensures { IfOk result (λ m. m ≡ plain_pair (a.now.count == b.now.count) a.now true left.now
        right.now) }
{
    if !are_plain(same_count(a, b), left, right) {
        return Ok(None);
    }
    Ok(Some(plain(alloc, a, true, left, right)?))
}

/// `&`
fn met(
    alloc: Global,
    typing: &Typing,
    a: &Columns,
    b: &Columns,
    left: &Meaning,
    right: &Meaning,
) -> Result<Option<Meaning>, AllocError>
    ensures { IfOk result (λ m. m ≡ plain_pair (a.now.count == b.now.count)
        (meets_of typing.now.lines a.now b.now) (agrees a.now b.now
        (meets_of typing.now.lines a.now b.now)) left.now right.now) }
{
    if !are_plain(same_count(a, b), left, right) {
        return Ok(None);
    }
    let set = a.meets(alloc, &typing.lines, b)?;
    let relevant = agree(a, b, &set);
    Ok(Some(plain(alloc, &set, relevant, left, right)?))
}

/// `->`
fn crossed(
    alloc: Global,
    typing: &Typing,
    marked: bool,
    a: &Columns,
    b: &Columns,
    left: &Meaning,
    right: &Meaning,
) -> Result<Option<Meaning>, AllocError>
    ensures { IfOk result (λ m. m ≡ of_sets typing.now (binaries.Arrow marked) a.now b.now left.now
        right.now) }
{
    let set = a.product(alloc, &typing.lines, b)?;
    let count = set.count;
    let marked = marked || left.marked || right.marked;
    Ok(Some(both(What::Set(set), marked, true, count, left, right)))
}

/// `<:`
fn left_restricted(
    alloc: Global,
    typing: &Typing,
    a: &Columns,
    b: &Columns,
    left: &Meaning,
    right: &Meaning,
) -> Result<Option<Meaning>, AllocError>
    ensures { IfOk result (λ m. m ≡ of_sets typing.now binaries.LeftRestrict a.now b.now left.now
        right.now) }
{
    if !are_plain(has_count(a, 1), left, right) {
        return Ok(None);
    }
    let set = a.restrict_left(alloc, &typing.lines, b)?;
    let relevant = agree(a, b, &set);
    Ok(Some(plain(alloc, &set, relevant, left, right)?))
}

/// `:>`
fn right_restricted(
    alloc: Global,
    typing: &Typing,
    a: &Columns,
    b: &Columns,
    left: &Meaning,
    right: &Meaning,
) -> Result<Option<Meaning>, AllocError>
    ensures { IfOk result (λ m. m ≡ of_sets typing.now binaries.RightRestrict a.now b.now left.now
        right.now) }
{
    if !are_plain(has_count(b, 1), left, right) {
        return Ok(None);
    }
    let set = a.restrict_right(alloc, &typing.lines, b)?;
    let relevant = agree(a, b, &set);
    Ok(Some(plain(alloc, &set, relevant, left, right)?))
}

/// One of the five operations on integers.
fn computed(
    alloc: Global,
    a: &Columns,
    b: &Columns,
    left: &Meaning,
    right: &Meaning,
) -> Result<Option<Meaning>, AllocError>
    ensures { IfOk result (λ m. m ≡ plain_pair (a.now.count == 1 && (b.now.count == 1)) integers_of
        true left.now right.now) }
{
    if !are_plain(has_count(a, 1) && has_count(b, 1), left, right) {
        return Ok(None);
    }
    let set = integers(alloc)?;
    Ok(Some(plain(alloc, &set, true, left, right)?))
}

/// `.` between two sets.
fn joined(
    alloc: Global,
    typing: &Typing,
    a: &Columns,
    b: &Columns,
    left: &Meaning,
    right: &Meaning,
) -> Result<Option<Meaning>, AllocError>
    ensures { IfOk result (λ m. m ≡ joined_pair typing.now a.now b.now left.now right.now) }
{
    if !are_plain(joins(a, b), left, right) {
        return Ok(None);
    }
    let set = a.join(alloc, &typing.lines, b)?;
    let relevant = agree(a, b, &set);
    Ok(Some(plain(alloc, &set, relevant, left, right)?))
}

/// A comparison, where a test is true.
fn compared(
    alloc: Global,
    typing: &Typing,
    test: bool,
    a: &Columns,
    b: &Columns,
    left: &Meaning,
    right: &Meaning,
) -> Result<Option<Meaning>, AllocError>
    ensures { IfOk result (λ m. m ≡ compared_by typing.now test a.now b.now left.now right.now) }
{
    if !is_plain(test, left) {
        return Ok(None);
    }
    let common = a.meets(alloc, &typing.lines, b)?;
    let relevant = agree(a, b, &common);
    Ok(Some(both(What::Formula, false, relevant, 0, left, right)))
}

/// The operator between two sets.
fn sets(
    alloc: Global,
    typing: &Typing,
    operator: Binary,
    a: &Columns,
    b: &Columns,
    left: &Meaning,
    right: &Meaning,
) -> Result<Option<Meaning>, AllocError>
    ensures { IfOk result (λ m. m ≡ of_sets typing.now operator a.now b.now left.now right.now) }
{
    match operator {
        Binary::Union => united(alloc, a, b, left, right),
        Binary::Difference => lessened(alloc, a, b, left, right),
        Binary::Override => united(alloc, a, b, left, right),
        Binary::Intersection => met(alloc, typing, a, b, left, right),
        Binary::Arrow(marked) => crossed(alloc, typing, marked, a, b, left, right),
        Binary::LeftRestrict => left_restricted(alloc, typing, a, b, left, right),
        Binary::RightRestrict => right_restricted(alloc, typing, a, b, left, right),
        Binary::Arithmetic => computed(alloc, a, b, left, right),
        Binary::Choose => united(alloc, a, b, left, right),
        Binary::Dot => joined(alloc, typing, a, b, left, right),
        Binary::Apply => joined(alloc, typing, b, a, right, left),
        Binary::In(word) => {
            let test = same_count(a, b) && does_word_fit(word, b.count);
            compared(alloc, typing, test, a, b, left, right)
        }
        Binary::Equal => {
            let test = is_plain(same_count(a, b), right);
            compared(alloc, typing, test, a, b, left, right)
        }
        Binary::Order => {
            let test = is_plain(has_count(a, 1) && has_count(b, 1), right);
            compared(alloc, typing, test, a, b, left, right)
        }
    }
}

/// An argument for the first parameter that a body waits for.
fn give_first(
    alloc: Global,
    typing: &Typing,
    first: &Columns,
    rest: &[Columns],
    value: &Option<Columns>,
    body: &Meaning,
    columns: &Columns,
    argument: &Meaning,
) -> Result<Option<Meaning>, AllocError>
    ensures { IfOk result (λ m. m ≡ given typing.now first.now rest.now value.now body.now
        columns.now argument.now) }
{
    if !is_plain(same_count(columns, first), argument) {
        return Ok(None);
    }
    let common = columns.meets(alloc, &typing.lines, first)?;
    let relevant = agree(columns, first, &common);
    let what = waits(alloc, rest, value)?;
    let widest = columns_of(rest, value);
    Ok(Some(both(what, false, relevant, widest, body, argument)))
}

/// The next argument of a body, where it waits for one.
fn give(
    alloc: Global,
    typing: &Typing,
    parameters: &[Columns],
    value: &Option<Columns>,
    body: &Meaning,
    columns: &Columns,
    argument: &Meaning,
) -> Result<Option<Meaning>, AllocError>
    ensures { IfOk result (λ m. m ≡ given_next typing.now parameters.now value.now body.now
        columns.now argument.now) }
{
    match parameters {
        [] => Ok(None),
        [first, rest @ ..] => {
            give_first(alloc, typing, first, rest, value, body, columns, argument)
        }
    }
}

/// What an operator makes of what its operands are, where that is right.
pub fn pair(
    alloc: Global,
    typing: &Typing,
    operator: Binary,
    left: &Meaning,
    right: &Meaning,
) -> Result<Option<Meaning>, AllocError>
    ensures { IfOk result (λ m. m ≡ pair_of typing.now operator left.now right.now) }
{
    match (operator, &left.what, &right.what) {
        (_, What::Set(a), What::Set(b)) => sets(alloc, typing, operator, a, b, left, right),
        (Binary::Dot, What::Set(a), What::Waiting(parameters, value)) => {
            give(alloc, typing, parameters.as_slice(), value, right, a, left)
        }
        (Binary::Apply, What::Waiting(parameters, value), What::Set(a)) => {
            give(alloc, typing, parameters.as_slice(), value, left, a, right)
        }
        _ => Ok(None),
    }
}

/// `~`
fn turned(alloc: Global, a: &Columns, part: &Meaning) -> Result<Option<Meaning>, AllocError>
    ensures { IfOk result (λ m. m ≡ of_pairs a.now (transpose_of a.now) part.now) }
{
    if !is_plain(has_count(a, 2), part) {
        return Ok(None);
    }
    let set = a.transpose(alloc)?;
    Ok(Some(one(What::Set(set), 2, part)))
}

/// `^`
fn closed(
    alloc: Global,
    typing: &Typing,
    a: &Columns,
    part: &Meaning,
) -> Result<Option<Meaning>, AllocError>
    ensures { IfOk result (λ m. m ≡ of_pairs a.now (closure_of typing.now.lines a.now) part.now) }
{
    if !is_plain(has_count(a, 2), part) {
        return Ok(None);
    }
    let set = a.closure(alloc, &typing.lines)?;
    Ok(Some(one(What::Set(set), 2, part)))
}

/// `*`
fn closed_with_same(
    alloc: Global,
    typing: &Typing,
    a: &Columns,
    part: &Meaning,
) -> Result<Option<Meaning>, AllocError>
    ensures { IfOk result (λ m. m ≡ of_pairs a.now
        (distinct (union_of (closure_of typing.now.lines a.now) typing.now.iden)) part.now) }
{
    if !is_plain(has_count(a, 2), part) {
        return Ok(None);
    }
    let walks = a.closure(alloc, &typing.lines)?;
    let all = walks.union(alloc, &typing.iden)?;
    let set = all.distinct(alloc)?;
    Ok(Some(one(What::Set(set), 2, part)))
}

/// `'` and the body of a `let`: a set with the type of its operand.
fn kept(alloc: Global, a: &Columns, part: &Meaning) -> Result<Option<Meaning>, AllocError>
    ensures { IfOk result (λ m. m ≡ when (not part.now.marked)
        (of_one (whats.Set a.now) a.now.count part.now)) }
{
    if part.marked {
        return Ok(None);
    }
    let set = a.copy(alloc)?;
    Ok(Some(one(What::Set(set), a.count, part)))
}

/// `#`
fn counted(alloc: Global, part: &Meaning) -> Result<Option<Meaning>, AllocError>
    ensures { IfOk result (λ m. m ≡ when (not part.now.marked)
        (of_one (whats.Set integers_of) 1 part.now)) }
{
    if part.marked {
        return Ok(None);
    }
    let set = integers(alloc)?;
    Ok(Some(one(What::Set(set), 1, part)))
}

/// The part itself, where a test is true.
fn copied(alloc: Global, test: bool, part: &Meaning) -> Result<Option<Meaning>, AllocError>
    ensures { IfOk result (λ m. m ≡ when test part.now) }
{
    if test {
        return Ok(Some(part.copy(alloc)?));
    }
    Ok(None)
}

/// An operator on a set.
fn set(
    alloc: Global,
    typing: &Typing,
    operator: Unary,
    a: &Columns,
    part: &Meaning,
) -> Result<Option<Meaning>, AllocError>
    ensures { IfOk result (λ m. m ≡ of_set typing.now operator a.now part.now) }
{
    match operator {
        Unary::Whole => copied(alloc, true, part),
        Unary::Transpose => turned(alloc, a, part),
        Unary::Closure => closed(alloc, typing, a, part),
        Unary::ReflexiveClosure => closed_with_same(alloc, typing, a, part),
        Unary::Count => counted(alloc, part),
        Unary::Prime => kept(alloc, a, part),
        Unary::Body => kept(alloc, a, part),
        Unary::Fits(place) => copied(alloc, does_set_fit(place, a, part.marked), part),
    }
}

/// An operator on a formula.
fn formula(alloc: Global, operator: Unary, part: &Meaning) -> Result<Option<Meaning>, AllocError>
    ensures { IfOk result (λ m. m ≡ of_formula operator part.now) }
{
    match operator {
        Unary::Whole => copied(alloc, true, part),
        Unary::Fits(place) => copied(alloc, does_formula_fit(place), part),
        _ => Ok(None),
    }
}

/// What an operator makes of what its operand is, where that is right.
pub fn single(
    alloc: Global,
    typing: &Typing,
    operator: Unary,
    part: &Meaning,
) -> Result<Option<Meaning>, AllocError>
    ensures { IfOk result (λ m. m ≡ single_of typing.now operator part.now) }
{
    match &part.what {
        What::Set(a) => set(alloc, typing, operator, a, part),
        What::Formula => formula(alloc, operator, part),
        What::Waiting(_, _) => Ok(None),
    }
}
