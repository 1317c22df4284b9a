//! Whether each field of a model belongs to a sig or is placed by the formula of a command.

ghost use Rattle.std.specs.Prelude.{◌≡◌, ◌<◌, ◌≤◌, ◌^◌, All, IfOk, IfSome, IsSome, IsTrue, length, map};
ghost use Rattle.core_tree.specs.declared.operators.Quantity.TheVariants.{Some as SomeOf};
ghost use Rattle.core_tree.specs.Trees.{field, term_of, claim_of, variable_of, claim_list, variable_list};
ghost use Rattle.core_tree.specs.Models.{IsModel};
ghost use Rattle.core_laws.specs.Typed.{BoundsNameOwned};
ghost use Rattle.resolve_type_check.specs.Names.{names_of};
ghost use Rattle.bound_laws.specs.Placed.{IsKnownType, HasRowsOf, PlacesBound, NamesAfter, Places, PlaceAll, ArePlaced};
ghost use Rattle.answer_checks.specs.Fields.{AreOwnedBefore, IsBoundBelow, AreUnder, AreWith, PlacesIn};

use crate::below::is_term_below;
use core_tree::{Expr, Field, Formula, Model, Quantity, RowList, Variable};
use resolve_type_check::{NamedRows, NamedRowsList, are_within, names_copy, type_of, with_name};
use std::alloc::{AllocError, Global};

// ---- which fields belong to sigs

/// Whether a field belongs to a sig.
fn is_owned(field: &Field) -> bool
    ensures { IsTrue result → IsSome field.now.owner }
{
    match field.owner {
        None => false,
        Some(_) => true,
    }
}

/// How many fields come before the first that belongs to no sig.
fn owned_before(fields: &[Field]) -> usize
    ensures few { result ≤ length fields.now }
    ensures owned { AreOwnedBefore fields.now result }
{
    for place in 0..fields.len() {
        let owned = is_owned(&fields[place]);
        if !owned {
            return place;
        }
    }
    fields.len()
}

/// Whether the bound of a field, where it has one, names only fields below a number.
fn is_bound_below(sigs: usize, limit: usize, field: &Field) -> bool
    ensures { IsTrue result → IsBoundBelow sigs limit field.now }
{
    match &field.declared {
        None => true,
        Some(declared) => is_term_below(sigs, limit, &declared.bound.expr),
    }
}

/// The same of the bounds of all fields.
fn are_bounds_below(sigs: usize, limit: usize, fields: &[Field]) -> bool
    ensures { IsTrue result → All (IsBoundBelow sigs limit) fields.now }
{
    for field in fields {
        let below = is_bound_below(sigs, limit, field);
        if !below {
            return false;
        }
    }
    true
}

// ---- which fields a formula places

/// The type of an expression that calls no function, and names only sigs and the first fields.
fn known_type(
    alloc: Global,
    model: &Model,
    known: usize,
    names: &[NamedRows],
    expr: &Expr,
) -> Result<Option<RowList>, AllocError>
    requires { length model.now.sigs < 2 ^ 32 }
    ensures { IfOk result (λ o. IfSome o (IsKnownType model.now known (names_of names.now)
        (term_of expr.now))) }
{
    let below = is_term_below(model.sigs.len(), known, expr);
    if !below {
        return Ok(None);
    }
    type_of(alloc, model, names, expr)
}

/// Whether an expression is the field of this number.
fn is_field(expr: &Expr, number: usize) -> bool
    ensures { IsTrue result → term_of expr.now ≡ field number }
{
    match expr {
        Expr::Field(there) => *there as usize == number,
        _ => false,
    }
}

/// Whether a field is static and has all rows of a bound.
fn has_rows_of(
    alloc: Global,
    model: &Model,
    known: usize,
    names: &[NamedRows],
    next: &Field,
    bound: &Expr,
) -> Result<bool, AllocError>
    requires { length model.now.sigs < 2 ^ 32 }
    ensures { IfOk result (λ b. IsTrue b → HasRowsOf model.now known (names_of names.now) next.now
        (term_of bound.now)) }
{
    let varies = next.is_var;
    if varies {
        return Ok(false);
    }
    match known_type(alloc, model, known, names, bound)? {
        None => Ok(false),
        Some(rows) => Ok(are_within(rows.as_slice(), next.rows.as_slice())),
    }
}

/// How many fields are known where an expression lies in a bound: one more, where it is the next field.
fn after_bound(
    alloc: Global,
    model: &Model,
    known: usize,
    names: &[NamedRows],
    place: &Expr,
    bound: &Expr,
) -> Result<usize, AllocError>
    requires { length model.now.sigs < 2 ^ 32 }
    ensures { IfOk result (PlacesBound model.now (term_of place.now) (term_of bound.now)
        (names_of names.now) known) }
{
    let count = model.fields.len();
    if known >= count {
        return Ok(known);
    }
    let is_next = is_field(place, known);
    if !is_next {
        return Ok(known);
    }
    let next = model.fields.get(known);
    let has = has_rows_of(alloc, model, known, names, next, bound)?;
    if !has {
        return Ok(known);
    }
    Ok(known + 1)
}

/// Whether a quantity is `some`.
fn is_some(quantity: Quantity) -> bool
    ensures { IsTrue result → quantity ≡ SomeOf }
{
    match quantity {
        Quantity::Some => true,
        Quantity::No => false,
        Quantity::One => false,
        Quantity::Lone => false,
    }
}

/// The names under variables, where the bound of each has a type.
fn names_after(
    alloc: Global,
    model: &Model,
    known: usize,
    names: &[NamedRows],
    list: &[Variable],
) -> Result<Option<NamedRowsList>, AllocError>
    requires { length model.now.sigs < 2 ^ 32 }
    ensures { IfOk result (λ o. IfSome o (λ inner. NamesAfter model.now known
        (variable_list (map variable_of list.now)) (names_of names.now) (names_of inner))) }
{
    let mut inner = names_copy(alloc, names)?;
    for variable in list {
        match known_type(alloc, model, known, inner.as_slice(), &variable.bound)? {
            None => return Ok(None),
            Some(rows) => {
                inner = with_name(alloc, inner.as_slice(), variable.name, rows.as_slice())?;
            }
        }
    }
    Ok(Some(inner))
}

/// The same where there are some atoms for the variables.
fn names_under(
    alloc: Global,
    model: &Model,
    known: usize,
    names: &[NamedRows],
    quantity: Quantity,
    list: &[Variable],
) -> Result<Option<NamedRowsList>, AllocError>
    requires { length model.now.sigs < 2 ^ 32 }
    ensures { IfOk result (λ o. IfSome o (AreUnder model.now known quantity
        (variable_list (map variable_of list.now)) (names_of names.now))) }
{
    let some = is_some(quantity);
    if !some {
        return Ok(None);
    }
    names_after(alloc, model, known, names, list)
}

/// The names under a `let`, where its expression has a type.
fn names_with(
    alloc: Global,
    model: &Model,
    known: usize,
    names: &[NamedRows],
    name: u32,
    value: &Expr,
) -> Result<Option<NamedRowsList>, AllocError>
    requires { length model.now.sigs < 2 ^ 32 }
    ensures { IfOk result (λ o. IfSome o (AreWith model.now known name (term_of value.now)
        (names_of names.now))) }
{
    match known_type(alloc, model, known, names, value)? {
        None => Ok(None),
        Some(rows) => Ok(Some(with_name(alloc, names, name, rows.as_slice())?)),
    }
}

/// How many fields are known where a formula holds, with so many known before and names of these rows.
#[cycle(known)]
fn known_after(
    alloc: Global,
    model: &Model,
    known: usize,
    names: &[NamedRows],
    formula: &Formula,
) -> Result<usize, AllocError>
    requires { length model.now.sigs < 2 ^ 32 }
    ensures { IfOk result (Places model.now (claim_of formula.now) (names_of names.now) known) }
{
    match formula {
        Formula::Inside(_, _) => Ok(known),
        Formula::Equal(_, _) => Ok(known),
        Formula::Within(place, _, bound) => after_bound(alloc, model, known, names, place, bound),
        Formula::Test(_, _) => Ok(known),
        Formula::Compare(_, _, _) => Ok(known),
        Formula::Not(_) => Ok(known),
        Formula::Every(list) => known_after_all(alloc, model, known, names, list),
        Formula::Connect(_, _, _) => Ok(known),
        Formula::Choose(_, _, _) => Ok(known),
        Formula::ForAll(_, _) => Ok(known),
        Formula::Counted(quantity, list, f) => {
            let inner = names_under(alloc, model, known, names, *quantity, list)?;
            known_in(alloc, model, known, &inner, f)
        }
        Formula::Temporal(_, _) => Ok(known),
        Formula::TemporalPair(_, _, _) => Ok(known),
        Formula::Let(name, e, f) => {
            let inner = names_with(alloc, model, known, names, *name, e)?;
            known_in(alloc, model, known, &inner, f)
        }
        Formula::Call(_, _) => Ok(known),
    }
}

/// The same of formulas of which each holds.
#[cycle(known)]
fn known_after_all(
    alloc: Global,
    model: &Model,
    known: usize,
    names: &[NamedRows],
    list: &[Formula],
) -> Result<usize, AllocError>
    requires { length model.now.sigs < 2 ^ 32 }
    ensures { IfOk result (PlaceAll model.now (claim_list (map claim_of list.now))
        (names_of names.now) known) }
{
    let mut to = known;
    for formula in list {
        to = known_after(alloc, model, to, names, formula)?;
    }
    Ok(to)
}

/// The same of a formula in which these names are known, where there are any.
#[cycle(known)]
fn known_in(
    alloc: Global,
    model: &Model,
    known: usize,
    names: &Option<NamedRowsList>,
    formula: &Formula,
) -> Result<usize, AllocError>
    requires { length model.now.sigs < 2 ^ 32 }
    ensures { IfOk result (PlacesIn names.now (Places model.now (claim_of formula.now)) known) }
{
    match names {
        None => Ok(known),
        Some(inner) => known_after(alloc, model, known, inner.as_slice(), formula),
    }
}

/// Whether each field belongs to a sig or is placed by a formula, and the bounds of fields name only fields of sigs. It takes
/// time linear in the model, but for the types of bounds, whose time is that of their rows, and for the names that the formula
/// binds, of which each adds a copy of those before it. Errors where memory runs out.
pub fn places_fields(alloc: Global, model: &Model, formula: &Formula) -> Result<bool, AllocError>
    requires { IsModel model.now }
    ensures named { IfOk result (λ b. IsTrue b → BoundsNameOwned model.now) }
    ensures placed { IfOk result (λ b. IsTrue b → ArePlaced model.now (claim_of formula.now)) }
{
    let sigs = model.sigs.len();
    if sigs > u32::MAX as usize {
        return Ok(false);
    }
    let fields = model.fields.as_slice();
    let first = owned_before(fields);
    let below = are_bounds_below(sigs, first, fields);
    if !below {
        return Ok(false);
    }
    let none = NamedRowsList::new(alloc);
    let known = known_after(alloc, model, first, none.as_slice(), formula)?;
    let count = fields.len();
    if known != count {
        return Ok(false);
    }
    Ok(true)
}
