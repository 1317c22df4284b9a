//! Whether the readings of predicates and functions are right.

ghost use Rattle.std.specs.Prelude.{◌≡◌, true, IfOk};
ghost use Rattle.resolve_read.specs.At.{at_of, scope_of};
ghost use Rattle.resolve_told.specs.Reads.{FunctionReads, PredicateReads, ReceiverReads};
ghost use Rattle.resolve_told.specs.Spots.{AreSpots};

use crate::meaning::{means, parameter_types};
use crate::receiver::{decls_of, receiver_tree};
use crate::spots::{Spots, spots_of};
use resolve_names::Names;
use resolve_read::{Locals, Readings, bound_type, decl_types, is_read, root_type};
use resolve_readings::RootPlace;
use resolve_told_sigs::{no_type, picks_of};
use resolve_types::Columns;
use std::alloc::{AllocError, Global};
use std::slice;
use syntax_tree::{Fun, Pred};

/// A predicate or a function of an instance, and what is told of it.
#[derive(Clone, Copy, Drop)]
struct Body<'a> {
    names: &'a Names,
    readings: &'a Readings,
    /// The instance of the integers that are opened implicitly.
    integers: Option<u32>,
    instance: u32,
    /// Its number in the model.
    number: u32,
}

/// Whether the readings of a predicate are right, where what stands before its dot brings these names
/// into scope and these types among the parameters.
fn is_predicate_within(
    alloc: Global,
    body: &Body<'_>,
    spots: &Spots<'_>,
    outer: &Locals<'_>,
    first: &[Columns],
    predicate: &Pred,
) -> Result<bool, AllocError>
    ensures { IfOk result (λ b. b ≡ true
        → AreSpots body.now.names.now.scopes body.now.readings.now body.now.instance spots.now
        → ReceiverReads (at_of spots.now.bounds) predicate.now.receiver (scope_of outer.now)
        first.now
        → PredicateReads body.now.names.now.scopes body.now.readings.now body.now.integers
        body.now.instance body.now.number predicate.now) }
{
    let decls = decls_of(&predicate.parameters);
    let Some(types) = decl_types(alloc, &spots.bounds, outer, decls)? else {
        return Ok(false);
    };
    let parameters = parameter_types(alloc, first, decls, types.as_slice())?;
    if !means(
        body.readings,
        body.integers,
        body.instance,
        body.number,
        parameters.as_slice(),
        &None,
    ) {
        return Ok(false);
    }
    let locals = Locals::Declared(decls, types.as_slice(), outer);
    let read = is_read(alloc, &spots.inside, &locals, &predicate.block)?;
    Ok(read)
}

/// Whether the readings of a function are right, where what stands before its dot brings these names
/// into scope and these types among the parameters.
fn is_function_within(
    alloc: Global,
    body: &Body<'_>,
    spots: &Spots<'_>,
    outer: &Locals<'_>,
    first: &[Columns],
    function: &Fun,
) -> Result<bool, AllocError>
    ensures { IfOk result (λ b. b ≡ true
        → AreSpots body.now.names.now.scopes body.now.readings.now body.now.instance spots.now
        → ReceiverReads (at_of spots.now.bounds) function.now.receiver (scope_of outer.now)
        first.now
        → FunctionReads body.now.names.now.scopes body.now.readings.now body.now.integers
        body.now.instance body.now.number function.now) }
{
    let decls = decls_of(&function.parameters);
    let Some(types) = decl_types(alloc, &spots.bounds, outer, decls)? else {
        return Ok(false);
    };
    let locals = Locals::Declared(decls, types.as_slice(), outer);
    let bound = &function.result;
    let Some(columns) = bound_type(alloc, &spots.bounds, &locals, bound.word, &bound.tree)? else {
        return Ok(false);
    };
    let place = RootPlace::Columns(columns.count);
    let Some(_) = root_type(alloc, &spots.inside, &locals, place, &function.value)? else {
        return Ok(false);
    };
    let parameters = parameter_types(alloc, first, decls, types.as_slice())?;
    let returned = Some(columns);
    Ok(means(
        body.readings,
        body.integers,
        body.instance,
        body.number,
        parameters.as_slice(),
        &returned,
    ))
}

/// Whether the readings of a predicate are right, by where its roots stand.
fn is_predicate_at(
    alloc: Global,
    body: &Body<'_>,
    spots: &Spots<'_>,
    predicate: &Pred,
) -> Result<bool, AllocError>
    ensures { IfOk result (λ b. b ≡ true
        → AreSpots body.now.names.now.scopes body.now.readings.now body.now.instance spots.now
        → PredicateReads body.now.names.now.scopes body.now.readings.now body.now.integers
        body.now.instance body.now.number predicate.now) }
{
    let empty = Locals::Empty;
    match receiver_tree(alloc, &predicate.receiver)? {
        None => {
            let read = is_predicate_within(alloc, body, spots, &empty, &[], predicate)?;
            Ok(read)
        }
        Some(tree) => {
            let Some(this) = bound_type(alloc, &spots.bounds, &empty, None, &tree)? else {
                return Ok(false);
            };
            let outer = Locals::One("this", &this, &empty);
            let first = slice::from_ref(&this);
            let read = is_predicate_within(alloc, body, spots, &outer, first, predicate)?;
            Ok(read)
        }
    }
}

/// Whether the readings of a function are right, by where its roots stand.
fn is_function_at(
    alloc: Global,
    body: &Body<'_>,
    spots: &Spots<'_>,
    function: &Fun,
) -> Result<bool, AllocError>
    ensures { IfOk result (λ b. b ≡ true
        → AreSpots body.now.names.now.scopes body.now.readings.now body.now.instance spots.now
        → FunctionReads body.now.names.now.scopes body.now.readings.now body.now.integers
        body.now.instance body.now.number function.now) }
{
    let empty = Locals::Empty;
    match receiver_tree(alloc, &function.receiver)? {
        None => {
            let read = is_function_within(alloc, body, spots, &empty, &[], function)?;
            Ok(read)
        }
        Some(tree) => {
            let Some(this) = bound_type(alloc, &spots.bounds, &empty, None, &tree)? else {
                return Ok(false);
            };
            let outer = Locals::One("this", &this, &empty);
            let first = slice::from_ref(&this);
            let read = is_function_within(alloc, body, spots, &outer, first, function)?;
            Ok(read)
        }
    }
}

/// Whether the readings of a predicate are right, which has this number in the model and stands in
/// this instance.
pub fn is_predicate_read(
    alloc: Global,
    names: &Names,
    readings: &Readings,
    integers: Option<u32>,
    instance: u32,
    number: u32,
    predicate: &Pred,
) -> Result<bool, AllocError>
    ensures { IfOk result (λ b. b ≡ true → PredicateReads names.now.scopes readings.now integers
        instance number predicate.now) }
{
    let Some(picks) = picks_of(readings, instance) else {
        return Ok(false);
    };
    let this = no_type(alloc);
    let spots = spots_of(names, readings, instance, picks, &this);
    let body = Body {
        names,
        readings,
        integers,
        instance,
        number,
    };
    let read = is_predicate_at(alloc, &body, &spots, predicate)?;
    Ok(read)
}

/// Whether the readings of a function are right, which has this number in the model and stands in
/// this instance.
pub fn is_function_read(
    alloc: Global,
    names: &Names,
    readings: &Readings,
    integers: Option<u32>,
    instance: u32,
    number: u32,
    function: &Fun,
) -> Result<bool, AllocError>
    ensures { IfOk result (λ b. b ≡ true → FunctionReads names.now.scopes readings.now integers
        instance number function.now) }
{
    let Some(picks) = picks_of(readings, instance) else {
        return Ok(false);
    };
    let this = no_type(alloc);
    let spots = spots_of(names, readings, instance, picks, &this);
    let body = Body {
        names,
        readings,
        integers,
        instance,
        number,
    };
    let read = is_function_at(alloc, &body, &spots, function)?;
    Ok(read)
}
