//! Which declarations are candidates on the ground on which a root stands.

ghost use Rattle.std.specs.Prelude.{◌≡◌, [], ◌∷◌, ◌++◌, cond, filter, slice_get, IfOk, OnOk, Some};
ghost use Rattle.resolve_read.specs.At.{at_of};
ghost use Rattle.resolve_read.specs.Candidates.{fields_on, gives_set, is_field, is_parameter, is_set_in, own_parameters, parameters_in, passes, standing, stands_in_body, stands_in_field};

use crate::own::has_field;
use crate::spot::Spot;
use crate::types::Ground;
use base_types::Name;
use resolve_names::{Decl, Namespace};
use resolve_readings::{Meaning, What};
use std::alloc::{AllocError, Global};
use syntax_tree::QualName;

/// By what a declaration is kept.
#[derive(Clone, Copy, Debug, Drop)]
pub enum Test {
    /// It is a field.
    Field,
    /// It is a parameter of a module.
    Parameter,
    /// It may stand in the bound of a field.
    FieldBound,
    /// It may stand in the bound of a parameter or a result.
    BodyBound,
}

/// Whether it is a value, a call of a function, or a function that waits for arguments.
fn gives_set(what: &What) -> bool
    ensures { result ≡ gives_set what.now }
{
    match what {
        What::Set(_) => true,
        What::Formula => false,
        What::Waiting(_, None) => false,
        What::Waiting(_, Some(_)) => true,
    }
}

/// Whether the body of that number gives a set.
fn is_set_in(bodies: &[Meaning], body: u32) -> bool
    ensures { result ≡ is_set_in (slice_get bodies.now body) }
{
    match bodies.get(body as usize) {
        None => false,
        Some(meaning) => gives_set(&meaning.what),
    }
}

/// Whether the declaration may stand in the bound of a parameter or a result.
fn stands_in_body(spot: &Spot<'_>, decl: Decl) -> bool
    ensures { result ≡ stands_in_body (at_of spot.now) decl }
{
    match decl {
        Decl::Body(body) => !is_set_in(spot.types.bodies.as_slice(), body),
        _ => true,
    }
}

/// Whether the declaration may stand in the bound of a field, where no parameter counts.
fn stands_in_field(spot: &Spot<'_>, decl: Decl) -> bool
    ensures { result ≡ stands_in_field (at_of spot.now) decl }
{
    match decl {
        Decl::Sig(_) => true,
        Decl::Field(field) => has_field(spot.own, field),
        _ => false,
    }
}

/// Whether it is a parameter of a module.
fn is_parameter(decl: Decl) -> bool
    ensures { result ≡ is_parameter decl }
{
    match decl {
        Decl::Parameter(_) => true,
        _ => false,
    }
}

/// Whether it is a field.
fn is_field(decl: Decl) -> bool
    ensures { result ≡ is_field decl }
{
    match decl {
        Decl::Field(_) => true,
        _ => false,
    }
}

/// Whether the declaration is kept.
fn passes(spot: &Spot<'_>, test: Test, decl: Decl) -> bool
    ensures { result ≡ passes (at_of spot.now) test decl }
{
    match test {
        Test::Field => is_field(decl),
        Test::Parameter => is_parameter(decl),
        Test::FieldBound => stands_in_field(spot, decl),
        Test::BodyBound => stands_in_body(spot, decl),
    }
}

/// Puts the declaration at the end where it is kept.
fn add_kept(decl: Decl, is_kept: bool, all: &mut Vec<Decl>) -> Result<(), AllocError>
    ensures { OnOk result (all.new.items ≡ all.old.items ++ cond is_kept (decl ∷ []) []) }
{
    if !is_kept {
        return Ok(());
    }
    all.push(decl)?;
    Ok(())
}

/// The declarations that are kept.
fn kept(alloc: Global, spot: &Spot<'_>, test: Test, decls: &[Decl]) -> Result<Vec<Decl>, AllocError>
    ensures { IfOk result (λ ds. ds.items ≡ filter (passes (at_of spot.now) test) decls.now) }
{
    let mut all = Vec::new(alloc);
    for decl in decls {
        add_kept(*decl, passes(spot, test, *decl), &mut all)?;
    }
    Ok(all)
}

/// The parameters of that name that the module has.
fn parameters_in(
    alloc: Global,
    spot: &Spot<'_>,
    scope: &Namespace,
    text: &str,
) -> Result<Vec<Decl>, AllocError>
    ensures { IfOk result (λ ds. ds.items ≡ parameters_in (Some scope.now) text.now) }
{
    let mut seen = Vec::new(alloc);
    scope.declared.add_seen(true, text, &mut seen)?;
    let all = kept(alloc, spot, Test::Parameter, seen.as_slice())?;
    Ok(all)
}

/// The parameters of that name that the own module has.
fn parameters_named(alloc: Global, spot: &Spot<'_>, text: &str) -> Result<Vec<Decl>, AllocError>
    ensures { IfOk result (λ ds. ds.items ≡ parameters_in (slice_get spot.now.names.now.scopes
        spot.now.instance) text.now) }
{
    match spot.names.scopes.as_slice().get(spot.instance as usize) {
        None => Ok(Vec::new(alloc)),
        Some(scope) => {
            let all = parameters_in(alloc, spot, scope, text)?;
            Ok(all)
        }
    }
}

/// The parameters of the own module for which a name may stand that has no path but `this/`.
fn own_parameters(alloc: Global, spot: &Spot<'_>, parts: &[Name]) -> Result<Vec<Decl>, AllocError>
    ensures { IfOk result (λ ds. ds.items ≡ own_parameters (at_of spot.now) parts.now) }
{
    if parts.len() != 1 {
        return Ok(Vec::new(alloc));
    }
    let all = parameters_named(alloc, spot, parts[0].text())?;
    Ok(all)
}

/// The candidates in the bound of a field.
fn standing_in_field(
    alloc: Global,
    spot: &Spot<'_>,
    name: &QualName,
    found: &[Decl],
) -> Result<Vec<Decl>, AllocError>
    ensures { IfOk result (λ ds. ds.items ≡ filter (stands_in_field (at_of spot.now)) found.now
        ++ own_parameters (at_of spot.now) name.now.parts) }
{
    let mut all = kept(alloc, spot, Test::FieldBound, found)?;
    let more = own_parameters(alloc, spot, name.parts.as_slice())?;
    all.extend_from_slice(more.as_slice())?;
    Ok(all)
}

/// Those that are candidates on the ground, of the declarations that a name stands for.
pub fn standing(
    alloc: Global,
    spot: &Spot<'_>,
    name: &QualName,
    found: Vec<Decl>,
) -> Result<Vec<Decl>, AllocError>
    ensures { IfOk result (λ ds. ds.items
        ≡ standing (at_of spot.now) name.now found.items) }
{
    match spot.ground {
        Ground::Anywhere => Ok(found),
        Ground::FieldBound => {
            let all = standing_in_field(alloc, spot, name, found.as_slice())?;
            Ok(all)
        }
        Ground::BodyBound => {
            let all = kept(alloc, spot, Test::BodyBound, found.as_slice())?;
            Ok(all)
        }
    }
}

/// The fields among the declarations that are candidates on the ground.
pub fn fields_on(alloc: Global, spot: &Spot<'_>, found: &[Decl]) -> Result<Vec<Decl>, AllocError>
    ensures { IfOk result (λ ds. ds.items
        ≡ fields_on (at_of spot.now) found.now spot.now.ground) }
{
    let fields = kept(alloc, spot, Test::Field, found)?;
    match spot.ground {
        Ground::FieldBound => {
            let all = kept(alloc, spot, Test::FieldBound, fields.as_slice())?;
            Ok(all)
        }
        _ => Ok(fields),
    }
}
