//! Whether formulas and expressions say what their texts say and are read right, by the names that are in scope in declarations:
//! none, or `this`.

ghost use Rattle.std.specs.Prelude.{◌≡◌, IfOk, IfSome, IsTrue, Some, slice_get};
ghost use Rattle.core_tree.specs.Trees.{claim_of, term_of};
ghost use Rattle.resolve_told_sigs.specs.Says.{SaysAlone, SaysBound, SaysOfThis, SaysValue, no_type};

use crate::typed::sig_type;
use base_lists::Items;
use core_tree::{Expr, Formula, Model};
use resolve_names::Names;
use resolve_picks::Picks;
use resolve_read::{
    Ground, Locals as Typed, Readings, Spot, Types, bound_type, is_read, root_type,
};
use resolve_readings::RootPlace;
use resolve_said::{Locals, OwnField, Site, says_formula, says_set};
use resolve_types::Columns;
use std::alloc::{AllocError, Global};
use syntax_tree::{Bound, Expr as Tree};

/// The type without columns.
pub fn no_type(alloc: Global) -> Columns
    ensures { result ≡ no_type }
{
    Columns {
        count: 0,
        rows: Items::new(alloc),
    }
}

/// What the names of an instance's text are taken to stand for, outside of all sigs.
pub fn picks_of(readings: &Readings, instance: u32) -> Option<&Picks>
    ensures { IfSome result (λ p. slice_get readings.now.of_instances instance ≡ Some p.now) }
{
    readings.of_instances.as_slice().get(instance as usize)
}

/// What the names in the appended fact of a sig and in the bounds of its fields are taken to stand for.
fn picks_in(readings: &Readings, sig: u32) -> Option<&Picks>
    ensures { IfSome result (λ p. slice_get readings.now.of_sigs sig ≡ Some p.now) }
{
    readings.of_sigs.as_slice().get(sig as usize)
}

/// Whether a formula says what its text says in an instance, where no name is in scope, and is read right.
pub fn says_alone(
    alloc: Global,
    names: &Names,
    model: &Model,
    readings: &Readings,
    instance: u32,
    tree: &Tree,
    formula: &Formula,
) -> Result<bool, AllocError>
    ensures { IfOk result (λ b. IsTrue b → SaysAlone names.now.scopes model.now readings.now
        instance tree.now (claim_of formula.now)) }
{
    let picks = match picks_of(readings, instance) {
        None => return Ok(false),
        Some(picks) => picks,
    };
    let site = Site {
        names,
        model,
        instance,
        own: &[],
        picks,
    };
    if !says_formula(alloc, &site, &Locals::Empty, tree, formula)? {
        return Ok(false);
    }
    let this = no_type(alloc);
    let spot = Spot {
        names,
        types: &readings.types,
        instance,
        own: &[],
        this: &this,
        ground: Ground::Anywhere,
        picks,
    };
    let read = is_read(alloc, &spot, &Typed::Empty, tree)?;
    Ok(read)
}

/// Whether an expression says what its text says in an instance, as the value of a `let`, where no name is in scope, and is read
/// right, by these types of the declarations and by what its names are taken to stand for.
pub fn says_value(
    alloc: Global,
    names: &Names,
    model: &Model,
    types: &Types,
    picks: &Picks,
    instance: u32,
    tree: &Tree,
    expr: &Expr,
) -> Result<bool, AllocError>
    ensures { IfOk result (λ b. IsTrue b → SaysValue names.now.scopes model.now types.now
        picks.now instance tree.now (term_of expr.now)) }
{
    let site = Site {
        names,
        model,
        instance,
        own: &[],
        picks,
    };
    if !says_set(alloc, &site, &Locals::Empty, tree, expr)? {
        return Ok(false);
    }
    let this = no_type(alloc);
    let spot = Spot {
        names,
        types,
        instance,
        own: &[],
        this: &this,
        ground: Ground::Anywhere,
        picks,
    };
    match root_type(alloc, &spot, &Typed::Empty, RootPlace::Value, tree)? {
        None => Ok(false),
        Some(_found) => Ok(true),
    }
}

/// Whether a formula says what its text says in a sig of an instance, where `this` is in scope, with these own fields, and is
/// read right.
pub fn says_of_this(
    alloc: Global,
    names: &Names,
    model: &Model,
    readings: &Readings,
    instance: u32,
    sig: u32,
    own: &[OwnField],
    tree: &Tree,
    formula: &Formula,
) -> Result<bool, AllocError>
    ensures { IfOk result (λ b. IsTrue b → SaysOfThis names.now.scopes model.now readings.now
        instance sig own.now tree.now (claim_of formula.now)) }
{
    let picks = match picks_in(readings, sig) {
        None => return Ok(false),
        Some(picks) => picks,
    };
    let this = match sig_type(&readings.types, sig) {
        None => return Ok(false),
        Some(this) => this,
    };
    let site = Site {
        names,
        model,
        instance,
        own,
        picks,
    };
    let locals = Locals::One("this", &Locals::Empty);
    if !says_formula(alloc, &site, &locals, tree, formula)? {
        return Ok(false);
    }
    let spot = Spot {
        names,
        types: &readings.types,
        instance,
        own,
        this,
        ground: Ground::Anywhere,
        picks,
    };
    let typed = Typed::One("this", this, &Typed::Empty);
    let read = is_read(alloc, &spot, &typed, tree)?;
    Ok(read)
}

/// The type of the bound of a field of a sig of an instance, where `this` is in scope, with these own fields; none if it doesn't say
/// what its text says, or isn't read right.
pub fn said_bound(
    alloc: Global,
    names: &Names,
    model: &Model,
    readings: &Readings,
    instance: u32,
    sig: u32,
    own: &[OwnField],
    written: &Bound,
    expr: &Expr,
) -> Result<Option<Columns>, AllocError>
    ensures { IfOk result (λ o. IfSome o (λ bound. SaysBound names.now.scopes model.now readings.now
        instance sig own.now written.now (term_of expr.now) bound)) }
{
    let picks = match picks_in(readings, sig) {
        None => return Ok(None),
        Some(picks) => picks,
    };
    let this = match sig_type(&readings.types, sig) {
        None => return Ok(None),
        Some(this) => this,
    };
    let site = Site {
        names,
        model,
        instance,
        own,
        picks,
    };
    let locals = Locals::One("this", &Locals::Empty);
    if !says_set(alloc, &site, &locals, &written.tree, expr)? {
        return Ok(None);
    }
    let spot = Spot {
        names,
        types: &readings.types,
        instance,
        own,
        this,
        ground: Ground::FieldBound,
        picks,
    };
    let typed = Typed::One("this", this, &Typed::Empty);
    match bound_type(alloc, &spot, &typed, written.word, &written.tree)? {
        None => Ok(None),
        Some(bound) => Ok(Some(bound)),
    }
}
