//! What a name may stand for where it stands, and which of these it is taken to stand for.

ghost use Rattle.std.specs.Prelude.{◌≡◌, ℕ, [], ◌∷◌, true, false, slice_get, IfOk, IfSome, IfNone, Some, None};
ghost use Rattle.resolve_names.specs.declared.table.Decl.{Decl};
ghost use Rattle.resolve_picks.specs.declared.target.Target.TheVariants as target;
ghost use Rattle.resolve_read.specs.At.{Scope, at_of, scope_of, type_of};
ghost use Rattle.resolve_read.specs.Candidates.{Chooses, ChoosesOwn, IsShown, Picked, PicksField, constant_type, own_named};
ghost use Rattle.resolve_rules.specs.Candidates.{set_of};
ghost use Rattle.resolve_said.specs.Said.{target_of, text_alone};

use crate::ground::{fields_on, standing};
use crate::locals::{Locals, type_of};
use crate::meanings::{column_of, meanings_of, set_meaning};
use crate::own::{meanings_of_this, own_named};
use crate::spot::Spot;
use base_lists::Items;
use base_types::Position;
use resolve_names::{Decl, Names};
use resolve_picks::Target;
use resolve_readings::Meaning;
use resolve_said::{is_target, text_alone};
use resolve_types::{Columns, Member};
use std::alloc::{AllocError, Global};
use syntax_tree::{Constant, QualName};

/// What a name means for each of its candidates, and the number of the chosen one.
#[derive(Drop)]
pub struct Chosen {
    pub meanings: Items<Meaning>,
    pub number: usize,
}

/// The number of the first declaration that is the target in the model.
fn number_of(names: &Names, decls: &[Decl], target: Target) -> Option<usize>
    ensures { IfSome result (λ n. (d : Decl) × (slice_get decls.now n ≡ Some d)
        × (target ≡ target_of names.now.scopes d)) }
{
    for place in 0..decls.len() {
        if is_target(names, decls[place], target) {
            return Some(place);
        }
    }
    None
}

/// The number of the first field that is the one picked in the model.
fn number_of_field(fields: &[u32], picked: Target) -> Option<usize>
    ensures { IfSome result (λ n. (f : ℕ) × (slice_get fields.now n ≡ Some f)
        × (picked ≡ target.Field f)) }
{
    for place in 0..fields.len() {
        if Target::Field(fields[place]) == picked {
            return Some(place);
        }
    }
    None
}

/// The declarations, of which the one is chosen that the name is taken to stand for.
fn choose(
    alloc: Global,
    spot: &Spot<'_>,
    name: &QualName,
    decls: &[Decl],
) -> Result<Option<Chosen>, AllocError>
    ensures { IfOk result (λ r. IfSome r (λ c. Chooses (at_of spot.now) name.now decls.now
        c.meanings c.number)) }
{
    let target = match spot.picks.picked(name.place) {
        None => return Ok(None),
        Some(target) => target,
    };
    let number = match number_of(spot.names, decls, target) {
        None => return Ok(None),
        Some(number) => number,
    };
    match meanings_of(alloc, spot, decls)? {
        None => Ok(None),
        Some(meanings) => Ok(Some(Chosen { meanings, number })),
    }
}

/// The fields of `this`, of which the one is chosen that the name is taken to stand for.
fn choose_own(
    alloc: Global,
    spot: &Spot<'_>,
    name: &QualName,
    fields: &[u32],
) -> Result<Option<Chosen>, AllocError>
    ensures { IfOk result (λ r. IfSome r (λ c. ChoosesOwn (at_of spot.now) name.now fields.now
        c.meanings c.number)) }
{
    let target = match spot.picks.picked(name.place) {
        None => return Ok(None),
        Some(target) => target,
    };
    let number = match number_of_field(fields, target) {
        None => return Ok(None),
        Some(number) => number,
    };
    match meanings_of_this(alloc, spot, fields)? {
        None => Ok(None),
        Some(meanings) => Ok(Some(Chosen { meanings, number })),
    }
}

/// The candidates of a name among what is declared.
fn picked_declared(
    alloc: Global,
    spot: &Spot<'_>,
    name: &QualName,
) -> Result<Option<Chosen>, AllocError>
    ensures { IfOk result (λ r. IfSome r (λ c. (scope : Scope)
        → IsShown (at_of spot.now) scope (text_alone name.now)
        → Picked (at_of spot.now) scope name.now c.meanings c.number)) }
{
    if spot.instance as usize >= spot.names.scopes.len() {
        return Ok(None);
    }
    let found = spot.names.candidates(alloc, spot.instance, name)?;
    let decls = standing(alloc, spot, name, found)?;
    let chosen = choose(alloc, spot, name, decls.as_slice())?;
    Ok(chosen)
}

/// The candidates of a name without a path that is none in scope.
fn picked_outer(
    alloc: Global,
    spot: &Spot<'_>,
    locals: &Locals<'_>,
    name: &QualName,
    text: &str,
) -> Result<Option<Chosen>, AllocError>
    ensures { IfOk result (λ r. IfSome r (λ c. text_alone name.now ≡ Some text.now
        → type_of text.now (scope_of locals.now) ≡ None
        → Picked (at_of spot.now) (scope_of locals.now) name.now c.meanings c.number)) }
{
    let _ = locals;
    let own = own_named(alloc, spot.own, text)?;
    if own.is_empty() {
        let chosen = picked_declared(alloc, spot, name)?;
        return Ok(chosen);
    }
    let chosen = choose_own(alloc, spot, name, own.as_slice())?;
    Ok(chosen)
}

/// The one candidate of a name in scope.
fn in_scope(alloc: Global, columns: &Columns) -> Result<Chosen, AllocError>
    ensures { IfOk result (λ c. (c.meanings ≡ set_of columns.now false ∷ []) × (c.number ≡ 0)) }
{
    let mut meanings = Items::new(alloc);
    let columns = columns.copy(alloc)?;
    meanings.push(set_meaning(columns, false))?;
    Ok(Chosen {
        meanings,
        number: 0,
    })
}

/// The candidates of a name without a path.
fn picked_alone(
    alloc: Global,
    spot: &Spot<'_>,
    locals: &Locals<'_>,
    name: &QualName,
    text: &str,
) -> Result<Option<Chosen>, AllocError>
    ensures { IfOk result (λ r. IfSome r (λ c. text_alone name.now ≡ Some text.now
        → Picked (at_of spot.now) (scope_of locals.now) name.now c.meanings c.number)) }
{
    match type_of(locals, text) {
        None => {
            let chosen = picked_outer(alloc, spot, locals, name, text)?;
            Ok(chosen)
        }
        Some(columns) => {
            let chosen = in_scope(alloc, columns)?;
            Ok(Some(chosen))
        }
    }
}

/// The candidates of a name, of which one is chosen; none where that is no candidate.
pub fn picked_name(
    alloc: Global,
    spot: &Spot<'_>,
    locals: &Locals<'_>,
    name: &QualName,
) -> Result<Option<Chosen>, AllocError>
    ensures { IfOk result (λ r. IfSome r (λ c. Picked (at_of spot.now) (scope_of locals.now)
        name.now c.meanings c.number)) }
{
    match text_alone(name) {
        None => {
            let chosen = picked_declared(alloc, spot, name)?;
            Ok(chosen)
        }
        Some(text) => {
            let chosen = picked_alone(alloc, spot, locals, name, text)?;
            Ok(chosen)
        }
    }
}

/// The fields that a name behind `@` may stand for, of which one is chosen.
pub fn picked_field(
    alloc: Global,
    spot: &Spot<'_>,
    name: &QualName,
) -> Result<Option<Chosen>, AllocError>
    ensures { IfOk result (λ r. IfSome r (λ c. PicksField (at_of spot.now) name.now c.meanings
        c.number)) }
{
    if spot.instance as usize >= spot.names.scopes.len() {
        return Ok(None);
    }
    let found = spot.names.candidates(alloc, spot.instance, name)?;
    let decls = fields_on(alloc, spot, found.as_slice())?;
    let chosen = choose(alloc, spot, name, decls.as_slice())?;
    Ok(chosen)
}

/// The type of a constant; none of `this`.
pub fn type_of_constant(
    alloc: Global,
    spot: &Spot<'_>,
    word: Constant,
) -> Result<Option<Columns>, AllocError>
    ensures { IfOk result (λ r. IfSome r (λ c. constant_type (at_of spot.now) word ≡ Some c)) }
{
    match word {
        Constant::This => Ok(None),
        Constant::Univ => {
            let columns = spot.types.univ.copy(alloc)?;
            Ok(Some(columns))
        }
        Constant::Iden => {
            let columns = spot.types.typing.iden.copy(alloc)?;
            Ok(Some(columns))
        }
        Constant::None => Ok(Some(Columns {
            count: 1,
            rows: Items::new(alloc),
        })),
        Constant::Int => {
            let columns = column_of(alloc, Member::Int)?;
            Ok(Some(columns))
        }
        Constant::String => {
            let columns = column_of(alloc, Member::Sig(spot.types.string))?;
            Ok(Some(columns))
        }
    }
}
